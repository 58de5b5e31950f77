//! Commands that change bytearrays and vectors, by numbers and bytes.
ghost use Rattle.std.specs.Prelude.{◌≡◌, Some, None};
ghost use Rattle.pybuf_command.specs.declared.commands.Verb.TheVariants as verb;
ghost use Rattle.pybuf_console.specs.Held.{held};
ghost use Rattle.pybuf_console.specs.Values.{bytes_value, number_value, object_value};
ghost use Rattle.pybuf_c.specs.Holding.{NoneHold};
ghost use Rattle.pybuf_c.specs.Worlds.{Asks, word_value, slice_value};

use crate::asking::{ask, ask_unowned};
use crate::status::NO_MEMORY;
use pybuf_command::{Command, Verb};
use pybuf_console::{SliceWords, WorldHandle, bytes_value, number_value, object_value, slice_of};
use pybuf_crossing::signed;
use pybuf_value::{NoMemory, Value};
use std::alloc::Global;

/// Adds a byte, by its size and its sign, at the end of a bytearray.
/// Example: on `bytearray(b"abc")` 100 answers 0 and makes `bytearray(b"abcd")`, and 256 answers 17 (`ValueError`).
#[unsafe(no_mangle)]
pub extern "C" fn pybuf_proved_append(
    handle: &mut WorldHandle,
    alloc: Global,
    subject: u64,
    magnitude: u64,
    negative: bool,
) -> u32
    ensures memory { result ≡ 1 → held handle.new ≡ held handle.old }
    ensures none { result ≡ 2 → NoneHold (held handle.old) (held handle.new) }
    ensures answered { Asks subject (verb.Append (word_value negative magnitude)) result handle.old handle.new }
{
    ask_unowned(
        handle,
        alloc,
        Command::Do {
            subject,
            verb: Verb::Append {
                value: number_value(signed(negative, magnitude)),
            },
        },
    )
}

/// Adds bytes at the end of a bytearray.
/// Example: on `bytearray(b"ab")` the bytes `b"cd"` answer 0, and make `bytearray(b"abcd")`.
#[unsafe(no_mangle)]
pub extern "C" fn pybuf_proved_extend(
    handle: &mut WorldHandle,
    alloc: Global,
    subject: u64,
    bytes: &[u8],
) -> u32
    ensures memory { result ≡ 1 → held handle.new ≡ held handle.old }
    ensures none { result ≡ 2 → NoneHold (held handle.old) (held handle.new) }
    ensures answered { Asks subject (verb.Extend (bytes_value bytes.now)) result handle.old handle.new }
{
    match bytes_value(alloc, bytes) {
        Ok(value) => ask(
            handle,
            alloc,
            Command::Do {
                subject,
                verb: Verb::Extend { value },
            },
        ),
        Err(NoMemory) => NO_MEMORY,
    }
}

/// Adds the bytes of another object, by its handle, at the end of a bytearray.
/// Example: on `bytearray(b"ab")` an object `b"cd"` answers 0, and makes `bytearray(b"abcd")`.
#[unsafe(no_mangle)]
pub extern "C" fn pybuf_proved_extend_by(
    handle: &mut WorldHandle,
    alloc: Global,
    subject: u64,
    other: u64,
) -> u32
    ensures memory { result ≡ 1 → held handle.new ≡ held handle.old }
    ensures none { result ≡ 2 → NoneHold (held handle.old) (held handle.new) }
    ensures answered { Asks subject (verb.Extend (object_value other)) result handle.old handle.new }
{
    ask_unowned(
        handle,
        alloc,
        Command::Do {
            subject,
            verb: Verb::Extend {
                value: object_value(other),
            },
        },
    )
}

/// Puts a byte, by its size and its sign, before the place that is nearest to an index.
/// Example: on `bytearray(b"abc")` the index -1 and the byte 90 answer 0, and make `bytearray(b"abZc")`.
#[unsafe(no_mangle)]
pub extern "C" fn pybuf_proved_insert(
    handle: &mut WorldHandle,
    alloc: Global,
    subject: u64,
    index: i64,
    magnitude: u64,
    negative: bool,
) -> u32
    ensures memory { result ≡ 1 → held handle.new ≡ held handle.old }
    ensures none { result ≡ 2 → NoneHold (held handle.old) (held handle.new) }
    ensures answered { Asks subject (verb.Insert (number_value index) (word_value negative magnitude)) result handle.old handle.new }
{
    ask_unowned(
        handle,
        alloc,
        Command::Do {
            subject,
            verb: Verb::Insert {
                index: number_value(index as i128),
                value: number_value(signed(negative, magnitude)),
            },
        },
    )
}

/// Takes out the byte at an index, which is the last reply then.
/// Example: on `bytearray(b"abc")` the index 0 answers 0, `pybuf_proved_last_number` tells 97; the index 3 answers 16.
#[unsafe(no_mangle)]
pub extern "C" fn pybuf_proved_pop(
    handle: &mut WorldHandle,
    alloc: Global,
    subject: u64,
    index: i64,
) -> u32
    ensures memory { result ≡ 1 → held handle.new ≡ held handle.old }
    ensures none { result ≡ 2 → NoneHold (held handle.old) (held handle.new) }
    ensures answered { Asks subject (verb.Pop (Some (number_value index))) result handle.old handle.new }
{
    ask_unowned(
        handle,
        alloc,
        Command::Do {
            subject,
            verb: Verb::Pop {
                index: Some(number_value(index as i128)),
            },
        },
    )
}

/// Takes out the last byte, which is the last reply then.
/// Example: on `bytearray(b"abc")` it answers 0, and `pybuf_proved_last_number` tells 99.
#[unsafe(no_mangle)]
pub extern "C" fn pybuf_proved_pop_last(
    handle: &mut WorldHandle,
    alloc: Global,
    subject: u64,
) -> u32
    ensures memory { result ≡ 1 → held handle.new ≡ held handle.old }
    ensures none { result ≡ 2 → NoneHold (held handle.old) (held handle.new) }
    ensures answered { Asks subject (verb.Pop None) result handle.old handle.new }
{
    ask_unowned(
        handle,
        alloc,
        Command::Do {
            subject,
            verb: Verb::Pop { index: None },
        },
    )
}

/// Takes out the first byte of a value, by its size and its sign.
/// Example: on `bytearray(b"abab")` 98 answers 0 and leaves `bytearray(b"aab")`, and 99 answers 17 (`ValueError`).
#[unsafe(no_mangle)]
pub extern "C" fn pybuf_proved_remove(
    handle: &mut WorldHandle,
    alloc: Global,
    subject: u64,
    magnitude: u64,
    negative: bool,
) -> u32
    ensures memory { result ≡ 1 → held handle.new ≡ held handle.old }
    ensures none { result ≡ 2 → NoneHold (held handle.old) (held handle.new) }
    ensures answered { Asks subject (verb.Remove (word_value negative magnitude)) result handle.old handle.new }
{
    ask_unowned(
        handle,
        alloc,
        Command::Do {
            subject,
            verb: Verb::Remove {
                value: number_value(signed(negative, magnitude)),
            },
        },
    )
}

/// Takes out all bytes.
/// Example: on `bytearray(b"abc")` it answers 0 and leaves none; with an unreleased view it answers 19 (`BufferError`).
#[unsafe(no_mangle)]
pub extern "C" fn pybuf_proved_clear(handle: &mut WorldHandle, alloc: Global, subject: u64) -> u32
    ensures memory { result ≡ 1 → held handle.new ≡ held handle.old }
    ensures none { result ≡ 2 → NoneHold (held handle.old) (held handle.new) }
    ensures answered { Asks subject verb.Clear result handle.old handle.new }
{
    ask_unowned(
        handle,
        alloc,
        Command::Do {
            subject,
            verb: Verb::Clear,
        },
    )
}

/// Turns the order of the bytes round.
/// Example: `bytearray(b"abc")` is `bytearray(b"cba")` then, and the answer is 0.
#[unsafe(no_mangle)]
pub extern "C" fn pybuf_proved_reverse(handle: &mut WorldHandle, alloc: Global, subject: u64) -> u32
    ensures memory { result ≡ 1 → held handle.new ≡ held handle.old }
    ensures none { result ≡ 2 → NoneHold (held handle.old) (held handle.new) }
    ensures answered { Asks subject verb.Reverse result handle.old handle.new }
{
    ask_unowned(
        handle,
        alloc,
        Command::Do {
            subject,
            verb: Verb::Reverse,
        },
    )
}

/// Takes out the byte at an index, as `pybuf_proved_pop` does, but the last reply is no byte.
/// Example: on `bytearray(b"abc")` the index -1 answers 0, and leaves `bytearray(b"ab")`.
#[unsafe(no_mangle)]
pub extern "C" fn pybuf_proved_delete(
    handle: &mut WorldHandle,
    alloc: Global,
    subject: u64,
    index: i64,
) -> u32
    ensures memory { result ≡ 1 → held handle.new ≡ held handle.old }
    ensures none { result ≡ 2 → NoneHold (held handle.old) (held handle.new) }
    ensures answered { Asks subject (verb.Del (number_value index)) result handle.old handle.new }
{
    ask_unowned(
        handle,
        alloc,
        Command::Do {
            subject,
            verb: Verb::Del {
                key: number_value(index as i128),
            },
        },
    )
}

/// Takes out the bytes of a slice.
/// Example: on `bytearray(b"abcdef")` the slice `::2` answers 0, and leaves `bytearray(b"bdf")`.
#[unsafe(no_mangle)]
pub extern "C" fn pybuf_proved_delete_slice(
    handle: &mut WorldHandle,
    alloc: Global,
    subject: u64,
    words: &SliceWords,
) -> u32
    ensures memory { result ≡ 1 → held handle.new ≡ held handle.old }
    ensures none { result ≡ 2 → NoneHold (held handle.old) (held handle.new) }
    ensures answered { Asks subject (verb.Del (slice_value words.now)) result handle.old handle.new }
{
    ask_unowned(
        handle,
        alloc,
        Command::Do {
            subject,
            verb: Verb::Del {
                key: Value::Slice(slice_of(words)),
            },
        },
    )
}

/// Puts the bytes repeated so many times in their place, and no byte for a negative number.
/// Example: on `bytearray(b"ab")` the count 2 answers 0, and makes `bytearray(b"abab")`.
#[unsafe(no_mangle)]
pub extern "C" fn pybuf_proved_repeat(
    handle: &mut WorldHandle,
    alloc: Global,
    subject: u64,
    count: i64,
) -> u32
    ensures memory { result ≡ 1 → held handle.new ≡ held handle.old }
    ensures none { result ≡ 2 → NoneHold (held handle.old) (held handle.new) }
    ensures answered { Asks subject (verb.IMul (number_value count)) result handle.old handle.new }
{
    ask_unowned(
        handle,
        alloc,
        Command::Do {
            subject,
            verb: Verb::IMul {
                count: number_value(count as i128),
            },
        },
    )
}

/// Makes a bytearray of the same bytes, whose handle is the last reply then.
/// Example: on `bytearray(b"abc")` it answers 0, and the new object is `bytearray(b"abc")`, with no view.
#[unsafe(no_mangle)]
pub extern "C" fn pybuf_proved_copy(handle: &mut WorldHandle, alloc: Global, subject: u64) -> u32
    ensures memory { result ≡ 1 → held handle.new ≡ held handle.old }
    ensures none { result ≡ 2 → NoneHold (held handle.old) (held handle.new) }
    ensures answered { Asks subject verb.Copy result handle.old handle.new }
{
    ask_unowned(
        handle,
        alloc,
        Command::Do {
            subject,
            verb: Verb::Copy,
        },
    )
}

/// Takes the bytes out of a vector, which is empty then. They are the last reply.
/// Example: on a vector of `b"abc"` it answers 0, and `pybuf_proved_last_bytes` copies `b"abc"`.
#[unsafe(no_mangle)]
pub extern "C" fn pybuf_proved_take(handle: &mut WorldHandle, alloc: Global, subject: u64) -> u32
    ensures memory { result ≡ 1 → held handle.new ≡ held handle.old }
    ensures none { result ≡ 2 → NoneHold (held handle.old) (held handle.new) }
    ensures answered { Asks subject verb.Take result handle.old handle.new }
{
    ask_unowned(
        handle,
        alloc,
        Command::Do {
            subject,
            verb: Verb::Take,
        },
    )
}
