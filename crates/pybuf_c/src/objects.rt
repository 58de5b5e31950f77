//! Commands for the objects of a world, by numbers and bytes.
ghost use Rattle.std.specs.Prelude.{◌≡◌, ◌≢◌, ◌↔◌, ◌<◌, Some, None};
ghost use Rattle.pybuf_command.specs.declared.commands.Verb.TheVariants as verb;
ghost use Rattle.pybuf_console.specs.Held.{held};
ghost use Rattle.pybuf_console.specs.Values.{bytes_value, number_value, object_value, text_value, tuple_of};
ghost use Rattle.pybuf_crossing.specs.Words.{signed, IsNoWord};
ghost use Rattle.pybuf_c.specs.Holding.{NoneHold};
ghost use Rattle.pybuf_console.specs.Replies as replies;
ghost use Rattle.pybuf_c.specs.Worlds.{HasNoNumber, IsRefusedBy, Asks, AsksKnown, MakesExporter, AsksProperty, AsksComparison, HasGot, word_value, slice_value, OfLast, LastIsWord};
ghost use Rattle.std.specs.Str.{IsUtf8};

use crate::asking::{ask, ask_unowned};
use crate::numbers::{kind_numbered, operator_numbered, property_numbered};
use crate::status::{BAD_ARGUMENT, NO_MEMORY, NO_WORLD, NOTHING, OK, fault_number};
use pybuf_command::{Command, Reply, Verb};
use pybuf_console::{
    SliceWords, WorldHandle, bytes_value, number_of, number_value, object_value, slice_of,
    source_of, text_value, tuple_of,
};
use pybuf_crossing::{signed, word_of};
use pybuf_value::{Item, NoMemory, Scalar, Value};
use std::alloc::Global;
use std::mem;

/// Makes an exporter of a kind, by its number from 0 to 3, of a copy of these bytes. Its handle is the last reply
/// then. Another kind answers 6.
/// Example: the kind 1 and the bytes `b"abc"` in an empty world make the object 0, which is `bytearray(b"abc")`.
#[unsafe(no_mangle)]
pub extern "C" fn pybuf_proved_new(
    handle: &mut WorldHandle,
    alloc: Global,
    kind: u32,
    bytes: &[u8],
) -> u32
    ensures memory { result ≡ 1 → held handle.new ≡ held handle.old }
    ensures none { result ≡ 2 → NoneHold (held handle.old) (held handle.new) }
    ensures bad { (result ≡ 6) ↔ (3 < kind) }
    ensures bad_kept { result ≡ 6 → held handle.new ≡ held handle.old }
    ensures answered { MakesExporter kind bytes.now result handle.old handle.new }
{
    let Some(kind) = kind_numbered(kind) else {
        return BAD_ARGUMENT;
    };
    match source_of(alloc, bytes) {
        Ok(options) => ask(handle, alloc, Command::New { kind, options }),
        Err(NoMemory) => NO_MEMORY,
    }
}

/// Makes a view of an object, as Python's `memoryview(object)`. Its handle is the last reply then.
/// Example: of the object 0 in a world of one object it makes the object 1.
#[unsafe(no_mangle)]
pub extern "C" fn pybuf_proved_view(handle: &mut WorldHandle, alloc: Global, subject: u64) -> u32
    ensures memory { result ≡ 1 → held handle.new ≡ held handle.old }
    ensures none { result ≡ 2 → NoneHold (held handle.old) (held handle.new) }
    ensures answered { Asks subject verb.View result handle.old handle.new }
{
    ask_unowned(
        handle,
        alloc,
        Command::Do {
            subject,
            verb: Verb::View,
        },
    )
}

/// Makes a view of the same items that may only be read. Its handle is the last reply then.
/// Example: of a view of a bytearray it answers 0, and `pybuf_proved_set` of the new view answers 18 (`TypeError`).
#[unsafe(no_mangle)]
pub extern "C" fn pybuf_proved_to_readonly(
    handle: &mut WorldHandle,
    alloc: Global,
    subject: u64,
) -> u32
    ensures memory { result ≡ 1 → held handle.new ≡ held handle.old }
    ensures none { result ≡ 2 → NoneHold (held handle.old) (held handle.new) }
    ensures answered { Asks subject verb.ToReadonly result handle.old handle.new }
{
    ask_unowned(
        handle,
        alloc,
        Command::Do {
            subject,
            verb: Verb::ToReadonly,
        },
    )
}

/// Makes a vector of the bytes of a view, and a view of it. Their handles are the last reply then.
/// Example: of the slice `::-2` of a view of `b"abcdef"` it makes a vector of `b"fdb"`.
#[unsafe(no_mangle)]
pub extern "C" fn pybuf_proved_to_contiguous(
    handle: &mut WorldHandle,
    alloc: Global,
    subject: u64,
) -> u32
    ensures memory { result ≡ 1 → held handle.new ≡ held handle.old }
    ensures none { result ≡ 2 → NoneHold (held handle.old) (held handle.new) }
    ensures answered { Asks subject verb.ToContiguous result handle.old handle.new }
{
    ask_unowned(
        handle,
        alloc,
        Command::Do {
            subject,
            verb: Verb::ToContiguous,
        },
    )
}

/// Makes a view of the bytes of a view as items of a format, whose handle is the last reply then. A format that is no
/// UTF-8 answers 6.
/// Example: of a view of `b"\x01\x00\x02\x00"` the format `H` makes a view of the items 1 and 2.
#[unsafe(no_mangle)]
pub extern "C" fn pybuf_proved_cast(
    handle: &mut WorldHandle,
    alloc: Global,
    subject: u64,
    format: &[u8],
) -> u32
    ensures memory { result ≡ 1 → held handle.new ≡ held handle.old }
    ensures none { result ≡ 2 → NoneHold (held handle.old) (held handle.new) }
    ensures bad { result ≡ 6 → IsUtf8 format.now → ⊥ }
    ensures bad_kept { result ≡ 6 → held handle.new ≡ held handle.old }
    ensures answered { AsksKnown subject (verb.Cast (text_value format.now) None) result handle.old handle.new }
{
    match text_value(alloc, format) {
        Ok(Some(format)) => ask(
            handle,
            alloc,
            Command::Do {
                subject,
                verb: Verb::Cast {
                    format,
                    shape: None,
                },
            },
        ),
        Ok(None) => BAD_ARGUMENT,
        Err(NoMemory) => NO_MEMORY,
    }
}

/// Makes a view of the bytes of a view as items of a format, in a shape, whose handle is the last reply then. A
/// format that is no UTF-8 answers 6.
/// Example: of a view of six bytes the format `B` and the shape `[2, 3]` make a view of two rows of three items.
#[unsafe(no_mangle)]
pub extern "C" fn pybuf_proved_cast_to_shape(
    handle: &mut WorldHandle,
    alloc: Global,
    subject: u64,
    format: &[u8],
    shape: &[i64],
) -> u32
    ensures memory { result ≡ 1 → held handle.new ≡ held handle.old }
    ensures none { result ≡ 2 → NoneHold (held handle.old) (held handle.new) }
    ensures bad { result ≡ 6 → IsUtf8 format.now → ⊥ }
    ensures bad_kept { result ≡ 6 → held handle.new ≡ held handle.old }
    ensures answered { AsksKnown subject (verb.Cast (text_value format.now) (Some (tuple_of shape.now))) result handle.old handle.new }
{
    let Ok(shape) = tuple_of(alloc, shape) else {
        return NO_MEMORY;
    };
    match text_value(alloc, format) {
        Ok(Some(format)) => ask(
            handle,
            alloc,
            Command::Do {
                subject,
                verb: Verb::Cast {
                    format,
                    shape: Some(shape),
                },
            },
        ),
        Ok(None) => BAD_ARGUMENT,
        Err(NoMemory) => NO_MEMORY,
    }
}

/// Reads the item at an index, which is the last reply then.
/// Example: of `bytearray(b"abc")` the index -1 answers 0, and `pybuf_proved_last_number` tells 99.
#[unsafe(no_mangle)]
pub extern "C" fn pybuf_proved_get(
    handle: &mut WorldHandle,
    alloc: Global,
    subject: u64,
    index: i64,
) -> u32
    ensures memory { result ≡ 1 → held handle.new ≡ held handle.old }
    ensures none { result ≡ 2 → NoneHold (held handle.old) (held handle.new) }
    ensures answered { Asks subject (verb.Get (number_value index)) result handle.old handle.new }
{
    ask_unowned(
        handle,
        alloc,
        Command::Do {
            subject,
            verb: Verb::Get {
                key: number_value(index as i128),
            },
        },
    )
}

/// Tells a number as a size and a sign, where a `u64` holds the size.
#[inline(always)]
fn tell_number(number: i128, magnitude: &mut u64, negative: &mut bool) -> u32
    ensures ok { result ≡ 0 → number ≡ signed negative.new magnitude.new }
    ensures past { result ≢ 0 → result ≡ 5 }
    ensures nothing { result ≡ 5 → IsNoWord (Some number) }
{
    match word_of(Some(number)) {
        Some((size, below)) => {
            *magnitude = size;
            *negative = below;
            OK
        }
        None => NOTHING,
    }
}

/// Tells the number that a reply is. The number of an item comes first, since it is asked for most.
#[inline(always)]
fn tell_reply(reply: &Reply, magnitude: &mut u64, negative: &mut bool) -> u32
    ensures ok { result ≡ 0 → replies.number_of reply.now ≡ Some (signed negative.new magnitude.new) }
    ensures nothing { result ≡ 5 → HasNoNumber reply.now }
    ensures refused { result ≢ 0 → result ≢ 5 → IsRefusedBy result reply.now }
    ensures memory { result ≢ 1 }
    ensures world { result ≢ 2 }
{
    match reply {
        Reply::Item(Item::One(Scalar::Int(number))) => tell_number(*number, magnitude, negative),
        Reply::Refused(fault) => fault_number(*fault),
        _ => match number_of(reply) {
            Some(number) => tell_number(number, magnitude, negative),
            None => NOTHING,
        },
    }
}

/// Reads the item at an index, and tells it as a size and a sign where it is a number. It answers 5 where the item is
/// none, or none that a size of 64 bits tells.
/// Example: of `bytearray(b"abc")` the index -1 answers 0, and tells the size 99 and the sign false.
#[unsafe(no_mangle)]
pub extern "C" fn pybuf_proved_get_number(
    handle: &mut WorldHandle,
    alloc: Global,
    subject: u64,
    index: i64,
    magnitude: &mut u64,
    negative: &mut bool,
) -> u32
    ensures memory { result ≡ 1 → held handle.new ≡ held handle.old }
    ensures none { result ≡ 2 → NoneHold (held handle.old) (held handle.new) }
    ensures asked { HasGot subject (number_value index) result handle.old handle.new }
    ensures ok { result ≡ 0 → LastIsWord negative.new magnitude.new handle.new }
    ensures nothing { result ≡ 5 → OfLast HasNoNumber handle.new }
    ensures refused { result ≢ 0 → result ≢ 1 → result ≢ 2 → result ≢ 5 → OfLast (IsRefusedBy result) handle.new }
{
    let Some(mut console) = handle.take(alloc) else {
        return NO_WORLD;
    };
    let command = Command::Do {
        subject,
        verb: Verb::Get {
            key: number_value(index as i128),
        },
    };
    let asked = console.ask(&command);
    mem::forget(command);
    let told = tell_reply(console.last(), magnitude, negative);
    handle.put(console);
    match asked {
        Ok(()) => told,
        Err(NoMemory) => NO_MEMORY,
    }
}

/// Reads the item at an index for each dimension, which is the last reply then.
/// Example: of a view of `b"abcdef"` cast in the shape `[2, 3]` the indices `[1, 2]` read 102.
#[unsafe(no_mangle)]
pub extern "C" fn pybuf_proved_get_at(
    handle: &mut WorldHandle,
    alloc: Global,
    subject: u64,
    indices: &[i64],
) -> u32
    ensures memory { result ≡ 1 → held handle.new ≡ held handle.old }
    ensures none { result ≡ 2 → NoneHold (held handle.old) (held handle.new) }
    ensures answered { Asks subject (verb.Get (tuple_of indices.now)) result handle.old handle.new }
{
    match tuple_of(alloc, indices) {
        Ok(key) => ask(
            handle,
            alloc,
            Command::Do {
                subject,
                verb: Verb::Get { key },
            },
        ),
        Err(NoMemory) => NO_MEMORY,
    }
}

/// Reads a slice. The last reply is bytes where the object is an exporter, and the handle of a new view where it is a
/// view.
/// Example: of `bytearray(b"abcdef")` the slice `1:4` answers 0, and `pybuf_proved_last_bytes` copies `b"bcd"`.
#[unsafe(no_mangle)]
pub extern "C" fn pybuf_proved_get_slice(
    handle: &mut WorldHandle,
    alloc: Global,
    subject: u64,
    words: &SliceWords,
) -> u32
    ensures memory { result ≡ 1 → held handle.new ≡ held handle.old }
    ensures none { result ≡ 2 → NoneHold (held handle.old) (held handle.new) }
    ensures answered { Asks subject (verb.Get (slice_value words.now)) result handle.old handle.new }
{
    ask_unowned(
        handle,
        alloc,
        Command::Do {
            subject,
            verb: Verb::Get {
                key: Value::Slice(slice_of(words)),
            },
        },
    )
}

/// Writes a number, by its size and its sign, as the item at an index.
/// Example: of `bytearray(b"abc")` the index 0 and 65 answer 0, and make `bytearray(b"Abc")`.
#[unsafe(no_mangle)]
pub extern "C" fn pybuf_proved_set(
    handle: &mut WorldHandle,
    alloc: Global,
    subject: u64,
    index: i64,
    magnitude: u64,
    negative: bool,
) -> u32
    ensures memory { result ≡ 1 → held handle.new ≡ held handle.old }
    ensures none { result ≡ 2 → NoneHold (held handle.old) (held handle.new) }
    ensures answered { Asks subject (verb.Set (number_value index) (word_value negative magnitude)) result handle.old handle.new }
{
    ask_unowned(
        handle,
        alloc,
        Command::Do {
            subject,
            verb: Verb::Set {
                key: number_value(index as i128),
                value: number_value(signed(negative, magnitude)),
            },
        },
    )
}

/// Writes a number, by its size and its sign, as the item at an index for each dimension.
/// Example: of a view of `b"abcdef"` cast in the shape `[2, 3]` the indices `[0, 1]` and 66 make `b"aBcdef"`.
#[unsafe(no_mangle)]
pub extern "C" fn pybuf_proved_set_at(
    handle: &mut WorldHandle,
    alloc: Global,
    subject: u64,
    indices: &[i64],
    magnitude: u64,
    negative: bool,
) -> u32
    ensures memory { result ≡ 1 → held handle.new ≡ held handle.old }
    ensures none { result ≡ 2 → NoneHold (held handle.old) (held handle.new) }
    ensures answered { Asks subject (verb.Set (tuple_of indices.now) (word_value negative magnitude)) result handle.old handle.new }
{
    match tuple_of(alloc, indices) {
        Ok(key) => ask(
            handle,
            alloc,
            Command::Do {
                subject,
                verb: Verb::Set {
                    key,
                    value: number_value(signed(negative, magnitude)),
                },
            },
        ),
        Err(NoMemory) => NO_MEMORY,
    }
}

/// Puts bytes in place of a slice.
/// Example: of `bytearray(b"abc")` the slice `0:2` and the bytes `b"XYZ"` answer 0, and make `bytearray(b"XYZc")`.
#[unsafe(no_mangle)]
pub extern "C" fn pybuf_proved_set_slice(
    handle: &mut WorldHandle,
    alloc: Global,
    subject: u64,
    words: &SliceWords,
    bytes: &[u8],
) -> u32
    ensures memory { result ≡ 1 → held handle.new ≡ held handle.old }
    ensures none { result ≡ 2 → NoneHold (held handle.old) (held handle.new) }
    ensures answered { Asks subject (verb.Set (slice_value words.now) (bytes_value bytes.now)) result handle.old handle.new }
{
    match bytes_value(alloc, bytes) {
        Ok(value) => ask(
            handle,
            alloc,
            Command::Do {
                subject,
                verb: Verb::Set {
                    key: Value::Slice(slice_of(words)),
                    value,
                },
            },
        ),
        Err(NoMemory) => NO_MEMORY,
    }
}

/// Puts what another object holds, by its handle, in place of a slice.
/// Example: of a view of `bytearray(b"abc")` the slice `::-1` and the view itself make `bytearray(b"cba")`.
#[unsafe(no_mangle)]
pub extern "C" fn pybuf_proved_set_slice_of(
    handle: &mut WorldHandle,
    alloc: Global,
    subject: u64,
    words: &SliceWords,
    other: u64,
) -> u32
    ensures memory { result ≡ 1 → held handle.new ≡ held handle.old }
    ensures none { result ≡ 2 → NoneHold (held handle.old) (held handle.new) }
    ensures answered { Asks subject (verb.Set (slice_value words.now) (object_value other)) result handle.old handle.new }
{
    ask_unowned(
        handle,
        alloc,
        Command::Do {
            subject,
            verb: Verb::Set {
                key: Value::Slice(slice_of(words)),
                value: object_value(other),
            },
        },
    )
}

/// Releases a view. A second time changes nothing, and answers 0 too.
/// Example: after it `pybuf_proved_length` of the view answers 17 (`ValueError`).
#[unsafe(no_mangle)]
pub extern "C" fn pybuf_proved_release(handle: &mut WorldHandle, alloc: Global, subject: u64) -> u32
    ensures memory { result ≡ 1 → held handle.new ≡ held handle.old }
    ensures none { result ≡ 2 → NoneHold (held handle.old) (held handle.new) }
    ensures answered { Asks subject verb.Release result handle.old handle.new }
{
    ask_unowned(
        handle,
        alloc,
        Command::Do {
            subject,
            verb: Verb::Release,
        },
    )
}

/// Reads the length, as Python's `len(object)`. It is the last reply then.
/// Example: of `bytearray(b"abc")` it answers 0, and `pybuf_proved_last_number` tells 3.
#[unsafe(no_mangle)]
pub extern "C" fn pybuf_proved_length(handle: &mut WorldHandle, alloc: Global, subject: u64) -> u32
    ensures memory { result ≡ 1 → held handle.new ≡ held handle.old }
    ensures none { result ≡ 2 → NoneHold (held handle.old) (held handle.new) }
    ensures answered { Asks subject verb.Len result handle.old handle.new }
{
    ask_unowned(
        handle,
        alloc,
        Command::Do {
            subject,
            verb: Verb::Len,
        },
    )
}

/// Reads the bytes, of a view row by row. They are the last reply then.
/// Example: of `bytearray(b"abc")` it answers 0, and `pybuf_proved_last_bytes` copies `b"abc"`.
#[unsafe(no_mangle)]
pub extern "C" fn pybuf_proved_bytes(handle: &mut WorldHandle, alloc: Global, subject: u64) -> u32
    ensures memory { result ≡ 1 → held handle.new ≡ held handle.old }
    ensures none { result ≡ 2 → NoneHold (held handle.old) (held handle.new) }
    ensures answered { Asks subject (verb.ToBytes None) result handle.old handle.new }
{
    ask_unowned(
        handle,
        alloc,
        Command::Do {
            subject,
            verb: Verb::ToBytes { order: None },
        },
    )
}

/// Reads the items of a view, row by row. They are the last reply then.
/// Example: of a view of `b"Abc"` it answers 0, and `pybuf_proved_last_part` tells 65, 98 and 99 at 0, 1 and 2.
#[unsafe(no_mangle)]
pub extern "C" fn pybuf_proved_items(handle: &mut WorldHandle, alloc: Global, subject: u64) -> u32
    ensures memory { result ≡ 1 → held handle.new ≡ held handle.old }
    ensures none { result ≡ 2 → NoneHold (held handle.old) (held handle.new) }
    ensures answered { Asks subject verb.ToList result handle.old handle.new }
{
    ask_unowned(
        handle,
        alloc,
        Command::Do {
            subject,
            verb: Verb::ToList,
        },
    )
}

/// Reads a property, by its number from 0 to 12. It is the last reply then. Another number answers 6.
/// Example: of a view of three bytes the property 2, `nbytes`, answers 0, and `pybuf_proved_last_number` tells 3.
#[unsafe(no_mangle)]
pub extern "C" fn pybuf_proved_property(
    handle: &mut WorldHandle,
    alloc: Global,
    subject: u64,
    name: u32,
) -> u32
    ensures memory { result ≡ 1 → held handle.new ≡ held handle.old }
    ensures none { result ≡ 2 → NoneHold (held handle.old) (held handle.new) }
    ensures bad { (result ≡ 6) ↔ (12 < name) }
    ensures bad_kept { result ≡ 6 → held handle.new ≡ held handle.old }
    ensures answered { AsksProperty subject name result handle.old handle.new }
{
    match property_numbered(name) {
        Some(name) => ask_unowned(
            handle,
            alloc,
            Command::Do {
                subject,
                verb: Verb::Property { name },
            },
        ),
        None => BAD_ARGUMENT,
    }
}

/// Compares an object with bytes, by the number of an operator from 0 to 5. The answer is the last reply then.
/// Another number answers 6.
/// Example: of `bytearray(b"ab")` the operator 2, `<`, and `b"b"` answer 0, and `pybuf_proved_last_number` tells 1.
#[unsafe(no_mangle)]
pub extern "C" fn pybuf_proved_compare(
    handle: &mut WorldHandle,
    alloc: Global,
    subject: u64,
    operator: u32,
    bytes: &[u8],
) -> u32
    ensures memory { result ≡ 1 → held handle.new ≡ held handle.old }
    ensures none { result ≡ 2 → NoneHold (held handle.old) (held handle.new) }
    ensures bad { (result ≡ 6) ↔ (5 < operator) }
    ensures bad_kept { result ≡ 6 → held handle.new ≡ held handle.old }
    ensures answered { AsksComparison subject operator (bytes_value bytes.now) result handle.old handle.new }
{
    let Some(op) = operator_numbered(operator) else {
        return BAD_ARGUMENT;
    };
    match bytes_value(alloc, bytes) {
        Ok(other) => ask(
            handle,
            alloc,
            Command::Do {
                subject,
                verb: Verb::Compare { op, other },
            },
        ),
        Err(NoMemory) => NO_MEMORY,
    }
}

/// Compares an object with another, by the number of an operator from 0 to 5. The answer is the last reply then.
/// Another number answers 6.
/// Example: of two views of `b"abc"` the operator 0, `==`, answers 0, and `pybuf_proved_last_number` tells 1.
#[unsafe(no_mangle)]
pub extern "C" fn pybuf_proved_compare_with(
    handle: &mut WorldHandle,
    alloc: Global,
    subject: u64,
    operator: u32,
    other: u64,
) -> u32
    ensures memory { result ≡ 1 → held handle.new ≡ held handle.old }
    ensures none { result ≡ 2 → NoneHold (held handle.old) (held handle.new) }
    ensures bad { (result ≡ 6) ↔ (5 < operator) }
    ensures bad_kept { result ≡ 6 → held handle.new ≡ held handle.old }
    ensures answered { AsksComparison subject operator (object_value other) result handle.old handle.new }
{
    match operator_numbered(operator) {
        Some(op) => ask_unowned(
            handle,
            alloc,
            Command::Do {
                subject,
                verb: Verb::Compare {
                    op,
                    other: object_value(other),
                },
            },
        ),
        None => BAD_ARGUMENT,
    }
}

/// Asks whether bytes stand in bytes or a bytearray. The last reply is a truth value then.
/// Example: of `bytearray(b"Abc")` the bytes `b"bc"` answer 0, and `pybuf_proved_last_number` tells 1.
#[unsafe(no_mangle)]
pub extern "C" fn pybuf_proved_contains(
    handle: &mut WorldHandle,
    alloc: Global,
    subject: u64,
    bytes: &[u8],
) -> u32
    ensures memory { result ≡ 1 → held handle.new ≡ held handle.old }
    ensures none { result ≡ 2 → NoneHold (held handle.old) (held handle.new) }
    ensures answered { Asks subject (verb.Contains (bytes_value bytes.now)) result handle.old handle.new }
{
    match bytes_value(alloc, bytes) {
        Ok(value) => ask(
            handle,
            alloc,
            Command::Do {
                subject,
                verb: Verb::Contains { value },
            },
        ),
        Err(NoMemory) => NO_MEMORY,
    }
}

/// Asks whether a byte stands in bytes or a bytearray, by its size and its sign. The last reply is a truth value
/// then.
/// Example: of `bytearray(b"Abc")` 98 answers 0, and `pybuf_proved_last_number` tells 1.
#[unsafe(no_mangle)]
pub extern "C" fn pybuf_proved_contains_byte(
    handle: &mut WorldHandle,
    alloc: Global,
    subject: u64,
    magnitude: u64,
    negative: bool,
) -> u32
    ensures memory { result ≡ 1 → held handle.new ≡ held handle.old }
    ensures none { result ≡ 2 → NoneHold (held handle.old) (held handle.new) }
    ensures answered { Asks subject (verb.Contains (word_value negative magnitude)) result handle.old handle.new }
{
    ask_unowned(
        handle,
        alloc,
        Command::Do {
            subject,
            verb: Verb::Contains {
                value: number_value(signed(negative, magnitude)),
            },
        },
    )
}

/// Makes an iterator, as Python's `iter(object)`. Its handle is the last reply then.
/// Example: of the object 0 in a world of one object it makes the object 1.
#[unsafe(no_mangle)]
pub extern "C" fn pybuf_proved_iterate(handle: &mut WorldHandle, alloc: Global, subject: u64) -> u32
    ensures memory { result ≡ 1 → held handle.new ≡ held handle.old }
    ensures none { result ≡ 2 → NoneHold (held handle.old) (held handle.new) }
    ensures answered { Asks subject verb.Iter result handle.old handle.new }
{
    ask_unowned(
        handle,
        alloc,
        Command::Do {
            subject,
            verb: Verb::Iter,
        },
    )
}

/// Reads the next item of an iterator, which is the last reply then. At the end the last reply is `stop`.
/// Example: over `b"a"` it answers 0 and reads 97, and after that the kind of the last reply is 12.
#[unsafe(no_mangle)]
pub extern "C" fn pybuf_proved_next(handle: &mut WorldHandle, alloc: Global, subject: u64) -> u32
    ensures memory { result ≡ 1 → held handle.new ≡ held handle.old }
    ensures none { result ≡ 2 → NoneHold (held handle.old) (held handle.new) }
    ensures answered { Asks subject verb.Next result handle.old handle.new }
{
    ask_unowned(
        handle,
        alloc,
        Command::Do {
            subject,
            verb: Verb::Next,
        },
    )
}

/// Reads how an object is shown, as Python's `repr(object)`. It is the last reply then.
/// Example: of the bytearray of the bytes 97 and 0 `pybuf_proved_last_bytes` copies `bytearray(b'a\x00')`.
#[unsafe(no_mangle)]
pub extern "C" fn pybuf_proved_shown(handle: &mut WorldHandle, alloc: Global, subject: u64) -> u32
    ensures memory { result ≡ 1 → held handle.new ≡ held handle.old }
    ensures none { result ≡ 2 → NoneHold (held handle.old) (held handle.new) }
    ensures answered { Asks subject verb.Repr result handle.old handle.new }
{
    ask_unowned(
        handle,
        alloc,
        Command::Do {
            subject,
            verb: Verb::Repr,
        },
    )
}
