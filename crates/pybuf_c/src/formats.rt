//! Formats: one that a text spells, its size, values that it packs, and values that it unpacks.
ghost use Rattle.std.specs.Prelude.{◌≡◌, ◌≢◌, ◌↔◌, length, None, Ok, IfSome, IsSomeAnd};
ghost use Rattle.pybuf_value.specs.declared.values.Scalar.TheVariants as scalar;
ghost use Rattle.pybuf_struct.specs.Formats.{fields};
ghost use Rattle.pybuf_crossing.specs.Words.{IsNoWord};
ghost use Rattle.pybuf_crossing.specs.declared.rooms.Handed.TheVariants as handed;
ghost use Rattle.pybuf_packer.specs.Held.{held};
ghost use Rattle.pybuf_packer.specs.Packer.{packer_of, without_values, Packs, HasUnpacked, value_kind, value_number};
ghost use Rattle.pybuf_packer.specs.declared.packer.Packed.TheVariants as packed;
ghost use Rattle.pybuf_c.specs.Holding.{BothHold, NoneHold};
ghost use Rattle.pybuf_c.specs.Status.{result_number};
ghost use Rattle.pybuf_c.specs.Packers.{Becomes, Gains, GainsWord, RefusesToPack, RefusesToUnpack, OfValue, ValueIsWord, HandsValue};

use crate::status::{NO_FORMAT, NO_MEMORY, NOTHING, OK, TOO_SMALL, fault_number, handed_number};
use pybuf_crossing::{signed, word_of};
use pybuf_packer::{FormatHandle, Packed, Packer};
use pybuf_value::{Halt, NoMemory};
use std::alloc::Global;

/// Makes the format that a text spells in the handle. One that it held is freed. On any other answer than 0 the
/// handle is as before.
/// Example: the text `<4sH` answers 0, and `<n` answers 20 (`StructError`).
#[unsafe(no_mangle)]
pub extern "C" fn pybuf_proved_format_parse(
    handle: &mut FormatHandle,
    alloc: Global,
    text: &[u8],
) -> u32
    ensures ok { result ≡ 0 → IsSomeAnd (held handle.new) (λ packer. packer_of text.now ≡ Ok packer) }
    ensures err { result ≢ 0 → held handle.new ≡ held handle.old }
    ensures status { result ≢ 1 → result ≡ result_number (packer_of text.now) }
{
    match Packer::parse(alloc, text) {
        Ok(packer) => match Box::new(alloc, packer) {
            Ok(packer) => {
                handle.put(packer);
                OK
            }
            Err(_) => NO_MEMORY,
        },
        Err(Halt::Refused(fault)) => fault_number(fault),
        Err(Halt::NoMemory) => NO_MEMORY,
    }
}

/// Frees the format of the handle, which holds none then.
/// Example: after it `pybuf_proved_format_layout` of the handle answers 9.
#[unsafe(no_mangle)]
pub extern "C" fn pybuf_proved_format_free(handle: &mut FormatHandle, alloc: Global)
    ensures { held handle.new ≡ None }
{
    *handle = FormatHandle::empty(alloc);
}

/// Tells the number of bytes of the format, and how many values it reads or writes.
/// Example: of `<4sH` it answers 0, and tells the size 6 and the count 2.
#[unsafe(no_mangle)]
pub extern "C" fn pybuf_proved_format_layout(
    handle: &mut FormatHandle,
    alloc: Global,
    size: &mut usize,
    count: &mut usize,
) -> u32
    ensures kept { held handle.new ≡ held handle.old }
    ensures none { (result ≡ 9) ↔ (held handle.old ≡ None) }
    ensures ok { result ≢ 9 → result ≡ 0 }
    ensures size { IfSome (held handle.old) (λ packer. size.new ≡ packer.format.size) }
    ensures count { IfSome (held handle.old) (λ packer. count.new ≡ length (fields packer.format)) }
{
    let Some(packer) = handle.take(alloc) else {
        return NO_FORMAT;
    };
    *size = packer.size();
    *count = packer.field_count();
    handle.put(packer);
    OK
}

/// Lets go of the values that were put for the format, or that it unpacked.
/// Example: it answers 0, and the format stays.
#[unsafe(no_mangle)]
pub extern "C" fn pybuf_proved_format_clear(handle: &mut FormatHandle, alloc: Global) -> u32
    ensures none { result ≡ 9 → NoneHold (held handle.old) (held handle.new) }
    ensures ok { result ≢ 9 → (result ≡ 0) × Becomes without_values handle.old handle.new }
{
    let Some(mut packer) = handle.take(alloc) else {
        return NO_FORMAT;
    };
    packer.clear();
    handle.put(packer);
    OK
}

/// Puts a number behind the values of the format, by its size and its sign.
/// Example: the size 2 and the sign true put -2 behind the values, and answer 0.
#[unsafe(no_mangle)]
pub extern "C" fn pybuf_proved_format_put_number(
    handle: &mut FormatHandle,
    alloc: Global,
    magnitude: u64,
    negative: bool,
) -> u32
    ensures memory { result ≡ 1 → held handle.new ≡ held handle.old }
    ensures none { result ≡ 9 → NoneHold (held handle.old) (held handle.new) }
    ensures ok { result ≢ 1 → result ≢ 9 → (result ≡ 0) × GainsWord negative magnitude handle.old handle.new }
{
    let Some(mut packer) = handle.take(alloc) else {
        return NO_FORMAT;
    };
    let made = packer.put_number(signed(negative, magnitude));
    handle.put(packer);
    match made {
        Ok(()) => OK,
        Err(NoMemory) => NO_MEMORY,
    }
}

/// Puts a copy of bytes behind the values of the format.
/// Example: the bytes `b"ada"` are a value for the code `4s`, and the answer is 0.
#[unsafe(no_mangle)]
pub extern "C" fn pybuf_proved_format_put_bytes(
    handle: &mut FormatHandle,
    alloc: Global,
    bytes: &[u8],
) -> u32
    ensures memory { result ≡ 1 → held handle.new ≡ held handle.old }
    ensures none { result ≡ 9 → NoneHold (held handle.old) (held handle.new) }
    ensures ok { result ≢ 1 → result ≢ 9 → (result ≡ 0) × Gains (scalar.Bytes bytes.now) handle.old handle.new }
{
    let Some(mut packer) = handle.take(alloc) else {
        return NO_FORMAT;
    };
    let made = packer.put_bytes(alloc, bytes);
    handle.put(packer);
    match made {
        Ok(()) => OK,
        Err(NoMemory) => NO_MEMORY,
    }
}

/// Writes the bytes of the values to the front of the room, and tells how many they are, also where it is too small,
/// which answers 3. On any other answer than 0 the room is as before. Takes no memory.
/// Example: of `<hI` with the values -2 and 258 it answers 0, and writes `b"\xfe\xff\x02\x01\x00\x00"`.
#[unsafe(no_mangle)]
pub extern "C" fn pybuf_proved_format_pack(
    handle: &mut FormatHandle,
    alloc: Global,
    room: &mut [u8],
    count: &mut usize,
) -> u32
    ensures kept { held handle.new ≡ held handle.old }
    ensures none { (result ≡ 9) ↔ (held handle.old ≡ None) }
    ensures whole { result ≡ 0 → IsSomeAnd (held handle.old) (λ packer. Packs packed.Whole packer room.old room.new) }
    ensures small { result ≡ 3 → IsSomeAnd (held handle.old) (λ packer. Packs packed.TooSmall packer room.old room.new) }
    ensures refused { result ≢ 0 → result ≢ 3 → result ≢ 9 → RefusesToPack result room.old handle.old }
    ensures left { result ≢ 0 → room.new ≡ room.old }
    ensures counted { IfSome (held handle.old) (λ packer. count.new ≡ packer.format.size) }
{
    let Some(packer) = handle.take(alloc) else {
        return NO_FORMAT;
    };
    *count = packer.size();
    let became = packer.pack(room);
    handle.put(packer);
    match became {
        Packed::Whole => OK,
        Packed::TooSmall => TOO_SMALL,
        Packed::Refused(fault) => fault_number(fault),
    }
}

/// Reads the values of the bytes by the format, which keeps them in place of those before. Bytes of another number
/// than the format's size answer 20 (`StructError`), and nothing is changed then.
/// Example: of `<4sH` the bytes `b"ada\0\x05\0"` answer 0, and the values are `b"ada\0"` and 5.
#[unsafe(no_mangle)]
pub extern "C" fn pybuf_proved_format_unpack(
    handle: &mut FormatHandle,
    alloc: Global,
    bytes: &[u8],
) -> u32
    ensures ok { result ≡ 0 → BothHold (HasUnpacked bytes.now) (held handle.old) (held handle.new) }
    ensures none { (result ≡ 9) ↔ (held handle.old ≡ None) }
    ensures kept { result ≢ 0 → held handle.new ≡ held handle.old }
    ensures refused { result ≢ 0 → result ≢ 1 → result ≢ 9 → RefusesToUnpack result bytes.now handle.old }
{
    let Some(mut packer) = handle.take(alloc) else {
        return NO_FORMAT;
    };
    let unpacked = packer.unpack(alloc, bytes);
    handle.put(packer);
    match unpacked {
        Ok(()) => OK,
        Err(Halt::Refused(fault)) => fault_number(fault),
        Err(Halt::NoMemory) => NO_MEMORY,
    }
}

/// Tells which kind the value at a place is of, and its number as a size and a sign. That is 0 or 1 of a truth value,
/// and of bytes how many they are. It answers 5 where there is no such value, or none that a size of 64 bits tells.
/// Example: after `b"ada\0\x05\0"` was unpacked by `<4sH`, the place 1 has the kind 0 and the number 5.
#[unsafe(no_mangle)]
pub extern "C" fn pybuf_proved_format_value(
    handle: &mut FormatHandle,
    alloc: Global,
    index: usize,
    kind: &mut u32,
    magnitude: &mut u64,
    negative: &mut bool,
) -> u32
    ensures kept { held handle.new ≡ held handle.old }
    ensures none { (result ≡ 9) ↔ (held handle.old ≡ None) }
    ensures kind { result ≡ 0 → OfValue index (λ value. kind.new ≡ value_kind value) handle.old }
    ensures number { result ≡ 0 → ValueIsWord index negative.new magnitude.new handle.old }
    ensures nothing { result ≡ 5 → OfValue index (λ value. IsNoWord (value_number value)) handle.old }
    ensures status { result ≢ 0 → result ≢ 9 → result ≡ 5 }
{
    let Some(packer) = handle.take(alloc) else {
        return NO_FORMAT;
    };
    *kind = packer.kind_at(index);
    let word = word_of(packer.number_at(index));
    handle.put(packer);
    match word {
        Some((size, below)) => {
            *magnitude = size;
            *negative = below;
            OK
        }
        None => NOTHING,
    }
}

/// Copies the bytes of the value at a place to the room, and tells how many they are. It answers 3 where the room is
/// too small, and 5 where there is no such value or it isn't bytes. The room is as before then.
/// Example: after `b"ada\0\x05\0"` was unpacked by `<4sH`, the place 0 copies `b"ada\0"`, and tells 4.
#[unsafe(no_mangle)]
pub extern "C" fn pybuf_proved_format_value_bytes(
    handle: &mut FormatHandle,
    alloc: Global,
    index: usize,
    room: &mut [u8],
    count: &mut usize,
) -> u32
    ensures kept { held handle.new ≡ held handle.old }
    ensures none { (result ≡ 9) ↔ (held handle.old ≡ None) }
    ensures whole { result ≡ 0 → HandsValue handed.Whole index handle.old room.old room.new count.old count.new }
    ensures small { result ≡ 3 → HandsValue handed.TooSmall index handle.old room.old room.new count.old count.new }
    ensures nothing { result ≡ 5 → HandsValue handed.Nothing index handle.old room.old room.new count.old count.new }
    ensures status { result ≢ 0 → result ≢ 3 → result ≢ 5 → result ≡ 9 }
{
    let Some(packer) = handle.take(alloc) else {
        return NO_FORMAT;
    };
    let handed = packer.hand_bytes(index, room, count);
    handle.put(packer);
    handed_number(handed)
}
