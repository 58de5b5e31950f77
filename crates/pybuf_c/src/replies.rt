//! What the last reply of a world tells, by its kind.
ghost use Rattle.std.specs.Prelude.{◌≡◌, ◌≢◌, ◌≤◌, ◌↔◌, Some, None};
ghost use Rattle.pybuf_console.specs.Held.{held};
ghost use Rattle.pybuf_console.specs.Replies as replies;
ghost use Rattle.pybuf_crossing.specs.Words.{IsNoWord};
ghost use Rattle.pybuf_crossing.specs.declared.rooms.Handed.TheVariants as handed;
ghost use Rattle.pybuf_c.specs.Worlds.{OfLast, LastIsWord, PartIsWord, HandsLast};

use crate::status::{NO_WORLD, NOTHING, OK, handed_number};
use pybuf_console::{WorldHandle, kind_of, number_of, objects_of, part_at, part_count};
use pybuf_crossing::word_of;
use std::alloc::Global;

/// Tells which kind the last reply is of, by the numbers that `kind_of` of `pybuf_console` lists.
/// Example: after `pybuf_proved_length` it tells 3, an item.
#[unsafe(no_mangle)]
pub extern "C" fn pybuf_proved_last_kind(
    handle: &mut WorldHandle,
    alloc: Global,
    kind: &mut u32,
) -> u32
    ensures kept { held handle.new ≡ held handle.old }
    ensures none { (result ≡ 2) ↔ (held handle.old ≡ None) }
    ensures ok { result ≢ 2 → (result ≡ 0) × OfLast (λ reply. kind.new ≡ replies.kind_of reply) handle.old }
{
    let Some(console) = handle.take(alloc) else {
        return NO_WORLD;
    };
    *kind = kind_of(console.last());
    handle.put(console);
    OK
}

/// Tells the handles that the last reply is, one twice, or that of an exporter and that of its view. It answers 5
/// where it is none.
/// Example: after `pybuf_proved_new` in an empty world it tells 0 and 0.
#[unsafe(no_mangle)]
pub extern "C" fn pybuf_proved_last_objects(
    handle: &mut WorldHandle,
    alloc: Global,
    exporter: &mut u64,
    view: &mut u64,
) -> u32
    ensures kept { held handle.new ≡ held handle.old }
    ensures none { (result ≡ 2) ↔ (held handle.old ≡ None) }
    ensures ok { result ≡ 0 → OfLast (λ reply. replies.objects_of reply ≡ Some (exporter.new, view.new)) handle.old }
    ensures nothing { result ≡ 5 → OfLast (λ reply. replies.objects_of reply ≡ None) handle.old }
    ensures status { result ≢ 0 → result ≢ 2 → result ≡ 5 }
{
    let Some(console) = handle.take(alloc) else {
        return NO_WORLD;
    };
    let objects = objects_of(console.last());
    handle.put(console);
    match objects {
        Some((own, viewed)) => {
            *exporter = own;
            *view = viewed;
            OK
        }
        None => NOTHING,
    }
}

/// Tells the number that the last reply is, as a size and a sign, or 0 or 1 of a truth value. It answers 5 where it
/// is none, or none that a size of 64 bits tells.
/// Example: after `pybuf_proved_length` of three bytes it tells the size 3 and the sign false.
#[unsafe(no_mangle)]
pub extern "C" fn pybuf_proved_last_number(
    handle: &mut WorldHandle,
    alloc: Global,
    magnitude: &mut u64,
    negative: &mut bool,
) -> u32
    ensures kept { held handle.new ≡ held handle.old }
    ensures none { (result ≡ 2) ↔ (held handle.old ≡ None) }
    ensures ok { result ≡ 0 → LastIsWord negative.new magnitude.new handle.old }
    ensures nothing { result ≡ 5 → OfLast (λ reply. IsNoWord (replies.number_of reply)) handle.old }
    ensures status { result ≢ 0 → result ≢ 2 → result ≡ 5 }
{
    let Some(console) = handle.take(alloc) else {
        return NO_WORLD;
    };
    let word = word_of(number_of(console.last()));
    handle.put(console);
    match word {
        Some((size, below)) => {
            *magnitude = size;
            *negative = below;
            OK
        }
        None => NOTHING,
    }
}

/// Tells how many parts the last reply has, which are numbers or items, and 0 of a reply without parts.
/// Example: after `pybuf_proved_items` of a view of three bytes it tells 3.
#[unsafe(no_mangle)]
pub extern "C" fn pybuf_proved_last_part_count(
    handle: &mut WorldHandle,
    alloc: Global,
    count: &mut usize,
) -> u32
    ensures kept { held handle.new ≡ held handle.old }
    ensures none { (result ≡ 2) ↔ (held handle.old ≡ None) }
    ensures ok { result ≢ 2 → (result ≡ 0) × OfLast (λ reply. count.new ≡ replies.part_count reply) handle.old }
{
    let Some(console) = handle.take(alloc) else {
        return NO_WORLD;
    };
    *count = part_count(console.last());
    handle.put(console);
    OK
}

/// Tells the number at a place of the last reply, counted from 0, as a size and a sign. It answers 5 where there is
/// none, or none that a size of 64 bits tells.
/// Example: after `pybuf_proved_items` of a view of `b"Abc"` the place 0 has the size 65 and the sign false.
#[unsafe(no_mangle)]
pub extern "C" fn pybuf_proved_last_part(
    handle: &mut WorldHandle,
    alloc: Global,
    index: usize,
    magnitude: &mut u64,
    negative: &mut bool,
) -> u32
    ensures kept { held handle.new ≡ held handle.old }
    ensures none { (result ≡ 2) ↔ (held handle.old ≡ None) }
    ensures ok { result ≡ 0 → PartIsWord index negative.new magnitude.new handle.old }
    ensures nothing { result ≡ 5 → OfLast (λ reply. IsNoWord (replies.part_at reply index)) handle.old }
    ensures status { result ≢ 0 → result ≢ 2 → result ≡ 5 }
{
    let Some(console) = handle.take(alloc) else {
        return NO_WORLD;
    };
    let word = word_of(part_at(console.last(), index));
    handle.put(console);
    match word {
        Some((size, below)) => {
            *magnitude = size;
            *negative = below;
            OK
        }
        None => NOTHING,
    }
}

/// Copies the bytes that the last reply is, or those of its text, into the room, and tells their number. It answers 3
/// where the room is too small, and 5 where the reply has no bytes. The room is as before then.
/// Example: after `pybuf_proved_bytes` of `b"abc"` it copies `b"abc"`, and tells 3.
#[unsafe(no_mangle)]
pub extern "C" fn pybuf_proved_last_bytes(
    handle: &mut WorldHandle,
    alloc: Global,
    room: &mut [u8],
    count: &mut usize,
) -> u32
    ensures kept { held handle.new ≡ held handle.old }
    ensures none { (result ≡ 2) ↔ (held handle.old ≡ None) }
    ensures whole { result ≡ 0 → HandsLast handed.Whole handle.old room.old room.new count.old count.new }
    ensures small { result ≡ 3 → HandsLast handed.TooSmall handle.old room.old room.new count.old count.new }
    ensures nothing { result ≡ 5 → HandsLast handed.Nothing handle.old room.old room.new count.old count.new }
    ensures status { result ≤ 5 }
{
    let Some(console) = handle.take(alloc) else {
        return NO_WORLD;
    };
    let handed = console.hand_last(room, count);
    handle.put(console);
    handed_number(handed)
}
