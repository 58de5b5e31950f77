//! Worlds by lines: a new one, a text of lines that is run, and the replies.
ghost use Rattle.std.specs.Prelude.{◌≡◌, ◌≢◌, ◌↔◌, ◌≤◌, length, Some, None, Err, IfSome};
ghost use Rattle.pybuf_console.specs.Console.{empty_console, HasRun};
ghost use Rattle.pybuf_console.specs.Held.{held};
ghost use Rattle.pybuf_crossing.specs.declared.rooms.Handed.TheVariants as handed;
ghost use Rattle.pybuf_line.specs.Lines.{commands_in};
ghost use Rattle.pybuf_line.specs.Scalars.{handle_in};
ghost use Rattle.pybuf_c.specs.Holding.{BothHold};
ghost use Rattle.pybuf_c.specs.Worlds.{MayHaveStopped, HandsReply};

use crate::status::{BAD_LINE, NO_MEMORY, NO_WORLD, OK, handed_number};
use pybuf_console::{Console, WorldHandle};
use pybuf_line::Misread;
use std::alloc::Global;

/// Makes an empty world in the handle. One that it held is freed. Where memory runs out, the answer is 1, and the
/// handle is as before.
/// Example: of a handle of zeros it answers 0, and `pybuf_proved_world_run` may follow.
#[unsafe(no_mangle)]
pub extern "C" fn pybuf_proved_world_new(handle: &mut WorldHandle, alloc: Global) -> u32
    ensures status { result ≤ 1 }
    ensures ok { result ≡ 0 → held handle.new ≡ Some empty_console }
    ensures err { result ≡ 1 → held handle.new ≡ held handle.old }
{
    match Box::new(alloc, Console::new(alloc)) {
        Ok(console) => {
            handle.put(console);
            OK
        }
        Err(_) => NO_MEMORY,
    }
}

/// Frees the world of the handle, which holds none then.
/// Example: after it `pybuf_proved_world_run` of the handle answers 2.
#[unsafe(no_mangle)]
pub extern "C" fn pybuf_proved_world_free(handle: &mut WorldHandle, alloc: Global)
    ensures { held handle.new ≡ None }
{
    *handle = WorldHandle::empty(alloc);
}

/// Runs the lines of a text in the world, and keeps their replies. Tells how many are kept, and of a text that isn't
/// run the number of its first line that is no command, counted from 1. Then it answers 4, and nothing is changed.
/// Where memory runs out, it answers 1, and the lines before were run or none was.
/// Example: the text `new bytearray x61\nlen h0\n` in an empty world answers 0, and tells that 2 replies are kept.
#[unsafe(no_mangle)]
pub extern "C" fn pybuf_proved_world_run(
    handle: &mut WorldHandle,
    alloc: Global,
    text: &[u8],
    count: &mut usize,
    line: &mut u64,
) -> u32
    ensures ok { result ≡ 0 → BothHold (HasRun text.now) (held handle.old) (held handle.new) }
    ensures stopped { result ≡ 1 → BothHold (MayHaveStopped text.now) (held handle.old) (held handle.new) }
    ensures none { (result ≡ 2) ↔ (held handle.old ≡ None) }
    ensures none_made { result ≡ 2 → held handle.new ≡ None }
    ensures bad { result ≡ 4 → commands_in handle_in text.now ≡ Err line.new }
    ensures bad_kept { result ≡ 4 → held handle.new ≡ held handle.old }
    ensures counted { IfSome (held handle.new) (λ console. count.new ≡ length console.replies) }
    ensures status { result ≤ 4 }
    ensures not_small { result ≢ 3 }
{
    let Some(mut console) = handle.take(alloc) else {
        return NO_WORLD;
    };
    let ran = console.run(alloc, text);
    *count = console.reply_count();
    handle.put(console);
    match ran {
        Ok(()) => OK,
        Err(Misread::BadLine(number)) => {
            *line = number;
            BAD_LINE
        }
        Err(Misread::NoMemory) => NO_MEMORY,
    }
}

/// Copies the text of a kept reply, by its number from 0, into the room, without a line feed, and tells its length.
/// It answers 3 where the room is too small, and 5 where no such reply is kept. The room is as before then.
/// Example: after the line `new bytes x61` in an empty world the reply 0 copies `h0`, and tells 2.
#[unsafe(no_mangle)]
pub extern "C" fn pybuf_proved_world_reply(
    handle: &mut WorldHandle,
    alloc: Global,
    index: usize,
    room: &mut [u8],
    count: &mut usize,
) -> u32
    ensures kept { held handle.new ≡ held handle.old }
    ensures none { (result ≡ 2) ↔ (held handle.old ≡ None) }
    ensures whole { result ≡ 0 → HandsReply handed.Whole index handle.old room.old room.new count.old count.new }
    ensures memory { result ≡ 1 → HandsReply handed.NoMemory index handle.old room.old room.new count.old count.new }
    ensures small { result ≡ 3 → HandsReply handed.TooSmall index handle.old room.old room.new count.old count.new }
    ensures nothing { result ≡ 5 → HandsReply handed.Nothing index handle.old room.old room.new count.old count.new }
    ensures status { result ≤ 5 }
    ensures not_bad { result ≢ 4 }
{
    let Some(console) = handle.take(alloc) else {
        return NO_WORLD;
    };
    let handed = console.reply(alloc, index, room, count);
    handle.put(console);
    handed_number(handed)
}
