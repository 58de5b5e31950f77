//! A world with the replies of the lines that were run in it last.
ghost use Rattle.std.specs.Prelude.{◌≡◌, Some, length, slice_get, OnOk, OnErr};
ghost use Rattle.pybuf_console.specs.Console.{shown_reply};
ghost use Rattle.pybuf_crossing.specs.Rooms.{Hands};

use crate::inputs::commands_of;
use crate::replies::bytes_of;
use pybuf_command::{Command, Reply, ReplyList};
use pybuf_crossing::{Handed, hand_bytes};
use pybuf_line::{Misread, push_reply};
use pybuf_value::{Fault, Made, NoMemory};
use pybuf_world::World;
use std::alloc::Global;
use std::marker::Model;

/// A world, the replies of the lines that were run in it last, and the reply of the one command that was asked last.
/// Example: `Console::new(alloc)` stands for an empty world, of which nothing was asked.
#[derive(Debug, Drop)]
pub struct Console {
    world: World,
    replies: ReplyList,
    last: Reply,
}

impl Model for Console {
    ghost use Rattle.pybuf_console.specs.Console.{Console};

    ghost Value = { Console };

    ghost view = { λ c. record { world = c.world; replies = c.replies; last = c.last } };
}

/// Copies the text of a reply into a room.
fn hand_reply(alloc: Global, reply: &Reply, room: &mut [u8], count: &mut usize) -> Handed
    ensures { Hands result (shown_reply (Some reply.now)) room.old room.new count.old count.new }
{
    let mut text = Vec::new(alloc);
    match push_reply(&mut text, reply) {
        Ok(()) => hand_bytes(text.as_slice(), room, count),
        Err(NoMemory) => Handed::NoMemory,
    }
}

impl Console {
    ghost use Rattle.std.specs.Borrow.{sem};
    ghost use Rattle.pybuf_console.specs.Lending.{LendsWorld};
    ghost use Rattle.pybuf_console.specs.Replies as replies;
    ghost use Rattle.pybuf_console.specs.Console.{empty_console, Runs, HasAsked, refusal_of};

    /// An empty world and no replies. Takes no memory.
    /// Example: of `Console::new(alloc)` `reply_count()` is 0, and the last reply is `Ok`.
    pub fn new(alloc: Global) -> Console
        ensures { result ≡ empty_console }
    {
        Console {
            world: World::new(alloc),
            replies: ReplyList::new(alloc),
            last: Reply::Ok,
        }
    }

    /// Runs the lines of a text, and keeps their replies in place of those that were kept. The last reply of `ask`
    /// stays. Where a line is no command, nothing is run or changed, and the answer is `Misread::BadLine` with the
    /// number of the first such line, counted from 1. Where memory runs out, the answer is `Misread::NoMemory`, and
    /// either nothing is changed, or some commands from the first on were run, and their replies are kept.
    /// Example: the text `new bytearray x61\nlen h0\n` in an empty world keeps the replies `h0` and `1`.
    pub fn run(&mut self, alloc: Global, text: &[u8]) -> Result<(), Misread>
        ensures { Runs result text.now self.old self.new }
    {
        let commands = commands_of(alloc, text)?;
        let mut replies = ReplyList::new(alloc);
        let ran = self.world.run(commands.as_slice(), &mut replies);
        self.replies = replies;
        match ran {
            Ok(()) => Ok(()),
            Err(NoMemory) => Err(Misread::NoMemory),
        }
    }

    /// How many replies of lines are kept. Takes no memory.
    /// Example: after `run` of two lines it is 2.
    pub fn reply_count(&self) -> usize
        ensures { result ≡ length self.now.replies }
    {
        self.replies.len()
    }

    /// Copies the text of a kept reply, by its number from 0, to the front of a room, without a line feed, and tells
    /// its length in `count`. It is `Handed::TooSmall` where the room is shorter, `Handed::Nothing` where no such
    /// reply is kept, and `Handed::NoMemory` where memory runs out. In these cases the room is as before, and in the
    /// last two `count` is too.
    /// Example: after the line `new bytes x61` the reply 0 writes `h0`, and makes `count` 2.
    pub fn reply(&self, alloc: Global, index: usize, room: &mut [u8], count: &mut usize) -> Handed
        ensures { Hands result (shown_reply (slice_get self.now.replies index)) room.old room.new count.old count.new }
    {
        match self.replies.as_slice().get(index) {
            Some(reply) => hand_reply(alloc, reply, room, count),
            None => Handed::Nothing,
        }
    }

    /// Carries out one command, whose reply is the last one then. A refusal is a reply. The replies of lines stay.
    /// Where memory runs out, nothing is changed.
    /// Example: after `len` of three bytes `console.last()` is the item 3.
    #[inline(always)]
    pub fn ask(&mut self, command: &Command) -> Made<()>
        ensures ok { OnOk result (HasAsked command.now self.old self.new) }
        ensures err { OnErr result (self.new ≡ self.old) }
    {
        self.last = self.world.step(command)?;
        Ok(())
    }

    /// Why the last command was refused. It is None where it wasn't. Takes no memory.
    /// Example: after `append 256` it is `Some(Fault::Value)`.
    #[inline(always)]
    pub fn refusal(&self) -> Option<Fault>
        ensures { result ≡ refusal_of self.now.last }
    {
        match &self.last {
            Reply::Refused(fault) => Some(*fault),
            _ => None,
        }
    }

    /// The reply of the last command of `ask`, lent. Takes no memory.
    /// Example: of a new console it is `Reply::Ok`.
    #[inline(always)]
    pub fn last(&self) -> &Reply
        ensures { result.now ≡ self.now.last }
    {
        &self.last
    }

    /// Copies the bytes that the last reply is, or those of its text, to the front of a room, and tells their number
    /// in `count`. It is `Handed::TooSmall` where the room is shorter, and `Handed::Nothing` where the reply has no
    /// bytes. The room is as before then.
    /// Example: after `bytes` of `b"abc"` it writes `b"abc"`, and makes `count` 3.
    pub fn hand_last(&self, room: &mut [u8], count: &mut usize) -> Handed
        ensures { Hands result (replies.bytes_of self.now.last) room.old room.new count.old count.new }
    {
        match bytes_of(&self.last) {
            Some(bytes) => hand_bytes(bytes, room, count),
            None => Handed::Nothing,
        }
    }

    /// The world, lent to be read. Takes no memory.
    /// Example: of `Console::new(alloc)` its `handle_count()` is 0.
    #[inline(always)]
    pub fn world(&self) -> &World
        ensures { result.now ≡ self.now.world }
    {
        &self.world
    }

    /// The world, lent to be changed. The replies stay. Takes no memory.
    /// Example: `console.world_mut().release(1)` releases the view that the handle 1 names.
    #[inline(always)]
    pub fn world_mut(&mut self) -> &mut World
        ensures* writes_back { sem 𝓛 (LendsWorld self.entry result) }
        ensures value { result.now ≡ self.old.world }
    {
        &mut self.world
    }
}
