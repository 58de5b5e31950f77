//! Worlds of exporters, and the handles that name them and their views.
ghost use Rattle.std.specs.Prelude.{◌≡◌, ◌↔◌, ◌++◌, length, true, IfOk, IsOk, IfErr, OnOk, OnErr};
ghost use Rattle.pybuf_world.specs.World.{GivesOrRefuses};

use crate::laws::{exporter_laws, releases_are_refused_by_name};
use crate::tables::Tables;
use pybuf_command::{Command, Reply, ReplyList};
use pybuf_exporter::ExporterState;
use pybuf_value::{Fault, Made, NoMemory};
use std::alloc::Global;
use std::marker::Model;

/// A world of exporters. Handles count up from 0, and name exporters, their views and their iterators.
/// Example: `World::new(alloc)` stands for what the program has before its first line.
#[derive(Debug, Drop)]
pub struct World {
    tables: Tables,
}

impl Model for World {
    ghost use Rattle.pybuf_world.specs.World.{World};
    ghost use Rattle.pybuf_world.specs.Tables.{world_of, IsKept};

    ghost Value = { World };

    ghost view = { λ w. world_of w.tables };

    ghost invariant = { λ w. IsKept w.tables };
}

impl World {
    ghost use Rattle.std.specs.Borrow.{sem};
    ghost use Rattle.pybuf_world.specs.Lending.{lends_to_write, view_bytes, LendsContent, LendsView};
    ghost use Rattle.pybuf_value.specs.declared.faults.Fault.TheVariants as faults;
    ghost use Rattle.pybuf_world.specs.World.{empty_world, wstep, world_after_all, replies_of, released_by, names_view};
    ghost use Rattle.pybuf_world.specs.Sound.{IsSoundWorld, StaysSound, StopsAt};
    ghost use Rattle.pybuf_world.specs.Listing.{exporters_of};

    /// A world with nothing in it. Takes no memory.
    /// Example: `World::new(alloc).handle_count()` is 0.
    pub fn new(alloc: Global) -> World
        ensures { result ≡ empty_world }
    {
        World {
            tables: Tables::new(alloc),
        }
    }

    /// The number of handles that were given, which is the next one. Takes no memory.
    /// Example: it is 2 after a bytearray and a view of it were made.
    pub fn handle_count(&self) -> u64
        ensures { result ≡ length self.now.handles }
    {
        self.tables.next_handle()
    }

    /// The exporters, in the order in which they were made. Nothing is said of their room. Takes no memory.
    /// Example: `world.exporters()[0].bytes()` is `b"abc"` after `new bytearray x616263`.
    pub fn exporters(&self) -> &[ExporterState]
        ensures value { exporters_of result.now ≡ self.now.exporters }
        ensures sound { IsSoundWorld self.now }
    {
        self.tables.exporters.as_slice()
    }

    /// Carries out a command. A refusal is a reply, changes nothing and uses up no handle. Where
    /// memory runs out, nothing is changed.
    /// Example: `Command::New` of a bytearray in an empty world replies `Reply::Handle(0)`.
    pub fn step(&mut self, command: &Command) -> Made<Reply>
        ensures ok { IfOk result (λ r. wstep self.old command.now ≡ (self.new, r)) }
        ensures err { OnErr result (self.new ≡ self.old) }
    {
        self.tables.step(command)
    }

    /// Carries out the commands in order, and appends one reply for each. A refusal is a reply, changes nothing and
    /// uses up no handle.
    ///
    /// Where memory runs out, world and replies are those of the commands that were answered before. In every case
    /// the world is sound after each command: each byte of each item of an unreleased view lies inside its exporter,
    /// and that exporter is as long as when the view was made; no two items of a view share a byte; and each handle
    /// names an exporter, a view or an iterator that is there.
    /// Example: `new bytearray x0102`, `view h0`, `get h1 -1` and `append h0 3` reply `h0`, `h1`, `2` and `! BufferError`.
    pub fn run(&mut self, commands: &[Command], replies: &mut ReplyList) -> Result<(), NoMemory>
        ensures world { OnOk result (self.new ≡ world_after_all self.old commands.now) }
        ensures replies { OnOk result (replies.new ≡ replies.old ++ replies_of self.old commands.now) }
        ensures stopped { OnErr result (StopsAt self.old commands.now self.new replies.old replies.new) }
        ensures sound { StaysSound self.old commands.now }
    {
        exporter_laws();
        self.tables.run(commands, replies)
    }

    /// Releases the view that a handle names. Releasing it again changes nothing. Takes no memory.
    ///
    /// Refused with `UnknownName` exactly where the handle was never given, or names no view. Nothing is changed
    /// then.
    /// Example: `world.release(1)` is `Ok(())` where `h1` names a view, and `Err(Fault::UnknownName)` where it was never given.
    pub fn release(&mut self, handle: u64) -> Result<(), Fault>
        ensures exact { GivesOrRefuses (released_by self.old handle) self.new result }
        ensures named { IsOk result ↔ (names_view self.old handle ≡ true) }
        ensures refused { IfErr result (λ f. f ≡ faults.UnknownName) }
        ensures err { OnErr result (self.new ≡ self.old) }
    {
        releases_are_refused_by_name();
        self.tables.release(handle)
    }

    /// The bytes of the view that a handle names, lent without a copy. It is None exactly where the handle names no
    /// unreleased view, or one whose items don't lie one after the other. Takes no memory.
    ///
    /// While the view is unreleased, no command changes the length of its exporter.
    /// Example: after `new bytes x616263` and `view h0` `world.lent(1)` is `Some(b"abc")`, and `world.lent(0)` None.
    pub fn lent(&self, handle: u64) -> Option<&[u8]>
        ensures { LendsContent self.now handle result }
    {
        self.tables.lent(handle)
    }

    /// Whether a handle names an unreleased view whose items lie one after the other and may be written. Takes no
    /// memory.
    /// Example: of a view of a bytearray it is true, and of one of `bytes` false.
    pub fn lends_to_write(&self, handle: u64) -> bool
        ensures { result ≡ lends_to_write self.now handle }
    {
        self.tables.lends_to_write(handle)
    }

    /// The bytes of such a view, lent to be written. What is written there takes the place of the bytes of the view, and
    /// of no others; all views of these bytes see it. Takes no memory.
    /// Example: after `new bytearray x616263`, `view h0` and `world.lent_mut(1)[0] = b'A'` the bytes are `b"Abc"`.
    pub fn lent_mut(&mut self, handle: u64) -> &mut [u8]
        requires { lends_to_write self.old handle ≡ true }
        ensures* writes_back { sem 𝓛 (LendsView self.entry handle result) }
        ensures value { result.now ≡ view_bytes self.old handle }
    {
        let (exporter, view) = self.tables.place_to_write(handle);
        self.tables
            .exporters
            .nth_mut(exporter)
            .contiguous_bytes_mut(view)
    }
}
