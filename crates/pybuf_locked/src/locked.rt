//! One exporter that threads share under a lock.
ghost use Rattle.std.specs.Prelude.{◌≡◌, IfOk};

use crate::guarded::Guarded;
use crate::invariant::Invariant;
use pybuf_command::{ExporterKind, LocalCommand, LocalReply};
use pybuf_exporter::ExporterState;
use pybuf_value::{ByteList, Made};
use std::alloc::Global;
use std::sync::{RwLock, RwLockReadGuard, RwLockWriteGuard, Wait};

/// An exporter that threads share. It lies under a lock, which many threads may hold at once to read, or one to carry
/// out commands. It keeps no history, so its memory is that of the exporter, however many commands it carries out.
///
/// What holds of it whenever the lock is got is the invariant `I` of its user. A clause says no more of it, since
/// other threads may carry out commands at any time.
/// Example: `LockedExporter::start(alloc, kind, bytes, Anything)` stands for one that threads share by reference.
#[derive(Drop)]
pub struct LockedExporter<I: Invariant> {
    lock: RwLock<Guarded<I>>,
}

impl<I: Invariant> LockedExporter<I> {
    ghost use Rattle.std.specs.Sync.RwLock.{read_guard_value, write_guard_value};
    ghost use Rattle.pybuf_state.specs.Exporter.{new_exporter};
    ghost use Rattle.pybuf_state.specs.Fits.{LoansFit};
    ghost use Rattle.pybuf_locked.specs.Locked.{KeepsInvariant, IsReplied};

    /// A new exporter of a kind and of these bytes, and a value of which and of the exporter the invariant holds. Takes
    /// no memory.
    /// Example: with `ExporterKind::ByteArray` and `b"a"` it is a bytearray of one byte that threads share.
    pub fn start(alloc: Global, kind: ExporterKind, bytes: ByteList, fact: I) -> LockedExporter<I>
        requires { I.holds fact (new_exporter kind bytes) }
    {
        LockedExporter::start_from(ExporterState::new(alloc, kind, bytes), fact)
    }

    /// An exporter that lives already, with its views and iterators, and a value of which and of the exporter the
    /// invariant holds. Nothing is copied.
    /// Example: `LockedExporter::start_from(shared.finish().0, Anything)` goes on where `shared` ended.
    pub fn start_from(state: ExporterState, fact: I) -> LockedExporter<I>
        requires { I.holds fact state.exporter }
    {
        LockedExporter {
            lock: RwLock::new(Guarded::new(state, fact)),
        }
    }

    /// Carries out one command, alone with the exporter, and gives its reply: what some exporter replies of which the
    /// invariant holds. The command has to keep the invariant, whatever exporter is found. A refusal is a reply, and
    /// changes nothing. It waits while another thread holds the lock. Where memory runs out, the exporter and the lock
    /// are as before.
    /// Example: `shared.call(rt, &command)` with the verb `Verb::Len` of three bytes replies the item 3.
    pub fn call<R: Wait>(&self, rt: &R, command: &LocalCommand) -> Made<LocalReply>
        requires fit { LoansFit command.now.loans }
        requires keeps { KeepsInvariant I.holds command.now }
        ensures { IfOk result (λ r. IsReplied I.holds command.now r) }
    {
        let mut guarded = self.lock.write(rt);
        guarded.step(command)
    }

    /// The lock, taken to carry out commands. No other thread holds it meanwhile. It waits while another thread holds
    /// it, and it is given back when the answer ends. A thread that holds it already waits for ever. The invariant holds
    /// of what is found.
    /// Example: `shared.write(rt).step(&command)` carries out one command.
    pub fn write<R: Wait>(&self, rt: &R) -> RwLockWriteGuard<'_, Guarded<I>>
        ensures { I.holds (write_guard_value result).fact (write_guard_value result).state.exporter }
    {
        let guarded = self.lock.write(rt);
        let _ = guarded.fact();
        guarded
    }

    /// The lock, taken to read. Other threads may hold it to read at the same time. It waits while another thread
    /// holds it to write, or waits to do so, and it is given back when the answer ends. The invariant holds of what is
    /// found.
    /// Example: `shared.read(rt).state().bytes()` lends the bytes to one of many readers.
    pub fn read<R: Wait>(&self, rt: &R) -> RwLockReadGuard<'_, Guarded<I>>
        ensures { I.holds (read_guard_value result).fact (read_guard_value result).state.exporter }
    {
        let guarded = self.lock.read(rt);
        let _ = guarded.fact();
        guarded
    }

    /// The exporter and the value, given back to one thread. Nothing is copied. It waits for nobody, since whoever
    /// calls it shares the exporter with no other thread.
    /// Example: after `append 98` on a bytearray of `b"a"` the exporter's `bytes()` are `b"ab"`.
    pub fn finish(self) -> (ExporterState, I)
        ensures { I.holds result.1 result.0.exporter }
    {
        self.lock.into_inner().into_parts()
    }
}
