//! The invariant of a locked exporter that threads only read.
ghost use Rattle.std.specs.Prelude.{◌≡◌};
ghost use Rattle.pybuf_state.specs.Exporter.{Exporter};

use crate::invariant::Invariant;
use crate::locked::LockedExporter;
use pybuf_exporter::ExporterState;
use std::marker::{Brand, PhantomData};

/// An exporter that a proof names by a type.
/// Example: `there_and_back` calls a generic function with `Brand`, for which its proof picks the exporter of its argument.
pub trait Opening {
    /// The exporter.
    /// Example: of a bytearray `b"abc"` without views it is `new_exporter kinds.ByteArray` of these three bytes.
    ghost opening: { Exporter };
}

impl Opening for Brand {
    ghost use Rattle.std.specs.Prelude.{[]};
    ghost use Rattle.pybuf_command.specs.declared.kinds.ExporterKind.TheVariants as kinds;
    ghost use Rattle.pybuf_state.specs.Exporter.{new_exporter};

    ghost opening = { new_exporter kinds.Bytes [] };
}

/// The invariant that an exporter is this one, in its bytes, its views and its iterators. Each reader knows it so, and
/// whoever takes the lock to write may carry out only commands that change nothing.
/// Example: threads that only read one large file share it by this invariant.
#[derive(Drop)]
pub struct Unchanged<K: Opening> {
    of: PhantomData<K>,
}

impl<K: Opening> Unchanged<K> {
    /// The value that lies beside such an exporter. It takes no memory.
    /// Example: `LockedExporter::start_from(state, Unchanged::<K>::new())` is owed that `state` is the exporter of `K`.
    pub fn new() -> Unchanged<K> {
        Unchanged { of: PhantomData }
    }
}

impl<K: Opening> Invariant for Unchanged<K> {
    ghost holds = { λ _ e. e ≡ K.opening };
}

/// Puts an exporter under a lock, and takes it back.
fn back<K: Opening>(state: ExporterState) -> ExporterState
    requires { state.exporter ≡ K.opening }
    ensures { result.exporter ≡ K.opening }
{
    let shared = LockedExporter::start_from(state, Unchanged::<K>::new());
    let (state, _) = shared.finish();
    state
}

/// Puts an exporter under a lock, and takes it back: `finish` gives what `start_from` took. Takes no memory.
/// Example: of a bytearray `b"abc"` with one view it gives a bytearray `b"abc"` with that view.
pub fn there_and_back(state: ExporterState) -> ExporterState
    ensures { result.exporter ≡ state.exporter }
{
    back::<Brand>(state)
}
