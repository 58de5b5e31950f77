//! What holds of a locked exporter whenever its lock is got.
ghost use Rattle.std.specs.Prelude.{◌≡◌};
ghost use Rattle.pybuf_state.specs.Exporter.{Exporter};

/// What a user wants to hold of a locked exporter whenever the lock is got: of its kind, its bytes, its views and its
/// iterators, and of the value of this type, which lies under the lock beside the exporter.
///
/// `holds` says it. Whoever takes the lock may rely on it, and whoever gives the lock back owes it.
/// Example: a type with the field `most: u64` and `holds = { λ own e. length e.bytes ≤ own.most }` bounds the length.
pub trait Invariant: Drop {
    /// What holds of the value and of the exporter.
    /// Example: of `Anything` it is the fact that always holds.
    ghost holds: { Self → Exporter → Type 0 };
}

/// The invariant that holds of every exporter.
/// Example: `LockedExporter::start(alloc, kind, bytes, Anything)` stands for an exporter of which nothing more is promised than of each.
#[derive(Clone, Copy)]
pub struct Anything;

impl Invariant for Anything {
    ghost holds = { λ _ _. Unit {0} };
}
