//! Where a call stops on its way, so that a test can hold it there.

/// What a call does before it asks for the lock, and while it holds it. `turn` is the number of receipts that the
/// session had before the call.
/// Example: `OpenGate` is one; a gate of a test may wait in `before` until another session has called.
pub trait Gate {
    /// Called without the lock.
    /// Example: at the first call of session 2 it is `gate.before(2, 0)`.
    fn before(&self, session: u64, turn: u64);

    /// Called with the lock held.
    /// Example: at the first call of session 2 it is `gate.inside(2, 0)`, after `gate.before(2, 0)`.
    fn inside(&self, session: u64, turn: u64);

    /// How many commands a session of `run_sessions` may carry out while it holds the lock once. For these, `before`
    /// and `inside` are called once, with the turn of the first. If it is 0 or 1, each command asks for the lock.
    /// Example: it is 1 if a gate doesn't say otherwise, and `OpenGate` says 64.
    fn at_once(&self) -> u64 {
        1
    }
}

/// The gate that does nothing.
/// Example: `shared.call_gated(rt, session, command, &OpenGate)` does what `shared.call(rt, session, command)` does.
pub struct OpenGate;

impl Gate for OpenGate {
    fn before(&self, _session: u64, _turn: u64) {}

    fn inside(&self, _session: u64, _turn: u64) {}

    fn at_once(&self) -> u64 {
        64
    }
}
