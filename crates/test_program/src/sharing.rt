//! Sessions of lines by a gate: two that wait for each other.
use pybuf::Gate;
use pybuf_cli::{QuietSink, QuietSource, Sink, Status, serve_gated};
use pybuf_value::{ByteList, Text};
use std::sync::atomic::{AtomicU64, Ordering};
use std::test::Fail;
use std::thread;

/// Two sessions, each of which asks twice.
const INPUT: &[u8] = b"new bytearray x6162\n0 len own\n0 len own\n1 len own\n1 len own\n";

/// So often another session's call is looked for before it is given up.
const LOOKS: u64 = 100_000_000;

/// After so many looks another thread is let run.
const LOOKS_AT_ONCE: u64 = 100_000;

/// Holds the second command of each of two sessions, before the lock, until the first of the other was answered. It
/// counts the calls that were made of it, a byte for each of two turns of two sessions, and what lies above for others.
#[derive(Drop)]
struct Meeting {
    before: AtomicU64,
    inside: AtomicU64,
    missed: AtomicU64,
}

impl Meeting {
    fn new() -> Meeting {
        Meeting {
            before: AtomicU64::new(0),
            inside: AtomicU64::new(0),
            missed: AtomicU64::new(0),
        }
    }

    /// One call for this turn of this session.
    fn unit(session: u64, turn: u64) -> u64 {
        match (session, turn) {
            (0, 0) => 1,
            (0, 1) => 0x100,
            (1, 0) => 0x1_0000,
            (1, 1) => 0x100_0000,
            _ => 0x1_0000_0000,
        }
    }

    /// Waits until a session comes to its second command, so that its first was answered.
    fn comes(&self, session: u64) -> bool {
        for look in 0..LOOKS {
            if self.before.load(Ordering::SeqCst) & Meeting::unit(session, 1) != 0 {
                return true;
            }
            if look % LOOKS_AT_ONCE == 0 {
                thread::yield_now();
            }
        }
        false
    }

    /// Whether it was called before and in each command of both, and each saw the other.
    fn was_held(&self) -> bool {
        self.before.load(Ordering::SeqCst) == 0x101_0101
            && self.inside.load(Ordering::SeqCst) == 0x101_0101
            && self.missed.load(Ordering::SeqCst) == 0
    }
}

impl Gate for Meeting {
    fn before(&self, session: u64, turn: u64) {
        self.before
            .fetch_add(Meeting::unit(session, turn), Ordering::SeqCst);
        if turn == 1 && !self.comes(if session == 0 { 1 } else { 0 }) {
            self.missed.fetch_add(1, Ordering::SeqCst);
        }
    }

    fn inside(&self, session: u64, turn: u64) {
        self.inside
            .fetch_add(Meeting::unit(session, turn), Ordering::SeqCst);
    }
}

#[test]
fn each_needs_the_other(rt: HostRuntime) -> Result<(), Fail> {
    let alloc = rt.alloc();
    let meeting = Meeting::new();
    let mut words = Vec::new(alloc);
    words.push(Text::from_str(alloc, "share")?)?;
    let mut source = QuietSource::new(ByteList::from_slice(alloc, INPUT)?);
    let mut sink = QuietSink::new(alloc);
    let status = serve_gated(
        &rt,
        alloc,
        words.as_slice(),
        &mut source,
        &mut sink,
        &meeting,
    );
    assert!(rt; status == Status::Done);
    assert!(rt; meeting.was_held());
    let end = b" len own -> 2\ncalls 4\nbytes b'ab'\n";
    assert!(rt; sink.bytes().ends_with(end));
    Ok(())
}
