//! Two readers that hold the lock of one exporter at once. Each waits for the other while it holds the lock, and gives
//! up where the other never comes.

use pybuf_command::ExporterKind;
use pybuf_locked::{Anything, LockedExporter};
use pybuf_value::{ByteList, Made};
use std::alloc::Global;
use std::sync::Wait;
use std::sync::atomic::{AtomicU64, Ordering};
use std::test::Fail;
use std::thread;
use std::thread::Threads;

/// So often a reader looks for the other before it gives up.
const LOOKS: u64 = 100_000_000;

/// After so many looks another thread is let run.
const LOOKS_AT_ONCE: u64 = 100_000;

/// Waits until so many readers have the lock, and tells whether it came to that.
fn comes_to(readers: &AtomicU64, number: u64) -> bool {
    for look in 0..LOOKS {
        if readers.load(Ordering::SeqCst) >= number {
            return true;
        }
        if look % LOOKS_AT_ONCE == 0 {
            thread::yield_now();
        }
    }
    false
}

/// Takes the lock to read, and holds it until another reader has it too. The number of bytes, if one came.
fn meet<R: Wait>(rt: &R, shared: &LockedExporter<Anything>, readers: &AtomicU64) -> usize {
    let guarded = shared.read(rt);
    readers.fetch_add(1, Ordering::SeqCst);
    if !comes_to(readers, 2) {
        return 0;
    }
    guarded.state().bytes().len()
}

/// What each of two readers finds.
fn met<R: Threads + Wait + Sync>(
    rt: &R,
    alloc: Global,
    shared: &LockedExporter<Anything>,
) -> Made<Vec<usize>> {
    let readers = AtomicU64::new(0);
    let mut found = Vec::new(alloc);
    found.push(0)?;
    found.push(0)?;
    thread::for_each_mut(
        rt,
        found.as_mut_slice(),
        2,
        &|_, length| *length = meet(rt, shared, &readers),
    );
    Ok(found)
}

#[test]
fn two_readers_hold_the_lock_at_once(rt: HostRuntime) -> Result<(), Fail> {
    let alloc = rt.alloc();
    let bytes = ByteList::from_slice(alloc, b"abc")?;
    let shared = LockedExporter::start(alloc, ExporterKind::Bytes, bytes, Anything);
    let found = met(&rt, alloc, &shared)?;
    assert!(rt; found.as_slice() == [3, 3].as_slice());
    Ok(())
}
