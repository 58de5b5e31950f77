//! An invariant that bounds the length by a number, which the writer raises. Readers beside the writer rely on it: they
//! subtract the length from the number.
ghost use Rattle.std.specs.Prelude.{◌≤◌, length};

use crate::asking::{append, is_done};
use pybuf_command::ExporterKind;
use pybuf_locked::{Guarded, Invariant, LockedExporter};
use pybuf_value::{ByteList, Made};
use std::alloc::Global;
use std::sync::Wait;
use std::test::Fail;
use std::thread;
use std::thread::Threads;

/// How many threads there are. The first one writes.
const THREADS: usize = 5;

/// How often the writer appends two bytes, and how often each reader reads.
const ROUNDS: u64 = 1000;

/// The invariant that an exporter is at most so long.
#[derive(Clone, Copy)]
struct AtMost {
    most: u64,
}

impl Invariant for AtMost {
    ghost holds = { λ fact e. length e.bytes ≤ fact.most };
}

/// Appends a byte, and raises the bound by one. Tells whether that was done.
fn grow(alloc: Global, guarded: &mut Guarded<AtMost>, byte: u8) -> bool {
    let most = guarded.fact().most;
    if most == u64::MAX {
        return false;
    }
    let command = append(alloc, byte);
    let answer = guarded.step_to(&command, AtMost { most: most + 1 });
    drop(command);
    is_done(answer)
}

/// Appends two equal bytes, while no other thread has the lock.
fn grow_twice<R: Wait>(rt: &R, alloc: Global, shared: &LockedExporter<AtMost>, byte: u8) -> bool {
    let mut guarded = shared.write(rt);
    let guarded = &mut *guarded;
    grow(alloc, guarded, byte) && grow(alloc, guarded, byte)
}

/// How far the length is from the bound, and whether it is even.
fn room<R: Wait>(rt: &R, shared: &LockedExporter<AtMost>) -> (u64, bool) {
    let guarded = shared.read(rt);
    let length = guarded.state().bytes().len();
    (guarded.fact().most - length as u64, length % 2 == 0)
}

/// How often the first thread appended two bytes, or another one found the room that there was at first, and an even
/// length.
fn rounds<R: Wait>(rt: &R, alloc: Global, shared: &LockedExporter<AtMost>, number: usize) -> u64 {
    let mut right = 0u64;
    for round in 0..ROUNDS {
        let is_right = if number == 0 {
            grow_twice(rt, alloc, shared, (round % 256) as u8)
        } else {
            room(rt, shared) == (7, true)
        };
        if is_right {
            right = right.wrapping_add(1);
        }
    }
    right
}

fn rounds_of_all<R: Threads + Wait + Sync>(
    rt: &R,
    alloc: Global,
    shared: &LockedExporter<AtMost>,
) -> Made<u64> {
    let mut found = Vec::new(alloc);
    for _ in 0..THREADS {
        found.push(0)?;
    }
    thread::for_each_mut(
        rt,
        found.as_mut_slice(),
        THREADS,
        &|number, right| *right = rounds(rt, alloc, shared, number),
    );
    let mut sum = 0u64;
    for right in found.as_slice() {
        sum = sum.wrapping_add(*right);
    }
    Ok(sum)
}

#[test]
fn readers_rely_on_the_bound_beside_a_writer(rt: HostRuntime) -> Result<(), Fail> {
    let alloc = rt.alloc();
    let bytes = ByteList::new(alloc);
    let shared = LockedExporter::start(alloc, ExporterKind::ByteArray, bytes, AtMost { most: 7 });
    assert_eq!(rt; rounds_of_all(&rt, alloc, &shared)?, 5 * ROUNDS);
    let (state, fact) = shared.finish();
    assert_eq!(rt; state.bytes().len(), 2000);
    assert_eq!(rt; fact.most, 2007);
    Ok(())
}
