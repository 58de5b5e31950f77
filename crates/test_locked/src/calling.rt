//! 1,024 threads that append a byte each to one exporter.

use crate::asking::{append, is_done};
use pybuf_command::ExporterKind;
use pybuf_locked::{Anything, LockedExporter};
use pybuf_value::{ByteList, Made};
use std::alloc::Global;
use std::sync::Wait;
use std::test::Fail;
use std::thread;
use std::thread::Threads;

const SESSIONS: usize = 1024;

/// Appends a byte. Tells whether that was done.
fn append_once<R: Wait>(
    rt: &R,
    alloc: Global,
    shared: &LockedExporter<Anything>,
    byte: u8,
) -> bool {
    let command = append(alloc, byte);
    let answer = shared.call(rt, &command);
    drop(command);
    is_done(answer)
}

/// Numbers 0 to 1,023.
fn numbers(alloc: Global) -> Made<Vec<usize>> {
    let mut numbers = Vec::new(alloc);
    for number in 0..SESSIONS {
        numbers.push(number)?;
    }
    Ok(numbers)
}

/// Each thread appends the byte of its number, and puts 1 in its place where that was done, else 0.
fn append_each<R: Threads + Wait + Sync>(
    rt: &R,
    alloc: Global,
    shared: &LockedExporter<Anything>,
) -> Made<usize> {
    let mut numbers = numbers(alloc)?;
    thread::for_each_mut(
        rt,
        numbers.as_mut_slice(),
        SESSIONS,
        &|_, number| *number = append_once(rt, alloc, shared, (*number % 256) as u8) as usize,
    );
    let mut done = 0usize;
    for number in numbers.as_slice() {
        done = done.wrapping_add(*number);
    }
    Ok(done)
}

/// The length of some bytes, and their sum.
fn measured(bytes: &[u8]) -> (usize, u64) {
    let mut sum = 0u64;
    for byte in bytes {
        sum = sum.wrapping_add(*byte as u64);
    }
    (bytes.len(), sum)
}

/// Four threads append each byte: 4 times the sum of the numbers below 256.
#[test]
fn each_of_many_threads_appends_a_byte(rt: HostRuntime) -> Result<(), Fail> {
    let alloc = rt.alloc();
    let bytes = ByteList::new(alloc);
    let shared = LockedExporter::start(alloc, ExporterKind::ByteArray, bytes, Anything);
    assert_eq!(rt; append_each(&rt, alloc, &shared)?, SESSIONS);
    let (state, _) = shared.finish();
    let (length, sum) = measured(state.bytes());
    assert_eq!(rt; length, SESSIONS);
    assert_eq!(rt; sum, 4 * 128 * 255);
    Ok(())
}
