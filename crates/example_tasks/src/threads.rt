//! Bytes that threads change under a lock.
ghost use Rattle.std.specs.Prelude.{◌≡◌, []};

use pybuf::{ByteList, ExporterKind, LoanList, LocalCommand, Made, Subject, Value, Verb};
use pybuf_locked::{Anything, LockedExporter};
use std::alloc::Global;
use std::fmt::Write;
use std::sync::Wait;
use std::thread::{self, Threads};

/// A command to the exporter itself, to which nothing is lent.
fn own(alloc: Global, verb: Verb) -> LocalCommand
    ensures { result.loans ≡ [] }
{
    LocalCommand {
        subject: Subject::Own,
        verb,
        loans: LoanList::new(alloc),
    }
}

/// Lets four threads add one to each of the four counters of a block, 25 times each, and writes them.
pub fn count<R: Threads + Wait + Sync>(rt: &R, alloc: Global, out: &mut String) -> Made<()> {
    let block = ByteList::from_slice(alloc, &[0u8; 4])?;
    let shared = LockedExporter::start(alloc, ExporterKind::ByteArray, block, Anything);
    thread::for_each_mut(rt, &mut [(); 4], 4, &|_, _| drop(add(rt, alloc, &shared)));
    Ok(writeln!(out, "{:?}", shared.finish().0.bytes())?)
}

fn add<R: Wait>(rt: &R, alloc: Global, shared: &LockedExporter<Anything>) -> Made<()> {
    for n in 0..100usize {
        let mut block = shared.write(rt);
        let count = block.state().bytes().get(n % 4).copied().unwrap_or(0);
        let (key, value) = (Value::from(n as i128 % 4), Value::from(count as i128 + 1));
        block.step(&own(alloc, Verb::Set { key, value }))?;
    }
    Ok(())
}
