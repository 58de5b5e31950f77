//! What a thread asks of an exporter under a lock that keeps no history.
ghost use Rattle.std.specs.Prelude.{◌<◌};
ghost use Rattle.pybuf_state.specs.Fits.{LoansFit};

use crate::plan::Plan;
use crate::rounds::Round;
use pybuf_command::{ExporterKind, LocalCommand};
use pybuf_locked::{Anything, LockedExporter};
use pybuf_value::{ByteList, Made, NoMemory};
use std::alloc::Global;
use std::sync::Wait;
use std::thread;
use std::thread::Threads;

/// Asks a command.
fn ask<R: Wait>(rt: &R, shared: &LockedExporter<Anything>, command: &LocalCommand) -> Made<()>
    requires { LoansFit command.now.loans }
{
    if shared.call(rt, command).is_ok() {
        Ok(())
    } else {
        Err(NoMemory)
    }
}

fn ask_round<R: Wait>(
    rt: &R,
    shared: &LockedExporter<Anything>,
    round: &Round,
    pops: bool,
) -> Made<()> {
    ask(rt, shared, &round.get)?;
    ask(rt, shared, &round.set)?;
    ask(rt, shared, &round.append)?;
    if pops {
        ask(rt, shared, &round.pop)
    } else {
        Ok(())
    }
}

fn ask_rounds<R: Wait>(
    rt: &R,
    shared: &LockedExporter<Anything>,
    round: &mut Round,
    rounds: u64,
    pops: bool,
) -> Made<usize> {
    let mut commands = 0usize;
    for number in 0..rounds {
        round.write((number % 256) as u8);
        ask_round(rt, shared, round, pops)?;
        commands = commands.wrapping_add(if pops { 4 } else { 3 });
    }
    Ok(commands)
}

/// The number of commands of so many rounds. Where `pops` holds, each round takes the byte out again that it added.
fn commands_of<R: Wait>(
    rt: &R,
    alloc: Global,
    shared: &LockedExporter<Anything>,
    rounds: u64,
    pops: bool,
) -> Made<usize> {
    let mut round = Round::new(alloc);
    ask_rounds(rt, shared, &mut round, rounds, pops)
}

/// The same; none where there is too little memory.
fn commands_in<R: Wait>(
    rt: &R,
    alloc: Global,
    shared: &LockedExporter<Anything>,
    rounds: u64,
    pops: bool,
) -> Option<usize> {
    commands_of(rt, alloc, shared, rounds, pops).ok()
}

/// How many of the exporter's bytes are the letter a, counted while the lock is held to read.
fn count_once<R: Wait>(rt: &R, shared: &LockedExporter<Anything>) -> usize {
    let guarded = shared.read(rt);
    let mut found = 0usize;
    for byte in guarded.state().bytes() {
        if *byte == b'a' {
            found = found.wrapping_add(1);
        }
    }
    found
}

/// The number of readings of so many rounds that found as many letters as there are bytes.
fn readings_of<R: Wait>(
    rt: &R,
    shared: &LockedExporter<Anything>,
    rounds: u64,
    length: usize,
) -> usize {
    let mut readings = 0usize;
    for _ in 0..rounds {
        if count_once(rt, shared) == length {
            readings = readings.wrapping_add(1);
        }
    }
    readings
}

/// Room for what each of so many threads finds.
pub(crate) fn rooms(alloc: Global, threads: usize) -> Made<Vec<Option<usize>>> {
    let mut found = Vec::new(alloc);
    for _ in 0..threads {
        found.push(None)?;
    }
    Ok(found)
}

/// What all threads found, together.
pub(crate) fn sum_of(found: &[Option<usize>]) -> Made<usize> {
    let mut sum = 0usize;
    for one in found {
        match one {
            Some(one) => sum = sum.wrapping_add(*one),
            None => return Err(NoMemory),
        }
    }
    Ok(sum)
}

/// The number of commands that all threads asked of one exporter under a lock.
pub fn commands_of_locked<R: Threads + Wait + Sync>(
    rt: &R,
    alloc: Global,
    plan: Plan,
    pops: bool,
) -> Made<usize>
    requires { 0 < plan.threads }
{
    let bytes = ByteList::from_slice(alloc, b"a")?;
    let shared = LockedExporter::start(alloc, ExporterKind::ByteArray, bytes, Anything);
    let mut found = rooms(alloc, plan.threads)?;
    thread::for_each_mut(
        rt,
        found.as_mut_slice(),
        plan.threads,
        &|_, commands| *commands = commands_in(rt, alloc, &shared, plan.rounds, pops),
    );
    sum_of(found.as_slice())
}

const LENGTH: usize = 65536;

/// The number of readings that all threads made, beside each other, of one exporter of 65,536 bytes under a lock.
pub fn readings_of_locked<R: Threads + Wait + Sync>(
    rt: &R,
    alloc: Global,
    plan: Plan,
) -> Made<usize>
    requires { 0 < plan.threads }
{
    let mut bytes = ByteList::new(alloc);
    for _ in 0..LENGTH {
        bytes.push(b'a')?;
    }
    let shared = LockedExporter::start(alloc, ExporterKind::ByteArray, bytes, Anything);
    let mut found = rooms(alloc, plan.threads)?;
    thread::for_each_mut(
        rt,
        found.as_mut_slice(),
        plan.threads,
        &|_, readings| *readings = Some(readings_of(rt, &shared, plan.rounds, LENGTH)),
    );
    sum_of(found.as_slice())
}
