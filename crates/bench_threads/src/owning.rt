//! What a thread asks of an exporter that is its own, and under no lock.
ghost use Rattle.std.specs.Prelude.{◌<◌};
ghost use Rattle.pybuf_state.specs.Fits.{LoansFit};

use crate::locking::{rooms, sum_of};
use crate::plan::Plan;
use crate::rounds::Round;
use pybuf_command::{ExporterKind, LocalCommand};
use pybuf_exporter::ExporterState;
use pybuf_value::{ByteList, Made, NoMemory};
use std::alloc::Global;
use std::thread;
use std::thread::Threads;

/// Asks a command.
fn ask(own: &mut ExporterState, command: &LocalCommand) -> Made<()>
    requires { LoansFit command.now.loans }
{
    if own.step(command).is_ok() {
        Ok(())
    } else {
        Err(NoMemory)
    }
}

fn ask_round(own: &mut ExporterState, round: &Round) -> Made<()> {
    ask(own, &round.get)?;
    ask(own, &round.set)?;
    ask(own, &round.append)
}

fn ask_rounds(own: &mut ExporterState, round: &mut Round, rounds: u64) -> Made<usize> {
    let mut commands = 0usize;
    for number in 0..rounds {
        round.write((number % 256) as u8);
        ask_round(own, round)?;
        commands = commands.wrapping_add(3);
    }
    Ok(commands)
}

fn commands_of(alloc: Global, rounds: u64) -> Made<usize> {
    let bytes = ByteList::from_slice(alloc, b"a")?;
    let mut own = ExporterState::new(alloc, ExporterKind::ByteArray, bytes);
    let mut round = Round::new(alloc);
    ask_rounds(&mut own, &mut round, rounds)
}

/// The number of commands of an exporter that one thread has; none where there is too little memory.
fn commands_in(alloc: Global, rounds: u64) -> Option<usize> {
    commands_of(alloc, rounds).ok()
}

/// The number of commands where each thread has an exporter of its own.
pub fn commands_of_own<R: Threads + Sync>(rt: &R, alloc: Global, plan: Plan) -> Made<usize>
    requires { 0 < plan.threads }
{
    let mut found = rooms(alloc, plan.threads)?;
    thread::for_each_mut(
        rt,
        found.as_mut_slice(),
        plan.threads,
        &|_, commands| *commands = commands_in(alloc, plan.rounds),
    );
    sum_of(found.as_slice())
}
