//! What a thread asks.
ghost use Rattle.std.specs.Prelude.{◌≡◌, ◌<◌, ◌≤◌};

use crate::plan::Plan;
use pybuf_command::{ExporterKind, LoanList, LocalCommand, Subject, Verb};
use pybuf_share::{Session, SharedExporter};
use pybuf_value::{ByteList, Made, NoMemory, Scalar, Value};
use std::alloc::Global;
use std::marker::Brand;
use std::sync::Wait;
use std::sync::ledger::{Blank, Ledger};
use std::thread;
use std::thread::Threads;

fn number(number: i128) -> Value {
    Value::One(Scalar::Int(number))
}

/// Asks a command to which nothing is lent.
fn ask<L: Ledger, R: Wait>(
    rt: &R,
    alloc: Global,
    shared: &SharedExporter<L>,
    session: &mut Session<L>,
    verb: Verb,
) -> Made<()> {
    let command = LocalCommand {
        subject: Subject::Own,
        verb,
        loans: LoanList::new(alloc),
    };
    shared.call(rt, session, command)
}

fn ask_round<L: Ledger, R: Wait>(
    rt: &R,
    alloc: Global,
    shared: &SharedExporter<L>,
    session: &mut Session<L>,
    byte: i128,
) -> Made<()> {
    ask(rt, alloc, shared, session, Verb::Get { key: number(0) })?;
    ask(
        rt,
        alloc,
        shared,
        session,
        Verb::Set {
            key: number(0),
            value: number(byte),
        },
    )?;
    ask(
        rt,
        alloc,
        shared,
        session,
        Verb::Append {
            value: number(byte),
        },
    )
}

fn ask_rounds<L: Ledger, R: Wait>(
    rt: &R,
    alloc: Global,
    shared: &SharedExporter<L>,
    session: &mut Session<L>,
    rounds: u64,
) -> Made<()> {
    for round in 0..rounds {
        ask_round(rt, alloc, shared, session, (round % 256) as i128)?;
    }
    Ok(())
}

/// What a thread is given, and whether its memory was enough.
#[derive(Drop)]
struct Asker<L: Ledger> {
    session: Session<L>,
    is_done: bool,
}

impl<L: Ledger> Asker<L> {
    fn ask_all<R: Wait>(&mut self, rt: &R, alloc: Global, shared: &SharedExporter<L>, rounds: u64) {
        self.is_done = ask_rounds(rt, alloc, shared, &mut self.session, rounds).is_ok();
    }
}

fn askers_of<L: Ledger>(alloc: Global, sessions: Vec<Session<L>>) -> Made<Vec<Asker<L>>> {
    let mut askers = Vec::new(alloc);
    for session in sessions {
        askers.push(Asker {
            session,
            is_done: false,
        })?;
    }
    Ok(askers)
}

/// The number of all replies, where the memory of each thread was enough.
fn replies_in<L: Ledger>(askers: &[Asker<L>]) -> Made<usize> {
    let mut replies = 0usize;
    for asker in askers {
        if !asker.is_done {
            return Err(NoMemory);
        }
        replies = replies.wrapping_add(asker.session.receipts().len());
    }
    Ok(replies)
}

fn ask_of_one<L: Ledger + Send + Sync, R: Threads + Wait + Sync>(
    rt: &R,
    alloc: Global,
    blank: Blank,
    plan: Plan,
) -> Made<usize>
    requires some { 0 < plan.threads }
    requires most { plan.threads ≤ 1024 }
    requires name { blank.name ≡ L.name }
    requires parts { blank.parts ≡ L.parts }
    requires each { blank.parts ≡ plan.threads }
{
    let bytes = ByteList::from_slice(alloc, b"a")?;
    let (shared, sessions) = SharedExporter::<L>::start(
        alloc,
        blank,
        ExporterKind::ByteArray,
        bytes,
        plan.threads,
    )?;
    let mut askers = askers_of(alloc, sessions)?;
    thread::for_each_mut(
        rt,
        askers.as_mut_slice(),
        plan.threads,
        &|_, asker| asker.ask_all(rt, alloc, &shared, plan.rounds),
    );
    replies_in(askers.as_slice())
}

/// The number of replies where all threads ask one exporter.
pub fn replies_of_one<R: Threads + Wait + Sync>(rt: &R, alloc: Global, plan: Plan) -> Made<usize>
    requires some { 0 < plan.threads }
    requires most { plan.threads ≤ 1024 }
{
    ask_of_one::<Brand, R>(rt, alloc, Blank::new(plan.threads as u64), plan)
}

fn ask_alone<L: Ledger, R: Wait>(rt: &R, alloc: Global, blank: Blank, rounds: u64) -> Made<usize>
    requires name { blank.name ≡ L.name }
    requires parts { blank.parts ≡ L.parts }
    requires each { blank.parts ≡ 1 }
{
    let bytes = ByteList::from_slice(alloc, b"a")?;
    let (shared, mut sessions) = SharedExporter::<L>::start(
        alloc,
        blank,
        ExporterKind::ByteArray,
        bytes,
        1,
    )?;
    let mut replies = 0usize;
    for session in sessions.as_mut_slice() {
        ask_rounds(rt, alloc, &shared, session, rounds)?;
        replies = session.receipts().len();
    }
    Ok(replies)
}

/// The number of replies of an exporter that one thread asks; none where there is too little memory.
fn replies_alone<R: Wait>(rt: &R, alloc: Global, rounds: u64) -> Option<usize> {
    match ask_alone::<Brand, R>(rt, alloc, Blank::new(1), rounds) {
        Ok(replies) => Some(replies),
        Err(NoMemory) => None,
    }
}

/// The number of replies where each thread asks an exporter of its own.
pub fn replies_of_each<R: Threads + Wait + Sync>(rt: &R, alloc: Global, plan: Plan) -> Made<usize>
    requires { 0 < plan.threads }
{
    let mut found = Vec::new(alloc);
    for _ in 0..plan.threads {
        found.push(None)?;
    }
    thread::for_each_mut(
        rt,
        found.as_mut_slice(),
        plan.threads,
        &|_, replies| *replies = replies_alone(rt, alloc, plan.rounds),
    );
    let mut sum = 0usize;
    for replies in found.as_slice() {
        match replies {
            Some(replies) => sum = sum.wrapping_add(*replies),
            None => return Err(NoMemory),
        }
    }
    Ok(sum)
}
