//! Threads that ask commands of one exporter, or each of one of its own: `bench/threads` runs this program beside
//! threads of Python.
//!
//! The words are a form, the number of threads, from 1 to 1,024, and how many rounds each makes. By `one` and `locked`
//! all threads ask one exporter, and by `each` and `own` everyone has one of its own. `one` and `each` keep a history,
//! `locked` keeps none, and `own` has no lock. A round is a `get`, a `set` and an `append` of a bytearray, and by `soak`,
//! which is like `locked` else, also a `pop`. By `reads` a round counts the letters of an exporter of 65,536 bytes,
//! beside other readers. By `all` these are done one after the other. The number of commands that were replied to, and of
//! right countings, is printed.
#![tactic(auto)]

ghost use Rattle.std.specs.Prelude.{◌<◌, ◌≤◌};

mod asking;
mod locking;
mod owning;
mod plan;
mod rounds;

use asking::{replies_of_each, replies_of_one};
use locking::{commands_of_locked, readings_of_locked};
use owning::commands_of_own;
use plan::{Form, Plan, plan_of, words_of};
use pybuf_value::{Made, NoMemory};
use std::alloc::Global;
use std::process::ExitCode;
use std::sync::Wait;
use std::thread::Threads;

/// The number of replies of all forms, one after the other.
fn replies_of_all<R: Threads + Wait + Sync>(rt: &R, alloc: Global, plan: Plan) -> Made<usize>
    requires some { 0 < plan.threads }
    requires most { plan.threads ≤ 1024 }
{
    let one = replies_of_one(rt, alloc, plan)?;
    let each = replies_of_each(rt, alloc, plan)?;
    let locked = commands_of_locked(rt, alloc, plan, false)?;
    let soaked = commands_of_locked(rt, alloc, plan, true)?;
    let readings = readings_of_locked(rt, alloc, plan)?;
    let own = commands_of_own(rt, alloc, plan)?;
    let commands = one
        .wrapping_add(each)
        .wrapping_add(locked)
        .wrapping_add(own);
    Ok(commands.wrapping_add(soaked).wrapping_add(readings))
}

/// The number of replies that a plan gives.
fn replies_of<R: Threads + Wait + Sync>(rt: &R, alloc: Global, plan: Plan) -> Made<usize>
    requires some { 0 < plan.threads }
    requires most { plan.threads ≤ 1024 }
{
    match plan.form {
        Form::All => replies_of_all(rt, alloc, plan),
        Form::One => replies_of_one(rt, alloc, plan),
        Form::Each => replies_of_each(rt, alloc, plan),
        Form::Locked => commands_of_locked(rt, alloc, plan, false),
        Form::Soak => commands_of_locked(rt, alloc, plan, true),
        Form::Own => commands_of_own(rt, alloc, plan),
        Form::Reads => readings_of_locked(rt, alloc, plan),
    }
}

fn main(rt: HostRuntime) -> ExitCode {
    let words = words_of(&rt);
    let plan = plan_of(words.as_slice());
    match replies_of(&rt, rt.alloc(), plan) {
        Ok(replies) => match println!(rt; "{replies}") {
            Ok(()) => ExitCode::from(0),
            Err(_) => ExitCode::from(5),
        },
        Err(NoMemory) => ExitCode::from(3),
    }
}
