//! A kernel, how it is measured, what is printed of it, and how the program ends.

use crate::answers::Answer;
use crate::plan::Plan;
use pybuf_value::Halt;
use std::alloc::Global;
use std::io;
use std::process::ExitCode;
use std::time::{CpuClock, Duration};

/// Something that is called again and again, with what it is called on.
pub trait Kernel {
    /// One call.
    fn call(&mut self, alloc: Global) -> Result<Answer, Halt>;

    /// The check sum of what the calls wrote, made once the time was taken; 0 where they write nothing.
    fn written(&self, _alloc: Global) -> Result<i128, Halt> {
        Ok(0)
    }
}

/// Why a run stops.
#[derive(Drop)]
pub enum Stop {
    Halt(Halt),
    Device(io::Error),
}

impl From<Halt> for Stop {
    fn from(halt: Halt) -> Stop {
        Stop::Halt(halt)
    }
}

impl From<io::Error> for Stop {
    fn from(fault: io::Error) -> Stop {
        Stop::Device(fault)
    }
}

/// What a run of a kernel says: its check sum, and how long its calls took.
#[derive(Clone, Copy)]
pub struct Measured {
    pub mark: i128,
    pub nanoseconds: u128,
}

/// Calls a kernel so often, and keeps the last answer.
fn call_all<K: Kernel>(
    alloc: Global,
    kernel: &mut K,
    calls: u64,
    answer: &mut Answer,
) -> Result<(), Halt> {
    for _ in 0..calls {
        *answer = kernel.call(alloc)?;
    }
    Ok(())
}

/// The processor time so far; none where it isn't asked for.
fn time_now<R: CpuClock>(rt: &R, plan: Plan) -> io::Result<Duration> {
    if plan.is_timed {
        rt.process_cpu_time()
    } else {
        Ok(Duration::ZERO)
    }
}

/// Calls a kernel as often as the plan says, and tells the nanoseconds that all calls took.
fn time_calls<R: CpuClock + AllocGlobal, K: Kernel>(
    rt: &R,
    plan: Plan,
    kernel: &mut K,
    answer: &mut Answer,
) -> Result<u128, Stop> {
    let start = time_now(rt, plan)?;
    call_all(rt.alloc(), kernel, plan.calls, answer)?;
    let end = time_now(rt, plan)?;
    Ok(end.saturating_sub(start).as_nanos())
}

/// Calls a kernel once before the clock is read, and then as often as the plan says.
pub fn measure<R: CpuClock + AllocGlobal, K: Kernel + Drop>(
    rt: &R,
    plan: Plan,
    mut kernel: K,
) -> Result<Measured, Stop> {
    let alloc = rt.alloc();
    let mut answer = kernel.call(alloc)?;
    let nanoseconds = time_calls(rt, plan, &mut kernel, &mut answer)?;
    let mark = answer.mark();
    drop(answer);
    let written = kernel.written(alloc)?;
    Ok(Measured {
        mark: mark.wrapping_add(written),
        nanoseconds,
    })
}

/// Whether a word names a kernel: by its name, or as one of all.
pub fn asks_for(word: &str, name: &str) -> bool {
    word == "all" || word == name
}

/// Prints what a kernel says, and how long it took where that is asked for.
pub fn tell<R: Print>(rt: &R, plan: Plan, name: &str, measured: Measured) -> io::Result<()> {
    let Measured { mark, nanoseconds } = measured;
    if plan.is_timed {
        println!(rt; "{name} {mark} {nanoseconds}")
    } else {
        println!(rt; "{name} {mark}")
    }
}

/// How a run ends.
pub fn status_of(run: Result<(), Stop>) -> ExitCode {
    match run {
        Ok(()) => ExitCode::from(0),
        Err(Stop::Halt(Halt::Refused(_))) => ExitCode::from(2),
        Err(Stop::Halt(Halt::NoMemory)) => ExitCode::from(3),
        Err(Stop::Device(_)) => ExitCode::from(5),
    }
}
