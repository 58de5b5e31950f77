//! The kernels of the library, each measured alone: `bench/kernels` runs this program beside Python's own
//! calls on the same bytes, and beside numpy's.
//!
//! The words are a kernel, or `all`; how often it is called; the bytes of a kernel over bytes; the items of a
//! kernel over items; the seed of the bytes; and `time`, where the time is to be told. For each kernel its
//! name and a check sum are printed, and with `time` the nanoseconds of processor time that all calls took.
#![tactic(auto)]

mod answers;
mod arrays;
mod axes;
mod codes;
mod data;
mod drawn_queue;
mod kernels;
mod keys;
mod making;
mod measuring;
mod numbers;
mod plan;
mod queues;
mod records;
mod scoped;
mod strings;
mod tables;
mod viewed;
mod views;
mod worlds;

use kernels::{COPY_KERNELS, ITEM_KERNELS, METHOD_KERNELS, OTHER_KERNELS, Work, measure_work};
use measuring::{Stop, asks_for, status_of, tell};
use plan::{Plan, name_of, plan_of, words_of};
use std::process::ExitCode;
use std::time::CpuClock;

/// Measures those of some kernels that a word asks for.
fn run_some<R: CpuClock + AllocGlobal + Print>(
    rt: &R,
    plan: Plan,
    word: &str,
    kernels: &[(&str, Work)],
) -> Result<(), Stop> {
    for (name, work) in kernels {
        if asks_for(word, name) {
            let measured = measure_work(rt, plan, *work)?;
            tell(rt, plan, name, measured)?;
        }
    }
    Ok(())
}

fn run_copies<R: CpuClock + AllocGlobal + Print>(
    rt: &R,
    plan: Plan,
    word: &str,
) -> Result<(), Stop> {
    run_some(rt, plan, word, &COPY_KERNELS)
}

fn run_items<R: CpuClock + AllocGlobal + Print>(
    rt: &R,
    plan: Plan,
    word: &str,
) -> Result<(), Stop> {
    run_some(rt, plan, word, &ITEM_KERNELS)
}

fn run_methods<R: CpuClock + AllocGlobal + Print>(
    rt: &R,
    plan: Plan,
    word: &str,
) -> Result<(), Stop> {
    run_some(rt, plan, word, &METHOD_KERNELS)
}

fn run_others<R: CpuClock + AllocGlobal + Print>(
    rt: &R,
    plan: Plan,
    word: &str,
) -> Result<(), Stop> {
    run_some(rt, plan, word, &OTHER_KERNELS)
}

/// Measures the kernel of a name, or all of them.
fn run<R: CpuClock + AllocGlobal + Print>(rt: &R, plan: Plan, word: &str) -> Result<(), Stop> {
    run_copies(rt, plan, word)?;
    run_items(rt, plan, word)?;
    run_methods(rt, plan, word)?;
    run_others(rt, plan, word)
}

fn main(rt: HostRuntime) -> ExitCode {
    let words = words_of(&rt);
    let plan = plan_of(words.as_slice());
    status_of(run(&rt, plan, name_of(words.as_slice())))
}
