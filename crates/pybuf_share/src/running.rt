//! Scripts that sessions of one exporter carry out, each in a thread of its own.
ghost use Rattle.std.specs.Prelude.{◌≡◌, ◌<◌, ◌≤◌, length, map, IfOk, IfErr};
ghost use Rattle.std.specs.List.{All};
ghost use Rattle.pybuf_share.specs.Finishing.{AreAll};
ghost use Rattle.pybuf_share.specs.Running.{IsRun, IsNotRun};
ghost use Rattle.pybuf_share.specs.Sessions.{sessions_from};
ghost use Rattle.pybuf_share.specs.Working.{ScriptFits, HaveDone, works_from, post_of};

use crate::entries::ScriptList;
use crate::gate::Gate;
use crate::joined::{FinishFault, Joined};
use crate::session::Session;
use crate::shared::SharedExporter;
use crate::worker::Worker;
use pybuf_command::ExporterKind;
use pybuf_value::{ByteList, Made, NoMemory};
use std::alloc::Global;
use std::marker::Brand;
use std::sync::Wait;
use std::sync::ledger::{Blank, Ledger};
use std::thread;
use std::thread::Threads;

/// Carries out scripts on a new exporter of this kind and of these bytes. There are a session and a thread for each
/// script, which asks its commands in order, by the gate (`SharedExporter::call_gated`). Then all that they did is
/// put together, and it answers as `SharedExporter::finish` does.
///
/// The number of a view or of an iterator in a script, as a subject and as a loan, is the session's own count: the
/// first view that it is given is 0, and so is the first iterator. Before each call the exporter's number is put in
/// its place. A loan that the session wasn't given yet is missing, and a subject that it wasn't given yet is one that
/// no exporter has.
///
/// There are 1 to 1,024 scripts, whose loans fit. Where the memory of one thread runs out, that thread stops, and the
/// answer is `FinishFault::NoMemory`. It waits until all threads have ended; where the system makes no thread, the
/// scripts are carried out one after the other.
/// Example: of two scripts with one `append` each, on `b""`, the exporter has two bytes at the end.
pub fn run_sessions<R: Threads + Wait + Sync, G: Gate + Sync>(
    rt: &R,
    alloc: Global,
    kind: ExporterKind,
    bytes: ByteList,
    scripts: ScriptList,
    gate: &G,
) -> Result<Joined, FinishFault>
    requires some { 0 < length scripts }
    requires most { length scripts ≤ 1024 }
    requires fit { All ScriptFits scripts }
    ensures run { IfOk result (λ j. IsRun kind bytes scripts j) }
    ensures err { IfErr result (λ f. IsNotRun kind bytes scripts f) }
{
    let blank = Blank::new(scripts.len() as u64);
    run_by::<Brand, R, G>(rt, alloc, blank, kind, bytes, scripts, gate)
}

/// The same, by a ledger of as many parts as there are scripts.
fn run_by<L: Ledger + Send + Sync, R: Threads + Wait + Sync, G: Gate + Sync>(
    rt: &R,
    alloc: Global,
    blank: Blank,
    kind: ExporterKind,
    bytes: ByteList,
    scripts: ScriptList,
    gate: &G,
) -> Result<Joined, FinishFault>
    requires name { blank.name ≡ L.name }
    requires parts { blank.parts ≡ L.parts }
    requires each { blank.parts ≡ length scripts }
    requires some { 0 < length scripts }
    requires most { length scripts ≤ 1024 }
    requires fit { All ScriptFits scripts }
    ensures run { IfOk result (λ j. IsRun kind bytes scripts j) }
    ensures err { IfErr result (λ f. IsNotRun kind bytes scripts f) }
{
    let (shared, sessions) = SharedExporter::<L>::start(alloc, blank, kind, bytes, scripts.len())?;
    let workers = workers_of(alloc, sessions, scripts)?;
    let workers = run_workers(rt, alloc, &shared, workers, gate);
    let sessions = sessions_of(alloc, workers)?;
    shared.finish(sessions)
}

/// New sessions, each with its script.
fn workers_of<L: Ledger>(
    alloc: Global,
    sessions: Vec<Session<L>>,
    scripts: ScriptList,
) -> Made<Vec<Worker<L>>>
    requires sessions { sessions.items ≡ sessions_from 0 (length scripts) }
    requires fit { All ScriptFits scripts }
    ensures { IfOk result (λ ws. ws.items ≡ works_from 0 scripts) }
{
    let mut workers = Vec::new(alloc);
    let mut left = scripts.into_vec().into_iter();
    for session in sessions {
        if let Some(script) = left.next() {
            workers.push(Worker::new(session, script))?;
        }
    }
    Ok(workers)
}

/// Lets each worker carry out its script, in a thread of its own.
fn run_workers<L: Ledger + Send + Sync, R: Threads + Wait + Sync, G: Gate + Sync>(
    rt: &R,
    alloc: Global,
    shared: &SharedExporter<L>,
    workers: Vec<Worker<L>>,
    gate: &G,
) -> Vec<Worker<L>>
    requires { 0 < length workers.items }
    ensures { map post_of result.items ≡ map post_of workers.items }
{
    let mut workers = workers;
    let threads = workers.len();
    thread::for_each_mut(
        rt,
        workers.as_mut_slice(),
        threads,
        &|_, worker| worker.carry_out(rt, alloc, shared, gate),
    );
    workers
}

/// The sessions of workers, where each has carried out its script.
fn sessions_of<L: Ledger>(alloc: Global, workers: Vec<Worker<L>>) -> Made<Vec<Session<L>>>
    ensures sessions { IfOk result (λ ss. ss.items ≡ map (λ w. w.asker) workers.items) }
    ensures done { IfOk result (λ ss. HaveDone (map (λ w. w.script) workers.items) ss.items) }
{
    let mut sessions = Vec::new(alloc);
    for worker in workers {
        let session = worker.into_session()?;
        sessions.push(session)?;
    }
    Ok(sessions)
}
