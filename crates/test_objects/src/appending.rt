//! 1,024 sessions that append a byte each to one exporter, each in a thread of its own.
ghost use Rattle.std.specs.Prelude.{◌≡◌};
ghost use Rattle.pybuf_share.specs.Finishing.{AreAll};

use crate::asking::append;
use pybuf_command::ExporterKind;
use pybuf_share::{FinishFault, Joined, Session, SharedExporter};
use pybuf_value::{ByteList, Made};
use std::alloc::Global;
use std::marker::Brand;
use std::sync::Wait;
use std::sync::ledger::{Blank, Ledger};
use std::test::Fail;
use std::thread;
use std::thread::Threads;

const SESSIONS: usize = 1024;

/// Appends a byte of the session's own. What is replied stands in the history.
fn append_once<L: Ledger, R: Wait>(
    rt: &R,
    alloc: Global,
    shared: &SharedExporter<L>,
    session: &mut Session<L>,
)
    ensures number { session.new.number ≡ session.old.number }
    ensures parts { session.new.parts ≡ session.old.parts }
{
    let command = append(alloc, (session.number() % 256) as u8);
    let _ = shared.call(rt, session, command);
}

/// Each session appends its byte, in a thread of its own.
fn append_each<L: Ledger + Send + Sync, R: Threads + Wait + Sync>(
    rt: &R,
    alloc: Global,
    shared: &SharedExporter<L>,
    sessions: Vec<Session<L>>,
) -> Vec<Session<L>>
    requires { AreAll L.parts sessions.items }
    ensures { AreAll L.parts result.items }
{
    let mut sessions = sessions;
    thread::for_each_mut(
        rt,
        sessions.as_mut_slice(),
        SESSIONS,
        &|_, session| append_once(rt, alloc, shared, session),
    );
    sessions
}

/// The number of entries, and the sum of the bytes that there are at the end.
fn counted(answer: Result<Joined, FinishFault>) -> (usize, u64) {
    let mut sum = 0u64;
    let entries = match &answer {
        Ok(joined) => {
            for byte in joined.state.bytes() {
                sum = sum.wrapping_add(*byte as u64);
            }
            joined.entries.len()
        }
        Err(_) => 0,
    };
    drop(answer);
    (entries, sum)
}

fn by_calls<L: Ledger + Send + Sync, R: Threads + Wait + Sync>(
    rt: &R,
    alloc: Global,
    blank: Blank,
) -> Made<(usize, u64)>
    requires name { blank.name ≡ L.name }
    requires parts { blank.parts ≡ L.parts }
    requires each { blank.parts ≡ 1024 }
{
    let bytes = ByteList::new(alloc);
    let (shared, sessions) = SharedExporter::<L>::start(
        alloc,
        blank,
        ExporterKind::ByteArray,
        bytes,
        SESSIONS,
    )?;
    let sessions = append_each(rt, alloc, &shared, sessions);
    Ok(counted(shared.finish(sessions)))
}

fn by_calls_by_brand<R: Threads + Wait + Sync>(rt: &R, alloc: Global) -> Made<(usize, u64)> {
    by_calls::<Brand, R>(rt, alloc, Blank::new(1024))
}

/// Four sessions append each byte: 4 times the sum of the numbers below 256.
#[test]
fn each_of_many_sessions_appends_a_byte(rt: HostRuntime) -> Result<(), Fail> {
    let (entries, sum) = by_calls_by_brand(&rt, rt.alloc())?;
    assert_eq!(rt; entries, SESSIONS);
    assert_eq!(rt; sum, 4 * 128 * 255);
    Ok(())
}
