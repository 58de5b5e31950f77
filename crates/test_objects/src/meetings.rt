//! Two threads that ask two exporters. That they end shows that no exporter waits for another: neither while a session
//! holds its lock, nor where bytes are carried between them, both ways at once.
ghost use Rattle.std.specs.Prelude.{◌≡◌, []};

use crate::asking::own;
use pybuf_command::{ExporterKind, LocalCommand, LocalReply, Subject, Verb};
use pybuf_share::{Gate, Session, SharedExporter};
use pybuf_value::{ByteList, Made, PySlice, Scalar, Value};
use std::alloc::Global;
use std::marker::Brand;
use std::sync::Wait;
use std::sync::atomic::{AtomicU64, Ordering};
use std::sync::ledger::{Blank, Ledger};
use std::test::Fail;
use std::thread;
use std::thread::Threads;

/// How often a byte is carried each way by each of two threads.
const ROUNDS: u64 = 1000;

/// So often a word is looked at before it is given up.
const LOOKS: u64 = 100_000_000;

/// After so many looks another thread is let run.
const LOOKS_AT_ONCE: u64 = 100_000;

/// A gate that holds its exporter's lock until another exporter has answered. Its word is 1 once the lock is held, and 3
/// once the other has answered; it is 4 more where that was missed.
#[derive(Drop)]
struct Holding {
    word: AtomicU64,
}

impl Holding {
    fn add(&self, number: u64) {
        self.word.fetch_add(number, Ordering::SeqCst);
    }

    /// Waits until the word is at least so great, and tells whether it came to that.
    fn comes_to(&self, number: u64) -> bool {
        for look in 0..LOOKS {
            if self.word.load(Ordering::SeqCst) >= number {
                return true;
            }
            if look % LOOKS_AT_ONCE == 0 {
                thread::yield_now();
            }
        }
        false
    }
}

impl Gate for Holding {
    fn before(&self, _session: u64, _turn: u64) {}

    fn inside(&self, _session: u64, _turn: u64) {
        self.add(1);
        if !self.comes_to(3) {
            self.add(4);
        }
    }
}

/// Puts what was carried in place of the first byte: `own[0:1] = carried`.
fn put(alloc: Global) -> LocalCommand
    ensures { result.loans ≡ [] }
{
    let key = Value::Slice(PySlice::new(Some(0), Some(1), None));
    let value = Value::One(Scalar::Handle(0));
    own(alloc, Verb::Set { key, value })
}

/// Carries all bytes of an exporter to another. 1 where they were put there.
fn carried<A: Ledger, B: Ledger, R: Wait>(
    rt: &R,
    alloc: Global,
    to: &SharedExporter<A>,
    session: &mut Session<A>,
    from: &SharedExporter<B>,
    giver: &mut Session<B>,
) -> u64 {
    let answer = to.carry(rt, alloc, session, put(alloc), 0, from, giver, Subject::Own);
    match (answer, session.last()) {
        (Ok(true), Some(LocalReply::Ok)) => 1,
        _ => 0,
    }
}

/// A session of each of two exporters, and how often a byte was put by them.
#[derive(Drop)]
struct Asker<A: Ledger, B: Ledger> {
    ours: Session<A>,
    theirs: Session<B>,
    put: u64,
}

impl<A: Ledger, B: Ledger> Asker<A, B> {
    /// The first session of the one exporter asks by the gate, and then the other's session asks of that.
    fn meet<R: Wait>(
        &mut self,
        rt: &R,
        alloc: Global,
        one: &SharedExporter<A>,
        other: &SharedExporter<B>,
        holding: &Holding,
    ) {
        let command = own(alloc, Verb::Len);
        if self.ours.number() == 0 {
            let _ = one.call_gated(rt, &mut self.ours, command, holding);
            return;
        }
        if holding.comes_to(1) && other.call(rt, &mut self.theirs, command).is_ok() {
            holding.add(2);
        }
    }

    fn carry_both_ways<R: Wait>(
        &mut self,
        rt: &R,
        alloc: Global,
        one: &SharedExporter<A>,
        other: &SharedExporter<B>,
    ) {
        let (ours, theirs) = (&mut self.ours, &mut self.theirs);
        for _ in 0..ROUNDS {
            let there = carried(rt, alloc, other, theirs, one, ours);
            let back = carried(rt, alloc, one, ours, other, theirs);
            self.put = self.put.wrapping_add(there).wrapping_add(back);
        }
    }

    fn ask<R: Wait>(
        &mut self,
        rt: &R,
        alloc: Global,
        one: &SharedExporter<A>,
        other: &SharedExporter<B>,
        holding: &Holding,
    ) {
        self.meet(rt, alloc, one, other, holding);
        self.carry_both_ways(rt, alloc, one, other);
    }
}

fn askers_of<A: Ledger, B: Ledger>(
    alloc: Global,
    ours: Vec<Session<A>>,
    theirs: Vec<Session<B>>,
) -> Made<Vec<Asker<A, B>>> {
    let mut askers = Vec::new(alloc);
    let mut left = theirs;
    for ours in ours {
        if let Some(theirs) = left.pop() {
            askers.push(Asker {
                ours,
                theirs,
                put: 0,
            })?;
        }
    }
    Ok(askers)
}

/// A bytearray of one byte under a lock, with two sessions.
fn started<L: Ledger>(alloc: Global, blank: Blank) -> Made<(SharedExporter<L>, Vec<Session<L>>)>
    requires name { blank.name ≡ L.name }
    requires parts { blank.parts ≡ L.parts }
    requires two { blank.parts ≡ 2 }
{
    let bytes = ByteList::from_slice(alloc, b"a")?;
    SharedExporter::start(alloc, blank, ExporterKind::ByteArray, bytes, 2)
}

/// Two threads ask two exporters. The result is how often a byte was put.
fn ask_two<A: Ledger + Send + Sync, B: Ledger + Send + Sync, R: Threads + Wait + Sync>(
    rt: &R,
    alloc: Global,
    left: Blank,
    right: Blank,
    holding: &Holding,
) -> Made<u64>
    requires name { left.name ≡ A.name }
    requires parts { left.parts ≡ A.parts }
    requires two { left.parts ≡ 2 }
    requires right_name { right.name ≡ B.name }
    requires right_parts { right.parts ≡ B.parts }
    requires right_two { right.parts ≡ 2 }
{
    let (one, ours) = started::<A>(alloc, left)?;
    let (other, theirs) = started::<B>(alloc, right)?;
    let mut askers = askers_of(alloc, ours, theirs)?;
    thread::for_each_mut(
        rt,
        askers.as_mut_slice(),
        2,
        &|_, asker| asker.ask(rt, alloc, &one, &other, holding),
    );
    let mut put = 0u64;
    for asker in askers.as_slice() {
        put = put.wrapping_add(asker.put);
    }
    Ok(put)
}

fn ask_two_by_brand<R: Threads + Wait + Sync>(
    rt: &R,
    alloc: Global,
    holding: &Holding,
) -> Made<u64> {
    ask_two::<Brand, Brand, R>(rt, alloc, Blank::new(2), Blank::new(2), holding)
}

#[test]
fn no_exporter_waits_for_another(rt: HostRuntime) -> Result<(), Fail> {
    let holding = Holding {
        word: AtomicU64::new(0),
    };
    let put = ask_two_by_brand(&rt, rt.alloc(), &holding)?;
    assert_eq!(rt; put, 4 * ROUNDS);
    assert_eq!(rt; holding.word.load(Ordering::SeqCst), 3);
    Ok(())
}
