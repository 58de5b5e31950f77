//! Bytes that are handed from one locked buffer to another.
ghost use Rattle.std.specs.Prelude.{◌≡◌, [], ◌∷◌, true, IfOk, IfErr};
ghost use Rattle.pybuf_share.specs.Finishing.{RefusesAtLast};
ghost use Rattle.pybuf_share.specs.Sessions.{new_session};
ghost use Rattle.example_users.specs.Handing.{handed, byte_array, extending, IsAlone, IsNotHanded};

use pybuf::{
    ByteList, ExporterKind, FinishFault, Joined, LoanList, LocalCommand, Made, Scalar, Session,
    SharedExporter, Subject, Value, Verb,
};
use std::alloc::Global;
use std::marker::{Brand, Model};
use std::sync::Wait;
use std::sync::ledger::{Blank, Ledger};

/// The handle by which the bytes that are handed over are named.
const HANDED: u64 = 0;

/// Two buffers, of which the one has handed its bytes to the other.
///
/// A clause sees the bytes that each holds.
#[derive(Drop)]
pub struct Handover {
    from: Joined,
    to: Joined,
}

impl Model for Handover {
    ghost use Rattle.example_users.specs.Handing.{Handed, last_bytes, IsWhole};

    ghost Value = { Handed };

    ghost view = { λ h. record { given = last_bytes h.from; taken = last_bytes h.to } };

    ghost invariant = { λ h. IsWhole h.from × IsWhole h.to };
}

impl Handover {
    /// Hands all bytes of one buffer to the end of another. Each is a bytearray under a lock of its own, and no lock
    /// is held while the other is asked for. No byte is lost, and none comes twice.
    pub fn between<R: Wait>(
        rt: &R,
        alloc: Global,
        from: ByteList,
        to: ByteList,
    ) -> Result<Handover, FinishFault>
        ensures ok { IfOk result (λ h. h ≡ handed from to) }
        ensures err { IfErr result (λ f. IsNotHanded from to f) }
    {
        hand_over::<Brand, Brand, R>(rt, alloc, Blank::new(1), Blank::new(1), from, to)
    }

    /// The bytes that the one holds, which has handed them over.
    pub fn given(&self) -> &[u8]
        ensures { result.now ≡ self.now.given }
    {
        self.from.state.bytes()
    }

    /// The bytes that the other holds now.
    pub fn taken(&self) -> &[u8]
        ensures { result.now ≡ self.now.taken }
    {
        self.to.state.bytes()
    }
}

/// The command that adds what is handed over at the end.
fn extending(alloc: Global) -> LocalCommand
    ensures { result ≡ extending }
{
    LocalCommand {
        subject: Subject::Own,
        verb: Verb::Extend {
            value: Value::One(Scalar::Handle(HANDED)),
        },
        loans: LoanList::new(alloc),
    }
}

/// A bytearray under a lock, and the one session that asks it.
fn locked<L: Ledger>(
    alloc: Global,
    blank: Blank,
    bytes: ByteList,
) -> Made<(SharedExporter<L>, Session<L>)>
    requires name { blank.name ≡ L.name }
    requires parts { blank.parts ≡ L.parts }
    requires one { blank.parts ≡ 1 }
    ensures shared { IfOk result (λ made. made.0 ≡ byte_array bytes) }
    ensures session { IfOk result (λ made. made.1 ≡ new_session 0) }
{
    let (shared, sessions) = SharedExporter::<L>::start(
        alloc,
        blank,
        ExporterKind::ByteArray,
        bytes,
        1,
    )?;
    let mut sessions = sessions;
    match sessions.pop() {
        Some(session) => Ok((shared, session)),
        None => unreachable!(),
    }
}

fn only<L: Ledger>(alloc: Global, session: Session<L>) -> Made<Vec<Session<L>>>
    ensures { IfOk result (λ all. all.items ≡ session ∷ []) }
{
    let mut all = Vec::new(alloc);
    all.push(session)?;
    Ok(all)
}

/// The history of an exporter that a session has asked alone.
fn unlocked<L: Ledger>(
    alloc: Global,
    shared: SharedExporter<L>,
    session: Session<L>,
) -> Result<Joined, FinishFault>
    requires number { session.number ≡ 0 }
    requires parts { session.parts ≡ L.parts }
    requires plain { session.is_plain ≡ true }
    ensures ok { IfOk result (λ joined. IsAlone shared session joined) }
    ensures err { IfErr result (λ f. RefusesAtLast shared (session ∷ []) f) }
{
    let all = only(alloc, session)?;
    shared.finish(all)
}

fn hand_over<A: Ledger, B: Ledger, R: Wait>(
    rt: &R,
    alloc: Global,
    first: Blank,
    second: Blank,
    from: ByteList,
    to: ByteList,
) -> Result<Handover, FinishFault>
    requires name { first.name ≡ A.name }
    requires parts { first.parts ≡ A.parts }
    requires one { first.parts ≡ 1 }
    requires other_name { second.name ≡ B.name }
    requires other_parts { second.parts ≡ B.parts }
    requires other_one { second.parts ≡ 1 }
    ensures ok { IfOk result (λ h. h ≡ handed from to) }
    ensures err { IfErr result (λ f. IsNotHanded from to f) }
{
    let (source, mut giver) = locked::<A>(alloc, first, from)?;
    let (target, mut taker) = locked::<B>(alloc, second, to)?;
    let extending = extending(alloc);
    // Whether there were bytes isn't checked here. The history tells it, once it is found to be one of a single thread.
    target.carry(
        rt,
        alloc,
        &mut taker,
        extending,
        HANDED,
        &source,
        &mut giver,
        Subject::Own,
    )?;
    let from = unlocked(alloc, source, giver)?;
    let to = unlocked(alloc, target, taker)?;
    Ok(Handover { from, to })
}
