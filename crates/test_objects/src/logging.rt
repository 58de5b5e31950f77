//! A history without a lock, and what is told at its end where a session shows what no call gave it.
ghost use Rattle.std.specs.Prelude.{◌≡◌};

use crate::asking::{append, own};
use pybuf_command::{ExporterKind, LocalReply, Verb};
use pybuf_share::{Entry, FinishFault, Joined, Logged, Receipt, Session, SharedCommand};
use pybuf_value::{ByteList, Made};
use std::alloc::Global;
use std::marker::Brand;
use std::sync::ledger::{Blank, Ledger};
use std::test::Fail;

/// Appends a byte, and adds a receipt of number 1, which the history doesn't have.
fn note_and_show<L: Ledger>(
    alloc: Global,
    logged: &mut Logged<L>,
    session: &mut Session<L>,
) -> Made<()>
    ensures number { session.new.number ≡ session.old.number }
    ensures parts { session.new.parts ≡ session.old.parts }
{
    logged.note_call(session, append(alloc, b'c'))?;
    let entry = Entry {
        session: 0,
        command: SharedCommand::new(alloc, own(alloc, Verb::Clear))?,
        reply: LocalReply::Ok,
    };
    session.add_receipt(Receipt { at: 1, entry })
}

/// Whether the first receipt that the history doesn't have is said to be of this number, past its end.
fn is_past(answer: Result<Joined, FinishFault>, number: u64) -> bool {
    let is_past = match &answer {
        Err(
            FinishFault::Disagree {
                at,
                kept: None,
                got: _,
            },
        ) => *at == number,
        _ => false,
    };
    drop(answer);
    is_past
}

fn by_log<L: Ledger>(alloc: Global, blank: Blank, told: &mut Vec<u8>) -> Made<bool>
    requires name { blank.name ≡ L.name }
    requires parts { blank.parts ≡ L.parts }
    requires one { blank.parts ≡ 1 }
{
    let bytes = ByteList::from_slice(alloc, b"ab")?;
    let given = ByteList::from_slice(alloc, b"ab")?;
    let (mut logged, mut sessions) = Logged::<L>::start(
        alloc,
        blank,
        ExporterKind::ByteArray,
        bytes,
        1,
    )?;
    let Some(mut session) = sessions.pop() else {
        return Ok(false);
    };
    note_and_show(alloc, &mut logged, &mut session)?;
    sessions.push(session)?;
    told.extend_from_slice(logged.state().bytes())?;
    Ok(is_past(logged.join(ExporterKind::ByteArray, given, sessions), 1))
}

fn by_log_of_brand(alloc: Global, told: &mut Vec<u8>) -> Made<bool> {
    by_log::<Brand>(alloc, Blank::new(1), told)
}

#[test]
fn what_no_call_gave_is_told(rt: HostRuntime) -> Result<(), Fail> {
    let mut told = Vec::new(rt.alloc());
    assert!(rt; by_log_of_brand(rt.alloc(), &mut told)?);
    assert_eq!(rt; told.as_slice(), b"abc".as_slice());
    Ok(())
}
