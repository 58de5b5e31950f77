//! Bytes that a session carries from one shared exporter to another.
ghost use Rattle.std.specs.Prelude.{◌≡◌, ◌⊎◌, ◌++◌, [], ◌∷◌, None, is_some, IfOk, OnOk, OnErr};
ghost use Rattle.std.specs.Option.{option_copied};
ghost use Rattle.pybuf_command.specs.Loans.{loan_of};
ghost use Rattle.pybuf_command.specs.declared.loans.Loan.TheVariants as loan;
ghost use Rattle.pybuf_state.specs.Fits.{LoansFit};
ghost use Rattle.pybuf_share.specs.Carrying as spec;
ghost use Rattle.pybuf_share.specs.Sessions.{IsAnswered};

use crate::session::Session;
use crate::shared::SharedExporter;
use pybuf_command::{Loan, LoanList, LocalCommand, LocalReply, Subject, Verb};
use pybuf_value::{ByteList, CountList, Made, NoMemory, Snap, SnapKind, Text};
use std::alloc::Global;
use std::sync::Wait;
use std::sync::ledger::Ledger;

/// The command that asks for the bytes of a subject.
fn bytes_asked(alloc: Global, subject: Subject) -> LocalCommand
    ensures { result ≡ spec.bytes_asked subject }
{
    LocalCommand {
        subject,
        verb: Verb::ToBytes { order: None },
        loans: LoanList::new(alloc),
    }
}

/// The bytes that a session was replied last. None exactly where it wasn't replied bytes.
fn bytes_given<L: Ledger>(session: &Session<L>) -> Option<&[u8]>
    ensures { option_copied result ≡ spec.bytes_given session.now }
{
    match session.last() {
        Some(LocalReply::Bytes(bytes)) => Some(bytes.as_slice()),
        _ => None,
    }
}

/// Bytes, lent as they stand. They are copied once.
fn snap_of_bytes(alloc: Global, bytes: &[u8]) -> Made<Snap>
    ensures { IfOk result (λ snap. snap ≡ spec.snap_of_bytes bytes.now) }
{
    let mut format = Text::new(alloc);
    format.push('B')?;
    let mut shape = CountList::new(alloc);
    shape.push(bytes.len())?;
    let content = ByteList::from_slice(alloc, bytes)?;
    Ok(Snap {
        kind: SnapKind::Bytes,
        format,
        itemsize: 1,
        shape,
        content,
        contiguous: true,
        released: false,
    })
}

/// Lends bytes for one more handle. Where memory runs out, nothing is lent.
fn lend(alloc: Global, loans: &mut LoanList, handle: u64, bytes: &[u8]) -> Made<()>
    ensures { OnOk result (loans.new ≡ loans.old ++ (handle, loan.Other (spec.snap_of_bytes bytes.now)) ∷ []) }
{
    let snap = snap_of_bytes(alloc, bytes)?;
    loans.push((handle, Loan::Other(snap)))
}

impl<L: Ledger> SharedExporter<L> {
    /// Asks for the bytes of a subject of another exporter, by a session of that one (`giver`), and where bytes are
    /// replied, carries out a command of a session of this one, to which they are lent for a handle, as an exporter
    /// of kind bytes lends itself. The answer is whether bytes were replied. Where they weren't, as of a view that
    /// was released, the command isn't carried out, and `session` is as before.
    ///
    /// These are two calls, one after the other. Each waits for its exporter's lock, and neither lock is held while
    /// the other is asked for. Nothing is said of what others do between the two.
    ///
    /// Where memory runs out, `session` is as before, and `giver` too, or it has the receipt of the first call.
    /// Example: with `extend h7`, the handle 7 and `Subject::Own` of `from` it adds all bytes of `from` at the end.
    pub fn carry<M: Ledger, R: Wait>(
        &self,
        rt: &R,
        alloc: Global,
        session: &mut Session<L>,
        command: LocalCommand,
        handle: u64,
        from: &SharedExporter<M>,
        giver: &mut Session<M>,
        subject: Subject,
    ) -> Made<bool>
        requires fit { LoansFit command.loans }
        requires free { loan_of command.loans handle ≡ None }
        ensures asked { OnOk result (IsAnswered giver.old (spec.bytes_asked subject) giver.new) }
        ensures value { IfOk result (λ carried. carried ≡ is_some (spec.bytes_given giver.new)) }
        ensures taken { OnOk result (spec.Takes session.old command handle (spec.bytes_given giver.new) session.new) }
        ensures err { OnErr result (session.new ≡ session.old) }
        ensures err_giver { OnErr result ((giver.new ≡ giver.old) ⊎ IsAnswered giver.old (spec.bytes_asked subject) giver.new) }
        ensures number { session.new.number ≡ session.old.number }
        ensures parts { session.new.parts ≡ session.old.parts }
        ensures giver_number { giver.new.number ≡ giver.old.number }
        ensures giver_parts { giver.new.parts ≡ giver.old.parts }
    {
        match from.call(rt, giver, bytes_asked(alloc, subject)) {
            Ok(()) => self.take_given(rt, alloc, session, command, handle, bytes_given(giver)),
            Err(NoMemory) => {
                // The command is dropped by a call. If it ended with its scope, the drop would spell out all its
                // variants.
                drop(command);
                Err(NoMemory)
            }
        }
    }

    /// Carries out a command to which what was replied is lent, if that is bytes.
    fn take_given<R: Wait>(
        &self,
        rt: &R,
        alloc: Global,
        session: &mut Session<L>,
        command: LocalCommand,
        handle: u64,
        given: Option<&[u8]>,
    ) -> Made<bool>
        requires fit { LoansFit command.loans }
        requires free { loan_of command.loans handle ≡ None }
        ensures value { IfOk result (λ carried. carried ≡ is_some (option_copied given.entry)) }
        ensures taken { OnOk result (spec.Takes session.old command handle (option_copied given.entry) session.new) }
        ensures err { OnErr result (session.new ≡ session.old) }
        ensures number { session.new.number ≡ session.old.number }
        ensures parts { session.new.parts ≡ session.old.parts }
    {
        match given {
            Some(bytes) => match self.take_bytes(rt, alloc, session, command, handle, bytes) {
                Ok(()) => Ok(true),
                Err(NoMemory) => Err(NoMemory),
            },
            None => {
                drop(command);
                Ok(false)
            }
        }
    }

    /// Carries out a command to which bytes are lent.
    fn take_bytes<R: Wait>(
        &self,
        rt: &R,
        alloc: Global,
        session: &mut Session<L>,
        command: LocalCommand,
        handle: u64,
        bytes: &[u8],
    ) -> Made<()>
        requires fit { LoansFit command.loans }
        requires free { loan_of command.loans handle ≡ None }
        ensures ok { OnOk result (spec.HasTaken session.old command handle bytes.now session.new) }
        ensures err { OnErr result (session.new ≡ session.old) }
        ensures number { session.new.number ≡ session.old.number }
        ensures parts { session.new.parts ≡ session.old.parts }
    {
        pybuf_state::subjects_fit();
        let mut command = command;
        match lend(alloc, &mut command.loans, handle, bytes) {
            Ok(()) => self.call(rt, session, command),
            Err(NoMemory) => {
                drop(command);
                Err(NoMemory)
            }
        }
    }
}
