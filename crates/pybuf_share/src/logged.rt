//! What lies under the lock of a shared exporter: the exporter beside its history, and the book that counts the calls.
ghost use Rattle.std.specs.List.{All};
ghost use Rattle.pybuf_share.specs.Finishing.{parts_of, calls_of, AreAll, IsOwn};
ghost use Rattle.pybuf_share.specs.Sessions.{sessions_from};
ghost use Rattle.std.specs.Prelude.{◌≡◌, ◌⊎◌, Err, ◌+◌, ◌<◌, ◌≤◌, ◌^◌, [], ◌∷◌, ◌++◌, length, IfOk, IfErr, OnOk, OnErr};

use crate::checks::{check_sessions, order_fault};
use crate::entries::{Entry, EntryList, Receipt, SharedCommand};
use crate::joined::{FinishFault, Joined};
use crate::session::Session;
use pybuf_command::{ExporterKind, LocalCommand};
use pybuf_exporter::ExporterState;
use pybuf_value::{ByteList, Made, NoMemory, Twin, push_reserved};
use std::alloc::Global;
use std::marker::Model;
use std::sync::ledger::{Blank, Book, Ledger, Share};

/// An exporter with its history.
///
/// A clause sees its kind and its bytes at the beginning, and all entries since. The exporter is what one thread
/// gets by carrying out the commands of the entries in their order (`replay`), each entry holds the reply that the
/// exporter gives there (`IsLegal`), and the ledger has counted as many calls as there are entries.
/// Example: `Logged::start(alloc, blank, kind, bytes, 2)?` stands for an exporter with no entry, and two sessions.
#[derive(Drop)]
pub struct Logged<L: Ledger> {
    kind: ExporterKind,
    opening: ByteList,
    state: ExporterState,
    history: Vec<Entry>,
    calls: Book<L>,
    // A share of no part. The shares of all sessions are added to it at the end.
    none: Share<L>,
    alloc: Global,
}

impl<L: Ledger> Model for Logged<L> {
    ghost use Rattle.std.specs.Prelude.{◌≡◌};
    ghost use Rattle.pybuf_share.specs.History.{Log, IsKept};

    ghost Value = { Log };

    ghost view = { λ l. record { kind = l.kind; opening = l.opening; entries = l.history.items } };

    ghost invariant = { λ l. IsKept (record { kind = l.kind; opening = l.opening; entries = l.history.items }) l.state.exporter l.calls.total × (l.none.parts ≡ 0) };
}

/// A copy of a command, held twice.
fn held_twice(alloc: Global, command: &LocalCommand) -> Made<(SharedCommand, SharedCommand)>
    ensures { IfOk result (λ r. (r.0 ≡ command.now) × (r.1 ≡ command.now)) }
{
    let command = command.copy(alloc)?;
    let own = SharedCommand::new(alloc, command)?;
    let kept = own.copy(alloc)?;
    Ok((kept, own))
}

impl<L: Ledger> Logged<L> {
    ghost use Rattle.pybuf_state.specs.Fits.{LoansFit};
    ghost use Rattle.pybuf_share.specs.History.{state_of, IsLegalLog, noted, receipt_now};
    ghost use Rattle.pybuf_share.specs.Sessions.{received};
    ghost use Rattle.pybuf_share.specs.Finishing.{Agree, Refuses, IsJoined, ArePlain, AreTheirs};

    /// An exporter of a kind and of these bytes with no entry, and so many sessions, numbered from 0, each of which
    /// has one part of the ledger. The number of sessions is from 1 to 1,024.
    /// Example: with 2 sessions these have the numbers 0 and 1, and `entries()` is empty.
    pub fn start(
        alloc: Global,
        blank: Blank,
        kind: ExporterKind,
        bytes: ByteList,
        sessions: usize,
    ) -> Made<(Logged<L>, Vec<Session<L>>)>
        requires some { 0 < sessions }
        requires most { sessions ≤ 1024 }
        requires name { blank.name ≡ L.name }
        requires parts { blank.parts ≡ L.parts }
        requires each { blank.parts ≡ sessions }
        ensures log { IfOk result (λ r. r.0 ≡ record { kind = kind; opening = bytes; entries = [] }) }
        ensures sessions { IfOk result (λ r. r.1.items ≡ sessions_from 0 sessions) }
        ensures all { IfOk result (λ r. AreAll L.parts r.1.items) }
    {
        let opening = bytes.copy(alloc)?;
        let (calls, mut share) = blank.open::<L>();
        let none = share.empty();
        let made = sessions_by(alloc, share, sessions)?;
        let logged = Logged {
            kind,
            opening,
            state: ExporterState::new(alloc, kind, bytes),
            history: Vec::new(alloc),
            calls,
            none,
            alloc,
        };
        Ok((logged, made))
    }

    /// The kind that the exporter had at the beginning. Takes no memory.
    /// Example: after a start with `ExporterKind::ByteArray` it is `ExporterKind::ByteArray`.
    pub fn kind(&self) -> ExporterKind
        ensures { result ≡ self.now.kind }
    {
        self.kind
    }

    /// The bytes that the exporter had at the beginning, lent. Takes no memory.
    /// Example: after a start with `b"a"` and an `append 98` it is still `b"a"`.
    pub fn opening(&self) -> &[u8]
        ensures { result.now ≡ self.now.opening }
    {
        self.opening.as_slice()
    }

    /// All entries, in order, lent. They are a history that one thread could have made. Takes no memory.
    /// Example: after one call its length is 1.
    pub fn entries(&self) -> &[Entry]
        ensures value { result.now ≡ self.now.entries }
        ensures legal { IsLegalLog self.now }
    {
        self.history.as_slice()
    }

    /// The exporter as it is, lent. It is what one thread gets by carrying out the commands of the entries. Takes no
    /// memory.
    /// Example: after a start with `b"a"` and an `append 98` its `bytes()` is `b"ab"`.
    pub fn state(&self) -> &ExporterState
        ensures { result.now.exporter ≡ state_of self.now }
    {
        &self.state
    }

    /// Carries out a command of a session, and notes it. There is one more entry then, and one more call on the book
    /// and on the share. The receipt has the number that the entry has in the history. Where memory runs out, nothing
    /// is changed.
    /// Example: the first one of an exporter gives a receipt of number 0.
    pub fn note_step(
        &mut self,
        session: u64,
        share: &mut Share<L>,
        command: &LocalCommand,
    ) -> Made<Receipt>
        requires fit { LoansFit command.now.loans }
        requires part { 0 < share.old.parts }
        requires room { share.old.amount < 2 ^ 63 }
        ensures receipt { IfOk result (λ r. r ≡ receipt_now self.old session command.now) }
        ensures noted { OnOk result (self.new ≡ noted self.old session command.now) }
        ensures amount { OnOk result (share.new.amount ≡ share.old.amount + 1) }
        ensures parts { share.new.parts ≡ share.old.parts }
        ensures err { OnErr result (self.new ≡ self.old) }
        ensures err_amount { OnErr result (share.new.amount ≡ share.old.amount) }
    {
        match held_twice(self.alloc, command) {
            Ok((kept, own)) => self.note_kept(session, share, kept, own),
            Err(NoMemory) => Err(NoMemory),
        }
    }

    /// The same of a command that is held twice: for the history, and for the receipt.
    pub(crate) fn note_kept(
        &mut self,
        session: u64,
        share: &mut Share<L>,
        kept: SharedCommand,
        own: SharedCommand,
    ) -> Made<Receipt>
        requires fit { LoansFit own.loans }
        requires same { kept ≡ own }
        requires part { 0 < share.old.parts }
        ensures receipt { IfOk result (λ r. r ≡ receipt_now self.old session own) }
        ensures noted { OnOk result (self.new ≡ noted self.old session own) }
        ensures amount { OnOk result (share.new.amount ≡ share.old.amount + 1) }
        ensures parts { share.new.parts ≡ share.old.parts }
        ensures err { OnErr result (self.new ≡ self.old) }
        ensures err_amount { OnErr result (share.new.amount ≡ share.old.amount) }
    {
        self.history.reserve(1)?;
        let at = self.history.len() as u64;
        let (reply, copy) = self.state.step_copied(own.as_command())?;
        push_reserved(
            &mut self.history,
            Entry {
                session,
                command: kept,
                reply,
            },
        );
        self.calls.add(share, 1);
        Ok(Receipt {
            at,
            entry: Entry {
                session,
                command: own,
                reply: copy,
            },
        })
    }

    /// Carries out a command of a session and notes it, with the number and the share of the session, whose last
    /// receipt it becomes. Where memory runs out, nothing is changed.
    /// Example: after it `session.last()` is the reply to the command.
    pub fn note_call(&mut self, session: &mut Session<L>, command: LocalCommand) -> Made<()>
        requires { LoansFit command.loans }
        ensures noted { OnOk result (self.new ≡ noted self.old session.old.number command) }
        ensures received { OnOk result (session.new ≡ received session.old (receipt_now self.old session.old.number command)) }
        ensures err { OnErr result (self.new ≡ self.old) }
        ensures err_session { OnErr result (session.new ≡ session.old) }
    {
        match session.prepare(self.alloc, command) {
            Ok((kept, own)) => session.ask(self, kept, own),
            Err(NoMemory) => Err(NoMemory),
        }
    }

    /// The whole history, where all sessions agree with it. They agree if the kind and the bytes are those that it
    /// begins with, the receipt numbers of each session rise, and the entry of each receipt stands at its number.
    ///
    /// `Opening` is answered where the kind or the bytes are others. Else `Order` is answered where the receipt
    /// numbers of a session don't rise, and tells the first such session. Else `Disagree` is answered where the entry
    /// at the number of a receipt is another or none, and tells the first such receipt, session by session.
    /// Example: of a start with `b"a"` and no call it gives the opening `b"a"` and no entries.
    pub fn join(
        self,
        kind: ExporterKind,
        bytes: ByteList,
        sessions: Vec<Session<L>>,
    ) -> Result<Joined, FinishFault>
        requires all { AreAll L.parts sessions.items }
        ensures agree { OnOk result (Agree self kind bytes sessions.items) }
        ensures err { IfErr result (λ f. Refuses self kind bytes sessions.items f) }
        ensures joined { IfOk result (λ j. IsJoined kind bytes sessions.items j) }
        ensures entries { IfOk result (λ j. j.entries ≡ self.entries) }
        ensures theirs { ArePlain sessions.items → IfOk result (λ j. AreTheirs sessions.items j.entries) }
        ensures counted { length self.entries ≡ calls_of sessions.items }
    {
        let checked = self.check(kind, &bytes, sessions.as_slice());
        let Logged {
            kind: _,
            opening: _,
            state,
            history,
            calls,
            none,
            alloc: _,
        } = self;
        count_calls(calls, none, sessions);
        match checked {
            Ok(()) => Ok(Joined {
                opening: bytes,
                kind,
                entries: EntryList::from_vec(history),
                state,
            }),
            Err(fault) => Err(fault),
        }
    }

    /// Whether sessions agree with the history.
    fn check(
        &self,
        kind: ExporterKind,
        bytes: &ByteList,
        sessions: &[Session<L>],
    ) -> Result<(), FinishFault>
        ensures ok { OnOk result (Agree self.now kind bytes.now sessions.now) }
        ensures err { IfErr result (λ f. Refuses self.now kind bytes.now sessions.now f) }
    {
        if self.kind != kind {
            return self.other_opening(kind, bytes);
        }
        if self.opening.as_slice() != bytes.as_slice() {
            return self.other_opening(kind, bytes);
        }
        if let Some(fault) = order_fault(sessions) {
            return Err(fault);
        }
        // This is a match, since the proof of each clause belongs to an arm of its own.
        match check_sessions(self.alloc, self.history.as_slice(), sessions) {
            Ok(()) => Ok(()),
            Err(fault) => Err(fault),
        }
    }

    /// What it begins with, beside what was given.
    fn other_opening(&self, kind: ExporterKind, bytes: &ByteList) -> Result<(), FinishFault>
        ensures { result ≡ Err (FinishFault.Opening kind bytes.now self.now.kind self.now.opening) ⊎ (result ≡ Err FinishFault.NoMemory) }
    {
        let given = bytes.copy(self.alloc)?;
        let kept = self.opening.copy(self.alloc)?;
        Err(FinishFault::Opening {
            given_kind: kind,
            given,
            kept_kind: self.kind,
            kept,
        })
    }
}

/// So many new sessions, numbered from 0, each of which gets one part of the share.
pub(crate) fn sessions_by<L: Ledger>(
    alloc: Global,
    share: Share<L>,
    sessions: usize,
) -> Made<Vec<Session<L>>>
    requires most { sessions ≤ 1024 }
    requires each { share.parts ≡ sessions }
    requires nothing { share.amount ≡ 0 }
    ensures sessions { IfOk result (λ made. made.items ≡ sessions_from 0 sessions) }
    ensures all { IfOk result (λ made. AreAll share.parts made.items) }
{
    let mut share = share;
    let mut made = Vec::new(alloc);
    for number in 0..sessions {
        let part = share.split_off(1, 0);
        made.push(Session::new(alloc, number as u64, part))?;
    }
    Ok(made)
}

/// Adds the shares of all sessions together, by which the book has counted what they have.
pub(crate) fn count_calls<L: Ledger>(calls: Book<L>, none: Share<L>, sessions: Vec<Session<L>>)
    requires none { none.parts ≡ 0 }
    requires whole { parts_of sessions.items ≡ L.parts }
    ensures counted { calls.total ≡ calls_of sessions.items }
    ensures own { All IsOwn sessions.items }
{
    let mut calls = calls;
    let mut all = none;
    // a share of no part has no amount
    calls.audit(&mut all);
    let mut left = sessions;
    while let Some(session) = left.pop() {
        all.merge(session.into_share());
    }
    calls.audit(&mut all);
}
