//! Who asks commands of a shared exporter.
ghost use Rattle.std.specs.Prelude.{◌≡◌, ◌+◌, ◌<◌, ◌≤◌, ◌^◌, [], ◌∷◌, ◌++◌, length, true, false, Some, None, slice_get, IfOk, IfSome, IfNone, OnOk, OnErr, vec_len, vec_capacity};
ghost use Rattle.std.specs.List.{All};
ghost use Rattle.std.specs.Option.{option_copied};
ghost use Rattle.pybuf_share.specs.Finishing.{IsOwn};
ghost use Rattle.pybuf_share.specs.Sessions.{view_given, iterator_given};

use crate::begun::Begun;
use crate::entries::{Receipt, SharedCommand};
use crate::logged::Logged;
use crate::part_log::PartLog;
use pybuf_command::{LocalCommand, LocalReply};
use pybuf_value::{Made, NoMemory, Twin, push_reserved};
use std::alloc::Global;
use std::marker::Model;
use std::sync::ledger::{Ledger, Share};

/// A session is one who asks commands of a shared exporter. It has a number, and receipts of its calls. It belongs to
/// the exporter that its ledger names.
///
/// A clause sees its number, its receipts, its parts of the ledger and how many calls that has counted for it, and
/// whether each receipt came from a call.
/// Example: the first session of `SharedExporter::start` has the number 0 and no receipt.
#[derive(Drop)]
pub struct Session<L: Ledger> {
    number: u64,
    share: Share<L>,
    receipts: Vec<Receipt>,
    views: Vec<usize>,
    iterators: Vec<usize>,
    is_plain: bool,
}

impl<L: Ledger> Model for Session<L> {
    ghost use Rattle.std.specs.Prelude.{◌≡◌, ◌<◌, ◌≤◌, length, true};
    ghost use Rattle.pybuf_share.specs.Sessions.{Asker, IsAsked};

    ghost Value = { Asker };

    ghost view = { λ s. record { number = s.number; receipts = s.receipts.items; parts = s.share.parts; calls = s.share.amount; is_plain = s.is_plain } };

    ghost invariant = { λ s. IsAsked (record { number = s.number; receipts = s.receipts.items; parts = s.share.parts; calls = s.share.amount; is_plain = s.is_plain }) s.views.items s.iterators.items };
}

impl<L: Ledger> Session<L> {
    ghost use Rattle.pybuf_state.specs.Fits.{LoansFit};
    ghost use Rattle.pybuf_share.specs.History.{noted, receipt_now};
    ghost use Rattle.pybuf_share.specs.Sessions.{new_session, received, added, views_given, iterators_given, last_reply};

    /// A session of a number, with no receipt, and a part of the ledger. Takes no memory.
    pub(crate) fn new(alloc: Global, number: u64, share: Share<L>) -> Session<L>
        requires part { share.parts ≡ 1 }
        requires nothing { share.amount ≡ 0 }
        ensures { result ≡ new_session number }
    {
        Session {
            number,
            share,
            receipts: Vec::new(alloc),
            views: Vec::new(alloc),
            iterators: Vec::new(alloc),
            is_plain: true,
        }
    }

    /// The number of the session, counted from 0. Takes no memory.
    /// Example: of the first session it is 0.
    pub fn number(&self) -> u64
        ensures { result ≡ self.now.number }
    {
        self.number
    }

    /// What it has to show for its calls, in order, lent. Takes no memory.
    /// Example: after two calls its length is 2.
    pub fn receipts(&self) -> &[Receipt]
        ensures { result.now ≡ self.now.receipts }
    {
        self.receipts.as_slice()
    }

    /// The number of the view that it was given as its k-th, counted from 0. It is None exactly where the session was
    /// given fewer.
    /// Example: after one `view`, to which the exporter replied `View(4)`, `mine(0)` is `Some(4)`.
    pub fn mine(&self, k: usize) -> Option<usize>
        ensures { result ≡ slice_get (views_given self.now.receipts) k }
    {
        match self.views.get(k) {
            Some(view) => Some(*view),
            None => None,
        }
    }

    /// The number of the iterator that it was given as its k-th, counted from 0. It is None exactly where the session
    /// was given fewer.
    /// Example: after one `iter`, to which the exporter replied `Iter(2)`, `my_iter(0)` is `Some(2)`.
    pub fn my_iter(&self, k: usize) -> Option<usize>
        ensures { result ≡ slice_get (iterators_given self.now.receipts) k }
    {
        match self.iterators.get(k) {
            Some(iterator) => Some(*iterator),
            None => None,
        }
    }

    /// Whether each of its receipts came from a call. Then they are as many as the ledger has counted for the session,
    /// and each is of an entry of its own.
    /// Example: of a new session it is true, and after `add_receipt` false.
    pub fn is_plain(&self) -> bool
        ensures value { result ≡ self.now.is_plain }
        ensures counted { result ≡ true → self.now.calls ≡ length self.now.receipts }
        ensures own { result ≡ true → All (λ r. r.entry.session ≡ self.now.number) self.now.receipts }
    {
        self.is_plain
    }

    /// The reply of its last receipt. It is None exactly where the session has none. Takes no memory.
    /// Example: of a new session it is None.
    pub fn last(&self) -> Option<&LocalReply>
        ensures { option_copied result ≡ last_reply self.now.receipts }
    {
        match self.receipts.last() {
            Some(receipt) => Some(&receipt.entry.reply),
            None => None,
        }
    }

    /// Its part of the ledger. Takes no memory.
    pub(crate) fn into_share(self) -> Share<L>
        ensures parts { result.parts ≡ self.parts }
        ensures amount { result.amount ≡ self.calls }
        ensures own { IsOwn self }
    {
        let Session {
            number: _,
            share,
            receipts: _,
            views: _,
            iterators: _,
            is_plain: _,
        } = self;
        share
    }

    /// Adds a receipt that no call gave, by which the session is no longer plain. It makes no call, and leaves the
    /// ledger as it is. It is there so that a test can hand in a receipt that the history doesn't have. Where memory
    /// runs out, nothing is changed.
    /// Example: after it `is_plain()` is false.
    pub fn add_receipt(&mut self, receipt: Receipt) -> Made<()>
        ensures ok { OnOk result (self.new ≡ added self.old receipt) }
        ensures err { OnErr result (self.new ≡ self.old) }
    {
        self.receipts.reserve(1)?;
        self.views.reserve(1)?;
        self.iterators.reserve(1)?;
        self.is_plain = false;
        receive(
            &mut self.receipts,
            &mut self.views,
            &mut self.iterators,
            receipt,
        );
        Ok(())
    }

    /// Takes the memory for one more receipt, and for the command that the history and the receipt hold together, so
    /// that nobody waits for either while the lock is held. The session is as before in every case.
    pub(crate) fn prepare(
        &mut self,
        alloc: Global,
        command: LocalCommand,
    ) -> Made<(SharedCommand, SharedCommand)>
        ensures kept { IfOk result (λ r. r.0 ≡ command) }
        ensures own { IfOk result (λ r. r.1 ≡ command) }
        ensures same { self.new ≡ self.old }
    {
        match SharedCommand::new(alloc, command) {
            Ok(own) => {
                self.receipts.reserve(1)?;
                self.views.reserve(1)?;
                self.iterators.reserve(1)?;
                let kept = own.copy(alloc)?;
                Ok((kept, own))
            }
            Err(NoMemory) => Err(NoMemory),
        }
    }

    /// Asks a command of the exporter, with the number and the share of the session; the receipt becomes its last.
    /// Where memory runs out, nothing is changed.
    pub(crate) fn ask(
        &mut self,
        logged: &mut Logged<L>,
        kept: SharedCommand,
        own: SharedCommand,
    ) -> Made<()>
        requires fit { LoansFit own.loans }
        requires same { kept ≡ own }
        ensures noted { OnOk result (logged.new ≡ noted logged.old self.old.number own) }
        ensures received { OnOk result (self.new ≡ received self.old (receipt_now logged.old self.old.number own)) }
        ensures err { OnErr result (logged.new ≡ logged.old) }
        ensures err_session { OnErr result (self.new ≡ self.old) }
        ensures number { self.new.number ≡ self.old.number }
        ensures parts { self.new.parts ≡ self.old.parts }
    {
        // if the session was prepared, there is room already
        self.receipts.reserve(1)?;
        self.views.reserve(1)?;
        self.iterators.reserve(1)?;
        let receipt = logged.note_kept(self.number, &mut self.share, kept, own)?;
        receive(
            &mut self.receipts,
            &mut self.views,
            &mut self.iterators,
            receipt,
        );
        Ok(())
    }
}

impl<L: Ledger + Begun> Session<L> {
    ghost use Rattle.pybuf_state.specs.Fits.{LoansFit};
    ghost use Rattle.pybuf_share.specs.Parts.{entry_from, receipt_from};
    ghost use Rattle.pybuf_share.specs.Sessions.{received};

    /// Asks a command of an exporter whose history is handed over in parts, as `ask` does.
    pub(crate) fn ask_part(
        &mut self,
        log: &mut PartLog<L>,
        kept: SharedCommand,
        own: SharedCommand,
    ) -> Made<()>
        requires fit { LoansFit own.loans }
        requires same { kept ≡ own }
        ensures noted { OnOk result (log.new ≡ log.old ++ entry_from L.opening log.old self.old.number own ∷ []) }
        ensures received { OnOk result (self.new ≡ received self.old (receipt_from L.opening log.old self.old.number own)) }
        ensures err { OnErr result (log.new ≡ log.old) }
        ensures err_session { OnErr result (self.new ≡ self.old) }
        ensures number { self.new.number ≡ self.old.number }
        ensures parts { self.new.parts ≡ self.old.parts }
    {
        // if the session was prepared, there is room already
        self.receipts.reserve(1)?;
        self.views.reserve(1)?;
        self.iterators.reserve(1)?;
        let receipt = log.note_kept(self.number, &mut self.share, kept, own)?;
        receive(
            &mut self.receipts,
            &mut self.views,
            &mut self.iterators,
            receipt,
        );
        Ok(())
    }
}

/// Adds a receipt, and the view or the iterator that it gives, where room was reserved for all.
fn receive(
    receipts: &mut Vec<Receipt>,
    views: &mut Vec<usize>,
    iterators: &mut Vec<usize>,
    receipt: Receipt,
)
    requires receipts { vec_len receipts.old < vec_capacity receipts.old }
    requires views { vec_len views.old < vec_capacity views.old }
    requires iterators { vec_len iterators.old < vec_capacity iterators.old }
    ensures receipts { receipts.new.items ≡ receipts.old.items ++ receipt ∷ [] }
    ensures views { views.new.items ≡ views.old.items ++ view_given receipt.entry.reply }
    ensures iterators { iterators.new.items ≡ iterators.old.items ++ iterator_given receipt.entry.reply }
{
    match &receipt.entry.reply {
        LocalReply::View(view) => push_reserved(views, *view),
        LocalReply::Iter(iterator) => push_reserved(iterators, *iterator),
        _ => {}
    }
    push_reserved(receipts, receipt);
}
