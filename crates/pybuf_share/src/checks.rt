//! What sessions show, compared with a history: looks at each entry and at each receipt a constant number of times.
ghost use Rattle.std.specs.Prelude.{◌≡◌, ◌↔◌, true, OnOk, IfOk, IfErr, slice_get};
ghost use Rattle.std.specs.List.{All};
ghost use Rattle.std.specs.Option.{option_copied};
ghost use Rattle.pybuf_share.specs.Finishing as spec;

use crate::entries::{Entry, Receipt};
use crate::joined::FinishFault;
use crate::session::Session;
use pybuf_command::{equal_commands_are_the_same, equal_replies_are_the_same};
use pybuf_value::{Made, NoMemory, Twin};
use std::alloc::Global;
use std::sync::ledger::Ledger;

/// The numbers of the first two neighbours that don't rise.
fn first_fall(receipts: &[Receipt]) -> Option<(u64, u64)>
    ensures { result ≡ spec.first_fall receipts.now }
{
    for place in 1..receipts.len() {
        let before = receipts[place - 1].at;
        let after = receipts[place].at;
        if before >= after {
            return Some((before, after));
        }
    }
    None
}

/// The fault of the first session whose receipt numbers don't rise.
pub(crate) fn order_fault<L: Ledger>(sessions: &[Session<L>]) -> Option<FinishFault>
    ensures { result ≡ spec.order_fault sessions.now }
{
    for session in sessions {
        if let Some((before, after)) = first_fall(session.receipts()) {
            return Some(FinishFault::Order {
                session: session.number(),
                before,
                after,
            });
        }
    }
    None
}

/// Whether two entries are the same.
fn same_entry(kept: &Entry, shown: &Entry) -> bool
    ensures { (result ≡ true) ↔ (kept.now ≡ shown.now) }
{
    equal_commands_are_the_same();
    equal_replies_are_the_same();
    if kept.session != shown.session {
        return false;
    }
    if kept.command.as_command() != shown.command.as_command() {
        return false;
    }
    kept.reply == shown.reply
}

/// What is kept at the number of a receipt, beside its entry.
fn disagreement(alloc: Global, kept: Option<&Entry>, receipt: &Receipt) -> Made<FinishFault>
    ensures { IfOk result (λ f. f ≡ FinishFault.Disagree receipt.now.at (option_copied kept.entry) receipt.now.entry) }
{
    let at = receipt.at;
    let kept = match kept {
        Some(entry) => Some(entry.copy(alloc)?),
        None => None,
    };
    match receipt.entry.copy(alloc) {
        Ok(got) => Ok(FinishFault::Disagree { at, kept, got }),
        Err(NoMemory) => {
            // The entry is dropped by a call. If it ended with its scope, the drop would spell out all variants of its
            // command.
            drop(kept);
            Err(NoMemory)
        }
    }
}

/// Whether the entry of a receipt stands in the history at its number.
fn check_receipt(alloc: Global, entries: &[Entry], receipt: &Receipt) -> Result<(), FinishFault>
    ensures ok { OnOk result (spec.Stands entries.now receipt.now) }
    ensures err { IfErr result (λ f. spec.IsRefused entries.now receipt.now f) }
{
    let kept = entries.get(receipt.at as usize);
    let stands = match kept {
        Some(entry) => same_entry(entry, &receipt.entry),
        None => false,
    };
    if stands {
        return Ok(());
    }
    match disagreement(alloc, kept, receipt) {
        Ok(fault) => Err(fault),
        Err(NoMemory) => Err(FinishFault::NoMemory),
    }
}

/// Whether the entry of each receipt stands in the history at its number.
fn check_receipts(alloc: Global, entries: &[Entry], receipts: &[Receipt]) -> Result<(), FinishFault>
    ensures ok { OnOk result (All (spec.Stands entries.now) receipts.now) }
    ensures err { IfErr result (λ f. spec.Disagrees entries.now receipts.now f) }
{
    for receipt in receipts {
        // This is an `if let` and not a `?`, since the proof about the fault belongs to this arm.
        if let Err(fault) = check_receipt(alloc, entries, receipt) {
            return Err(fault);
        }
    }
    Ok(())
}

/// The same of all receipts of sessions.
pub(crate) fn check_sessions<L: Ledger>(
    alloc: Global,
    entries: &[Entry],
    sessions: &[Session<L>],
) -> Result<(), FinishFault>
    ensures ok { OnOk result (All (spec.Stands entries.now) (spec.receipts_of sessions.now)) }
    ensures err { IfErr result (λ f. spec.Disagrees entries.now (spec.receipts_of sessions.now) f) }
{
    for session in sessions {
        // This is an `if let` and not a `?`, since the proof about the fault belongs to this arm.
        if let Err(fault) = check_receipts(alloc, entries, session.receipts()) {
            return Err(fault);
        }
    }
    Ok(())
}
