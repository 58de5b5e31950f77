//! Commands of a script, with their views and iterators named by what a session was given.
ghost use Rattle.std.specs.Prelude.{◌≡◌, IfOk};
ghost use Rattle.pybuf_share.specs.Joining as spec;
ghost use Rattle.pybuf_share.specs.Sessions.{replies_given};

use crate::session::Session;
use pybuf_command::{Loan, LoanList, LocalCommand, Subject};
use pybuf_value::{Made, NoMemory, Twin};
use std::alloc::Global;
use std::sync::ledger::Ledger;

/// What a session's own count names as a subject: where it wasn't given so many, what no exporter has.
fn resolved_subject<L: Ledger>(subject: Subject, session: &Session<L>) -> Subject
    ensures { result ≡ spec.resolved_subject (replies_given session.now.receipts) subject }
{
    match subject {
        Subject::Own => Subject::Own,
        Subject::View(k) => match session.mine(k) {
            Some(view) => Subject::View(view),
            None => Subject::View(usize::MAX),
        },
        Subject::Iter(k) => match session.my_iter(k) {
            Some(iterator) => Subject::Iter(iterator),
            None => Subject::Iter(usize::MAX),
        },
    }
}

/// What a session's own count names as a loan: where it wasn't given so many, nothing.
fn resolved_loan<L: Ledger>(alloc: Global, loan: &Loan, session: &Session<L>) -> Made<Loan>
    ensures { IfOk result (λ l. l ≡ spec.resolved_loan (replies_given session.now.receipts) loan.now) }
{
    match loan {
        Loan::Own => Ok(Loan::Own),
        Loan::View(k) => match session.mine(*k) {
            Some(view) => Ok(Loan::View(view)),
            None => Ok(Loan::Missing),
        },
        Loan::Iter(k) => match session.my_iter(*k) {
            Some(iterator) => Ok(Loan::Iter(iterator)),
            None => Ok(Loan::Missing),
        },
        Loan::Other(snap) => {
            let snap = snap.copy(alloc)?;
            Ok(Loan::Other(snap))
        }
        Loan::Missing => Ok(Loan::Missing),
    }
}

fn resolved_loans<L: Ledger>(
    alloc: Global,
    loans: &LoanList,
    session: &Session<L>,
) -> Made<LoanList>
    ensures { IfOk result (λ l. l ≡ spec.resolved_loans (replies_given session.now.receipts) loans.now) }
{
    let mut resolved = Vec::with_capacity(alloc, loans.len())?;
    for pair in loans.as_slice() {
        let loan = resolved_loan(alloc, &pair.1, session)?;
        resolved.push((pair.0, loan))?;
    }
    Ok(LoanList::from_vec(resolved))
}

/// A command of a script as its session asks it: with its views and iterators named by the replies that the session had
/// so far.
pub(crate) fn resolved<L: Ledger>(
    alloc: Global,
    command: &LocalCommand,
    session: &Session<L>,
) -> Made<LocalCommand>
    ensures { IfOk result (λ c. c ≡ spec.resolve command.now (replies_given session.now.receipts)) }
{
    let subject = resolved_subject(command.subject, session);
    let loans = resolved_loans(alloc, &command.loans, session)?;
    // The verb is copied last, so that no arm drops one. Such a drop would spell out all its variants.
    let verb = command.verb.copy(alloc)?;
    Ok(LocalCommand {
        subject,
        verb,
        loans,
    })
}
