//! What the handles of a command name, lent to one exporter.
ghost use Rattle.std.specs.Prelude.{◌≡◌, ◌==◌, ◌&&◌, ◌<◌, ◌^◌, true, List, [], ◌∷◌, ◌++◌, ℕ, length, OnOk, OnErr};
ghost use Rattle.std.specs.Option.{option_copied};
ghost use Rattle.pybuf_command.specs.declared.loans.Loan.{Loan};
ghost use Rattle.pybuf_command.specs.Loans.{loan_of, are_placed_from};

use crate::handles::loan_of;
use pybuf_value::{Made, Snap, Twin};
use std::alloc::Global;
use std::marker::Model;

/// What a handle of a command names.
///
/// Example: `Loan::Own` says that a handle names the exporter that the command works on.
#[derive(Debug, Drop, PartialEq)]
pub enum Loan {
    /// The exporter that the command works on.
    /// Example: a bytearray `h0` that is extended by `h0` is lent the pair of 0 and `Own`.
    Own,
    /// The view of this number of that exporter.
    /// Example: where `h1` names the first view of the exporter, the pair is 1 and `View(0)`.
    View(usize),
    /// The iterator of this number of that exporter.
    /// Example: where `h2` names the first iterator of the exporter, the pair is 2 and `Iter(0)`.
    Iter(usize),
    /// Another exporter, or a view or an iterator of one, as it stands.
    /// Example: where `h3` names another bytearray of `b"ab"`, the pair is 3 and `Other` of a snap of `b"ab"`.
    Other(Snap),
    /// Nothing: the handle was never given.
    /// Example: a value `h9` of a world that has given no `h9` is lent as `Missing`.
    Missing,
}

impl Twin for Loan {
    fn copy(&self, alloc: Global) -> Made<Loan> {
        match self {
            Loan::Own => Ok(Loan::Own),
            Loan::View(view) => Ok(Loan::View(*view)),
            Loan::Iter(iterator) => Ok(Loan::Iter(*iterator)),
            Loan::Other(snap) => {
                let snap = snap.copy(alloc)?;
                Ok(Loan::Other(snap))
            }
            Loan::Missing => Ok(Loan::Missing),
        }
    }
}

/// Whether each handle is its pair's place in the list.
fn are_placed(loans: &[(u64, Loan)]) -> bool
    ensures { result ≡ are_placed_from 0 loans.now }
{
    for at in 0..loans.len() {
        if loans[at].0 != at as u64 {
            return false;
        }
    }
    true
}

/// Whether that stays so with a pair of a handle more.
fn stays_placed(placed: bool, loans: &[(u64, Loan)], handle: u64) -> bool
    ensures { result ≡ (placed && handle == length loans.now) }
{
    placed && handle == loans.len() as u64
}

/// The loan of a handle in a list whose handles are the places of their pairs.
fn loan_in_place(loans: &[(u64, Loan)], handle: u64) -> Option<&Loan>
    requires { are_placed_from 0 loans.now ≡ true }
    ensures { option_copied result ≡ loan_of loans.now handle }
{
    match loans.get(handle as usize) {
        Some(pair) => Some(&pair.1),
        None => None,
    }
}

/// Pairs of a handle and what it names, of which the first pair of a handle counts. A clause sees
/// the list of pairs.
///
/// Where each handle is its pair's place, as in the lines of sessions, a loan is found without a search.
///
/// Example: the list of the pair of 0 and `Loan::Own` says that the handle 0 names the exporter itself.
#[derive(Debug, Drop)]
pub struct LoanList {
    loans: Vec<(u64, Loan)>,
    placed: bool,
    ghost known: { placed ≡ are_placed_from 0 loans.items },
}

impl Model for LoanList {
    ghost Value = { List (ℕ × Loan) };

    ghost view = { λ list. list.loans.items };
}

impl LoanList {
    /// A list without loans. Takes no memory.
    ///
    /// Example: `LoanList::new(alloc).len()` is 0.
    pub fn new(alloc: Global) -> LoanList
        ensures { result ≡ [] }
    {
        LoanList {
            loans: Vec::new(alloc),
            placed: true,
        }
    }

    /// The number of loans, at most `isize::MAX`.
    ///
    /// Example: of the list of one pair it is 1.
    pub fn len(&self) -> usize
        ensures value { result ≡ length self.now }
        ensures small { result < 2 ^ 63 }
    {
        self.loans.len()
    }

    /// Whether there are no loans.
    ///
    /// Example: `LoanList::new(alloc).is_empty()` is `true`.
    pub fn is_empty(&self) -> bool
        ensures { result ≡ (length self.now == 0) }
    {
        self.loans.is_empty()
    }

    /// The loans, lent.
    ///
    /// Example: of the list of the pair of 0 and `Loan::Own` it is `&[(0, Loan::Own)]`.
    pub fn as_slice(&self) -> &[(u64, Loan)]
        ensures { result.now ≡ self.now }
    {
        self.loans.as_slice()
    }

    /// Adds a handle with what it names at the end. Where memory runs out, the list is as before.
    ///
    /// Example: with the pair of 0 and `Loan::Own` the empty list becomes the list of that pair.
    #[tactic(auto, using(crate::proofs::Places::placed_and_one))]
    pub fn push(&mut self, pair: (u64, Loan)) -> Made<()>
        ensures ok { OnOk result (self.new ≡ self.old ++ pair ∷ []) }
        ensures err { OnErr result (self.new ≡ self.old) }
    {
        let placed = stays_placed(self.placed, self.loans.as_slice(), pair.0);
        self.loans.push(pair)?;
        self.placed = placed;
        Ok(())
    }

    /// The loan of the first pair of a handle, None exactly where there is no such pair.
    ///
    /// Example: of the list of the pair of 0 and `Loan::Own` it is `Some(&Loan::Own)` for 0, and `None` for 1.
    pub fn loan(&self, handle: u64) -> Option<&Loan>
        ensures { option_copied result ≡ loan_of self.now handle }
    {
        if self.placed {
            loan_in_place(self.loans.as_slice(), handle)
        } else {
            loan_of(self.loans.as_slice(), handle)
        }
    }

    /// The list of the loans of a vector, in order. Takes no memory.
    ///
    /// Example: of the vector of the pair of 0 and `Loan::Own` it is the list of that pair.
    pub fn from_vec(loans: Vec<(u64, Loan)>) -> LoanList
        ensures { result ≡ loans.items }
    {
        let placed = are_placed(loans.as_slice());
        LoanList { loans, placed }
    }

    /// The vector of the loans, in order. Takes no memory.
    ///
    /// Example: of the list of the pair of 0 and `Loan::Own` it is the vector of that pair.
    pub fn into_vec(self) -> Vec<(u64, Loan)>
        ensures { result.items ≡ self }
    {
        let LoanList { loans, placed: _ } = self;
        loans
    }
}

impl PartialEq for LoanList {
    ghost use Rattle.std.specs.Cmp.Lexicographic.{pointwise, lists_per};
    ghost use Rattle.std.specs.Cmp.{partial_equiv_from_equiv, on_per, and_per, nat_eq_equiv};
    ghost use Rattle.pybuf_command.specs.Loans.{equal_pairs};
    ghost use Rattle.pybuf_command.specs.contracts.loans.LoanPartialEq.TheImpl.Laws as loan_laws;

    ghost eq = { pointwise equal_pairs };

    ghost laws = { lists_per (and_per (on_per (λ p. p.0) (partial_equiv_from_equiv nat_eq_equiv)) (on_per (λ p. p.1) loan_laws.laws-law)) };

    fn eq(&self, other: &LoanList) -> bool {
        self.loans.as_slice() == other.loans.as_slice()
    }
}

impl Twin for LoanList {
    fn copy(&self, alloc: Global) -> Made<LoanList> {
        let mut loans = Vec::with_capacity(alloc, self.loans.len())?;
        for pair in self.loans.as_slice() {
            let loan = pair.1.copy(alloc)?;
            loans.push((pair.0, loan))?;
        }
        Ok(LoanList::from_vec(loans))
    }
}
