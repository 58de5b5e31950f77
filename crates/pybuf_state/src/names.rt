//! What the handles of a command name, asked one at a time.
ghost use Rattle.std.specs.Prelude.{◌≡◌, ℕ, Option, Some, true};
ghost use Rattle.std.specs.List.{list_all};
ghost use Rattle.std.specs.Option.{option_copied, ForSome};
ghost use Rattle.pybuf_command.specs.Handles.{handles_in_scalar, handles_in_slice, handles_in, handles_in_option};
ghost use Rattle.pybuf_command.specs.declared.loans.Loan.{Loan};
ghost use Rattle.pybuf_state.specs.Fits.{LoansFit, fits};
ghost use Rattle.pybuf_state.specs.Answers.{exporter_of};
ghost use Rattle.pybuf_state.specs.Loans.{given_loan, names_of, is_named, are_named, are_scalars_named, are_slices_named};
ghost use Rattle.pybuf_state.specs.Names as spec;

use crate::parts::Parts;
use pybuf_command::{Loan, LoanList, Subject};
use pybuf_value::{PySlice, Scalar, Snap, Value};

/// Something of another exporter: an exporter, a view or an iterator.
/// Example: `Other::Lies { lender, subject: Subject::Own }` stands for the exporter with the parts `lender`.
#[derive(Debug, Drop)]
pub enum Other<'a> {
    /// It is lent as it stood at one moment, as a copy.
    /// Example: a `Loan::Other(snap)` of a `LoanList` is asked for as `Other::Snap(&snap)`.
    Snap(&'a Snap),
    /// It is lent from where it lies, as a subject of an exporter with these parts.
    /// Example: a world lends `h0` to a command on `h1` so.
    Lies { lender: &'a Parts, subject: Subject },
}

/// What a handle names.
/// Example: `Meaning::Own(Subject::View(0))` stands for the first view of the exporter that the command works on.
#[derive(Debug, Drop)]
pub enum Meaning<'a> {
    /// The handle names the exporter that the command works on, or a view or an iterator of it.
    /// Example: in `extend h0 h0` the second `h0` means `Meaning::Own(Subject::Own)`.
    Own(Subject),
    /// The handle names another exporter, or a view or an iterator of one.
    /// Example: in `extend h0 h1`, where `h1` is another bytearray, `h1` means it.
    Other(Other<'a>),
    /// The handle names nothing, since it was never given.
    /// Example: in `extend h0 h9` in a world of two handles `h9` means it.
    Nothing,
}

/// What knows what handles name, such as a list of loans or a world. A clause sees what each handle is lent as.
/// Example: a function that takes an `N: Names` asks `names.meaning(7)` for what `h7` names.
pub trait Names {
    ghost named: { Self → ℕ → Option Loan };

    /// Whether each snap that is lent fits.
    ghost fit: { Self → Type 0 };

    /// What a handle names.
    /// Example: of an empty `LoanList` and any handle it is `Meaning::Nothing`.
    fn meaning(&self, handle: u64) -> Meaning<'_>
        ensures meant { spec.meant result ≡ named self.now handle }
        ensures sound { fit self.now → spec.IsSoundMeaning result };
}

/// What a loan means.
fn meaning_of(loan: Option<&Loan>) -> Meaning<'_>
    ensures meant { spec.meant result ≡ given_loan (option_copied loan.entry) }
    ensures sound { ForSome (option_copied loan.entry) (λ l. fits l ≡ true) → spec.IsSoundMeaning result }
{
    match loan {
        Some(Loan::Own) => Meaning::Own(Subject::Own),
        Some(Loan::View(view)) => Meaning::Own(Subject::View(*view)),
        Some(Loan::Iter(iterator)) => Meaning::Own(Subject::Iter(*iterator)),
        Some(Loan::Other(snap)) => Meaning::Other(Other::Snap(snap)),
        Some(Loan::Missing) => Meaning::Nothing,
        None => Meaning::Nothing,
    }
}

impl Names for LoanList {
    ghost named = { λ loans. names_of loans };

    ghost fit = { λ loans. LoansFit loans };

    #[tactic(auto, using(crate::proofs::Meanings::loan_fits))]
    fn meaning(&self, handle: u64) -> Meaning<'_> {
        meaning_of(self.loan(handle))
    }
}

/// Whether an exporter has such a subject.
fn is_there(parts: &Parts, subject: Subject) -> bool
    ensures { result ≡ is_named (exporter_of parts.now) (Some (spec.loan_of_own subject)) }
{
    match subject {
        Subject::Own => true,
        Subject::View(view) => view < parts.views.len(),
        Subject::Iter(iterator) => iterator < parts.iterators.len(),
    }
}

/// Whether something of another exporter is there.
fn is_lent(other: Other<'_>) -> bool
    ensures { (e : _) → result ≡ is_named e (spec.meant_other other.entry) }
{
    match other {
        Other::Snap(_) => true,
        Other::Lies { lender, subject } => match subject {
            Subject::Own => true,
            Subject::View(view) => view < lender.views.len(),
            Subject::Iter(iterator) => iterator < lender.iterators.len(),
        },
    }
}

/// Whether what a handle names is there.
fn is_known<N: Names>(parts: &Parts, names: &N, handle: u64) -> bool
    ensures { result ≡ is_named (exporter_of parts.now) (N.named names.now handle) }
{
    match names.meaning(handle) {
        Meaning::Own(subject) => is_there(parts, subject),
        Meaning::Other(other) => is_lent(other),
        Meaning::Nothing => false,
    }
}

/// Whether each of these handles names something that is there. Takes no memory.
/// Example: of no handles it is true.
pub fn are_known<N: Names>(parts: &Parts, names: &N, handles: &[u64]) -> bool
    ensures { result ≡ are_named (exporter_of parts.now) (N.named names.now) handles.now }
{
    handles.iter().all(|handle| is_known(parts, names, *handle))
}

/// The same of the handle that a part of a value is.
fn is_scalar_known<N: Names>(parts: &Parts, names: &N, scalar: &Scalar) -> bool
    ensures { result ≡ are_named (exporter_of parts.now) (N.named names.now) (handles_in_scalar scalar.now) }
{
    match scalar {
        Scalar::Handle(handle) => is_known(parts, names, *handle),
        _ => true,
    }
}

/// The same of the handles that the parts of a slice are.
#[tactic(auto, using(crate::proofs::Parted::slice_named))]
fn is_slice_known<N: Names>(parts: &Parts, names: &N, slice: &PySlice) -> bool
    ensures { result ≡ are_named (exporter_of parts.now) (N.named names.now) (handles_in_slice slice.now) }
{
    is_scalar_known(parts, names, &slice.start)
        && is_scalar_known(parts, names, &slice.stop)
        && is_scalar_known(parts, names, &slice.step)
}

/// The same of the handles that values without parts are.
fn are_scalars_known<N: Names>(parts: &Parts, names: &N, scalars: &[Scalar]) -> bool
    ensures { result ≡ are_scalars_named (exporter_of parts.now) (N.named names.now) scalars.now }
{
    scalars
        .iter()
        .all(|scalar| is_scalar_known(parts, names, scalar))
}

/// The same of the handles in slices.
fn are_slices_known<N: Names>(parts: &Parts, names: &N, slices: &[PySlice]) -> bool
    ensures { result ≡ are_slices_named (exporter_of parts.now) (N.named names.now) slices.now }
{
    slices
        .iter()
        .all(|slice| is_slice_known(parts, names, slice))
}

/// Whether each handle in a value names something that is there. No list of them is made.
/// Example: the value 5 has no handle, so it is true of it.
#[tactic(auto, using(crate::proofs::Parted::scalars_named, crate::proofs::Parted::slices_named))]
pub fn is_value_known<N: Names>(parts: &Parts, names: &N, value: &Value) -> bool
    ensures { result ≡ are_named (exporter_of parts.now) (N.named names.now) (handles_in value.now) }
{
    match value {
        Value::One(Scalar::Handle(handle)) => is_known(parts, names, *handle),
        Value::One(_) => true,
        Value::Slice(slice) => is_slice_known(parts, names, slice),
        Value::Tuple(scalars) => are_scalars_known(parts, names, scalars.as_slice()),
        Value::List(scalars) => are_scalars_known(parts, names, scalars.as_slice()),
        Value::Slices(slices) => are_slices_known(parts, names, slices.as_slice()),
    }
}

/// Whether each handle in a value names something that is there, or no value is given. No list of them is made.
/// Example: of None it is true.
pub fn is_option_known<N: Names>(parts: &Parts, names: &N, value: &Option<Value>) -> bool
    ensures { result ≡ are_named (exporter_of parts.now) (N.named names.now) (handles_in_option value.now) }
{
    match value {
        Some(value) => is_value_known(parts, names, value),
        None => true,
    }
}
