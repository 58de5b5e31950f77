//! `compare`: bytes and bytearrays by their bytes, a view by its items. Nothing is copied for it.
ghost use Rattle.std.specs.Prelude.{◌≡◌, ℕ, length, Some, Ok, Err, true, false, IfOk, MatchResult};
ghost use Rattle.pybuf_value.specs.declared.faults.Fault.TheVariants as faults;
ghost use Rattle.pybuf_value.specs.declared.values.Scalar.TheVariants as scalars;
ghost use Rattle.pybuf_value.specs.declared.values.Value.TheVariants as values;
ghost use Rattle.pybuf_value.specs.Order as order;
ghost use Rattle.pybuf_value.specs.Refusing.{unless};
ghost use Rattle.pybuf_desc.specs.Layouts.{LiesInside};
ghost use Rattle.pybuf_command.specs.declared.kinds.ExporterKind.{ExporterKind};
ghost use Rattle.pybuf_command.specs.declared.kinds.ExporterKind.TheVariants as kinds;
ghost use Rattle.pybuf_memoryview.specs.Fits.{fits_snap};
ghost use Rattle.pybuf_state.specs.Exporter.{new_exporter, view_at};
ghost use Rattle.pybuf_state.specs.Loans.{lent_as, snap_in, subject_in, lents_of_value};
ghost use Rattle.pybuf_state.specs.Names as names_spec;
ghost use Rattle.pybuf_state.specs.Snaps.{snap_of_exporter, snap_of_subject, snap_of_view};
ghost use Rattle.pybuf_state.specs.Answers.{exporter_of, IsWhole, ReadsIn, ChangesTo};
ghost use Rattle.pybuf_verbs_compare.specs.Compare as spec;

use pybuf_command::{ExporterKind, LocalReply, Subject};
use pybuf_equality::{equal_to_bytes, equal_to_content, equal_views};
use pybuf_state::{
    Meaning, Names, Other, Parts, StoredView, given, kind_of_meaning, run_of_meaning,
};
use pybuf_value::{
    CompareOp, Fault, Halt, Made, Scalar, Snap, SnapKind, Value, compare_bytes, is_order,
};
use std::alloc::Global;

// ---- bytes and bytearrays

/// Whether an operator asks for an order that Python's `bytes` hasn't: that with a view.
fn has_no_order(kind: ExporterKind, op: CompareOp, other: SnapKind) -> bool
    ensures { result ≡ spec.has_no_order kind op other }
{
    match (kind, other) {
        (ExporterKind::Bytes, SnapKind::View) => is_order(op),
        _ => false,
    }
}

/// The same with what a handle names.
#[tactic(auto, using(crate::proofs::Comparing::no_order_by_kind))]
fn has_no_order_with(parts: &Parts, op: CompareOp, other: Meaning<'_>) -> bool
    ensures { result ≡ spec.has_no_order_with parts.now.kind op (snap_in (exporter_of parts.now) (names_spec.meant other.entry)) }
{
    match kind_of_meaning(parts, other) {
        Some(kind) => has_no_order(parts.kind, op, kind),
        None => false,
    }
}

/// A string of bytes beside bytes, or beside something that has none in a row.
fn bytes_compared(bytes: &[u8], op: CompareOp, other: Result<&[u8], Fault>) -> LocalReply
    ensures { MatchResult other.entry (λ row. result ≡ spec.bytes_compared bytes.now op (Ok row.now)) (λ fault. result ≡ spec.bytes_compared bytes.now op (Err fault)) }
{
    match other {
        Ok(other) => LocalReply::Truth(compare_bytes(bytes, other, op)),
        Err(_) => LocalReply::NotImplementedReply,
    }
}

/// A string of bytes beside bytes.
fn string_and_bytes(parts: &Parts, op: CompareOp, bytes: &[u8]) -> Result<LocalReply, Halt>
    ensures { ReadsIn parts.now (λ e. spec.compare_string e op (Some (snap_of_exporter (new_exporter kinds.Bytes bytes.now)))) result }
{
    Ok(bytes_compared(parts.bytes.as_slice(), op, Ok(bytes)))
}

/// A string of bytes beside what a handle names, from where its bytes lie.
fn string_and_named<N: Names>(
    parts: &Parts,
    op: CompareOp,
    handle: u64,
    names: &N,
) -> Result<LocalReply, Halt>
    requires whole { IsWhole parts.now }
    requires fit { N.fit names.now }
    ensures { ReadsIn parts.now (λ e. spec.compare_string e op (snap_in e (N.named names.now handle))) result }
{
    if has_no_order_with(parts, op, names.meaning(handle)) {
        return Err(Halt::Refused(Fault::Kind));
    }
    let run = run_of_meaning(parts, names.meaning(handle));
    Ok(bytes_compared(parts.bytes.as_slice(), op, run))
}

/// A string of bytes beside a value.
fn string_and_value<N: Names>(
    parts: &Parts,
    op: CompareOp,
    other: &Value,
    names: &N,
) -> Result<LocalReply, Halt>
    requires whole { IsWhole parts.now }
    requires fit { N.fit names.now }
    ensures { ReadsIn parts.now (λ e. spec.compare_string e op (spec.other_in other.now (lents_of_value e (N.named names.now) other.now))) result }
{
    match other {
        Value::One(Scalar::Bytes(bytes)) => string_and_bytes(parts, op, bytes.as_slice()),
        Value::One(Scalar::Handle(handle)) => string_and_named(parts, op, *handle, names),
        _ => Ok(LocalReply::NotImplementedReply),
    }
}

/// Compares bytes or a bytearray with a value, byte by byte (Python's language reference, "Value comparisons"). The
/// value is bytes, an exporter, or an unreleased view whose items lie one after the other. For anything else the
/// reply is `NotImplemented`.
///
/// Refused with `UnknownName` for a vector, and with `TypeError` for an order of Python's `bytes` with a view.
/// Example: `bytearray(b"ab")` with `CompareOp::Lt` and `b"b"` replies `Truth(true)`.
pub fn of_own<N: Names>(
    parts: &Parts,
    op: CompareOp,
    other: &Value,
    names: &N,
) -> Result<LocalReply, Halt>
    requires whole { IsWhole parts.now }
    requires fit { N.fit names.now }
    ensures { ReadsIn parts.now (λ e. spec.compare_of_own e op other.now (lents_of_value e (N.named names.now) other.now)) result }
{
    parts.check_string()?;
    string_and_value(parts, op, other, names)
}

// ---- views

/// Refuses an order, which views haven't.
fn check_equality(op: CompareOp) -> Result<(), Fault>
    ensures { ChangesTo (unless (order.is_order op) faults.Kind) result true }
{
    if is_order(op) {
        return Err(Fault::Kind);
    }
    Ok(())
}

/// Whether a view is equal to plain bytes.
fn equals_bytes(alloc: Global, bytes: &[u8], view: &StoredView, other: &[u8]) -> Made<bool>
    requires inside { view.now.released ≡ false → LiesInside (length bytes.now) view.now.layout }
    ensures { (kind : ExporterKind) → IfOk result (λ equal. equal ≡ spec.equals_snap (snap_of_view bytes.now view.now) (Some (snap_of_exporter (new_exporter kind other.now)))) }
{
    if view.is_released() {
        return Ok(false);
    }
    equal_to_bytes(alloc, bytes, view.layout(), other)
}

/// Whether a view is equal to another, from where the items of both lie.
fn equals_view(
    alloc: Global,
    bytes: &[u8],
    view: &StoredView,
    other: &[u8],
    other_view: &StoredView,
) -> Made<bool>
    requires inside { view.now.released ≡ false → LiesInside (length bytes.now) view.now.layout }
    requires other_inside { other_view.now.released ≡ false → LiesInside (length other.now) other_view.now.layout }
    ensures { IfOk result (λ equal. equal ≡ spec.equals_snap (snap_of_view bytes.now view.now) (Some (snap_of_view other.now other_view.now))) }
{
    if view.is_released() {
        return Ok(false);
    }
    if other_view.is_released() {
        return Ok(false);
    }
    equal_views(alloc, bytes, view.layout(), other, other_view.layout())
}

/// Whether a view is equal to what was lent of another exporter, as it stood.
fn equals_snap(alloc: Global, bytes: &[u8], view: &StoredView, snap: &Snap) -> Made<bool>
    requires inside { view.now.released ≡ false → LiesInside (length bytes.now) view.now.layout }
    requires fits { fits_snap snap.now ≡ true }
    ensures { IfOk result (λ equal. equal ≡ spec.equals_snap (snap_of_view bytes.now view.now) (Some snap.now)) }
{
    pybuf_equality::fitting_snaps_have_all_items();
    if view.is_released() {
        return Ok(false);
    }
    if snap.released {
        return Ok(false);
    }
    if snap.kind.is_iterator() {
        return Ok(false);
    }
    equal_to_content(alloc, bytes, view.layout(), snap)
}

/// Whether a view is equal to a subject of an exporter, from where the items of both lie.
fn equals_subject(parts: &Parts, view: &StoredView, lender: &Parts, lent: Subject) -> Made<bool>
    requires inside { view.now.released ≡ false → LiesInside (length parts.now.bytes.items) view.now.layout }
    requires lender_whole { IsWhole lender.now }
    ensures { IfOk result (λ equal. equal ≡ spec.equals_snap (snap_of_view parts.now.bytes.items view.now) (snap_of_subject (exporter_of lender.now) lent)) }
{
    let bytes = parts.bytes.as_slice();
    let other = lender.bytes.as_slice();
    match lent {
        Subject::Own => equals_bytes(parts.alloc, bytes, view, other),
        Subject::View(number) => match given(lender, number) {
            Ok(other_view) => equals_view(parts.alloc, bytes, view, other, other_view),
            Err(_) => Ok(false),
        },
        Subject::Iter(_) => Ok(false),
    }
}

/// Whether a view is, or is equal to, what a handle names.
#[tactic(auto, using(crate::proofs::Comparing::equals_other_snap))]
fn equals_meaning(
    parts: &Parts,
    number: usize,
    view: &StoredView,
    meaning: Meaning<'_>,
) -> Made<bool>
    requires whole { IsWhole parts.now }
    requires inside { view.now.released ≡ false → LiesInside (length parts.now.bytes.items) view.now.layout }
    requires given { view_at (exporter_of parts.now) number ≡ Ok view.now }
    requires sound { names_spec.IsSoundMeaning meaning }
    ensures { (handle : ℕ) → IfOk result (λ equal. equal ≡ spec.equals_other number (snap_of_view parts.now.bytes.items view.now) (values.One (scalars.Handle handle)) (lent_as handle (subject_in (names_spec.meant meaning.entry)) (snap_in (exporter_of parts.now) (names_spec.meant meaning.entry)))) }
{
    match meaning {
        Meaning::Own(Subject::Own) => equals_subject(parts, view, parts, Subject::Own),
        Meaning::Own(Subject::View(other)) => {
            if other == number {
                return Ok(true);
            }
            equals_subject(parts, view, parts, Subject::View(other))
        }
        Meaning::Own(Subject::Iter(_)) => Ok(false),
        Meaning::Other(Other::Snap(snap)) => {
            equals_snap(parts.alloc, parts.bytes.as_slice(), view, snap)
        }
        Meaning::Other(Other::Lies { lender, subject }) => {
            equals_subject(parts, view, lender, subject)
        }
        Meaning::Nothing => Ok(false),
    }
}

/// Whether a view is, or is equal to, what a value is or names.
fn equals_value<N: Names>(
    parts: &Parts,
    number: usize,
    view: &StoredView,
    other: &Value,
    names: &N,
) -> Made<bool>
    requires whole { IsWhole parts.now }
    requires inside { view.now.released ≡ false → LiesInside (length parts.now.bytes.items) view.now.layout }
    requires given { view_at (exporter_of parts.now) number ≡ Ok view.now }
    requires fit { N.fit names.now }
    ensures { IfOk result (λ equal. equal ≡ spec.equals_other number (snap_of_view parts.now.bytes.items view.now) other.now (lents_of_value (exporter_of parts.now) (N.named names.now) other.now)) }
{
    match other {
        Value::One(Scalar::Bytes(bytes)) => {
            equals_bytes(parts.alloc, parts.bytes.as_slice(), view, bytes.as_slice())
        }
        Value::One(Scalar::Handle(handle)) => {
            equals_meaning(parts, number, view, names.meaning(*handle))
        }
        _ => Ok(false),
    }
}

/// What `==` or `!=` answers.
fn equality_answer(op: CompareOp, equal: bool) -> bool
    ensures { result ≡ spec.equality_answer op equal }
{
    match op {
        CompareOp::Ne => !equal,
        _ => equal,
    }
}

/// Compares a view with a value, by their items, each read by its own format (`memoryview.__eq__` in Python's "Binary
/// Sequence Types"). Bytes and exporters count as one dimension of the format `B`. A view is equal to itself, also
/// where it was released. A released one is equal to nothing else.
///
/// Refused with `UnknownName` where no such view was given, and with `TypeError` for an order.
/// Example: a view of `b"abc"` with `CompareOp::Eq` and `b"abc"` replies `Truth(true)`.
pub fn of_view<N: Names>(
    parts: &Parts,
    view: usize,
    op: CompareOp,
    other: &Value,
    names: &N,
) -> Result<LocalReply, Halt>
    requires whole { IsWhole parts.now }
    requires fit { N.fit names.now }
    ensures { ReadsIn parts.now (λ e. spec.compare_of_view e view op other.now (lents_of_value e (N.named names.now) other.now)) result }
{
    let stored = given(parts, view)?;
    check_equality(op)?;
    let equal = equals_value(parts, view, stored, other, names)?;
    Ok(LocalReply::Truth(equality_answer(op, equal)))
}
