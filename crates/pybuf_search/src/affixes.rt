//! What bytes begin and end with: one value that is read as bytes, or any of a tuple.
ghost use Rattle.std.specs.Prelude.{◌≡◌, ℕ, Bool, List, Option, Some, None, Result, Ok, Err, IfOk, MatchOption, MatchResult};
ghost use Rattle.std.specs.Fn.{FnReturnsAt};
ghost use Rattle.pybuf_value.specs.declared.values.Value.TheVariants as values;
ghost use Rattle.pybuf_value.specs.declared.faults.Fault.{Fault};
ghost use Rattle.pybuf_value.specs.Halting.{Gives, outcome_of};
ghost use Rattle.pybuf_value.specs.Snaps.{bytes_in};
ghost use Rattle.pybuf_search.specs.Bounds.{range_if_any, between_bounds};
ghost use Rattle.pybuf_search.specs.Affixes as spec;
ghost use Rattle.pybuf_search.specs.Affixes.{IsTested};

use crate::bounds::{adjust_indices, between};
use crate::ends::{begins_with, ends_with};
use pybuf_value::{
    Fault, Halt, Lender, Outcome, Scalar, Tried, Value, bytes_from_object, content_of_snap, tried,
};
use std::alloc::Global;
use std::ops::Range;

/// What bytes are to begin or to end with, and the bounds between which they are looked at. An affix
/// is a value that is read as bytes, or a tuple of such values.
///
/// Example: the affix `b"py"` with the start 2 asks of `b"a.py"` whether `b"py"` begins with it.
#[derive(Debug, Drop)]
pub struct StartsEndsWithArgs {
    pub affix: Value,
    pub start: Option<i128>,
    pub end: Option<i128>,
}

impl StartsEndsWithArgs {
    /// The affix, and the range of the bounds in bytes of a length; no range exactly where neither
    /// bound is there.
    ///
    /// Example: with the start -2 and no end, of 5 bytes, the range is `Some(3..5)`.
    pub fn get_value(&self, len: usize) -> (&Value, Option<Range<usize>>)
        ensures affix { result.0.now ≡ self.now.affix }
        ensures range { result.1 ≡ range_if_any self.now.start self.now.end len }
    {
        match (self.start, self.end) {
            (None, None) => (&self.affix, None),
            (start, end) => (&self.affix, Some(adjust_indices(start, end, len))),
        }
    }

    /// The affix, and the bytes between the bounds. `None` exactly where a bound is there and the
    /// range's start passes its end.
    ///
    /// Example: with the start 2 and no end, of `b"a.py"`, the bytes are `b"py"`; with the start 3 and the end 2, `None`.
    pub fn prepare<'a>(&'a self, bytes: &'a [u8]) -> Option<(&'a Value, &'a [u8])>
        ensures { MatchOption result (between_bounds self.now.start self.now.end bytes.now ≡ None) (λ pair. (pair.0.now ≡ self.now.affix) × (between_bounds self.now.start self.now.end bytes.now ≡ Some pair.1.now)) }
    {
        match between(bytes, self.start, self.end) {
            None => None,
            Some(part) => Some((&self.affix, part)),
        }
    }
}

/// The bytes of a bytes value, or of the exporter or the view that a handle names, contiguous or not.
/// Nothing is copied.
///
/// Refused with `UnknownName` where the lender hasn't the handle, with `ValueError` where it names a
/// released view, and with `TypeError` for an iterator and for every other value.
///
/// Example: `bytes_lent` of the bytes value `b"ab"` is `Ok(b"ab")`, and of the number 5 it is `Err(Fault::Kind)`.
pub fn bytes_lent<'a, L: Lender>(value: &'a Scalar, lender: &'a L) -> Result<&'a [u8], Fault>
    ensures { MatchResult result (λ bytes. bytes_in (L.pairs lender.now) (values.One value.now) ≡ Ok bytes.now) (λ fault. bytes_in (L.pairs lender.now) (values.One value.now) ≡ Err fault) }
{
    match value {
        Scalar::Bytes(bytes) => Ok(bytes.as_slice()),
        Scalar::Handle(handle) => match lender.lend(*handle) {
            Some(snap) => content_of_snap(snap),
            None => Err(Fault::UnknownName),
        },
        _ => Err(Fault::Kind),
    }
}

/// Whether one of some values satisfies a test. They are tested in order, up to the first that does.
fn any_of<L: Lender, F: Fn(&[u8]) -> bool>(
    parts: &[Scalar],
    predicate: &F,
    lender: &L,
) -> Result<bool, Fault>
    requires { F.IsAlwaysCallable predicate.now }
    ensures function { (test : List ℕ → Bool) → IsTested (F.post predicate.now) test → result ≡ spec.any_of test (L.pairs lender.now) parts.now }
    ensures calls { spec.IsAnyOf (FnReturnsAt F.Fn predicate.now) (L.pairs lender.now) parts.now result }
{
    for part in parts {
        let bytes = bytes_lent(part, lender)?;
        if predicate(bytes) {
            return Ok(true);
        }
    }
    Ok(false)
}

/// The same of one value; a list is read as bytes.
fn single_or_any_of<L: Lender, F: Fn(&[u8]) -> bool>(
    alloc: Global,
    value: &Value,
    predicate: &F,
    lender: &L,
) -> Result<bool, Halt>
    requires { F.IsAlwaysCallable predicate.now }
    ensures function { (test : List ℕ → Bool) → IsTested (F.post predicate.now) test → Gives (spec.single_or_any_of test (L.pairs lender.now) value.now) result }
    ensures calls { spec.IfGiven (spec.IsSingleOrAnyOf (FnReturnsAt F.Fn predicate.now) (L.pairs lender.now) value.now) result }
{
    match value {
        Value::Tuple(parts) => {
            let found = any_of(parts.as_slice(), predicate, lender)?;
            Ok(found)
        }
        Value::One(scalar) => {
            let bytes = bytes_lent(scalar, lender)?;
            Ok(predicate(bytes))
        }
        other => match bytes_from_object(alloc, other, lender)? {
            Outcome::Done(bytes) => Ok(predicate(bytes.as_slice())),
            Outcome::Refused(fault) => Err(Halt::Refused(fault)),
        },
    }
}

/// Whether the bytes of a value satisfy a predicate; of a tuple, whether those of one of its parts
/// do. Parts are tested in order, up to the first that does, so that a later part isn't looked at.
/// Nothing but a list is copied.
///
/// Refused as `bytes_from_object` refuses the value, or the first part that is refused.
///
/// Example: of the tuple `(b"x", b"ab")` and the test whether `b"abc"` begins with the bytes, it is true.
pub fn single_or_tuple_any<L: Lender, F: Fn(&[u8]) -> bool>(
    alloc: Global,
    value: &Value,
    predicate: &F,
    lender: &L,
) -> Tried<bool>
    requires { F.IsAlwaysCallable predicate.now }
    ensures function { (test : List ℕ → Bool) → IsTested (F.post predicate.now) test → IfOk result (λ outcome. outcome ≡ outcome_of (spec.single_or_any_of test (L.pairs lender.now) value.now)) }
    ensures calls { IfOk result (λ outcome. (answer : Result Bool Fault) × (outcome ≡ outcome_of answer) × spec.IsSingleOrAnyOf (FnReturnsAt F.Fn predicate.now) (L.pairs lender.now) value.now answer) }
{
    tried(single_or_any_of(alloc, value, predicate, lender))
}

/// Whether the bytes between the bounds begin with the affix, or with one of a tuple of them, which
/// are tested in order (Library reference, "Bytes and Bytearray Operations", `bytes.startswith`).
/// False where the start passes the end, whatever the affix is.
///
/// Refused as `single_or_tuple_any` refuses.
///
/// Example: of `b"a.py"` with the affix `(b"b", b"a")` it is true, and with the start 5 and the affix `b""` it is false.
pub fn startswith<L: Lender>(
    alloc: Global,
    bytes: &[u8],
    args: &StartsEndsWithArgs,
    lender: &L,
) -> Tried<bool>
    ensures { IfOk result (λ outcome. outcome ≡ outcome_of (spec.startswith_of (L.pairs lender.now) args.now.affix args.now.start args.now.end bytes.now)) }
{
    match args.prepare(bytes) {
        None => Ok(Outcome::Done(false)),
        Some((affix, part)) => {
            single_or_tuple_any(
                alloc,
                affix,
                &|prefix: &[u8]| begins_with(part, prefix),
                lender,
            )
        }
    }
}

/// Whether the bytes between the bounds end with the affix, or with one of a tuple of them, which are
/// tested in order (Library reference, "Bytes and Bytearray Operations", `bytes.endswith`). False
/// where the start passes the end, whatever the affix is.
///
/// Refused as `single_or_tuple_any` refuses.
///
/// Example: of `b"a.py"` with the affix `(b".rs", b".py")` it is true, and with the end 3 it is false.
pub fn endswith<L: Lender>(
    alloc: Global,
    bytes: &[u8],
    args: &StartsEndsWithArgs,
    lender: &L,
) -> Tried<bool>
    ensures { IfOk result (λ outcome. outcome ≡ outcome_of (spec.endswith_of (L.pairs lender.now) args.now.affix args.now.start args.now.end bytes.now)) }
{
    match args.prepare(bytes) {
        None => Ok(Outcome::Done(false)),
        Some((affix, part)) => {
            single_or_tuple_any(
                alloc,
                affix,
                &|suffix: &[u8]| ends_with(part, suffix),
                lender,
            )
        }
    }
}
