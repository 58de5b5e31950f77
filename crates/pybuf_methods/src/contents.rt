//! The bytes of arguments, lent from where they lie.
ghost use Rattle.std.specs.Prelude.{◌≡◌, Some, ℕ, List, [], Result};
ghost use Rattle.std.specs.Option.{option_copied};
ghost use Rattle.pybuf_value.specs.declared.faults.Fault as faults;
ghost use Rattle.pybuf_value.specs.declared.snaps.Snap.{Snap};
ghost use Rattle.pybuf_value.specs.declared.values.Value.TheVariants as values;
ghost use Rattle.pybuf_value.specs.Snaps.{snap_of, bytes_in, like_in, content_of, content_of_bytes, content_of_named};
ghost use Rattle.pybuf_shaping.specs.Arguments as fills;
ghost use Rattle.pybuf_methods.specs.Given as spec;
ghost use Rattle.pybuf_value.specs.Lent.{Lends, kind_of_named};
ghost use Rattle.pybuf_methods.specs.Lent.{LendsSome, Reads, string_named};
ghost use Rattle.pybuf_value.specs.Halting.{GivesLent, GivesLentOption};

use pybuf_value::{
    Fault, Halt, Lender, Lent, Outcome, Scalar, SnapKind, SnapList, Value, bytes_from_object,
    content_of_snap, run_of_snap,
};
use std::alloc::Global;

/// What handles name, with their bytes read from where they lie. It stands for pairs of a handle and a
/// snap, of which none need be made.
///
/// Example: with the pair of 7 and a snap of the bytearray `b"ab"` the handle 7 names the bytes `b"ab"`.
pub trait Contents {
    ghost pairs: { Self → List (ℕ × Snap) };

    /// What kind of thing a handle names; `None` exactly where it names nothing.
    ///
    /// Example: of a handle of a bytearray it is `Some(SnapKind::ByteArray)`.
    fn kind(&self, handle: u64) -> Option<SnapKind>
        ensures { result ≡ kind_of_named (snap_of (pairs self.now) handle) };

    /// The bytes of what a handle names, where they lie together.
    ///
    /// Refused with `UnknownName` where it names nothing, with `ValueError` for a released view, and with
    /// `TypeError` for a view whose items don't lie one after another and for an iterator.
    ///
    /// Example: of a handle of the bytearray `b"ab"` it is `Ok(b"ab")`, and of one of an iterator it is `Err(Fault::Kind)`.
    fn run(&self, handle: u64) -> Result<&[u8], Fault>
        ensures { GivesLent (content_of (snap_of (pairs self.now) handle)) result };

    /// The bytes of what a handle names. They are copied only where they lie apart.
    ///
    /// Refused with `UnknownName` where it names nothing, with `ValueError` for a released view, and with
    /// `TypeError` for an iterator.
    ///
    /// Example: of a handle of every second item of a view of `b"abcd"` it gives `b"ac"`.
    fn content(&self, alloc: Global, handle: u64) -> Result<Lent<'_>, Halt>
        ensures { Lends (content_of_named (snap_of (pairs self.now) handle)) result };
}

/// The names that a lender has.
///
/// Example: by a `SnapList` with the pair of 7 and a snap of `b"ab"` the handle 7 names `b"ab"`.
#[derive(Debug, Drop)]
pub struct ByLender<'a, L> {
    pub lender: &'a L,
}

/// What kind of thing is lent.
fn kind_lent<L: Lender>(lender: &L, handle: u64) -> Option<SnapKind>
    ensures { result ≡ kind_of_named (snap_of (L.pairs lender.now) handle) }
{
    match lender.lend(handle) {
        Some(snap) => Some(snap.kind),
        None => None,
    }
}

impl<'a, L: Lender> Contents for ByLender<'a, L> {
    ghost pairs = { λ names. L.pairs names.lender.now };

    fn kind(&self, handle: u64) -> Option<SnapKind> {
        kind_lent(self.lender, handle)
    }

    fn run(&self, handle: u64) -> Result<&[u8], Fault> {
        match self.lender.lend(handle) {
            Some(snap) => run_of_snap(snap),
            None => Err(Fault::UnknownName),
        }
    }

    fn content(&self, _alloc: Global, handle: u64) -> Result<Lent<'_>, Halt> {
        match self.lender.lend(handle) {
            Some(snap) => Ok(Lent::Lies(content_of_snap(snap)?)),
            None => Err(Halt::Refused(Fault::UnknownName)),
        }
    }
}

/// The bytes that a list or a tuple is read as, for which no handle is looked at.
fn bytes_of_parts(alloc: Global, value: &Value) -> Result<Vec<u8>, Halt>
    ensures { Reads (bytes_in [] value.now) result }
{
    let nothing = SnapList::new(alloc);
    match bytes_from_object(alloc, value, &nothing)? {
        Outcome::Done(bytes) => Ok(bytes.into_vec()),
        Outcome::Refused(fault) => Err(Halt::Refused(fault)),
    }
}

/// Bytes that were put together, if they were.
fn gathered<'a>(bytes: Result<Vec<u8>, Halt>) -> Result<Lent<'a>, Halt>
    ensures { (wanted : Result (List ℕ) faults.Fault) → Reads wanted bytes → Lends wanted result }
{
    match bytes {
        Ok(bytes) => Ok(Lent::Gathered(bytes)),
        Err(halt) => Err(halt),
    }
}

/// The bytes that a value is read as, from where they lie: those of a bytes value, of the exporter or the
/// view that a handle names, contiguous or not, and those that the parts of a list or a tuple are.
///
/// Refused as `bytes_from_object` refuses.
pub(crate) fn bytes_of<'a, N: Contents>(
    alloc: Global,
    value: &'a Value,
    names: &'a N,
) -> Result<Lent<'a>, Halt>
    ensures { Lends (bytes_in (N.pairs names.now) value.now) result }
{
    match value {
        Value::One(Scalar::Bytes(bytes)) => Ok(Lent::Lies(bytes.as_slice())),
        Value::One(Scalar::Handle(handle)) => names.content(alloc, *handle),
        Value::Tuple(_) => gathered(bytes_of_parts(alloc, value)),
        Value::List(_) => gathered(bytes_of_parts(alloc, value)),
        _ => Err(Halt::Refused(Fault::Kind)),
    }
}

/// The same of a part of a list or a tuple.
pub(crate) fn part_of<'a, N: Contents>(
    alloc: Global,
    part: &'a Scalar,
    names: &'a N,
) -> Result<Lent<'a>, Halt>
    ensures { Lends (bytes_in (N.pairs names.now) (values.One part.now)) result }
{
    match part {
        Scalar::Bytes(bytes) => Ok(Lent::Lies(bytes.as_slice())),
        Scalar::Handle(handle) => names.content(alloc, *handle),
        _ => Err(Halt::Refused(Fault::Kind)),
    }
}

/// The same, where bytes are given that aren't Python's `None`.
pub(crate) fn bytes_given<'a, N: Contents>(
    alloc: Global,
    value: Option<&'a Value>,
    names: &'a N,
) -> Result<Option<Lent<'a>>, Halt>
    ensures { LendsSome (spec.bytes_given (N.pairs names.now) (option_copied value.entry)) result }
{
    match value {
        None => Ok(None),
        Some(Value::One(Scalar::None)) => Ok(None),
        Some(value) => match bytes_of(alloc, value, names) {
            Ok(bytes) => Ok(Some(bytes)),
            Err(halt) => Err(halt),
        },
    }
}

/// The bytes of a bytes value, of an exporter, or of a view whose items lie one after another, lent.
pub(crate) fn like_in<'a, N: Contents>(value: &'a Value, names: &'a N) -> Result<&'a [u8], Fault>
    ensures { GivesLent (like_in (N.pairs names.now) value.now) result }
{
    match value {
        Value::One(Scalar::Bytes(bytes)) => Ok(bytes.as_slice()),
        Value::One(Scalar::Handle(handle)) => names.run(*handle),
        _ => Err(Fault::Kind),
    }
}

/// The bytes of an exporter of kind bytes, lent.
fn alone<N: Contents>(names: &N, handle: u64) -> Result<&[u8], Fault>
    ensures { GivesLent (content_of_bytes (snap_of (N.pairs names.now) handle)) result }
{
    match names.kind(handle) {
        None => Err(Fault::UnknownName),
        Some(SnapKind::Bytes) => names.run(handle),
        Some(_) => Err(Fault::Kind),
    }
}

/// The bytes of a text, of a bytes value, or of an exporter of kind bytes, lent.
fn separator_in<'a, N: Contents>(value: &'a Value, names: &'a N) -> Result<&'a [u8], Fault>
    ensures { GivesLent (spec.separator_in (N.pairs names.now) value.now) result }
{
    match value {
        Value::One(Scalar::Text(text)) => Ok(text.as_slice()),
        Value::One(Scalar::Bytes(bytes)) => Ok(bytes.as_slice()),
        Value::One(Scalar::Handle(handle)) => alone(names, *handle),
        _ => Err(Fault::Kind),
    }
}

/// The same, where a separator is given.
pub fn separator_given<'a, N: Contents>(
    value: Option<&'a Value>,
    names: &'a N,
) -> Result<Option<&'a [u8]>, Fault>
    ensures { GivesLentOption (spec.separator_given (N.pairs names.now) (option_copied value.entry)) result }
{
    match value {
        None => Ok(None),
        Some(value) => {
            let bytes = separator_in(value, names)?;
            Ok(Some(bytes))
        }
    }
}

/// The bytes of what is Python's `bytes` or `bytearray`, lent.
fn string_of<N: Contents>(names: &N, handle: u64) -> Result<&[u8], Fault>
    ensures { GivesLent (string_named (snap_of (N.pairs names.now) handle)) result }
{
    match names.kind(handle) {
        None => Err(Fault::UnknownName),
        Some(SnapKind::Bytes) => names.run(handle),
        Some(SnapKind::ByteArray) => names.run(handle),
        Some(_) => Err(Fault::Kind),
    }
}

/// One byte alone.
fn single(bytes: &[u8]) -> Result<u8, Fault>
    ensures { result ≡ fills.single (Some bytes.now) }
{
    match bytes {
        [byte] => Ok(*byte),
        _ => Err(Fault::Kind),
    }
}

/// The fill byte that a value is.
fn fill_in<N: Contents>(value: &Value, names: &N) -> Result<u8, Fault>
    ensures { result ≡ fills.fill_in (N.pairs names.now) value.now }
{
    match value {
        Value::One(Scalar::Bytes(bytes)) => single(bytes.as_slice()),
        Value::One(Scalar::Handle(handle)) => {
            let bytes = string_of(names, *handle)?;
            single(bytes)
        }
        _ => Err(Fault::Kind),
    }
}

/// The same, and a space where none is given.
pub(crate) fn fill_of<N: Contents>(value: Option<&Value>, names: &N) -> Result<u8, Fault>
    ensures { result ≡ fills.fill_of (N.pairs names.now) (option_copied value.entry) }
{
    match value {
        None => Ok(b' '),
        Some(value) => fill_in(value, names),
    }
}
