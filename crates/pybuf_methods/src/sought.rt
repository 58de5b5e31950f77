//! Methods that search.
ghost use Rattle.std.specs.Prelude.{◌≡◌, ◌∷◌, [], length, Ok};
ghost use Rattle.pybuf_value.specs.Halting.{Gives, AnsweredAtOnce};
ghost use Rattle.pybuf_search.specs.Bounds.{adjusted};
ghost use Rattle.pybuf_search.specs.Ranges.{place_in_range, number_in_range};
ghost use Rattle.pybuf_search.specs.Places as places;
ghost use Rattle.pybuf_value.specs.Lent.{Lends};
ghost use Rattle.pybuf_methods.specs.Sought as spec;

use crate::affixes::{End, stands_between};
use crate::contents::{Contents, bytes_of};
use crate::given::{bound_given, one_to_three};
use pybuf_bytes::MethodReply;
use pybuf_search::{
    adjust_indices, first_place_in_range, holds_needle, last_place_in_range, number_in_range,
};
use pybuf_value::{Fault, Halt, Lent, Scalar, Value, value_from_object};
use std::alloc::Global;

/// One byte.
fn one_byte<'a>(alloc: Global, byte: u8) -> Result<Lent<'a>, Halt>
    ensures { Lends (Ok (byte ∷ [])) result }
{
    Ok(Lent::Gathered(Vec::from_slice(alloc, &[byte])?))
}

/// What is searched for: a number as one byte, and any other value as the bytes that it is read as.
fn sought<'a, N: Contents>(alloc: Global, value: &'a Value, names: &'a N) -> Result<Lent<'a>, Halt>
    ensures { Lends (spec.sought_in (N.pairs names.now) value.now) result }
{
    match value {
        Value::One(Scalar::Int(_) | Scalar::Bool(_)) => {
            let byte = value_from_object(value)?;
            one_byte(alloc, byte)
        }
        _ => bytes_of(alloc, value, names),
    }
}

/// Whether a value stands in bytes, as Python's `value in bytes` asks. A whole number, or a truth value
/// as 0 or 1, is searched as one byte, and any other value as the bytes that it is read as.
///
/// Refused with `ValueError` for a number outside `0..256`, and else as `bytes_from_object` refuses.
///
/// Example: of `b"Abc"` and the value `b"bc"` it gives true, and the value 256 is refused with `ValueError`.
pub fn contains_in<N: Contents>(
    alloc: Global,
    bytes: &[u8],
    value: &Value,
    names: &N,
) -> Result<bool, Halt>
    ensures { Gives (spec.contains_in (N.pairs names.now) bytes.now value.now) result }
{
    let needle = sought(alloc, value, names)?;
    Ok(holds_needle(bytes, needle.as_slice()))
}

/// The first place between the bounds.
fn place<N: Contents>(
    alloc: Global,
    bytes: &[u8],
    args: &[Value],
    names: &N,
) -> Result<Option<usize>, Halt>
    ensures { Gives (spec.place places.first_place (N.pairs names.now) bytes.now args.now) result }
{
    let (sub, start, end) = one_to_three(args)?;
    let needle = sought(alloc, sub, names)?;
    let start = bound_given(start)?;
    let end = bound_given(end)?;
    Ok(first_place_in_range(
        bytes,
        needle.as_slice(),
        adjust_indices(start, end, bytes.len()),
    ))
}

/// The last place between the bounds.
fn rplace<N: Contents>(
    alloc: Global,
    bytes: &[u8],
    args: &[Value],
    names: &N,
) -> Result<Option<usize>, Halt>
    ensures { Gives (spec.place places.last_place (N.pairs names.now) bytes.now args.now) result }
{
    let (sub, start, end) = one_to_three(args)?;
    let needle = sought(alloc, sub, names)?;
    let start = bound_given(start)?;
    let end = bound_given(end)?;
    Ok(last_place_in_range(
        bytes,
        needle.as_slice(),
        adjust_indices(start, end, bytes.len()),
    ))
}

/// A place as a number: -1 where nothing was found.
fn number_of_place(place: Option<usize>) -> i128
    ensures { result ≡ spec.number_of_place place }
{
    match place {
        None => -1,
        Some(place) => place as i128,
    }
}

/// A place that was found.
fn found_place(place: Option<usize>) -> Result<MethodReply, Fault>
    ensures { result ≡ spec.found_place place }
{
    match place {
        None => Err(Fault::Value),
        Some(place) => Ok(MethodReply::Number(place as i128)),
    }
}

/// The first place, or -1.
pub(crate) fn find<N: Contents>(
    alloc: Global,
    bytes: &[u8],
    args: &[Value],
    names: &N,
) -> Result<MethodReply, Halt>
    ensures { Gives (spec.find places.first_place (N.pairs names.now) bytes.now args.now) result }
{
    let found = place(alloc, bytes, args, names)?;
    Ok(MethodReply::Number(number_of_place(found)))
}

/// The last place, or -1.
pub(crate) fn rfind<N: Contents>(
    alloc: Global,
    bytes: &[u8],
    args: &[Value],
    names: &N,
) -> Result<MethodReply, Halt>
    ensures { Gives (spec.find places.last_place (N.pairs names.now) bytes.now args.now) result }
{
    let found = rplace(alloc, bytes, args, names)?;
    Ok(MethodReply::Number(number_of_place(found)))
}

/// The first place.
pub(crate) fn index<N: Contents>(
    alloc: Global,
    bytes: &[u8],
    args: &[Value],
    names: &N,
) -> Result<MethodReply, Halt>
    ensures { Gives (spec.index places.first_place (N.pairs names.now) bytes.now args.now) result }
{
    let found = place(alloc, bytes, args, names)?;
    let reply = found_place(found)?;
    Ok(reply)
}

/// The last place.
pub(crate) fn rindex<N: Contents>(
    alloc: Global,
    bytes: &[u8],
    args: &[Value],
    names: &N,
) -> Result<MethodReply, Halt>
    ensures { Gives (spec.index places.last_place (N.pairs names.now) bytes.now args.now) result }
{
    let found = rplace(alloc, bytes, args, names)?;
    let reply = found_place(found)?;
    Ok(reply)
}

/// The number of matches.
pub(crate) fn count<N: Contents>(
    alloc: Global,
    bytes: &[u8],
    args: &[Value],
    names: &N,
) -> Result<MethodReply, Halt>
    ensures { Gives (spec.count (N.pairs names.now) bytes.now args.now) result }
{
    let (sub, start, end) = one_to_three(args)?;
    let needle = sought(alloc, sub, names)?;
    let start = bound_given(start)?;
    let end = bound_given(end)?;
    let number = number_in_range(
        bytes,
        needle.as_slice(),
        adjust_indices(start, end, bytes.len()),
    );
    Ok(MethodReply::Number(number as i128))
}

/// An affix, which isn't read yet, and two bounds.
fn affix_given(args: &[Value]) -> Result<(&Value, Option<i128>, Option<i128>), Fault>
    ensures { AnsweredAtOnce result (λ given. (given.0.now, given.1, given.2)) (spec.affix_given args.now) }
{
    let (affix, start, end) = one_to_three(args)?;
    let start = bound_given(start)?;
    let end = bound_given(end)?;
    Ok((affix, start, end))
}

/// Whether the bytes between the bounds begin with an affix.
pub(crate) fn startswith<N: Contents>(
    alloc: Global,
    bytes: &[u8],
    args: &[Value],
    names: &N,
) -> Result<MethodReply, Halt>
    ensures { Gives (spec.startswith (N.pairs names.now) bytes.now args.now) result }
{
    let (affix, start, end) = affix_given(args)?;
    let answer = stands_between(alloc, End::Front, bytes, affix, (start, end), names)?;
    Ok(MethodReply::Truth(answer))
}

/// Whether they end with one.
pub(crate) fn endswith<N: Contents>(
    alloc: Global,
    bytes: &[u8],
    args: &[Value],
    names: &N,
) -> Result<MethodReply, Halt>
    ensures { Gives (spec.endswith (N.pairs names.now) bytes.now args.now) result }
{
    let (affix, start, end) = affix_given(args)?;
    let answer = stands_between(alloc, End::Back, bytes, affix, (start, end), names)?;
    Ok(MethodReply::Truth(answer))
}
