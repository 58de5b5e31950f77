//! Methods that cut.
ghost use Rattle.std.specs.Prelude.{◌≡◌, ◌∷◌, [], IfOk};
ghost use Rattle.std.specs.Option.{option_copied};
ghost use Rattle.pybuf_value.specs.Halting.{Gives};
ghost use Rattle.pybuf_letters.specs.Strips.{stripped, stripped_left, stripped_right};
ghost use Rattle.pybuf_search.specs.Ends as ends;
ghost use Rattle.pybuf_search.specs.Parts.{middle};
ghost use Rattle.pybuf_bytes.specs.Searching.{split_of, rsplit_of};
ghost use Rattle.pybuf_bytes.specs.declared.methods.MethodReply.TheVariants as replies;
ghost use Rattle.pybuf_methods.specs.Cut as spec;
ghost use Rattle.pybuf_methods.specs.Lent.{lent_option};

use crate::contents::{Contents, bytes_given, bytes_of};
use crate::given::{at_most_one, at_most_two, flag_given, one};
use pybuf_bytes::MethodReply;
use pybuf_letters::{rsplit_at_blanks, split_at_blanks, split_lines, strip_left, strip_right};
use pybuf_search::{without_prefix, without_suffix};
use pybuf_value::{ByteList, ByteLists, Fault, Halt, Lent, Made, Value, count_or};
use std::alloc::Global;

/// A copy of bytes.
fn copied(alloc: Global, bytes: &[u8]) -> Made<ByteList>
    ensures { IfOk result (λ list. list ≡ bytes.now) }
{
    Ok(ByteList::from_vec(Vec::from_slice(alloc, bytes)?))
}

/// The bytes that are given.
fn slice_of<'a>(given: &'a Option<Lent<'a>>) -> Option<&'a [u8]>
    ensures { option_copied result ≡ lent_option given.now }
{
    match given {
        None => None,
        Some(bytes) => Some(bytes.as_slice()),
    }
}

/// Without the bytes of a set, or the blanks, at both ends.
pub(crate) fn strip<N: Contents>(
    alloc: Global,
    bytes: &[u8],
    args: &[Value],
    names: &N,
) -> Result<MethodReply, Halt>
    ensures { Gives (spec.strip stripped (N.pairs names.now) bytes.now args.now) result }
{
    let chars = at_most_one(args)?;
    let chars = bytes_given(alloc, chars, names)?;
    let rest = copied(alloc, pybuf_letters::strip(bytes, slice_of(&chars)))?;
    Ok(MethodReply::Bytes(rest))
}

/// The same on the left alone.
pub(crate) fn lstrip<N: Contents>(
    alloc: Global,
    bytes: &[u8],
    args: &[Value],
    names: &N,
) -> Result<MethodReply, Halt>
    ensures { Gives (spec.strip stripped_left (N.pairs names.now) bytes.now args.now) result }
{
    let chars = at_most_one(args)?;
    let chars = bytes_given(alloc, chars, names)?;
    let rest = copied(alloc, strip_left(bytes, slice_of(&chars)))?;
    Ok(MethodReply::Bytes(rest))
}

/// The same on the right alone.
pub(crate) fn rstrip<N: Contents>(
    alloc: Global,
    bytes: &[u8],
    args: &[Value],
    names: &N,
) -> Result<MethodReply, Halt>
    ensures { Gives (spec.strip stripped_right (N.pairs names.now) bytes.now args.now) result }
{
    let chars = at_most_one(args)?;
    let chars = bytes_given(alloc, chars, names)?;
    let rest = copied(alloc, strip_right(bytes, slice_of(&chars)))?;
    Ok(MethodReply::Bytes(rest))
}

/// Without a prefix.
pub(crate) fn removeprefix<N: Contents>(
    alloc: Global,
    bytes: &[u8],
    args: &[Value],
    names: &N,
) -> Result<MethodReply, Halt>
    ensures { Gives (spec.remove ends.without_prefix (N.pairs names.now) bytes.now args.now) result }
{
    let prefix = one(args)?;
    let prefix = bytes_of(alloc, prefix, names)?;
    let rest = copied(alloc, without_prefix(bytes, prefix.as_slice()))?;
    Ok(MethodReply::Bytes(rest))
}

/// Without a suffix.
pub(crate) fn removesuffix<N: Contents>(
    alloc: Global,
    bytes: &[u8],
    args: &[Value],
    names: &N,
) -> Result<MethodReply, Halt>
    ensures { Gives (spec.remove ends.without_suffix (N.pairs names.now) bytes.now args.now) result }
{
    let suffix = one(args)?;
    let suffix = bytes_of(alloc, suffix, names)?;
    let rest = copied(alloc, without_suffix(bytes, suffix.as_slice()))?;
    Ok(MethodReply::Bytes(rest))
}

/// The parts between matches of a separator, or between runs of blanks, with cuts from the left.
fn parts_from_left(
    alloc: Global,
    bytes: &[u8],
    separator: Option<&[u8]>,
    most: isize,
) -> Result<ByteLists, Halt>
    ensures { Gives (split_of (option_copied separator.entry) most bytes.now) result }
{
    let Some(separator) = separator else {
        return Ok(split_at_blanks(alloc, bytes, most)?);
    };
    if separator.is_empty() {
        return Err(Halt::Refused(Fault::Value));
    }
    Ok(pybuf_search::split(alloc, bytes, separator, most)?)
}

/// The same with cuts from the right.
fn parts_from_right(
    alloc: Global,
    bytes: &[u8],
    separator: Option<&[u8]>,
    most: isize,
) -> Result<ByteLists, Halt>
    ensures { Gives (rsplit_of (option_copied separator.entry) most bytes.now) result }
{
    let Some(separator) = separator else {
        return Ok(rsplit_at_blanks(alloc, bytes, most)?);
    };
    if separator.is_empty() {
        return Err(Halt::Refused(Fault::Value));
    }
    Ok(pybuf_search::rsplit(alloc, bytes, separator, most)?)
}

/// The parts between matches or runs of blanks, from the left.
pub(crate) fn split<N: Contents>(
    alloc: Global,
    bytes: &[u8],
    args: &[Value],
    names: &N,
) -> Result<MethodReply, Halt>
    ensures { Gives (spec.split split_of (N.pairs names.now) bytes.now args.now) result }
{
    let (separator, most) = at_most_two(args)?;
    let separator = bytes_given(alloc, separator, names)?;
    let most = count_or(-1, most)?;
    let parts = parts_from_left(alloc, bytes, slice_of(&separator), most)?;
    Ok(MethodReply::ByteLists(parts))
}

/// The same from the right.
pub(crate) fn rsplit<N: Contents>(
    alloc: Global,
    bytes: &[u8],
    args: &[Value],
    names: &N,
) -> Result<MethodReply, Halt>
    ensures { Gives (spec.split rsplit_of (N.pairs names.now) bytes.now args.now) result }
{
    let (separator, most) = at_most_two(args)?;
    let separator = bytes_given(alloc, separator, names)?;
    let most = count_or(-1, most)?;
    let parts = parts_from_right(alloc, bytes, slice_of(&separator), most)?;
    Ok(MethodReply::ByteLists(parts))
}

/// The separator, where it was found, else nothing.
fn middle_of(alloc: Global, separator: &[u8], found: bool) -> Made<ByteList>
    ensures { IfOk result (λ list. list ≡ middle separator.now found) }
{
    if found {
        return copied(alloc, separator);
    }
    Ok(ByteList::new(alloc))
}

/// The three parts of a partition, in order.
fn three(
    alloc: Global,
    front: &[u8],
    separator: &[u8],
    found: bool,
    back: &[u8],
) -> Made<MethodReply>
    ensures { IfOk result (λ r. r ≡ replies.ByteLists (front.now ∷ middle separator.now found ∷ back.now ∷ [])) }
{
    let front = copied(alloc, front)?;
    let separator = middle_of(alloc, separator, found)?;
    let back = copied(alloc, back)?;
    let mut parts = Vec::with_capacity(alloc, 3)?;
    parts.push(front)?;
    parts.push(separator)?;
    parts.push(back)?;
    Ok(MethodReply::ByteLists(ByteLists::from_vec(parts)))
}

/// What stands before the first match, the separator, and what stands behind it.
pub(crate) fn partition<N: Contents>(
    alloc: Global,
    bytes: &[u8],
    args: &[Value],
    names: &N,
) -> Result<MethodReply, Halt>
    ensures { Gives (spec.partition (N.pairs names.now) bytes.now args.now) result }
{
    let separator = one(args)?;
    let separator = bytes_of(alloc, separator, names)?;
    if separator.as_slice().is_empty() {
        return Err(Halt::Refused(Fault::Value));
    }
    let (front, found, back) = pybuf_search::partition(bytes, separator.as_slice());
    let reply = three(alloc, front, separator.as_slice(), found, back)?;
    Ok(reply)
}

/// What stands before the last match, the separator, and what stands behind it.
pub(crate) fn rpartition<N: Contents>(
    alloc: Global,
    bytes: &[u8],
    args: &[Value],
    names: &N,
) -> Result<MethodReply, Halt>
    ensures { Gives (spec.rpartition (N.pairs names.now) bytes.now args.now) result }
{
    let separator = one(args)?;
    let separator = bytes_of(alloc, separator, names)?;
    if separator.as_slice().is_empty() {
        return Err(Halt::Refused(Fault::Value));
    }
    let (back, found, front) = pybuf_search::rpartition(bytes, separator.as_slice());
    let reply = three(alloc, front, separator.as_slice(), found, back)?;
    Ok(reply)
}

/// The lines, with their ends where that is asked for.
pub(crate) fn splitlines(alloc: Global, bytes: &[u8], args: &[Value]) -> Result<MethodReply, Halt>
    ensures { Gives (spec.splitlines bytes.now args.now) result }
{
    let keep = at_most_one(args)?;
    let keep = flag_given(keep)?;
    let lines = split_lines(alloc, bytes, keep)?;
    Ok(MethodReply::ByteLists(lines))
}
