//! Slices compared, as texts, and hashed.
ghost use Rattle.std.specs.Prelude.{◌≡◌, IfOk};
ghost use Rattle.pybuf_value.specs.Spelling.{slice_text};
ghost use Rattle.pybuf_index.specs.Compared.{same_slice, order_of_slices, compared_slices};
ghost use Rattle.pybuf_index.specs.Lanes.{mixed, hash_of};

use pybuf_value::{
    CompareOp, Fault, Made, PySlice, Text, push_scalar, scalar_cmp, scalar_eq,
    values_are_spelled_in_ascii,
};
use std::alloc::Global;
use std::cmp::Ordering;

/// Whether two slices are equal by parts.
fn same_slice(left: &PySlice, right: &PySlice) -> bool
    ensures { result ≡ same_slice left.now right.now }
{
    if !scalar_eq(&left.start, &right.start) {
        return false;
    }
    if !scalar_eq(&left.stop, &right.stop) {
        return false;
    }
    scalar_eq(&left.step, &right.step)
}

/// The order of two slices, which their first unequal parts decide.
fn order_slices(left: &PySlice, right: &PySlice) -> Result<Ordering, Fault>
    ensures { result ≡ order_of_slices left.now right.now }
{
    if !scalar_eq(&left.start, &right.start) {
        return scalar_cmp(&left.start, &right.start);
    }
    if !scalar_eq(&left.stop, &right.stop) {
        return scalar_cmp(&left.stop, &right.stop);
    }
    if !scalar_eq(&left.step, &right.step) {
        return scalar_cmp(&left.step, &right.step);
    }
    Ok(Ordering::Equal)
}

/// What an operator answers of two slices.
pub(crate) fn compare_slices(left: &PySlice, right: &PySlice, op: CompareOp) -> Result<bool, Fault>
    ensures { result ≡ compared_slices op left.now right.now }
{
    match op {
        CompareOp::Eq => Ok(same_slice(left, right)),
        CompareOp::Ne => Ok(!same_slice(left, right)),
        _ => {
            let order = order_slices(left, right)?;
            Ok(op.answer(order))
        }
    }
}

/// The text of a slice.
pub(crate) fn text_of(alloc: Global, slice: &PySlice) -> Made<Text>
    ensures { IfOk result (λ text. text ≡ slice_text slice.now) }
{
    values_are_spelled_in_ascii();
    let mut text = Vec::new(alloc);
    text.extend_from_slice(b"slice(")?;
    push_scalar(&mut text, &slice.start)?;
    text.extend_from_slice(b", ")?;
    push_scalar(&mut text, &slice.stop)?;
    text.extend_from_slice(b", ")?;
    push_scalar(&mut text, &slice.step)?;
    text.extend_from_slice(b")")?;
    Ok(Text::from_utf8(text))
}

/// A lane more in a hash.
fn mix(hash: u64, lane: u64) -> u64
    ensures { result ≡ mixed hash lane }
{
    hash.wrapping_add(lane.wrapping_mul(14029467366897019727))
        .rotate_left(31)
        .wrapping_mul(11400714785074694791)
}

/// The hash of a slice by the hashes of its parts, its lanes: they are mixed in their order, over
/// numbers of 64 bits that wrap, as Python mixes those of a tuple. It is never -1 but where a lane is
/// `u64::MAX`, which stands for a part without a hash.
///
/// Example: `hash_of_lanes(1, 2, 3)` is -2340833382717974474.
pub fn hash_of_lanes(start: u64, stop: u64, step: u64) -> i64
    ensures { result ≡ hash_of start stop step }
{
    if start == u64::MAX {
        return -1;
    }
    if stop == u64::MAX {
        return -1;
    }
    if step == u64::MAX {
        return -1;
    }
    let hash = mix(mix(mix(2870177450012600261, start), stop), step);
    if hash == u64::MAX {
        return 1546275796;
    }
    hash.cast_signed()
}
