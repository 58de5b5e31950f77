//! Equality of values, as Python's `==`.
ghost use Rattle.std.specs.Prelude.{◌≡◌};
ghost use Rattle.pybuf_value.specs.declared.values.Scalar.TheVariants as scalar;
ghost use Rattle.pybuf_value.specs.Equality.{counted, identical, same_scalar, same_parts, same_item};

use crate::values::{Item, Scalar};

/// Whether a value counts as a number.
fn counts_as(value: &Scalar, number: i128) -> bool
    ensures { result ≡ identical (scalar.Int number) (counted value.now) }
{
    match value {
        Scalar::Int(other) => number == *other,
        Scalar::Bool(truth) => { if *truth { number == 1 } else { number == 0 } }
        _ => false,
    }
}

/// Whether two values without parts are equal: of one kind and the same, where a truth value counts
/// as 0 or 1 (Python's language reference, "Value comparisons"). A handle equals itself alone.
///
/// Example: `scalar_eq(&Scalar::Int(1), &Scalar::Bool(true))` is `true`, and of the text `a` and `b"a"` it is `false`.
pub fn scalar_eq(left: &Scalar, right: &Scalar) -> bool
    ensures { result ≡ same_scalar left.now right.now }
{
    match left {
        Scalar::None => matches!(right, Scalar::None),
        Scalar::Bool(truth) => {
            if *truth {
                counts_as(right, 1)
            } else {
                counts_as(right, 0)
            }
        }
        Scalar::Int(number) => counts_as(right, *number),
        Scalar::Text(text) => match right {
            Scalar::Text(other) => text.as_slice() == other.as_slice(),
            _ => false,
        },
        Scalar::Bytes(bytes) => match right {
            Scalar::Bytes(other) => bytes.as_slice() == other.as_slice(),
            _ => false,
        },
        Scalar::Ellipsis => matches!(right, Scalar::Ellipsis),
        Scalar::Handle(handle) => match right {
            Scalar::Handle(other) => *handle == *other,
            _ => false,
        },
    }
}

/// Whether two values without parts are identical or equal, as Python compares the elements of its
/// lists. Identical values are equal here, so this is `scalar_eq`.
///
/// Example: of 1 and true it is `true`, and of 1 and 2 it is `false`.
pub fn identical_or_equal(left: &Scalar, right: &Scalar) -> bool
    ensures { result ≡ same_scalar left.now right.now }
{
    scalar_eq(left, right)
}

/// Whether two tuples have as many parts, equal in pairs.
fn parts_eq(left: &[Scalar], right: &[Scalar]) -> bool
    ensures { result ≡ same_parts left.now right.now }
{
    if left.len() != right.len() {
        return false;
    }
    for place in 0..left.len() {
        if !scalar_eq(&left[place], &right[place]) {
            return false;
        }
    }
    true
}

/// Whether two items are equal: both are single or both are tuples of one length, with equal parts.
/// The first parts that differ end it.
///
/// Example: of the item `(1, 2)` and the item `(true, 2)` it is `true`, and of the items 1 and `(1, 2)` it is `false`.
pub fn item_eq(left: &Item, right: &Item) -> bool
    ensures { result ≡ same_item left.now right.now }
{
    match left {
        Item::One(part) => match right {
            Item::One(other) => scalar_eq(part, other),
            Item::Many(_) => false,
        },
        Item::Many(parts) => match right {
            Item::One(_) => false,
            Item::Many(others) => parts_eq(parts.as_slice(), others.as_slice()),
        },
    }
}
