//! The order of bytes and of values, and Python's comparison operators.
ghost use Rattle.std.specs.Prelude.{◌≡◌};
ghost use Rattle.pybuf_value.specs.Order.{order_of, order_of_scalars, answers, is_order};

use crate::faults::Fault;
use crate::numbers::number_in;
use crate::values::{CompareOp, Scalar};
use std::cmp::Ordering;

impl CompareOp {
    /// What the operator answers of two values in an order.
    ///
    /// Example: `CompareOp::Le.answer(Ordering::Equal)` is `true`.
    pub fn answer(self, order: Ordering) -> bool
        ensures { result ≡ answers self order }
    {
        match self {
            CompareOp::Eq => order.is_eq(),
            CompareOp::Ne => order.is_ne(),
            CompareOp::Lt => order.is_lt(),
            CompareOp::Le => order.is_le(),
            CompareOp::Gt => order.is_gt(),
            CompareOp::Ge => order.is_ge(),
        }
    }
}

/// Whether an operator asks for an order: `<`, `<=`, `>` and `>=` do, `==` and `!=` don't.
///
/// Example: `is_order(CompareOp::Lt)` is `true`, and `is_order(CompareOp::Ne)` is `false`.
pub fn is_order(op: CompareOp) -> bool
    ensures { result ≡ is_order op }
{
    !matches!(op, CompareOp::Eq | CompareOp::Ne)
}

/// What an operator answers of two lists of bytes. The first bytes that differ decide, and of two
/// lists that don't differ so far the shorter one is less (Python's language reference, "Value
/// comparisons").
///
/// Example: `compare_bytes(b"ab", b"b", CompareOp::Lt)` is `true`.
#[tactic(auto, using(crate::proofs::OrderLemmas::bytes_eq_order))]
pub fn compare_bytes(left: &[u8], right: &[u8], op: CompareOp) -> bool
    ensures { result ≡ answers op (order_of left.now right.now) }
{
    match op {
        CompareOp::Eq => left == right,
        CompareOp::Ne => left != right,
        _ => op.answer(order_bytes(left, right)),
    }
}

/// The order of two lists of bytes.
#[tactic(auto, using(crate::proofs::OrderLemmas::slice_cmp_bytes))]
fn order_bytes(left: &[u8], right: &[u8]) -> Ordering
    ensures { result ≡ order_of left.now right.now }
{
    left.cmp(right)
}

/// The order of two values without parts: of two numbers, where a truth value counts as 0 or 1, of
/// two bytes values, or of two texts.
///
/// Refused with `TypeError` for any other two.
///
/// Example: of 1 and 2 it is `Ok(Ordering::Less)`, and of 1 and a text it is `Err(Fault::Kind)`.
pub fn scalar_cmp(left: &Scalar, right: &Scalar) -> Result<Ordering, Fault>
    ensures { result ≡ order_of_scalars left.now right.now }
{
    match (left, right) {
        (Scalar::Text(text), Scalar::Text(other)) => {
            Ok(order_bytes(text.as_slice(), other.as_slice()))
        }
        (Scalar::Bytes(bytes), Scalar::Bytes(other)) => {
            Ok(order_bytes(bytes.as_slice(), other.as_slice()))
        }
        _ => {
            let number = number_in(left)?;
            let other = number_in(right)?;
            Ok(number.cmp(&other))
        }
    }
}
