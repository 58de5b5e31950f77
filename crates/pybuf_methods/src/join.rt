//! Parts that are to be joined, from where each lies.
ghost use Rattle.pybuf_methods.specs.Given as spec;
ghost use Rattle.pybuf_methods.specs.Lent.{LendsEach};

use crate::contents::{Contents, part_of};
use pybuf_value::{Fault, Halt, Lent, Scalar, Value};
use std::alloc::Global;

/// The bytes of each part of a list or a tuple.
fn each_in<'a, N: Contents>(
    alloc: Global,
    parts: &'a [Scalar],
    names: &'a N,
) -> Result<Vec<Lent<'a>>, Halt>
    ensures { LendsEach (spec.each_in (N.pairs names.now) parts.now) result }
{
    let mut lists = Vec::with_capacity(alloc, parts.len())?;
    for part in parts {
        let bytes = part_of(alloc, part, names)?;
        lists.push(bytes)?;
    }
    Ok(lists)
}

/// The bytes of each part of a list or a tuple.
pub(crate) fn lists_in<'a, N: Contents>(
    alloc: Global,
    value: &'a Value,
    names: &'a N,
) -> Result<Vec<Lent<'a>>, Halt>
    ensures { LendsEach (spec.lists_in (N.pairs names.now) value.now) result }
{
    match value {
        Value::Tuple(parts) => each_in(alloc, parts.as_slice(), names),
        Value::List(parts) => each_in(alloc, parts.as_slice(), names),
        _ => Err(Halt::Refused(Fault::Kind)),
    }
}
