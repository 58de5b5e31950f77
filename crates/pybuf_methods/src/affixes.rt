//! What bytes begin and end with, from where each affix lies.
ghost use Rattle.std.specs.Prelude.{◌≡◌};
ghost use Rattle.pybuf_value.specs.Halting.{Gives};
ghost use Rattle.pybuf_search.specs.Affixes.{any_of, single_or_any_of, test_in};
ghost use Rattle.pybuf_search.specs.Bounds.{between_bounds};
ghost use Rattle.pybuf_methods.specs.Affixes as spec;

use crate::contents::{Contents, bytes_of, part_of};
use pybuf_search::{begins_with, between, ends_with};
use pybuf_value::{Halt, Scalar, Value};
use std::alloc::Global;

/// Which end of bytes is looked at.
#[derive(Clone, Copy, Debug)]
pub(crate) enum End {
    Front,
    Back,
}

/// Whether an affix stands at that end.
fn stands_at(end: End, bytes: &[u8], affix: &[u8]) -> bool
    ensures { result ≡ spec.stands_at end bytes.now affix.now }
{
    match end {
        End::Front => begins_with(bytes, affix),
        End::Back => ends_with(bytes, affix),
    }
}

/// Whether one of some affixes stands at an end. They are looked at in order, up to the first that does.
fn any_stands<N: Contents>(
    alloc: Global,
    end: End,
    bytes: &[u8],
    parts: &[Scalar],
    names: &N,
) -> Result<bool, Halt>
    ensures { Gives (any_of (spec.stands_at end bytes.now) (N.pairs names.now) parts.now) result }
{
    for part in parts {
        let affix = part_of(alloc, part, names)?;
        if stands_at(end, bytes, affix.as_slice()) {
            return Ok(true);
        }
    }
    Ok(false)
}

/// The same of one value, or of a tuple of them.
fn affix_stands<N: Contents>(
    alloc: Global,
    end: End,
    bytes: &[u8],
    affix: &Value,
    names: &N,
) -> Result<bool, Halt>
    ensures { Gives (single_or_any_of (spec.stands_at end bytes.now) (N.pairs names.now) affix.now) result }
{
    if let Value::Tuple(parts) = affix {
        return any_stands(alloc, end, bytes, parts.as_slice(), names);
    }
    let affix = bytes_of(alloc, affix, names)?;
    Ok(stands_at(end, bytes, affix.as_slice()))
}

/// The same between bounds; false where the start passes the end, whatever the affix is.
pub(crate) fn stands_between<N: Contents>(
    alloc: Global,
    end: End,
    bytes: &[u8],
    affix: &Value,
    bounds: (Option<i128>, Option<i128>),
    names: &N,
) -> Result<bool, Halt>
    ensures { Gives (test_in (spec.stands_at end) (N.pairs names.now) affix.now (between_bounds bounds.0 bounds.1 bytes.now)) result }
{
    match between(bytes, bounds.0, bounds.1) {
        None => Ok(false),
        Some(part) => affix_stands(alloc, end, part, affix, names),
    }
}
