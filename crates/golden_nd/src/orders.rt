//! Orders of axes.
ghost use Rattle.std.specs.Prelude.{◌≡◌, true, length, IfOk};
ghost use Rattle.std.specs.List.{range_with_len};
ghost use Rattle.pybuf_nd.specs.Axes.{AreAxes};

use pybuf_value::{CountList, Made};
use std::alloc::Global;

/// Whether each number is its place.
fn are_their_places(numbers: &[usize]) -> bool
    ensures { result ≡ true → numbers.now ≡ range_with_len 0 (length numbers.now) }
{
    for k in 0..numbers.len() {
        if numbers[k] != k {
            return false;
        }
    }
    true
}

/// Whether numbers are the axes of so many dimensions, each once.
pub fn are_axes(alloc: Global, numbers: &[usize], count: usize) -> Made<bool>
    ensures { IfOk result (λ are. are ≡ true → AreAxes count numbers.now) }
{
    let mut sorted = CountList::from_slice(alloc, numbers)?.into_vec();
    if sorted.len() != count {
        return Ok(false);
    }
    sorted.sort_unstable();
    Ok(are_their_places(sorted.as_slice()))
}
