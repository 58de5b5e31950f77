//! Checks of dimensions, without trust in their numbers.
ghost use Rattle.std.specs.Prelude.{◌≡◌, ◌≢◌, ◌*◌, ◌^◌, ◌<◌, ◌↔◌, pos, SomeIff, IsTrue, All, drop};
ghost use Rattle.std.specs.List.{Any};
ghost use Rattle.pybuf_desc.specs.Places.{places};
ghost use Rattle.pybuf_desc.specs.Valid.{IsInside, full_size};

/// Whether each dimension has a stride that isn't 0.
pub fn has_strides(dims: &[(usize, isize, isize)]) -> bool
    ensures { IsTrue result ↔ All (λ dim. dim.1 ≢ pos 0) dims.now }
{
    dims.iter().all(|dim| dim.1 != 0)
}

/// Whether each dimension has the suboffset 0.
pub fn is_direct(dims: &[(usize, isize, isize)]) -> bool
    ensures { IsTrue result ↔ All (λ dim. dim.2 ≡ pos 0) dims.now }
{
    dims.iter().all(|dim| dim.2 == 0)
}

/// Whether a dimension has no entry.
pub fn has_zero(dims: &[(usize, isize, isize)]) -> bool
    ensures { IsTrue result ↔ Any (λ dim. dim.0 ≡ 0) dims.now }
{
    dims.iter().any(|dim| dim.0 == 0)
}

/// Whether each dimension after the first has an entry.
pub fn has_later_entries(dims: &[(usize, isize, isize)]) -> bool
    ensures { IsTrue result ↔ All (λ dim. 0 < dim.0) (drop 1 dims.now) }
{
    match dims.split_first() {
        None => true,
        Some((_, later)) => later.iter().all(|dim| dim.0 != 0),
    }
}

/// The item size times the entries that aren't 0, where it is at most `isize::MAX`.
pub fn extent(itemsize: usize, dims: &[(usize, isize, isize)]) -> Option<usize>
    requires { itemsize < 2 ^ 63 }
    ensures { SomeIff result (full_size itemsize dims.now < 2 ^ 63) (full_size itemsize dims.now) }
{
    let mut extent = itemsize;
    for dim in dims {
        if dim.0 != 0 {
            let next = extent.checked_mul(dim.0)?;
            if next > isize::MAX as usize {
                return None;
            }
            extent = next;
        }
    }
    Some(extent)
}

/// Whether each byte of each item lies in `0..room`.
pub fn are_inside(
    dims: &[(usize, isize, isize)],
    itemsize: usize,
    start: usize,
    room: usize,
) -> bool
    requires { All (λ dim. 0 < dim.0) dims.now }
    ensures { IsTrue result ↔ All (IsInside itemsize room) (places dims.now (pos start)) }
{
    if start > room {
        return false;
    }
    if itemsize > room - start {
        return false;
    }
    let mut before = start;
    let mut after = room - start - itemsize;
    for dim in dims {
        let gaps = dim.0.saturating_sub(1);
        match gaps.checked_mul(dim.1.unsigned_abs()) {
            None => return false,
            Some(reach) => {
                if dim.1 < 0 {
                    if reach > before {
                        return false;
                    }
                    before -= reach;
                } else {
                    if reach > after {
                        return false;
                    }
                    after -= reach;
                }
            }
        }
    }
    true
}
