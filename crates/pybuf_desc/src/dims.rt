//! The dimensions of a descriptor. Up to three take no memory of their own, since most views have no
//! more and a view is made at each slice.
ghost use Rattle.std.specs.Prelude.{◌≡◌, ◌<◌, ℕ, ℤ, List, [], ◌∷◌, length, IfSome};
ghost use Rattle.pybuf_value.specs.Halting.{Makes};
ghost use Rattle.pybuf_desc.specs.Descriptor.{with_first};

use pybuf_value::{DimList, Exact, Made, Twin};
use std::alloc::Global;
use std::marker::Model;

/// The number of entries of a dimension, its stride and its suboffset.
type Dim = (usize, isize, isize);

#[derive(Debug, Drop)]
enum KeptDims {
    One([Dim; 1]),
    Two([Dim; 2]),
    Three([Dim; 3]),
    Many(DimList),
}

/// A list of dimensions. A clause sees the list, and not how it is kept.
#[derive(Debug, Drop)]
pub(crate) struct Dims {
    kept: KeptDims,
}

impl Model for Dims {
    ghost use Rattle.std.specs.Prelude.{ℕ, ℤ, List};

    ghost Value = { List (ℕ × ℤ × ℤ) };

    ghost use Rattle.pybuf_desc.specs.KeptDims.{dims_of};

    ghost view = { λ d. dims_of d.kept };
}

/// Up to three dimensions, kept without memory of their own.
fn few_dims(dims: &[Dim]) -> Option<Dims>
    ensures { IfSome result (λ few. few ≡ dims.now) }
{
    match dims {
        [first] => Some(Dims::one(*first)),
        [first, second] => Some(Dims::two(*first, *second)),
        [first, second, third] => Some(Dims::three(*first, *second, *third)),
        _ => None,
    }
}

/// The dimensions with another first one, in a vector.
fn many_with_first(alloc: Global, dims: &DimList, count: usize, stride: isize) -> Made<Dims>
    requires { 0 < length dims.now }
    ensures { Makes (with_first dims.now count stride) result }
{
    let mut list = dims.copy(alloc)?.into_vec();
    let suboffset = list[0].2;
    list[0] = (count, stride, suboffset);
    Ok(Dims {
        kept: KeptDims::Many(DimList::from_vec(list)),
    })
}

impl Dims {
    /// One dimension. Takes no memory.
    #[inline(always)]
    pub(crate) fn one(first: Dim) -> Dims
        ensures { result ≡ first ∷ [] }
    {
        Dims {
            kept: KeptDims::One([first]),
        }
    }

    /// Two dimensions. Takes no memory.
    pub(crate) fn two(first: Dim, second: Dim) -> Dims
        ensures { result ≡ first ∷ second ∷ [] }
    {
        Dims {
            kept: KeptDims::Two([first, second]),
        }
    }

    /// Three dimensions. Takes no memory.
    fn three(first: Dim, second: Dim, third: Dim) -> Dims
        ensures { result ≡ first ∷ second ∷ third ∷ [] }
    {
        Dims {
            kept: KeptDims::Three([first, second, third]),
        }
    }

    /// The dimensions of the list. Takes no memory, and gives back that of up to three.
    pub(crate) fn from_list(list: DimList) -> Dims
        ensures { result ≡ list }
    {
        match few_dims(list.as_slice()) {
            Some(few) => few,
            None => Dims {
                kept: KeptDims::Many(list),
            },
        }
    }

    /// The dimensions, lent.
    pub(crate) fn as_slice(&self) -> &[Dim]
        ensures { result.now ≡ self.now }
    {
        match &self.kept {
            KeptDims::One(dims) => dims.as_slice(),
            KeptDims::Two(dims) => dims.as_slice(),
            KeptDims::Three(dims) => dims.as_slice(),
            KeptDims::Many(list) => list.as_slice(),
        }
    }

    /// The same but for the entries and the stride of the first.
    #[inline(always)]
    pub(crate) fn with_first(&self, alloc: Global, count: usize, stride: isize) -> Made<Dims>
        requires { 0 < length self.now }
        ensures { Makes (with_first self.now count stride) result }
    {
        match &self.kept {
            KeptDims::One(dims) => {
                let mut dims = *dims;
                dims[0] = (count, stride, dims[0].2);
                Ok(Dims {
                    kept: KeptDims::One(dims),
                })
            }
            KeptDims::Two(dims) => {
                let mut dims = *dims;
                dims[0] = (count, stride, dims[0].2);
                Ok(Dims {
                    kept: KeptDims::Two(dims),
                })
            }
            KeptDims::Three(dims) => {
                let mut dims = *dims;
                dims[0] = (count, stride, dims[0].2);
                Ok(Dims {
                    kept: KeptDims::Three(dims),
                })
            }
            KeptDims::Many(list) => many_with_first(alloc, list, count, stride),
        }
    }
}

impl Twin for Dims {
    fn copy(&self, alloc: Global) -> Made<Dims> {
        match &self.kept {
            KeptDims::One(dims) => Ok(Dims {
                kept: KeptDims::One(*dims),
            }),
            KeptDims::Two(dims) => Ok(Dims {
                kept: KeptDims::Two(*dims),
            }),
            KeptDims::Three(dims) => Ok(Dims {
                kept: KeptDims::Three(*dims),
            }),
            KeptDims::Many(list) => Ok(Dims {
                kept: KeptDims::Many(list.copy(alloc)?),
            }),
        }
    }
}
