//! Copies of pairs, triples, options, and the lists and texts of the standard library, by their parts.
ghost use Rattle.std.specs.Prelude.{◌≡◌};
ghost use Rattle.std.specs.List.{AllZip};
ghost use Rattle.std.specs.String.{string_bytes};
ghost use Rattle.pybuf_copy.specs.Twins.{SameOption, exact_option};

use crate::memory::Made;
use crate::twin::{Exact, Twin, copy_all};
use std::alloc::Global;

impl<A: Twin, B: Twin> Twin for (A, B) {
    ghost same = { λ old twin. A.same old.0 twin.0 × B.same old.1 twin.1 };

    fn copy(&self, alloc: Global) -> Made<(A, B)> {
        let first = self.0.copy(alloc)?;
        let second = self.1.copy(alloc)?;
        Ok((first, second))
    }
}

impl<A: Exact, B: Exact> Exact for (A, B) {
    ghost exact = { λ x y s i. (A.exact x.0 y.0 s.0 i, B.exact x.1 y.1 s.1 i) };
}

impl<A: Twin, B: Twin, C: Twin> Twin for (A, B, C) {
    ghost same = { λ old twin. A.same old.0 twin.0 × B.same old.1 twin.1 × C.same old.2 twin.2 };

    fn copy(&self, alloc: Global) -> Made<(A, B, C)> {
        let first = self.0.copy(alloc)?;
        let second = self.1.copy(alloc)?;
        let third = self.2.copy(alloc)?;
        Ok((first, second, third))
    }
}

impl<A: Exact, B: Exact, C: Exact> Exact for (A, B, C) {
    ghost exact = { λ x y s i. (A.exact x.0 y.0 s.0 i, B.exact x.1 y.1 s.1 i, C.exact x.2 y.2 s.2 i) };
}

impl<T: Twin> Twin for Option<T> {
    ghost same = { SameOption T.same };

    fn copy(&self, alloc: Global) -> Made<Option<T>> {
        match self {
            None => Ok(None),
            Some(value) => {
                let value = value.copy(alloc)?;
                Ok(Some(value))
            }
        }
    }
}

impl<T: Exact> Exact for Option<T> {
    ghost exact = { λ x y s. exact_option T.exact x y s };
}

// A clause also sees where a list or a text lies and how much room it has. So to a clause, a copy isn't equal to its
// source.
impl<T: Twin> Twin for Vec<T> {
    ghost same = { λ old twin. AllZip T.same old.items twin.items };

    fn copy(&self, alloc: Global) -> Made<Vec<T>> {
        copy_all(alloc, self.as_slice())
    }
}

impl Twin for String {
    ghost same = { λ old twin. string_bytes twin ≡ string_bytes old };

    fn copy(&self, alloc: Global) -> Made<String> {
        Ok(String::from_str(alloc, self.as_str())?)
    }
}
