//! Copies of values. `clone` of the standard library says nothing of a type parameter, unless its type
//! says so; a `copy` is equal, unless its type says what else it is.
ghost use Rattle.std.specs.Prelude.{◌≡◌, ◌+◌, ◌≤◌, length, IfOk, OnOk, OnErr, vec_len, vec_capacity};
ghost use Rattle.std.specs.List.{AllZip, AppendsClones};

use crate::memory::{Made, NoMemory};
use std::alloc::Global;

/// A type whose values can be copied.
///
/// Example: a vector of numbers, a string and a pair of a number and a truth value are such types.
pub trait Twin: Sized + Drop {
    /// What holds of a value and of each copy of it: that they are equal, if the type says nothing else.
    ghost same: { Self → Self → Type 0 } = { λ old twin. twin ≡ old };

    /// A copy of the value. It fails only for want of memory.
    ///
    /// Example: of the vector 1, 2 it gives another vector 1, 2.
    fn copy(&self, alloc: Global) -> Made<Self>
        ensures { IfOk result (λ twin. same self.now twin) };

    /// Adds copies of the items, in their order, at the end of a list that has room for them. Where
    /// memory runs out, the list is as before.
    ///
    /// Example: with the items 3, 4 the list 1, 2 with room for two more becomes 1, 2, 3, 4.
    fn append_copies(alloc: Global, items: &[Self], list: &mut Vec<Self>) -> Made<()>
        requires { vec_len list.old + length items.now ≤ vec_capacity list.old }
        ensures ok { OnOk result (AppendsClones same list.old.items list.new.items items.now) }
        ensures err { OnErr result (list.new.items ≡ list.old.items) }
        ensures room { vec_capacity list.old ≤ vec_capacity list.new }
    {
        let before = list.len();
        for item in items {
            match item.copy(alloc) {
                Ok(twin) => list.push_reserved(twin),
                Err(_) => {
                    list.truncate(before);
                    return Err(NoMemory);
                }
            }
        }
        Ok(())
    }

    /// Puts copies of the items, in their order, in the places of as many others. Where memory runs
    /// out, the places are as before.
    ///
    /// Example: with the items 8, 9 the places 1, 2 become 8, 9.
    fn write_copies(alloc: Global, items: &[Self], places: &mut [Self]) -> Made<()>
        requires { length items.now ≡ length places.old }
        ensures ok { OnOk result (AllZip same items.now places.new) }
        ensures err { OnErr result (places.new ≡ places.old) }
    {
        let mut copies = Vec::with_capacity(alloc, items.len())?;
        Self::append_copies(alloc, items, &mut copies)?;
        places.swap_with_slice(copies.as_mut_slice());
        Ok(())
    }
}

/// A type whose copies are equal to their source.
///
/// Example: the copy of the number 5 is 5, and that of the string `ab` is `ab`.
pub trait Exact: Twin {
    ghost exact: { (x y : Self) → Self.same x y → y ≡ x };
}

/// A vector of copies of the items, in the same order.
///
/// Example: `copy_all(alloc, &[1, 2])` gives the vector 1, 2.
pub fn copy_all<T: Twin>(alloc: Global, items: &[T]) -> Made<Vec<T>>
    ensures same { IfOk result (λ twin. AllZip T.same items.now twin.items) }
    ensures exact { IfOk result (λ twin. ((x y : T) → T.same x y → y ≡ x) → twin.items ≡ items.now) }
{
    let mut twin = Vec::with_capacity(alloc, items.len())?;
    T::append_copies(alloc, items, &mut twin)?;
    Ok(twin)
}
