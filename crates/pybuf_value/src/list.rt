//! Lists that contracts see as lists.
ghost use Rattle.std.specs.Prelude.{◌≡◌, ◌==◌, ◌<◌, ◌^◌, List, [], ◌∷◌, ◌++◌, length, IfOk, OnOk, OnErr, vec_len, vec_capacity};
ghost use Rattle.std.specs.Cmp.Lexicographic.{pointwise, lists_per};

use crate::values::{Item, PySlice, Scalar, Value};
use pybuf_copy::{Exact, Made, Twin, copy_all};
use std::alloc::Global;
use std::marker::Model;
use std::ops::DerefSlice;

/// A list of items. A clause sees the list of its items, and no capacity.
///
/// Example: `Items::from_slice(alloc, &[1, 2, 3])` gives the list 1, 2, 3.
#[derive(Debug, Drop)]
pub struct Items<T> {
    items: Vec<T>,
}

impl<T> Model for Items<T> {
    ghost Value = { List T };

    ghost view = { λ list. list.items.items };
}

impl<T> Items<T> {
    /// A list without items. Takes no memory.
    ///
    /// Example: `Items::<u8>::new(alloc).len()` is 0.
    pub fn new(alloc: Global) -> Items<T>
        ensures { result ≡ [] }
    {
        Items {
            items: Vec::new(alloc),
        }
    }

    /// The number of items, at most `isize::MAX`.
    ///
    /// Example: of the list 1, 2, 3 it is 3.
    pub fn len(&self) -> usize
        ensures value { result ≡ length self.now }
        ensures small { result < 2 ^ 63 }
    {
        self.items.len()
    }

    /// Whether there are no items.
    ///
    /// Example: of the list 1, 2, 3 it is `false`.
    pub fn is_empty(&self) -> bool
        ensures { result ≡ (length self.now == 0) }
    {
        self.items.is_empty()
    }

    /// The items, lent.
    ///
    /// Example: of the list 1, 2, 3 it is `&[1, 2, 3]`.
    pub fn as_slice(&self) -> &[T]
        ensures { result.now ≡ self.now }
    {
        self.items.as_slice()
    }

    /// Adds an item at the end. Where memory runs out, the list is as before.
    ///
    /// Example: with 4 the list 1, 2, 3 becomes 1, 2, 3, 4.
    pub fn push(&mut self, item: T) -> Made<()>
    where
        T: Drop,
        ensures ok { OnOk result (self.new ≡ self.old ++ item ∷ []) }
        ensures err { OnErr result (self.new ≡ self.old) }
    {
        self.items.push(item)?;
        Ok(())
    }

    /// The list of the items of a vector, in order. Takes no memory.
    ///
    /// Example: of the vector 1, 2, 3 it is the list 1, 2, 3.
    pub fn from_vec(items: Vec<T>) -> Items<T>
        ensures { result ≡ items.items }
    {
        Items { items }
    }

    /// The vector of the items of the list, in order. Takes no memory.
    ///
    /// Example: of the list 1, 2, 3 it is the vector 1, 2, 3.
    pub fn into_vec(self) -> Vec<T>
        ensures { result.items ≡ self }
    {
        let Items { items } = self;
        items
    }
}

impl<T: Exact> Items<T> {
    /// The list of copies of the items, in order.
    ///
    /// Example: `Items::from_slice(alloc, &[1, 2, 3])` gives the list 1, 2, 3.
    pub fn from_slice(alloc: Global, items: &[T]) -> Made<Items<T>>
        ensures { IfOk result (λ list. list ≡ items.now) }
    {
        Ok(Items {
            items: copy_all(alloc, items)?,
        })
    }
}

impl<T: PartialEq> PartialEq for Items<T> {
    ghost eq = { pointwise T.eq };

    ghost laws = { lists_per T.laws };

    fn eq(&self, other: &Items<T>) -> bool {
        self.items.as_slice() == other.items.as_slice()
    }
}

impl<T> DerefSlice for Items<T> {
    type Elem = T;

    ghost deref_gives = { λ list items. items ≡ list };

    fn deref(&self) -> &[T] {
        self.items.as_slice()
    }
}

impl<T: Exact> Twin for Items<T> {
    fn copy(&self, alloc: Global) -> Made<Items<T>> {
        Ok(Items {
            items: copy_all(alloc, self.items.as_slice())?,
        })
    }
}

impl<T: Exact> Exact for Items<T> {
    ghost exact = { λ x y e. e };
}

/// Adds an item where room was reserved before. Takes no memory.
///
/// Example: with 3 the vector 1, 2 with room for a third item becomes 1, 2, 3.
pub fn push_reserved<T: Drop>(items: &mut Vec<T>, item: T)
    requires { vec_len items.old < vec_capacity items.old }
    ensures { items.new.items ≡ items.old.items ++ item ∷ [] }
{
    let _ = items.push(item);
}

/// Bytes: at most `isize::MAX` of them.
///
/// Example: the answer of `replace` is a `ByteList`.
pub type ByteList = Items<u8>;

/// Lists of bytes.
///
/// Example: the parts of `b"a,b"` at `b","` are a `ByteLists` of `b"a"` and `b"b"`.
pub type ByteLists = Items<ByteList>;

/// The parts of a tuple or a list.
///
/// Example: the values of `<hI` are a `ScalarList` of two numbers.
pub type ScalarList = Items<Scalar>;

/// The parts of a tuple of slices.
///
/// Example: the key `[1:2, ::2]` has a `SliceList` of two slices.
pub type SliceList = Items<PySlice>;

/// Numbers of entries, one for each dimension of a shape.
///
/// Example: the shape of a view with two rows of three items is the `CountList` 2, 3.
pub type CountList = Items<usize>;

/// Whole numbers.
///
/// Example: the strides of a view with two rows of three bytes are the `NumberList` 3, 1.
pub type NumberList = Items<i128>;

/// The number of entries, the stride in bytes and the suboffset of each dimension.
///
/// Example: that of two rows of three bytes is `(2, 3, 0)`, `(3, 1, 0)`.
pub type DimList = Items<(usize, isize, isize)>;

/// Items of a view.
///
/// Example: `tolist` of a view of `b"ab"` answers the `ItemList` 97, 98.
pub type ItemList = Items<Item>;

/// Values, as the arguments of a call.
///
/// Example: the call `find(b"a", 1)` has the `ValueList` of `b"a"` and 1.
pub type ValueList = Items<Value>;
