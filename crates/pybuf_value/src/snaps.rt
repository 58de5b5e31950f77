//! What handles name, lent to a call as it stands.
ghost use Rattle.std.specs.Prelude.{◌≡◌, ℕ, List};
ghost use Rattle.std.specs.Option.{option_copied};
ghost use Rattle.pybuf_value.specs.declared.snaps.Snap.{Snap};
ghost use Rattle.pybuf_value.specs.Snaps.{is_iterator, snap_of};

use crate::list::{ByteList, CountList, Items};
use crate::text::Text;
use pybuf_copy::{Exact, Made, Twin};
use std::alloc::Global;

/// What kind of thing a handle names.
///
/// Example: the handle of a bytearray names a thing of the kind `ByteArray`.
#[derive(Clone, Copy, Debug, PartialEq, Eq)]
pub enum SnapKind {
    /// Python's `bytes`.
    /// Example: an exporter made as `bytes(b"ab")` is of the kind `Bytes`.
    Bytes,
    /// Python's `bytearray`.
    /// Example: an exporter made as `bytearray(b"ab")` is of the kind `ByteArray`.
    ByteArray,
    /// A vector of bytes that lends them, read-only or not.
    /// Example: an exporter made of a vector of bytes is of the kind `Vector`.
    Vector,
    /// A view of an exporter, as Python's `memoryview`.
    /// Example: the answer of `memoryview(b"ab")` is of the kind `View`.
    View,
    /// An iterator.
    /// Example: the answer of `iter(b"ab")` is of the kind `Iterator`.
    Iterator,
}

impl SnapKind {
    /// Whether it is an iterator, which has no bytes.
    ///
    /// Example: `SnapKind::Iterator.is_iterator()` is `true`, and `SnapKind::View.is_iterator()` is `false`.
    pub fn is_iterator(self) -> bool
        ensures { result ≡ is_iterator self }
    {
        match self {
            SnapKind::Iterator => true,
            _ => false,
        }
    }
}

/// What a handle names, as it stands at one moment.
///
/// Example: that of `memoryview(b"abcd")[::2]` has the format `B`, the shape 2, the content `b"ac"`, and isn't contiguous.
#[derive(Debug, Drop, PartialEq)]
pub struct Snap {
    pub kind: SnapKind,
    /// The format of an item.
    pub format: Text,
    /// The bytes of an item.
    pub itemsize: usize,
    /// The number of entries in each dimension.
    pub shape: CountList,
    /// The bytes of all items, with the last dimension running fastest.
    pub content: ByteList,
    /// Whether the items lie one after another.
    pub contiguous: bool,
    /// Whether the view was released.
    pub released: bool,
}

impl Twin for Snap {
    fn copy(&self, alloc: Global) -> Made<Snap> {
        let format = self.format.copy(alloc)?;
        let shape = self.shape.copy(alloc)?;
        let content = self.content.copy(alloc)?;
        Ok(Snap {
            kind: self.kind,
            format,
            itemsize: self.itemsize,
            shape,
            content,
            contiguous: self.contiguous,
            released: self.released,
        })
    }
}

impl Exact for Snap {
    ghost exact = { λ x y e. e };
}

/// What lends the things that handles name. It stands for a list of pairs of a handle and a snap.
///
/// Example: a `SnapList` with the pair of 7 and a snap lends that snap for the handle 7.
pub trait Lender {
    ghost pairs: { Self → List (ℕ × Snap) };

    /// The snap of the first pair of this handle, None exactly where there is no such pair.
    ///
    /// Example: of a list with the pair of 7 and a snap, for 7 it is that snap, and for 8 it is `None`.
    fn lend(&self, handle: u64) -> Option<&Snap>
        ensures { option_copied result ≡ snap_of (pairs self.now) handle };
}

/// Pairs of a handle and a snap, which it lends.
///
/// Example: the pair of 7 and a snap of `b"ab"` lends `b"ab"` for the handle 7.
pub type SnapList = Items<(u64, Snap)>;

impl Lender for Items<(u64, Snap)> {
    ghost pairs = { λ list. list };

    fn lend(&self, handle: u64) -> Option<&Snap> {
        let pairs = self.as_slice();
        for pair in pairs {
            if pair.0 == handle {
                return Some(&pair.1);
            }
        }
        None
    }
}
