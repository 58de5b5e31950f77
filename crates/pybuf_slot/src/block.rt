//! A box as the address of its value.
ghost use Rattle.std.specs.Prelude.{◌≡◌};
ghost use Rattle.std.specs.Box.Ownership.{box_owns};

use std::alloc::Allocator;
use std::marker::Model;

/// A value on the heap, by its address and the allocator that frees it. It owns what a box owns.
/// Example: `Block::of(Box::new(alloc, 5)?)` stands for the box of 5, held by its address.
pub struct Block<T, A: Allocator> {
    /// The address of the value.
    pub at: *mut T,
    /// The allocator that frees it.
    pub alloc: A,
    pub ghost value: { T },
}

impl<T, A: Allocator> Model for Block<T, A> {
    ghost also_owns = { λ b. box_owns (A.dealloc_token b.alloc) T.row b.at b.value };
}

impl<T, A: Allocator> Block<T, A> {
    /// The box, taken apart into the address of its value and its allocator. Takes no memory.
    /// Example: `Block::of(owned).into_box()` is the box `owned` again.
    #[inline(always)]
    pub fn of(owned: Box<T, A>) -> Block<T, A>
    where
        T: Drop,
        ensures { result.value ≡ owned.value }
    {
        let (at, alloc) = Box::into_raw_with_allocator(owned);
        Block { at, alloc }
    }

    /// The box that the block was taken from, again. Takes no memory.
    /// Example: `Block::of(owned).into_box()` is the box `owned` again.
    #[inline(always)]
    pub fn into_box(self) -> Box<T, A>
        ensures { result.value ≡ self.value }
    {
        let Block { at, alloc } = self;
        unsafe { Box::from_raw(alloc, at) }
    }
}
