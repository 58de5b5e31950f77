//! The handle by which a program in C holds a format.
ghost use Rattle.std.specs.Prelude.{◌≡◌, Some, None, MatchOption};

use crate::address::PackerAddress;
use crate::packer::Packer;
use pybuf_slot::Block;
use std::alloc::Global;
use std::mem;

/// The handle by which a program in C holds a packer, or none. All zeros are a handle that holds none.
/// Example: `FormatHandle::empty(alloc)` stands for a handle before a format was parsed.
#[repr(C)]
pub struct FormatHandle {
    pub address: PackerAddress,
    pub full: bool,
    ghost same: { full ≡ address.full },
}

impl Drop for FormatHandle {
    fn drop(self) {
        drop(self.into_packer());
    }
}

impl FormatHandle {
    ghost use Rattle.pybuf_packer.specs.Held.{held};

    /// A handle that holds no packer. Takes no memory.
    /// Example: `FormatHandle::empty(alloc).take(alloc)` is None.
    #[inline(always)]
    pub fn empty(alloc: Global) -> FormatHandle
        ensures { held result ≡ None }
    {
        FormatHandle {
            address: PackerAddress::empty(alloc),
            full: false,
        }
    }

    /// The handle of a packer. Takes no memory.
    /// Example: `FormatHandle::of(packer).take(alloc)` is `Some(packer)`.
    #[inline(always)]
    pub fn of(packer: Box<Packer, Global>) -> FormatHandle
        ensures { held result ≡ Some packer.value }
    {
        FormatHandle {
            address: PackerAddress::of(Block::of(packer)),
            full: true,
        }
    }

    /// The packer of the handle.
    #[inline(always)]
    fn into_packer(self) -> Option<Box<Packer, Global>>
        ensures { MatchOption result (held self ≡ None) (λ packer. held self ≡ Some packer.value) }
    {
        let FormatHandle { address, full } = self;
        if full {
            Some(address.into_block().into_box())
        } else {
            None
        }
    }

    /// Takes the packer out of the handle, which holds none then. It is None where it held none. Takes no memory.
    /// Example: a second `take` is None.
    #[inline(always)]
    pub fn take(&mut self, alloc: Global) -> Option<Box<Packer, Global>>
        ensures empty { held self.new ≡ None }
        ensures taken { MatchOption result (held self.old ≡ None) (λ packer. held self.old ≡ Some packer.value) }
    {
        mem::replace(self, FormatHandle::empty(alloc)).into_packer()
    }

    /// Puts a packer into the handle. One that it held is freed. Takes no memory.
    /// Example: after `handle.put(packer)` `handle.take(alloc)` is `Some(packer)`.
    #[inline(always)]
    pub fn put(&mut self, packer: Box<Packer, Global>)
        ensures { held self.new ≡ Some packer.value }
    {
        *self = FormatHandle::of(packer);
    }
}
