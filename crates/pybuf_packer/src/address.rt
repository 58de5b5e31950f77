//! A packer by its address, in a form that C can hold.
ghost use Rattle.std.specs.Prelude.{◌≡◌, Bool, true, false};
ghost use Rattle.pybuf_packer.specs.Packer.{Packer};
ghost use Rattle.pybuf_packer.specs.Owned.{address_owns, packer_coded};

use crate::packer::Packer;
use pybuf_slot::Block;
use std::alloc::Global;
use std::marker::{Model, Send};
use std::ptr;

/// The address of a packer, or none. What is let go while it is full isn't freed: `FormatHandle` frees it.
#[repr(C)]
#[derive(Drop)]
pub struct PackerAddress {
    at: *mut u8,
    alloc: Global,
    pub ghost full: { Bool },
    pub ghost packer: { Packer } by { packer_coded },
}

impl Model for PackerAddress {
    ghost also_owns = { λ a. address_owns a.alloc a.at a.full a.packer };
}

// What it owns is a block of plain data, and any thread may free it.
unsafe impl Send for PackerAddress {}

impl PackerAddress {
    /// No address.
    #[inline(always)]
    pub fn empty(alloc: Global) -> PackerAddress
        ensures { result.full ≡ false }
    {
        PackerAddress {
            at: ptr::null_mut(),
            alloc,
        }
    }

    /// The address of a block.
    #[inline(always)]
    pub fn of(block: Block<Packer, Global>) -> PackerAddress
        ensures full { result.full ≡ true }
        ensures packer { result.packer ≡ block.value }
    {
        let Block { at, alloc } = block;
        PackerAddress {
            at: at as *mut u8,
            alloc,
        }
    }

    /// The block of an address.
    #[inline(always)]
    pub fn into_block(self) -> Block<Packer, Global>
        requires { self.full ≡ true }
        ensures { result.value ≡ self.packer }
    {
        let PackerAddress { at, alloc } = self;
        Block {
            at: at as *mut Packer,
            alloc,
        }
    }
}
