//! A console by its address, in a form that C can hold.
ghost use Rattle.std.specs.Prelude.{◌≡◌, Bool, true, false};
ghost use Rattle.pybuf_console.specs.Console.{Console};
ghost use Rattle.pybuf_console.specs.Owned.{address_owns, console_coded};

use crate::console::Console;
use pybuf_slot::Block;
use std::alloc::Global;
use std::marker::{Model, Send};
use std::ptr;

/// The address of a console, or none. What is let go while it is full isn't freed: `WorldHandle` frees it.
#[repr(C)]
#[derive(Drop)]
pub struct ConsoleAddress {
    at: *mut u8,
    alloc: Global,
    pub ghost full: { Bool },
    pub ghost console: { Console } by { console_coded },
}

impl Model for ConsoleAddress {
    ghost also_owns = { λ a. address_owns a.alloc a.at a.full a.console };
}

// What it owns is a block of plain data, and any thread may free it.
unsafe impl Send for ConsoleAddress {}

impl ConsoleAddress {
    ghost use Rattle.std.specs.Borrow.{sem};
    ghost use Rattle.pybuf_console.specs.Reached.{LendsConsole};

    /// No address.
    #[inline(always)]
    pub fn empty(alloc: Global) -> ConsoleAddress
        ensures { result.full ≡ false }
    {
        ConsoleAddress {
            at: ptr::null_mut(),
            alloc,
        }
    }

    /// The address of a block.
    #[inline(always)]
    pub fn of(block: Block<Console, Global>) -> ConsoleAddress
        ensures full { result.full ≡ true }
        ensures console { result.console ≡ block.value }
    {
        let Block { at, alloc } = block;
        ConsoleAddress {
            at: at as *mut u8,
            alloc,
        }
    }

    /// The block of an address.
    #[inline(always)]
    pub fn into_block(self) -> Block<Console, Global>
        requires { self.full ≡ true }
        ensures { result.value ≡ self.console }
    {
        let ConsoleAddress { at, alloc } = self;
        Block {
            at: at as *mut Console,
            alloc,
        }
    }

    /// The console at the address, lent where it lies.
    #[inline(always)]
    pub fn as_mut(&mut self) -> &mut Console
        requires { self.old.full ≡ true }
        ensures* writes_back { sem 𝓛 (LendsConsole self.entry result) }
        ensures value { result.now ≡ self.old.console }
    {
        unsafe { &mut *(self.at as *mut Console) }
    }
}
