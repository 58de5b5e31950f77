//! The handle by which a program in C holds a world.
ghost use Rattle.std.specs.Prelude.{◌≡◌, true, Some, None, MatchOption};

use crate::address::ConsoleAddress;
use crate::console::Console;
use pybuf_slot::Block;
use std::alloc::Global;
use std::mem;

/// The handle by which a program in C holds a console, or none. All zeros are a handle that holds none.
/// Example: `WorldHandle::empty(alloc)` stands for a handle before a world was made.
#[repr(C)]
pub struct WorldHandle {
    pub address: ConsoleAddress,
    pub full: bool,
    ghost same: { full ≡ address.full },
}

impl Drop for WorldHandle {
    fn drop(self) {
        drop(self.into_console());
    }
}

impl WorldHandle {
    ghost use Rattle.std.specs.Borrow.{sem};
    ghost use Rattle.pybuf_world.specs.Lending.{LendsContent, lends_to_write, view_bytes};
    ghost use Rattle.pybuf_console.specs.Held.{held};
    ghost use Rattle.pybuf_console.specs.Lending.{LendsHeld, LendsHeldView};

    /// A handle that holds no console. Takes no memory.
    /// Example: `WorldHandle::empty(alloc).take(alloc)` is None.
    #[inline(always)]
    pub fn empty(alloc: Global) -> WorldHandle
        ensures { held result ≡ None }
    {
        WorldHandle {
            address: ConsoleAddress::empty(alloc),
            full: false,
        }
    }

    /// The handle of a console. Takes no memory.
    /// Example: `WorldHandle::of(console).take(alloc)` is `Some(console)`.
    #[inline(always)]
    pub fn of(console: Box<Console, Global>) -> WorldHandle
        ensures { held result ≡ Some console.value }
    {
        WorldHandle {
            address: ConsoleAddress::of(Block::of(console)),
            full: true,
        }
    }

    /// The console of the handle.
    #[inline(always)]
    fn into_console(self) -> Option<Box<Console, Global>>
        ensures { MatchOption result (held self ≡ None) (λ console. held self ≡ Some console.value) }
    {
        let WorldHandle { address, full } = self;
        if full {
            Some(address.into_block().into_box())
        } else {
            None
        }
    }

    /// Takes the console out of the handle, which holds none then. It is None where it held none. Takes no memory.
    /// Example: a second `take` is None.
    #[inline(always)]
    pub fn take(&mut self, alloc: Global) -> Option<Box<Console, Global>>
        ensures empty { held self.new ≡ None }
        ensures taken { MatchOption result (held self.old ≡ None) (λ console. held self.old ≡ Some console.value) }
    {
        mem::replace(self, WorldHandle::empty(alloc)).into_console()
    }

    /// Puts a console into the handle. One that it held is freed. Takes no memory.
    /// Example: after `handle.put(console)` `handle.take(alloc)` is `Some(console)`.
    #[inline(always)]
    pub fn put(&mut self, console: Box<Console, Global>)
        ensures { held self.new ≡ Some console.value }
    {
        *self = WorldHandle::of(console);
    }

    /// The console of a handle that holds one, lent where it lies. Takes no memory.
    /// Example: after `WorldHandle::of(console)` it lends that console.
    #[inline(always)]
    pub fn console_mut(&mut self) -> &mut Console
        requires { self.old.full ≡ true }
        ensures* writes_back { sem 𝓛 (LendsHeld self.entry result) }
        ensures value { held self.old ≡ Some result.now }
    {
        self.address.as_mut()
    }

    /// The bytes of a view of its world, lent as by `World::lent`. Takes no memory.
    /// Example: of a view of `b"abc"` it is `Some(b"abc")`.
    #[inline(always)]
    pub fn lent(&mut self, view: u64) -> Option<&[u8]>
        requires { self.old.full ≡ true }
        ensures { LendsContent self.old.address.console.world view result }
    {
        let console = self.console_mut();
        console.world().lent(view)
    }

    /// Whether the bytes of a view of its world may be lent to be written (`World::lends_to_write`). Takes no memory.
    /// Example: of a view of a bytearray it is true.
    #[inline(always)]
    pub fn lends_to_write(&mut self, view: u64) -> bool
        requires { self.old.full ≡ true }
        ensures value { result ≡ lends_to_write self.old.address.console.world view }
        ensures same { self.new.address.console ≡ self.old.address.console }
        ensures full { self.new.full ≡ true }
    {
        self.console_mut().world().lends_to_write(view)
    }

    /// The bytes of such a view, lent to be written (`World::lent_mut`). Takes no memory.
    /// Example: after `handle.lent_mut(1)[0] = b'A'` the first byte of the view `h1` is 65.
    #[inline(always)]
    pub fn lent_mut(&mut self, view: u64) -> &mut [u8]
        requires full { self.old.full ≡ true }
        requires writable { lends_to_write self.old.address.console.world view ≡ true }
        ensures* writes_back { sem 𝓛 (LendsHeldView self.entry view result) }
        ensures value { result.now ≡ view_bytes self.old.address.console.world view }
    {
        let console = self.console_mut();
        let world = console.world_mut();
        world.lent_mut(view)
    }
}
