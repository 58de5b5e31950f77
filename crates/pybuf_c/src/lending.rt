//! The bytes of a view, lent where they lie.
ghost use Rattle.std.specs.Prelude.{◌≡◌, ◌⊎◌, None};
ghost use Rattle.pybuf_console.specs.Held.{held};
ghost use Rattle.pybuf_c.specs.Lending.{IsLent, IsNotLent, IsLentToWrite, IsNotLentToWrite};

use crate::status::{NO_WORLD, NOTHING, OK};
use pybuf_console::WorldHandle;

/// Bytes that may be read. In C they are a pointer and a length.
/// Example: of a view of `b"abc"` they are three bytes.
#[repr(C)]
pub struct LentToRead<'a> {
    /// The bytes, where they lie.
    pub bytes: &'a [u8],
}

/// Bytes that may be written. In C they are a pointer and a length.
/// Example: of a view of `bytearray(b"abc")` they are three bytes.
#[repr(C)]
pub struct LentToWrite<'a> {
    /// The bytes, where they lie.
    pub bytes: &'a mut [u8],
}

/// Lends the bytes of a view, to be read where they lie. It answers 5 exactly where the object is no unreleased view, or its
/// items don't lie one after the other. Nothing is changed, and no memory is taken.
/// Example: of a view of `b"abc"` it lends `b"abc"`.
#[unsafe(no_mangle)]
pub extern "C" fn pybuf_proved_lend<'a>(
    handle: &'a mut WorldHandle,
    view: u64,
    out: &mut LentToRead<'a>,
) -> u32
    ensures lent { result ≡ 0 → IsLent view (held handle.old) out.new.bytes.now }
    ensures none { result ≡ 2 → held handle.old ≡ None }
    ensures nothing { result ≡ 5 → IsNotLent view (held handle.old) }
    ensures status { (result ≡ 0) ⊎ (result ≡ 2) ⊎ (result ≡ 5) }
{
    if !handle.full {
        return NO_WORLD;
    }
    let Some(bytes) = handle.lent(view) else {
        return NOTHING;
    };
    out.bytes = bytes;
    OK
}

/// Lends the bytes of a view, to be written where they lie. It answers 5 exactly where the object is no unreleased view, its
/// items don't lie one after the other, or they may only be read. Nothing is changed, and no memory is taken.
/// Example: of a view of `bytearray(b"abc")` it lends `b"abc"`, and of one of `bytes` it answers 5.
#[unsafe(no_mangle)]
pub extern "C" fn pybuf_proved_lend_to_write<'a>(
    handle: &'a mut WorldHandle,
    view: u64,
    out: &mut LentToWrite<'a>,
) -> u32
    ensures lent { result ≡ 0 → IsLentToWrite view (held handle.old) out.new.bytes.now }
    ensures none { result ≡ 2 → held handle.old ≡ None }
    ensures nothing { result ≡ 5 → IsNotLentToWrite view (held handle.old) }
    ensures status { (result ≡ 0) ⊎ (result ≡ 2) ⊎ (result ≡ 5) }
{
    if !handle.full {
        return NO_WORLD;
    }
    if !handle.lends_to_write(view) {
        return NOTHING;
    }
    out.bytes = handle.lent_mut(view);
    OK
}
