//! The numbers that calls answer.
ghost use Rattle.std.specs.Prelude.{◌≡◌};
ghost use Rattle.pybuf_c.specs.Status as spec;

use pybuf_crossing::Handed;
use pybuf_value::Fault;

/// Done.
pub const OK: u32 = 0;
/// Memory ran out.
pub const NO_MEMORY: u32 = 1;
/// The handle holds no world.
pub const NO_WORLD: u32 = 2;
/// The room is too small.
pub const TOO_SMALL: u32 = 3;
/// A line is no command.
pub const BAD_LINE: u32 = 4;
/// There is no such reply, or it is of another kind.
pub const NOTHING: u32 = 5;
/// A number that is passed stands for nothing, or a text is no UTF-8.
pub const BAD_ARGUMENT: u32 = 6;
/// The handle holds no format.
pub const NO_FORMAT: u32 = 9;

/// The number of a refusal.
#[inline(always)]
pub fn fault_number(fault: Fault) -> u32
    ensures { result ≡ spec.fault_number fault }
{
    match fault {
        Fault::Index => 16,
        Fault::Value => 17,
        Fault::Kind => 18,
        Fault::Buffer => 19,
        Fault::Struct => 20,
        Fault::Overflow => 21,
        Fault::NotImplemented => 22,
        Fault::UnknownName => 23,
    }
}

/// The number of a reply to a command.
#[inline(always)]
pub fn answer_number(refusal: Option<Fault>) -> u32
    ensures { result ≡ spec.answer_number refusal }
{
    match refusal {
        None => OK,
        Some(fault) => fault_number(fault),
    }
}

/// The number of what became of a text.
pub fn handed_number(handed: Handed) -> u32
    ensures { result ≡ spec.handed_number handed }
{
    match handed {
        Handed::Whole => OK,
        Handed::NoMemory => NO_MEMORY,
        Handed::TooSmall => TOO_SMALL,
        Handed::Nothing => NOTHING,
    }
}
