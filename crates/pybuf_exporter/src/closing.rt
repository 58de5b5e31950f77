//! How a command ends: a refusal is a reply, and changes nothing.
ghost use Rattle.std.specs.Prelude.{◌≡◌, Err, OnOk, OnErr};
ghost use Rattle.pybuf_value.specs.declared.halt.Halt.TheVariants as halts;
ghost use Rattle.pybuf_exporter.specs.Stepping.{Closes, ClosesOnErr};

use pybuf_command::LocalReply;
use pybuf_value::{Halt, Made, NoMemory};

/// The reply of a command by what its effect answered.
pub fn closed(answer: Result<LocalReply, Halt>) -> Made<LocalReply>
    ensures ok { Closes answer result }
    ensures done { OnOk result (answer ≡ Err halts.NoMemory → ⊥) }
    ensures memory { OnErr result (answer ≡ Err halts.NoMemory) }
    ensures err { ClosesOnErr answer result }
{
    match answer {
        Ok(reply) => Ok(reply),
        Err(Halt::Refused(fault)) => Ok(LocalReply::Refused(fault)),
        Err(Halt::NoMemory) => Err(NoMemory),
    }
}
