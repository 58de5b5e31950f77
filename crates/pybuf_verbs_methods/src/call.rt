//! `call`: a method of bytes and bytearrays, by its name.
ghost use Rattle.std.specs.Prelude.{◌≡◌};
ghost use Rattle.pybuf_state.specs.Answers.{ReadsIn};
ghost use Rattle.pybuf_verbs_methods.specs.Calls as spec;

use pybuf_bytes::MethodReply;
use pybuf_command::{LocalReply, MethodCall};
use pybuf_methods::{Contents, reply_of};
use pybuf_state::Parts;
use pybuf_value::{Halt, Item, Scalar};

/// What a method answers (Python's library reference, "Bytes and Bytearray Operations"). The bytes are read
/// where they lie, and so is what the handles among the arguments name.
///
/// Refused with `UnknownName` for a vector, with `TypeError` for a wrong number of arguments, then as the
/// first argument from left to right that is refused, and then by the method's own rule.
/// Example: the method `MethodName::RFind` with `b","` on `b"a,b,c"` replies the item 3.
pub fn of_own<C: Contents>(
    parts: &Parts,
    method: &MethodCall,
    contents: &C,
) -> Result<LocalReply, Halt>
    ensures { ReadsIn parts.now (λ e. spec.call_of_own e method.now (C.pairs contents.now)) result }
{
    parts.check_string()?;
    let bytes = parts.bytes.as_slice();
    let answer = reply_of(
        parts.alloc,
        bytes,
        method.name,
        method.args.as_slice(),
        contents,
    )?;
    match answer {
        MethodReply::Bytes(bytes) => Ok(LocalReply::Bytes(bytes)),
        MethodReply::ByteLists(lists) => Ok(LocalReply::ByteLists(lists)),
        MethodReply::Truth(truth) => Ok(LocalReply::Truth(truth)),
        MethodReply::Number(number) => Ok(LocalReply::Item(Item::One(Scalar::Int(number)))),
        MethodReply::Text(text) => Ok(LocalReply::Text(text)),
    }
}
