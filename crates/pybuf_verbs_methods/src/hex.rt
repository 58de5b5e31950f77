//! `hex`: the bytes of a view as hexadecimal digits.
ghost use Rattle.std.specs.Option.{option_copied};
ghost use Rattle.pybuf_state.specs.Answers.{IsWhole, ReadsIn};
ghost use Rattle.pybuf_verbs_methods.specs.Calls as spec;

use pybuf_command::LocalReply;
use pybuf_methods::{Contents, hex_of};
use pybuf_state::{Parts, content_lent};
use pybuf_value::{Halt, Value};

/// The digits of a view's bytes, of which the last dimension runs fastest, with a separator between groups
/// where one is given (Python's library reference, `memoryview.hex`). Bytes that lie together are read from
/// there, and others are gathered before.
///
/// Refused with `UnknownName` for a view that was never given, with `ValueError` for a released one, and then
/// as `hex_of` refuses the separator and the size of a group.
/// Example: of a view of `b"Abc"` with the separator `':'` it replies the text `41:62:63`.
pub fn of_view<C: Contents>(
    parts: &Parts,
    view: usize,
    sep: &Option<Value>,
    group: &Option<Value>,
    contents: &C,
) -> Result<LocalReply, Halt>
    requires { IsWhole parts.now }
    ensures { ReadsIn parts.now (λ e. spec.hex_of_view e view sep.now group.now (C.pairs contents.now)) result }
{
    pybuf_state::live_layouts_are_sound();
    let layout = parts.live_layout(view)?;
    let bytes = content_lent(parts.alloc, parts.bytes.as_slice(), layout)?;
    let text = hex_of(
        parts.alloc,
        bytes.as_slice(),
        sep.as_ref(),
        group.as_ref(),
        contents,
    )?;
    Ok(LocalReply::Text(text))
}
