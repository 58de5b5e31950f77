//! `tolist`: the items of a view.
ghost use Rattle.pybuf_state.specs.Answers.{IsWhole, ReadsIn};
ghost use Rattle.pybuf_verbs_reads.specs.ToList.{list_of_view};

use crate::lists::{items_of, list_shape};
use pybuf_command::LocalReply;
use pybuf_state::{Parts, content_lent};
use pybuf_value::Halt;

/// The items of a view, in order, with the shape that they are nested by, which is one entry where the view has no
/// dimension. Refused with `UnknownName` for a view that was never given, and with `ValueError` for a released one.
/// Items that lie apart are gathered before, by the loops of `bytes`.
/// Example: of a view of `b"Abc"` it replies the shape 3 and the items 65, 98 and 99.
pub fn of_view(parts: &Parts, view: usize) -> Result<LocalReply, Halt>
    requires { IsWhole parts.now }
    ensures { ReadsIn parts.now (λ e. list_of_view e view) result }
{
    let layout = parts.live_layout(view)?;
    let shape = list_shape(parts.alloc, layout)?;
    let content = content_lent(parts.alloc, parts.bytes.as_slice(), layout)?;
    let items = items_of(parts.alloc, layout, content.as_slice())?;
    Ok(LocalReply::Items { shape, items })
}
