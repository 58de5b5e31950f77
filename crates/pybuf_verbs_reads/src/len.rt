//! `len`: the number of items.
ghost use Rattle.std.specs.Prelude.{◌≡◌};
ghost use Rattle.pybuf_state.specs.Answers.{IsWhole, ReadsIn};
ghost use Rattle.pybuf_verbs_reads.specs.Len as spec;

use pybuf_command::LocalReply;
use pybuf_state::Parts;
use pybuf_value::{Fault, Halt, Item, Scalar};

/// A count as an item. Takes no memory.
/// Example: `count_item(3)` is `Item::One(Scalar::Int(3))`.
pub fn count_item(count: usize) -> Item
    ensures { result ≡ spec.count_item count }
{
    Item::One(Scalar::Int(count as i128))
}

/// The number of bytes. It is never refused.
/// Example: of `b"abc"` it replies the item 3.
pub fn of_own(parts: &Parts) -> Result<LocalReply, Halt>
    ensures { ReadsIn parts.now spec.len_of_own result }
{
    Ok(LocalReply::Item(count_item(parts.bytes.len())))
}

/// The first entry of a view's shape. Refused with `UnknownName` for a view that was never given, with `ValueError`
/// for a released one, and then with `TypeError` where it has no dimension.
/// Example: of a view in the shape `(2, 3)` it replies the item 2.
pub fn of_view(parts: &Parts, view: usize) -> Result<LocalReply, Halt>
    requires { IsWhole parts.now }
    ensures { ReadsIn parts.now (λ e. spec.len_of_view e view) result }
{
    let layout = parts.live_layout(view)?;
    if layout.ndim() == 0 {
        return Err(Halt::Refused(Fault::Kind));
    }
    Ok(LocalReply::Item(count_item(layout.first_entry())))
}
