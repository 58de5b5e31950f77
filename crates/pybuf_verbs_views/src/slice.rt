//! `get` of a view by a slice: a new view of the items that the slice picks.
ghost use Rattle.std.specs.Prelude.{◌≡◌};
ghost use Rattle.pybuf_state.specs.Exporter.{exports_of};
ghost use Rattle.pybuf_state.specs.Answers.{exporter_of, IsWhole, AnswersIn, as_view};
ghost use Rattle.pybuf_verbs_views.specs.Slice.{slice_of_view};

use pybuf_command::LocalReply;
use pybuf_index::SaturatedSlice;
use pybuf_state::Parts;
use pybuf_value::{Fault, Halt, PySlice};

/// A view of the items that a slice picks, along the first dimension. The answer is its number. It is refused as
/// `of_view` is. Nothing is changed then, nor where memory runs out.
/// Example: of a view of `b"abcdef"` the slice `1:4` gives the number of a view of `b"bcd"`.
pub fn add(parts: &mut Parts, view: usize, slice: &PySlice) -> Result<usize, Halt>
    requires { IsWhole parts.old }
    ensures answer { AnswersIn parts.old (λ e. slice_of_view e view slice.now) (as_view result) parts.new }
    ensures counted { parts.new.exports ≡ exports_of (exporter_of parts.new) }
    ensures room { parts.new.bytes.room ≡ parts.old.bytes.room }
{
    let layout = parts.live_layout(view)?;
    if layout.ndim() == 0 {
        return Err(Halt::Refused(Fault::Kind));
    }
    let slice = SaturatedSlice::with_slice(slice)?;
    let layout = layout.sliced(parts.alloc, slice)?;
    parts.push_view(layout)
}

/// A view of the items that a slice picks, along the first dimension. The reply is its number.
///
/// Refused with `UnknownName` for a view that was never given, and with `ValueError` for a released one; then with
/// `TypeError` where it has no dimension; and then as `SaturatedSlice::with_slice` refuses the slice. Nothing is
/// changed then, nor where memory runs out.
/// Example: of a view of `b"abcdef"` the slice `::-2` gives a view of `b"fdb"`.
pub fn of_view(parts: &mut Parts, view: usize, slice: &PySlice) -> Result<LocalReply, Halt>
    requires { IsWhole parts.old }
    ensures answer { AnswersIn parts.old (λ e. slice_of_view e view slice.now) result parts.new }
    ensures counted { parts.new.exports ≡ exports_of (exporter_of parts.new) }
    ensures room { parts.new.bytes.room ≡ parts.old.bytes.room }
{
    let number = add(parts, view, slice)?;
    Ok(LocalReply::View(number))
}
