//! `contig`: a copy of a view's items, one after the other, of which a new exporter is made.
ghost use Rattle.pybuf_state.specs.Answers.{IsWhole, ReadsIn};
ghost use Rattle.pybuf_verbs_views.specs.Contiguous.{contiguous_of_view};

use pybuf_command::LocalReply;
use pybuf_memoryview::snap_of_copy;
use pybuf_state::Parts;
use pybuf_value::Halt;

/// A copy of a view's items, one after the other. Refused with `UnknownName` for a view that was never given, and
/// with `ValueError` for a released one.
/// Example: of the view `memoryview(b"abcdef")[::-2]` it replies a `Snap` with the content `b"fdb"`.
pub fn of_view(parts: &Parts, view: usize) -> Result<LocalReply, Halt>
    requires { IsWhole parts.now }
    ensures { ReadsIn parts.now (λ e. contiguous_of_view e view) result }
{
    let layout = parts.live_layout(view)?;
    let snap = snap_of_copy(parts.alloc, parts.bytes.as_slice(), layout)?;
    Ok(LocalReply::Fresh(snap))
}
