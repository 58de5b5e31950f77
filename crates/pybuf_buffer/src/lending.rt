//! The bytes of an exporter, lent to be written.
//!
//! Each of these takes the exporter first: only of such a function is it shown without a proof by hand
//! what a write through the loan leaves.
ghost use Rattle.std.specs.Prelude.{◌≡◌, true, false};
ghost use Rattle.std.specs.Borrow.{sem};
ghost use Rattle.pybuf_desc.specs.Items.{content_of_layout};
ghost use Rattle.pybuf_state.specs.Live.{is_live, layout_of, is_writable_run};
ghost use Rattle.pybuf_exporter.specs.Lending.{LendsBytes, LendsRunOf};

use pybuf_exporter::ExporterState;
use pybuf_state::live_layouts_are_sound;

/// Whether the items of an unreleased view lie one after the other and may be written. The exporter
/// stays as it is; it is taken as it is lent on afterwards.
pub(crate) fn has_writable_run(state: &mut ExporterState, view: usize) -> bool
    requires { is_live state.old.exporter view ≡ true }
    ensures answer { result ≡ is_writable_run (layout_of state.old.exporter view) }
    ensures same { state.new ≡ state.old }
{
    state.is_writable_run(view)
}

/// The bytes of such a view.
pub(crate) fn writable_run(state: &mut ExporterState, view: usize) -> &mut [u8]
    requires live { is_live state.old.exporter view ≡ true }
    requires writable { is_writable_run (layout_of state.old.exporter view) ≡ true }
    ensures* writes_back { sem 𝓛 (LendsRunOf state.entry view result) }
    ensures value { result.now ≡ content_of_layout state.old.exporter.bytes (layout_of state.old.exporter view) }
{
    state.contiguous_bytes_mut(view)
}

/// All bytes of the exporter of an unreleased view that isn't read-only.
pub(crate) fn all_bytes(state: &mut ExporterState, view: usize) -> &mut [u8]
    requires live { is_live state.old.exporter view ≡ true }
    requires writable { (layout_of state.old.exporter view).readonly ≡ false }
    ensures* writes_back { sem 𝓛 (LendsBytes state.entry result) }
    ensures value { result.now ≡ state.old.exporter.bytes }
{
    live_layouts_are_sound();
    let _exports = state.exports();
    state.bytes_mut()
}
