//! The invariant of a locked exporter that has a view.
ghost use Rattle.std.specs.Prelude.{◌≡◌, ◌↔◌, IfSome, IsSome, true, length};
ghost use Rattle.pybuf_state.specs.Live.{is_live};
ghost use Rattle.pybuf_locked.specs.Viewed.{HasViewMadeAt};

use crate::invariant::Invariant;
use pybuf_exporter::ExporterState;

/// The invariant of an exporter that has a view, which was made when the exporter had this length. Each command keeps
/// it (`commands_keep_views`). So whoever takes the lock while the view is unreleased finds the exporter as long as it
/// was then (`viewed_exporters_keep_their_length`).
/// Example: `ViewMadeAt { view: 0, length: 3 }` holds of a bytearray `b"abc"` of which one view was made.
#[derive(Clone, Copy)]
pub struct ViewMadeAt {
    /// The number of the view.
    pub view: usize,
    /// The length that the exporter had when the view was made.
    pub length: usize,
}

impl Invariant for ViewMadeAt {
    ghost holds = { λ fact e. HasViewMadeAt fact.view fact.length e };
}

impl ViewMadeAt {
    /// The value of an unreleased view of this number, of which and of the exporter the invariant holds. It is None
    /// exactly where there is no such view. Takes no memory.
    /// Example: of a bytearray `b"abc"` with one view it is `Some(ViewMadeAt { view: 0, length: 3 })` for the number 0.
    pub fn of_live(state: &ExporterState, view: usize) -> Option<ViewMadeAt>
        ensures holds { IfSome result (λ fact. HasViewMadeAt fact.view fact.length state.now.exporter) }
        ensures view { IfSome result (λ fact. fact.view ≡ view) }
        ensures length { IfSome result (λ fact. fact.length ≡ length state.now.exporter.bytes) }
        ensures exact { IsSome result ↔ (is_live state.now.exporter view ≡ true) }
    {
        let _ = state.exports();
        if !state.is_live(view) {
            return None;
        }
        Some(ViewMadeAt {
            view,
            length: state.bytes().len(),
        })
    }
}
