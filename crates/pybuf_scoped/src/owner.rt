//! What owns an exporter, and lends it to scoped views.
ghost use Rattle.std.specs.Prelude.{◌≡◌, refl};
ghost use Rattle.std.specs.Borrow.{sem, Lends};
ghost use Rattle.pybuf_state.specs.Exporter.{Exporter};
ghost use Rattle.pybuf_exporter.specs.Stored.{StoredExporter};
ghost use Rattle.pybuf_exporter.specs.contracts.exporter.ExporterState as exporter_row;

use pybuf_exporter::ExporterState;
use pybuf_object::{PyByteArray, PyBytes};

/// What has an exporter of which scoped views can be made: a bytearray, bytes, and a scoped view, whose slices are views
/// of it.
/// Example: a function that takes an `O: Owner` makes a view by `View::of(owner)?`.
pub trait Owner {
    /// Its exporter.
    ghost exporter: { Self → Exporter };

    /// What it is with another exporter in place of its own.
    ghost with: { Self → StoredExporter → Self };

    /// Its exporter, lent to be read. Takes no memory.
    /// Example: of `bytearray(b"abc")` it has the bytes `b"abc"`.
    fn exporter(&self) -> &ExporterState
        ensures { result.now.exporter ≡ exporter self.now };

    /// Its exporter, lent to be changed. When the loan ends, it has the exporter that the borrower left. Takes no
    /// memory.
    /// Example: `owner.exporter_mut().add_whole()?` makes a view of all bytes by its number.
    fn exporter_mut(&mut self) -> &mut ExporterState
        ensures* writes_back { sem 𝓛 (Lends Self.row exporter_row.the_row self.entry result (with self.old)) }
        ensures value { result.now.exporter ≡ exporter self.old };

    /// The exporter that was put in is the one that it has.
    ghost has_it: { (x : Self) (s : StoredExporter) → exporter (with x s) ≡ s.exporter };
}

impl Owner for PyByteArray {
    ghost exporter = { λ e. e };

    ghost with = { λ _ s. s.exporter };

    ghost has_it = { λ _ s. refl };

    fn exporter(&self) -> &ExporterState {
        self.state()
    }

    fn exporter_mut(&mut self) -> &mut ExporterState {
        self.state_mut()
    }
}

impl Owner for PyBytes {
    ghost exporter = { λ e. e };

    ghost with = { λ _ s. s.exporter };

    ghost has_it = { λ _ s. refl };

    fn exporter(&self) -> &ExporterState {
        self.state()
    }

    fn exporter_mut(&mut self) -> &mut ExporterState {
        self.state_mut()
    }
}
