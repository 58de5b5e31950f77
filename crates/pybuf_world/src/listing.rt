//! The exporters of a world, in a list.
ghost use Rattle.std.specs.Prelude.{◌≡◌, ◌<◌, ◌++◌, [], ◌∷◌, length, set, slice_get, Some, OnOk, OnErr};
ghost use Rattle.std.specs.Option.{option_copied};
ghost use Rattle.pybuf_world.specs.World.{GivesOrRefuses};

use pybuf_exporter::ExporterState;
use pybuf_value::{Fault, Made};
use std::alloc::Global;
use std::marker::Model;
use std::mem;

/// Exporters, in the order in which they were made. A clause sees each without the room before its bytes: nothing is
/// said of the room of what a world keeps.
/// Example: the list that `World` keeps after `new bytearray x6162` stands for one exporter, with the bytes `b"ab"`.
#[derive(Debug, Drop)]
pub struct ExporterList {
    exporters: Vec<ExporterState>,
}

impl Model for ExporterList {
    ghost use Rattle.std.specs.Prelude.{List};
    ghost use Rattle.pybuf_state.specs.Exporter.{Exporter};
    ghost use Rattle.pybuf_world.specs.Listing.{exporters_of};

    ghost Value = { List Exporter };

    ghost view = { λ l. exporters_of l.exporters.items };
}

/// The exporter of a number among others.
fn nth(exporters: &[ExporterState], number: usize) -> Option<&ExporterState>
    ensures { option_copied result ≡ slice_get exporters.now number }
{
    exporters.get(number)
}

impl ExporterList {
    ghost use Rattle.std.specs.Borrow.{sem};
    ghost use Rattle.pybuf_world.specs.Lending.{LendsNth};
    ghost use Rattle.pybuf_world.specs.Listing.{exporters_of, lent_exporter, released_among};

    /// No exporters. Takes no memory.
    /// Example: `ExporterList::new(alloc).len()` is 0.
    pub fn new(alloc: Global) -> ExporterList
        ensures { result ≡ [] }
    {
        ExporterList {
            exporters: Vec::new(alloc),
        }
    }

    /// The number of exporters.
    /// Example: after one `push` onto an empty list it is 1.
    pub fn len(&self) -> usize
        ensures { result ≡ length self.now }
    {
        self.exporters.len()
    }

    /// The exporters, in order.
    /// Example: of an empty list it is an empty slice.
    pub fn as_slice(&self) -> &[ExporterState]
        ensures { exporters_of result.now ≡ self.now }
    {
        self.exporters.as_slice()
    }

    /// The exporter of a number. It is None exactly where there is none.
    /// Example: of an empty list `get(0)` is None.
    pub fn get(&self, number: usize) -> Option<&ExporterState>
        ensures { lent_exporter result ≡ slice_get self.now number }
    {
        nth(self.exporters.as_slice(), number)
    }

    /// The exporter of a number, lent to be changed.
    /// Example: `list.nth_mut(0).bytes_mut()` lends the bytes of the first one.
    pub fn nth_mut(&mut self, number: usize) -> &mut ExporterState
        requires { number < length self.old }
        ensures* writes_back { sem 𝓛 (LendsNth self.entry number result) }
        ensures value { slice_get self.old number ≡ Some result.now.exporter }
    {
        &mut self.exporters[number]
    }

    /// Adds an exporter behind all others. Where memory runs out, nothing is changed.
    /// Example: the first exporter that is pushed has the number 0.
    pub fn push(&mut self, exporter: ExporterState) -> Made<()>
        ensures ok { OnOk result (self.new ≡ self.old ++ exporter.exporter ∷ []) }
        ensures err { OnErr result (self.new ≡ self.old) }
    {
        self.exporters.push(exporter)?;
        Ok(())
    }

    /// Puts another exporter in place of the one of a number, which is handed out.
    /// Example: `list.replace(0, ExporterState::empty(alloc))` hands out the exporter 0, and leaves one without bytes there.
    pub fn replace(&mut self, number: usize, exporter: ExporterState) -> ExporterState
        requires { number < length self.old }
        ensures value { slice_get self.old number ≡ Some result.exporter }
        ensures items { self.new ≡ set self.old number exporter.exporter }
    {
        mem::replace(&mut self.exporters[number], exporter)
    }

    /// Puts an exporter in place of the one of a number.
    /// Example: after `list.put(0, exporter)` `list.get(0)` lends that exporter.
    pub fn put(&mut self, number: usize, exporter: ExporterState)
        requires { number < length self.old }
        ensures { self.new ≡ set self.old number exporter.exporter }
    {
        self.exporters[number] = exporter;
    }

    /// Releases a view of the exporter of a number. Releasing it again changes nothing. Takes no memory.
    ///
    /// Refused with `UnknownName` exactly where the view was never given. Nothing is changed then.
    /// Example: `list.release_view(0, 0)` is `Err(Fault::UnknownName)` where the exporter 0 has no view.
    pub fn release_view(&mut self, number: usize, view: usize) -> Result<(), Fault>
        requires { number < length self.old }
        ensures exact { GivesOrRefuses (released_among self.old number view (slice_get self.old number)) self.new result }
        ensures err { OnErr result (self.new ≡ self.old) }
    {
        let holder = &mut self.exporters[number];
        holder.release_view(view)
    }
}
