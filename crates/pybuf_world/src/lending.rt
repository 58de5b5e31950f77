//! The bytes of a view, lent where they lie.
ghost use Rattle.std.specs.Prelude.{◌≡◌, true, slice_get, Some};
ghost use Rattle.pybuf_world.specs.Lending.{LendsRunOfView, is_writable_in};

use crate::named::Named;
use crate::tables::Tables;
use pybuf_exporter::ExporterState;

/// The bytes of a view, if it is unreleased and its items lie one after the other.
fn run_of(exporter: &ExporterState, view: usize) -> Option<&[u8]>
    ensures { LendsRunOfView exporter.now.exporter view result }
{
    if !exporter.is_live(view) {
        return None;
    }
    exporter.contiguous_bytes(view)
}

/// Whether the bytes of a view may be lent to be written.
fn is_writable(exporter: &ExporterState, view: usize) -> bool
    ensures { result ≡ is_writable_in (Some exporter.now.exporter) view }
{
    exporter.is_live(view) && exporter.is_writable_run(view)
}

impl Tables {
    ghost use Rattle.pybuf_world.specs.Tables.{world_of};
    ghost use Rattle.pybuf_world.specs.declared.named.Named.TheVariants as named;
    ghost use Rattle.pybuf_world.specs.Lending as spec;

    /// The bytes of the view that a handle names, if it is unreleased and its items lie one after the other.
    pub fn lent(&self, handle: u64) -> Option<&[u8]>
        ensures { spec.LendsContent (world_of self.now) handle result }
    {
        let named = self.handles.get(handle as usize).copied();
        let Some(Named::View { exporter, view }) = named else {
            return None;
        };
        match self.exporters.get(exporter) {
            Some(exporter) => run_of(exporter, view),
            None => None,
        }
    }

    /// Whether the bytes of the view that a handle names may be lent to be written.
    pub fn lends_to_write(&self, handle: u64) -> bool
        ensures { result ≡ spec.lends_to_write (world_of self.now) handle }
    {
        let named = self.handles.get(handle as usize).copied();
        let Some(Named::View { exporter, view }) = named else {
            return false;
        };
        match self.exporters.get(exporter) {
            Some(exporter) => is_writable(exporter, view),
            None => false,
        }
    }

    /// The numbers of such a view and of its exporter.
    pub fn place_to_write(&self, handle: u64) -> (usize, usize)
        requires { spec.lends_to_write (world_of self.now) handle ≡ true }
        ensures { slice_get self.now.handles.items handle ≡ Some (named.View result.0 result.1) }
    {
        match self.handles.get(handle as usize).copied() {
            Some(Named::View { exporter, view }) => (exporter, view),
            _ => unreachable!(),
        }
    }
}
