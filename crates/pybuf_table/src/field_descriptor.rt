//! What is kept of a view of one field of each record.
ghost use Rattle.std.specs.Prelude.{◌≡◌, ◌+◌, ◌*◌, ◌≤◌, ◌<◌, ◌^◌, IfOk};
ghost use Rattle.pybuf_table.specs.FieldViews.{field_descriptor};

use crate::field_place::FieldPlace;
use crate::field_text::field_text;
use crate::records::Records;
use pybuf_desc::BufferDescriptor;
use pybuf_value::{DimList, Made};
use std::alloc::Global;

/// The number of bytes of so many fields.
#[tactic(auto, using(crate::proofs::FieldViewLemmas::fields_fit))]
fn bytes_of_fields(count: usize, length: usize, size: usize) -> usize
    requires short { length ≤ size }
    requires fits { count * size < 2 ^ 63 }
    ensures { result ≡ count * length }
{
    let _ = size;
    count * length
}

impl Records {
    /// What is kept of the view of a field of so many records.
    pub(crate) fn field_descriptor(
        &self,
        alloc: Global,
        place: FieldPlace,
        count: usize,
        readonly: bool,
    ) -> Made<BufferDescriptor>
        requires inside { place.offset + place.length ≤ self.now.format.size }
        requires fits { count * self.now.format.size < 2 ^ 63 }
        ensures { IfOk result (λ d. d ≡ field_descriptor self.now place count readonly) }
    {
        let size = self.size();
        let format = field_text(alloc, self.text().as_slice(), place)?;
        let mut dims = DimList::new(alloc);
        dims.push((count, size as isize, 0))?;
        let len = bytes_of_fields(count, place.length, size);
        Ok(BufferDescriptor::raw(len, readonly, place.length, format, dims))
    }
}
