//! Views of one field of each record of an exporter's bytes.
ghost use Rattle.std.specs.Prelude.{◌≡◌, IfOk, OnErr};

use crate::field_place::find_field;
use crate::records::Records;
use pybuf_buffer::PyBuffer;
use pybuf_exporter::ExporterState;
use pybuf_value::{Fault, Outcome, Tried};
use std::alloc::Global;

impl Records {
    ghost use Rattle.pybuf_table.specs.FieldViews.{IsFieldView};

    /// The view of a field of each record of the exporter's bytes. It is one more view, which is counted, and its
    /// item k is the field of record k. Its format is the prefix of the records' format, if there is one, and the
    /// field's code, for `s` and `p` behind the field's length. It may only be read exactly where the exporter may.
    ///
    /// Refused with `IndexError` exactly where there is no such field; then with `StructError` exactly where the
    /// number of bytes is no multiple of a record's size; then with `ValueError` exactly where the field has length
    /// 0. Where it is refused, or memory runs out, the exporter is as before.
    /// Example: of `<4sH` and the bytes `b"ada\0\x05\0bob\0\x07\0"` the view of the field 1 has the items 5 and 7.
    pub fn field_view(
        &self,
        alloc: Global,
        state: &mut ExporterState,
        field: usize,
    ) -> Tried<PyBuffer>
        ensures ok { IfOk result (λ made. IsFieldView self.now field state.old.exporter state.new.exporter made) }
        ensures err { OnErr result (state.new ≡ state.old) }
        ensures room { state.new.room ≡ state.old.room }
    {
        pybuf_struct::formats_read_back();
        let _ = self.text();
        let Some(place) = find_field(self.format(), field) else {
            return Ok(Outcome::Refused(Fault::Index));
        };
        let len = state.bytes().len();
        let size = self.size();
        if len % size != 0 {
            return Ok(Outcome::Refused(Fault::Struct));
        }
        if place.length == 0 {
            return Ok(Outcome::Refused(Fault::Value));
        }
        let readonly = state.kind().is_readonly();
        let descriptor = self.field_descriptor(alloc, place, len / size, readonly)?;
        let view = state.add_view(descriptor, place.offset)?;
        Ok(Outcome::Done(PyBuffer::of(view)))
    }
}
