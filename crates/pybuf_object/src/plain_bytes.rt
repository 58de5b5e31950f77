//! `PyBytes` by plain arguments: each call makes no value, no loan and no reply.
ghost use Rattle.std.specs.Prelude.{◌≡◌, length, IfOk};
ghost use Rattle.pybuf_command.specs.declared.kinds.ExporterKind.TheVariants as kinds;
ghost use Rattle.pybuf_state.specs.Exporter.{new_exporter};
ghost use Rattle.pybuf_object.specs.Plain as spec;

use crate::bytes::PyBytes;
use crate::slices;
use pybuf_value::{Halt, Made};
use std::alloc::Global;

impl PyBytes {
    /// The `bytes` of a vector, and no view of it. Takes no memory.
    /// Example: of a vector of the bytes 97 and 98 it is `b"ab"`.
    pub fn from_vec(alloc: Global, bytes: Vec<u8>) -> PyBytes
        ensures { result ≡ new_exporter kinds.Bytes bytes.items }
    {
        PyBytes::new_ref(alloc, bytes)
    }

    /// The `bytes` of a copy of bytes, and no view of it.
    /// Example: `PyBytes::from_slice(alloc, b"abc")?` is `b"abc"`.
    pub fn from_slice(alloc: Global, bytes: &[u8]) -> Made<PyBytes>
        ensures { IfOk result (λ made. made ≡ new_exporter kinds.Bytes bytes.now) }
    {
        Ok(PyBytes::new_ref(alloc, Vec::from_slice(alloc, bytes)?))
    }

    /// The `bytes` of a copy of these bytes, and no view of it.
    /// Example: the copy of `b"abc"` is `b"abc"`, and `exports` of it is 0.
    pub fn try_clone(&self, alloc: Global) -> Made<PyBytes>
        ensures { IfOk result (λ made. made ≡ new_exporter kinds.Bytes self.now.bytes) }
    {
        PyBytes::from_slice(alloc, self.as_slice())
    }

    /// The bytes, lent without a copy. Takes no memory.
    /// Example: of `b"abc"` it is `b"abc"`.
    pub fn as_slice(&self) -> &[u8]
        ensures { result.now ≡ self.now.bytes }
    {
        self.exporter.bytes()
    }

    /// The number of bytes, as `len`. Takes no memory.
    /// Example: of `b"abc"` it is 3.
    pub fn byte_count(&self) -> usize
        ensures { result ≡ length self.now.bytes }
    {
        self.exporter.bytes().len()
    }

    /// The byte that an index names, where a negative one counts from the end; It is None exactly where there is no
    /// such byte. Takes no memory.
    /// Example: of `b"abc"` the index -1 gets `Some(99)`, and the index 3 gets None.
    pub fn get(&self, index: isize) -> Option<u8>
        ensures { result ≡ spec.byte_at self.now.bytes index }
    {
        slices::byte_at(self.exporter.bytes(), index)
    }

    /// The bytes that the slice `start:stop:step` picks, where None stands for what isn't written.
    ///
    /// Refused with `ValueError` exactly where the step is 0.
    /// Example: of `b"abcdef"`, `slice(alloc, None, None, Some(-2))?` has the bytes `b"fdb"`.
    pub fn slice(
        &self,
        alloc: Global,
        start: Option<isize>,
        stop: Option<isize>,
        step: Option<isize>,
    ) -> Result<Vec<u8>, Halt>
        ensures { spec.GivesBytes (spec.bytes_of_slice self.now.bytes start stop step) result }
    {
        slices::bytes_of_slice(alloc, self.exporter.bytes(), start, stop, step)
    }
}
