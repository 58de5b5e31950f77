//! A vector of bytes that lends them.
ghost use Rattle.std.specs.Prelude.{◌≡◌, true, false, length, IfOk, IfErr, OnErr, MatchResult};
ghost use Rattle.std.specs.Borrow.{sem};
ghost use Rattle.pybuf_value.specs.declared.faults.Fault.{Fault};
ghost use Rattle.pybuf_command.specs.declared.kinds.ExporterKind.TheVariants as kinds;
ghost use Rattle.pybuf_desc.specs.Layouts.{bytes_layout};
ghost use Rattle.pybuf_state.specs.Exporter.{new_exporter, exports_of};
ghost use Rattle.pybuf_state.specs.Resizing.{has_exports};
ghost use Rattle.pybuf_buffer.specs.Making.{GainsView};

use crate::views::add_all;
use pybuf_buffer::PyBuffer;
use pybuf_command::ExporterKind;
use pybuf_desc::BufferDescriptor;
use pybuf_exporter::ExporterState;
use pybuf_value::{ByteList, Fault, Made, Tried};
use std::alloc::Global;
use std::marker::Model;
use std::mem;

/// A vector of bytes that lends them in buffers, and gives them back once no buffer is unreleased.
///
/// A clause sees its exporter. Any other exporter can be put in through `state_mut`, so the calls that
/// take the bytes or lend them have the condition that it is a vector which may be written.
/// Example: `VecBuffer::from(alloc, bytes)` of the bytes `b"abc"` stands for a vector of three bytes, of which none is lent.
#[derive(Debug, Drop)]
pub struct VecBuffer {
    exporter: ExporterState,
    alloc: Global,
}

impl Model for VecBuffer {
    ghost use Rattle.pybuf_state.specs.Exporter.{Exporter};

    ghost Value = { Exporter };

    ghost view = { λ b. b.exporter.exporter };
}

impl VecBuffer {
    ghost use Rattle.pybuf_buffer.specs.Making.{IsBufferBy};
    ghost use Rattle.pybuf_memoryobject.specs.Lending.{LendsStateOfVector, emptied};

    /// A vector of these bytes, which may be written, and no buffer of it. Takes no memory.
    /// Example: of a vector of the bytes `b"abc"` its `state().bytes()` is `b"abc"`.
    pub fn from(alloc: Global, bytes: Vec<u8>) -> VecBuffer
        ensures { result ≡ new_exporter (kinds.Vector false) bytes.items }
    {
        let kind = ExporterKind::Vector { readonly: false };
        let exporter = ExporterState::new(alloc, kind, ByteList::from_vec(bytes));
        VecBuffer { exporter, alloc }
    }

    /// Its exporter, lent to be read. Takes no memory.
    /// Example: `vector.state().kind()` of a new one is `ExporterKind::Vector { readonly: false }`.
    pub fn state(&self) -> &ExporterState
        ensures { result.now.exporter ≡ self.now }
    {
        &self.exporter
    }

    /// Its exporter, lent to be changed: through it a buffer is released. Takes no memory.
    /// Example: `lent.release(vector.state_mut())` releases a buffer that `into_pybuffer` made.
    pub fn state_mut(&mut self) -> &mut ExporterState
        ensures* writes_back { sem 𝓛 (LendsStateOfVector self.entry result) }
        ensures value { result.now.exporter ≡ self.old }
    {
        &mut self.exporter
    }

    /// Takes out the bytes. The vector is empty then, and its views stay released. Takes no memory.
    ///
    /// Refused with `BufferError` exactly where a view is unreleased. Nothing is changed then.
    /// Example: of `b"abc"` it gives these bytes once the only buffer is released, and is `Err(Fault::Buffer)` before.
    pub fn take(&mut self) -> Result<Vec<u8>, Fault>
        requires { self.old.kind ≡ kinds.Vector false }
        ensures free { MatchResult result (λ _. exports_of self.old ≡ 0) (λ _. has_exports self.old ≡ true) }
        ensures bytes { IfOk result (λ bytes. bytes.items ≡ self.old.bytes) }
        ensures after { MatchResult result (λ _. self.new ≡ emptied self.old) (λ _. self.new ≡ self.old) }
        ensures fault { IfErr result (λ fault. fault ≡ Fault.Buffer) }
    {
        let empty = Vec::new(self.alloc);
        match self.exporter.resizable() {
            Ok(bytes) => Ok(mem::replace(bytes, empty)),
            Err(fault) => Err(fault),
        }
    }

    /// A buffer of all the bytes, as items of one byte in one dimension. It is one more view, which may be written
    /// unless `readonly` is true. Where memory runs out, nothing is changed.
    /// Example: of a new vector it is `PyBuffer::of(0)`.
    pub fn into_pybuffer(&mut self, readonly: bool) -> Made<PyBuffer>
        requires { self.old.kind ≡ kinds.Vector false }
        ensures ok { GainsView (bytes_layout (length self.old.bytes) readonly) self.old result self.new }
        ensures err { OnErr result (self.new ≡ self.old) }
    {
        let view = add_all(self.alloc, &mut self.exporter, readonly)?;
        Ok(PyBuffer::of(view))
    }

    /// A buffer by a descriptor whose first item lies at place 0. It is one more view.
    ///
    /// Refused as `PyBuffer::new` refuses it. Where it is refused, or memory runs out, nothing is changed.
    /// Example: `raw(3, false, 1, format, dims)` with the format `B` and the dimension `(3, 1, 0)` lends three bytes.
    pub fn into_pybuffer_with_descriptor(&mut self, desc: BufferDescriptor) -> Tried<PyBuffer>
        requires { self.old.kind ≡ kinds.Vector false }
        ensures ok { IfOk result (λ made. IsBufferBy self.old desc 0 self.new made) }
        ensures err { OnErr result (self.new ≡ self.old) }
    {
        PyBuffer::new(self.alloc, &mut self.exporter, desc, 0)
    }
}
