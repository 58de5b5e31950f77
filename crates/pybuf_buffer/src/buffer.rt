//! A buffer that an exporter lent.
ghost use Rattle.std.specs.Prelude.{◌≡◌, ◌↔◌, ◌<◌, ◌+◌, ◌++◌, true, false, length, Ok, IsTrue, IfOk, OnOk, OnErr, MatchOption};
ghost use Rattle.std.specs.Fn.{FnOnceReturnsAt};
ghost use Rattle.pybuf_command.specs.declared.kinds.ExporterKind.TheVariants as kinds;
ghost use Rattle.pybuf_desc.specs.Layouts.{bytes_layout};
ghost use Rattle.pybuf_desc.specs.Contiguous.{is_contiguous_layout};
ghost use Rattle.pybuf_desc.specs.Items.{content_of_layout};
ghost use Rattle.pybuf_buffer.specs.Making.{checked_format, RefusedAs, content_at, AddsView};
ghost use Rattle.pybuf_state.specs.Exporter.{new_exporter, with_view, released_in};
ghost use Rattle.pybuf_state.specs.Live.{is_live, layout_of, is_writable_run};

use crate::append::append_ranges;
use crate::lending::{all_bytes, has_writable_run, writable_run};
use crate::views::{add_same, described, is_in_first};
use pybuf_command::{ExporterKind, Subject};
use pybuf_desc::{
    BufferDescriptor, described_views_have_their_shape, descriptors_stand_for_one_view,
    placed_descriptors_stand, ranges_have_the_content, ranges_stay_inside,
    valid_where_items_lie_inside,
};
use pybuf_exporter::ExporterState;
use pybuf_memoryview::contents_are_whole;
use pybuf_state::{live_layouts_are_sound, whole_layouts_are_sound};
use pybuf_struct::FormatSpec;
use pybuf_value::{ByteList, Fault, Made, Outcome, Steps, Tried};
use std::alloc::Global;
use std::marker::{Brand, Model};
use std::ops::Range;
use std::sync::ledger::{Blank, Ledger};

/// A buffer is the number of a view of an exporter, whose bytes it lends. Each call takes the exporter that gave it.
/// The bytes are lent until the buffer is released.
/// Example: `PyBuffer::of(0)` stands for the first view that was made of an exporter.
#[derive(Debug, Drop)]
pub struct PyBuffer {
    view: usize,
}

impl Model for PyBuffer {
    ghost use Rattle.std.specs.Prelude.{ℕ};

    ghost Value = { ℕ };

    ghost view = { λ b. b.view };
}

/// Why the format of a descriptor makes no buffer of an exporter, if it doesn't.
fn format_fault(
    alloc: Global,
    state: &ExporterState,
    desc: &BufferDescriptor,
) -> Made<Option<Fault>>
    ensures { IfOk result (λ refused. RefusedAs (checked_format state.now.exporter desc.now) refused) }
{
    match FormatSpec::parse(alloc, desc.format_text().as_slice())? {
        Outcome::Refused(fault) => Ok(Some(fault)),
        Outcome::Done(format) => {
            if format.size() != desc.itemsize() {
                return Ok(Some(Fault::Kind));
            }
            if state.kind().is_readonly() && !desc.readonly() {
                return Ok(Some(Fault::Kind));
            }
            Ok(None)
        }
    }
}

/// `append_to` with a counter of its own.
fn append_by<L: Ledger>(
    buffer: &PyBuffer,
    state: &ExporterState,
    buf: &mut Vec<u8>,
    blank: Blank,
) -> Made<()>
    requires live { is_live state.now.exporter buffer.now ≡ true }
    requires name { blank.name ≡ L.name }
    requires parts { blank.parts ≡ L.parts }
    requires one { blank.parts ≡ 1 }
    ensures bytes { OnOk result (buf.new.items ≡ buf.old.items ++ content_at state.now.exporter buffer.now) }
    ensures err { OnErr result (buf.new.items ≡ buf.old.items) }
{
    let mut steps = Steps::<L>::new(blank);
    buffer.append_to(state, buf, &mut steps)
}

impl PyBuffer {
    ghost use Rattle.pybuf_buffer.specs.Making.{IsBufferBy};
    ghost use Rattle.pybuf_buffer.specs.Appending.{range_count};
    ghost use Rattle.pybuf_buffer.specs.Blocks.{LiesInFirst};
    ghost use Rattle.std.specs.Borrow.{sem};
    ghost use Rattle.pybuf_exporter.specs.Lending.{LendsBytes};
    ghost use Rattle.pybuf_buffer.specs.Lending.{LendsRunIf};

    /// A buffer by a descriptor and the place of its first item, counted in bytes from 0. It is one more view of the
    /// exporter.
    ///
    /// Refused with `ValueError` exactly where the descriptor isn't valid for the exporter's bytes; then with
    /// `StructError` exactly where its format is outside the grammar; then with `TypeError` exactly where the
    /// format's size isn't the item size, or the buffer could be written and the exporter can't. Where it is refused,
    /// or memory runs out, the exporter is as before.
    /// Example: `raw(4, false, 2, format, dims)` with the format `<H` and the dimension `(2, 3, 0)`, at 3, has items at 3 and 6.
    pub fn new(
        alloc: Global,
        state: &mut ExporterState,
        desc: BufferDescriptor,
        start: usize,
    ) -> Tried<PyBuffer>
        ensures ok { IfOk result (λ made. IsBufferBy state.old.exporter desc start state.new.exporter made) }
        ensures err { OnErr result (state.new ≡ state.old) }
        ensures room { state.new.room ≡ state.old.room }
    {
        placed_descriptors_stand();
        described_views_have_their_shape();
        valid_where_items_lie_inside();
        if desc.validate(start, state.bytes().len()).is_err() {
            return Ok(Outcome::Refused(Fault::Value));
        }
        if let Some(fault) = format_fault(alloc, state, &desc)? {
            return Ok(Outcome::Refused(fault));
        }
        let view = state.add_view(desc, start)?;
        Ok(Outcome::Done(PyBuffer { view }))
    }

    /// The buffer of the view of this number. It changes no count, and takes no memory.
    /// Example: `PyBuffer::of(0)` is the buffer that the reply `View(0)` names.
    pub fn of(view: usize) -> PyBuffer
        ensures { result ≡ view }
    {
        PyBuffer { view }
    }

    /// The number of its view. Takes no memory.
    /// Example: `PyBuffer::of(3).number()` is 3.
    pub fn number(&self) -> usize
        ensures { result ≡ self.now }
    {
        self.view
    }

    /// Whether the view was given and is unreleased. Takes no memory.
    /// Example: `PyBuffer::of(0).is_live(state)` is true after the first view was made, and false once it was released.
    pub fn is_live(&self, state: &ExporterState) -> bool
        ensures { result ≡ is_live state.now.exporter self.now }
    {
        state.is_live(self.view)
    }

    /// The bytes of the buffer, lent without a copy. It is None exactly where its items don't lie one after the other
    /// (C API, "Buffer Protocol", "Contiguity requests"). Takes no memory.
    /// Example: of a buffer of all bytes of `b"abc"` it is `Some(b"abc")`, and of the view `memoryview(b"abc")[::2]` None.
    pub fn as_contiguous<'a>(&self, state: &'a ExporterState) -> Option<&'a [u8]>
        requires { is_live state.now.exporter self.now ≡ true }
        ensures { MatchOption result (is_contiguous_layout (layout_of state.now.exporter self.now) ≡ false) (λ bytes. (is_contiguous_layout (layout_of state.now.exporter self.now) ≡ true) × (bytes.now ≡ content_of_layout state.now.exporter.bytes (layout_of state.now.exporter self.now))) }
    {
        state.contiguous_bytes(self.view)
    }

    /// The bytes of the buffer, lent to be written without a copy. It is None exactly where it is read-only or its
    /// items don't lie one after the other (C API, "Buffer Protocol", "Contiguity requests"). What is written there
    /// takes the place of the bytes of the buffer, and of no others. Takes no memory.
    ///
    /// A caller whose own proof speaks of the bytes afterwards asks `is_contiguous_mut`, and calls
    /// `ExporterState::contiguous_bytes_mut`.
    /// Example: of a buffer of `bytes` it is None, and of a view of all bytes of the bytearray `b"abc"` it lends `b"abc"`.
    pub fn as_contiguous_mut<'a>(&self, state: &'a mut ExporterState) -> Option<&'a mut [u8]>
        requires { is_live state.old.exporter self.now ≡ true }
        ensures* writes_back { sem 𝓛 (LendsRunIf state.entry self.now result) }
        ensures value { MatchOption result (is_writable_run (layout_of state.old.exporter self.now) ≡ false) (λ bytes. (is_writable_run (layout_of state.old.exporter self.now) ≡ true) × (bytes.now ≡ content_of_layout state.old.exporter.bytes (layout_of state.old.exporter self.now))) }
    {
        let view = self.number();
        if has_writable_run(state, view) {
            return Some(writable_run(state, view));
        }
        None
    }

    /// Whether the items lie one after the other and may be written. Then `ExporterState::contiguous_bytes_mut` of
    /// the buffer's number lends its bytes to be written. Takes no memory.
    /// Example: of a view of all bytes of a bytearray it is true, and of one of `bytes` false.
    pub fn is_contiguous_mut(&self, state: &ExporterState) -> bool
        requires { is_live state.now.exporter self.now ≡ true }
        ensures { result ≡ is_writable_run (layout_of state.now.exporter self.now) }
    {
        state.is_writable_run(self.view)
    }

    /// Whether there is a first dimension, and a range of its entries lies inside it. Then
    /// `PyMemoryView::from_buffer_range` makes a memoryview of its entries. Takes no memory.
    /// Example: of a buffer of six bytes in one dimension it is true for `1..4`, and false for `4..7`.
    pub fn has_entries(&self, state: &ExporterState, range: &Range<usize>) -> bool
        requires { is_live state.now.exporter self.now ≡ true }
        ensures { IsTrue result ↔ LiesInFirst range.now (layout_of state.now.exporter self.now).shape }
    {
        let (descriptor, _) = described(state, self.view);
        is_in_first(descriptor.dim_desc(), range)
    }

    /// A read-only vector of these bytes, and the buffer of all of them.
    /// Example: of the bytes `b"abc"` the second part is `PyBuffer::of(0)`, which lends `b"abc"`.
    pub fn from_byte_vector(alloc: Global, bytes: Vec<u8>) -> Made<(ExporterState, PyBuffer)>
        ensures state { IfOk result (λ made. made.0.exporter ≡ (with_view (new_exporter (kinds.Vector true) bytes.items) (bytes_layout (length bytes.items) true)).0) }
        ensures room { IfOk result (λ made. made.0.room ≡ 0) }
        ensures buffer { IfOk result (λ made. made.1 ≡ 0) }
    {
        whole_layouts_are_sound();
        descriptors_stand_for_one_view();
        let descriptor = BufferDescriptor::simple(alloc, bytes.len(), true)?;
        let kind = ExporterKind::Vector { readonly: true };
        let mut state = ExporterState::new(alloc, kind, ByteList::from_vec(bytes));
        let view = state.add_view(descriptor, 0)?;
        Ok((state, PyBuffer { view }))
    }

    /// Appends the bytes of the buffer's items, in order. A block of items that lie one after the other is one step.
    /// Where memory runs out, nothing is appended, and no step taken.
    /// Example: of the view `memoryview(b"abcdef")[::-2]` it appends `b"fdb"`, in three steps.
    pub fn append_to<L: Ledger>(
        &self,
        state: &ExporterState,
        buf: &mut Vec<u8>,
        steps: &mut Steps<L>,
    ) -> Made<()>
        requires { is_live state.now.exporter self.now ≡ true }
        ensures bytes { OnOk result (buf.new.items ≡ buf.old.items ++ content_at state.now.exporter self.now) }
        ensures steps { OnOk result (steps.new ≡ steps.old + range_count (layout_of state.now.exporter self.now)) }
        ensures err { OnErr result (buf.new.items ≡ buf.old.items) }
        ensures err_steps { OnErr result (steps.new ≡ steps.old) }
    {
        ranges_have_the_content();
        ranges_stay_inside();
        contents_are_whole();
        live_layouts_are_sound();
        let _exports = state.exports();
        let (descriptor, start) = described(state, self.view);
        buf.reserve(descriptor.len())?;
        append_ranges(buf, state.bytes(), descriptor.segments(start, true), steps);
        Ok(())
    }

    /// Appends the bytes of the buffer's items, in order, as `append_to` without a counter. Where memory runs out,
    /// nothing is appended.
    /// Example: of a buffer of all bytes of `b"abc"` it appends `b"abc"`.
    pub fn append_uncounted(&self, state: &ExporterState, buf: &mut Vec<u8>) -> Made<()>
        requires { is_live state.now.exporter self.now ≡ true }
        ensures bytes { OnOk result (buf.new.items ≡ buf.old.items ++ content_at state.now.exporter self.now) }
        ensures err { OnErr result (buf.new.items ≡ buf.old.items) }
    {
        append_by::<Brand>(self, state, buf, Blank::new(1))
    }

    /// What a function makes of the bytes of the buffer's items, in order. They are copied only where
    /// the items don't lie one after the other.
    /// Example: of a view of `b"abc"` and the function `|bytes| bytes.len()` it is 3.
    pub fn contiguous_or_collect<R, F: FnOnce(&[u8]) -> R>(
        &self,
        alloc: Global,
        state: &ExporterState,
        f: F,
    ) -> Made<R>
        requires live { is_live state.now.exporter self.now ≡ true }
        requires callable { F.IsAlwaysCallable f }
        ensures { IfOk result (λ made. FnOnceReturnsAt F.FnOnce f (content_at state.now.exporter self.now) made) }
    {
        if let Some(bytes) = self.as_contiguous(state) {
            return Ok(f(bytes));
        }
        match state.snap(alloc, Subject::View(self.view))? {
            Some(snap) => Ok(f(snap.content.as_slice())),
            None => unreachable!(),
        }
    }

    /// All bytes of the exporter, lent without a copy, also those that are of no item of the buffer. Takes no memory.
    /// Example: of a buffer of the second byte of `b"abc"` it is `b"abc"`.
    pub fn obj_bytes<'a>(&self, state: &'a ExporterState) -> &'a [u8]
        requires { is_live state.now.exporter self.now ≡ true }
        ensures { result.now ≡ state.now.exporter.bytes }
    {
        state.bytes()
    }

    /// All bytes of the exporter of a buffer that isn't read-only, lent to be written. Their number and all else of
    /// the exporter stay. Takes no memory.
    ///
    /// A caller whose own proof speaks of the bytes afterwards calls `ExporterState::bytes_mut`.
    /// Example: after `buffer.obj_bytes_mut(state)[0] = b'A'` what was `b"abc"` is `b"Abc"`.
    pub fn obj_bytes_mut<'a>(&self, state: &'a mut ExporterState) -> &'a mut [u8]
        requires live { is_live state.old.exporter self.now ≡ true }
        requires writable { (layout_of state.old.exporter self.now).readonly ≡ false }
        ensures* writes_back { sem 𝓛 (LendsBytes state.entry result) }
        ensures value { result.now ≡ state.old.exporter.bytes }
    {
        all_bytes(state, self.number())
    }

    /// Releases the view. Releasing it again changes nothing. Takes no memory.
    /// Example: after `buffer.release(state)`, `buffer.is_live(state)` is false.
    pub fn release(&self, state: &mut ExporterState)
        requires { self.now < length state.old.exporter.views }
        ensures released { released_in state.old.exporter self.now ≡ Ok state.new.exporter }
        ensures room { state.new.room ≡ state.old.room }
    {
        match state.release_view(self.view) {
            Ok(()) => {}
            Err(_) => unreachable!(),
        }
    }

    /// One more view of the same items, which is counted and released by itself. Where memory runs
    /// out, the exporter is as before.
    /// Example: of `PyBuffer::of(0)`, the only view of its exporter, it is `PyBuffer::of(1)`, and `exports` is 2 then.
    pub fn retain(&self, alloc: Global, state: &mut ExporterState) -> Made<PyBuffer>
        requires { is_live state.old.exporter self.now ≡ true }
        ensures ok { AddsView (λ e. layout_of e self.now) state.old result state.new }
        ensures err { OnErr result (state.new ≡ state.old) }
        ensures room { state.new.room ≡ state.old.room }
    {
        let view = add_same(alloc, state, self.view)?;
        Ok(PyBuffer { view })
    }
}
