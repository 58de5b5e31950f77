//! A memoryview that an exporter keeps.
ghost use Rattle.std.specs.Prelude.{◌≡◌, ◌<◌, true, length, Ok, IfOk, OnErr};
ghost use Rattle.pybuf_memoryview.specs.Snaps.{snap_of_copy};
ghost use Rattle.pybuf_state.specs.Exporter.{released_in};
ghost use Rattle.pybuf_state.specs.Live.{is_live, layout_of};
ghost use Rattle.pybuf_buffer.specs.Blocks.{LiesInFirst};
ghost use Rattle.pybuf_memoryobject.specs.Blocks.{blocks_of};
ghost use Rattle.pybuf_memoryobject.specs.Plain.{vector_of_view};
ghost use Rattle.pybuf_buffer.specs.Making.{AddsView};

use crate::views::add_blocks;
use pybuf_buffer::PyBuffer;
use pybuf_command::{LoanList, LocalReply, Subject, Verb};
use pybuf_exporter::ExporterState;
use pybuf_value::{Made, Outcome, Snap, Tried};
use std::alloc::Global;
use std::marker::Model;
use std::ops::Range;

/// A memoryview, as Python's `memoryview` (Library reference, "Memory Views"). It is the number of a view of an
/// exporter, from 0 on in the order in which they were made. Each call takes the exporter that gave it.
///
/// A method that takes loans is one command on the view, and answers its reply. What is refused is replied as
/// `LocalReply::Refused`, and changes nothing. Before all that a method names, a view that was never given and a
/// handle among the values that the loans don't name are refused with `UnknownName`, and then a released view with
/// `ValueError`, except by `exit`, `cmp` and `repr_str`. Where memory runs out, nothing is changed. The loans have to
/// fit, as `FitLoans::fit` tells.
/// Example: `PyMemoryView::of_all(array.state_mut())?` stands for Python's `memoryview(array)`.
#[derive(Debug, Drop)]
pub struct PyMemoryView {
    view: usize,
}

impl Model for PyMemoryView {
    ghost use Rattle.std.specs.Prelude.{ℕ};

    ghost Value = { ℕ };

    ghost view = { λ m. m.view };
}

/// The copy of an unreleased view, one item after the other.
fn copy_of(alloc: Global, state: &ExporterState, view: usize) -> Made<Snap>
    requires { is_live state.now.exporter view ≡ true }
    ensures { IfOk result (λ copy. copy ≡ snap_of_copy state.now.exporter.bytes (layout_of state.now.exporter view)) }
{
    match state.snap(alloc, Subject::View(view))? {
        Some(mut snap) => {
            snap.contiguous = true;
            Ok(snap)
        }
        None => unreachable!(),
    }
}

impl PyMemoryView {
    ghost use Rattle.pybuf_memoryobject.specs.Viewing.{IsViewOf};

    /// The memoryview of the view of this number. It changes no count, and takes no memory.
    /// Example: `PyMemoryView::of(0)` is the memoryview that the reply `View(0)` names.
    pub fn of(view: usize) -> PyMemoryView
        ensures { result ≡ view }
    {
        PyMemoryView { view }
    }

    /// The number of its view. Takes no memory.
    /// Example: `PyMemoryView::of(3).number()` is 3.
    pub fn number(&self) -> usize
        ensures { result ≡ self.now }
    {
        self.view
    }

    /// A memoryview of an exporter, over all its bytes, or of a view, over the same items. It is one more view, as
    /// Python's `memoryview(object)` (Library reference, "Memory Views").
    ///
    /// Refused with `UnknownName` exactly where the view was never given, and for an iterator, and with `ValueError`
    /// exactly where the view was released. Where it is refused, or memory runs out, the exporter is as before.
    /// Example: of `Subject::Own` of a new bytearray `b"abc"` it is `PyMemoryView::of(0)`, with the items 97, 98 and 99.
    pub fn from_object(
        alloc: Global,
        state: &mut ExporterState,
        subject: Subject,
    ) -> Tried<PyMemoryView>
        ensures ok { IfOk result (λ made. IsViewOf state.old.exporter subject state.new.exporter made) }
        ensures err { OnErr result (state.new ≡ state.old) }
        ensures room { state.new.room ≡ state.old.room }
    {
        let loans = LoanList::new(alloc);
        match state.carry_out(subject, &Verb::View, &loans)? {
            LocalReply::View(view) => Ok(Outcome::Done(PyMemoryView { view })),
            LocalReply::Refused(fault) => Ok(Outcome::Refused(fault)),
            _ => unreachable!(),
        }
    }

    /// A memoryview of the items of a buffer. It is one more view, which is counted and released by itself. Where
    /// memory runs out, the exporter is as before.
    /// Example: of `PyBuffer::of(0)`, the only view of its exporter, it is `PyMemoryView::of(1)`, and `exports` is 2 then.
    pub fn from_buffer(
        alloc: Global,
        state: &mut ExporterState,
        buffer: &PyBuffer,
    ) -> Made<PyMemoryView>
        requires { is_live state.old.exporter buffer.now ≡ true }
        ensures ok { AddsView (λ e. layout_of e buffer.now) state.old result state.new }
        ensures err { OnErr result (state.new ≡ state.old) }
        ensures room { state.new.room ≡ state.old.room }
    {
        let kept = buffer.retain(alloc, state)?;
        Ok(PyMemoryView::of(kept.number()))
    }

    /// A memoryview of the entries of a buffer's first dimension from one up to another, which
    /// `PyBuffer::has_entries` tests. It is one more view, as a slice of a memoryview is in Python. Where memory runs
    /// out, the exporter is as before.
    /// Example: of a buffer of all bytes `b"abcdef"` and the range `1..4` its bytes are `b"bcd"`.
    pub fn from_buffer_range(
        alloc: Global,
        state: &mut ExporterState,
        buffer: &PyBuffer,
        range: Range<usize>,
    ) -> Made<PyMemoryView>
        requires live { is_live state.old.exporter buffer.now ≡ true }
        requires range { LiesInFirst range (layout_of state.old.exporter buffer.now).shape }
        ensures ok { AddsView (λ e. blocks_of (layout_of e buffer.now) range) state.old result state.new }
        ensures err { OnErr result (state.new ≡ state.old) }
        ensures room { state.new.room ≡ state.old.room }
    {
        let view = add_blocks(alloc, state, buffer.number(), range)?;
        Ok(PyMemoryView { view })
    }

    /// One more memoryview of the same items, which is counted and released by itself. Where memory
    /// runs out, the exporter is as before.
    /// Example: of `PyMemoryView::of(0)`, the only view of its exporter, it is `PyMemoryView::of(1)`, and `exports` is 2 then.
    pub fn new_view(&self, alloc: Global, state: &mut ExporterState) -> Made<PyMemoryView>
        requires { is_live state.old.exporter self.now ≡ true }
        ensures ok { AddsView (λ e. layout_of e self.now) state.old result state.new }
        ensures err { OnErr result (state.new ≡ state.old) }
        ensures room { state.new.room ≡ state.old.room }
    {
        let kept = PyBuffer::of(self.view).retain(alloc, state)?;
        Ok(PyMemoryView::of(kept.number()))
    }

    /// A new vector of the bytes of the items, in order, and the buffer of all of it. Its items have the same format
    /// and the same shape, and lie one after the other. It may only be read where this view may only be read. (C API,
    /// "MemoryView objects", `PyMemoryView_GetContiguous`.)
    /// Example: of the view `memoryview(b"abcdef")[::-2]` the vector has the bytes `b"fdb"`.
    pub fn to_contiguous(
        &self,
        alloc: Global,
        state: &ExporterState,
    ) -> Made<(ExporterState, PyBuffer)>
        requires { is_live state.now.exporter self.now ≡ true }
        ensures state { IfOk result (λ made. made.0.exporter ≡ vector_of_view state.now.exporter self.now) }
        ensures buffer { IfOk result (λ made. made.1 ≡ 0) }
    {
        let copy = copy_of(alloc, state, self.view)?;
        let made = state.exporter_of_copy(alloc, Subject::View(self.view), copy)?;
        Ok((made, PyBuffer::of(0)))
    }

    /// Releases the view. Releasing it again changes nothing. Takes no memory.
    /// Example: after `view.release(state)`, `state.is_live(view.number())` is false.
    pub fn release(&self, state: &mut ExporterState)
        requires { self.now < length state.old.exporter.views }
        ensures released { released_in state.old.exporter self.now ≡ Ok state.new.exporter }
        ensures room { state.new.room ≡ state.old.room }
    {
        PyBuffer::of(self.view).release(state)
    }
}
