//! `PyMemoryView` by plain arguments: each call but `set` makes no value, no loan and no reply.
ghost use Rattle.std.specs.Prelude.{◌≡◌, None, Some};
ghost use Rattle.pybuf_value.specs.declared.values.Scalar.TheVariants as scalars;
ghost use Rattle.pybuf_value.specs.declared.values.Value.TheVariants as values;
ghost use Rattle.pybuf_command.specs.declared.commands.PropertyName.TheVariants as names;
ghost use Rattle.pybuf_verbs_views.specs.View.{view_of_own};
ghost use Rattle.pybuf_verbs_views.specs.Release.{release_of_view};
ghost use Rattle.pybuf_verbs_reads.specs.Get.{item_of_view};
ghost use Rattle.pybuf_verbs_reads.specs.ToBytes.{bytes_of_view};
ghost use Rattle.pybuf_verbs_reads.specs.Property.{property_of_view};
ghost use Rattle.pybuf_memoryobject.specs.Plain.{Slices, shape_value, Casts, SetsNumber, AssignsBytes, AssignsView};
ghost use Rattle.pybuf_state.specs.Answers.{as_view, as_done, as_item, as_bytes, as_counts, as_numbers};
ghost use Rattle.pybuf_exporter.specs.Stepping.{StateAnswers, StateReads};

use crate::memory_view::PyMemoryView;
use pybuf_exporter::ExporterState;
use pybuf_value::{Halt, Item, PySlice};

impl PyMemoryView {
    /// A memoryview of all bytes of an exporter, as Python's `memoryview(object)`. This is never refused. Where
    /// memory runs out, nothing is changed.
    /// Example: of a bytearray `b"abcdef"` it is a view of these six bytes.
    pub fn of_all(state: &mut ExporterState) -> Result<PyMemoryView, Halt>
        ensures answer { StateAnswers state.old view_of_own (as_view result) state.new }
        ensures room { state.new.room ≡ state.old.room }
    {
        let number = state.add_whole()?;
        Ok(PyMemoryView::of(number))
    }

    /// A memoryview of the items that a slice picks along the first dimension, as Python's `view[1:4]`. The slice is
    /// a range of Rust, or `PySlice::new(start, stop, step)`. The view shares the bytes.
    ///
    /// Refused with `ValueError` for a released view, then with `TypeError` where it has no dimension, and then with
    /// `ValueError` for a step of 0. Nothing is changed then, nor where memory runs out.
    /// Example: of a view of `b"abcdef"` the slice `1..4` gives a view of `b"bcd"`.
    pub fn slice<S: Into<PySlice>>(
        &self,
        state: &mut ExporterState,
        slice: S,
    ) -> Result<PyMemoryView, Halt>
        ensures answer { Slices (S.converts slice) self.now state.old result state.new }
        ensures room { state.new.room ≡ state.old.room }
    {
        let number = state.add_slice(self.number(), &slice.into())?;
        Ok(PyMemoryView::of(number))
    }

    /// The item at an index, as Python's `view[index]`, where a negative index counts from the end.
    ///
    /// Refused with `ValueError` for a released view, then with `TypeError` where it has no dimension and with
    /// `NotImplementedError` where it has several, and then with `IndexError` out of range.
    /// Example: of the items 1, 2, 3 in the format `H` the index -1 gives `Item::One(Scalar::Int(3))`.
    pub fn index(&self, state: &ExporterState, index: isize) -> Result<Item, Halt>
        ensures { StateReads state.now (λ e. item_of_view e self.now (values.One (scalars.Int index))) (as_item result) }
    {
        state.item(self.number(), index)
    }

    /// Writes a number as the item at an index, as Python's `view[index] = number`. All views of these bytes see it.
    ///
    /// Refused with `ValueError` for a released view, then with `TypeError` where it may only be read, then as
    /// `index` refuses the index, and then with `TypeError` where the format of the items doesn't take the number.
    /// Nothing is changed then.
    /// Example: in the format `H` the index 0 and the number 513 write `b"\x01\x02"`, and 65,536 is refused with `TypeError`.
    pub fn set(&self, state: &mut ExporterState, index: isize, number: i128) -> Result<(), Halt>
        ensures answer { SetsNumber self.now index number state.old result state.new }
        ensures room { state.new.room ≡ state.old.room }
    {
        state.put_number(self.number(), index, number)
    }

    /// The bytes of the items, with the last dimension running fastest, as Python's `view.tobytes()`.
    ///
    /// Refused with `ValueError` for a released view.
    /// Example: of the view `memoryview(b"abcdef")[::-2]` it has the bytes `b"fdb"`.
    pub fn to_vec(&self, state: &ExporterState) -> Result<Vec<u8>, Halt>
        ensures { StateReads state.now (λ e. bytes_of_view e self.now None) (as_bytes result) }
    {
        state.content(self.number())
    }

    /// A memoryview of the same bytes, with items of another format in one dimension, as Python's
    /// `view.cast(format)`. It is refused as `cast` is, and nothing is changed then.
    /// Example: of a view of `b"\x01\x00\x02\x00"` the format `"H"` gives a view with the items 1 and 2.
    pub fn cast_to(&self, state: &mut ExporterState, format: &str) -> Result<PyMemoryView, Halt>
        ensures answer { Casts (scalars.Text format.now) None self.now state.old result state.new }
        ensures room { state.new.room ≡ state.old.room }
    {
        let number = state.add_cast(self.number(), format)?;
        Ok(PyMemoryView::of(number))
    }

    /// A memoryview of the same bytes, with items of another format in the dimensions of a shape, as Python's
    /// `view.cast(format, shape)`. It is refused as `cast` is, and nothing is changed then.
    /// Example: of a view of `b"abcdef"` the format `"B"` and the shape `[2, 3]` give `[[97, 98, 99], [100, 101, 102]]`.
    pub fn cast_shape(
        &self,
        state: &mut ExporterState,
        format: &str,
        shape: &[usize],
    ) -> Result<PyMemoryView, Halt>
        ensures answer { Casts (scalars.Text format.now) (Some (shape_value shape.now)) self.now state.old result state.new }
        ensures room { state.new.room ≡ state.old.room }
    {
        let number = state.add_shaped_cast(self.number(), format, shape)?;
        Ok(PyMemoryView::of(number))
    }

    /// The number of entries of each dimension, as Python's `view.shape`.
    ///
    /// Refused with `ValueError` for a released view.
    /// Example: of a view of six bytes that was cast to `"B"` in the shape `[2, 3]` it has the entries 2 and 3.
    pub fn shape_vec(&self, state: &ExporterState) -> Result<Vec<usize>, Halt>
        ensures { StateReads state.now (λ e. property_of_view e self.now names.Shape) (as_counts result) }
    {
        state.shape(self.number())
    }

    /// How many bytes it is from one entry to the next, for each dimension, as Python's `view.strides`.
    ///
    /// Refused with `ValueError` for a released view.
    /// Example: of a view of six bytes that was cast to `"B"` in the shape `[2, 3]` it has the strides 3 and 1.
    pub fn strides_vec(&self, state: &ExporterState) -> Result<Vec<isize>, Halt>
        ensures { StateReads state.now (λ e. property_of_view e self.now names.Strides) (as_numbers result) }
    {
        state.strides(self.number())
    }

    /// Writes bytes over the items that a slice picks, as Python's `view[1:4] = bytes`.
    ///
    /// Refused with `ValueError` for a released view, then with `TypeError` where it may only be read or has no
    /// dimension, with `NotImplementedError` where it has several, and with `ValueError` for a step of 0, for items
    /// of another format than `B` and where the bytes are not as many as the items. Nothing is changed then.
    /// Example: over a view of `b"abcdef"` the slice `0..2` and the bytes `b"12"` make `b"12cdef"`.
    pub fn assign<S: Into<PySlice>>(
        &self,
        state: &mut ExporterState,
        slice: S,
        bytes: &[u8],
    ) -> Result<(), Halt>
        ensures answer { AssignsBytes (S.converts slice) self.now bytes.now state.old result state.new }
        ensures room { state.new.room ≡ state.old.room }
    {
        state.assign_bytes(self.number(), &slice.into(), bytes)
    }

    /// Writes the items of a view of another exporter over those that a slice picks, as Python's `view[1:4] = other`.
    /// They are copied from where they lie, and no memory is taken for them.
    ///
    /// Refused with `UnknownName` where the other view was never given; then as `assign` refuses the view and the
    /// slice; and then with `ValueError` where the other view was released, or has items of another format or size,
    /// or another shape than the items that the slice picks. Nothing is changed then.
    /// Example: over a view of `b"abcdef"` the slice `3..` and a view of `b"XYZ"` make `b"abcXYZ"`.
    pub fn assign_from<S: Into<PySlice>>(
        &self,
        state: &mut ExporterState,
        slice: S,
        other_state: &ExporterState,
        other: &PyMemoryView,
    ) -> Result<(), Halt>
        ensures answer { AssignsView (S.converts slice) self.now other_state.now other.now state.old result state.new }
        ensures room { state.new.room ≡ state.old.room }
    {
        state.assign_across(self.number(), &slice.into(), other_state, other.number())
    }

    /// Writes the items of a view of the same exporter over those that a slice picks, also where the two overlap. The
    /// items count as they were before the first is written. It is refused as `assign_from` is. Nothing is changed
    /// then, nor where memory runs out.
    /// Example: over a view of `b"abc"` the slice `::-1` and the view itself make `b"cba"`.
    pub fn assign_within<S: Into<PySlice>>(
        &self,
        state: &mut ExporterState,
        slice: S,
        other: &PyMemoryView,
    ) -> Result<(), Halt>
        ensures answer { AssignsView (S.converts slice) self.now state.old other.now state.old result state.new }
        ensures room { state.new.room ≡ state.old.room }
    {
        state.assign_within(self.number(), &slice.into(), other.number())
    }

    /// Releases the view, as Python's `view.release()`. Releasing it again changes nothing. Takes no memory.
    ///
    /// Refused with `UnknownName` where no such view was given.
    /// Example: after `view.try_release(state)?`, `view.to_vec(state)` is refused with `ValueError`.
    pub fn try_release(&self, state: &mut ExporterState) -> Result<(), Halt>
        ensures answer { StateAnswers state.old (λ e. release_of_view e self.now) (as_done result) state.new }
        ensures room { state.new.room ≡ state.old.room }
    {
        state.release_view(self.number())?;
        Ok(())
    }
}
