//! Calls on views by plain arguments: each but `put_number` goes to its effect with numbers and slices, and makes no value,
//! no loan and no reply. `put_number` is the command `set` with two values and no loans.
ghost use Rattle.std.specs.Prelude.{◌≡◌, None};
ghost use Rattle.pybuf_command.specs.declared.commands.PropertyName.TheVariants as names;
ghost use Rattle.pybuf_state.specs.Answers.{as_view, as_done, as_item, as_bytes, as_counts, as_numbers};
ghost use Rattle.pybuf_verbs_views.specs.View.{view_of_own};
ghost use Rattle.pybuf_verbs_views.specs.Slice.{slice_of_view};
ghost use Rattle.pybuf_verbs_views.specs.Cast.{flat_cast_of_view, shaped_cast_of_view};
ghost use Rattle.pybuf_verbs_reads.specs.Get.{item_at_index};
ghost use Rattle.pybuf_verbs_reads.specs.ToBytes.{bytes_of_view};
ghost use Rattle.pybuf_verbs_reads.specs.Property.{property_of_view};
ghost use Rattle.pybuf_verbs_writes.specs.Assign.{bytes_assigned, assigned_across};
ghost use Rattle.pybuf_exporter.specs.Stepping.{StateAnswers, StateReads, number_put};
ghost use Rattle.pybuf_exporter.specs.Telling.{TellsRefusal};

use crate::exporter::ExporterState;
use pybuf_command::{LoanList, LocalReply};
use pybuf_value::{Halt, Item, PySlice, Scalar, Value};
use pybuf_verbs_reads::{get, property, to_bytes};
use pybuf_verbs_views::{cast, slice, view};
use pybuf_verbs_writes::assign;

impl ExporterState {
    /// One more view, of all bytes. The answer is its number. This is never refused. Where memory runs out, nothing
    /// is changed.
    /// Example: of a new exporter it is 0.
    pub fn add_whole(&mut self) -> Result<usize, Halt>
        ensures answer { StateAnswers self.old view_of_own (as_view result) self.new }
        ensures room { self.new.room ≡ self.old.room }
    {
        pybuf_verbs_views::view_is_safe();
        view::add_whole(&mut self.parts)
    }

    /// One more view, of the items of a view that a slice picks. The answer is its number. It is refused as
    /// `PyMemoryView::slice` is, and with `UnknownName` for a view that was never given. Nothing is changed then, nor
    /// where memory runs out.
    /// Example: of the view 0 of all bytes of `b"abcdef"` the slice `1:4` gives the number of a view of `b"bcd"`.
    pub fn add_slice(&mut self, view: usize, slice: &PySlice) -> Result<usize, Halt>
        ensures answer { StateAnswers self.old (λ e. slice_of_view e view slice.now) (as_view result) self.new }
        ensures room { self.new.room ≡ self.old.room }
    {
        pybuf_verbs_views::slice_is_safe();
        slice::add(&mut self.parts, view, slice)
    }

    /// One more view, of the bytes of a view as items of another format. The answer is its number. It is refused as
    /// `PyMemoryView::cast` is, and with `UnknownName` for a view that was never given. Nothing is changed then, nor
    /// where memory runs out.
    /// Example: of a view of `b"\x01\x00\x02\x00"` the format `"H"` gives the number of a view with the items 1 and 2.
    pub fn add_cast(&mut self, view: usize, format: &str) -> Result<usize, Halt>
        ensures answer { StateAnswers self.old (λ e. flat_cast_of_view e view format.now) (as_view result) self.new }
        ensures room { self.new.room ≡ self.old.room }
    {
        pybuf_verbs_views::cast_is_safe();
        cast::add_flat(&mut self.parts, view, format)
    }

    /// One more view, of the bytes of a view as items of another format, in the dimensions of a shape. The answer is
    /// its number. It is refused as `add_cast` is. Nothing is changed then, nor where memory runs out.
    /// Example: of a view of six bytes, `"B"` and the shape `[2, 3]` give the number of a view with two rows of three items.
    pub fn add_shaped_cast(
        &mut self,
        view: usize,
        format: &str,
        shape: &[usize],
    ) -> Result<usize, Halt>
        ensures answer { StateAnswers self.old (λ e. shaped_cast_of_view e view format.now shape.now) (as_view result) self.new }
        ensures room { self.new.room ≡ self.old.room }
    {
        pybuf_verbs_views::cast_is_safe();
        cast::add_shaped(&mut self.parts, view, format, shape)
    }

    /// The item of a view at an index, where a negative index counts from the end. It is refused as
    /// `PyMemoryView::index` is, and with `UnknownName` for a view that was never given.
    /// Example: of a view of `b"abc"` the index -1 gives `Item::One(Scalar::Int(99))`.
    pub fn item(&self, view: usize, index: isize) -> Result<Item, Halt>
        ensures { StateReads self.now (λ e. item_at_index e view index) (as_item result) }
    {
        get::item(&self.parts, view, index)
    }

    /// Writes a number as the item of a view at an index. It is the command `set` with the two as values. It is
    /// refused as `PyMemoryView::set` is, and with `UnknownName` for a view that was never given. Nothing is changed
    /// then, nor where memory runs out.
    /// Example: through a view of all bytes of `bytearray(b"abc")` the index 0 and the number 65 make `b"Abc"`.
    pub fn put_number(&mut self, view: usize, index: isize, number: i128) -> Result<(), Halt>
        ensures answer { TellsRefusal (number_put self.old.exporter view index number) self.old.exporter result self.new.exporter }
        ensures room { self.new.room ≡ self.old.room }
    {
        let loans = LoanList::new(self.parts.alloc);
        let key = Value::One(Scalar::Int(index as i128));
        let value = Value::One(Scalar::Int(number));
        match self.set_through_view(view, &key, &value, &loans)? {
            LocalReply::Refused(fault) => Err(Halt::Refused(fault)),
            _ => Ok(()),
        }
    }

    /// The bytes of a view's items, with the last index changing fastest. Refused with `UnknownName` for a view that
    /// was never given, and with `ValueError` for a released one.
    /// Example: of the view `memoryview(b"abcdef")[::-2]` it has the bytes `b"fdb"`.
    pub fn content(&self, view: usize) -> Result<Vec<u8>, Halt>
        ensures { StateReads self.now (λ e. bytes_of_view e view None) (as_bytes result) }
    {
        to_bytes::content(&self.parts, view)
    }

    /// The number of entries of each dimension of a view. Refused with `UnknownName` for a view that was never given,
    /// and with `ValueError` for a released one.
    /// Example: of a view of three bytes it has the entry 3 alone.
    pub fn shape(&self, view: usize) -> Result<Vec<usize>, Halt>
        ensures { StateReads self.now (λ e. property_of_view e view names.Shape) (as_counts result) }
    {
        property::shape(&self.parts, view)
    }

    /// The stride of each dimension of a view, in bytes. Refused with `UnknownName` for a view that was never given,
    /// and with `ValueError` for a released one.
    /// Example: of the view `memoryview(b"abcdef")[::-2]` it has the stride -2 alone.
    pub fn strides(&self, view: usize) -> Result<Vec<isize>, Halt>
        ensures { StateReads self.now (λ e. property_of_view e view names.Strides) (as_numbers result) }
    {
        property::strides(&self.parts, view)
    }

    /// Copies bytes over the items that a slice of a view picks. It is refused as `PyMemoryView::assign` is, and with
    /// `UnknownName` for a view that was never given. Nothing is changed then, nor where memory runs out.
    /// Example: over the slice `0:2` of a view of all bytes of `b"abc"` the bytes `b"12"` make `b"12c"`.
    pub fn assign_bytes(&mut self, view: usize, slice: &PySlice, bytes: &[u8]) -> Result<(), Halt>
        ensures answer { StateAnswers self.old (λ e. bytes_assigned e view slice.now bytes.now) (as_done result) self.new }
        ensures room { self.new.room ≡ self.old.room }
    {
        pybuf_verbs_writes::assign_is_safe();
        assign::put_bytes(&mut self.parts, view, slice, bytes)
    }

    /// Copies the items of a view of another exporter over those that a slice of a view picks. They are copied from
    /// where they lie. It is refused as `PyMemoryView::assign_from` is, and with `UnknownName` for a view that was
    /// never given. Nothing is changed then.
    /// Example: over the slice `3:` of a view of `b"abcdef"` a view of `b"XYZ"` of another exporter makes `b"abcXYZ"`.
    pub fn assign_across(
        &mut self,
        view: usize,
        slice: &PySlice,
        lender: &ExporterState,
        source: usize,
    ) -> Result<(), Halt>
        ensures answer { StateAnswers self.old (λ e. assigned_across e view slice.now lender.now.exporter source) (as_done result) self.new }
        ensures room { self.new.room ≡ self.old.room }
    {
        pybuf_verbs_writes::assign_is_safe();
        assign::put_from(&mut self.parts, view, slice, &lender.parts, source)
    }

    /// Copies the items of a view of this exporter over those that a slice of a view picks. They count as they were
    /// before the first is written. It is refused as `assign_across` is. Nothing is changed then, nor where memory
    /// runs out.
    /// Example: over the slice `::-1` of a view of `b"abc"` the view itself makes `b"cba"`.
    pub fn assign_within(&mut self, view: usize, slice: &PySlice, source: usize) -> Result<(), Halt>
        ensures answer { StateAnswers self.old (λ e. assigned_across e view slice.now e source) (as_done result) self.new }
        ensures room { self.new.room ≡ self.old.room }
    {
        pybuf_verbs_writes::assign_is_safe();
        assign::put_within(&mut self.parts, view, slice, source)
    }
}
