//! One view that borrows its exporter.
ghost use Rattle.std.specs.Prelude.{◌≡◌, length, Ok, IfOk, IfErr, OnErr};
ghost use Rattle.pybuf_value.specs.declared.halt.Halt.TheVariants as halts;
ghost use Rattle.pybuf_command.specs.declared.commands.LocalReply.TheVariants as replies;
ghost use Rattle.pybuf_verbs_views.specs.View.{view_of_own};
ghost use Rattle.pybuf_scoped.specs.declared.stop.Cause.{Cause};
ghost use Rattle.pybuf_scoped.specs.Stops.{Tells, RefusedBy, StopsForMemory, LendsBytes};
ghost use Rattle.pybuf_scoped.specs.Views.{EndsWith};

use crate::numbered;
use crate::owner::Owner;
use crate::stop::{Cause, Stop};
use pybuf_exporter::ExporterState;
use pybuf_value::{Item, PySlice};

/// One more view of all bytes of what an owner has. The answer is its number.
#[inline(always)]
fn add_whole<O: Owner>(owner: &mut O) -> Result<usize, Stop>
    ensures made { IfOk result (λ number. view_of_own (O.exporter owner.old) ≡ Ok (O.exporter owner.new, replies.View number)) }
    ensures owner { EndsWith O.with owner.old (O.exporter owner.new) owner.new }
    ensures err { OnErr result (O.exporter owner.new ≡ O.exporter owner.old) }
    ensures memory { IfErr result (λ stop. stop.halt ≡ halts.NoMemory) }
    ensures cause { Tells Cause.Whole result }
{
    match owner.exporter_mut().add_whole() {
        Ok(number) => Ok(number),
        Err(halt) => Err(Stop::new(halt, Cause::Whole)),
    }
}

/// A view that borrows what owns its exporter: while it lives, nothing else can read, write or resize that, and where
/// the view is dropped it is released. It is Python's `with memoryview(object) as view:`.
///
/// A call that gives nothing answers a `Stop`, which tells the refusal and what was asked; the exporter is as before
/// then.
/// Example: `View::of(&mut array)?` is a view of all bytes of `array`, until it is dropped.
pub struct View<'a, O: Owner> {
    pub(crate) owner: &'a mut O,
    pub(crate) number: usize,
}

/// Releases the view. Its exporter changes in nothing else.
impl<'a, O: Owner> Drop for View<'a, O> {
    ghost use Rattle.pybuf_scoped.specs.Views.{EndsScope};

    #[inline(always)]
    fn drop(self)
        ensures { EndsScope O.exporter O.with self.entry self.exit.0.now }
    {
        let View { owner, number } = self;
        match owner.exporter_mut().release_view(number) {
            Ok(()) => (),
            Err(_) => (),
        }
    }
}

/// A view lends what it borrows, so that its slices are views of it.
impl<'a, O: Owner> Owner for View<'a, O> {
    ghost use Rattle.pybuf_scoped.specs.Views.{under, with_owner};

    ghost exporter = { under O.exporter };

    ghost with = { with_owner O.with };

    ghost has_it = { λ view s. O.has_it view.owner.now s };

    #[inline(always)]
    fn exporter(&self) -> &ExporterState {
        self.owner.exporter()
    }

    #[inline(always)]
    fn exporter_mut(&mut self) -> &mut ExporterState {
        self.owner.exporter_mut()
    }
}

impl<'a, O: Owner> View<'a, O> {
    ghost use Rattle.pybuf_scoped.specs.Contents.{view_run};
    ghost use Rattle.pybuf_scoped.specs.Views.{under, length_of, IsSameView, KeepsOwner, MakesView, cast_under, shaped_under, SlicesView, RefusesSlice, ReadsItem, ReadsBytes, Puts, AssignsView};

    /// A view of all bytes, as Python's `memoryview(object)`. It is never refused, and stops only where memory runs
    /// out.
    /// Example: `View::of(&mut array)?` of `bytearray(b"abc")` has the items 97, 98 and 99.
    #[inline(always)]
    pub fn of(owner: &'a mut O) -> Result<View<'a, O>, Stop>
        ensures same_reference { IfOk result (λ view. view.owner.ghost_name ≡ owner.entry.ghost_name) }
        ensures made { IfOk result (MakesView O.exporter (view_of_own (O.exporter owner.old))) }
        ensures owner { IfOk result (λ view. EndsWith O.with owner.old (O.exporter view.owner.now) view.owner.now) }
        ensures memory { StopsForMemory result }
        ensures cause { Tells Cause.Whole result }
    {
        let number = add_whole(owner)?;
        Ok(View { owner, number })
    }

    /// The number of entries of the first dimension, as Python's `len(view)`, and 0 if it has none. Takes no memory.
    /// Example: of a view of `b"abc"` it is 3.
    pub fn len(&self) -> usize
        ensures { result ≡ length_of O.exporter self.now }
    {
        numbered::entries(self.owner.exporter(), self.number)
    }

    /// Writes a number as the item at an index, as Python's `view[index] = number`.
    ///
    /// Refused with `TypeError` where it may only be read, then as `get` refuses the index, and then with `TypeError`
    /// where the format of the items doesn't take the number.
    /// Example: in the format `H` the index 0 and the number 513 write `b"\x01\x02"`, and 65,536 is refused with `TypeError`.
    #[inline(always)]
    pub fn set(&mut self, index: isize, number: i128) -> Result<(), Stop>
        ensures same_reference { self.new.owner.ghost_name ≡ self.old.owner.ghost_name }
        ensures number { self.new.number ≡ self.old.number }
        ensures answer { Puts (under O.exporter self.old) self.old.number index number result (under O.exporter self.new) }
        ensures owner { EndsWith O.with self.old.owner.now (O.exporter self.new.owner.now) self.new.owner.now }
        ensures cause { Tells (Cause.Number number index (length_of O.exporter self.old)) result }
    {
        numbered::put(self.owner, self.number, index, number)
    }

    /// The item at an index, as Python's `view[index]`, where a negative index counts from the end.
    ///
    /// Refused with `TypeError` where it has no dimension and with `NotImplementedError` where it has several, and
    /// then with `IndexError` out of range.
    /// Example: of the items 1, 2, 3 in the format `H` the index -1 gives `Item::One(Scalar::Int(3))`.
    #[inline(always)]
    pub fn get(&self, index: isize) -> Result<Item, Stop>
        ensures answer { ReadsItem (under O.exporter self.now) self.now.number index result }
        ensures cause { Tells (Cause.Index index (length_of O.exporter self.now)) result }
    {
        numbered::item(&*self.owner, self.number, index)
    }

    /// Writes bytes over the items that a slice picks, as Python's `view[1:4] = bytes`.
    ///
    /// Refused with `TypeError` where it may only be read or has no dimension, with `NotImplementedError` where it has
    /// several, and with `ValueError` for a step of 0, for items of another format than `B` and where the bytes are not
    /// as many as the items.
    /// Example: over a view of `b"abcdef"` the slice `0..2` and the bytes `b"12"` make `b"12cdef"`.
    #[inline(always)]
    pub fn assign<S: Into<PySlice>>(&mut self, slice: S, bytes: &[u8]) -> Result<(), Stop>
        ensures same_reference { self.new.owner.ghost_name ≡ self.old.owner.ghost_name }
        ensures number { self.new.number ≡ self.old.number }
        ensures answer { AssignsView O.exporter (S.converts slice) bytes.now self.old result self.new }
        ensures owner { EndsWith O.with self.old.owner.now (O.exporter self.new.owner.now) self.new.owner.now }
        ensures cause { Tells (Cause.Bytes (length bytes.now) (length_of O.exporter self.old)) result }
    {
        numbered::assign(self.owner, self.number, slice, bytes)
    }

    /// The bytes of the items, with the last dimension running fastest, as Python's `view.tobytes()`. It stops only
    /// where memory runs out.
    /// Example: of the view `memoryview(b"abcdef")[::-2]` it has the bytes `b"fdb"`.
    pub fn to_vec(&self) -> Result<Vec<u8>, Stop>
        ensures answer { ReadsBytes (under O.exporter self.now) self.now.number result }
        ensures cause { Tells Cause.Content result }
    {
        numbered::to_vec(&*self.owner, self.number)
    }

    /// The bytes of the items, lent without a copy. Takes no memory. The bytes are a `Read`.
    ///
    /// Refused with `TypeError` where the items don't lie one after the other.
    /// Example: of the slice `1..4` of a view of `b"abcdef"` it is `b"bcd"`.
    #[inline(always)]
    pub fn bytes(&self) -> Result<&[u8], Stop>
        ensures answer { LendsBytes (view_run (under O.exporter self.now) self.now.number) result }
        ensures cause { Tells Cause.Content result }
    {
        numbered::run(&*self.owner, self.number)
    }

    /// A view of the same bytes, with items of another format in one dimension, as Python's `view.cast(format)`. It
    /// borrows this view until it is dropped.
    ///
    /// Refused with `TypeError` or `ValueError` as `PyMemoryView::cast_to` is.
    /// Example: of a view of `b"\x01\x00\x02\x00"` the format `"H"` gives a view with the items 1 and 2.
    #[inline(always)]
    pub fn cast<'b>(&'b mut self, format: &str) -> Result<View<'b, View<'a, O>>, Stop>
        ensures same_reference { IfOk result (λ view. view.owner.ghost_name ≡ self.entry.ghost_name) }
        ensures made { IfOk result (MakesView (under O.exporter) (cast_under O.exporter self.old format.now)) }
        ensures parent { IfOk result (λ view. IsSameView self.old view.owner.now) }
        ensures owner { IfOk result (λ view. KeepsOwner O.exporter O.with self.old view.owner.now) }
        ensures refused { RefusedBy (cast_under O.exporter self.old format.now) result }
        ensures cause { Tells (Cause.Format (length_of O.exporter self.old)) result }
    {
        let length = self.len();
        let view = self.number;
        match self.owner.exporter_mut().add_cast(view, format) {
            Ok(number) => Ok(View {
                owner: self,
                number,
            }),
            Err(halt) => Err(Stop::new(halt, Cause::Format { length })),
        }
    }

    /// A view of the same bytes, with items of another format in the dimensions of a shape, as Python's
    /// `view.cast(format, shape)`. It borrows this view until it is dropped.
    ///
    /// Refused with `TypeError` or `ValueError` as `PyMemoryView::cast_shape` is.
    /// Example: of a view of `b"abcdef"` the format `"B"` and the shape `[2, 3]` give `[[97, 98, 99], [100, 101, 102]]`.
    #[inline(always)]
    pub fn cast_shape<'b>(
        &'b mut self,
        format: &str,
        shape: &[usize],
    ) -> Result<View<'b, View<'a, O>>, Stop>
        ensures same_reference { IfOk result (λ view. view.owner.ghost_name ≡ self.entry.ghost_name) }
        ensures made { IfOk result (MakesView (under O.exporter) (shaped_under O.exporter self.old format.now shape.now)) }
        ensures parent { IfOk result (λ view. IsSameView self.old view.owner.now) }
        ensures owner { IfOk result (λ view. KeepsOwner O.exporter O.with self.old view.owner.now) }
        ensures refused { RefusedBy (shaped_under O.exporter self.old format.now shape.now) result }
        ensures cause { Tells (Cause.Format (length_of O.exporter self.old)) result }
    {
        let length = self.len();
        let view = self.number;
        match self
            .owner
            .exporter_mut()
            .add_shaped_cast(view, format, shape)
        {
            Ok(number) => Ok(View {
                owner: self,
                number,
            }),
            Err(halt) => Err(Stop::new(halt, Cause::Format { length })),
        }
    }

    /// A view of the items that a slice picks along the first dimension, as Python's `view[1:4]`. It shares the bytes,
    /// and borrows this view until it is dropped.
    ///
    /// Refused with `TypeError` where it has no dimension, and then with `ValueError` for a step of 0.
    /// Example: of a view of `b"abcdef"` the slice `1..4` gives a view of `b"bcd"`.
    #[inline(always)]
    pub fn slice<'b, S: Into<PySlice>>(
        &'b mut self,
        slice: S,
    ) -> Result<View<'b, View<'a, O>>, Stop>
        ensures same_reference { IfOk result (λ view. view.owner.ghost_name ≡ self.entry.ghost_name) }
        ensures made { IfOk result (SlicesView O.exporter (S.converts slice) self.old) }
        ensures parent { IfOk result (λ view. IsSameView self.old view.owner.now) }
        ensures owner { IfOk result (λ view. KeepsOwner O.exporter O.with self.old view.owner.now) }
        ensures refused { RefusesSlice (S.converts slice) (under O.exporter self.old) self.old.number result }
        ensures cause { Tells (Cause.Slice (length_of O.exporter self.old)) result }
    {
        let length = self.len();
        let view = self.number;
        match self.owner.exporter_mut().add_slice(view, &slice.into()) {
            Ok(number) => Ok(View {
                owner: self,
                number,
            }),
            Err(halt) => Err(Stop::new(halt, Cause::Slice { length })),
        }
    }
}
