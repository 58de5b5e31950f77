//! Several views over one exporter, which see each other's writes.
ghost use Rattle.std.specs.Prelude.{◌≡◌, ◌-◌, length, IfOk, OnErr};
ghost use Rattle.pybuf_verbs_views.specs.View.{view_of_own};
ghost use Rattle.pybuf_scoped.specs.declared.stop.Cause.{Cause};
ghost use Rattle.pybuf_scoped.specs.Stops.{Tells, RefusedBy, StopsForMemory, LendsBytes};
ghost use Rattle.pybuf_scoped.specs.Views.{released_run};

use crate::numbered;
use crate::owner::Owner;
use crate::stop::{Cause, Stop};
use pybuf_exporter::ExporterState;
use pybuf_value::{Item, PySlice};
use std::marker::PhantomData;

/// Releases the views from a number on.
fn release_from(state: &mut ExporterState, first: usize)
    ensures { state.new.exporter ≡ released_run state.old.exporter first (length state.old.exporter.views - first) }
{
    let count = state.view_count();
    if first < count {
        for k in 0..count - first {
            match state.release_view(first + k) {
                Ok(()) => (),
                Err(_) => (),
            }
        }
    }
}

/// A view of a group. It lives at most as long as the group's borrow, and its number is seen by nobody.
/// Example: `group.view()?` is a member of `group`, which `group.get(&member, 0)` reads.
#[derive(Clone, Copy, Debug)]
pub struct Member<'a> {
    pub(crate) number: usize,
    of: PhantomData<&'a ()>,
}

/// Views over one exporter, which see each other's writes. The group borrows what owns the exporter: while it lives,
/// nothing else can read, write or resize that, and where it is dropped all its views are released.
///
/// A call that gives nothing answers a `Stop`, which tells the refusal and what was asked; the exporter is as before
/// then. Each call is first refused with `UnknownName` for a member of another group, if this exporter has no view of
/// its number.
/// Example: what `group.set(&bytes, 0, 1)` writes, `group.get(&numbers, 0)` reads, where `numbers` is a cast of `bytes`.
pub struct ViewGroup<'a, O: Owner> {
    pub(crate) owner: &'a mut O,
    first: usize,
}

/// Releases all views of the group. Its exporter changes in nothing else.
impl<'a, O: Owner> Drop for ViewGroup<'a, O> {
    ghost use Rattle.pybuf_scoped.specs.Views.{EndsGroup};

    fn drop(self)
        ensures { EndsGroup O.exporter O.with self.entry self.exit.0.now }
    {
        let ViewGroup { owner, first } = self;
        release_from(owner.exporter_mut(), first);
    }
}

impl<'a, O: Owner> ViewGroup<'a, O> {
    ghost use Rattle.pybuf_scoped.specs.Contents.{view_run};
    ghost use Rattle.pybuf_scoped.specs.Views.{EndsWith, shared, length_in, MakesMember, cast_in, SlicesMember, RefusesSlice, ReadsItem, ReadsBytes, Puts, AssignsMember};

    /// A group without views. Takes no memory.
    /// Example: `ViewGroup::of(&mut array)` of `bytearray(b"abc")` has no view yet.
    pub fn of(owner: &'a mut O) -> ViewGroup<'a, O>
        ensures same_reference { result.owner.ghost_name ≡ owner.entry.ghost_name }
        ensures owner { result.owner.now ≡ owner.old }
        ensures first { result.first ≡ length (O.exporter owner.old).views }
    {
        let first = owner.exporter().view_count();
        ViewGroup { owner, first }
    }

    /// A view of all bytes, as Python's `memoryview(object)`. It is never refused, and stops only where memory runs
    /// out.
    /// Example: of `bytearray(b"abc")` it has the items 97, 98 and 99.
    #[inline(always)]
    pub fn view(&mut self) -> Result<Member<'a>, Stop>
        ensures same_reference { self.new.owner.ghost_name ≡ self.old.owner.ghost_name }
        ensures first { self.new.first ≡ self.old.first }
        ensures made { IfOk result (MakesMember O.exporter (view_of_own (shared O.exporter self.old)) self.new) }
        ensures err { OnErr result (O.exporter self.new.owner.now ≡ O.exporter self.old.owner.now) }
        ensures owner { EndsWith O.with self.old.owner.now (O.exporter self.new.owner.now) self.new.owner.now }
        ensures memory { StopsForMemory result }
        ensures cause { Tells Cause.Whole result }
    {
        match self.owner.exporter_mut().add_whole() {
            Ok(number) => Ok(Member {
                number,
                of: PhantomData,
            }),
            Err(halt) => Err(Stop::new(halt, Cause::Whole)),
        }
    }

    /// A view of the items that a slice picks along the first dimension, as Python's `view[1:4]`.
    ///
    /// Refused with `TypeError` where it has no dimension, and then with `ValueError` for a step of 0.
    /// Example: of a view of `b"abcdef"` the slice `1..4` gives a view of `b"bcd"`.
    #[inline(always)]
    pub fn slice<S: Into<PySlice>>(
        &mut self,
        member: &Member<'a>,
        slice: S,
    ) -> Result<Member<'a>, Stop>
        ensures same_reference { self.new.owner.ghost_name ≡ self.old.owner.ghost_name }
        ensures first { self.new.first ≡ self.old.first }
        ensures made { IfOk result (SlicesMember O.exporter (S.converts slice) self.old member.now self.new) }
        ensures refused { RefusesSlice (S.converts slice) (shared O.exporter self.old) member.now.number result }
        ensures err { OnErr result (O.exporter self.new.owner.now ≡ O.exporter self.old.owner.now) }
        ensures owner { EndsWith O.with self.old.owner.now (O.exporter self.new.owner.now) self.new.owner.now }
        ensures cause { Tells (Cause.Slice (length_in O.exporter self.old member.now)) result }
    {
        let length = self.len(member);
        match self
            .owner
            .exporter_mut()
            .add_slice(member.number, &slice.into())
        {
            Ok(number) => Ok(Member {
                number,
                of: PhantomData,
            }),
            Err(halt) => Err(Stop::new(halt, Cause::Slice { length })),
        }
    }

    /// A view of the same bytes, with items of another format in one dimension, as Python's `view.cast(format)`.
    ///
    /// Refused with `TypeError` or `ValueError` as `PyMemoryView::cast_to` is.
    /// Example: of a view of `b"\x01\x00\x02\x00"` the format `"H"` gives a view with the items 1 and 2.
    #[inline(always)]
    pub fn cast(&mut self, member: &Member<'a>, format: &str) -> Result<Member<'a>, Stop>
        ensures same_reference { self.new.owner.ghost_name ≡ self.old.owner.ghost_name }
        ensures first { self.new.first ≡ self.old.first }
        ensures made { IfOk result (MakesMember O.exporter (cast_in O.exporter self.old member.now format.now) self.new) }
        ensures refused { RefusedBy (cast_in O.exporter self.old member.now format.now) result }
        ensures err { OnErr result (O.exporter self.new.owner.now ≡ O.exporter self.old.owner.now) }
        ensures owner { EndsWith O.with self.old.owner.now (O.exporter self.new.owner.now) self.new.owner.now }
        ensures cause { Tells (Cause.Format (length_in O.exporter self.old member.now)) result }
    {
        let length = self.len(member);
        match self.owner.exporter_mut().add_cast(member.number, format) {
            Ok(number) => Ok(Member {
                number,
                of: PhantomData,
            }),
            Err(halt) => Err(Stop::new(halt, Cause::Format { length })),
        }
    }

    /// The number of entries of a view's first dimension, as Python's `len(view)`, and 0 if it has none. Takes no
    /// memory.
    /// Example: of a view of `b"abc"` it is 3.
    pub fn len(&self, member: &Member<'a>) -> usize
        ensures { result ≡ length_in O.exporter self.now member.now }
    {
        numbered::entries(self.owner.exporter(), member.number)
    }

    /// The item of a view at an index, as Python's `view[index]`, where a negative index counts from the end.
    ///
    /// Refused with `TypeError` where it has no dimension and with `NotImplementedError` where it has several, and
    /// then with `IndexError` out of range.
    /// Example: of the items 1, 2, 3 in the format `H` the index -1 gives `Item::One(Scalar::Int(3))`.
    #[inline(always)]
    pub fn get(&self, member: &Member<'a>, index: isize) -> Result<Item, Stop>
        ensures answer { ReadsItem (shared O.exporter self.now) member.now.number index result }
        ensures cause { Tells (Cause.Index index (length_in O.exporter self.now member.now)) result }
    {
        numbered::item(&*self.owner, member.number, index)
    }

    /// Writes a number as the item of a view at an index, as Python's `view[index] = number`. All views of the group
    /// see it.
    ///
    /// Refused with `TypeError` where the view may only be read, then as `get` refuses the index, and then with
    /// `TypeError` where the format of the items doesn't take the number.
    /// Example: in the format `H` the index 0 and the number 513 write `b"\x01\x02"`, and 65,536 is refused with `TypeError`.
    #[inline(always)]
    pub fn set(&mut self, member: &Member<'a>, index: isize, number: i128) -> Result<(), Stop>
        ensures same_reference { self.new.owner.ghost_name ≡ self.old.owner.ghost_name }
        ensures first { self.new.first ≡ self.old.first }
        ensures answer { Puts (shared O.exporter self.old) member.now.number index number result (shared O.exporter self.new) }
        ensures owner { EndsWith O.with self.old.owner.now (O.exporter self.new.owner.now) self.new.owner.now }
        ensures cause { Tells (Cause.Number number index (length_in O.exporter self.old member.now)) result }
    {
        numbered::put(self.owner, member.number, index, number)
    }

    /// Writes bytes over the items of a view that a slice picks, as Python's `view[1:4] = bytes`. All views of the
    /// group see them.
    ///
    /// Refused with `TypeError` where the view may only be read or has no dimension, with `NotImplementedError` where it
    /// has several, and with `ValueError` for a step of 0, for items of another format than `B` and where the bytes are
    /// not as many as the items.
    /// Example: over a view of `b"abcdef"` the slice `0..2` and the bytes `b"12"` make `b"12cdef"`.
    #[inline(always)]
    pub fn assign<S: Into<PySlice>>(
        &mut self,
        member: &Member<'a>,
        slice: S,
        bytes: &[u8],
    ) -> Result<(), Stop>
        ensures same_reference { self.new.owner.ghost_name ≡ self.old.owner.ghost_name }
        ensures first { self.new.first ≡ self.old.first }
        ensures answer { AssignsMember O.exporter (S.converts slice) member.now bytes.now self.old result self.new }
        ensures owner { EndsWith O.with self.old.owner.now (O.exporter self.new.owner.now) self.new.owner.now }
        ensures cause { Tells (Cause.Bytes (length bytes.now) (length_in O.exporter self.old member.now)) result }
    {
        numbered::assign(self.owner, member.number, slice, bytes)
    }

    /// The bytes of a view's items, with the last dimension running fastest, as Python's `view.tobytes()`.
    /// Example: of the view `memoryview(b"abcdef")[::-2]` it has the bytes `b"fdb"`.
    pub fn to_vec(&self, member: &Member<'a>) -> Result<Vec<u8>, Stop>
        ensures answer { ReadsBytes (shared O.exporter self.now) member.now.number result }
        ensures cause { Tells Cause.Content result }
    {
        numbered::to_vec(&*self.owner, member.number)
    }

    /// The bytes of a view's items, lent without a copy. Takes no memory.
    ///
    /// Refused with `TypeError` where the items don't lie one after the other.
    /// Example: of the slice `1..4` of a view of `b"abcdef"` it is `b"bcd"`.
    pub fn bytes(&self, member: &Member<'a>) -> Result<&[u8], Stop>
        ensures answer { LendsBytes (view_run (shared O.exporter self.now) member.now.number) result }
        ensures cause { Tells Cause.Content result }
    {
        numbered::run(&*self.owner, member.number)
    }
}
