//! Calls on the bytes of views, and bytes that go from a view to a view.
ghost use Rattle.std.specs.Prelude.{◌≡◌};
ghost use Rattle.std.specs.Option.{option_copied};
ghost use Rattle.pybuf_scoped.specs.declared.stop.Cause.{Cause};
ghost use Rattle.pybuf_scoped.specs.Stops.{Tells};
ghost use Rattle.pybuf_scoped.specs.Contents.{view_bytes, view_run, LendsContent, FindsIn, CountsIn, SplitsAt, ReplacesIn, StripsTo, WritesDigits, ComparesWith};
ghost use Rattle.pybuf_scoped.specs.Views.{EndsWith};

use crate::group::{Member, ViewGroup};
use crate::numbered;
use crate::owner::Owner;
use crate::stop::{Cause, Stop};
use crate::view::View;
use pybuf_value::{ByteList, ByteLists, Lent, PySlice, Text};
use std::alloc::Global;

impl<'a, O: Owner> View<'a, O> {
    ghost use Rattle.pybuf_scoped.specs.Views.{under, length_of, AssignsFromView};

    /// The bytes of the items, with the last dimension running fastest. They are lent where they lie one after the
    /// other, and are copied only where they lie apart. It stops only where memory runs out.
    /// Example: of the view `memoryview(b"abcdef")[::-2]` it is `Lent::Gathered` of `b"fdb"`.
    pub fn content(&self, alloc: Global) -> Result<Lent<'_>, Stop>
        ensures answer { LendsContent (view_bytes (under O.exporter self.now) self.now.number) result }
        ensures cause { Tells Cause.Content result }
    {
        numbered::content(alloc, &*self.owner, self.number, Cause::Content)
    }

    /// Where the first match of a needle begins in the bytes of the items, as Python's `view.tobytes().find(needle)`;
    /// None where there is none. The bytes are copied only where they lie apart. It stops only where memory runs out.
    /// Example: of a view of `b"abcabc"` the needle `b"ca"` begins at 2.
    pub fn find(&self, alloc: Global, needle: &[u8]) -> Result<Option<usize>, Stop>
        ensures answer { FindsIn (view_bytes (under O.exporter self.now) self.now.number) needle.now result }
        ensures cause { Tells Cause.Content result }
    {
        numbered::find(alloc, &*self.owner, self.number, needle)
    }

    /// The number of matches of a needle in the bytes of the items that don't overlap, as Python's
    /// `view.tobytes().count(needle)`. The bytes are copied only where they lie apart. It stops only where memory runs
    /// out.
    /// Example: of a view of `b"aaaa"` the needle `b"aa"` has 2 matches.
    pub fn count(&self, alloc: Global, needle: &[u8]) -> Result<usize, Stop>
        ensures answer { CountsIn (view_bytes (under O.exporter self.now) self.now.number) needle.now result }
        ensures cause { Tells Cause.Content result }
    {
        numbered::count(alloc, &*self.owner, self.number, needle)
    }

    /// The parts of the bytes of the items between the matches of a separator, as Python's
    /// `view.tobytes().split(separator, most)`; without a separator, those between blanks. There are at most `most`
    /// cuts, and any number where that is negative. The bytes are copied only into the parts, where they don't lie
    /// apart.
    ///
    /// Refused with `ValueError` exactly for a separator without bytes.
    /// Example: of a view of `b"a,b,c"` the separator `b","` and at most one cut give `b"a"` and `b"b,c"`.
    pub fn split(
        &self,
        alloc: Global,
        separator: Option<&[u8]>,
        most: isize,
    ) -> Result<ByteLists, Stop>
        ensures answer { SplitsAt (view_bytes (under O.exporter self.now) self.now.number) (option_copied separator.entry) most result }
        ensures cause { Tells Cause.Parts result }
    {
        numbered::split(alloc, &*self.owner, self.number, separator, most)
    }

    /// The bytes of the items with others in place of the first `most` matches of `old`, as Python's
    /// `view.tobytes().replace(old, new, most)`, and of all where `most` is negative. The view is as before.
    ///
    /// Refused with `OverflowError` exactly where that is more than `isize::MAX` bytes.
    /// Example: of a view of `b"aaa"`, `b"a"` and `b"xy"` in place of at most 2 give `b"xyxya"`.
    pub fn replace(
        &self,
        alloc: Global,
        old: &[u8],
        new: &[u8],
        most: isize,
    ) -> Result<ByteList, Stop>
        ensures answer { ReplacesIn (view_bytes (under O.exporter self.now) self.now.number) old.now new.now most result }
        ensures cause { Tells Cause.Replaced result }
    {
        numbered::replace(alloc, &*self.owner, self.number, old, new, most)
    }

    /// The bytes of the items without those at both ends that are among `chars`, or without blanks there, as Python's
    /// `view.tobytes().strip(chars)`. They are lent without a copy. Takes no memory.
    ///
    /// Refused with `TypeError` where the items don't lie one after the other.
    /// Example: of a view of `b"xaby"` and `Some(b"xy")` it is `b"ab"`.
    pub fn strip(&self, chars: Option<&[u8]>) -> Result<&[u8], Stop>
        ensures answer { StripsTo (view_run (under O.exporter self.now) self.now.number) (option_copied chars.entry) result }
        ensures cause { Tells Cause.Content result }
    {
        numbered::stripped(&*self.owner, self.number, chars)
    }

    /// The bytes of the items as hexadecimal digits, as Python's `view.hex(separator, size)`: the separator stands
    /// between each `size` bytes, counted from the end, or from the start where `size` is negative.
    ///
    /// Refused with `ValueError` for a separator that isn't one ASCII byte, where there are bytes and `size` isn't 0,
    /// and with `OverflowError` where that is more than `isize::MAX` digits.
    /// Example: of a view of `b"\xb9\x01\xef"` the separator `b"-"` and the size 1 give `b9-01-ef`.
    pub fn hex(&self, alloc: Global, separator: Option<&[u8]>, size: isize) -> Result<Text, Stop>
        ensures answer { WritesDigits (view_bytes (under O.exporter self.now) self.now.number) (option_copied separator.entry) size result }
        ensures cause { Tells Cause.Digits result }
    {
        numbered::hex(alloc, &*self.owner, self.number, separator, size)
    }

    /// Whether the bytes of the items are these, as Python's `view.tobytes() == other`. They are copied only where they
    /// lie apart. It stops only where memory runs out.
    /// Example: the view `memoryview(b"abcdef")[::2]` equals `b"ace"`.
    pub fn equals(&self, alloc: Global, other: &[u8]) -> Result<bool, Stop>
        ensures answer { ComparesWith (view_bytes (under O.exporter self.now) self.now.number) other.now result }
        ensures cause { Tells Cause.Content result }
    {
        numbered::equals(alloc, &*self.owner, self.number, other)
    }

    /// Writes the items of a view of another exporter over those that a slice picks, as Python's `view[1:4] = other`.
    /// They are copied from where they lie, and no memory is taken for them.
    ///
    /// Refused as `assign` refuses the view and the slice, and then with `ValueError` where the other view has items of
    /// another format or size, or another shape than the items that the slice picks.
    /// Example: over a view of `b"abcdef"` the slice `3..` and a view of `b"XYZ"` make `b"abcXYZ"`.
    pub fn assign_from<S: Into<PySlice>, P: Owner>(
        &mut self,
        slice: S,
        source: &View<'_, P>,
    ) -> Result<(), Stop>
        ensures same_reference { self.new.owner.ghost_name ≡ self.old.owner.ghost_name }
        ensures number { self.new.number ≡ self.old.number }
        ensures answer { AssignsFromView O.exporter P.exporter (S.converts slice) source.now self.old result self.new }
        ensures owner { EndsWith O.with self.old.owner.now (O.exporter self.new.owner.now) self.new.owner.now }
        ensures cause { Tells (Cause.Items (length_of P.exporter source.now) (length_of O.exporter self.old)) result }
    {
        numbered::assign_across(
            self.owner,
            self.number,
            slice,
            source.owner.exporter(),
            source.number,
        )
    }
}

impl<'a, O: Owner> ViewGroup<'a, O> {
    ghost use Rattle.pybuf_scoped.specs.Views.{shared, length_in, AssignsFromMember};

    /// The bytes of a view's items, with the last dimension running fastest. They are lent where they lie one after the
    /// other, and are copied only where they lie apart. A view of another group is refused with `UnknownName`, if this
    /// exporter has no view of its number.
    /// Example: of the view `memoryview(b"abcdef")[::-2]` it is `Lent::Gathered` of `b"fdb"`.
    pub fn content(&self, alloc: Global, member: &Member<'a>) -> Result<Lent<'_>, Stop>
        ensures answer { LendsContent (view_bytes (shared O.exporter self.now) member.now.number) result }
        ensures cause { Tells Cause.Content result }
    {
        numbered::content(alloc, &*self.owner, member.number, Cause::Content)
    }

    /// Where the first match of a needle begins in the bytes of a view's items; None where there is none. The bytes are
    /// copied only where they lie apart. A view of another group is refused with `UnknownName`, if this exporter has no
    /// view of its number.
    /// Example: of a view of `b"abcabc"` the needle `b"ca"` begins at 2.
    pub fn find(
        &self,
        alloc: Global,
        member: &Member<'a>,
        needle: &[u8],
    ) -> Result<Option<usize>, Stop>
        ensures answer { FindsIn (view_bytes (shared O.exporter self.now) member.now.number) needle.now result }
        ensures cause { Tells Cause.Content result }
    {
        numbered::find(alloc, &*self.owner, member.number, needle)
    }

    /// The number of matches of a needle in the bytes of a view's items that don't overlap. The bytes are copied only
    /// where they lie apart. A view of another group is refused with `UnknownName`, if this exporter has no view of its
    /// number.
    /// Example: of a view of `b"aaaa"` the needle `b"aa"` has 2 matches.
    pub fn count(&self, alloc: Global, member: &Member<'a>, needle: &[u8]) -> Result<usize, Stop>
        ensures answer { CountsIn (view_bytes (shared O.exporter self.now) member.now.number) needle.now result }
        ensures cause { Tells Cause.Content result }
    {
        numbered::count(alloc, &*self.owner, member.number, needle)
    }

    /// The parts of the bytes of a view's items between the matches of a separator, or between blanks without one.
    /// There are at most `most` cuts, and any number where that is negative.
    ///
    /// Refused with `UnknownName` for a view of another group, if this exporter has no view of its number, and with
    /// `ValueError` for a separator without bytes.
    /// Example: of a view of `b"a,b,c"` the separator `b","` and at most one cut give `b"a"` and `b"b,c"`.
    pub fn split(
        &self,
        alloc: Global,
        member: &Member<'a>,
        separator: Option<&[u8]>,
        most: isize,
    ) -> Result<ByteLists, Stop>
        ensures answer { SplitsAt (view_bytes (shared O.exporter self.now) member.now.number) (option_copied separator.entry) most result }
        ensures cause { Tells Cause.Parts result }
    {
        numbered::split(alloc, &*self.owner, member.number, separator, most)
    }

    /// The bytes of a view's items with others in place of the first `most` matches of `old`, and of all where `most`
    /// is negative. The view is as before.
    ///
    /// Refused with `UnknownName` for a view of another group, if this exporter has no view of its number, and with
    /// `OverflowError` where that is more than `isize::MAX` bytes.
    /// Example: of a view of `b"aaa"`, `b"a"` and `b"xy"` in place of at most 2 give `b"xyxya"`.
    pub fn replace(
        &self,
        alloc: Global,
        member: &Member<'a>,
        old: &[u8],
        new: &[u8],
        most: isize,
    ) -> Result<ByteList, Stop>
        ensures answer { ReplacesIn (view_bytes (shared O.exporter self.now) member.now.number) old.now new.now most result }
        ensures cause { Tells Cause.Replaced result }
    {
        numbered::replace(alloc, &*self.owner, member.number, old, new, most)
    }

    /// The bytes of a view's items without those at both ends that are among `chars`, or without blanks there. They are
    /// lent without a copy. Takes no memory.
    ///
    /// Refused with `UnknownName` for a view of another group, if this exporter has no view of its number, and with
    /// `TypeError` where the items don't lie one after the other.
    /// Example: of a view of `b"xaby"` and `Some(b"xy")` it is `b"ab"`.
    pub fn strip<'b>(&'b self, member: &Member<'a>, chars: Option<&[u8]>) -> Result<&'b [u8], Stop>
        ensures answer { StripsTo (view_run (shared O.exporter self.now) member.now.number) (option_copied chars.entry) result }
        ensures cause { Tells Cause.Content result }
    {
        numbered::stripped(&*self.owner, member.number, chars)
    }

    /// The bytes of a view's items as hexadecimal digits, as Python's `view.hex(separator, size)`.
    ///
    /// Refused with `UnknownName` for a view of another group, if this exporter has no view of its number, and then as
    /// `View::hex` is.
    /// Example: of a view of `b"\xb9\x01\xef"` the separator `b"-"` and the size 1 give `b9-01-ef`.
    pub fn hex(
        &self,
        alloc: Global,
        member: &Member<'a>,
        separator: Option<&[u8]>,
        size: isize,
    ) -> Result<Text, Stop>
        ensures answer { WritesDigits (view_bytes (shared O.exporter self.now) member.now.number) (option_copied separator.entry) size result }
        ensures cause { Tells Cause.Digits result }
    {
        numbered::hex(alloc, &*self.owner, member.number, separator, size)
    }

    /// Whether the bytes of a view's items are these. They are copied only where they lie apart. A view of another group
    /// is refused with `UnknownName`, if this exporter has no view of its number.
    /// Example: the view `memoryview(b"abcdef")[::2]` equals `b"ace"`.
    pub fn equals(&self, alloc: Global, member: &Member<'a>, other: &[u8]) -> Result<bool, Stop>
        ensures answer { ComparesWith (view_bytes (shared O.exporter self.now) member.now.number) other.now result }
        ensures cause { Tells Cause.Content result }
    {
        numbered::equals(alloc, &*self.owner, member.number, other)
    }

    /// Writes the items of a view of the group over those of another that a slice picks, also where the two overlap.
    /// The items count as they were before the first is written.
    ///
    /// Refused with `UnknownName` for a view of another group, if this exporter has no view of its number, then as
    /// `assign` refuses the view and the slice, and then with `ValueError` where the other view has items of another
    /// format or size, or another shape than the items that the slice picks.
    /// Example: over a view of `b"abc"` the slice `::-1` and the view itself make `b"cba"`.
    pub fn assign_from<S: Into<PySlice>>(
        &mut self,
        member: &Member<'a>,
        slice: S,
        source: &Member<'a>,
    ) -> Result<(), Stop>
        ensures same_reference { self.new.owner.ghost_name ≡ self.old.owner.ghost_name }
        ensures first { self.new.first ≡ self.old.first }
        ensures answer { AssignsFromMember O.exporter (S.converts slice) member.now source.now self.old result self.new }
        ensures owner { EndsWith O.with self.old.owner.now (O.exporter self.new.owner.now) self.new.owner.now }
        ensures cause { Tells (Cause.Items (length_in O.exporter self.old source.now) (length_in O.exporter self.old member.now)) result }
    {
        numbered::assign_within(self.owner, member.number, slice, source.number)
    }
}
