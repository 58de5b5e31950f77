//! Laws of the definitions that the contracts cite. Each stands on a function with an empty body.
ghost use Rattle.pybuf_state.specs.Fits.{SubjectsFit};
ghost use Rattle.pybuf_state.specs.Laws.{WholeLayoutsAreSound, PartLayoutsAreSound, LiveLayoutsAreSound, CopiesAreFaithful, ReadingKeeps, NewViewsKeep, NewViewsAreSound, WritingKeeps, ResizingKeeps, EmptyingKeeps, ReleasingKeeps, NewIteratorsStay, MovedIteratorsStay, NewExportersAreSpaced, NewViewsStayApart, ReleasedViewsStayApart, SameViewsStayApart, LiveLayoutsLieApart, CopiesAreSpaced};

/// A view of all bytes may be made of every exporter.
/// Example: of `bytearray(b"abc")` a view of the items at 0, 1 and 2 may be made.
pub fn whole_layouts_are_sound()
    ensures { WholeLayoutsAreSound }
{}

/// A view of the bytes from one place up to another may be made where these bytes lie inside the exporter.
/// Example: of `b"abcdef"` a view of the bytes from 1 up to 4 may be made.
pub fn part_layouts_are_sound()
    ensures { PartLayoutsAreSound }
{}

/// The items of an unreleased view lie inside its exporter and read by its format, and an exporter that is only read
/// has views that are only read.
/// Example: an unreleased view of `bytes` `b"abc"` has its items among the places 0, 1 and 2, and is read-only.
pub fn live_layouts_are_sound()
    ensures { LiveLayoutsAreSound }
{}

/// What is lent of a sound exporter fits, whether it is the exporter itself, a view or an iterator.
/// Example: what a view in the shape `[2, 3]` with items of one byte is lent as has six bytes.
pub fn subjects_fit()
    ensures { SubjectsFit }
{
    pybuf_memoryview::contents_are_whole();
}

/// A command that only reads an exporter keeps it. `Keeps` says what that means. The exporter is sound afterwards,
/// with the same kind and iterators. Its views are only added or released, and its length stays while a view is
/// unreleased. Bytes that are only read stay, unless they are taken out of a vector as a whole. Where no two items of
/// a view shared a byte, none do.
/// Example: `len` keeps `bytearray(b"abc")`.
pub fn reading_keeps()
    ensures { ReadingKeeps }
{}

/// An exporter that gets one more view is kept (`Keeps`), if no two items of the new view share a byte where that is
/// so of its other views.
/// Example: `view` keeps `bytearray(b"abc")`, and so does `get ::2` of a view.
pub fn new_views_keep()
    ensures { NewViewsKeep }
{}

/// An exporter that gets one more view is sound, also where the items of that view share bytes.
/// Example: a view of items of two bytes with the stride 1 leaves a sound exporter sound.
pub fn new_views_are_sound()
    ensures { NewViewsAreSound }
{}

/// An exporter that may be written is kept (`Keeps`) where as many other bytes take the place of its bytes.
/// Example: `set 0 65` keeps `bytearray(b"abc")`.
pub fn writing_keeps()
    ensures { WritingKeeps }
{}

/// An exporter that may be written is kept (`Keeps`) where any other bytes take the place of its bytes, while no view
/// of it is unreleased.
/// Example: `append 100` keeps `bytearray(b"abc")` without unreleased views.
pub fn resizing_keeps()
    ensures { ResizingKeeps }
{}

/// A vector is kept (`Keeps`) where its bytes are taken out, while no view of it is unreleased.
/// Example: `take` keeps a vector of `b"abc"` without unreleased views.
pub fn emptying_keeps()
    ensures { EmptyingKeeps }
{}

/// An exporter is kept (`Keeps`) where one of its views is released.
/// Example: `release` of the view 0 keeps `bytearray(b"abc")`.
pub fn releasing_keeps()
    ensures { ReleasingKeeps }
{}

/// Every iterator keeps its number and what it goes over, and an exhausted one stays as it is, where another iterator
/// is made.
/// Example: after a second `iter` the first iterator is still the one of number 0, over the same subject.
pub fn new_iterators_stay()
    ensures { NewIteratorsStay }
{}

/// Every iterator keeps its number and what it goes over, and an exhausted one stays as it is, where one of them
/// moves that isn't exhausted.
/// Example: after `next` of the iterator 0 the iterator 1 goes over the same subject as before.
pub fn moved_iterators_stay()
    ensures { MovedIteratorsStay }
{}

/// What is made of a copy is sound. It is a bytearray with the bytes of another, or a vector whose one view has the
/// bytes of a view, in the same format and shape, without a gap.
/// Example: of the view `memoryview(b"abcdef")[::-2]` the vector has the bytes `b"fdb"`.
pub fn copies_are_faithful()
    ensures { CopiesAreFaithful }
{
    live_layouts_are_sound();
    new_views_are_sound();
    pybuf_desc::copies_have_their_bytes();
}

/// A new exporter has no view, and so none of which two items share a byte.
/// Example: `bytearray(b"abc")` has no view at first.
pub fn new_exporters_are_spaced()
    ensures { NewExportersAreSpaced }
{}

/// Where no two items of any view of an exporter share a byte, that stays so where it gets one more view of which it
/// holds.
/// Example: after `view` of an exporter without views its one view has items of one byte at 0, 1 and so on.
pub fn new_views_stay_apart()
    ensures { NewViewsStayApart }
{}

/// Where no two items of any view of an exporter share a byte, that stays so where a view is released.
/// Example: after `release` the items of the view still lie at 0, 1 and 2.
pub fn released_views_stay_apart()
    ensures { ReleasedViewsStayApart }
{}

/// Where no two items of any view of an exporter share a byte, that stays so where the views are the same, whatever
/// becomes of the bytes and the iterators.
/// Example: `reverse` leaves the views as they are, so their items still share no byte.
pub fn same_views_stay_apart()
    ensures { SameViewsStayApart }
{}

/// Where no two items of any view of an exporter share a byte, that is so of the layout of each unreleased view.
/// Example: an unreleased view of all bytes `b"abc"` has its items at 0, 1 and 2.
pub fn live_layouts_lie_apart()
    ensures { LiveLayoutsLieApart }
{}

/// What is made of a copy has no view of which two items share a byte.
/// Example: the vector that is made of a copy of `b"fdb"` has one view, with items at 0, 1 and 2.
pub fn copies_are_spaced()
    ensures { CopiesAreSpaced }
{
    pybuf_desc::row_major_layouts_lie_apart();
}
