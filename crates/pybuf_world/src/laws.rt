//! Laws over every command on a world, from the laws over every command on one exporter.
ghost use Rattle.pybuf_verbs_views.specs.Laws.{ReleasingTwiceIsOnce};
ghost use Rattle.pybuf_world.specs.Laws.{RefusalsChangeNothing, NoReplyIsAStructError, HandlesStay, ReleasingByHandleTwiceIsOnce, WorldLengthsStay, WorldReadOnlyBytesStay, WorldIteratorsStay, WorldShownTextsAreOneLine, CopiesAreExportersOfTheirOwn, UnviewedCopiesAreExportersOfTheirOwn, NewExportersStandBehind, UnknownSourcesAreRefused, RunsStaySound};
ghost use Rattle.pybuf_world.specs.Exporters.{ExporterLaws};
ghost use Rattle.pybuf_world.specs.Laws.{RunsKeepItemsApart, ReleasesAreRefusedByName};
ghost use Rattle.pybuf_world.specs.Assigning.{LoansOfWorldsFit, WorldStepsAssignByValue};
ghost use Rattle.pybuf_world.specs.Hashing.{WorldEqualViewsHashAlike};
ghost use Rattle.pybuf_world.specs.Sharing.{WorldWritesAreSeen, WritesApartAreNotSeen, SharedWritesAreSeen};
ghost use Rattle.pybuf_world.specs.Naming.{HandlesStayInRuns, RunsNameTheirViews, ReleasedHandlesStay};
ghost use Rattle.pybuf_world.specs.Releasing.{EditsAreFree, ReleasesAreCounted, ExportsAreCounted};

/// A refused command leaves the whole world as it was, so no handle is used up.
/// Example: after `append h0 256`, which is refused with `ValueError`, the next handle is the one that it was before.
pub fn refusals_change_nothing()
    ensures { RefusalsChangeNothing }
{
    pybuf_exporter::refused_commands_change_nothing();
}

/// No command of a world is refused with `StructError`: it is the answer of calls of the library that are given a format.
/// Example: `cast h1 'BH'` is refused with `ValueError`.
pub fn no_reply_is_a_struct_error()
    ensures { NoReplyIsAStructError }
{
    pybuf_exporter::struct_error_is_never_replied();
}

/// A handle names after a command what it named before.
/// Example: `h0` names the first exporter after every command that follows.
pub fn handles_stay()
    ensures { HandlesStay }
{}

/// Releasing a view twice is releasing it once, by its number and by its handle.
/// Example: `release h1` after `release h1` replies `ok`, and changes nothing.
pub fn releasing_twice_is_once()
    ensures by_number { ReleasingTwiceIsOnce }
    ensures by_handle { ReleasingByHandleTwiceIsOnce }
{
    pybuf_verbs_views::releasing_twice_is_once();
}

/// Under every command on a sound world the views of each exporter are only added or become released,
/// each keeps the length that it was made at, and an exporter with an unreleased view has afterwards
/// the length that it had.
/// Example: while the view `h1` of `h0` is unreleased, no command makes the length of `h0` another.
pub fn world_lengths_stay()
    ensures { WorldLengthsStay }
{
    pybuf_exporter::lengths_stay();
}

/// Under every command each iterator keeps its number and what it goes over, and an exhausted one stays
/// as it is.
/// Example: an iterator `h1` over `h0` that replied `stop` replies `stop` after `append h0 1` too.
pub fn world_iterators_stay()
    ensures { WorldIteratorsStay }
{
    pybuf_exporter::iterators_stay();
}

/// No command on a sound world changes the bytes of an exporter that is only read, unless it takes all of them out of
/// a vector.
/// Example: after `new bytes x616263` no command makes the bytes of `h0` others than `b"abc"`.
pub fn world_readonly_bytes_stay()
    ensures { WorldReadOnlyBytesStay }
{
    pybuf_exporter::readonly_bytes_stay();
}

/// A text that a command shows of its subject holds no line feed, whatever the bytes are.
/// Example: `repr` of the byte 10 alone replies `b'\n'` with a backslash and the letter n.
pub fn world_shown_texts_are_one_line()
    ensures { WorldShownTextsAreOneLine }
{
    pybuf_exporter::shown_texts_are_one_line();
}

/// A command that replies two handles has made an exporter of its own, behind those that there were, which stay as
/// they are; its one view has the bytes of the view that was copied, in the same format and shape, without a gap. So
/// the other doesn't show what is written to one.
///
/// A command on a handle that replies one handle and has made an exporter has made a bytearray of its own: it has the
/// bytes of the bytearray that was copied, and no view.
/// Example: `contig h1` replies `h2 h3`, and a `set h3 0 65` leaves the bytes of `h0` as they are.
pub fn copies_are_exporters_of_their_own()
    ensures viewed { CopiesAreExportersOfTheirOwn }
    ensures unviewed { UnviewedCopiesAreExportersOfTheirOwn }
{
    pybuf_exporter::fresh_replies_are_copies();
    pybuf_exporter::copies_are_faithful();
}

/// A command for a new exporter that isn't refused has made one of the kind that was asked, with the
/// bytes that its options were read as before it was there, and with no view. It stands behind those
/// that there were, which stay as they are, and its handle is the next one.
/// Example: `new bytearray x6162` in an empty world replies `h0`, and the first exporter has the bytes `b"ab"`.
pub fn new_exporters_stand_behind()
    ensures { NewExportersStandBehind }
{}

/// A command for a new exporter with a handle among its options that was never given is refused with
/// `UnknownName`, whatever its options are otherwise, and changes nothing.
/// Example: `new bytes h5` in an empty world is refused with `UnknownName`.
pub fn unknown_sources_are_refused()
    ensures { UnknownSourcesAreRefused }
{}

/// The laws of exporters that those of worlds rest on.
pub(crate) fn exporter_laws()
    ensures { ExporterLaws }
{
    pybuf_exporter::commands_keep_sound();
    pybuf_exporter::commands_keep_items_apart();
    pybuf_exporter::replied_names_are_there();
    pybuf_exporter::subjects_stay();
    pybuf_exporter::fresh_replies_are_copies();
    pybuf_exporter::copies_are_faithful();
    pybuf_state::copies_are_spaced();
}

/// A world that begins empty is sound after each of the commands of every list. That means three things. Each byte of
/// each item of an unreleased view lies inside its exporter, which is as long as when the view was made. No two items
/// of a view share a byte. And each handle names something that is there.
/// Example: after `new bytearray x616263`, `view h0` and `append h0 1` the view `h1` still lies inside the three bytes of `h0`.
pub fn runs_stay_sound()
    ensures { RunsStaySound }
{
    exporter_laws();
}

/// Whatever commands a world that begins empty carries out, no two items of an unreleased view of any of its
/// exporters share a byte.
/// Example: the items of a slice `::2` of a view of `h0` lie at 0, 2 and so on, and no two of them share a byte.
pub fn runs_keep_items_apart()
    ensures { RunsKeepItemsApart }
{
    runs_stay_sound();
    pybuf_state::live_layouts_lie_apart();
}

/// In a sound world releasing by a handle is refused exactly where the handle was never given or names no view,
/// and with nothing but `UnknownName`.
/// Example: `world.release(0)` is `Err(Fault::UnknownName)` where `h0` names a bytearray.
pub fn releases_are_refused_by_name()
    ensures { ReleasesAreRefusedByName }
{}

/// What the other exporters of a sound world lend to one for a command fits.
/// Example: what `h0` of a world lends to `extend h1 h0` is all its bytes, and it fits.
pub fn loans_of_worlds_fit()
    ensures { LoansOfWorldsFit }
{
    pybuf_state::subjects_fit();
}

/// `set` of a view by a slice, where it isn't refused, is by value on a sound world: item j of the target is
/// afterwards item j of the source as it was before the command, for all strides of both, whether the source is bytes
/// that are given, the same exporter or a view of it, or another exporter or a view of that. Every byte that is of no
/// item of the target stays, and so do the length, the kind, the views and the iterators; and nothing else of the
/// world changes.
/// Example: after `view h0` of `bytearray(b"abc")`, `set h1 None:None:-1 h1` makes the bytes `b"cba"`.
pub fn world_steps_assign_by_value()
    ensures { WorldStepsAssignByValue }
{
    loans_of_worlds_fit();
    pybuf_exporter::steps_assign_by_value();
    pybuf_exporter::snaps_hold_the_items();
    pybuf_state::live_layouts_lie_apart();
    pybuf_desc::slices_lie_apart();
}

/// In a sound world two handles have the same hash, where `hash` replies bytes for each and `compare` replies that they
/// are equal. Each is an exporter of kind bytes, or a view of any exporter; the format of each view is `b`, `B` or `c`,
/// as `prop format` replies it.
/// Example: after `new bytes x01ff` and `view h0`, `hash h0` and `hash h1` both reply `b'\x01\xff'`.
pub fn world_equal_views_hash_alike()
    ensures { WorldEqualViewsHashAlike }
{
    pybuf_state::subjects_fit();
    pybuf_equality::fitting_snaps_have_all_items();
    pybuf_equality::equal_byte_views_hold_the_same_bytes();
    pybuf_value::order_of_bytes_is_total();
}

/// Where `set` of an item isn't refused in a sound world, `get` replies the normal form of the value through every handle
/// whose view has an item of that format at that place: directly afterwards, and in each later sound world in which the
/// bytes of the item are the same, whatever commands came between. Nothing else changes but the bytes of that item.
/// Example: after `new bytearray x010203`, `view h0`, `get h1 1:3:1` and `set h1 2 True`, `get h2 1` replies `1`.
pub fn world_writes_are_seen()
    ensures { WorldWritesAreSeen }
{
    pybuf_verbs_writes::writes_are_seen();
    pybuf_state::live_layouts_are_sound();
    pybuf_memoryview::keys_name_items();
}

/// In a sound world two handles see each other's writes where the items of their views share a place. `get` of an item
/// replies after `set` of another what it replied before, where the two share no byte: they lie in different exporters,
/// or the one lies before the other. It replies the normal form of the value that was set, where both lie at one place
/// and have one format.
/// Example: the views of `get h1 0:2:1` and `get h1 2:4:1` never see each other's writes, and h1 sees those of both.
pub fn writes_are_seen_where_places_are_shared()
    ensures apart { WritesApartAreNotSeen }
    ensures shared { SharedWritesAreSeen }
{
    world_writes_are_seen();
    exporter_laws();
}

/// A handle names after every run of commands what it named before. In a sound world a view that it names is as it was,
/// or became released, so its layout is the same.
/// Example: after `new bytearray x0102` and `view h0`, h1 is this view of two items, whatever is asked later.
pub fn runs_name_their_views()
    ensures handles { HandlesStayInRuns }
    ensures views { RunsNameTheirViews }
{
    handles_stay();
    world_lengths_stay();
    exporter_laws();
}

/// In a sound world a handle of a view that was released names that view after every run of commands, and it is still
/// released. No command brings it back.
/// Example: after `release h1` every later `get h1 0` is refused with `ValueError`.
pub fn released_handles_stay()
    ensures { ReleasedHandlesStay }
{
    runs_name_their_views();
}

/// Nothing but an unreleased view keeps an exporter from an edit. After every view of it was released, no edit of it is
/// refused with `BufferError`, but that which adds a bytearray to itself. `release` of a view is never refused, and takes
/// an unreleased view out of the count; `prop exports` replies that count, and there are no exports exactly where each
/// view was released.
/// Example: after `new bytearray x61`, `view h0`, `get h1 0:1:1`, `release h1` and `release h2`, `append h0 98` replies `ok`.
pub fn nothing_is_kept_by_accident()
    ensures edits { EditsAreFree }
    ensures released { ReleasesAreCounted }
    ensures counted { ExportsAreCounted }
{
    pybuf_exporter::released_views_stop_no_edit();
    pybuf_exporter::released_views_dont_count();
}
