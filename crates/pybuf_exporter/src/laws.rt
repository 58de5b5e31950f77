//! Laws over every command, from the laws of the effects.
ghost use Rattle.pybuf_exporter.specs.Laws.{CommandsKeepSound, LengthsStayUnderCommands, ReadOnlyBytesStayUnderCommands, IteratorsStayUnderCommands, OthersLeaveIterators, IterationChangesNothingElse, IteratorsGiveTheBytes, ReadingInPlaceChangesNothing, RefusedCommandsChangeNothing, FreshRepliesAreCopies, NamesAlikeDoTheSame, ItemsAreRead, ResizingIsRefusedWhileExported, AddingItselfIsRefused, OnlyByteArraysAreAddedTo, ShownTextsAreOneLine, StructErrorIsNeverReplied};
ghost use Rattle.pybuf_exporter.specs.Iterating.{IteratorsGiveTheItems, ReleasedViewsAreNotIterated, OtherShapesAreNotIterated, IteratorsStopPastTheEntries, ExhaustedIteratorsStop};
ghost use Rattle.pybuf_exporter.specs.Assigning.{StepsAssignByValue, SnapsHoldTheItems};
ghost use Rattle.pybuf_exporter.specs.Columns.{ColumnCastsGiveTheBytesBack, OrdersHoldTheSameItems};
ghost use Rattle.pybuf_exporter.specs.Laws.{CommandsKeepItemsApart, RepliedNamesAreThere, SubjectsStay};
ghost use Rattle.pybuf_exporter.specs.Owning.{OwningRepliesChangeNothing, TakenBytesAreAll, NextIsUndone, NoIteratorHasNoNext};
ghost use Rattle.pybuf_exporter.specs.Effects.{EffectsAreSafe, StepsKeepSound};
ghost use Rattle.pybuf_exporter.specs.Counting.{QueuesMoveFewBytes};
ghost use Rattle.pybuf_exporter.specs.Releasing.{ReleasedViewsDontCount, ReleasedViewsStopNoEdit, BufferErrorIsOfEdits, ViewsAreReplied};
ghost use Rattle.pybuf_exporter.specs.Handles.{UnknownHandlesAreRefused, UnlentHandlesAreRefused};

/// Each effect keeps a sound exporter, or replies a copy.
fn effects_are_safe()
    ensures { EffectsAreSafe }
{
    pybuf_verbs_views::view_is_safe();
    pybuf_verbs_views::range_is_safe();
    pybuf_verbs_views::slice_is_safe();
    pybuf_verbs_views::cast_is_safe();
    pybuf_verbs_views::column_cast_is_safe();
    pybuf_verbs_views::release_is_safe();
    pybuf_verbs_views::enter_is_safe();
    pybuf_verbs_views::contiguous_is_copied();
    pybuf_verbs_views::toreadonly_is_safe();
    pybuf_verbs_reads::get_is_safe();
    pybuf_verbs_reads::bytes_is_safe();
    pybuf_verbs_reads::len_is_safe();
    pybuf_verbs_reads::property_is_safe();
    pybuf_verbs_reads::tolist_is_safe();
    pybuf_verbs_writes::set_is_safe();
    pybuf_verbs_writes::assign_is_safe();
    pybuf_verbs_edits::edits_are_safe();
    pybuf_verbs_edits::delete_of_view_is_safe();
    pybuf_verbs_compare::compare_is_safe();
    pybuf_verbs_compare::hash_is_safe();
    pybuf_verbs_compare::repr_is_safe();
    pybuf_verbs_methods::call_is_safe();
    pybuf_verbs_methods::contains_is_safe();
    pybuf_verbs_methods::hex_is_safe();
    pybuf_verbs_iters::iter_is_safe();
    pybuf_verbs_iters::iterators_are_safe();
}

/// Every command leaves a sound exporter sound, whatever its handles are lent as.
pub(crate) fn steps_keep_sound()
    ensures { StepsKeepSound }
{
    effects_are_safe();
    pybuf_state::reading_keeps();
}

/// Every command leaves a sound exporter sound.
/// Example: after `pop` of a bytearray, and after `set` of a view, each unreleased view lies inside the bytes as before.
pub fn commands_keep_sound()
    ensures { CommandsKeepSound }
{
    effects_are_safe();
    pybuf_state::reading_keeps();
}

/// Under every command views are only added or become released, each keeps the length that it was
/// made at, and an exporter with an unreleased view has afterwards the length that it had.
/// Example: while a view of `bytearray(b"abc")` is unreleased, no command makes the length another than 3.
pub fn lengths_stay()
    ensures { LengthsStayUnderCommands }
{
    effects_are_safe();
    pybuf_state::reading_keeps();
}

/// No command changes the bytes of an exporter that is only read, unless it takes all of them out of a vector.
/// Example: no command on `bytes` `b"abc"`, or on a view of it, makes its bytes others than `b"abc"`.
pub fn readonly_bytes_stay()
    ensures { ReadOnlyBytesStayUnderCommands }
{
    effects_are_safe();
    pybuf_state::reading_keeps();
}

/// Under every command each iterator keeps its number and what it goes over, and an exhausted one stays as it is.
/// Nothing brings it to life again.
/// Example: an iterator over `b"a"` that replied `stop` replies `stop` after `append` too.
pub fn iterators_stay()
    ensures { IteratorsStayUnderCommands }
{
    effects_are_safe();
    pybuf_state::reading_keeps();
}

/// The commands `call`, `contains` and `hex` leave the exporter as it is, whatever they reply.
/// Example: `call upper` of `bytearray(b"Abc")` replies `b"ABC"`, and the bytes are still `b"Abc"`.
pub fn reading_in_place_changes_nothing()
    ensures { ReadingInPlaceChangesNothing }
{}

/// No command changes an iterator but those that are asked of one. So an edit leaves each where it is.
/// Example: an iterator that stands at place 1 stands there after `append` too.
pub fn others_leave_iterators()
    ensures { OthersLeaveIterators }
{
    effects_are_safe();
    pybuf_state::reading_keeps();
}

/// A command that makes an iterator, or is asked of one, changes iterators alone.
/// Example: `next` moves its iterator, and leaves bytes and views as they are.
pub fn iteration_changes_nothing_else()
    ensures { IterationChangesNothingElse }
{
    effects_are_safe();
    pybuf_state::reading_keeps();
}

/// An iterator over bytes gives each of them once, in order, from where it stands, and then it stops
/// for ever.
/// Example: over `b"ab"` `next` replies 97, 98 and then `stop`, each time that it is asked again.
pub fn iterators_give_the_bytes()
    ensures { IteratorsGiveTheBytes }
{}

/// A refused command changes nothing of its exporter.
/// Example: `append 256` of `bytearray(b"abc")` is refused with `ValueError`, and the bytes are still `b"abc"`.
pub fn refused_commands_change_nothing()
    ensures { RefusedCommandsChangeNothing }
{
    effects_are_safe();
    pybuf_state::reading_keeps();
}

/// No command is refused with `StructError`: a cast takes native codes alone, and an item is read and written by the
/// format of its view.
/// Example: `cast 'BH'` is refused with `ValueError`.
pub fn struct_error_is_never_replied()
    ensures { StructErrorIsNeverReplied }
{
    effects_are_safe();
    pybuf_state::reading_keeps();
}

/// A command that replies something fresh changes nothing of its exporter, and replies the copy of
/// the view or the bytearray that it is asked of.
/// Example: `copy` of `bytearray(b"abc")` replies a `Snap` of `b"abc"`, and the bytearray is as before.
pub fn fresh_replies_are_copies()
    ensures { FreshRepliesAreCopies }
{
    effects_are_safe();
    pybuf_state::reading_keeps();
}

/// A text that a command shows of its subject holds no line feed, whatever its bytes are.
/// Example: `repr` of the byte 10 alone replies `b'\n'` with a backslash and the letter n.
pub fn shown_texts_are_one_line()
    ensures { ShownTextsAreOneLine }
{
    effects_are_safe();
    pybuf_state::reading_keeps();
}

/// What a command does depends on what its handles name by two facts alone: which of them are known, and what is lent
/// for those whose bytes it reads.
/// Example: `extend h1` does the same whether `h1` is lent from a list of loans or from a world, where both lend `b"ab"`.
pub fn names_alike_do_the_same()
    ensures { NamesAlikeDoTheSame }
{}

/// Every item of an unreleased view of a sound exporter is read as the values of its format's fields. Its format is
/// in the grammar and has its size, and all its bytes are there.
/// Example: an item of the format `H` at the bytes 1 and 0 is read as the number 1.
pub fn items_are_read()
    ensures { ItemsAreRead }
{
    pybuf_state::live_layouts_are_sound();
    pybuf_struct::bytes_of_the_size_are_read();
}

/// Where a check of an edit refuses before it asks for another length, that is the reply, whether a view is
/// unreleased or not. An edit that asks for another length, once its earlier checks are passed, is refused with
/// `BufferError` exactly while a view is unreleased. No other edit is refused with `BufferError`, except one that
/// adds a bytearray to itself.
/// Example: while a view is unreleased, `append 256` is refused with `ValueError`, and `append 1` with `BufferError`.
pub fn resizing_is_refused_while_exported()
    ensures { ResizingIsRefusedWhileExported }
{
    effects_are_safe();
    pybuf_state::reading_keeps();
    pybuf_verbs_edits::edits_ask_before_they_resize();
    pybuf_verbs_edits::only_adding_itself_is_refused_earlier();
}

/// A bytearray that is added to itself by `iadd` is refused with `BufferError`, whether a view is unreleased or not, and
/// nothing changes. An exporter that is no bytearray has no `iadd`, and is refused with `UnknownName`.
/// Example: `a += a` of a bytearray `a` is refused with `BufferError`, also where it has no view.
pub fn adding_itself_is_refused()
    ensures itself { AddingItselfIsRefused }
    ensures others { OnlyByteArraysAreAddedTo }
{}

/// An iterator over a view of one dimension gives its items from where it stands, as the bytes are now, in order and
/// each once, and then it stops for ever.
/// Example: over a view of `b"\x01\x00\x02\x00"` cast to `H` `next` replies 1, 2 and then `stop`.
pub fn iterators_give_the_items()
    ensures { IteratorsGiveTheItems }
{
    pybuf_state::live_layouts_are_sound();
}

/// An iterator over a released view is refused, and an iterator over a view of no dimension or of several is refused
/// while there is an entry for it. A refused iterator doesn't move. Past the last entry it stops for ever, and so it
/// does once it is exhausted.
/// Example: `next` over a released view is refused with `ValueError`, and over two dimensions with `NotImplementedError`.
pub fn iterators_stop_or_stay()
    ensures released { ReleasedViewsAreNotIterated }
    ensures shaped { OtherShapesAreNotIterated }
    ensures past { IteratorsStopPastTheEntries }
    ensures exhausted { ExhaustedIteratorsStop }
{}

/// What is lent of an exporter, of a view or of an iterator holds the items of that, one after the other.
/// Example: what is lent of the view `memoryview(b"abcdef")[::-2]` holds `b"fdb"`.
pub fn snaps_hold_the_items()
    ensures { SnapsHoldTheItems }
{
    pybuf_state::live_layouts_are_sound();
    pybuf_memoryview::contents_are_whole();
    pybuf_verbs_writes::contents_hold_the_items();
}

/// `set` of a view by a slice, where it isn't refused, is by value: where no two items of the target share a byte,
/// item j of the target is afterwards item j of the source as it was before the command, whether the source is bytes
/// that are given, the exporter itself, a view of it, or what another exporter lends. Every byte that is of no item
/// of the target stays, and so do the length, the kind, the views and the iterators.
/// Example: in `bytearray(b"abc")` `m[::-1] = m` of a view `m` of all bytes makes `b"cba"`.
pub fn steps_assign_by_value()
    ensures { StepsAssignByValue }
{
    snaps_hold_the_items();
    pybuf_state::live_layouts_are_sound();
    pybuf_state::subjects_fit();
    pybuf_verbs_writes::assign_is_safe();
    pybuf_verbs_writes::assignments_are_by_value();
}

/// `castf` of a view, where it isn't refused, makes one whose bytes in column order, as `bytes 'F'` and `bytes 'A'` reply
/// them, are those that `bytes` of the view replied.
/// Example: of a view of `b"abcdef"`, `castf 'B' (2,3)` makes a view of which `bytes 'F'` replies `b"abcdef"`.
pub fn column_casts_give_the_bytes_back()
    ensures { ColumnCastsGiveTheBytesBack }
{
    pybuf_desc::no_items_are_no_columns();
    pybuf_state::live_layouts_are_sound();
    commands_keep_sound();
    pybuf_verbs_views::column_casts_hold_the_bytes();
}

/// The bytes of an unreleased view of a sound exporter in column order are those row by row in another order. There
/// are as many, and the item at any indices stands in both, in each at its number in that order.
/// Example: of the items `[[97, 98, 99], [100, 101, 102]]` `bytes` replies `b"abcdef"`, and `bytes 'F'` `b"adbecf"`.
pub fn orders_hold_the_same_items()
    ensures { OrdersHoldTheSameItems }
{
    pybuf_desc::columns_stay_inside();
    pybuf_memoryview::contents_are_whole();
    pybuf_state::live_layouts_are_sound();
    pybuf_verbs_writes::contents_hold_the_items();
}

/// An exporter has exports exactly while one of its views is unreleased. A view that was released doesn't count, and
/// neither does an iterator.
/// Example: a bytearray whose three views were all released replies 0 to `prop exports`.
pub fn released_views_dont_count()
    ensures { ReleasedViewsDontCount }
{}

/// While every view of an exporter is released, no edit of it is refused with `BufferError`, but that which adds a
/// bytearray to itself.
/// Example: `append 1` of a bytearray whose two views were released adds a byte; `iadd` of its own handle is refused.
pub fn released_views_stop_no_edit()
    ensures { ReleasedViewsStopNoEdit }
{
    resizing_is_refused_while_exported();
    unknown_handles_are_refused();
}

/// No command but an edit of an exporter itself is refused with `BufferError`.
/// Example: while a view is unreleased, another is released, written through and cast.
pub fn buffer_error_is_of_edits()
    ensures { BufferErrorIsOfEdits }
{
    effects_are_safe();
    pybuf_state::reading_keeps();
}

/// `view` of an exporter is never refused, and neither is that of an unreleased view: each makes one more view, which
/// is unreleased, and replies its number. Of a view that is released or was never given it is refused, and changes
/// nothing.
/// Example: of a bytearray with two views the next `view` replies view 2.
pub fn views_are_replied()
    ensures { ViewsAreReplied }
{}

/// A handle that was never given is refused with `UnknownName` by every command that takes it, and nothing changes: so
/// `set` of a view at 0 to handle 7 is refused where the loans don't name 7, also where the view is released. So is every
/// command on a view or an iterator that was never given.
///
/// A call without an exporter has a lender in place of loans. A handle that the lender has no snap of is refused so as the
/// source of new bytes, as bytes that are borrowed, read, packed, searched for or added, as a prefix or suffix, as a fill
/// byte and as a table.
/// Example: `concat` of handle 7 is refused so with the lender `NoHandles`.
pub fn unknown_handles_are_refused()
    ensures commands { UnknownHandlesAreRefused }
    ensures lenders { UnlentHandlesAreRefused }
{}

/// Where no two items of any view of an exporter share a byte, that is so after every command.
/// Example: a slice `::2` of a view of bytes has items at 0, 2 and so on, and no two of them share a byte.
pub fn commands_keep_items_apart()
    ensures { CommandsKeepItemsApart }
{
    effects_are_safe();
    pybuf_state::reading_keeps();
}

/// A view or an iterator that a command replies is one that its exporter then has.
/// Example: after a command that replied `View(0)`, `view_count()` is at least 1.
pub fn replied_names_are_there()
    ensures { RepliedNamesAreThere }
{
    effects_are_safe();
    pybuf_state::reading_keeps();
}

/// Every view and every iterator that an exporter has it has after every command, by the same number.
/// Example: the view 0 is still the view 0 after `release`, and after each command that follows.
pub fn subjects_stay()
    ensures { SubjectsStay }
{
    effects_are_safe();
    pybuf_state::reading_keeps();
}

/// A command whose reply owns memory changes nothing, unless it is `take` of a vector or `next`.
/// Example: `bytes` of `bytearray(b"abc")` replies `b"abc"`, which owns memory, and the bytearray is as before.
pub fn owning_replies_change_nothing()
    ensures { OwningRepliesChangeNothing }
{}

/// `take` replies all bytes, or what owns no memory.
pub(crate) fn taken_bytes_are_all()
    ensures { TakenBytesAreAll }
{}

/// `next` is undone where its iterator is put as it was, and changes nothing where there is no such iterator.
pub(crate) fn next_is_undone()
    ensures undone { NextIsUndone }
    ensures none { NoIteratorHasNoNext }
{}

/// Over any list of calls each of which takes the first bytes out or adds bytes at the end, commands and calls by plain
/// arguments in any order, the counter of moved bytes rises by at most the first room and the number of bytes that are
/// taken out together. A call by plain arguments owes two clauses for it, `PaysAtEnd` and `LeavesRoom`, which
/// `append_bytes_counted` and `remove_front_counted` have.
/// Example: from no room, ten commands `pop 0` and any appends between them move at most ten bytes.
pub fn queues_move_few_bytes()
    ensures { QueuesMoveFewBytes }
{}
