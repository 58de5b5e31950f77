//! Laws of the definitions that the contracts cite.
ghost use Rattle.pybuf_verbs_writes.specs.Laws.{SetIsSafe, AssignIsSafe, WritesAreSeen, AssignmentsAreByValue, ContentsHoldTheItems};

/// Where `set` isn't refused, it leaves a sound exporter sound, and its reply is no refusal.
/// Example: `set 0 65` of `bytearray(b"abc")` leaves three bytes.
pub fn set_is_safe()
    ensures { SetIsSafe }
{
    pybuf_state::writing_keeps();
    pybuf_state::live_layouts_are_sound();
    pybuf_struct::packing_fills_the_format();
    pybuf_memoryview::keys_name_items();
}

/// Where `set` of a view by a slice isn't refused, it leaves a sound exporter sound, and its reply is no refusal.
/// Example: `set 0:2:None x3132` of a view of `b"abc"` leaves three bytes.
pub fn assign_is_safe()
    ensures { AssignIsSafe }
{
    pybuf_state::writing_keeps();
    pybuf_state::live_layouts_are_sound();
    pybuf_desc::slices_stay_inside();
}

/// What is written through one view is read through every view of the same format that has an item there, and no
/// other byte changes. A number is read back whole, a truth value for `?`, and bytes cut or filled with zeros.
/// Example: after `set 0 258` through a view of the format `H` another view of that format at 0 reads 258.
pub fn writes_are_seen()
    ensures { WritesAreSeen }
{
    pybuf_state::live_layouts_are_sound();
    pybuf_struct::packing_fills_the_format();
    pybuf_struct::reads_what_was_written();
}

/// Where `set` of a view by a slice isn't refused, it is by value. That means: where no two items of the target share
/// a byte, item k of the target is afterwards item k of the source as it was before, for all strides of both, also
/// where they overlap or are one. Every byte that is of no item of the target stays, and so do the length and the
/// views.
/// Example: over the slice `::-1` of a view of `b"abc"` the view itself makes `b"cba"`.
pub fn assignments_are_by_value()
    ensures { AssignmentsAreByValue }
{
    pybuf_state::live_layouts_are_sound();
    pybuf_desc::slices_stay_inside();
    pybuf_desc::slices_have_their_shape();
}

/// The bytes of a view whose items lie inside are those of its items, one item after the other.
/// Example: the items at 5, 3 and 1 of `b"abcdef"` have the bytes `b"fdb"`.
pub fn contents_hold_the_items()
    ensures { ContentsHoldTheItems }
{}
