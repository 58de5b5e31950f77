//! Laws of the definitions that the contracts cite. Each stands on a function with an empty body, or
//! one that cites laws of the crates below.
ghost use Rattle.pybuf_verbs_views.specs.Laws.{ViewIsSafe, RangeIsSafe, SliceIsSafe, CastIsSafe, ColumnCastIsSafe, ColumnCastsHoldTheBytes, CastsAreOfBytes, ReleaseIsSafe, EnterIsSafe, ContiguousIsCopied, ToReadonlyIsSafe, ReleasingTwiceIsOnce};

/// Where `view` isn't refused, it leaves a sound exporter sound, and its reply is no refusal.
/// Example: after `view` of `bytearray(b"abc")` all items of the new view lie inside the three bytes.
pub fn view_is_safe()
    ensures { ViewIsSafe }
{
    pybuf_state::new_views_keep();
    pybuf_state::whole_layouts_are_sound();
    pybuf_state::live_layouts_are_sound();
    pybuf_state::live_layouts_lie_apart();
    pybuf_desc::whole_layouts_lie_apart();
}

/// Where `range` isn't refused, it leaves a sound exporter sound, and its reply is no refusal.
/// Example: after `range 1 4` of `b"abcdef"` the items of the new view lie at 1, 2 and 3.
pub fn range_is_safe()
    ensures { RangeIsSafe }
{
    pybuf_state::new_views_keep();
    pybuf_state::part_layouts_are_sound();
    pybuf_desc::whole_layouts_lie_apart();
}

/// Where `get` of a view by a slice isn't refused, it leaves a sound exporter sound, and its reply is no refusal.
/// Example: after `get ::-2` of a view of `b"abcdef"` the items of the new view lie at 5, 3 and 1.
pub fn slice_is_safe()
    ensures { SliceIsSafe }
{
    pybuf_state::new_views_keep();
    pybuf_state::live_layouts_are_sound();
    pybuf_state::live_layouts_lie_apart();
    pybuf_desc::slices_stay_inside();
    pybuf_desc::slices_have_their_shape();
    pybuf_desc::slices_lie_apart();
}

/// Where `cast` isn't refused, it leaves a sound exporter sound, and its reply is no refusal.
/// Example: after `cast 'H'` of a view of four bytes the items of the new view lie at 0 and 2.
pub fn cast_is_safe()
    ensures { CastIsSafe }
{
    pybuf_state::new_views_keep();
    pybuf_state::live_layouts_are_sound();
    pybuf_desc::casts_stay_inside();
    pybuf_desc::casts_have_their_shape();
    pybuf_desc::shaped_casts_stay_inside();
    pybuf_desc::shaped_casts_have_their_shape();
    pybuf_desc::casts_lie_apart();
    pybuf_desc::column_casts_stay_inside();
    pybuf_desc::column_casts_have_their_shape();
    pybuf_desc::column_casts_lie_apart();
    pybuf_struct::native_codes_have_their_size();
}

/// Where `castf` isn't refused, it leaves a sound exporter sound, and its reply is no refusal.
/// Example: after `castf 'B' (2,3)` of a view of six bytes the items of the new view lie inside them.
pub fn column_cast_is_safe()
    ensures { ColumnCastIsSafe }
{
    pybuf_state::new_views_keep();
    pybuf_state::live_layouts_are_sound();
    pybuf_desc::casts_stay_inside();
    pybuf_desc::casts_have_their_shape();
    pybuf_desc::shaped_casts_stay_inside();
    pybuf_desc::shaped_casts_have_their_shape();
    pybuf_desc::casts_lie_apart();
    pybuf_desc::column_casts_stay_inside();
    pybuf_desc::column_casts_have_their_shape();
    pybuf_desc::column_casts_lie_apart();
    pybuf_struct::native_codes_have_their_size();
}

/// A cast that is carried out is one to a format of one native code, and that format or the view's has single bytes as
/// items.
/// Example: `cast 'H'` of a view of the format `B` is carried out, and `cast 'I'` of one of the format `H` is refused.
pub fn casts_are_of_bytes()
    ensures { CastsAreOfBytes }
{}

/// What `castf` makes of a view has, in column order, the bytes of that view.
/// Example: of a view of `b"abcdef"`, `castf 'B' (2,3)` makes a view of which `bytes 'F'` replies `b"abcdef"`.
pub fn column_casts_hold_the_bytes()
    ensures { ColumnCastsHoldTheBytes }
{
    pybuf_state::live_layouts_are_sound();
    pybuf_desc::column_casts_are_f_contiguous();
    pybuf_desc::column_casts_give_the_bytes_back();
    pybuf_struct::native_codes_have_their_size();
}

/// Where `release` isn't refused, it leaves a sound exporter sound, and its reply is no refusal.
/// Example: after `release` of the only view `exports` is 0.
pub fn release_is_safe()
    ensures { ReleaseIsSafe }
{
    pybuf_state::releasing_keeps();
}

/// Where `enter` isn't refused, it leaves a sound exporter sound, and its reply is no refusal.
/// Example: `enter` of an unreleased view replies the view itself.
pub fn enter_is_safe()
    ensures { EnterIsSafe }
{
    pybuf_state::reading_keeps();
}

/// Where `contig` isn't refused, it leaves the exporter as it is, and replies a copy of the view.
/// Example: of the view `memoryview(b"abcdef")[::-2]` the copy has the bytes `b"fdb"`.
pub fn contiguous_is_copied()
    ensures { ContiguousIsCopied }
{}

/// Where `toreadonly` isn't refused, it leaves a sound exporter sound, and its reply is no refusal.
/// Example: after `toreadonly` the new view has its items where the view has them.
pub fn toreadonly_is_safe()
    ensures { ToReadonlyIsSafe }
{
    pybuf_state::new_views_keep();
    pybuf_state::live_layouts_are_sound();
    pybuf_state::live_layouts_lie_apart();
}

/// Releasing a view twice is releasing it once.
/// Example: after `release` of a view a second `release` replies `ok`, and changes nothing.
pub fn releasing_twice_is_once()
    ensures { ReleasingTwiceIsOnce }
{}
