//! The laws of forgetting.
ghost use Rattle.pybuf_forgetting.specs.Laws.{ForgettingChangesNoRun, ForgettingChangesNoSnap, ForgettingChangesNoStep, ForgettingChangesNoStepByNames, ForgettingKeepsAllElse, ForgettingKeepsItemsApart, ForgettingKeepsSound, ForgettingLeavesNothing, ForgettingTwiceIsForgettingOnce, ForgottenLoansChangeNoStep, ForgottenPairsChangeNoBytes};

/// An exporter that has forgotten is no other after it forgets again.
/// Example: of two released views of `b"abc"` both are the released view of no bytes, after the first time and after the second.
pub fn forgetting_twice_is_forgetting_once()
    ensures { ForgettingTwiceIsForgettingOnce }
{}

/// After forgetting all released views are one and the same view without bytes, and each exhausted iterator stands at 0.
/// Example: of a view of four bytes of the format `I` that is released nothing is left but that it was released.
pub fn forgetting_leaves_nothing()
    ensures { ForgettingLeavesNothing }
{}

/// Forgetting leaves the kind and the bytes, all numbers, the number of unreleased views, each unreleased view and each
/// iterator that isn't exhausted. Released views are released afterwards too, and exhausted iterators exhausted.
/// Example: of a view 0 that is released and a view 1 that isn't, view 1 has the same layout, and the next view is view 2.
pub fn forgetting_keeps_all_else()
    ensures { ForgettingKeepsAllElse }
{}

/// A sound exporter is sound after it forgets, and where no two items of any view share a byte, that stays so.
/// Example: a released view of four bytes of the format `I` becomes one of no bytes of the format `B`, which is sound too.
pub fn forgetting_keeps_sound()
    ensures sound { ForgettingKeepsSound }
    ensures apart { ForgettingKeepsItemsApart }
{
    pybuf_state::whole_layouts_are_sound();
}

/// Every command replies the same, whether the exporter has forgotten or not, and leaves the same bytes. The exporters
/// after it are the same again once both have forgotten.
/// Example: `prop nbytes` of a released view is refused with `ValueError`, and `repr` replies `<released memory 0>`, as before.
pub fn forgetting_changes_no_reply()
    ensures loans { ForgettingChangesNoStep }
    ensures names { ForgettingChangesNoStepByNames }
{}

/// What is made from the bytes of a handle has the same bytes where released views that handles name were forgotten.
/// Example: `bytearray` of the handle of a released view is refused with `ValueError`, as before.
pub fn forgotten_pairs_change_no_bytes()
    ensures { ForgottenPairsChangeNoBytes }
{}

/// A command does the same where the other exporters that lend to it have forgotten.
/// Example: `extend` of a bytearray by a released view of another one is refused with `ValueError`, as before.
pub fn forgotten_loans_change_no_reply()
    ensures loans { ForgottenLoansChangeNoStep }
    ensures snaps { ForgettingChangesNoSnap }
{}

/// A run of commands replies the same, wherever the exporter forgets in it and however often, and at its end there are
/// the same bytes.
/// Example: a view is made, released and asked for `len`; the replies are the same where the exporter forgets in between.
pub fn forgetting_changes_no_run()
    ensures { ForgettingChangesNoRun }
{}
