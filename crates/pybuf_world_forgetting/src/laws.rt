//! The laws of forgetting in a world.
ghost use Rattle.pybuf_world_forgetting.specs.Laws.{ForgettingChangesNoWorldStep, WorldsThatForgetAlikeRunAlike};

/// Every command of a world replies the same, whether the exporters have forgotten or not, and leaves the same bytes. The
/// worlds after it are the same again once both have forgotten.
/// Example: `compare` of a view with a released view of another exporter replies `False`, as before.
pub fn forgetting_changes_no_world_reply()
    ensures { ForgettingChangesNoWorldStep }
{
    pybuf_exporter::fresh_replies_are_copies();
    pybuf_forgetting::forgetting_twice_is_forgetting_once();
    pybuf_forgetting::forgetting_changes_no_reply();
    pybuf_forgetting::forgotten_loans_change_no_reply();
    pybuf_forgetting::forgotten_pairs_change_no_bytes();
}

/// Worlds that are the same once all their exporters have forgotten reply the same to every list of commands, and have the
/// same bytes after it.
/// Example: a world of two exporters of which one forgets replies as the world in which none does.
pub fn worlds_that_forget_alike_run_alike()
    ensures { WorldsThatForgetAlikeRunAlike }
{
    forgetting_changes_no_world_reply();
}
