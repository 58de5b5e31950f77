//! Laws of the definitions that the contracts cite.
ghost use Rattle.pybuf_scoped.specs.Laws.{ScopesLeaveNoExport, GroupsLeaveNoExport};

/// A view that is made, through which bytes may be written, and whose scope ends, leaves as many views unreleased as
/// there were before. So a bytearray without other views can be resized again.
/// Example: after `{ let mut view = View::of(array.state_mut())?; view.set(0, 65)?; }` the call `array.push(66)` is done.
pub fn scopes_leave_no_export()
    ensures { ScopesLeaveNoExport }
{}

/// Views of a group that are made, through which bytes may be written, and that end with the group, leave as many views
/// unreleased as there were before.
/// Example: after a `ViewGroup` of a bytearray without other views is dropped, the call `array.push(66)` is done.
pub fn groups_leave_no_export()
    ensures { GroupsLeaveNoExport }
{}
