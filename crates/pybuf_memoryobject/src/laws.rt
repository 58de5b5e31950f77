//! Laws of the definitions that the contracts cite. Each stands on a function with an empty body.
ghost use Rattle.pybuf_memoryobject.specs.Laws.{AllIsViewed, SlicesAreMade, CastsAreMade, ReleasesRelease, IndicesGet, VectorsAreBytes, ShapesAreShown, StridesAreShown, BytesAreAssigned, LentIsAssigned};

/// The calls of a memoryview with plain arguments that make and release views do what the commands `view`, `get`, `cast`
/// and `release` do, and answer what those reply.
/// Example: what `view.slice(state, 1..4)` changes and answers is what `get 1:4:None` of the view changes and replies.
pub fn plain_views_are_commands()
    ensures all { AllIsViewed }
    ensures slice { SlicesAreMade }
    ensures cast { CastsAreMade }
    ensures release { ReleasesRelease }
{}

/// The calls of a memoryview with plain arguments that read answer what the commands `get`, `bytes` and `prop` reply.
/// Example: `view.index(state, -1)` of the items 1, 2, 3 is the item 3, and the command `get -1` replies 3.
pub fn plain_items_are_commands()
    ensures index { IndicesGet }
    ensures bytes { VectorsAreBytes }
    ensures shape { ShapesAreShown }
    ensures strides { StridesAreShown }
{}

/// The calls of a memoryview with plain arguments that write items of a slice do what the command `set` does, and
/// answer what it replies.
/// Example: what `view.assign(state, 0..2, b"12")` changes is what the command `set 0:2:None x3132` of the view changes.
pub fn plain_assignments_are_commands()
    ensures bytes { BytesAreAssigned }
    ensures lent { LentIsAssigned }
{}
