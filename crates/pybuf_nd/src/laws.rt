//! Laws of the definitions that the contracts cite. Each stands on a function with an empty body.
ghost use Rattle.pybuf_nd.specs.Laws.{ViewsGoByIndices, ChainsStand, TransposingTwiceIsNothing, TranspositionsAreColumnOrder};

/// The item of a view that is made by indices lies, at any indices, where the given view's lies at the
/// indices that are made of them.
/// Example: in `items[::-1, ::1]` of two rows the item at `(0, 2)` lies where that of `items` at `(1, 2)` lies.
pub fn views_go_by_indices()
    ensures { ViewsGoByIndices }
{}

/// However many views are made one of another, the last descriptor is valid for the same bytes, and stands
/// for the view that the steps make of the view that the first one stands for.
/// Example: the descriptor of `items.T` of a slice of `items` is valid for the bytes of `items`.
pub fn chains_stand()
    ensures { ChainsStand }
{}

/// The transposition of a transposition has each item where it was.
/// Example: `items.T.T` has each item where `items` has it.
pub fn transposing_twice_is_nothing()
    ensures { TransposingTwiceIsNothing }
{}

/// The bytes of the items of a transposition, row-major, are those of the view's items in column order.
/// Example: of `[[97, 98, 99], [100, 101, 102]]` both are `b"adbecf"`.
pub fn transpositions_are_column_order()
    ensures { TranspositionsAreColumnOrder }
{}
