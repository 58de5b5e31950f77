//! What it costs to add bytes behind free room.
ghost use Rattle.std.specs.Prelude.{ℕ, List};
ghost use Rattle.pybuf_front.specs.FrontContent.{FrontContent, AddingIsPaidByRoom};

/// Adding bytes behind free room is paid by the room: each byte that is moved to the start uses up a byte of
/// room, and each moves at most once. Afterwards there is no room, or less than there are bytes. So a queue that
/// only takes from the front and adds at the end moves at most as many bytes as were taken.
///
/// Example: four bytes behind a room of six move once and leave no room, and four behind a room of three stay.
pub fn adding_is_paid_by_room()
    ensures { (f : FrontContent) (added : List ℕ) → AddingIsPaidByRoom f added }
{}
