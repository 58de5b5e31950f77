//! The parts of a picture of two rows, three columns and three channels, with their sizes.
ghost use Rattle.std.specs.Prelude.{◌≡◌, IfOk};
ghost use Rattle.golden_picture.specs.Sizes.{HasSize};

use example_picture::Picture;
use pybuf_buffer::PyBuffer;
use pybuf_value::Made;

/// The whole picture.
pub fn whole(picture: &mut Picture) -> Made<PyBuffer>
    requires rows { picture.old.rows ≡ 2 }
    requires columns { picture.old.columns ≡ 3 }
    requires channels { picture.old.channels ≡ 3 }
    ensures { IfOk result (λ part. HasSize picture.new part 2 3 3) }
{
    picture.whole()
}

/// Its last two columns.
pub fn cropped(picture: &mut Picture, part: &PyBuffer) -> Made<PyBuffer>
    requires { HasSize picture.old part.now 2 3 3 }
    ensures { IfOk result (λ made. HasSize picture.new made 2 2 3) }
{
    picture.crop(part, 0..2, 1..3)
}

/// These in each other's place.
pub fn flipped(picture: &mut Picture, part: &PyBuffer) -> Made<PyBuffer>
    requires { HasSize picture.old part.now 2 2 3 }
    ensures { IfOk result (λ made. HasSize picture.new made 2 2 3) }
{
    picture.flip(part)
}

/// And turned to the right.
pub fn turned(picture: &mut Picture, part: &PyBuffer) -> Made<PyBuffer>
    requires { HasSize picture.old part.now 2 2 3 }
    ensures { IfOk result (λ made. HasSize picture.new made 2 2 3) }
{
    picture.turn(part)
}
