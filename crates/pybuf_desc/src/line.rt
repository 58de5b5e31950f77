//! Ranges of bytes in equal steps.
ghost use Rattle.std.specs.Prelude.{◌≡◌, ◌<◌, pos, map};
ghost use Rattle.std.specs.List.{AllByRecursion};
ghost use Rattle.pybuf_desc.specs.Valid.{IsInside};
ghost use Rattle.pybuf_desc.specs.Segments.{line, range_at};
ghost use Rattle.pybuf_desc.specs.SegmentLines.{ranges_of_line, IsLine};

use pybuf_strided::Track;

/// Ranges of `size` bytes each, `count` of them, whose starts lie in equal steps.
/// Example: the ranges `0..2`, `5..7` and `10..12` are a line of size 2 and count 3.
#[derive(Clone, Copy, Debug)]
pub struct SegmentLine {
    /// Where the ranges start: the start of the first, and the step from one to the next.
    pub track: Track,
    /// The number of bytes of each range.
    pub size: usize,
    /// The number of ranges.
    pub count: usize,
}

/// The ranges at so many places, each a stride after the one before it.
pub(crate) fn line_of(start: usize, stride: isize, count: usize, size: usize) -> SegmentLine
    requires some { 0 < count }
    requires inside { AllByRecursion (IsInside size 9223372036854775807) (line (pos start) stride count) }
    ensures ranges { ranges_of_line result ≡ map (range_at size) (line (pos start) stride count) }
    ensures line { IsLine result }
    ensures count { result.count ≡ count }
{
    let track = Track {
        start,
        step: stride.unsigned_abs(),
        falls: stride < 0,
    };
    SegmentLine { track, size, count }
}
