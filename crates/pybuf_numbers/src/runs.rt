//! Lists of indices one stride apart, kept as a first one, a stride and a count.
ghost use Rattle.std.specs.Prelude.{◌≡◌, ℕ, ◌<◌, ◌≤◌, ◌^◌, length, slice_index};
ghost use Rattle.std.specs.List.{range_with_len};
ghost use Rattle.pybuf_index.specs.Parts.{picks_of};
ghost use Rattle.pybuf_slice.specs.Reads.{elements_at};
ghost use Rattle.pybuf_numbers.specs.Walks as spec;

use pybuf_index::{SaturatedSlice, indices_of_a_span};

/// Indices one stride apart, upwards or downwards. A clause sees the list of them (`indices_of`).
///
/// Example: the start 4, the stride 2, the count 3 and `falls` are the indices 4, 2, 0.
#[derive(Clone, Copy, Debug)]
pub struct IndexRun {
    /// The first index.
    pub start: usize,
    /// How far each is from the one before it.
    pub stride: usize,
    /// How many there are.
    pub count: usize,
    /// Whether each is below the one before it.
    pub falls: bool,
}

/// Whether one of two is so and the other isn't.
fn differ(one: bool, other: bool) -> bool
    ensures { result ≡ spec.differ one other }
{
    if one { !other } else { other }
}

impl IndexRun {
    /// No index.
    fn none() -> IndexRun
        ensures { result ≡ spec.no_run }
    {
        IndexRun {
            start: 0,
            stride: 1,
            count: 0,
            falls: false,
        }
    }

    /// The indices of so many items, from 0 up.
    ///
    /// Example: `IndexRun::all(3)` is 0, 1, 2.
    pub fn all(count: usize) -> IndexRun
        ensures indices { spec.indices_of result ≡ range_with_len 0 count }
        ensures count { result.count ≡ count }
        ensures inside { spec.LiesBelow count result }
    {
        IndexRun {
            start: 0,
            stride: 1,
            count,
            falls: false,
        }
    }

    /// How many indices there are.
    ///
    /// Example: `IndexRun::all(3).len()` is 3.
    pub fn len(&self) -> usize
        ensures indices { result ≡ length (spec.indices_of self.now) }
        ensures count { result ≡ self.now.count }
    {
        self.count
    }

    /// The index at a place.
    ///
    /// Example: of the indices 4, 2, 0 at 1 it is 2.
    pub fn at(&self, place: usize) -> usize
        requires there { place < self.now.count }
        requires inside { spec.LiesBelow (2 ^ 63) self.now }
        ensures index { result ≡ slice_index (spec.indices_of self.now) place }
        ensures walk { result ≡ spec.place_of self.now.falls self.now.start self.now.stride place }
        ensures below { (n : ℕ) → spec.LiesBelow n self.now → result < n }
    {
        let far = place * self.stride;
        if self.falls {
            self.start - far
        } else {
            self.start + far
        }
    }

    /// The indices of the slice of a list of so many items.
    fn of_slice(slice: &SaturatedSlice, count: usize) -> IndexRun
        requires { count < 2 ^ 63 }
        ensures indices { spec.indices_of result ≡ picks_of count slice.now }
        ensures inside { spec.LiesBelow count result }
        ensures few { result.count ≤ count }
    {
        indices_of_a_span();
        let (span, step, picks) = slice.adjust_indices(count);
        if picks == 0 {
            return IndexRun::none();
        }
        let stride = step.unsigned_abs();
        if step < 0 {
            return IndexRun {
                start: span.end - 1,
                stride,
                count: picks,
                falls: true,
            };
        }
        IndexRun {
            start: span.start,
            stride,
            count: picks,
            falls: false,
        }
    }

    /// The indices at the places of another run.
    fn chosen(&self, places: &IndexRun) -> IndexRun
        requires inside { spec.LiesBelow (2 ^ 63) self.now }
        requires places { spec.LiesBelow self.now.count places.now }
        ensures indices { spec.indices_of result ≡ elements_at (spec.indices_of self.now) (spec.indices_of places.now) }
        ensures inside { (n : ℕ) → spec.LiesBelow n self.now → spec.LiesBelow n result }
        ensures few { result.count ≤ places.now.count }
    {
        if places.count == 0 {
            return IndexRun::none();
        }
        let start = self.at(places.start);
        if places.count == 1 {
            return IndexRun {
                start,
                stride: 1,
                count: 1,
                falls: false,
            };
        }
        IndexRun {
            start,
            stride: self.stride * places.stride,
            count: places.count,
            falls: differ(self.falls, places.falls),
        }
    }

    /// Those of the indices that a slice picks. It takes as long whatever their number.
    ///
    /// Example: of the indices 0, 1, 2, 3, 4 by the slice `::2` it is 0, 2, 4.
    pub fn picked(&self, slice: &SaturatedSlice) -> IndexRun
        requires few { self.now.count < 2 ^ 63 }
        requires inside { spec.LiesBelow (2 ^ 63) self.now }
        ensures indices { spec.indices_of result ≡ elements_at (spec.indices_of self.now) (picks_of (length (spec.indices_of self.now)) slice.now) }
        ensures inside { (n : ℕ) → spec.LiesBelow n self.now → spec.LiesBelow n result }
        ensures few { result.count ≤ self.now.count }
    {
        let places = IndexRun::of_slice(slice, self.count);
        self.chosen(&places)
    }
}
