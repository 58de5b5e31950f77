//! Typed arrays.
ghost use Rattle.std.specs.Prelude.{◌≡◌, ◌<◌, ◌^◌, length};
ghost use Rattle.pybuf_array.specs.Array as spec;

use pybuf_numbers::{ArrayCode, IndexRun, count_of_numbers};
use pybuf_object::PyByteArray;
use std::alloc::Global;
use std::marker::Model;

/// Python's `array` of whole numbers of one code, and the memoryviews of it (Library reference, "array: Efficient
/// arrays of numeric values"). While a view is unreleased, no number is added or taken out.
///
/// A clause sees the code, the numbers, and of each view that was ever made which numbers it shows and whether it was
/// released.
/// Example: with the code of `h` and the numbers 1 and -2 it stands for Python's `array('h', [1, -2])`.
#[derive(Debug, Drop)]
pub struct PyArray {
    pub(crate) code: ArrayCode,
    /// The numbers' bytes, with a view of all of them for each view of the array.
    pub(crate) bytes: PyByteArray,
    /// Which numbers each view shows.
    pub(crate) runs: Vec<IndexRun>,
    pub(crate) alloc: Global,
}

impl Model for PyArray {
    ghost use Rattle.pybuf_array.specs.Array.{Array};
    ghost use Rattle.pybuf_array.specs.Parts.{array_of, IsSoundArray};

    ghost Value = { Array };

    ghost view = { λ a. array_of a.code a.bytes a.runs.items };

    ghost invariant = { λ a. IsSoundArray a.code a.bytes a.runs.items };
}

impl PyArray {
    /// An array of no numbers, and no view of it. Takes no memory.
    /// Example: with the code of `h` it is Python's `array('h')`.
    pub fn new(alloc: Global, code: ArrayCode) -> PyArray
        ensures { result ≡ spec.new_array code }
    {
        PyArray {
            code,
            bytes: PyByteArray::from_vec(alloc, Vec::new(alloc)),
            runs: Vec::new(alloc),
            alloc,
        }
    }

    /// The code of its numbers. Takes no memory.
    /// Example: of Python's `array('h', [1])` it is the code that `ArrayCode::from_byte(b'h')` gives.
    pub fn code(&self) -> ArrayCode
        ensures { result ≡ self.now.code }
    {
        self.code
    }

    /// The number of numbers, as Python's `len(array)`. Takes no memory.
    /// Example: of `array('h', [1, -2])` it is 2.
    pub fn len(&self) -> usize
        ensures count { result ≡ length self.now.numbers }
        ensures small { result < 2 ^ 63 }
    {
        let bytes = self.bytes.as_slice();
        let _room = bytes.len();
        count_of_numbers(self.code, bytes)
    }

    /// The number of unreleased views. Takes no memory.
    /// Example: it is 1 after `view`, and 0 once that view is released.
    pub fn exports(&self) -> usize
        ensures { result ≡ spec.exports_in self.now }
    {
        self.bytes.state().exports()
    }
}
