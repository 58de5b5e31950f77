//! Positions of items by their indices.
ghost use Rattle.std.specs.Prelude.{◌≡◌, ◌+ℤ◌, ℤ, Some, Contains, slice_get, length, IfOk};
ghost use Rattle.pybuf_desc.specs.Places.{places};
ghost use Rattle.pybuf_desc.specs.Valid.{IsPlaceable};
ghost use Rattle.pybuf_desc.specs.Positions.{AreIndices, offset_of, number_of_item, position_of};

use crate::descriptor::BufferDescriptor;
use pybuf_index::entry_in;
use pybuf_value::Fault;

impl BufferDescriptor {
    /// The place of an item less the start, in bytes, which is the sum of index times stride. There is one index for
    /// each dimension, each in range. Takes no memory.
    /// Example: with the strides 3 and 1 the indices `[1, 2]` give 5.
    pub fn fast_position(&self, indices: &[usize]) -> isize
        requires valid { IsPlaceable self.now }
        requires in_range { AreIndices indices.now self.now.dims }
        ensures sum { result ≡ offset_of indices.now self.now.dims }
        ensures place { (start : ℤ) → slice_get (places self.now.dims start) (number_of_item indices.now self.now.dims) ≡ Some (start +ℤ result) }
    {
        let dims = self.dim_desc();
        let mut offset: isize = 0;
        for k in 0..dims.len() {
            offset += indices[k] as isize * dims[k].1;
        }
        offset
    }

    /// The place of an item less the start, in bytes, where a negative index counts from the end. There is one index
    /// for each dimension. Takes no memory.
    ///
    /// Refused with `IndexError` exactly where an index is out of bounds.
    /// Example: of the shape `[2, 3]` with the strides 3 and 1, `[-1, -1]` gives `Ok(5)`, and `[2, 0]` `Err(Fault::Index)`.
    pub fn position(&self, indices: &[isize]) -> Result<isize, Fault>
        requires valid { IsPlaceable self.now }
        requires one_each { length indices.now ≡ length self.now.dims }
        ensures sum { result ≡ position_of indices.now self.now.dims }
        ensures place { IfOk result (λ offset. (start : ℤ) → Contains (places self.now.dims start) (start +ℤ offset)) }
    {
        let dims = self.dim_desc();
        match dims.first() {
            None => return Ok(0),
            Some(first) => {
                if first.0 == 0 {
                    return Err(Fault::Index);
                }
            }
        }
        let mut offset: isize = 0;
        for k in 0..dims.len() {
            let index = entry_in(dims[k].0, indices[k])?;
            offset += index as isize * dims[k].1;
        }
        Ok(offset)
    }
}
