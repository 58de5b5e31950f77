//! Descriptors: their fields as Python's memoryviews show them, copies of dimensions in each number in which they are kept,
//! and what describes no items. Ranges and slices are those of Python in the program `golden_ranges`, casts to a shape in
//! `golden_columns`.
use crate::telling::{tell, tell_number, tell_truth};
use pybuf_desc::BufferDescriptor;
use pybuf_value::{DimList, Fault, Made, Text, Twin};
use std::alloc::Global;
use std::test::Fail;

fn descriptor_of(alloc: Global, len: usize, dims: &[(usize, isize)]) -> Made<BufferDescriptor> {
    let mut list = DimList::new(alloc);
    for (shape, stride) in dims {
        list.push((*shape, *stride, 0))?;
    }
    Ok(BufferDescriptor::raw(len, false, 1, Text::new(alloc), list))
}

/// Tells the number of bytes, whether they may only be read, the size of an item, its format, and entries, stride and
/// suboffset of each dimension.
fn tell_fields(told: &mut Vec<u8>, descriptor: Made<BufferDescriptor>) {
    if let Ok(d) = descriptor {
        tell_number(told, d.len() as i128);
        tell_truth(told, d.readonly());
        tell_number(told, d.itemsize() as i128);
        tell(told, d.format_text().as_slice());
        for (shape, stride, suboffset) in d.dim_desc() {
            tell_number(told, *shape as i128);
            tell_number(told, *stride as i128);
            tell_number(told, *suboffset as i128);
        }
    }
}

/// The bytes of a read-only descriptor as items of two bytes.
fn words_of_bytes(alloc: Global) -> Made<BufferDescriptor> {
    let bytes = BufferDescriptor::simple(alloc, 6, true)?;
    if !bytes.is_contiguous() {
        return Ok(bytes);
    }
    if bytes.len() % 2 != 0 {
        return Ok(bytes);
    }
    let format = Text::from_str(alloc, "H")?;
    bytes.cast_flat(alloc, format, 2)
}

/// Numbers of two bytes, one after the other, as they lie in a copy of them.
fn words(alloc: Global) -> Made<BufferDescriptor> {
    BufferDescriptor::format(alloc, 6, false, 2, Text::from_str(alloc, "h")?)?.to_row_major(alloc)
}

/// Tells a copy, and one that may only be read.
fn tell_copies(told: &mut Vec<u8>, alloc: Global, descriptor: Made<BufferDescriptor>) {
    if let Ok(d) = descriptor {
        tell_fields(told, d.copy(alloc));
        tell_fields(told, d.to_readonly(alloc));
    }
}

/// Dimensions, and what is told of two copies: entries and strides are those that were given.
const COPIES: [&[(usize, isize)]; 4] = [
    &[],
    &[(2, -12)],
    &[(2, -12), (2, 8)],
    &[(2, -12), (2, 8), (2, 1)],
];

// The first two descriptors are those of `memoryview(bytes(6)).cast('H')` and `memoryview(array('h', [0, 0, 0]))` in
// Python 3. They have no `suboffsets`.
#[test]
fn descriptors_and_copies_have_the_fields_of_python(rt: HostRuntime) -> Result<(), Fail> {
    let alloc = rt.alloc();
    let mut told = Vec::new(alloc);
    tell_fields(&mut told, words_of_bytes(alloc));
    tell_fields(&mut told, words(alloc));
    for dims in &COPIES {
        tell_copies(&mut told, alloc, descriptor_of(alloc, 24, dims));
    }
    assert!(rt; told.as_slice() == FIELDS.as_bytes());
    Ok(())
}

const FIELDS: &str =
    " 6 yes 2 H 3 2 0 6 no 2 h 3 2 0 24 no 1  24 yes 1  24 no 1  2 -12 0 24 yes 1  2 -12 0 24 no 1  2 -12 0 2 8 0 24 yes 1  2 -12 0 2 8 0 24 no 1  2 -12 0 2 8 0 2 1 0 24 yes 1  2 -12 0 2 8 0 2 1 0";

/// Lengths, dimensions and starts that describe no items in 24 bytes: a stride of 0, an entry of 0 after the first, a length
/// that the entries don't make up, more entries than fit `isize`, items past the end of the bytes, and items before their
/// start.
const REFUSED: [(usize, &[(usize, isize)], usize); 6] = [
    (4, &[(4, 0)], 0),
    (0, &[(2, 4), (0, 1)], 0),
    (5, &[(4, 1)], 0),
    (0, &[(0, 1), (usize::MAX, 1), (usize::MAX, 1)], 0),
    (4, &[(4, 1)], 21),
    (4, &[(4, -1)], 2),
];

fn is_refused(alloc: Global, len: usize, dims: &[(usize, isize)], start: usize) -> bool {
    matches!(descriptor_of(alloc, len, dims), Ok(d) if d.validate(start, 24) == Err(Fault::Value))
}

#[test]
fn what_is_not_valid_is_refused(rt: HostRuntime) -> Result<(), Fail> {
    for (len, dims, start) in &REFUSED {
        assert!(rt; is_refused(rt.alloc(), *len, dims, *start));
    }
    Ok(())
}
