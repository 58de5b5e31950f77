//! The items of two views of one shape, compared one by one.
ghost use Rattle.std.specs.Prelude.{◌≡◌, length, true};
ghost use Rattle.pybuf_desc.specs.Layouts.{LiesInside, HasItemsOfItsShape};
ghost use Rattle.pybuf_memoryview.specs.Readers.{IsSpelledBy};
ghost use Rattle.pybuf_equality.specs.Reading.{ReadsAs};
ghost use Rattle.pybuf_equality.specs.Walks.{IsPart, ArePaired, same_items_of, same_items_in};
ghost use Rattle.pybuf_equality.specs.Equality.{have_equal_items};
ghost use Rattle.pybuf_value.specs.Halting.{Makes};

use crate::exact::is_exact_reader;
use crate::number_rows::equal_numbers_of;
use crate::raw::equal_bytes;
use crate::signs::number_sign;
use pybuf_desc::ZipSegments;
use pybuf_memoryview::{ItemReader, KeptLayout, read_by, reader_of};
use pybuf_value::{Made, item_eq};
use std::alloc::Global;
use std::ops::Range;

/// Whether the items at two ranges are equal.
fn equal_at(
    alloc: Global,
    reader: &ItemReader,
    bytes: &[u8],
    range: Range<usize>,
    other_reader: &ItemReader,
    other: &[u8],
    other_range: Range<usize>,
) -> Made<bool>
    requires part { IsPart (length bytes.now) range }
    requires other_part { IsPart (length other.now) other_range }
    ensures { Makes (same_items_in reader.now other_reader.now bytes.now other.now (range, other_range)) result }
{
    let item = read_by(alloc, reader, &bytes[range])?;
    let other_item = read_by(alloc, other_reader, &other[other_range])?;
    Ok(item_eq(&item, &other_item))
}

/// Whether the items at the ranges of each pair are equal. The first difference ends it.
fn equal_pairs(
    alloc: Global,
    reader: &ItemReader,
    bytes: &[u8],
    other_reader: &ItemReader,
    other: &[u8],
    mut pairs: ZipSegments<'_>,
) -> Made<bool>
    requires { ArePaired (length bytes.now) (length other.now) pairs }
    ensures { Makes (same_items_of reader.now other_reader.now bytes.now other.now pairs.entry) result }
{
    while let Some((range, other_range)) = pairs.next() {
        if !equal_at(
            alloc,
            reader,
            bytes,
            range,
            other_reader,
            other,
            other_range,
        )? {
            return Ok(false);
        }
    }
    Ok(true)
}

/// The items of two views of one shape, each side by a reader of its own.
fn equal_by_readers(
    alloc: Global,
    reader: &ItemReader,
    bytes: &[u8],
    layout: &KeptLayout,
    other_reader: &ItemReader,
    other: &[u8],
    other_layout: &KeptLayout,
) -> Made<bool>
    requires inside { LiesInside (length bytes.now) layout.now }
    requires other_inside { LiesInside (length other.now) other_layout.now }
    requires same_shape { layout.now.shape ≡ other_layout.now.shape }
    requires reads { ReadsAs reader.now layout.now.format layout.now.itemsize }
    requires other_reads { ReadsAs other_reader.now other_layout.now.format other_layout.now.itemsize }
    ensures { Makes (have_equal_items bytes.now layout.now other.now other_layout.now) result }
{
    pybuf_desc::ranges_stay_inside();
    let (descriptor, start) = layout.placed();
    let (other_descriptor, other_start) = other_layout.placed();
    let pairs = descriptor.zip_segments(start, other_descriptor, other_start, false);
    equal_pairs(alloc, reader, bytes, other_reader, other, pairs)
}

/// Whether the items of two views have one size, and their formats one text.
fn has_same_format(layout: &KeptLayout, other: &KeptLayout) -> bool
    ensures size { result ≡ true → layout.now.itemsize ≡ other.now.itemsize }
    ensures text { result ≡ true → layout.now.format ≡ other.now.format }
{
    if layout.itemsize() != other.itemsize() {
        return false;
    }
    layout.format_text().as_slice() == other.format_text().as_slice()
}

/// Whether the numbers of two sides have one sign and one size.
fn has_same_numbers(signed: bool, size: usize, other_signed: bool, other_size: usize) -> bool
    ensures sign { result ≡ true → signed ≡ other_signed }
    ensures size { result ≡ true → size ≡ other_size }
{
    if size != other_size {
        return false;
    }
    signed == other_signed
}

/// The items of two views of one shape, each side by a reader of its own. Where both sides are numbers whose
/// first byte is worth least, no item is made of them: those of one sign and size are equal where their bytes
/// are, and else they are read row by row.
fn equal_as_read(
    alloc: Global,
    reader: &ItemReader,
    bytes: &[u8],
    layout: &KeptLayout,
    other_reader: &ItemReader,
    other: &[u8],
    other_layout: &KeptLayout,
) -> Made<bool>
    requires inside { LiesInside (length bytes.now) layout.now }
    requires other_inside { LiesInside (length other.now) other_layout.now }
    requires same_shape { layout.now.shape ≡ other_layout.now.shape }
    requires counted { HasItemsOfItsShape layout.now }
    requires other_counted { HasItemsOfItsShape other_layout.now }
    requires spelled { IsSpelledBy layout.now.format reader.now }
    requires reads { ReadsAs reader.now layout.now.format layout.now.itemsize }
    requires other_reads { ReadsAs other_reader.now other_layout.now.format other_layout.now.itemsize }
    ensures { Makes (have_equal_items bytes.now layout.now other.now other_layout.now) result }
{
    pybuf_value::item_equality_is_equivalence();
    pybuf_struct::writes_what_was_read();
    let (size, other_size) = (layout.itemsize(), other_layout.itemsize());
    match (
        number_sign(reader, size),
        number_sign(other_reader, other_size),
    ) {
        (Some(signed), Some(other_signed)) => {
            if has_same_numbers(signed, size, other_signed, other_size) {
                if is_exact_reader(reader, size) {
                    return Ok(equal_bytes(bytes, layout, other, other_layout));
                }
            }
            Ok(equal_numbers_of(bytes, layout, signed, other, other_layout, other_signed))
        }
        _ => equal_by_readers(
            alloc,
            reader,
            bytes,
            layout,
            other_reader,
            other,
            other_layout,
        ),
    }
}

/// Whether the items of two views of one shape are equal, each read by its own format.
///
/// Where the formats have one text, by which bytes can be told apart, the bytes are compared as they
/// lie. Else the format of each side is read once, and the items by it.
pub(crate) fn equal_items(
    alloc: Global,
    bytes: &[u8],
    layout: &KeptLayout,
    other: &[u8],
    other_layout: &KeptLayout,
) -> Made<bool>
    requires inside { LiesInside (length bytes.now) layout.now }
    requires other_inside { LiesInside (length other.now) other_layout.now }
    requires same_shape { layout.now.shape ≡ other_layout.now.shape }
    requires counted { HasItemsOfItsShape layout.now }
    requires other_counted { HasItemsOfItsShape other_layout.now }
    ensures { Makes (have_equal_items bytes.now layout.now other.now other_layout.now) result }
{
    pybuf_value::item_equality_is_equivalence();
    pybuf_struct::writes_what_was_read();
    let reader = reader_of(alloc, layout.format_text(), layout.itemsize())?;
    if has_same_format(layout, other_layout) {
        if is_exact_reader(&reader, layout.itemsize()) {
            return Ok(equal_bytes(bytes, layout, other, other_layout));
        }
    }
    let other_reader = reader_of(alloc, other_layout.format_text(), other_layout.itemsize())?;
    equal_as_read(
        alloc,
        &reader,
        bytes,
        layout,
        &other_reader,
        other,
        other_layout,
    )
}
