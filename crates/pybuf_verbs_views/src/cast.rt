//! `cast` and `castf`: a new view of the same bytes, with items of another format, in one dimension or in those of
//! a shape, row by row or in column order. The format is one native code, and items of single bytes stand on one side at least.
ghost use Rattle.std.specs.Prelude.{◌≡◌, ◌<◌, ◌≤◌, ◌*◌, ◌^◌, All, length, pos, true, None, Some, Ok, Err, IfOk};
ghost use Rattle.std.specs.Prelude.{◌%◌, ◌==◌, ◌&&◌, not, false};
ghost use Rattle.pybuf_value.specs.Halting.{Gives};
ghost use Rattle.pybuf_value.specs.declared.values.Scalar.TheVariants as scalars;
ghost use Rattle.pybuf_desc.specs.Layouts.{product};
ghost use Rattle.pybuf_desc.specs.Contiguous.{is_contiguous_layout};
ghost use Rattle.pybuf_memoryview.specs.Orders.{nbytes_of};
ghost use Rattle.pybuf_state.specs.Exporter.{exports_of};
ghost use Rattle.pybuf_state.specs.Answers.{exporter_of, IsWhole, AnswersIn, ChangesTo, as_view};
ghost use Rattle.pybuf_verbs_views.specs.Cast as spec;
ghost use Rattle.pybuf_verbs_views.specs.CastEntries as entries;

use pybuf_command::LocalReply;
use pybuf_desc::KeptFormat;
use pybuf_memoryview::KeptLayout;
use pybuf_state::Parts;
use pybuf_struct::{FormatType, is_byte_format, native_single_code};
use pybuf_value::{
    CountList, Fault, Halt, Made, Scalar, Text, Value, fit_count, number_in, text_in,
};
use std::alloc::Global;

/// Whether so many bytes are whole items of a size.
// The sizes of most formats are spelled out. A processor divides much faster by a power of two that is known
// beforehand.
#[inline(always)]
fn are_whole(len: usize, size: usize) -> bool
    requires { 0 < size }
    ensures { result ≡ (len % size == 0) }
{
    match size {
        1 => true,
        2 => len % 2 == 0,
        4 => len % 4 == 0,
        8 => len % 8 == 0,
        _ => len % size == 0,
    }
}

/// The code to which a view is cast: the format is one native code, and it or that of the view has single bytes as
/// items.
fn code_for(layout: &KeptLayout, text: &str) -> Result<FormatType, Fault>
    ensures { result ≡ spec.code_for layout.now text.now }
{
    let Some(code) = native_single_code(text.as_bytes()) else {
        return Err(Fault::Value);
    };
    if code.is_byte() {
        return Ok(code);
    }
    if !is_byte_format(layout.format_text().as_slice()) {
        return Err(Fault::Kind);
    }
    Ok(code)
}

/// The size of its items, which make up the bytes of the view.
fn size_for(layout: &KeptLayout, text: &str) -> Result<usize, Fault>
    ensures size { result ≡ spec.size_for layout.now text.now }
    ensures some { IfOk result (λ size. 0 < size) }
    ensures fits { IfOk result (λ size. size < 2 ^ 63) }
    ensures whole { IfOk result (λ size. nbytes_of layout.now % size ≡ 0) }
{
    let code = code_for(layout, text)?;
    let size = code.native_size();
    if !are_whole(layout.nbytes(), size) {
        return Err(Fault::Kind);
    }
    Ok(size)
}

/// An entry of a shape, which must be above 0 and at most the greatest word divided by the product
/// so far.
fn entry_of_number(size: usize, number: i128) -> Result<usize, Fault>
    requires { 0 < size }
    ensures exact { result ≡ spec.entry_of size (scalars.Int number) }
    ensures same { IfOk result (λ entry. pos entry ≡ number) }
    ensures some { IfOk result (λ entry. 0 < entry) }
    ensures fits { IfOk result (λ entry. size * entry < 2 ^ 63) }
{
    let word = fit_count(number)?;
    if word <= 0 {
        return Err(Fault::Value);
    }
    let entry = word as usize;
    if entry > isize::MAX as usize / size {
        return Err(Fault::Value);
    }
    Ok(entry)
}

/// The same of a value.
fn entry_of(size: usize, part: &Scalar) -> Result<usize, Fault>
    requires { 0 < size }
    ensures exact { result ≡ spec.entry_of size part.now }
    ensures some { IfOk result (λ entry. 0 < entry) }
    ensures fits { IfOk result (λ entry. size * entry < 2 ^ 63) }
{
    let number = number_in(part)?;
    entry_of_number(size, number)
}

/// The entries of a shape, in order, and the product of them all and the size of an item.
fn entries_of(alloc: Global, size: usize, parts: &[Scalar]) -> Result<(CountList, usize), Halt>
    requires some { 0 < size }
    requires fits { size < 2 ^ 63 }
    ensures exact { entries.GivesEntries (spec.entries_of size parts.now) result }
    ensures entries { IfOk result (λ r. All (λ n. 0 < n) r.0) }
    ensures count { IfOk result (λ r. length r.0 ≡ length parts.now) }
    ensures product { IfOk result (λ r. r.1 ≡ size * product r.0) }
{
    let mut entries = CountList::new(alloc);
    let mut product = size;
    for part in parts {
        let entry = entry_of(product, part)?;
        entries.push(entry)?;
        product *= entry;
    }
    Ok((entries, product))
}

/// The product of the size of an item and the entries of a shape, each of which must be above 0. Takes no memory.
fn product_of(size: usize, shape: &[usize]) -> Result<usize, Fault>
    requires some { 0 < size }
    requires fits { size < 2 ^ 63 }
    ensures exact { ChangesTo (spec.entries_of size (spec.shape_parts shape.now)) result shape.now }
    ensures entries { IfOk result (λ _. All (λ n. 0 < n) shape.now) }
    ensures product { IfOk result (λ r. r ≡ size * product shape.now) }
{
    match shape {
        [] => Ok(size),
        [first, rest @ ..] => {
            let entry = entry_of_number(size, *first as i128)?;
            product_of(size * entry, rest)
        }
    }
}

/// The items in one dimension.
fn flat_layout_of(alloc: Global, layout: &KeptLayout, text: &str) -> Result<KeptLayout, Halt>
    requires { is_contiguous_layout layout.now ≡ true }
    ensures { Gives (spec.flat_layout_of layout.now text.now) result }
{
    if layout.ndim() != 1 {
        if layout.has_zero() {
            return Err(Halt::Refused(Fault::Kind));
        }
    }
    let size = size_for(layout, text)?;
    let format = KeptFormat::of(alloc, text)?;
    Ok(layout.cast(format, size))
}

/// Whether neither a view nor a shape has one dimension.
fn is_neither_flat(dimensions: usize, entries: usize) -> bool
    ensures { result ≡ (not (dimensions == 1) && not (entries == 1)) }
{
    if dimensions == 1 {
        return false;
    }
    entries != 1
}

/// The items in the dimensions of these entries, in column order or row by row.
fn cast_in(
    alloc: Global,
    columns: bool,
    layout: &KeptLayout,
    text: &str,
    size: usize,
    entries: &[usize],
) -> Made<KeptLayout>
    requires contiguous { is_contiguous_layout layout.now ≡ true }
    requires some_size { 0 < size }
    requires size_fits { size < 2 ^ 63 }
    requires few_dimensions { length entries.now ≤ 64 }
    requires some_entries { All (λ n. 0 < n) entries.now }
    requires whole_items { size * product entries.now ≡ nbytes_of layout.now }
    ensures { IfOk result (λ cast. cast ≡ spec.cast_in columns layout.now text.now size entries.now) }
{
    if columns {
        let format = Text::from_string(String::from_str(alloc, text)?);
        layout.cast_shape_f(alloc, format, size, entries)
    } else {
        let format = KeptFormat::of(alloc, text)?;
        layout.cast_shape(alloc, format, size, entries)
    }
}

/// The items in the dimensions of a shape, in column order or row by row.
fn shaped_layout_of(
    alloc: Global,
    columns: bool,
    layout: &KeptLayout,
    text: &str,
    parts: &[Scalar],
) -> Result<KeptLayout, Halt>
    requires { is_contiguous_layout layout.now ≡ true }
    ensures { Gives (spec.shaped_layout_of columns layout.now text.now parts.now) result }
{
    if layout.has_zero() {
        return Err(Halt::Refused(Fault::Kind));
    }
    if is_neither_flat(layout.ndim(), parts.len()) {
        return Err(Halt::Refused(Fault::Kind));
    }
    if parts.len() > 64 {
        return Err(Halt::Refused(Fault::Value));
    }
    let size = size_for(layout, text)?;
    let (entries, product) = entries_of(alloc, size, parts)?;
    if product != layout.nbytes() {
        return Err(Halt::Refused(Fault::Kind));
    }
    let cast = cast_in(alloc, columns, layout, text, size, entries.as_slice())?;
    Ok(cast)
}

/// The same in the dimensions of plain numbers.
fn shaped_layout_by(
    alloc: Global,
    layout: &KeptLayout,
    text: &str,
    shape: &[usize],
) -> Result<KeptLayout, Halt>
    requires { is_contiguous_layout layout.now ≡ true }
    ensures { Gives (spec.shaped_layout_of false layout.now text.now (spec.shape_parts shape.now)) result }
{
    if layout.has_zero() {
        return Err(Halt::Refused(Fault::Kind));
    }
    if is_neither_flat(layout.ndim(), shape.len()) {
        return Err(Halt::Refused(Fault::Kind));
    }
    if shape.len() > 64 {
        return Err(Halt::Refused(Fault::Value));
    }
    let size = size_for(layout, text)?;
    let product = product_of(size, shape)?;
    if product != layout.nbytes() {
        return Err(Halt::Refused(Fault::Kind));
    }
    let format = KeptFormat::of(alloc, text)?;
    let cast = layout.cast_shape(alloc, format, size, shape)?;
    Ok(cast)
}

/// The items by a shape that may not be given, and else is a tuple or a list.
fn layout_in_shape(
    alloc: Global,
    layout: &KeptLayout,
    text: &str,
    shape: &Option<Value>,
) -> Result<KeptLayout, Halt>
    requires { is_contiguous_layout layout.now ≡ true }
    ensures { Gives (spec.layout_in_shape layout.now text.now shape.now) result }
{
    match shape {
        None => flat_layout_of(alloc, layout, text),
        Some(Value::Tuple(parts)) => shaped_layout_of(alloc, false, layout, text, parts.as_slice()),
        Some(Value::List(parts)) => shaped_layout_of(alloc, false, layout, text, parts.as_slice()),
        Some(_) => Err(Halt::Refused(Fault::Kind)),
    }
}

/// The items in column order, by a shape that is a tuple or a list.
fn column_layout_in(
    alloc: Global,
    layout: &KeptLayout,
    text: &str,
    shape: &Value,
) -> Result<KeptLayout, Halt>
    requires { is_contiguous_layout layout.now ≡ true }
    ensures { Gives (spec.column_layout_in layout.now text.now shape.now) result }
{
    match shape {
        Value::Tuple(parts) => shaped_layout_of(alloc, true, layout, text, parts.as_slice()),
        Value::List(parts) => shaped_layout_of(alloc, true, layout, text, parts.as_slice()),
        _ => Err(Halt::Refused(Fault::Kind)),
    }
}

/// A view of the bytes of a view, with items of another format in one dimension. The answer is its number. It is
/// refused as `of_view` without a shape is. Nothing is changed then, nor where memory runs out.
/// Example: of a view of `b"\x01\x00\x02\x00"` the format `"H"` gives the number of a view with the items 1 and 2.
pub fn add_flat(parts: &mut Parts, view: usize, format: &str) -> Result<usize, Halt>
    requires { IsWhole parts.old }
    ensures answer { AnswersIn parts.old (λ e. spec.flat_cast_of_view e view format.now) (as_view result) parts.new }
    ensures counted { parts.new.exports ≡ exports_of (exporter_of parts.new) }
    ensures room { parts.new.bytes.room ≡ parts.old.bytes.room }
{
    let layout = parts.live_layout(view)?;
    if !layout.is_contiguous() {
        return Err(Halt::Refused(Fault::Kind));
    }
    let layout = flat_layout_of(parts.alloc, layout, format)?;
    parts.push_view(layout)
}

/// A view of the bytes of a view, with items of another format in the dimensions of a shape. The answer is its
/// number. It is refused as `of_view` with this shape is. Nothing is changed then, nor where memory runs out.
/// Example: of a view of six bytes the format `"B"` and the shape `[2, 3]` give a view with two rows of three items.
pub fn add_shaped(
    parts: &mut Parts,
    view: usize,
    format: &str,
    shape: &[usize],
) -> Result<usize, Halt>
    requires { IsWhole parts.old }
    ensures answer { AnswersIn parts.old (λ e. spec.shaped_cast_of_view e view format.now shape.now) (as_view result) parts.new }
    ensures counted { parts.new.exports ≡ exports_of (exporter_of parts.new) }
    ensures room { parts.new.bytes.room ≡ parts.old.bytes.room }
{
    let layout = parts.live_layout(view)?;
    if !layout.is_contiguous() {
        return Err(Halt::Refused(Fault::Kind));
    }
    let layout = shaped_layout_by(parts.alloc, layout, format, shape)?;
    parts.push_view(layout)
}

/// A view of the bytes of a view, with items of another format, in one dimension or in those of a shape. The reply is
/// its number.
///
/// Refused with `UnknownName` for a view that was never given, and with `ValueError` for a released one; then as
/// Python's `view.cast(format, shape)` (`PyMemoryView::cast` lists how). Nothing is changed then, nor where memory
/// runs out.
/// Example: of a view of `b"\x01\x00\x02\x00"` the format `'H'` gives a view with the items 1 and 2.
pub fn of_view(
    parts: &mut Parts,
    view: usize,
    format: &Value,
    shape: &Option<Value>,
) -> Result<LocalReply, Halt>
    requires { IsWhole parts.old }
    ensures answer { AnswersIn parts.old (λ e. spec.cast_of_view e view format.now shape.now) result parts.new }
    ensures counted { parts.new.exports ≡ exports_of (exporter_of parts.new) }
    ensures room { parts.new.bytes.room ≡ parts.old.bytes.room }
{
    let layout = parts.live_layout(view)?;
    if !layout.is_contiguous() {
        return Err(Halt::Refused(Fault::Kind));
    }
    let text = text_in(format)?;
    let layout = layout_in_shape(parts.alloc, layout, text.as_str(), shape)?;
    parts.add_view(layout)
}

/// A view of the bytes of a view, with items of another format in the dimensions of a shape and in column order. The
/// reply is its number. It is refused as `of_view` with this shape is. Nothing is changed then, nor where memory runs
/// out.
/// Example: of a view of `b"abcdef"`, `'B'` and `(2, 3)` give the items `[[97, 99, 101], [98, 100, 102]]`.
pub fn column_of_view(
    parts: &mut Parts,
    view: usize,
    format: &Value,
    shape: &Value,
) -> Result<LocalReply, Halt>
    requires { IsWhole parts.old }
    ensures answer { AnswersIn parts.old (λ e. spec.column_cast_of_view e view format.now shape.now) result parts.new }
    ensures counted { parts.new.exports ≡ exports_of (exporter_of parts.new) }
    ensures room { parts.new.bytes.room ≡ parts.old.bytes.room }
{
    let layout = parts.live_layout(view)?;
    if !layout.is_contiguous() {
        return Err(Halt::Refused(Fault::Kind));
    }
    let text = text_in(format)?;
    let layout = column_layout_in(parts.alloc, layout, text.as_str(), shape)?;
    parts.add_view(layout)
}
