//! Prints casts in column order and row-major, whole and sliced along the first dimension, over all
//! shapes of up to three dimensions with entries from 1 to 3: their strides, whether their items lie
//! without a gap, and the ranges of their walks in column order. What must come out is what Python says,
//! written by `tools/python_columns.py`.
#![tactic(auto)]

ghost use Rattle.std.specs.Prelude.{◌≡◌, ◌*◌, ◌<◌, All, IfSome};
ghost use Rattle.pybuf_desc.specs.Layouts.{product};
ghost use Rattle.pybuf_desc.specs.Valid.{IsPlaceable};

use pybuf_desc::BufferDescriptor;
use pybuf_index::SaturatedSlice;
use pybuf_value::{Made, PySlice, Text, push_number};
use std::alloc::Global;
use std::io::Write;
use std::process::ExitCode;

/// As many bytes as the items of the greatest shape have.
const ROOM: usize = 54;

/// Slices as they are written, with their stop and their step.
const SLICES: [(&[u8], Option<isize>, isize); 3] = [
    (b"[::2]", None, 2),
    (b"[::-1]", None, -1),
    (b"[:0]", Some(0), 1),
];

/// A cast of bytes: whether to column order, the size of its items, and its shape.
#[derive(Clone, Copy)]
struct Cast<'a> {
    in_columns: bool,
    size: usize,
    shape: &'a [usize],
}

/// How many items a shape has, where each dimension has an entry and the number fits.
fn items_of(shape: &[usize]) -> Option<usize>
    ensures entries { IfSome result (λ _. All (λ n. 0 < n) shape.now) }
    ensures items { IfSome result (λ items. product shape.now ≡ items) }
{
    match shape {
        [] => Some(1),
        [n, rest @ ..] => {
            if *n == 0 {
                return None;
            }
            let later = items_of(rest)?;
            let items = n.checked_mul(later)?;
            Some(items)
        }
    }
}

/// How many bytes the items of a shape have, where each dimension has an entry and the number fits.
fn bytes_of(size: usize, shape: &[usize]) -> Option<usize>
    ensures entries { IfSome result (λ _. All (λ n. 0 < n) shape.now) }
    ensures bytes { IfSome result (λ bytes. size * product shape.now ≡ bytes) }
{
    let items = items_of(shape)?;
    let bytes = size.checked_mul(items)?;
    Some(bytes)
}

/// Adds the numbers with commas between them, in brackets.
fn push_shape(out: &mut Vec<u8>, shape: &[usize]) -> Made<()> {
    out.push(b'[')?;
    for k in 0..shape.len() {
        if k > 0 {
            out.push(b',')?;
        }
        push_number(out, shape[k] as i128)?;
    }
    out.push(b']')?;
    Ok(())
}

/// The same of the strides of dimensions.
fn push_strides(out: &mut Vec<u8>, dims: &[(usize, isize, isize)]) -> Made<()> {
    out.push(b'[')?;
    for k in 0..dims.len() {
        if k > 0 {
            out.push(b',')?;
        }
        push_number(out, dims[k].1 as i128)?;
    }
    out.push(b']')?;
    Ok(())
}

/// Adds `C` where the items lie without a gap row-major, and `F` where they do so in column order.
fn push_contiguity(out: &mut Vec<u8>, d: &BufferDescriptor) -> Made<()>
    requires { IsPlaceable d.now }
{
    out.extend_from_slice(if d.is_contiguous() { b" C" } else { b" -" })?;
    out.push(if d.is_f_contiguous() { b'F' } else { b'-' })?;
    Ok(())
}

/// Adds the line of a descriptor.
fn push_line(
    out: &mut Vec<u8>,
    cast: Cast,
    slice: &[u8],
    d: &BufferDescriptor,
    start: usize,
) -> Made<()> {
    out.push(if cast.in_columns { b'F' } else { b'C' })?;
    push_number(out, cast.size as i128)?;
    out.push(b' ')?;
    push_shape(out, cast.shape)?;
    out.push(b' ')?;
    out.extend_from_slice(slice)?;
    if d.validate(start, ROOM).is_err() {
        out.extend_from_slice(b" refused\n")?;
        return Ok(());
    }
    out.push(b' ')?;
    push_strides(out, d.dim_desc())?;
    push_contiguity(out, d)?;
    for range in d.column_segments(start) {
        out.push(b' ')?;
        push_number(out, range.start as i128)?;
        out.extend_from_slice(b"..")?;
        push_number(out, range.end as i128)?;
    }
    out.push(b'\n')?;
    Ok(())
}

/// What a slice picks along the first dimension, and where that starts; none where there is none.
fn sliced(
    alloc: Global,
    d: &BufferDescriptor,
    slice: &PySlice,
) -> Made<Option<(BufferDescriptor, usize)>> {
    if d.validate(0, ROOM).is_err() {
        return Ok(None);
    }
    if d.ndim() == 0 {
        return Ok(None);
    }
    match SaturatedSlice::with_slice(slice) {
        Ok(slice) => Ok(Some(d.sliced(alloc, 0, &slice)?)),
        Err(_) => Ok(None),
    }
}

/// Adds the line of a slice, where there is one.
fn push_cut(
    out: &mut Vec<u8>,
    cast: Cast,
    shown: &[u8],
    cut: Option<(BufferDescriptor, usize)>,
) -> Made<()> {
    match &cut {
        Some((d, start)) => push_line(out, cast, shown, d, *start),
        None => Ok(()),
    }
}

/// Adds the lines of all items, and of the slices.
fn push_lines(alloc: Global, out: &mut Vec<u8>, cast: Cast, d: &BufferDescriptor) -> Made<()> {
    push_line(out, cast, b"[...]", d, 0)?;
    for (shown, stop, step) in SLICES {
        let cut = sliced(alloc, d, &PySlice::new(None, stop, Some(step)))?;
        push_cut(out, cast, shown, cut)?;
    }
    Ok(())
}

/// The descriptor of a cast, where its bytes are no more than the greatest shape has.
fn described(alloc: Global, cast: Cast) -> Made<Option<BufferDescriptor>> {
    let Cast {
        in_columns,
        size,
        shape,
    } = cast;
    if size == 0 || size > ROOM || shape.len() > 3 {
        return Ok(None);
    }
    let Some(len) = bytes_of(size, shape) else {
        return Ok(None);
    };
    if len > ROOM {
        return Ok(None);
    }
    let bytes = BufferDescriptor::simple(alloc, len, false)?;
    if !bytes.is_contiguous() {
        return Ok(None);
    }
    let made = if in_columns {
        bytes.cast_shape_f(alloc, Text::new(alloc), size, shape)?
    } else {
        bytes.cast_shape(alloc, Text::new(alloc), size, shape)?
    };
    Ok(Some(made))
}

/// Adds the lines of a cast.
fn push_cast(alloc: Global, out: &mut Vec<u8>, cast: Cast) -> Made<()> {
    match described(alloc, cast)? {
        Some(d) => push_lines(alloc, out, cast, &d),
        None => Ok(()),
    }
}

/// Adds the lines of a shape in both orders.
fn push_both(alloc: Global, out: &mut Vec<u8>, size: usize, shape: &[usize]) -> Made<()> {
    for in_columns in [true, false] {
        let cast = Cast {
            in_columns,
            size,
            shape,
        };
        push_cast(alloc, out, cast)?;
    }
    Ok(())
}

/// All lines: of items of one byte and of two, in shapes of no dimension up to three.
fn push_all(alloc: Global, out: &mut Vec<u8>) -> Made<()> {
    for size in [1usize, 2] {
        push_both(alloc, out, size, [].as_slice())?;
        for n in 0usize..3 {
            push_both(alloc, out, size, [n + 1].as_slice())?;
        }
        for n in 0usize..9 {
            push_both(alloc, out, size, [n / 3 + 1, n % 3 + 1].as_slice())?;
        }
        for n in 0usize..27 {
            let shape = [n / 9 + 1, n / 3 % 3 + 1, n % 3 + 1];
            push_both(alloc, out, size, shape.as_slice())?;
        }
    }
    Ok(())
}

fn main(rt: HostRuntime) -> ExitCode {
    let mut out = Vec::new(rt.alloc());
    if push_all(rt.alloc(), &mut out).is_err() {
        return ExitCode::from(3);
    }
    match rt.stdout().write_all(out.as_slice()) {
        Ok(()) => ExitCode::SUCCESS,
        Err(_) => ExitCode::from(5),
    }
}
