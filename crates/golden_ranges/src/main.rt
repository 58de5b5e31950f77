//! Prints the ranges of walks that join the dimensions of the tail, over all shapes of up to four
//! dimensions with entries from 0 to 3, sliced by three steps along the first. What must come out is
//! written by `tools/python_ranges.py`, which computes it from the words by which the tail is told.
#![tactic(auto)]

use pybuf_desc::BufferDescriptor;
use pybuf_index::SaturatedSlice;
use pybuf_value::{DimList, Made, PySlice, Text, push_number};
use std::alloc::Global;
use std::io::Write;
use std::process::ExitCode;

/// The bytes of an item.
const SIZE: isize = 2;

/// As many bytes as the items of the greatest shape have.
const ROOM: usize = 162;

const STEPS: [isize; 3] = [1, 2, -1];

/// How many bytes the items of a shape have.
fn bytes_of(shape: &[u8]) -> usize {
    let mut bytes: usize = SIZE as usize;
    for n in shape {
        bytes = bytes.wrapping_mul(*n as usize);
    }
    bytes
}

/// The stride of the dimension before these, whose items lie one after the other. An entry of 0 counts
/// as 1.
fn stride_before(shape: &[u8]) -> isize {
    let mut stride = SIZE;
    for n in shape {
        if *n > 1 {
            stride = stride.wrapping_mul(*n as isize);
        }
    }
    stride
}

/// Items one after the other in a shape, from place 0 on.
fn row_major(alloc: Global, shape: &[u8]) -> Made<BufferDescriptor> {
    let mut dims = DimList::new(alloc);
    for k in 0..shape.len() {
        dims.push((shape[k] as usize, stride_before(&shape[k + 1..]), 0))?;
    }
    Ok(BufferDescriptor::raw(bytes_of(shape), true, SIZE as usize, Text::new(alloc), dims))
}

/// Adds the ranges of a walk, or that the descriptor isn't valid.
fn push_ranges(out: &mut Vec<u8>, d: &BufferDescriptor, start: usize) -> Made<()> {
    if d.validate(start, ROOM).is_err() {
        out.extend_from_slice(b" refused\n")?;
        return Ok(());
    }
    for range in d.segments(start, true) {
        out.push(b' ')?;
        push_number(out, range.start as i128)?;
        out.extend_from_slice(b"..")?;
        push_number(out, range.end as i128)?;
    }
    out.push(b'\n')?;
    Ok(())
}

/// Adds a shape.
fn push_shape(out: &mut Vec<u8>, shape: &[u8]) -> Made<()> {
    out.push(b'[')?;
    for k in 0..shape.len() {
        if k > 0 {
            out.push(b',')?;
        }
        push_number(out, shape[k] as i128)?;
    }
    out.push(b']')?;
    Ok(())
}

/// What a slice picks along the first dimension, and where that starts; none where there is none.
fn sliced(
    alloc: Global,
    d: &BufferDescriptor,
    slice: &PySlice,
) -> Made<Option<(BufferDescriptor, usize)>> {
    if d.validate(0, ROOM).is_err() {
        return Ok(None);
    }
    if d.ndim() == 0 {
        return Ok(None);
    }
    match SaturatedSlice::with_slice(slice) {
        Ok(slice) => Ok(Some(d.sliced(alloc, 0, &slice)?)),
        Err(_) => Ok(None),
    }
}

/// Adds the line of a slice, where there is one.
fn push_cut(
    out: &mut Vec<u8>,
    shape: &[u8],
    step: isize,
    cut: Option<(BufferDescriptor, usize)>,
) -> Made<()> {
    match &cut {
        Some((d, start)) => {
            push_shape(out, shape)?;
            out.push(b' ')?;
            push_number(out, step as i128)?;
            push_ranges(out, d, *start)
        }
        None => Ok(()),
    }
}

/// Adds the line of a shape, or where it has dimensions and is valid the lines of its slices.
fn push_lines(alloc: Global, out: &mut Vec<u8>, shape: &[u8], d: &BufferDescriptor) -> Made<()> {
    if shape.is_empty() || d.validate(0, ROOM).is_err() {
        push_shape(out, shape)?;
        return push_ranges(out, d, 0);
    }
    for step in STEPS {
        let cut = sliced(alloc, d, &PySlice::new(None, None, Some(step)))?;
        push_cut(out, shape, step, cut)?;
    }
    Ok(())
}

/// Adds the lines of a shape.
fn push_walks(alloc: Global, out: &mut Vec<u8>, shape: &[u8]) -> Made<()> {
    let d = row_major(alloc, shape)?;
    push_lines(alloc, out, shape, &d)
}

/// All lines: of the shapes of no dimension up to four.
fn push_all(alloc: Global, out: &mut Vec<u8>) -> Made<()> {
    push_walks(alloc, out, [].as_slice())?;
    for n in 0u8..4 {
        push_walks(alloc, out, [n].as_slice())?;
    }
    for n in 0u8..16 {
        push_walks(alloc, out, [n / 4, n % 4].as_slice())?;
    }
    for n in 0u8..64 {
        push_walks(alloc, out, [n / 16, n / 4 % 4, n % 4].as_slice())?;
    }
    for n in 0u16..256 {
        let n = n as u8;
        push_walks(
            alloc,
            out,
            [n / 64, n / 16 % 4, n / 4 % 4, n % 4].as_slice(),
        )?;
    }
    Ok(())
}

fn main(rt: HostRuntime) -> ExitCode {
    let mut out = Vec::new(rt.alloc());
    if push_all(rt.alloc(), &mut out).is_err() {
        return ExitCode::from(3);
    }
    match rt.stdout().write_all(out.as_slice()) {
        Ok(()) => ExitCode::SUCCESS,
        Err(_) => ExitCode::from(5),
    }
}
