//! A view as it is shown.

use crate::steps::{ROOM, View};
use pybuf_value::{Made, push_number};

/// Adds the number of entries of each dimension.
fn push_shape(out: &mut Vec<u8>, dims: &[(usize, isize, isize)]) -> Made<()> {
    out.push(b'[')?;
    for k in 0..dims.len() {
        if k > 0 {
            out.push(b',')?;
        }
        push_number(out, dims[k].0 as i128)?;
    }
    out.push(b']')?;
    Ok(())
}

/// Adds the stride of each dimension of more than one entry.
fn push_strides(out: &mut Vec<u8>, dims: &[(usize, isize, isize)]) -> Made<()> {
    out.extend_from_slice(b" (")?;
    for k in 0..dims.len() {
        if k > 0 {
            out.push(b',')?;
        }
        let (entries, stride, _) = dims[k];
        if entries > 1 {
            push_number(out, stride as i128)?;
        } else {
            out.push(b'-')?;
        }
    }
    out.push(b')')?;
    Ok(())
}

/// Adds a view: its shape, and where it has items its strides and the places of these. Says whether it is valid.
pub fn push_view(out: &mut Vec<u8>, view: &View) -> Made<bool> {
    let desc = &view.desc;
    if desc.validate(view.start, ROOM).is_err() {
        out.extend_from_slice(b"refused")?;
        return Ok(false);
    }
    push_shape(out, desc.dim_desc())?;
    if desc.is_zero_in_shape() {
        return Ok(true);
    }
    push_strides(out, desc.dim_desc())?;
    for range in desc.segments(view.start, false) {
        out.push(b' ')?;
        push_number(out, range.start as i128)?;
    }
    Ok(true)
}
