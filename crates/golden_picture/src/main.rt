//! Prints the levels of a picture of two rows, three columns and three channels, and of its parts: cropped, flipped and turned,
//! each made of the part before, a line for each row; and then the levels of the picture once one was painted through the turned
//! part. What must come out is written by `tools/numpy_picture.py`, by NumPy's own views.
#![tactic(auto)]

mod sizes;

ghost use Rattle.std.specs.Prelude.{◌≡◌, ◌<◌, IfOk};
ghost use Rattle.golden_picture.specs.Sizes.{HasSize};

use example_picture::Picture;
use pybuf_buffer::PyBuffer;
use pybuf_value::{Made, push_number};
use sizes::{cropped, flipped, turned, whole};
use std::alloc::Global;
use std::io::Write;
use std::process::ExitCode;

/// The picture: its levels are the numbers from 0 on.
fn numbered(alloc: Global) -> Made<Picture>
    ensures rows { IfOk result (λ p. p.rows ≡ 2) }
    ensures columns { IfOk result (λ p. p.columns ≡ 3) }
    ensures channels { IfOk result (λ p. p.channels ≡ 3) }
{
    let levels = vec![in alloc;
        0u8, 1, 2, 3, 4, 5, 6, 7, 8, 9, 10, 11, 12, 13, 14, 15, 16, 17,
    ]?;
    Ok(Picture::new(alloc, 2, 3, 3, levels))
}

/// Adds a level, with a blank before it.
fn push_level(out: &mut Vec<u8>, level: u8) -> Made<()> {
    out.push(b' ')?;
    push_number(out, level as i128)
}

/// Adds a name, and the levels of a part, a line for each row.
fn push_part(
    out: &mut Vec<u8>,
    name: &[u8],
    picture: &Picture,
    part: &PyBuffer,
    size: (usize, usize, usize),
) -> Made<()>
    requires { HasSize picture.now part.now size.0 size.1 size.2 }
{
    for row in 0..size.0 {
        out.extend_from_slice(name)?;
        for column in 0..size.1 {
            for channel in 0..size.2 {
                push_level(out, picture.level(part, row, column, channel))?;
            }
        }
        out.push(b'\n')?;
    }
    Ok(())
}

/// Adds the levels of a picture.
fn push_levels(out: &mut Vec<u8>, picture: &Picture) -> Made<()> {
    out.extend_from_slice(b"painted")?;
    for level in picture.levels() {
        push_level(out, *level)?;
    }
    out.push(b'\n')?;
    Ok(())
}

/// Paints a level in the first row and the second column of a part.
fn paint(picture: &mut Picture, part: &PyBuffer)
    requires { HasSize picture.old part.now 2 2 3 }
{
    picture.paint(part, 0, 1, 2, 200);
}

/// Adds the lines of a picture's parts, and then its levels once one was painted.
fn push_parts(out: &mut Vec<u8>, picture: &mut Picture) -> Made<()>
    requires rows { picture.old.rows ≡ 2 }
    requires columns { picture.old.columns ≡ 3 }
    requires channels { picture.old.channels ≡ 3 }
{
    let all = whole(picture)?;
    push_part(out, b"whole", picture, &all, (2, 3, 3))?;
    let some = cropped(picture, &all)?;
    push_part(out, b"cropped", picture, &some, (2, 2, 3))?;
    let back = flipped(picture, &some)?;
    push_part(out, b"flipped", picture, &back, (2, 2, 3))?;
    let round = turned(picture, &back)?;
    push_part(out, b"turned", picture, &round, (2, 2, 3))?;
    paint(picture, &round);
    push_levels(out, picture)
}

/// Adds all lines.
fn push_all(alloc: Global, out: &mut Vec<u8>) -> Made<()> {
    let mut picture = numbered(alloc)?;
    push_parts(out, &mut picture)
}

fn main(rt: HostRuntime) -> ExitCode {
    let mut out = Vec::new(rt.alloc());
    if push_all(rt.alloc(), &mut out).is_err() {
        return ExitCode::from(3);
    }
    match rt.stdout().write_all(out.as_slice()) {
        Ok(()) => ExitCode::SUCCESS,
        Err(_) => ExitCode::from(5),
    }
}
