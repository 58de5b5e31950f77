//! What is written of an input that doesn't have as many bytes as a shape.
ghost use Rattle.std.specs.Prelude.{◌≡◌, ◌++◌, OnOk};
ghost use Rattle.pybuf_nd_lines.specs.Texts.{misfit_text};

use pybuf_line::push_decimal;
use pybuf_value::Made;

/// Adds the line that tells how many bytes there are, and how many there should be.
///
/// Where memory runs out, a part of it may have been added.
///
/// Example: of 5 and 6 it adds `5 bytes, not 6` and a line feed.
pub fn push_misfit(out: &mut Vec<u8>, count: u64, due: u64) -> Made<()>
    ensures { OnOk result (out.new.items ≡ out.old.items ++ misfit_text count due) }
{
    push_decimal(out, count)?;
    out.extend_from_slice(b" bytes, not ")?;
    push_decimal(out, due)?;
    out.push(b'\n')?;
    Ok(())
}
