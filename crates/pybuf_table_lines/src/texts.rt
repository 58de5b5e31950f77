//! The lines of records, and what is written of bytes that aren't whole records.
ghost use Rattle.std.specs.Prelude.{◌≡◌, ◌++◌, OnOk};
ghost use Rattle.pybuf_table_lines.specs.Texts.{row_line, left_over_text};

use pybuf_line::{push_decimal, push_tuple};
use pybuf_value::{Made, ScalarList};

/// Adds the line of a record.
pub(crate) fn push_row_line(out: &mut Vec<u8>, row: &ScalarList) -> Made<()>
    ensures { OnOk result (out.new.items ≡ out.old.items ++ row_line row.now) }
{
    push_tuple(out, row.as_slice())?;
    out.push(b'\n')?;
    Ok(())
}

/// Adds the line that tells how many bytes are left over.
///
/// Where memory runs out, a part of it may have been added.
///
/// Example: of 1 it adds `1 bytes left over` and a line feed.
pub fn push_left_over(out: &mut Vec<u8>, count: u64) -> Made<()>
    ensures { OnOk result (out.new.items ≡ out.old.items ++ left_over_text count) }
{
    push_decimal(out, count)?;
    out.extend_from_slice(b" bytes left over\n")?;
    Ok(())
}
