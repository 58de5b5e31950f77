//! Laws of what is written of a table.
ghost use Rattle.pybuf_table_lines.specs.Laws.{RowsAreSingle};

use pybuf_line::replies_are_single_lines;

/// The line of a record is one line, whatever its values are.
///
/// Example: the record `b"\n"` of `c` is written as `(b'\n',)`, with a backslash and an `n` in place of the line feed.
pub fn rows_are_single_lines()
    ensures { RowsAreSingle }
{
    replies_are_single_lines();
}
