//! Laws of the lines of arrays, and of the texts of their replies.
ghost use Rattle.pybuf_array_lines.specs.Laws.{ArrayRepliesAreSingle, OperationsAreOfLines, BadLineIsFirst, OperationsReadBack};

use pybuf_line::{commands_read_back, replies_are_single_lines, values_read_back};

/// The text of each reply is one line.
///
/// Example: the reply to `tobytes` of the one number 10 of the code `B` is `b'\n'`, with a backslash and an `n`.
pub fn array_replies_are_single_lines()
    ensures { ArrayRepliesAreSingle }
{
    replies_are_single_lines();
}

/// Where an input has operations, they are those of its lines, in order. Where it has none, the line whose number is
/// told is the first that is no operation.
///
/// Example: the operations of `b"append 3\nlen\n"` are that of `b"append 3"` and that of `b"len"`.
pub fn operations_are_of_lines()
    ensures each { OperationsAreOfLines }
    ensures first { BadLineIsFirst }
{}

/// An operation that was written is read back.
///
/// Example: `ArrayOp::Append` of 3 is written as `append 3`, which is read as it.
pub fn operations_read_back()
    ensures { OperationsReadBack }
{
    values_read_back();
    commands_read_back();
}
