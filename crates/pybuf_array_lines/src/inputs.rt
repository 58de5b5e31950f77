//! Whether the lines of an input are operations.
ghost use Rattle.pybuf_array_lines.specs.Inputs.{operations_in, ChecksAll};

use crate::operations::operation_of_line;
use pybuf_line::{Misread, Unread, next_line};
use std::alloc::Global;

/// Checks that each line of an input is an operation.
///
/// It answers `BadLine` with the number of the first line that is none, counted from 1, and `NoMemory`
/// where memory ran out before.
///
/// Example: of `b"append 3\nlen\n"` it is `Ok(())`, and of `b"len\nappend\n"` it is `Err(Misread::BadLine(2))`.
pub fn check_operations(alloc: Global, input: &[u8]) -> Result<(), Misread>
    ensures { ChecksAll result (operations_in input.now) }
{
    let mut words = Vec::new(alloc);
    let mut rest = input;
    let mut number: u64 = 0;
    while let Some((line, after)) = next_line(rest) {
        number += 1;
        match operation_of_line(alloc, &mut words, line) {
            Ok(operation) => drop(operation),
            Err(Unread::NoCommand) => return Err(Misread::BadLine(number)),
            Err(Unread::NoMemory) => return Err(Misread::NoMemory),
        }
        rest = after;
    }
    Ok(())
}
