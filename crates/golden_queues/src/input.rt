//! What is read.
use pybuf_value::Made;
use std::alloc::Global;
use std::io::Read;

/// As many pieces of the input are read at most.
const PIECES: usize = 64;

/// The bytes of a piece at most.
const PIECE: usize = 65_536;

/// Adds the next piece to the input, and says whether there was one.
fn read_piece<R: Read>(reader: &mut R, input: &mut Vec<u8>) -> Made<bool> {
    let mut room = [0u8; PIECE];
    match reader.read(&mut room) {
        Ok(count) => {
            if count > PIECE {
                return Ok(false);
            }
            input.extend_from_slice(&room[..count])?;
            Ok(count > 0)
        }
        Err(_) => Ok(false),
    }
}

/// The bytes of the input.
pub fn read_input<R: Read>(alloc: Global, reader: &mut R) -> Made<Vec<u8>> {
    let mut input = Vec::new(alloc);
    for _piece in 0..PIECES {
        if !read_piece(reader, &mut input)? {
            return Ok(input);
        }
    }
    Ok(input)
}

/// The word of a line, and the number that its digits spell, below 65,536.
pub fn call_of(line: &[u8]) -> (&[u8], usize) {
    let mut number: u16 = 0;
    let mut length: usize = 0;
    for byte in line {
        if byte.is_ascii_digit() {
            number = number
                .wrapping_mul(10)
                .wrapping_add((*byte).wrapping_sub(48) as u16);
        } else if *byte != b' ' {
            length = length.wrapping_add(1);
        }
    }
    if length > line.len() {
        return (line, number as usize);
    }
    (&line[..length], number as usize)
}
