//! Laws of the definitions that the contracts cite. Each stands on a function with an empty body.
ghost use Rattle.pybuf_numbers.specs.Laws.{NumbersReadBack, BytesReadBack, NumbersAreInRange, SwappingTwiceIsNothing};

/// Numbers in the range of a code are read from their bytes as they are.
///
/// Example: of the code `H` the number 258 has the bytes `b"\x02\x01"`, which are read as 258.
pub fn numbers_read_back()
    ensures { NumbersReadBack }
{}

/// The bytes of the numbers that bytes spell are these bytes, where none is left over.
///
/// Example: `b"\x02\x01"` spells by the code `H` the number 258, whose bytes are `b"\x02\x01"`.
pub fn bytes_read_back()
    ensures { BytesReadBack }
{}

/// Numbers that are read are in the range of their code.
///
/// Example: each two bytes are read by the code `H` as a number from 0 to 65535.
pub fn numbers_are_in_range()
    ensures { NumbersAreInRange }
{}

/// A number whose bytes are reversed twice is the number, and in range in between.
///
/// Example: of the code `H` the number 258 with its bytes reversed is 513, and with those reversed it is 258.
pub fn swapping_twice_is_nothing()
    ensures { SwappingTwiceIsNothing }
{}
