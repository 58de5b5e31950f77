//! The codes of arrays of whole numbers, as Python's `array` page has them.
ghost use Rattle.std.specs.Prelude.{◌≡◌, true, All};
ghost use Rattle.std.specs.List.{list_all};
ghost use Rattle.pybuf_numbers.specs.Codes as spec;

/// Which numbers an array holds: the native types of C that a letter stands for.
///
/// Example: `ArrayCode::UShort` is the code `H`, whose numbers have two bytes and go from 0 to 65535.
#[derive(Clone, Copy, Debug, PartialEq, Eq)]
pub enum ArrayCode {
    /// `b`, signed numbers of one byte.
    /// Example: the byte 255 is the number -1.
    SByte,
    /// `B`, numbers of one byte without a sign.
    /// Example: the byte 255 is the number 255.
    UByte,
    /// `h`, signed numbers of two bytes.
    /// Example: `b"\xff\xff"` is the number -1.
    Short,
    /// `H`, numbers of two bytes without a sign.
    /// Example: `b"\x02\x01"` is the number 258.
    UShort,
    /// `i`, signed numbers of four bytes.
    /// Example: four bytes 255 are the number -1.
    Int,
    /// `I`, numbers of four bytes without a sign.
    /// Example: `b"\x05\0\0\0"` is the number 5.
    UInt,
    /// `l`, signed numbers of eight bytes.
    /// Example: eight bytes 255 are the number -1.
    Long,
    /// `L`, numbers of eight bytes without a sign.
    /// Example: eight bytes 255 are the number 18446744073709551615.
    ULong,
    /// `q`, signed numbers of eight bytes.
    /// Example: eight bytes 255 are the number -1.
    LongLong,
    /// `Q`, numbers of eight bytes without a sign.
    /// Example: eight bytes 255 are the number 18446744073709551615.
    ULongLong,
}

impl ArrayCode {
    /// The code that a letter stands for; None exactly for every other byte. Takes no memory.
    ///
    /// Example: `ArrayCode::from_byte(b'H')` is `Some(ArrayCode::UShort)`, and `ArrayCode::from_byte(b'x')` is `None`.
    pub fn from_byte(code: u8) -> Option<ArrayCode>
        ensures { result ≡ spec.code_of code }
    {
        match code {
            b'b' => Some(ArrayCode::SByte),
            b'B' => Some(ArrayCode::UByte),
            b'h' => Some(ArrayCode::Short),
            b'H' => Some(ArrayCode::UShort),
            b'i' => Some(ArrayCode::Int),
            b'I' => Some(ArrayCode::UInt),
            b'l' => Some(ArrayCode::Long),
            b'L' => Some(ArrayCode::ULong),
            b'q' => Some(ArrayCode::LongLong),
            b'Q' => Some(ArrayCode::ULongLong),
            _ => None,
        }
    }

    /// The letter that stands for the code.
    ///
    /// Example: `ArrayCode::UShort.letter()` is `b'H'`.
    pub fn letter(self) -> u8
        ensures { result ≡ spec.letter_of self }
    {
        match self {
            ArrayCode::SByte => b'b',
            ArrayCode::UByte => b'B',
            ArrayCode::Short => b'h',
            ArrayCode::UShort => b'H',
            ArrayCode::Int => b'i',
            ArrayCode::UInt => b'I',
            ArrayCode::Long => b'l',
            ArrayCode::ULong => b'L',
            ArrayCode::LongLong => b'q',
            ArrayCode::ULongLong => b'Q',
        }
    }

    /// The number of bytes of one number.
    ///
    /// Example: `ArrayCode::UShort.size()` is 2.
    pub fn size(self) -> usize
        ensures { result ≡ spec.size_of self }
    {
        match self {
            ArrayCode::SByte | ArrayCode::UByte => 1,
            ArrayCode::Short | ArrayCode::UShort => 2,
            ArrayCode::Int | ArrayCode::UInt => 4,
            ArrayCode::Long | ArrayCode::ULong | ArrayCode::LongLong | ArrayCode::ULongLong => 8,
        }
    }

    /// Whether numbers below 0 are among the numbers of the code.
    ///
    /// Example: `ArrayCode::UShort.is_signed()` is `false`.
    pub fn is_signed(self) -> bool
        ensures { result ≡ spec.is_signed self }
    {
        match self {
            ArrayCode::SByte
            | ArrayCode::Short
            | ArrayCode::Int
            | ArrayCode::Long
            | ArrayCode::LongLong => true,
            ArrayCode::UByte
            | ArrayCode::UShort
            | ArrayCode::UInt
            | ArrayCode::ULong
            | ArrayCode::ULongLong => false,
        }
    }

    /// How many numbers it has.
    pub(crate) fn modulus(self) -> i128
        ensures { result ≡ spec.modulus_of self }
    {
        match self.size() {
            1 => 0x100,
            2 => 0x1_0000,
            4 => 0x1_0000_0000,
            _ => 0x1_0000_0000_0000_0000,
        }
    }

    /// Whether a number is among the numbers of the code.
    ///
    /// Example: `ArrayCode::UShort.holds(65535)` is `true`, and `ArrayCode::UShort.holds(65536)` is `false`.
    pub fn holds(self, number: i128) -> bool
        ensures { result ≡ spec.holds self number }
    {
        let modulus = self.modulus();
        if !self.is_signed() {
            return number >= 0 && number < modulus;
        }
        let half = modulus / 2;
        -half <= number && number < half
    }

    /// Whether all these numbers are among the numbers of the code.
    ///
    /// Example: `ArrayCode::UByte.holds_all(&[0, 255])` is `true`, and of `&[0, 256]` it is `false`.
    pub fn holds_all(self, numbers: &[i128]) -> bool
        ensures all { result ≡ list_all (spec.holds self) numbers.now }
        ensures each { result ≡ true → All (λ n. spec.holds self n ≡ true) numbers.now }
    {
        for number in numbers {
            if !self.holds(*number) {
                return false;
            }
        }
        true
    }
}
