//! The table of codes, as Python's `struct` page has it under "Format Characters".
ghost use Rattle.std.specs.Prelude.{◌≡◌};
ghost use Rattle.pybuf_struct.specs.Table.{code_of, is_native, is_big, is_allowed, size_of, alignment_of, is_signed};

/// The byte order, sizes and alignment of a format, which its prefix says.
///
/// Example: `<h` has the order `Little`, and reads `b"\x01\0"` as 1.
#[derive(Clone, Copy, Debug, PartialEq, Eq)]
pub enum Endianness {
    /// No prefix or `@`: native order, sizes and alignment.
    /// Example: `bI` has 8 bytes, since its `I` begins at 4.
    Native,
    /// `<`: little-endian, so that the first byte of a number is worth least, with standard sizes.
    /// Example: `<H` reads `b"\x01\x02"` as 513.
    Little,
    /// `>` or `!`: big-endian, so that the first byte of a number is worth most, with standard sizes.
    /// Example: `>H` reads `b"\x01\x02"` as 258.
    Big,
    /// `=`: native order with standard sizes.
    /// Example: `=bI` has 5 bytes, since nothing is aligned.
    Host,
}

/// A code of a format.
///
/// Example: the format `<hI` has the codes `Short` and `UInt`.
#[derive(Clone, Copy, Debug)]
pub enum FormatType {
    /// `x`, a byte without a value.
    /// Example: `<x` has one byte and no value.
    Pad,
    /// `b`, a signed number of one byte.
    /// Example: `b` reads `b"\xff"` as -1.
    SByte,
    /// `B`, a number of one byte without a sign.
    /// Example: `B` reads `b"\xff"` as 255.
    UByte,
    /// `c`, bytes of length 1.
    /// Example: `c` reads `b"a"` as the bytes value `b"a"`.
    Char,
    /// `?`, a truth value.
    /// Example: `?` reads `b"\x02"` as true.
    Bool,
    /// `h`, a signed number of two bytes.
    /// Example: `<h` reads `b"\xff\xff"` as -1.
    Short,
    /// `H`, a number of two bytes without a sign.
    /// Example: `<H` reads `b"\xff\xff"` as 65535.
    UShort,
    /// `i`, a signed number of four bytes.
    /// Example: `<i` reads four bytes 255 as -1.
    Int,
    /// `I`, a number of four bytes without a sign.
    /// Example: `<I` reads `b"\x05\0\0\0"` as 5.
    UInt,
    /// `l`, a signed number: of eight bytes in a native format, else of four.
    /// Example: `l` has 8 bytes, and `<l` has 4.
    Long,
    /// `L`, a number without a sign: of eight bytes in a native format, else of four.
    /// Example: `L` has 8 bytes, and `<L` has 4.
    ULong,
    /// `q`, a signed number of eight bytes.
    /// Example: `<q` reads eight bytes 255 as -1.
    LongLong,
    /// `Q`, a number of eight bytes without a sign.
    /// Example: `<Q` reads eight bytes 255 as 18446744073709551615.
    ULongLong,
    /// `n`, a signed number of eight bytes, in native formats alone.
    /// Example: `n` reads eight bytes 255 as -1, and there is no format `<n`.
    SSizeT,
    /// `N`, a number of eight bytes without a sign, in native formats alone.
    /// Example: `N` has 8 bytes, and there is no format `<N`.
    SizeT,
    /// `u`, a wide character as a signed number of four bytes, in native formats alone.
    /// Example: `u` has 4 bytes, and there is no format `<u`.
    WideChar,
    /// `s`, one bytes value.
    /// Example: `3s` reads `b"ab\0"` as the bytes value `b"ab\0"`.
    Str,
    /// `p`, one bytes value after its length in one byte.
    /// Example: `4p` reads `b"\x02abc"` as the bytes value `b"ab"`.
    Pascal,
}

impl FormatType {
    /// The code that a byte spells.
    pub(crate) fn from_letter(letter: u8) -> Option<FormatType>
        ensures { result ≡ code_of letter }
    {
        match letter {
            b'x' => Some(FormatType::Pad),
            b'b' => Some(FormatType::SByte),
            b'B' => Some(FormatType::UByte),
            b'c' => Some(FormatType::Char),
            b'?' => Some(FormatType::Bool),
            b'h' => Some(FormatType::Short),
            b'H' => Some(FormatType::UShort),
            b'i' => Some(FormatType::Int),
            b'I' => Some(FormatType::UInt),
            b'l' => Some(FormatType::Long),
            b'L' => Some(FormatType::ULong),
            b'q' => Some(FormatType::LongLong),
            b'Q' => Some(FormatType::ULongLong),
            b'n' => Some(FormatType::SSizeT),
            b'N' => Some(FormatType::SizeT),
            b'u' => Some(FormatType::WideChar),
            b's' => Some(FormatType::Str),
            b'p' => Some(FormatType::Pascal),
            _ => None,
        }
    }

    /// Whether formats of this prefix have the code.
    pub(crate) fn is_allowed(self, order: Endianness) -> bool
        ensures { result ≡ is_allowed order self }
    {
        match self {
            FormatType::SSizeT | FormatType::SizeT | FormatType::WideChar => order.is_native(),
            _ => true,
        }
    }

    /// The bytes that one unit of the code's count takes.
    pub(crate) fn size(self, order: Endianness) -> usize
        ensures { result ≡ size_of order self }
    {
        match self {
            FormatType::Short | FormatType::UShort => 2,
            FormatType::Int | FormatType::UInt | FormatType::WideChar => 4,
            FormatType::Long | FormatType::ULong => { if order.is_native() { 8 } else { 4 } }
            FormatType::LongLong | FormatType::ULongLong | FormatType::SSizeT | FormatType::SizeT =>
                8,
            _ => 1,
        }
    }

    /// What an offset is raised to a multiple of before the code; 1 where there is no alignment.
    pub(crate) fn alignment(self, order: Endianness) -> usize
        ensures { result ≡ alignment_of order self }
    {
        if !order.is_native() {
            return 1;
        }
        match self {
            FormatType::Short | FormatType::UShort => 2,
            FormatType::Int | FormatType::UInt | FormatType::WideChar => 4,
            FormatType::Long
            | FormatType::ULong
            | FormatType::LongLong
            | FormatType::ULongLong
            | FormatType::SSizeT
            | FormatType::SizeT => 8,
            _ => 1,
        }
    }

    /// Whether a number of this code is in two's complement.
    pub(crate) fn is_signed(self) -> bool
        ensures { result ≡ is_signed self }
    {
        match self {
            FormatType::SByte
            | FormatType::Short
            | FormatType::Int
            | FormatType::Long
            | FormatType::LongLong
            | FormatType::SSizeT
            | FormatType::WideChar => true,
            _ => false,
        }
    }
}

impl Endianness {
    /// Whether sizes and alignment are native.
    pub(crate) fn is_native(self) -> bool
        ensures { result ≡ is_native self }
    {
        match self {
            Endianness::Native => true,
            _ => false,
        }
    }

    /// Whether numbers are big-endian.
    pub(crate) fn is_big(self) -> bool
        ensures { result ≡ is_big self }
    {
        match self {
            Endianness::Big => true,
            _ => false,
        }
    }
}
