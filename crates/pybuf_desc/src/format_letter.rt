//! Formats of one letter.
ghost use Rattle.std.specs.Prelude.{◌≡◌, [], ◌∷◌, IfSome};
ghost use Rattle.pybuf_desc.specs.KeptFormats.{code_of};

/// A letter that is a whole format, by the type of C or the kind of item that it stands for in Python's `struct` module.
#[derive(Clone, Copy, Debug)]
pub enum FormatLetter {
    Pad,
    Character,
    SignedChar,
    UnsignedChar,
    Truth,
    Short,
    UnsignedShort,
    Int,
    UnsignedInt,
    Long,
    UnsignedLong,
    LongLong,
    UnsignedLongLong,
    SignedSize,
    UnsignedSize,
    Half,
    Float,
    Double,
    Bytes,
    PascalBytes,
    Pointer,
    WideCharacter,
}

impl FormatLetter {
    /// The letter of a character code. None where it is no such letter.
    #[inline(always)]
    pub fn of_code(code: u8) -> Option<FormatLetter>
        ensures { IfSome result (λ letter. code_of letter ≡ code) }
    {
        match code {
            b'x' => Some(FormatLetter::Pad),
            b'c' => Some(FormatLetter::Character),
            b'b' => Some(FormatLetter::SignedChar),
            b'B' => Some(FormatLetter::UnsignedChar),
            b'?' => Some(FormatLetter::Truth),
            b'h' => Some(FormatLetter::Short),
            b'H' => Some(FormatLetter::UnsignedShort),
            b'i' => Some(FormatLetter::Int),
            b'I' => Some(FormatLetter::UnsignedInt),
            b'l' => Some(FormatLetter::Long),
            b'L' => Some(FormatLetter::UnsignedLong),
            b'q' => Some(FormatLetter::LongLong),
            b'Q' => Some(FormatLetter::UnsignedLongLong),
            b'n' => Some(FormatLetter::SignedSize),
            b'N' => Some(FormatLetter::UnsignedSize),
            b'e' => Some(FormatLetter::Half),
            b'f' => Some(FormatLetter::Float),
            b'd' => Some(FormatLetter::Double),
            b's' => Some(FormatLetter::Bytes),
            b'p' => Some(FormatLetter::PascalBytes),
            b'P' => Some(FormatLetter::Pointer),
            b'u' => Some(FormatLetter::WideCharacter),
            _ => None,
        }
    }

    /// The letter as a text.
    #[inline(always)]
    pub fn text(self) -> &'static str
        ensures { result.now ≡ code_of self ∷ [] }
    {
        match self {
            FormatLetter::Pad => "x",
            FormatLetter::Character => "c",
            FormatLetter::SignedChar => "b",
            FormatLetter::UnsignedChar => "B",
            FormatLetter::Truth => "?",
            FormatLetter::Short => "h",
            FormatLetter::UnsignedShort => "H",
            FormatLetter::Int => "i",
            FormatLetter::UnsignedInt => "I",
            FormatLetter::Long => "l",
            FormatLetter::UnsignedLong => "L",
            FormatLetter::LongLong => "q",
            FormatLetter::UnsignedLongLong => "Q",
            FormatLetter::SignedSize => "n",
            FormatLetter::UnsignedSize => "N",
            FormatLetter::Half => "e",
            FormatLetter::Float => "f",
            FormatLetter::Double => "d",
            FormatLetter::Bytes => "s",
            FormatLetter::PascalBytes => "p",
            FormatLetter::Pointer => "P",
            FormatLetter::WideCharacter => "u",
        }
    }
}
