//! The fields of a format, one after another.
ghost use Rattle.std.specs.Prelude.{◌≡◌, [], ◌∷◌, ◌<◌, ◌^◌, IfSome, IfNone, OnSome};
ghost use Rattle.pybuf_struct.specs.Formats.{extent, fields_from};

use crate::format::FormatCode;
use crate::table::{Endianness, FormatType};

/// Where a field lies, and what it holds.
#[derive(Clone, Copy, Debug)]
pub(crate) struct FieldPlace {
    pub(crate) code: FormatType,
    pub(crate) offset: usize,
    pub(crate) length: usize,
}

/// The fields that are left: those of one code, and those of the codes after it.
#[derive(Clone, Copy)]
pub(crate) struct Cursor<'a> {
    order: Endianness,
    code: FormatType,
    length: usize,
    left: usize,
    offset: usize,
    codes: &'a [FormatCode],
}

impl<'a> Cursor<'a> {
    ghost use Rattle.pybuf_struct.specs.Cursor.{remaining, end, field_of};

    /// The fields of codes that follow one another from offset 0.
    pub(crate) fn new(order: Endianness, codes: &'a [FormatCode]) -> Cursor<'a>
        ensures fields { remaining result ≡ fields_from order 0 codes.now }
        ensures end { end result ≡ extent order codes.now }
        ensures order { result.order ≡ order }
    {
        Cursor {
            order,
            code: FormatType::Pad,
            length: 0,
            left: 0,
            offset: 0,
            codes,
        }
    }

    /// Goes on to the code that comes after the fields of this one, which are all taken.
    fn open(self, code: &FormatCode, codes: &'a [FormatCode]) -> Cursor<'a>
        requires none_left { self.left ≡ 0 }
        requires front { self.codes.now ≡ code.now ∷ codes.now }
        requires within { end self < 2 ^ 63 }
        ensures fields { remaining result ≡ remaining self.entry }
        ensures end { end result ≡ end self.entry }
        ensures order { result.order ≡ self.entry.order }
        ensures codes { result.codes.now ≡ codes.now }
    {
        let start = self.offset + code.pre_padding();
        let kind = code.code();
        let repeat = code.repeat();
        match kind {
            FormatType::Pad => Cursor {
                order: self.order,
                code: kind,
                length: 0,
                left: 0,
                offset: start + repeat,
                codes,
            },
            FormatType::Str | FormatType::Pascal => Cursor {
                order: self.order,
                code: kind,
                length: repeat,
                left: 1,
                offset: start,
                codes,
            },
            _ => Cursor {
                order: self.order,
                code: kind,
                length: kind.size(self.order),
                left: repeat,
                offset: start,
                codes,
            },
        }
    }

    /// The next field, None where none is left.
    pub(crate) fn next(&mut self) -> Option<FieldPlace>
        requires { end self.old < 2 ^ 63 }
        ensures some { IfSome result (λ f. remaining self.old ≡ field_of f ∷ remaining self.new) }
        ensures none { IfNone result (remaining self.old ≡ []) }
        ensures end { OnSome result (end self.new ≡ end self.old) }
        ensures order { OnSome result (self.new.order ≡ self.old.order) }
    {
        let mut here = *self;
        while here.left == 0 {
            let [code, rest @ ..] = here.codes else {
                return None;
            };
            here = here.open(code, rest);
        }
        *self = Cursor {
            order: here.order,
            code: here.code,
            length: here.length,
            left: here.left - 1,
            offset: here.offset + here.length,
            codes: here.codes,
        };
        Some(FieldPlace {
            code: here.code,
            offset: here.offset,
            length: here.length,
        })
    }
}
