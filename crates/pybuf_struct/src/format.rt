//! Formats, as their texts spell them.
ghost use Rattle.std.specs.Prelude.{◌≡◌, ◌<◌, ◌^◌, length};
ghost use Rattle.pybuf_struct.specs.Formats.{Code, Format, fields, field_count, span, extent, IsKept};

use crate::table::{Endianness, FormatType};
use pybuf_value::{Made, Twin, copy_all};
use std::alloc::Global;
use std::marker::Model;

/// A code of a format with its count. A clause sees its count, its code, and the padding before it.
///
/// Example: `3h` of the format `<3hB` is a code with the count 3, the code `Short` and no padding.
#[derive(Clone, Copy, Debug)]
pub struct FormatCode {
    repeat: usize,
    code: FormatType,
    pre_padding: usize,
}

impl Model for FormatCode {
    ghost Value = { Code };

    ghost view = { λ c. record { repeat = c.repeat; code = c.code; pre_padding = c.pre_padding } };

    ghost inverse = { λ c. record { repeat = c.repeat; code = c.code; pre_padding = c.pre_padding } };
}

impl FormatCode {
    pub(crate) fn new(repeat: usize, code: FormatType, pre_padding: usize) -> FormatCode
        ensures { result ≡ record { repeat = repeat; code = code; pre_padding = pre_padding } }
    {
        FormatCode {
            repeat,
            code,
            pre_padding,
        }
    }

    /// The count that the text writes before the code, 1 where it writes none.
    ///
    /// Example: of `3h` it is 3, and of `h` it is 1.
    pub fn repeat(&self) -> usize
        ensures { result ≡ self.now.repeat }
    {
        self.repeat
    }

    /// The code that the text writes.
    ///
    /// Example: of `3h` it is `FormatType::Short`.
    pub fn code(&self) -> FormatType
        ensures { result ≡ self.now.code }
    {
        self.code
    }

    /// By how many bytes the offset is raised before the code; 0 in a format that isn't native.
    ///
    /// Example: of the second code of `bI` it is 3, and of that of `<bI` it is 0.
    pub fn pre_padding(&self) -> usize
        ensures { result ≡ self.now.pre_padding }
    {
        self.pre_padding
    }

    /// The bytes of the code without its padding.
    pub(crate) fn span(&self, order: Endianness) -> usize
        requires { span order self.now < 2 ^ 64 }
        ensures { result ≡ span order self.now }
    {
        self.repeat * self.code.size(order)
    }

    /// The number of fields that the code gives: none for `x`, one for `s` and `p`, and as many as
    /// its count for every other code.
    ///
    /// Example: of `3h` it is 3, of `3s` it is 1, and of `3x` it is 0.
    pub fn arg_count(&self) -> usize
        ensures { result ≡ field_count self.now }
    {
        match self.code {
            FormatType::Pad => 0,
            FormatType::Str | FormatType::Pascal => 1,
            _ => self.repeat,
        }
    }
}

impl Twin for FormatCode {
    fn copy(&self, _alloc: Global) -> Made<FormatCode> {
        Ok(*self)
    }
}

/// A format, as `struct.Struct` of Python's `struct` page holds one. A clause sees the order of
/// its bytes, its codes and its size.
///
/// Example: the format of `<hI` has the order `Little`, the codes `h` and `I`, and the size 6.
#[derive(Debug, Drop)]
pub struct FormatSpec {
    order: Endianness,
    codes: Vec<FormatCode>,
    size: usize,
    arg_count: usize,
}

impl Model for FormatSpec {
    ghost Value = { Format };

    ghost view = { λ f. record { order = f.order; codes = f.codes.items; size = f.size } };

    ghost invariant = { λ f. IsKept f.order f.codes.items f.size f.arg_count };
}

impl FormatSpec {
    pub(crate) fn new(
        order: Endianness,
        codes: Vec<FormatCode>,
        size: usize,
        arg_count: usize,
    ) -> FormatSpec
        requires { IsKept order codes.items size arg_count }
        ensures { result ≡ record { order = order; codes = codes.items; size = size } }
    {
        FormatSpec {
            order,
            codes,
            size,
            arg_count,
        }
    }

    /// The total size in bytes: that of the fields, of the alignment before codes, and of `x`
    /// codes. There is no alignment at the end.
    ///
    /// Example: of `<bI` it is 5, and of `bI` it is 8.
    pub fn size(&self) -> usize
        ensures total { result ≡ self.now.size }
        ensures bound { result < 2 ^ 63 }
        ensures laid_out { extent self.now.order self.now.codes ≡ result }
    {
        self.size
    }

    /// The byte order, as the text's prefix says it.
    ///
    /// Example: of `<hI` it is `Endianness::Little`, and of `hI` it is `Endianness::Native`.
    pub fn endianness(&self) -> Endianness
        ensures { result ≡ self.now.order }
    {
        self.order
    }

    /// The number of fields, which is the number of values that the format reads or writes.
    ///
    /// Example: of `<2h3sx` it is 3.
    pub fn arg_count(&self) -> usize
        ensures { result ≡ length (fields self.now) }
    {
        self.arg_count
    }

    /// The codes, one for each code of the text, in order.
    ///
    /// Example: of `<2h3s` they are two: `Short` with the count 2, and `Str` with the count 3.
    pub fn codes(&self) -> &[FormatCode]
        ensures { result.now ≡ self.now.codes }
    {
        self.codes.as_slice()
    }
}

impl Twin for FormatSpec {
    fn copy(&self, alloc: Global) -> Made<FormatSpec> {
        let codes = copy_all(alloc, self.codes.as_slice())?;
        Ok(FormatSpec {
            order: self.order,
            codes,
            size: self.size,
            arg_count: self.arg_count,
        })
    }
}
