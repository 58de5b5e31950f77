//! Formats of records, and bytes that are read as one record after another.
ghost use Rattle.std.specs.Prelude.{◌≡◌, ◌<◌, ◌^◌, ◌∷◌, [], length, Ok, Err, IfOk, OnOk, OnErr, IfSome, IfNone, MatchResult};
ghost use Rattle.pybuf_value.specs.Halting.{Gives, outcome_of};
ghost use Rattle.pybuf_struct.specs.Formats.{format_of, fields};
ghost use Rattle.pybuf_table.specs.Records.{record_format, rows, whole_rows};

use crate::row_format::RowFormat;
use pybuf_struct::FormatSpec;
use pybuf_value::{Answer, Fault, Halt, Made, Outcome, ScalarList, Text, Tried};
use std::alloc::Global;
use std::marker::Model;

/// The format of records. A table is bytes that are records of this format, one after another. A clause sees the
/// format's text, and what that spells.
/// Example: `Records::from_str(alloc, "<4sH")?` stands for records of four bytes and a number.
#[derive(Debug, Drop)]
pub struct Records {
    text: Text,
    format: RowFormat,
}

impl Model for Records {
    ghost use Rattle.pybuf_table.specs.Records.{RecordFormat, IsRecordFormat};

    ghost Value = { RecordFormat };

    ghost view = { λ r. record { text = r.text; format = r.format } };

    ghost invariant = { λ r. IsRecordFormat (record { text = r.text; format = r.format }) };
}

/// The records of bytes, one after another. A clause sees the values of those that are left.
/// Example: `records.iter_unpack(bytes)?` by `<4sH` stands for the two records of `b"ada\0\x05\0bob\0\x07\0"`.
#[derive(Debug, Drop)]
pub struct RecordIter<'a> {
    format: &'a RowFormat,
    rest: &'a [u8],
}

impl<'a> Model for RecordIter<'a> {
    ghost use Rattle.std.specs.Prelude.{List, IsTrue, ◌<◌};
    ghost use Rattle.pybuf_value.specs.declared.values.Scalar.{Scalar};
    ghost use Rattle.pybuf_table.specs.Records.{rows, IsLeft};

    ghost Value = { List (List Scalar) };

    ghost view = { λ i. rows i.format.now i.rest.now };

    ghost invariant = { λ i. IsLeft i.format.now i.rest.now };
}

impl Records {
    /// The records of the format that a text spells.
    ///
    /// Refused with `StructError` exactly where the text spells no format, and with `ValueError` exactly where its size
    /// is 0.
    /// Example: the text `<4sH` gives records of six bytes, and the text `0s` is refused with `ValueError`.
    pub fn new(alloc: Global, format: Text) -> Tried<Records>
        ensures { IfOk result (λ o. o ≡ outcome_of (record_format format)) }
    {
        match FormatSpec::parse(alloc, format.as_slice())? {
            Outcome::Refused(fault) => Ok(Outcome::Refused(fault)),
            Outcome::Done(spec) => {
                if spec.size() == 0 {
                    return Ok(Outcome::Refused(Fault::Value));
                }
                let row_format = RowFormat::new(alloc, spec)?;
                Ok(Outcome::Done(Records {
                    text: format,
                    format: row_format,
                }))
            }
        }
    }

    /// The records of the format that a text spells, as `new` has them. It is refused as `new` is.
    /// Example: `Records::from_str(alloc, "<4sH")?.size()` is 6.
    pub fn from_str(alloc: Global, format: &str) -> Result<Records, Halt>
        ensures { Gives (record_format format.now) result }
    {
        Records::new(alloc, Text::from_str(alloc, format)?).done()
    }

    /// The number of bytes of a record, as Python's `struct.calcsize(format)` (Library reference, "struct"). Takes no
    /// memory.
    /// Example: of `<4sH` it is 6.
    pub fn size(&self) -> usize
        ensures value { result ≡ self.now.format.size }
        ensures some { 0 < result }
        ensures small { result < 2 ^ 63 }
    {
        self.format.size()
    }

    /// The number of fields of a record, which is the number of its values. Takes no memory.
    /// Example: of `<4sH` it is 2.
    pub fn fields(&self) -> usize
        ensures { result ≡ length (fields self.now.format) }
    {
        self.format.spec().arg_count()
    }

    /// The text of the format, lent. Takes no memory.
    /// Example: of `Records::from_str(alloc, "<4sH")?` it is the text `<4sH`.
    pub fn text(&self) -> &Text
        ensures text { result.now ≡ self.now.text }
        ensures spelled { format_of self.now.text ≡ Ok self.now.format }
    {
        &self.text
    }

    /// The format of a record, lent. Takes no memory.
    /// Example: `records.format().size()` of `<4sH` is 6.
    pub fn format(&self) -> &FormatSpec
        ensures { result.now ≡ self.now.format }
    {
        self.format.spec()
    }

    /// The records of the bytes, one after another, as Python's `struct.iter_unpack` (Library reference, "struct").
    /// Each is unpacked when it is asked for. Takes no memory.
    ///
    /// Refused with `StructError` exactly where the number of bytes is no multiple of a record's size.
    /// Example: by `<4sH` the bytes `b"ada\0\x05\0bob\0\x07\0"` have two records, and `b"ada"` is refused with `StructError`.
    pub fn iter_unpack<'a>(&'a self, bytes: &'a [u8]) -> Result<RecordIter<'a>, Fault>
        ensures { result ≡ whole_rows self.now.format bytes.now }
    {
        if bytes.len() % self.size() != 0 {
            return Err(Fault::Struct);
        }
        Ok(RecordIter {
            format: &self.format,
            rest: bytes,
        })
    }
}

impl<'a> RecordIter<'a> {
    /// The values of the next record. It is None where none is left. Where memory runs out, the same record comes
    /// again.
    /// Example: over `b"ada\0\x05\0"` by `<4sH` it gives `b"ada\0"` and 5, and then None.
    pub fn next_row(&mut self, alloc: Global) -> Made<Option<ScalarList>>
        ensures some { IfOk result (λ next. IfSome next (λ row. self.old ≡ row ∷ self.new)) }
        ensures none { IfOk result (λ next. IfNone next (self.old ≡ [])) }
        ensures end { IfOk result (λ next. IfNone next (self.new ≡ [])) }
        ensures err { OnErr result (self.new ≡ self.old) }
    {
        if self.rest.is_empty() {
            return Ok(None);
        }
        let (first, rest) = self.rest.split_at(self.format.size());
        let row = self.format.unpack(alloc, first)?;
        self.rest = rest;
        Ok(Some(row))
    }
}
