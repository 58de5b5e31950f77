//! Which records of a table are listed, and their lines.
ghost use Rattle.std.specs.Prelude.{◌≡◌, ◌<◌, ◌++◌, true, length, map, IfOk, OnOk};
ghost use Rattle.std.specs.List.{flat_map};
ghost use Rattle.pybuf_value.specs.declared.values.Scalar.{Scalar};
ghost use Rattle.pybuf_struct.specs.Values.{values};
ghost use Rattle.pybuf_table.specs.Chosen.{chosen};
ghost use Rattle.pybuf_table_lines.specs.Queries.{may_be_asked};
ghost use Rattle.pybuf_table_lines.specs.Listings.{records_in, listing_in};
ghost use Rattle.pybuf_table_lines.specs.Texts.{row_line, listing_text, left_over};

use crate::queries::{Query, query_of_words};
use crate::texts::push_row_line;
use pybuf_table::{Records, RowList};
use pybuf_value::{Made, Outcome, Scalar, ScalarList, Text, Twin};
use std::alloc::Global;
use std::marker::Model;

/// The records of a format, all of them or those that a query chooses. A clause sees the format and the query, which may
/// be asked of it.
///
/// Example: that of `<BH` with `1 > 100` lists of `(1, 2)` and `(5, 262)` the second alone.
#[derive(Debug, Drop)]
pub struct Listing {
    records: Records,
    query: Option<Query>,
}

impl Model for Listing {
    ghost use Rattle.pybuf_table_lines.specs.Listings.{IsListing, Listing};

    ghost Value = { Listing };

    ghost view = { λ l. record { records = l.records; query = l.query } };

    ghost invariant = { λ l. IsListing (record { records = l.records; query = l.query }) };
}

/// The format of records that a word spells.
fn records_of_word(alloc: Global, word: &Text) -> Made<Option<Records>>
    ensures { IfOk result (λ records. records ≡ records_in word.now) }
{
    let text = word.copy(alloc)?;
    match Records::new(alloc, text)? {
        Outcome::Done(records) => Ok(Some(records)),
        Outcome::Refused(_) => Ok(None),
    }
}

/// Whether a query may be asked of records: of none it is answered, unless it is refused.
fn may_be_asked(alloc: Global, records: &Records, query: Query) -> Made<bool>
    ensures { IfOk result (λ may. may ≡ may_be_asked records.now.format query) }
{
    match records.select(
        alloc,
        &[],
        query.field,
        query.op,
        &Scalar::Int(query.number),
    )? {
        Outcome::Done(_) => Ok(true),
        Outcome::Refused(_) => Ok(false),
    }
}

/// What words ask to be listed. A format alone asks for each of its records. With the number of a
/// field, an operator and a whole number behind the format, the words ask for the records whose field
/// compares so.
///
/// None exactly where the first word spells no format or one of size 0, there is no such field, another
/// word is misspelled, an order is asked of bytes, or there are more words or fewer.
///
/// Example: of `<BH`, `1`, `>` and `100` it gives a listing, and of `<BH`, `9`, `>` and `100` it gives `None`.
pub fn listing_of_words(alloc: Global, words: &[Text]) -> Made<Option<Listing>>
    ensures { IfOk result (λ listing. listing ≡ listing_in words.now) }
{
    match words {
        [format] => match records_of_word(alloc, format)? {
            Some(records) => Ok(Some(Listing {
                records,
                query: None,
            })),
            None => Ok(None),
        },
        [format, field, op, number] => {
            let Some(query) = query_of_words(alloc, field, op, number)? else {
                return Ok(None);
            };
            let Some(records) = records_of_word(alloc, format)? else {
                return Ok(None);
            };
            if may_be_asked(alloc, &records, query)? {
                Ok(Some(Listing {
                    records,
                    query: Some(query),
                }))
            } else {
                Ok(None)
            }
        }
        _ => Ok(None),
    }
}

/// The values of the bytes of one record.
fn row_of_record(alloc: Global, records: &Records, bytes: &[u8]) -> Made<ScalarList>
    requires { length bytes.now ≡ records.now.format.size }
    ensures { IfOk result (λ row. row ≡ values records.now.format bytes.now) }
{
    match records.format().unpack(alloc, bytes)? {
        Outcome::Done(row) => Ok(row),
        Outcome::Refused(_) => unreachable!(),
    }
}

/// The records that a query chooses of the bytes of one.
fn chosen_of_record(alloc: Global, records: &Records, query: Query, bytes: &[u8]) -> Made<RowList>
    requires whole { length bytes.now ≡ records.now.format.size }
    requires asked { may_be_asked records.now.format query ≡ true }
    ensures { IfOk result (λ rows. rows ≡ chosen records.now.format query.field query.op (Scalar.Int query.number) bytes.now) }
{
    match records.select(
        alloc,
        bytes,
        query.field,
        query.op,
        &Scalar::Int(query.number),
    )? {
        Outcome::Done(rows) => Ok(rows),
        Outcome::Refused(_) => unreachable!(),
    }
}

/// Adds the lines of records.
fn push_rows(out: &mut Vec<u8>, rows: &[(usize, ScalarList)]) -> Made<()>
    ensures { OnOk result (out.new.items ≡ out.old.items ++ flat_map row_line (map (λ row. row.1) rows.now)) }
{
    for row in rows {
        push_row_line(out, &row.1)?;
    }
    Ok(())
}

impl Listing {
    /// How many bytes are left over behind the last whole record.
    ///
    /// Example: of the format `<BH`, whose records have three bytes, and four bytes it is 1.
    pub fn left_over(&self, bytes: &[u8]) -> usize
        ensures { result ≡ left_over self.now bytes.now }
    {
        bytes.len() % self.records.size()
    }

    /// Adds the line of a record, where it is listed.
    fn push_record(&self, alloc: Global, bytes: &[u8], out: &mut Vec<u8>) -> Made<()>
        requires { length bytes.now ≡ self.now.records.format.size }
        ensures { OnOk result (out.new.items ≡ out.old.items ++ listing_text self.now bytes.now) }
    {
        match self.query {
            None => {
                let row = row_of_record(alloc, &self.records, bytes)?;
                push_row_line(out, &row)
            }
            Some(query) => {
                let rows = chosen_of_record(alloc, &self.records, query, bytes)?;
                push_rows(out, rows.as_slice())
            }
        }
    }

    /// Adds the line of the first record, where it is listed, and gives the bytes behind it: the text of a table is that
    /// line and then the text of these. No other record is read. There have to be records and nothing else.
    ///
    /// Where memory runs out, a part of the line may have been added.
    ///
    /// Example: of `<BH` and `b"\x01\x02\0\x05\x06\x01"` it adds the line `(1, 2)` and gives `b"\x05\x06\x01"`.
    pub fn push_first<'a>(
        &self,
        alloc: Global,
        bytes: &'a [u8],
        out: &mut Vec<u8>,
    ) -> Made<&'a [u8]>
        requires some { 0 < length bytes.now }
        requires whole { left_over self.now bytes.now ≡ 0 }
        ensures text { IfOk result (λ rest. out.new.items ++ listing_text self.now rest.now ≡ out.old.items ++ listing_text self.now bytes.now) }
        ensures shorter { IfOk result (λ rest. length rest.now < length bytes.now) }
        ensures whole { IfOk result (λ rest. left_over self.now rest.now ≡ 0) }
    {
        let (first, rest) = bytes.split_at(self.records.size());
        self.push_record(alloc, first, out)?;
        Ok(rest)
    }
}
