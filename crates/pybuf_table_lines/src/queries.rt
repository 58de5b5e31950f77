//! What is asked of a field of each record.
ghost use Rattle.std.specs.Prelude.{◌≡◌, IfOk};
ghost use Rattle.pybuf_table_lines.specs.Queries.{integer_in, query_in};

use pybuf_line::{Unread, operator_named, scalar, word_number};
use pybuf_value::{CompareOp, Made, NoMemory, Scalar, Text};
use std::alloc::Global;

/// A field of each record, by its number, and how it has to compare with a whole number.
///
/// Example: the field 1, `CompareOp::Gt` and 100 choose the record `(5, 262)`, and don't choose `(1, 2)`.
#[derive(Clone, Copy, Debug)]
pub struct Query {
    pub field: usize,
    pub op: CompareOp,
    pub number: i128,
}

/// The whole number that a word spells.
fn integer(alloc: Global, word: &[u8]) -> Made<Option<i128>>
    ensures { IfOk result (λ number. number ≡ integer_in word.now) }
{
    match scalar(alloc, word) {
        Ok(Scalar::Int(number)) => Ok(Some(number)),
        Ok(_) => Ok(None),
        Err(Unread::NoCommand) => Ok(None),
        Err(Unread::NoMemory) => Err(NoMemory),
    }
}

/// The query that three words spell.
pub(crate) fn query_of_words(
    alloc: Global,
    field: &Text,
    op: &Text,
    number: &Text,
) -> Made<Option<Query>>
    ensures { IfOk result (λ query. query ≡ query_in field.now op.now number.now) }
{
    let Some(field) = word_number(field.as_slice()) else {
        return Ok(None);
    };
    let Some(op) = operator_named(op.as_slice()) else {
        return Ok(None);
    };
    let Some(number) = integer(alloc, number.as_slice())? else {
        return Ok(None);
    };
    Ok(Some(Query {
        field: field as usize,
        op,
        number,
    }))
}
