//! A table of records.

use crate::answers::{Answer, count_of_values};
use crate::data::drawn;
use crate::measuring::Kernel;
use crate::plan::Plan;
use pybuf_table::{RecordIter, Records, RowList};
use pybuf_value::{CompareOp, Halt, Made, Outcome, Scalar, Text};
use std::alloc::Global;

/// The format of the records.
const FORMAT: &str = "<4sHHII";

/// The number of bytes of a record.
const RECORD: usize = 16;

/// The field that is compared, a number of two bytes.
const FIELD: usize = 1;

/// Below this number are one in a hundred of that field.
const LIMIT: i128 = 656;

/// Which records are asked for.
#[derive(Clone, Copy)]
pub enum Asked {
    /// All, one after another, by `iter_unpack`.
    All,
    /// Those whose field is below a limit.
    InOrder,
    /// Those whose field is a number.
    Equal,
}

/// A table, and which records of it are asked for.
#[derive(Drop)]
pub struct Table {
    records: Records,
    bytes: Vec<u8>,
    count: usize,
    asked: Asked,
    chosen: RowList,
}

/// The sum of what so many records count; -1 where there are fewer.
fn count_of_rows(alloc: Global, mut rows: RecordIter, count: usize) -> Made<i128> {
    let mut sum = 0i128;
    for _ in 0..count {
        match rows.next_row(alloc)? {
            Some(row) => sum = sum.wrapping_add(count_of_values(row.as_slice())),
            None => return Ok(-1),
        }
    }
    Ok(sum)
}

/// The sum of what chosen records count, and of their numbers.
fn count_of_chosen(rows: &RowList) -> i128 {
    let mut sum = 0i128;
    for (number, row) in rows.as_slice() {
        sum = sum.wrapping_add(count_of_values(row.as_slice()));
        sum = sum.wrapping_add(*number as i128);
    }
    sum
}

/// Unpacks so many records, and tells how many. There are no fewer.
fn unpack_all(alloc: Global, mut rows: RecordIter, count: usize) -> Result<Answer, Halt> {
    for _ in 0..count {
        let Some(_row) = rows.next_row(alloc)? else {
            return Ok(Answer::Refused);
        };
    }
    Ok(Answer::Number(count as i128))
}

impl Table {
    /// A table of so many drawn records.
    pub fn of(alloc: Global, plan: Plan, asked: Asked) -> Result<Table, Halt> {
        let bytes = drawn(alloc, plan.seed, plan.count.saturating_mul(RECORD))?;
        let format = Text::from_str(alloc, FORMAT)?;
        match Records::new(alloc, format)? {
            Outcome::Done(records) => Ok(Table {
                records,
                bytes,
                count: plan.count,
                asked,
                chosen: RowList::new(alloc),
            }),
            Outcome::Refused(fault) => Err(Halt::Refused(fault)),
        }
    }

    /// Chooses records, and tells how many.
    fn select(&mut self, alloc: Global, op: CompareOp, number: i128) -> Result<Answer, Halt> {
        let value = Scalar::Int(number);
        let bytes = self.bytes.as_slice();
        match self.records.select(alloc, bytes, FIELD, op, &value)? {
            Outcome::Done(rows) => {
                let count = rows.as_slice().len();
                self.chosen = rows;
                Ok(Answer::Number(count as i128))
            }
            Outcome::Refused(fault) => Err(Halt::Refused(fault)),
        }
    }

    /// Unpacks all records.
    fn unpack(&self, alloc: Global) -> Result<Answer, Halt> {
        match self.records.iter_unpack(self.bytes.as_slice()) {
            Ok(rows) => unpack_all(alloc, rows, self.count),
            Err(_) => Ok(Answer::Refused),
        }
    }

    /// The sum of what all records count.
    fn count_of_all(&self, alloc: Global) -> Result<i128, Halt> {
        match self.records.iter_unpack(self.bytes.as_slice()) {
            Ok(rows) => Ok(count_of_rows(alloc, rows, self.count)?),
            Err(_) => Ok(-1),
        }
    }
}

impl Kernel for Table {
    fn call(&mut self, alloc: Global) -> Result<Answer, Halt> {
        match self.asked {
            Asked::All => self.unpack(alloc),
            Asked::InOrder => self.select(alloc, CompareOp::Lt, LIMIT),
            Asked::Equal => self.select(alloc, CompareOp::Eq, LIMIT),
        }
    }

    fn written(&self, alloc: Global) -> Result<i128, Halt> {
        match self.asked {
            Asked::All => self.count_of_all(alloc),
            _ => Ok(count_of_chosen(&self.chosen)),
        }
    }
}
