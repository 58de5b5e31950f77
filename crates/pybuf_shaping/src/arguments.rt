//! Arguments of padding, of tabs and of translating.
ghost use Rattle.std.specs.Prelude.{◌≡◌, ◌<◌, ◌^◌, IfOk, length};
ghost use Rattle.std.specs.Option.{option_copied};
ghost use Rattle.pybuf_value.specs.Halting.{Gives, outcome_of};
ghost use Rattle.pybuf_value.specs.Snaps.{bytes_in};
ghost use Rattle.pybuf_shaping.specs.Arguments as spec;
ghost use Rattle.pybuf_shaping.specs.Padding.{centered, justified_left, justified_right};
ghost use Rattle.pybuf_shaping.specs.Tabs as tabs;

use crate::padding::{center, justify_left, justify_right};
use crate::tables::{identity_table, translate};
use crate::tabs::tab_size;
use pybuf_value::{
    Answer, ByteList, Fault, Halt, Lender, NoMemory, Outcome, Scalar, Tried, Value,
    bytes_from_object, tried, try_as_bytes,
};
use std::alloc::Global;

/// How many spaces there are from one tab to the next, as an argument of Python's `bytes.expandtabs`.
///
/// Example: the size 4 makes `b"a   b"` of `b"a\tb"`.
#[derive(Clone, Copy, Debug)]
pub struct ExpandTabsArgs {
    pub tabsize: isize,
}

impl ExpandTabsArgs {
    /// The size of a tab: 0 for a negative number.
    ///
    /// Example: for the number 8 it is 8, and for -1 it is 0.
    pub fn tabsize(&self) -> usize
        ensures value { result ≡ tabs.tab_size self.now.tabsize }
        ensures small { result < 2 ^ 63 }
    {
        tab_size(self.tabsize)
    }
}

/// The width to which bytes are filled up, and the byte that they are filled up with, as arguments of
/// Python's `bytes.center`, `bytes.ljust` and `bytes.rjust`. Without a fill byte they are filled up
/// with spaces.
///
/// Example: the width 5 and the fill byte `b"*"` make `b"ab***"` of `b"ab"` on the left.
#[derive(Debug, Drop)]
pub struct ByteInnerPaddingOptions {
    pub width: isize,
    pub fillchar: Option<Value>,
}

/// The fill byte that a value is.
fn fill_in<L: Lender>(value: &Value, lender: &L) -> Result<u8, Fault>
    ensures { result ≡ spec.fill_in (L.pairs lender.now) value.now }
{
    if let Value::One(Scalar::Handle(handle)) = value {
        if lender.lend(*handle).is_none() {
            return Err(Fault::UnknownName);
        }
    }
    match try_as_bytes(value, lender) {
        Some([byte]) => Ok(*byte),
        _ => Err(Fault::Kind),
    }
}

/// The fill byte that an argument is: the one byte of a bytes value, or of an exporter of kind bytes or
/// bytearray; it is a space where none is given.
///
/// Refused with `UnknownName` where the lender hasn't the handle, and with `TypeError` for every other
/// value.
///
/// Example: of the bytes value `b"*"` it is `Ok(b'*')`, and of `b"**"` it is `Err(Fault::Kind)`.
pub fn fill_of<L: Lender>(value: Option<&Value>, lender: &L) -> Result<u8, Fault>
    ensures { result ≡ spec.fill_of (L.pairs lender.now) (option_copied value.entry) }
{
    match value {
        None => Ok(b' '),
        Some(value) => fill_in(value, lender),
    }
}

impl ByteInnerPaddingOptions {
    /// The fill byte, as `fill_of` gives and refuses it.
    ///
    /// Example: where no fill byte is given it is `Ok(b' ')`.
    pub fn fill<L: Lender>(&self, lender: &L) -> Result<u8, Fault>
        ensures { result ≡ spec.fill_of (L.pairs lender.now) self.now.fillchar }
    {
        fill_of(self.fillchar.as_ref(), lender)
    }
}

/// The bytes in the middle of a width, as `center` puts them, by the options.
///
/// Refused as `ByteInnerPaddingOptions::fill` is.
///
/// Example: with the width 6 and the fill byte `b"*"` it makes `b"*abc**"` of `b"abc"`.
pub fn center_with<L: Lender>(
    alloc: Global,
    bytes: &[u8],
    options: &ByteInnerPaddingOptions,
    lender: &L,
) -> Tried<ByteList>
    ensures { IfOk result (λ outcome. outcome ≡ outcome_of (spec.filled (centered options.now.width) (L.pairs lender.now) options.now.fillchar bytes.now)) }
{
    match options.fill(lender) {
        Ok(fill) => Ok(Outcome::Done(center(alloc, bytes, options.width, fill)?)),
        Err(fault) => Ok(Outcome::Refused(fault)),
    }
}

/// The bytes on the left of a width, as `justify_left` puts them, by the options.
///
/// Refused as `ByteInnerPaddingOptions::fill` is.
///
/// Example: with the width 4 and no fill byte it makes `b"ab  "` of `b"ab"`.
pub fn justify_left_with<L: Lender>(
    alloc: Global,
    bytes: &[u8],
    options: &ByteInnerPaddingOptions,
    lender: &L,
) -> Tried<ByteList>
    ensures { IfOk result (λ outcome. outcome ≡ outcome_of (spec.filled (justified_left options.now.width) (L.pairs lender.now) options.now.fillchar bytes.now)) }
{
    match options.fill(lender) {
        Ok(fill) => Ok(Outcome::Done(justify_left(alloc, bytes, options.width, fill)?)),
        Err(fault) => Ok(Outcome::Refused(fault)),
    }
}

/// The bytes on the right of a width, as `justify_right` puts them, by the options.
///
/// Refused as `ByteInnerPaddingOptions::fill` is.
///
/// Example: with the width 4 and no fill byte it makes `b"  ab"` of `b"ab"`.
pub fn justify_right_with<L: Lender>(
    alloc: Global,
    bytes: &[u8],
    options: &ByteInnerPaddingOptions,
    lender: &L,
) -> Tried<ByteList>
    ensures { IfOk result (λ outcome. outcome ≡ outcome_of (spec.filled (justified_right options.now.width) (L.pairs lender.now) options.now.fillchar bytes.now)) }
{
    match options.fill(lender) {
        Ok(fill) => Ok(Outcome::Done(justify_right(alloc, bytes, options.width, fill)?)),
        Err(fault) => Ok(Outcome::Refused(fault)),
    }
}

/// The table by which bytes are mapped, and the bytes that are dropped before, as arguments of Python's
/// `bytes.translate`. Without a table, or where it is Python's `None`, each byte stays; without bytes to
/// be dropped, none is.
///
/// Example: without a table and with `b"b"` to be dropped, `translate` makes `b"ac"` of `b"abc"`.
#[derive(Debug, Drop)]
pub struct ByteInnerTranslateOptions {
    pub table: Option<Value>,
    pub delete: Option<Value>,
}

/// The bytes that a value is read as.
fn bytes_in<L: Lender>(alloc: Global, value: &Value, lender: &L) -> Result<ByteList, Halt>
    ensures { Gives (bytes_in (L.pairs lender.now) value.now) result }
{
    bytes_from_object(alloc, value, lender).done()
}

/// The table that a value is read as.
fn table_in<L: Lender>(alloc: Global, value: &Value, lender: &L) -> Result<ByteList, Halt>
    ensures value { Gives (spec.table_in (L.pairs lender.now) value.now) result }
    ensures full { IfOk result (λ table. length table ≡ 256) }
{
    if let Value::One(Scalar::None) = value {
        return Ok(identity_table(alloc)?);
    }
    match bytes_from_object(alloc, value, lender)? {
        Outcome::Refused(Fault::UnknownName) => Err(Halt::Refused(Fault::UnknownName)),
        Outcome::Refused(_) => Err(Halt::Refused(Fault::Value)),
        Outcome::Done(table) => {
            if table.len() != 256 {
                return Err(Halt::Refused(Fault::Value));
            }
            Ok(table)
        }
    }
}

/// The table that is given, or that of each byte itself.
fn table_given<L: Lender>(
    alloc: Global,
    value: Option<&Value>,
    lender: &L,
) -> Result<ByteList, Halt>
    ensures value { Gives (spec.table_given (L.pairs lender.now) (option_copied value.entry)) result }
    ensures full { IfOk result (λ table. length table ≡ 256) }
{
    match value {
        None => Ok(identity_table(alloc)?),
        Some(value) => table_in(alloc, value, lender),
    }
}

/// The bytes to be dropped that are given, or none.
fn dropped_given<L: Lender>(
    alloc: Global,
    value: Option<&Value>,
    lender: &L,
) -> Result<ByteList, Halt>
    ensures { Gives (spec.dropped_given (L.pairs lender.now) (option_copied value.entry)) result }
{
    match value {
        None => Ok(ByteList::new(alloc)),
        Some(value) => bytes_in(alloc, value, lender),
    }
}

/// The table, and the bytes to be dropped.
fn tables_of<L: Lender>(
    alloc: Global,
    table: Option<&Value>,
    delete: Option<&Value>,
    lender: &L,
) -> Result<(ByteList, ByteList), Halt>
    ensures value { Gives (spec.tables_of (L.pairs lender.now) (option_copied table.entry) (option_copied delete.entry)) result }
    ensures full { IfOk result (λ tables. length tables.0 ≡ 256) }
{
    let table = table_given(alloc, table, lender)?;
    let dropped = dropped_given(alloc, delete, lender)?;
    Ok((table, dropped))
}

impl ByteInnerTranslateOptions {
    /// The table of 256 bytes, and the bytes to be dropped.
    ///
    /// Refused with `UnknownName` where the lender hasn't a handle. A table that isn't read as 256
    /// bytes is refused with `ValueError`. Then the bytes to be dropped are refused as
    /// `bytes_from_object` refuses them.
    ///
    /// Example: without a table and with `b"b"` to be dropped it gives the bytes from 0 to 255, and `b"b"`.
    pub fn get_value<L: Lender>(&self, alloc: Global, lender: &L) -> Tried<(Vec<u8>, Vec<u8>)>
        ensures { IfOk result (λ outcome. spec.pair_answered outcome ≡ outcome_of (spec.tables_of (L.pairs lender.now) self.now.table self.now.delete)) }
    {
        match tables_of(alloc, self.table.as_ref(), self.delete.as_ref(), lender) {
            Ok((table, dropped)) => Ok(Outcome::Done((table.into_vec(), dropped.into_vec()))),
            Err(Halt::Refused(fault)) => Ok(Outcome::Refused(fault)),
            Err(Halt::NoMemory) => Err(NoMemory),
        }
    }
}

/// The bytes mapped by a table.
fn translation<L: Lender>(
    alloc: Global,
    bytes: &[u8],
    table: Option<&Value>,
    delete: Option<&Value>,
    lender: &L,
) -> Result<ByteList, Halt>
    ensures { Gives (spec.translation (L.pairs lender.now) (option_copied table.entry) (option_copied delete.entry) bytes.now) result }
{
    let (table, dropped) = tables_of(alloc, table, delete, lender)?;
    let list = translate(alloc, bytes, table.as_slice(), dropped.as_slice())?;
    Ok(list)
}

/// The bytes without those to be dropped, each other mapped by its entry of a table (Python's library
/// reference, "Bytes and Bytearray Operations", `bytes.translate`). Without a table, or where it is
/// Python's `None`, each byte stays; without bytes to be dropped, none is.
///
/// Refused as `ByteInnerTranslateOptions::get_value` is.
///
/// Example: of `b"abc"`, without a table and with `b"b"` to be dropped, it gives `b"ac"`.
pub fn translate_by<L: Lender>(
    alloc: Global,
    bytes: &[u8],
    table: Option<&Value>,
    delete: Option<&Value>,
    lender: &L,
) -> Tried<ByteList>
    ensures { IfOk result (λ outcome. outcome ≡ outcome_of (spec.translation (L.pairs lender.now) (option_copied table.entry) (option_copied delete.entry) bytes.now)) }
{
    tried(translation(alloc, bytes, table, delete, lender))
}
