//! Keys and the values of items.
ghost use Rattle.std.specs.Prelude.{◌≡◌, [], ◌∷◌, true, IfOk, IfSome};
ghost use Rattle.pybuf_struct.specs.Values.{item_of};
ghost use Rattle.pybuf_struct.specs.Formats.{format_of};
ghost use Rattle.pybuf_value.specs.Halting.{Gives};
ghost use Rattle.pybuf_memoryview.specs.Sized.{is_sized};
ghost use Rattle.pybuf_memoryview.specs.Items as spec;
ghost use Rattle.pybuf_memoryview.specs.SingleBytes.{byte_for_item};

use crate::kept::KeptLayout;
use pybuf_desc::KeptFormat;
use pybuf_struct::{FormatSpec, single_value};
use pybuf_value::{
    Fault, Halt, Item, Made, Outcome, Scalar, ScalarList, Twin, Value, fit_index, index_of,
    value_from_object,
};
use std::alloc::Global;

/// The number of a key, as an index. Takes no memory.
///
/// Refused with `TypeError` where the key is no number, and then with `IndexError` where the number doesn't fit
/// `isize`.
/// Example: of the key -1 it is `Ok(-1)`, and of a text `Err(Fault::Kind)`.
pub fn index_in(key: &Value) -> Result<isize, Fault>
    ensures { result ≡ spec.index_in key.now }
{
    let number = index_of(key)?;
    fit_index(number)
}

/// A byte as an item.
/// Example: `byte_item(97)` is `Item::One(Scalar::Int(97))`.
pub fn byte_item(byte: u8) -> Item
    ensures { result ≡ spec.byte_item byte }
{
    Item::One(Scalar::Int(byte as i128))
}

/// Values as an item: one as itself, any other number as a tuple.
pub(crate) fn item_of(values: ScalarList) -> Item
    ensures { result ≡ item_of values }
{
    let mut values = values.into_vec();
    if values.len() == 1 {
        if let Some(value) = values.pop() {
            return Item::One(value);
        }
    }
    Item::Many(ScalarList::from_vec(values))
}

/// The one byte of an item of the format `B`.
fn single_byte(format: &[u8], bytes: &[u8]) -> Option<u8>
    ensures format { IfSome result (λ byte. format.now ≡ 66 ∷ []) }
    ensures byte { IfSome result (λ byte. bytes.now ≡ byte ∷ []) }
{
    if let ([b'B'], [byte]) = (format, bytes) {
        return Some(*byte);
    }
    None
}

/// What an item's bytes read as by the text of its format. Bytes of the format `B`, which most views
/// have, and numbers of a format of one letter are read without parsing it.
/// Example: by the format `H` the bytes `b"\x01\x00"` read as the number 1.
pub fn item_by(alloc: Global, format: &KeptFormat, bytes: &[u8]) -> Made<Item>
    ensures { IfOk result (λ item. item ≡ spec.item_by format.now bytes.now) }
{
    if let Some(byte) = single_byte(format.as_slice(), bytes) {
        return Ok(byte_item(byte));
    }
    if let Some(value) = single_value(format.as_slice(), bytes) {
        return Ok(Item::One(value));
    }
    match FormatSpec::parse(alloc, format.as_slice())? {
        Outcome::Done(format) => match format.unpack(alloc, bytes)? {
            Outcome::Done(values) => Ok(item_of(values)),
            Outcome::Refused(_) => Ok(Item::Many(ScalarList::new(alloc))),
        },
        Outcome::Refused(_) => Ok(Item::Many(ScalarList::new(alloc))),
    }
}

/// Whether a value is `None`. Takes no memory.
/// Example: of `Value::One(Scalar::None)` it is true.
pub fn is_none(value: &Value) -> bool
    ensures { result ≡ spec.is_none value.now }
{
    match value {
        Value::One(Scalar::None) => true,
        _ => false,
    }
}

/// The one value that an item is written as, as the values of its format.
/// Example: of the value 5 it is a list of `Scalar::Int(5)` alone.
pub fn args_of(alloc: Global, value: &Value) -> Made<ScalarList>
    ensures { IfOk result (λ list. list ≡ spec.scalar_in value.now ∷ []) }
{
    let scalar = match value {
        Value::One(scalar) => scalar.copy(alloc)?,
        _ => Scalar::Ellipsis,
    };
    let mut list = ScalarList::new(alloc);
    list.push(scalar)?;
    Ok(list)
}

/// The byte that a value is written as where it is an item of the format `B`. Takes no memory.
///
/// Refused with `TypeError` where the value is no number from 0 to 255.
/// Example: of the value 65 it is `Ok(65)`, and of 256 `Err(Fault::Kind)`.
pub fn byte_for_item(value: &Value) -> Result<u8, Fault>
    ensures { result ≡ byte_for_item value.now }
{
    match value_from_object(value) {
        Ok(byte) => Ok(byte),
        Err(_) => Err(Fault::Kind),
    }
}

/// The format of a view's items, as it is parsed.
///
/// Refused with `TypeError` where the text is no format.
/// Example: of a view with the format `<H` it is a format of the size 2.
pub fn format_of(alloc: Global, layout: &KeptLayout) -> Result<FormatSpec, Halt>
    ensures parsed { Gives (spec.kind_fault (format_of layout.now.format)) result }
    ensures size { IfOk result (λ format. is_sized layout.now.format layout.now.itemsize ≡ true → format.size ≡ layout.now.itemsize) }
{
    match FormatSpec::parse(alloc, layout.format_text().as_slice())? {
        Outcome::Done(format) => Ok(format),
        Outcome::Refused(_) => Err(Halt::Refused(Fault::Kind)),
    }
}

/// Whether a value is a slice. Takes no memory.
/// Example: of the value `1:3:None` it is true, and of 5 false.
pub fn is_slice(value: &Value) -> bool
    ensures { result ≡ spec.is_slice value.now }
{
    match value {
        Value::Slice(_) => true,
        _ => false,
    }
}
