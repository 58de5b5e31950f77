//! Numbers as arguments: which values are numbers, and which numbers fit where.
ghost use Rattle.std.specs.Prelude.{◌≡◌, ◌↔◌, ℕ, Result, IsOk, FitsSigned};
ghost use Rattle.std.specs.Int.{w64, saturate_signed};
ghost use Rattle.std.specs.Option.{option_copied};
ghost use Rattle.pybuf_value.specs.declared.faults.Fault.{Fault};
ghost use Rattle.pybuf_value.specs.Numbers.{number_in, number_of, fitted_number, count_in, count_or, byte_of, byte_in};

use crate::faults::Fault;
use crate::values::{Scalar, Value};

/// The number of a whole number or of a truth value, which counts as 0 or 1.
///
/// Refused with `TypeError` for every other value without parts.
///
/// Example: `number_in(&Scalar::Bool(true))` is `Ok(1)`, and of a text it is `Err(Fault::Kind)`.
pub fn number_in(value: &Scalar) -> Result<i128, Fault>
    ensures { result ≡ number_in value.now }
{
    match value {
        Scalar::Int(number) => Ok(*number),
        Scalar::Bool(truth) => { if *truth { Ok(1) } else { Ok(0) } }
        _ => Err(Fault::Kind),
    }
}

/// The number of a value that is a whole number or a truth value, which counts as 0 or 1.
///
/// Refused with `TypeError` where the value is no number.
///
/// Example: `index_of(&Value::from(5))` is `Ok(5)`, and of a slice it is `Err(Fault::Kind)`.
pub fn index_of(value: &Value) -> Result<i128, Fault>
    ensures { result ≡ number_of value.now }
{
    match value {
        Value::One(scalar) => number_in(scalar),
        _ => Err(Fault::Kind),
    }
}

/// The number as an index, where it fits.
///
/// Refused with `IndexError` exactly outside `isize::MIN..=isize::MAX`.
///
/// Example: `fit_index(-1)` is `Ok(-1)`, and of `2**63` it is `Err(Fault::Index)`.
pub fn fit_index(number: i128) -> Result<isize, Fault>
    ensures fits { IsOk result ↔ FitsSigned w64 number }
    ensures exact { result ≡ fitted_number Fault.Index number }
{
    if number < isize::MIN as i128 {
        return Err(Fault::Index);
    }
    if number > isize::MAX as i128 {
        return Err(Fault::Index);
    }
    Ok(number as isize)
}

/// The number as a count, where it fits.
///
/// Refused with `OverflowError` exactly outside `isize::MIN..=isize::MAX`.
///
/// Example: `fit_count(5)` is `Ok(5)`, and of `2**63` it is `Err(Fault::Overflow)`.
pub fn fit_count(number: i128) -> Result<isize, Fault>
    ensures fits { IsOk result ↔ FitsSigned w64 number }
    ensures exact { result ≡ fitted_number Fault.Overflow number }
{
    if number < isize::MIN as i128 {
        return Err(Fault::Overflow);
    }
    if number > isize::MAX as i128 {
        return Err(Fault::Overflow);
    }
    Ok(number as isize)
}

/// The number of a value, as a count.
///
/// Refused with `TypeError` where the value is no number, and then with `OverflowError` where the number
/// doesn't fit `isize`.
///
/// Example: `count_in(&Value::from(true))` is `Ok(1)`, and of `2**63` it is `Err(Fault::Overflow)`.
pub fn count_in(value: &Value) -> Result<isize, Fault>
    ensures { result ≡ count_in value.now }
{
    let number = index_of(value)?;
    fit_count(number)
}

/// The number of a value as a count, and another number where no value is given.
///
/// Refused as `count_in` is.
///
/// Example: `count_or(-1, None)` is `Ok(-1)`, and `count_or(-1, Some(&Value::from(5)))` is `Ok(5)`.
pub fn count_or(absent: isize, value: Option<&Value>) -> Result<isize, Fault>
    ensures { result ≡ count_or absent (option_copied value.entry) }
{
    match value {
        None => Ok(absent),
        Some(value) => count_in(value),
    }
}

/// The `isize` that is nearest to the number.
///
/// Example: of `2**70` it is `isize::MAX`, and `saturate(5)` is 5.
pub fn saturate(number: i128) -> isize
    ensures { result ≡ saturate_signed w64 number }
{
    if number < isize::MIN as i128 {
        return isize::MIN;
    }
    if number > isize::MAX as i128 {
        return isize::MAX;
    }
    number as isize
}

/// A number that stands for a byte.
///
/// Example: the number 97 stands for the byte `b'a'`.
pub trait ByteOr {
    ghost byte_gives: { Self → Result ℕ Fault };

    /// The byte that the number stands for.
    ///
    /// Refused with `ValueError` exactly outside `0..256`.
    ///
    /// Example: `97i128.byte_or()` is `Ok(b'a')`, and `256i128.byte_or()` is `Err(Fault::Value)`.
    fn byte_or(&self) -> Result<u8, Fault>
        ensures { result ≡ byte_gives self.now };
}

impl ByteOr for i128 {
    ghost byte_gives = { byte_of };

    fn byte_or(&self) -> Result<u8, Fault> {
        let number = *self;
        if number < 0 {
            return Err(Fault::Value);
        }
        if number > 255 {
            return Err(Fault::Value);
        }
        Ok(number as u8)
    }
}

/// The byte that a value stands for.
///
/// Refused with `TypeError` where the value is no number, and then with `ValueError` exactly
/// outside `0..256`.
///
/// Example: `value_from_object(&Value::from(97))` is `Ok(97)`, and of 256 it is `Err(Fault::Value)`.
pub fn value_from_object(value: &Value) -> Result<u8, Fault>
    ensures { result ≡ byte_in value.now }
{
    let number = index_of(value)?;
    number.byte_or()
}
