//! The numbers of kinds, properties and operators.
ghost use Rattle.std.specs.Prelude.{◌≡◌, ◌<◌, MatchOption};
ghost use Rattle.pybuf_c.specs.Numbers.{kind_number, operator_number, property_number};

use pybuf_command::{ExporterKind, PropertyName};
use pybuf_value::CompareOp;

/// The kind of a number, up to 3.
pub fn kind_numbered(number: u32) -> Option<ExporterKind>
    ensures { MatchOption result (3 < number) (λ kind. kind_number kind ≡ number) }
{
    match number {
        0 => Some(ExporterKind::Bytes),
        1 => Some(ExporterKind::ByteArray),
        2 => Some(ExporterKind::Vector { readonly: false }),
        3 => Some(ExporterKind::Vector { readonly: true }),
        _ => None,
    }
}

/// The property of a number, up to 12.
pub fn property_numbered(number: u32) -> Option<PropertyName>
    ensures { MatchOption result (12 < number) (λ name. property_number name ≡ number) }
{
    match number {
        0 => Some(PropertyName::Exports),
        1 => Some(PropertyName::Obj),
        2 => Some(PropertyName::Nbytes),
        3 => Some(PropertyName::Readonly),
        4 => Some(PropertyName::Itemsize),
        5 => Some(PropertyName::Ndim),
        6 => Some(PropertyName::Shape),
        7 => Some(PropertyName::Strides),
        8 => Some(PropertyName::Suboffsets),
        9 => Some(PropertyName::Format),
        10 => Some(PropertyName::Contiguous),
        11 => Some(PropertyName::CContiguous),
        12 => Some(PropertyName::FContiguous),
        _ => None,
    }
}

/// The operator of a number, up to 5.
pub fn operator_numbered(number: u32) -> Option<CompareOp>
    ensures { MatchOption result (5 < number) (λ op. operator_number op ≡ number) }
{
    match number {
        0 => Some(CompareOp::Eq),
        1 => Some(CompareOp::Ne),
        2 => Some(CompareOp::Lt),
        3 => Some(CompareOp::Le),
        4 => Some(CompareOp::Gt),
        5 => Some(CompareOp::Ge),
        _ => None,
    }
}
