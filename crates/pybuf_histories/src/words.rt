//! The words that commands are written with.
ghost use Rattle.std.specs.Prelude.{◌≡◌};
ghost use Rattle.pybuf_line.specs.Commands.{word_of};
ghost use Rattle.pybuf_line.specs.Words.{written_word, written_kind, written_operator, written_name};

use pybuf_command::{ExporterKind, PropertyName, Verb};
use pybuf_value::CompareOp;

/// The first word of a command.
pub fn verb_text(verb: &Verb) -> &'static str
    ensures { result.now ≡ written_word (word_of verb.now) }
{
    match verb {
        Verb::View => "view",
        Verb::Range { .. } => "range",
        Verb::Get { .. } => "get",
        Verb::Set { .. } => "set",
        Verb::Cast { .. } => "cast",
        Verb::CastF { .. } => "castf",
        Verb::ToBytes { .. } => "bytes",
        Verb::Release => "release",
        Verb::Enter => "enter",
        Verb::Exit => "exit",
        Verb::ToContiguous => "contig",
        Verb::ToList => "tolist",
        Verb::Len => "len",
        Verb::Property { .. } => "prop",
        Verb::ToReadonly => "toreadonly",
        Verb::Del { .. } => "del",
        Verb::Append { .. } => "append",
        Verb::Extend { .. } => "extend",
        Verb::Insert { .. } => "insert",
        Verb::Pop { .. } => "pop",
        Verb::Remove { .. } => "remove",
        Verb::Clear => "clear",
        Verb::Reverse => "reverse",
        Verb::IAdd { .. } => "iadd",
        Verb::IMul { .. } => "imul",
        Verb::Init { .. } => "init",
        Verb::Take => "take",
        Verb::Copy => "copy",
        Verb::Compare { .. } => "compare",
        Verb::Hash => "hash",
        Verb::Repr => "repr",
        Verb::Iter => "iter",
        Verb::Next => "next",
        Verb::LengthHint => "hint",
        Verb::SetState { .. } => "setstate",
        Verb::Contains { .. } => "contains",
        Verb::Hex { .. } => "hex",
        Verb::Call { .. } => "call",
    }
}

/// The kind of an exporter.
pub fn kind_text(kind: ExporterKind) -> &'static str
    ensures { result.now ≡ written_kind kind }
{
    match kind {
        ExporterKind::Bytes => "bytes",
        ExporterKind::ByteArray => "bytearray",
        ExporterKind::Vector { readonly: false } => "vector",
        ExporterKind::Vector { readonly: true } => "rovector",
    }
}

/// The operator of a comparison.
pub fn operator_text(op: CompareOp) -> &'static str
    ensures { result.now ≡ written_operator op }
{
    match op {
        CompareOp::Eq => "==",
        CompareOp::Ne => "!=",
        CompareOp::Lt => "<",
        CompareOp::Le => "<=",
        CompareOp::Gt => ">",
        CompareOp::Ge => ">=",
    }
}

/// The name of a property.
pub fn property_text(name: PropertyName) -> &'static str
    ensures { result.now ≡ written_name name }
{
    match name {
        PropertyName::Exports => "exports",
        PropertyName::Obj => "obj",
        PropertyName::Nbytes => "nbytes",
        PropertyName::Readonly => "readonly",
        PropertyName::Itemsize => "itemsize",
        PropertyName::Ndim => "ndim",
        PropertyName::Shape => "shape",
        PropertyName::Strides => "strides",
        PropertyName::Suboffsets => "suboffsets",
        PropertyName::Format => "format",
        PropertyName::Contiguous => "contiguous",
        PropertyName::CContiguous => "c_contiguous",
        PropertyName::FContiguous => "f_contiguous",
    }
}
