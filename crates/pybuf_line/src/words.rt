//! The first words of lines, and the names that stand on them. The tests for what many lines have, which are the
//! first words, the methods and the names of values, are written out; the other names are compared by `is_word`.
ghost use Rattle.std.specs.Prelude.{◌≡◌, drop};
ghost use Rattle.std.specs.Str.{bytes_eq};
ghost use Rattle.pybuf_line.specs.Words.{named_in, written_word, words_of_length, word_in, kind_in, operator_in, property_in};

use pybuf_command::{ExporterKind, PropertyName};
use pybuf_value::CompareOp;

/// The first word of a line.
#[derive(Clone, Copy, Debug, PartialEq, Eq)]
pub enum Word {
    New,
    View,
    Get,
    Set,
    ToBytes,
    Release,
    Len,
    Cast,
    CastF,
    Property,
    ToReadonly,
    Range,
    Enter,
    Exit,
    ToContiguous,
    ToList,
    Compare,
    Hash,
    Repr,
    Iter,
    Next,
    LengthHint,
    SetState,
    Contains,
    Hex,
    Call,
    Del,
    Append,
    Extend,
    Insert,
    Pop,
    Remove,
    Clear,
    Reverse,
    IAdd,
    IMul,
    Init,
    Take,
    Copy,
}

/// Whether a text is a word, byte by byte.
///
/// Example: `is_word(b"len", "len")` is `true`, and `is_word(b"lens", "len")` is `false`.
pub fn is_word(text: &[u8], word: &str) -> bool
    ensures { result ≡ bytes_eq text.now word.now }
{
    text == word.as_bytes()
}

/// The first word of three letters that a text spells.
fn word_of_three(text: &[u8]) -> Option<Word>
    ensures { result ≡ named_in written_word (words_of_length 3) text.now }
{
    if text == "new".as_bytes() {
        return Some(Word::New);
    }
    if text == "get".as_bytes() {
        return Some(Word::Get);
    }
    if text == "set".as_bytes() {
        return Some(Word::Set);
    }
    if text == "len".as_bytes() {
        return Some(Word::Len);
    }
    if text == "hex".as_bytes() {
        return Some(Word::Hex);
    }
    if text == "del".as_bytes() {
        return Some(Word::Del);
    }
    if text == "pop".as_bytes() {
        return Some(Word::Pop);
    }
    None
}

/// The first word of four letters that a text spells.
fn word_of_four(text: &[u8]) -> Option<Word>
    ensures { result ≡ named_in written_word (words_of_length 4) text.now }
{
    if text == "view".as_bytes() {
        return Some(Word::View);
    }
    if text == "cast".as_bytes() {
        return Some(Word::Cast);
    }
    if text == "prop".as_bytes() {
        return Some(Word::Property);
    }
    if text == "exit".as_bytes() {
        return Some(Word::Exit);
    }
    if text == "hash".as_bytes() {
        return Some(Word::Hash);
    }
    if text == "repr".as_bytes() {
        return Some(Word::Repr);
    }
    if text == "iter".as_bytes() {
        return Some(Word::Iter);
    }
    if text == "next".as_bytes() {
        return Some(Word::Next);
    }
    further_word_of_four(text)
}

/// The same, of the later words of four letters.
fn further_word_of_four(text: &[u8]) -> Option<Word>
    ensures { result ≡ named_in written_word (drop 8 (words_of_length 4)) text.now }
{
    if text == "hint".as_bytes() {
        return Some(Word::LengthHint);
    }
    if text == "call".as_bytes() {
        return Some(Word::Call);
    }
    if text == "iadd".as_bytes() {
        return Some(Word::IAdd);
    }
    if text == "imul".as_bytes() {
        return Some(Word::IMul);
    }
    if text == "init".as_bytes() {
        return Some(Word::Init);
    }
    if text == "take".as_bytes() {
        return Some(Word::Take);
    }
    if text == "copy".as_bytes() {
        return Some(Word::Copy);
    }
    None
}

/// The first word of five letters that a text spells.
fn word_of_five(text: &[u8]) -> Option<Word>
    ensures { result ≡ named_in written_word (words_of_length 5) text.now }
{
    if text == "bytes".as_bytes() {
        return Some(Word::ToBytes);
    }
    if text == "castf".as_bytes() {
        return Some(Word::CastF);
    }
    if text == "range".as_bytes() {
        return Some(Word::Range);
    }
    if text == "enter".as_bytes() {
        return Some(Word::Enter);
    }
    if text == "clear".as_bytes() {
        return Some(Word::Clear);
    }
    None
}

/// The first word of six letters that a text spells.
fn word_of_six(text: &[u8]) -> Option<Word>
    ensures { result ≡ named_in written_word (words_of_length 6) text.now }
{
    if text == "contig".as_bytes() {
        return Some(Word::ToContiguous);
    }
    if text == "tolist".as_bytes() {
        return Some(Word::ToList);
    }
    if text == "append".as_bytes() {
        return Some(Word::Append);
    }
    if text == "extend".as_bytes() {
        return Some(Word::Extend);
    }
    if text == "insert".as_bytes() {
        return Some(Word::Insert);
    }
    if text == "remove".as_bytes() {
        return Some(Word::Remove);
    }
    None
}

/// The first word of seven letters that a text spells.
fn word_of_seven(text: &[u8]) -> Option<Word>
    ensures { result ≡ named_in written_word (words_of_length 7) text.now }
{
    if text == "release".as_bytes() {
        return Some(Word::Release);
    }
    if text == "compare".as_bytes() {
        return Some(Word::Compare);
    }
    if text == "reverse".as_bytes() {
        return Some(Word::Reverse);
    }
    None
}

/// The first word of eight letters that a text spells.
fn word_of_eight(text: &[u8]) -> Option<Word>
    ensures { result ≡ named_in written_word (words_of_length 8) text.now }
{
    if text == "setstate".as_bytes() {
        return Some(Word::SetState);
    }
    if text == "contains".as_bytes() {
        return Some(Word::Contains);
    }
    None
}

/// The first word of ten letters that a text spells.
fn word_of_ten(text: &[u8]) -> Option<Word>
    ensures { result ≡ named_in written_word (words_of_length 10) text.now }
{
    if text == "toreadonly".as_bytes() {
        return Some(Word::ToReadonly);
    }
    None
}

/// The first word that a text spells, among those of its length.
pub fn first_word(text: &[u8]) -> Option<Word>
    ensures { result ≡ word_in text.now }
{
    match text.len() {
        3 => word_of_three(text),
        4 => word_of_four(text),
        5 => word_of_five(text),
        6 => word_of_six(text),
        7 => word_of_seven(text),
        8 => word_of_eight(text),
        10 => word_of_ten(text),
        _ => None,
    }
}

/// The kind of exporter that a text names.
pub fn kind_named(text: &[u8]) -> Option<ExporterKind>
    ensures { result ≡ kind_in text.now }
{
    if is_word(text, "bytes") {
        return Some(ExporterKind::Bytes);
    }
    if is_word(text, "bytearray") {
        return Some(ExporterKind::ByteArray);
    }
    if is_word(text, "vector") {
        return Some(ExporterKind::Vector { readonly: false });
    }
    if is_word(text, "rovector") {
        return Some(ExporterKind::Vector { readonly: true });
    }
    None
}

/// The operator of a comparison that a text spells. None exactly for every other text.
///
/// Example: `operator_named(b"<=")` is `Some(CompareOp::Le)`, and `operator_named(b"=")` is `None`.
pub fn operator_named(text: &[u8]) -> Option<CompareOp>
    ensures { result ≡ operator_in text.now }
{
    if is_word(text, "==") {
        return Some(CompareOp::Eq);
    }
    if is_word(text, "!=") {
        return Some(CompareOp::Ne);
    }
    if is_word(text, "<") {
        return Some(CompareOp::Lt);
    }
    if is_word(text, "<=") {
        return Some(CompareOp::Le);
    }
    if is_word(text, ">") {
        return Some(CompareOp::Gt);
    }
    if is_word(text, ">=") {
        return Some(CompareOp::Ge);
    }
    None
}

/// The property that a text names.
#[tactic(auto, unfolding(crate::specs::Words::property_in))]
pub fn property_named(text: &[u8]) -> Option<PropertyName>
    ensures { result ≡ property_in text.now }
{
    if is_word(text, "exports") {
        return Some(PropertyName::Exports);
    }
    if is_word(text, "obj") {
        return Some(PropertyName::Obj);
    }
    if is_word(text, "nbytes") {
        return Some(PropertyName::Nbytes);
    }
    if is_word(text, "readonly") {
        return Some(PropertyName::Readonly);
    }
    if is_word(text, "itemsize") {
        return Some(PropertyName::Itemsize);
    }
    if is_word(text, "ndim") {
        return Some(PropertyName::Ndim);
    }
    if is_word(text, "shape") {
        return Some(PropertyName::Shape);
    }
    if is_word(text, "strides") {
        return Some(PropertyName::Strides);
    }
    if is_word(text, "suboffsets") {
        return Some(PropertyName::Suboffsets);
    }
    if is_word(text, "format") {
        return Some(PropertyName::Format);
    }
    if is_word(text, "contiguous") {
        return Some(PropertyName::Contiguous);
    }
    if is_word(text, "c_contiguous") {
        return Some(PropertyName::CContiguous);
    }
    if is_word(text, "f_contiguous") {
        return Some(PropertyName::FContiguous);
    }
    None
}
