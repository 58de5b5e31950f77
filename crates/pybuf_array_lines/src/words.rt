//! The first words of operations' lines.
ghost use Rattle.std.specs.Prelude.{◌≡◌};
ghost use Rattle.pybuf_array_lines.specs.Words.{word_in};

use pybuf_line::is_word;

/// The first word of an operation's line.
#[derive(Clone, Copy, Debug, PartialEq, Eq)]
pub enum Word {
    Append,
    Extend,
    Insert,
    Pop,
    Remove,
    FromBytes,
    Get,
    Set,
    Len,
    ToList,
    ToBytes,
    ByteSwap,
    View,
    ViewSlice,
    ViewGet,
    ViewSet,
    Release,
}

/// The first word that a text spells.
#[tactic(auto, unfolding(crate::specs::Words::word_in))]
pub fn first_word(text: &[u8]) -> Option<Word>
    ensures { result ≡ word_in text.now }
{
    if is_word(text, "append") {
        return Some(Word::Append);
    }
    if is_word(text, "extend") {
        return Some(Word::Extend);
    }
    if is_word(text, "insert") {
        return Some(Word::Insert);
    }
    if is_word(text, "pop") {
        return Some(Word::Pop);
    }
    if is_word(text, "remove") {
        return Some(Word::Remove);
    }
    if is_word(text, "frombytes") {
        return Some(Word::FromBytes);
    }
    if is_word(text, "get") {
        return Some(Word::Get);
    }
    if is_word(text, "set") {
        return Some(Word::Set);
    }
    if is_word(text, "len") {
        return Some(Word::Len);
    }
    if is_word(text, "tolist") {
        return Some(Word::ToList);
    }
    if is_word(text, "tobytes") {
        return Some(Word::ToBytes);
    }
    if is_word(text, "byteswap") {
        return Some(Word::ByteSwap);
    }
    if is_word(text, "view") {
        return Some(Word::View);
    }
    if is_word(text, "vslice") {
        return Some(Word::ViewSlice);
    }
    if is_word(text, "vget") {
        return Some(Word::ViewGet);
    }
    if is_word(text, "vset") {
        return Some(Word::ViewSet);
    }
    if is_word(text, "release") {
        return Some(Word::Release);
    }
    None
}
