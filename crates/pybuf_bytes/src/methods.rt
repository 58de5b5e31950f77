//! What the methods of strings of bytes answer, called by name.
use pybuf_value::{ByteList, ByteLists, Exact, Made, Text, Twin};
use std::alloc::Global;

/// What a method answers.
///
/// Example: `find` of a needle that stands at 3 answers `MethodReply::Number(3)`.
#[derive(Debug, Drop)]
pub enum MethodReply {
    /// Bytes, as `lower` and `strip` answer them.
    /// Example: `lower` of `b"aB"` answers `Bytes` of `b"ab"`.
    Bytes(ByteList),
    /// Parts, as `split`, `splitlines` and `partition` answer them.
    /// Example: `split` of `b"a b"` answers `ByteLists` of `b"a"` and `b"b"`.
    ByteLists(ByteLists),
    /// A truth, as `isalpha` and `startswith` answer it.
    /// Example: `isalpha` of `b"aB"` answers `Truth(true)`.
    Truth(bool),
    /// A place, a number of matches, or -1 where nothing is found.
    /// Example: `find` of `b"x"` in `b"ab"` answers `Number(-1)`.
    Number(i128),
    /// A text, as `decode` and `hex` answer it.
    /// Example: `hex` of `b"ab"` answers `Text` of `6162`.
    Text(Text),
}

impl Twin for MethodReply {
    fn copy(&self, alloc: Global) -> Made<MethodReply> {
        match self {
            MethodReply::Bytes(bytes) => {
                let bytes = bytes.copy(alloc)?;
                Ok(MethodReply::Bytes(bytes))
            }
            MethodReply::ByteLists(lists) => {
                let lists = lists.copy(alloc)?;
                Ok(MethodReply::ByteLists(lists))
            }
            MethodReply::Truth(truth) => Ok(MethodReply::Truth(*truth)),
            MethodReply::Number(number) => Ok(MethodReply::Number(*number)),
            MethodReply::Text(text) => {
                let text = text.copy(alloc)?;
                Ok(MethodReply::Text(text))
            }
        }
    }
}

impl Exact for MethodReply {
    ghost exact = { λ x y e. e };
}
