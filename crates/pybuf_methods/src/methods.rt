//! A method, called by its name.
ghost use Rattle.std.specs.Prelude.{◌≡◌};
ghost use Rattle.pybuf_value.specs.Halting.{Gives, GivesOutcome};
ghost use Rattle.pybuf_methods.specs.Methods.{method_reply};

use crate::contents::{ByLender, Contents};
use crate::{cut, plain, shaped, sought};
use pybuf_bytes::MethodReply;
use pybuf_command::{MethodCall, MethodName};
use pybuf_letters::{is_alnum, is_alpha, is_digit, is_lower, is_space, is_title, is_upper};
use pybuf_value::{Halt, Lender, Tried, Value, is_ascii, tried};
use std::alloc::Global;

/// What a method of the bytes answers, by its name and arguments. What handles name is read from where
/// it lies.
///
/// Refused as `apply_method` is.
///
/// Example: of `b"Abc"`, `MethodName::Find` and the argument `b"c"` it gives `MethodReply::Number(2)`.
pub fn reply_of<N: Contents>(
    alloc: Global,
    bytes: &[u8],
    name: MethodName,
    args: &[Value],
    names: &N,
) -> Result<MethodReply, Halt>
    ensures { Gives (method_reply (N.pairs names.now) bytes.now name args.now) result }
{
    match name {
        MethodName::Add => plain::add(alloc, bytes, args, names),
        MethodName::Concat => plain::concat(alloc, bytes, args, names),
        MethodName::Mul => plain::mul(alloc, bytes, args),
        MethodName::IsAlnum => plain::truth(is_alnum(bytes), args),
        MethodName::IsAlpha => plain::truth(is_alpha(bytes), args),
        MethodName::IsAscii => plain::truth(is_ascii(bytes), args),
        MethodName::IsDigit => plain::truth(is_digit(bytes), args),
        MethodName::IsLower => plain::truth(is_lower(bytes), args),
        MethodName::IsSpace => plain::truth(is_space(bytes), args),
        MethodName::IsTitle => plain::truth(is_title(bytes), args),
        MethodName::IsUpper => plain::truth(is_upper(bytes), args),
        MethodName::Lower => plain::lower(alloc, bytes, args),
        MethodName::Upper => plain::upper(alloc, bytes, args),
        MethodName::SwapCase => plain::swapcase(alloc, bytes, args),
        MethodName::Capitalize => plain::capitalize(alloc, bytes, args),
        MethodName::Title => plain::title(alloc, bytes, args),
        MethodName::Hex => shaped::hex(alloc, bytes, args, names),
        MethodName::FromHex => shaped::fromhex(alloc, args),
        MethodName::Center => shaped::center(alloc, bytes, args, names),
        MethodName::LJust => shaped::ljust(alloc, bytes, args, names),
        MethodName::RJust => shaped::rjust(alloc, bytes, args, names),
        MethodName::Find => sought::find(alloc, bytes, args, names),
        MethodName::RFind => sought::rfind(alloc, bytes, args, names),
        MethodName::Index => sought::index(alloc, bytes, args, names),
        MethodName::RIndex => sought::rindex(alloc, bytes, args, names),
        MethodName::Count => sought::count(alloc, bytes, args, names),
        MethodName::StartsWith => sought::startswith(alloc, bytes, args, names),
        MethodName::EndsWith => sought::endswith(alloc, bytes, args, names),
        MethodName::Join => plain::join(alloc, bytes, args, names),
        MethodName::MakeTrans => shaped::maketrans(alloc, args, names),
        MethodName::Translate => shaped::translate(alloc, bytes, args, names),
        MethodName::Strip => cut::strip(alloc, bytes, args, names),
        MethodName::LStrip => cut::lstrip(alloc, bytes, args, names),
        MethodName::RStrip => cut::rstrip(alloc, bytes, args, names),
        MethodName::RemovePrefix => cut::removeprefix(alloc, bytes, args, names),
        MethodName::RemoveSuffix => cut::removesuffix(alloc, bytes, args, names),
        MethodName::Split => cut::split(alloc, bytes, args, names),
        MethodName::RSplit => cut::rsplit(alloc, bytes, args, names),
        MethodName::Partition => cut::partition(alloc, bytes, args, names),
        MethodName::RPartition => cut::rpartition(alloc, bytes, args, names),
        MethodName::ExpandTabs => shaped::expandtabs(alloc, bytes, args),
        MethodName::SplitLines => cut::splitlines(alloc, bytes, args),
        MethodName::ZFill => shaped::zfill(alloc, bytes, args),
        MethodName::Replace => shaped::replace(alloc, bytes, args, names),
        MethodName::Decode => shaped::decode(alloc, bytes, args),
    }
}

/// What a method of the bytes answers, called by its name with values as its arguments (Python's library
/// reference, "Bytes and Bytearray Operations"). An argument that isn't given is the method's own: a space
/// as a fill byte, -1 as a greatest number, 8 as the size of a tab, 1 as the size of a group, UTF-8 as a
/// codec, no bounds, the blanks, no ends kept. The bytes are lent, and not copied but into the answer.
///
/// Refused with `TypeError` for a wrong number of arguments, then as the first argument from left to right
/// that is refused, and then by the method's own rule.
///
/// Example: of `b"Abc"` and the call of `MethodName::Find` with `b"c"` it gives `MethodReply::Number(2)`.
pub fn apply_method<L: Lender>(
    alloc: Global,
    bytes: &[u8],
    call: &MethodCall,
    lender: &L,
) -> Tried<MethodReply>
    ensures { GivesOutcome (method_reply (L.pairs lender.now) bytes.now call.now.name call.now.args) result }
{
    let names = ByLender { lender };
    tried(reply_of(alloc, bytes, call.name, call.args.as_slice(), &names))
}
