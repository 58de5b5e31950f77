//! Methods that ask for a class or change a case, and sums.
ghost use Rattle.std.specs.Prelude.{◌≡◌, IfOk};
ghost use Rattle.pybuf_value.specs.Halting.{Gives};
ghost use Rattle.pybuf_letters.specs.Cases as cases;
ghost use Rattle.pybuf_methods.specs.Plain as spec;

use crate::contents::{Contents, like_in, part_of};
use crate::given::{done, none, one};
use crate::join::lists_in;
use pybuf_bytes::MethodReply;
use pybuf_value::{ByteList, Fault, Halt, Value, count_in};
use std::alloc::Global;

/// The answer of a test.
pub(crate) fn truth(answer: bool, args: &[Value]) -> Result<MethodReply, Halt>
    ensures { Gives (spec.truth answer args.now) result }
{
    none(args)?;
    Ok(MethodReply::Truth(answer))
}

/// Letters in lower case.
pub(crate) fn lower(alloc: Global, bytes: &[u8], args: &[Value]) -> Result<MethodReply, Halt>
    ensures { Gives (spec.changed (cases.lower bytes.now) args.now) result }
{
    none(args)?;
    let made = pybuf_letters::lower(alloc, bytes)?;
    Ok(MethodReply::Bytes(ByteList::from_vec(made)))
}

/// Letters in upper case.
pub(crate) fn upper(alloc: Global, bytes: &[u8], args: &[Value]) -> Result<MethodReply, Halt>
    ensures { Gives (spec.changed (cases.upper bytes.now) args.now) result }
{
    none(args)?;
    let made = pybuf_letters::upper(alloc, bytes)?;
    Ok(MethodReply::Bytes(ByteList::from_vec(made)))
}

/// Letters in the other case.
pub(crate) fn swapcase(alloc: Global, bytes: &[u8], args: &[Value]) -> Result<MethodReply, Halt>
    ensures { Gives (spec.changed (cases.swapcase bytes.now) args.now) result }
{
    none(args)?;
    let made = pybuf_letters::swapcase(alloc, bytes)?;
    Ok(MethodReply::Bytes(ByteList::from_vec(made)))
}

/// The first byte in upper case, and the others in lower case.
pub(crate) fn capitalize(alloc: Global, bytes: &[u8], args: &[Value]) -> Result<MethodReply, Halt>
    ensures { Gives (spec.changed (cases.capitalize bytes.now) args.now) result }
{
    none(args)?;
    let made = pybuf_letters::capitalize(alloc, bytes)?;
    Ok(MethodReply::Bytes(ByteList::from_vec(made)))
}

/// The first letter of each word in upper case, and the others in lower case.
pub(crate) fn title(alloc: Global, bytes: &[u8], args: &[Value]) -> Result<MethodReply, Halt>
    ensures { Gives (spec.changed (cases.title bytes.now) args.now) result }
{
    none(args)?;
    let made = pybuf_letters::title(alloc, bytes)?;
    Ok(MethodReply::Bytes(ByteList::from_vec(made)))
}

/// The bytes, and others behind them.
pub(crate) fn add<N: Contents>(
    alloc: Global,
    bytes: &[u8],
    args: &[Value],
    names: &N,
) -> Result<MethodReply, Halt>
    ensures { Gives (spec.add (N.pairs names.now) bytes.now args.now) result }
{
    let other = one(args)?;
    let like = like_in(other, names)?;
    let sum = done(pybuf_search::added(alloc, bytes, like))?;
    Ok(MethodReply::Bytes(ByteList::from_vec(sum)))
}

/// The same, where the others may be the bytes of any view.
pub(crate) fn concat<N: Contents>(
    alloc: Global,
    bytes: &[u8],
    args: &[Value],
    names: &N,
) -> Result<MethodReply, Halt>
    ensures { Gives (spec.concat (N.pairs names.now) bytes.now args.now) result }
{
    let Value::One(other) = one(args)? else {
        return Err(Halt::Refused(Fault::Kind));
    };
    let operand = part_of(alloc, other, names)?;
    let sum = done(pybuf_search::added(alloc, bytes, operand.as_slice()))?;
    Ok(MethodReply::Bytes(ByteList::from_vec(sum)))
}

/// The bytes so many times.
pub(crate) fn mul(alloc: Global, bytes: &[u8], args: &[Value]) -> Result<MethodReply, Halt>
    ensures { Gives (spec.mul bytes.now args.now) result }
{
    let times = one(args)?;
    let n = count_in(times)?;
    let product = done(pybuf_search::repeated(alloc, bytes, n))?;
    Ok(MethodReply::Bytes(ByteList::from_vec(product)))
}

/// The parts of a list, with the bytes between each two.
pub(crate) fn join<N: Contents>(
    alloc: Global,
    bytes: &[u8],
    args: &[Value],
    names: &N,
) -> Result<MethodReply, Halt>
    ensures { Gives (spec.join (N.pairs names.now) bytes.now args.now) result }
{
    let list = one(args)?;
    let parts = lists_in(alloc, list, names)?;
    let whole = done(pybuf_search::joined_parts(alloc, bytes, parts.as_slice()))?;
    Ok(MethodReply::Bytes(ByteList::from_vec(whole)))
}
