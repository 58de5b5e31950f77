//! Copies of verbs. The copy of each verb that has values is a function of its own, and stays one in the program: a
//! function's locals are zeroed where it begins, and those of all arms together are sixteen kibibytes. Where there is no
//! memory for a second value, the first is handed over: one that ends with its scope would spell out all its variants.
ghost use Rattle.std.specs.Prelude.{◌≡◌, IfOk};
ghost use Rattle.pybuf_command.specs.declared.commands.Verb.TheVariants as verb;

use crate::commands::Verb;
use crate::methods::MethodCall;
use crate::options::ByteInnerNewOptions;
use pybuf_value::{CompareOp, Made, NoMemory, Twin, Value};
use std::alloc::Global;

#[inline(never)]
fn range_copy(alloc: Global, from: &Value, to: &Value) -> Made<Verb>
    ensures { IfOk result (λ v. v ≡ verb.Range from.now to.now) }
{
    let from = from.copy(alloc)?;
    match to.copy(alloc) {
        Ok(to) => Ok(Verb::Range { from, to }),
        Err(NoMemory) => {
            drop(from);
            Err(NoMemory)
        }
    }
}

#[inline(never)]
fn get_copy(alloc: Global, key: &Value) -> Made<Verb>
    ensures { IfOk result (λ v. v ≡ verb.Get key.now) }
{
    let key = key.copy(alloc)?;
    Ok(Verb::Get { key })
}

#[inline(never)]
fn set_copy(alloc: Global, key: &Value, value: &Value) -> Made<Verb>
    ensures { IfOk result (λ v. v ≡ verb.Set key.now value.now) }
{
    let key = key.copy(alloc)?;
    match value.copy(alloc) {
        Ok(value) => Ok(Verb::Set { key, value }),
        Err(NoMemory) => {
            drop(key);
            Err(NoMemory)
        }
    }
}

#[inline(never)]
fn cast_copy(alloc: Global, format: &Value, shape: &Option<Value>) -> Made<Verb>
    ensures { IfOk result (λ v. v ≡ verb.Cast format.now shape.now) }
{
    let format = format.copy(alloc)?;
    match shape.copy(alloc) {
        Ok(shape) => Ok(Verb::Cast { format, shape }),
        Err(NoMemory) => {
            drop(format);
            Err(NoMemory)
        }
    }
}

#[inline(never)]
fn cast_f_copy(alloc: Global, format: &Value, shape: &Value) -> Made<Verb>
    ensures { IfOk result (λ v. v ≡ verb.CastF format.now shape.now) }
{
    let format = format.copy(alloc)?;
    match shape.copy(alloc) {
        Ok(shape) => Ok(Verb::CastF { format, shape }),
        Err(NoMemory) => {
            drop(format);
            Err(NoMemory)
        }
    }
}

#[inline(never)]
fn to_bytes_copy(alloc: Global, order: &Option<Value>) -> Made<Verb>
    ensures { IfOk result (λ v. v ≡ verb.ToBytes order.now) }
{
    let order = order.copy(alloc)?;
    Ok(Verb::ToBytes { order })
}

#[inline(never)]
fn del_copy(alloc: Global, key: &Value) -> Made<Verb>
    ensures { IfOk result (λ v. v ≡ verb.Del key.now) }
{
    let key = key.copy(alloc)?;
    Ok(Verb::Del { key })
}

#[inline(never)]
fn append_copy(alloc: Global, value: &Value) -> Made<Verb>
    ensures { IfOk result (λ v. v ≡ verb.Append value.now) }
{
    let value = value.copy(alloc)?;
    Ok(Verb::Append { value })
}

#[inline(never)]
fn extend_copy(alloc: Global, value: &Value) -> Made<Verb>
    ensures { IfOk result (λ v. v ≡ verb.Extend value.now) }
{
    let value = value.copy(alloc)?;
    Ok(Verb::Extend { value })
}

#[inline(never)]
fn insert_copy(alloc: Global, index: &Value, value: &Value) -> Made<Verb>
    ensures { IfOk result (λ v. v ≡ verb.Insert index.now value.now) }
{
    let index = index.copy(alloc)?;
    match value.copy(alloc) {
        Ok(value) => Ok(Verb::Insert { index, value }),
        Err(NoMemory) => {
            drop(index);
            Err(NoMemory)
        }
    }
}

#[inline(never)]
fn pop_copy(alloc: Global, index: &Option<Value>) -> Made<Verb>
    ensures { IfOk result (λ v. v ≡ verb.Pop index.now) }
{
    let index = index.copy(alloc)?;
    Ok(Verb::Pop { index })
}

#[inline(never)]
fn remove_copy(alloc: Global, value: &Value) -> Made<Verb>
    ensures { IfOk result (λ v. v ≡ verb.Remove value.now) }
{
    let value = value.copy(alloc)?;
    Ok(Verb::Remove { value })
}

#[inline(never)]
fn iadd_copy(alloc: Global, value: &Value) -> Made<Verb>
    ensures { IfOk result (λ v. v ≡ verb.IAdd value.now) }
{
    let value = value.copy(alloc)?;
    Ok(Verb::IAdd { value })
}

#[inline(never)]
fn imul_copy(alloc: Global, count: &Value) -> Made<Verb>
    ensures { IfOk result (λ v. v ≡ verb.IMul count.now) }
{
    let count = count.copy(alloc)?;
    Ok(Verb::IMul { count })
}

#[inline(never)]
fn init_copy(alloc: Global, options: &ByteInnerNewOptions) -> Made<Verb>
    ensures { IfOk result (λ v. v ≡ verb.Init options.now) }
{
    let options = options.copy(alloc)?;
    Ok(Verb::Init { options })
}

#[inline(never)]
fn compare_copy(alloc: Global, op: CompareOp, other: &Value) -> Made<Verb>
    ensures { IfOk result (λ v. v ≡ verb.Compare op other.now) }
{
    let other = other.copy(alloc)?;
    Ok(Verb::Compare { op, other })
}

#[inline(never)]
fn set_state_copy(alloc: Global, state: &Value) -> Made<Verb>
    ensures { IfOk result (λ v. v ≡ verb.SetState state.now) }
{
    let state = state.copy(alloc)?;
    Ok(Verb::SetState { state })
}

#[inline(never)]
fn contains_copy(alloc: Global, value: &Value) -> Made<Verb>
    ensures { IfOk result (λ v. v ≡ verb.Contains value.now) }
{
    let value = value.copy(alloc)?;
    Ok(Verb::Contains { value })
}

#[inline(never)]
fn hex_copy(alloc: Global, sep: &Option<Value>, group: &Option<Value>) -> Made<Verb>
    ensures { IfOk result (λ v. v ≡ verb.Hex sep.now group.now) }
{
    let sep = sep.copy(alloc)?;
    match group.copy(alloc) {
        Ok(group) => Ok(Verb::Hex { sep, group }),
        Err(NoMemory) => {
            drop(sep);
            Err(NoMemory)
        }
    }
}

#[inline(never)]
fn call_copy(alloc: Global, method: &MethodCall) -> Made<Verb>
    ensures { IfOk result (λ v. v ≡ verb.Call method.now) }
{
    let method = method.copy(alloc)?;
    Ok(Verb::Call { method })
}

impl Twin for Verb {
    fn copy(&self, alloc: Global) -> Made<Verb> {
        match self {
            Verb::View => Ok(Verb::View),
            Verb::Range { from, to } => range_copy(alloc, from, to),
            Verb::Get { key } => get_copy(alloc, key),
            Verb::Set { key, value } => set_copy(alloc, key, value),
            Verb::Cast { format, shape } => cast_copy(alloc, format, shape),
            Verb::CastF { format, shape } => cast_f_copy(alloc, format, shape),
            Verb::ToBytes { order } => to_bytes_copy(alloc, order),
            Verb::Release => Ok(Verb::Release),
            Verb::Enter => Ok(Verb::Enter),
            Verb::Exit => Ok(Verb::Exit),
            Verb::ToContiguous => Ok(Verb::ToContiguous),
            Verb::ToList => Ok(Verb::ToList),
            Verb::Len => Ok(Verb::Len),
            Verb::Property { name } => Ok(Verb::Property { name: *name }),
            Verb::ToReadonly => Ok(Verb::ToReadonly),
            Verb::Del { key } => del_copy(alloc, key),
            Verb::Append { value } => append_copy(alloc, value),
            Verb::Extend { value } => extend_copy(alloc, value),
            Verb::Insert { index, value } => insert_copy(alloc, index, value),
            Verb::Pop { index } => pop_copy(alloc, index),
            Verb::Remove { value } => remove_copy(alloc, value),
            Verb::Clear => Ok(Verb::Clear),
            Verb::Reverse => Ok(Verb::Reverse),
            Verb::IAdd { value } => iadd_copy(alloc, value),
            Verb::IMul { count } => imul_copy(alloc, count),
            Verb::Init { options } => init_copy(alloc, options),
            Verb::Take => Ok(Verb::Take),
            Verb::Copy => Ok(Verb::Copy),
            Verb::Compare { op, other } => compare_copy(alloc, *op, other),
            Verb::Hash => Ok(Verb::Hash),
            Verb::Repr => Ok(Verb::Repr),
            Verb::Iter => Ok(Verb::Iter),
            Verb::Next => Ok(Verb::Next),
            Verb::LengthHint => Ok(Verb::LengthHint),
            Verb::SetState { state } => set_state_copy(alloc, state),
            Verb::Contains { value } => contains_copy(alloc, value),
            Verb::Hex { sep, group } => hex_copy(alloc, sep, group),
            Verb::Call { method } => call_copy(alloc, method),
        }
    }
}
