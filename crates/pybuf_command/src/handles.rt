//! The handles of a command, and those whose bytes it reads.
ghost use Rattle.std.specs.Prelude.{◌≡◌, ◌++◌, OnOk, IfOk};
ghost use Rattle.std.specs.List.{flat_map};
ghost use Rattle.std.specs.Option.{option_copied};
ghost use Rattle.pybuf_command.specs.Handles as spec;
ghost use Rattle.pybuf_command.specs.Loans.{loan_of};

use crate::commands::Verb;
use crate::kinds::Subject;
use crate::loans::Loan;
use crate::options::ByteInnerNewOptions;
use pybuf_value::{Made, PySlice, Scalar, Value};
use std::alloc::Global;

/// The loan of the first pair of a handle, None exactly where there is no such pair.
///
/// Example: of the pairs of 0 and `Loan::Own`, and of 0 and `Loan::View(1)`, it is `Some(&Loan::Own)` for 0, and `None` for 1.
pub fn loan_of(loans: &[(u64, Loan)], handle: u64) -> Option<&Loan>
    ensures { option_copied result ≡ loan_of loans.now handle }
{
    for pair in loans {
        if pair.0 == handle {
            return Some(&pair.1);
        }
    }
    None
}

/// Adds the handle that a value is.
fn push_scalar(handles: &mut Vec<u64>, scalar: &Scalar) -> Made<()>
    ensures { OnOk result (handles.new.items ≡ handles.old.items ++ spec.handles_in_scalar scalar.now) }
{
    if let Scalar::Handle(handle) = scalar {
        handles.push(*handle)?;
    }
    Ok(())
}

fn push_slice(handles: &mut Vec<u64>, slice: &PySlice) -> Made<()>
    ensures { OnOk result (handles.new.items ≡ handles.old.items ++ spec.handles_in_slice slice.now) }
{
    push_scalar(handles, &slice.start)?;
    push_scalar(handles, &slice.stop)?;
    push_scalar(handles, &slice.step)
}

fn push_scalars(handles: &mut Vec<u64>, scalars: &[Scalar]) -> Made<()>
    ensures { OnOk result (handles.new.items ≡ handles.old.items ++ flat_map spec.handles_in_scalar scalars.now) }
{
    for scalar in scalars {
        push_scalar(handles, scalar)?;
    }
    Ok(())
}

fn push_slices(handles: &mut Vec<u64>, slices: &[PySlice]) -> Made<()>
    ensures { OnOk result (handles.new.items ≡ handles.old.items ++ flat_map spec.handles_in_slice slices.now) }
{
    for slice in slices {
        push_slice(handles, slice)?;
    }
    Ok(())
}

fn push_value(handles: &mut Vec<u64>, value: &Value) -> Made<()>
    ensures { OnOk result (handles.new.items ≡ handles.old.items ++ spec.handles_in value.now) }
{
    match value {
        Value::One(scalar) => push_scalar(handles, scalar),
        Value::Slice(slice) => push_slice(handles, slice),
        Value::Tuple(parts) => push_scalars(handles, parts.as_slice()),
        Value::List(parts) => push_scalars(handles, parts.as_slice()),
        Value::Slices(slices) => push_slices(handles, slices.as_slice()),
    }
}

/// Adds the handles of a value that may not be given.
fn push_option(handles: &mut Vec<u64>, value: &Option<Value>) -> Made<()>
    ensures { OnOk result (handles.new.items ≡ handles.old.items ++ spec.handles_in_option value.now) }
{
    match value {
        Some(value) => push_value(handles, value),
        None => Ok(()),
    }
}

fn push_both(handles: &mut Vec<u64>, first: &Value, second: &Value) -> Made<()>
    ensures { OnOk result (handles.new.items ≡ handles.old.items ++ spec.handles_in first.now ++ spec.handles_in second.now) }
{
    push_value(handles, first)?;
    push_value(handles, second)
}

fn push_with_option(handles: &mut Vec<u64>, first: &Value, second: &Option<Value>) -> Made<()>
    ensures { OnOk result (handles.new.items ≡ handles.old.items ++ spec.handles_in first.now ++ spec.handles_in_option second.now) }
{
    push_value(handles, first)?;
    push_option(handles, second)
}

fn push_both_options(
    handles: &mut Vec<u64>,
    first: &Option<Value>,
    second: &Option<Value>,
) -> Made<()>
    ensures { OnOk result (handles.new.items ≡ handles.old.items ++ spec.handles_in_option first.now ++ spec.handles_in_option second.now) }
{
    push_option(handles, first)?;
    push_option(handles, second)
}

/// Adds the handles of each argument of a call.
fn push_values(handles: &mut Vec<u64>, values: &[Value]) -> Made<()>
    ensures { OnOk result (handles.new.items ≡ handles.old.items ++ flat_map spec.handles_in values.now) }
{
    for value in values {
        push_value(handles, value)?;
    }
    Ok(())
}

/// Adds the handles of what bytes are made of.
fn push_options(handles: &mut Vec<u64>, options: &ByteInnerNewOptions) -> Made<()>
    ensures { OnOk result (handles.new.items ≡ handles.old.items ++ spec.handles_of_options options.now) }
{
    push_option(handles, &options.source)?;
    push_option(handles, &options.encoding)?;
    push_option(handles, &options.errors)
}

/// Adds the handle that a value is, and none of its parts.
fn push_whole(handles: &mut Vec<u64>, value: &Value) -> Made<()>
    ensures { OnOk result (handles.new.items ≡ handles.old.items ++ spec.handle_of_value value.now) }
{
    match value {
        Value::One(scalar) => push_scalar(handles, scalar),
        _ => Ok(()),
    }
}

/// Adds the handle that a value is, if it is given.
fn push_whole_option(handles: &mut Vec<u64>, value: &Option<Value>) -> Made<()>
    ensures { OnOk result (handles.new.items ≡ handles.old.items ++ spec.handle_of_option value.now) }
{
    match value {
        Some(value) => push_whole(handles, value),
        None => Ok(()),
    }
}

/// Adds the handles whose bytes a command reads. It ends in each arm, as `push_handles`.
fn push_read(handles: &mut Vec<u64>, subject: Subject, verb: &Verb) -> Made<()>
    ensures { OnOk result (handles.new.items ≡ handles.old.items ++ spec.handles_read subject verb.now) }
{
    match (subject, verb) {
        (Subject::View(_), Verb::Set { key: _, value }) => push_whole(handles, value),
        (Subject::View(_), Verb::Compare { op: _, other }) => push_whole(handles, other),
        (
            Subject::Own,
            Verb::Set {
                key: Value::Slice(_),
                value,
            },
        ) => push_whole(handles, value),
        (Subject::Own, Verb::Extend { value }) => push_whole(handles, value),
        (Subject::Own, Verb::IAdd { value }) => push_whole(handles, value),
        (Subject::Own, Verb::Init { options }) => push_whole_option(handles, &options.source),
        (Subject::Own, Verb::Compare { op: _, other }) => push_whole(handles, other),
        (Subject::View(_), Verb::Hex { sep, group: _ }) => push_whole_option(handles, sep),
        (Subject::Own, Verb::Contains { value }) => push_whole(handles, value),
        (Subject::Own, Verb::Call { method }) => push_values(handles, method.args.as_slice()),
        _ => Ok(()),
    }
}

/// The handles whose bytes a command reads: a value that is written through a view or by a slice, one
/// that bytes are added or made of, one that a subject is compared with or searched for, a separator of
/// digits, and each argument of a method.
///
/// Example: of `extend` by `h1` it gives 1, and of `append` by a number none.
pub fn handles_read(alloc: Global, subject: Subject, verb: &Verb) -> Made<Vec<u64>>
    ensures { IfOk result (λ handles. handles.items ≡ spec.handles_read subject verb.now) }
{
    let mut handles = Vec::new(alloc);
    push_read(&mut handles, subject, verb)?;
    Ok(handles)
}

/// Adds the handles of all values of a command. It ends in each arm, since one list for all arms would be too much for the
/// prover.
fn push_handles(handles: &mut Vec<u64>, verb: &Verb) -> Made<()>
    ensures { OnOk result (handles.new.items ≡ handles.old.items ++ spec.handles_of verb.now) }
{
    match verb {
        Verb::Range { from, to } => push_both(handles, from, to),
        Verb::Get { key } => push_value(handles, key),
        Verb::Set { key, value } => push_both(handles, key, value),
        Verb::Cast { format, shape } => push_with_option(handles, format, shape),
        Verb::CastF { format, shape } => push_both(handles, format, shape),
        Verb::ToBytes { order } => push_option(handles, order),
        Verb::Del { key } => push_value(handles, key),
        Verb::Append { value } => push_value(handles, value),
        Verb::Extend { value } => push_value(handles, value),
        Verb::Insert { index, value } => push_both(handles, index, value),
        Verb::Pop { index } => push_option(handles, index),
        Verb::Remove { value } => push_value(handles, value),
        Verb::IAdd { value } => push_value(handles, value),
        Verb::IMul { count } => push_value(handles, count),
        Verb::Init { options } => push_options(handles, options),
        Verb::Compare { op: _, other } => push_value(handles, other),
        Verb::SetState { state } => push_value(handles, state),
        Verb::Contains { value } => push_value(handles, value),
        Verb::Hex { sep, group } => push_both_options(handles, sep, group),
        Verb::Call { method } => push_values(handles, method.args.as_slice()),
        _ => Ok(()),
    }
}

/// The handles of all values of a command, in order.
///
/// Example: of `insert h1 h2` it gives 1 and 2.
pub fn handles_of(alloc: Global, verb: &Verb) -> Made<Vec<u64>>
    ensures { IfOk result (λ handles. handles.items ≡ spec.handles_of verb.now) }
{
    let mut handles = Vec::new(alloc);
    push_handles(&mut handles, verb)?;
    Ok(handles)
}

/// The handles of what a new exporter's bytes are made of, in order.
///
/// Example: of the source `h1` alone it gives 1.
pub fn handles_of_options(alloc: Global, options: &ByteInnerNewOptions) -> Made<Vec<u64>>
    ensures { IfOk result (λ handles. handles.items ≡ spec.handles_of_options options.now) }
{
    let mut handles = Vec::new(alloc);
    push_options(&mut handles, options)?;
    Ok(handles)
}

/// The handle that a source alone is, where neither an encoding nor a rule for errors is given. The
/// bytes of a handle are read of no other options.
///
/// Example: of the source `h1` alone it is `Some(1)`, and with an encoding besides it is `None`.
pub fn handle_alone(options: &ByteInnerNewOptions) -> Option<u64>
    ensures { result ≡ spec.handle_alone options.now }
{
    match (&options.source, &options.encoding, &options.errors) {
        (Some(Value::One(Scalar::Handle(handle))), None, None) => Some(*handle),
        _ => None,
    }
}
