//! The arguments that a call is given: how many there are, and what each stands for.
ghost use Rattle.std.specs.Prelude.{◌≡◌, Ok, IfOk, IfErr};
ghost use Rattle.std.specs.Option.{option_copied};
ghost use Rattle.pybuf_value.specs.declared.faults.Outcome.TheVariants as outcomes;
ghost use Rattle.pybuf_methods.specs.Given as spec;
ghost use Rattle.pybuf_methods.specs.Given.{IsStopped};
ghost use Rattle.pybuf_value.specs.Halting.{AnsweredAtOnce, GivesLent, GivesLentOption};

use pybuf_value::{Answer, Fault, Halt, Scalar, Tried, Value, index_of, text_in};

/// What an answer is, where it is neither refused nor wanting memory.
pub(crate) fn done<T>(answer: Tried<T>) -> Result<T, Halt>
    ensures ok { IfOk result (λ value. answer ≡ Ok (outcomes.Done value)) }
    ensures stopped { IfErr result (λ halt. IsStopped answer halt) }
{
    answer.done()
}

/// No argument.
pub(crate) fn none(args: &[Value]) -> Result<(), Fault>
    ensures { result ≡ spec.none args.now }
{
    match args {
        [] => Ok(()),
        _ => Err(Fault::Kind),
    }
}

/// One argument.
pub(crate) fn one(args: &[Value]) -> Result<&Value, Fault>
    ensures { GivesLent (spec.one args.now) result }
{
    match args {
        [a] => Ok(a),
        _ => Err(Fault::Kind),
    }
}

/// Two arguments.
pub(crate) fn two(args: &[Value]) -> Result<(&Value, &Value), Fault>
    ensures { AnsweredAtOnce result (λ given. (given.0.now, given.1.now)) (spec.two args.now) }
{
    match args {
        [a, b] => Ok((a, b)),
        _ => Err(Fault::Kind),
    }
}

/// One argument, or none.
pub(crate) fn at_most_one(args: &[Value]) -> Result<Option<&Value>, Fault>
    ensures { GivesLentOption (spec.at_most_one args.now) result }
{
    match args {
        [] => Ok(None),
        [a] => Ok(Some(a)),
        _ => Err(Fault::Kind),
    }
}

/// Two arguments, or fewer.
pub(crate) fn at_most_two(args: &[Value]) -> Result<(Option<&Value>, Option<&Value>), Fault>
    ensures { AnsweredAtOnce result (λ given. (option_copied given.0, option_copied given.1)) (spec.at_most_two args.now) }
{
    match args {
        [] => Ok((None, None)),
        [a] => Ok((Some(a), None)),
        [a, b] => Ok((Some(a), Some(b))),
        _ => Err(Fault::Kind),
    }
}

/// One argument, or two.
pub(crate) fn one_or_two(args: &[Value]) -> Result<(&Value, Option<&Value>), Fault>
    ensures { AnsweredAtOnce result (λ given. (given.0.now, option_copied given.1)) (spec.one_or_two args.now) }
{
    match args {
        [a] => Ok((a, None)),
        [a, b] => Ok((a, Some(b))),
        _ => Err(Fault::Kind),
    }
}

/// Two arguments, or three.
pub(crate) fn two_or_three(args: &[Value]) -> Result<(&Value, &Value, Option<&Value>), Fault>
    ensures { AnsweredAtOnce result (λ given. (given.0.now, given.1.now, option_copied given.2)) (spec.two_or_three args.now) }
{
    match args {
        [a, b] => Ok((a, b, None)),
        [a, b, c] => Ok((a, b, Some(c))),
        _ => Err(Fault::Kind),
    }
}

/// One argument, and two more or fewer.
pub(crate) fn one_to_three(
    args: &[Value],
) -> Result<(&Value, Option<&Value>, Option<&Value>), Fault>
    ensures { AnsweredAtOnce result (λ given. (given.0.now, option_copied given.1, option_copied given.2)) (spec.one_to_three args.now) }
{
    match args {
        [a] => Ok((a, None, None)),
        [a, b] => Ok((a, Some(b), None)),
        [a, b, c] => Ok((a, Some(b), Some(c))),
        _ => Err(Fault::Kind),
    }
}

/// A bound, where one is given that isn't Python's `None`.
pub(crate) fn bound_given(value: Option<&Value>) -> Result<Option<i128>, Fault>
    ensures { result ≡ spec.bound_given (option_copied value.entry) }
{
    match value {
        None => Ok(None),
        Some(Value::One(Scalar::None)) => Ok(None),
        Some(value) => {
            let number = index_of(value)?;
            Ok(Some(number))
        }
    }
}

/// A truth value, or whether a number isn't 0; false where none is given.
pub(crate) fn flag_given(value: Option<&Value>) -> Result<bool, Fault>
    ensures { result ≡ spec.flag_given (option_copied value.entry) }
{
    match value {
        None => Ok(false),
        Some(value) => {
            let number = index_of(value)?;
            Ok(number != 0)
        }
    }
}

/// A text, where one is given that isn't Python's `None`, lent.
pub(crate) fn text_given(value: Option<&Value>) -> Result<Option<&pybuf_value::Text>, Fault>
    ensures { GivesLentOption (spec.text_given (option_copied value.entry)) result }
{
    match value {
        None => Ok(None),
        Some(Value::One(Scalar::None)) => Ok(None),
        Some(value) => {
            let text = text_in(value)?;
            Ok(Some(text))
        }
    }
}
