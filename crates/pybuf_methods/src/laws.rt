//! What is promised of every call.
ghost use Rattle.std.specs.Prelude.{◌≡◌, length, nat_le, ◌&&◌};
ghost use Rattle.pybuf_command.specs.Arity as spec;
ghost use Rattle.pybuf_methods.specs.Laws.{WrongNumbersAreRefused};

/// A call with another number of arguments than its method takes is refused with `TypeError`.
///
/// Example: `MethodName::Upper` with an argument is refused with `TypeError`.
pub fn wrong_numbers_are_refused()
    ensures { WrongNumbersAreRefused }
{}
