//! What holds of the equality of replies and commands.
ghost use Rattle.pybuf_command.specs.Laws.{EqualRepliesAreTheSame, EqualCommandsAreTheSame};

use pybuf_value::equal_values_are_the_same;

/// Replies are equal by `==` exactly where they are the same.
///
/// Example: `LocalReply::Truth(true) == LocalReply::Truth(true)` is true, and with `Truth(false)` it is false.
pub fn equal_replies_are_the_same()
    ensures { EqualRepliesAreTheSame }
{
    equal_values_are_the_same();
}

/// Commands are equal by `==` exactly where they are the same: subject, what is asked with its arguments, and the
/// loans, in their order.
///
/// Example: two commands that ask for `Verb::Len` of `Subject::Own` without loans are equal.
pub fn equal_commands_are_the_same()
    ensures { EqualCommandsAreTheSame }
{
    equal_values_are_the_same();
}
