//! The grammar of lines: the commands of an input, and the texts of replies.
#![tactic(auto)]

mod inputs;
mod laws;
mod methods;
mod options;
mod parsing;
mod scalars;
mod spellings;
mod splitting;
mod texts;
mod unread;
mod verbs;
mod words;

pub use inputs::{check_lines, let_go};
pub use laws::{
    commands_are_of_lines, commands_read_back, enclosed_is_between, items_stand_in_order,
    kinds_read_back, lines_are_the_input, method_names_read_back, nesting_is_the_shape,
    operators_read_back, parts_are_the_text, property_names_read_back, replies_are_single_lines,
    scalars_read_back, values_read_back, words_are_the_line, words_read_back,
};
pub use parsing::{command, command_of_line};
pub use scalars::{scalar, word_number};
pub use spellings::value;
pub use splitting::{fill_words, next_line};
pub use texts::{
    Part, push_bad_line, push_decimal, push_list, push_nested, push_reply, push_reply_line,
    push_tuple,
};
pub use unread::{Misread, Unread};
pub use words::{is_word, operator_named};
