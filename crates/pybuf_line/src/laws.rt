//! Laws of the definitions that the contracts cite. Each stands on a function with an empty body.
ghost use Rattle.pybuf_value.specs.Spelling.{handle_text};
ghost use Rattle.pybuf_line.specs.Nesting.{NestingIsTheShape, ItemsStandInOrder};
ghost use Rattle.pybuf_line.specs.Laws.{LinesJoin, LinesAreSingle, WordsJoin, CommandsAreOfLines, BadLineIsFirst, RepliesAreSingle, NamesStaySingle, PartsJoin, PartsAreSingle, EnclosedIsBetween, BetweenIsEnclosed, ScalarsReadBack, ValuesReadBack, WordsReadBack, KindsReadBack, OperatorsReadBack, PropertiesReadBack, MethodsReadBack, CommandsReadBack};

/// The lines of an input, each with its line feed, are the input, which may lack the last one. No
/// line holds a line feed.
///
/// Example: the lines of `b"len h0\nview h0"` are `b"len h0"` and `b"view h0"`, which the input is but for a last line feed.
pub fn lines_are_the_input()
    ensures joined { LinesJoin }
    ensures single { LinesAreSingle }
{}

/// The words of a line, with a blank between them, are the line.
///
/// Example: the words of `b"get h0 1"` are `b"get"`, `b"h0"` and `b"1"`, and with blanks between they are the line.
pub fn words_are_the_line()
    ensures { WordsJoin }
{}

/// Where an input has commands, they are those of its lines, in order. Where it has none, the line
/// whose number is told is the first that is no command.
///
/// Example: the commands of `b"len h0\nview h0\n"` are that of `b"len h0"` and that of `b"view h0"`.
pub fn commands_are_of_lines()
    ensures each { CommandsAreOfLines }
    ensures first { BadLineIsFirst }
{}

/// The text of a reply is one line, provided that a text which it shows as it is (`Reply::Shown`) is
/// one line. That holds where handles are written as `h0`, and for all other names of handles that are
/// one line each.
///
/// Example: the reply `b"a\n"` is written as `b'a\n'`, with a backslash and an `n` in place of the line feed.
pub fn replies_are_single_lines()
    ensures handles { RepliesAreSingle handle_text }
    ensures names { NamesStaySingle }
{}

/// The text of items is nested by their shape: its blocks are those of the first dimension, each
/// nested by the dimensions that are left, and put end to end they are the items.
///
/// Example: 0 to 5 in the shape 2, 3 are `[[0, 1, 2], [3, 4, 5]]`, whose blocks are `[0, 1, 2]` and `[3, 4, 5]`.
pub fn nesting_is_the_shape()
    ensures { NestingIsTheShape handle_text }
{}

/// The text of items is made of brackets, of separators and of the texts of all the items, in order.
///
/// Example: in `[[0, 1, 2], [3, 4, 5]]` the items 0 to 5 stand in order, between brackets and separators.
pub fn items_stand_in_order()
    ensures { ItemsStandInOrder handle_text }
{}

/// The parts of a text between the commas outside quotes, with a comma between each two, are the
/// text. No part has a comma but between quotes.
///
/// Example: the parts of `1,'a,b'` are `1` and `'a,b'`, and with a comma between they are the text.
pub fn parts_are_the_text()
    ensures joined { PartsJoin }
    ensures single { PartsAreSingle }
{}

/// What stands between a first byte and a last one is read exactly where both are there.
///
/// Example: between `(` and `)` of `(1,2)` stands `1,2`, and `(1,2` is not read so.
pub fn enclosed_is_between()
    ensures there { EnclosedIsBetween }
    ensures read { BetweenIsEnclosed }
{}

/// A value without parts that was written is read back.
///
/// Example: the number -5 is written as `-5`, which is read as -5.
pub fn scalars_read_back()
    ensures { ScalarsReadBack }
{}

/// A value that was written is read back, with all its parts.
///
/// Example: the tuple of 1 and 2 is written as `(1,2)`, which is read as that tuple.
pub fn values_read_back()
    ensures { ValuesReadBack }
{}

/// Each first word of a line is read back as it was written, and no other text is read as it.
///
/// Example: the first word of a line for a length is written as `len`, which is read as it, and no other text is.
pub fn words_read_back()
    ensures { WordsReadBack }
{}

/// Each kind of exporters that lines make is read back as it was written, and no other text is read as
/// it.
///
/// Example: the kind of a bytearray is written as `bytearray`, which is read as that kind.
pub fn kinds_read_back()
    ensures { KindsReadBack }
{}

/// Each operator of comparisons is read back as it was written, and no other text is read as it.
///
/// Example: `CompareOp::Le` is written as `<=`, which is read as it.
pub fn operators_read_back()
    ensures { OperatorsReadBack }
{}

/// Each name of a property is read back as it was written, and no other text is read as it.
///
/// Example: `PropertyName::Nbytes` is written as `nbytes`, which is read as it.
pub fn property_names_read_back()
    ensures { PropertiesReadBack }
{}

/// Each name of a method is read back as it was written, and no other text is read as it.
///
/// Example: `MethodName::Find` is written as `find`, which is read as it.
pub fn method_names_read_back()
    ensures { MethodsReadBack }
{}

/// A command that was written is read back.
///
/// Example: the command for the length of the handle 0 is written as `len h0`, which is read as that command.
pub fn commands_read_back()
    ensures { CommandsReadBack }
{}
