//! The names of methods that lines call, looked for among those of their length.
ghost use Rattle.std.specs.Prelude.{◌≡◌};
ghost use Rattle.pybuf_line.specs.Words.{named_in, of_length};
ghost use Rattle.pybuf_line.specs.Methods.{written_method, every_method, method_in};

use pybuf_command::MethodName;

/// The method of three letters that a text names.
fn method_of_three(text: &[u8]) -> Option<MethodName>
    ensures { result ≡ named_in written_method (of_length 3 written_method every_method) text.now }
{
    if text == "add".as_bytes() {
        return Some(MethodName::Add);
    }
    if text == "mul".as_bytes() {
        return Some(MethodName::Mul);
    }
    if text == "hex".as_bytes() {
        return Some(MethodName::Hex);
    }
    None
}

/// The method of four letters that a text names.
fn method_of_four(text: &[u8]) -> Option<MethodName>
    ensures { result ≡ named_in written_method (of_length 4 written_method every_method) text.now }
{
    if text == "join".as_bytes() {
        return Some(MethodName::Join);
    }
    if text == "find".as_bytes() {
        return Some(MethodName::Find);
    }
    None
}

/// The method of five letters that a text names.
fn method_of_five(text: &[u8]) -> Option<MethodName>
    ensures { result ≡ named_in written_method (of_length 5 written_method every_method) text.now }
{
    if text == "lower".as_bytes() {
        return Some(MethodName::Lower);
    }
    if text == "upper".as_bytes() {
        return Some(MethodName::Upper);
    }
    if text == "title".as_bytes() {
        return Some(MethodName::Title);
    }
    if text == "ljust".as_bytes() {
        return Some(MethodName::LJust);
    }
    if text == "rjust".as_bytes() {
        return Some(MethodName::RJust);
    }
    if text == "zfill".as_bytes() {
        return Some(MethodName::ZFill);
    }
    if text == "rfind".as_bytes() {
        return Some(MethodName::RFind);
    }
    if text == "index".as_bytes() {
        return Some(MethodName::Index);
    }
    if text == "count".as_bytes() {
        return Some(MethodName::Count);
    }
    if text == "strip".as_bytes() {
        return Some(MethodName::Strip);
    }
    if text == "split".as_bytes() {
        return Some(MethodName::Split);
    }
    None
}

/// The method of six letters that a text names.
fn method_of_six(text: &[u8]) -> Option<MethodName>
    ensures { result ≡ named_in written_method (of_length 6 written_method every_method) text.now }
{
    if text == "concat".as_bytes() {
        return Some(MethodName::Concat);
    }
    if text == "center".as_bytes() {
        return Some(MethodName::Center);
    }
    if text == "decode".as_bytes() {
        return Some(MethodName::Decode);
    }
    if text == "rindex".as_bytes() {
        return Some(MethodName::RIndex);
    }
    if text == "lstrip".as_bytes() {
        return Some(MethodName::LStrip);
    }
    if text == "rstrip".as_bytes() {
        return Some(MethodName::RStrip);
    }
    if text == "rsplit".as_bytes() {
        return Some(MethodName::RSplit);
    }
    None
}

/// The method of seven letters that a text names.
fn method_of_seven(text: &[u8]) -> Option<MethodName>
    ensures { result ≡ named_in written_method (of_length 7 written_method every_method) text.now }
{
    if text == "isalnum".as_bytes() {
        return Some(MethodName::IsAlnum);
    }
    if text == "isalpha".as_bytes() {
        return Some(MethodName::IsAlpha);
    }
    if text == "isascii".as_bytes() {
        return Some(MethodName::IsAscii);
    }
    if text == "isdigit".as_bytes() {
        return Some(MethodName::IsDigit);
    }
    if text == "islower".as_bytes() {
        return Some(MethodName::IsLower);
    }
    if text == "isspace".as_bytes() {
        return Some(MethodName::IsSpace);
    }
    if text == "istitle".as_bytes() {
        return Some(MethodName::IsTitle);
    }
    if text == "isupper".as_bytes() {
        return Some(MethodName::IsUpper);
    }
    if text == "fromhex".as_bytes() {
        return Some(MethodName::FromHex);
    }
    if text == "replace".as_bytes() {
        return Some(MethodName::Replace);
    }
    None
}

/// The method of eight letters that a text names.
fn method_of_eight(text: &[u8]) -> Option<MethodName>
    ensures { result ≡ named_in written_method (of_length 8 written_method every_method) text.now }
{
    if text == "swapcase".as_bytes() {
        return Some(MethodName::SwapCase);
    }
    if text == "endswith".as_bytes() {
        return Some(MethodName::EndsWith);
    }
    None
}

/// The method of nine letters that a text names.
fn method_of_nine(text: &[u8]) -> Option<MethodName>
    ensures { result ≡ named_in written_method (of_length 9 written_method every_method) text.now }
{
    if text == "maketrans".as_bytes() {
        return Some(MethodName::MakeTrans);
    }
    if text == "translate".as_bytes() {
        return Some(MethodName::Translate);
    }
    if text == "partition".as_bytes() {
        return Some(MethodName::Partition);
    }
    None
}

/// The method of ten letters that a text names.
fn method_of_ten(text: &[u8]) -> Option<MethodName>
    ensures { result ≡ named_in written_method (of_length 10 written_method every_method) text.now }
{
    if text == "capitalize".as_bytes() {
        return Some(MethodName::Capitalize);
    }
    if text == "expandtabs".as_bytes() {
        return Some(MethodName::ExpandTabs);
    }
    if text == "startswith".as_bytes() {
        return Some(MethodName::StartsWith);
    }
    if text == "rpartition".as_bytes() {
        return Some(MethodName::RPartition);
    }
    if text == "splitlines".as_bytes() {
        return Some(MethodName::SplitLines);
    }
    None
}

/// The method of twelve letters that a text names.
fn method_of_twelve(text: &[u8]) -> Option<MethodName>
    ensures { result ≡ named_in written_method (of_length 12 written_method every_method) text.now }
{
    if text == "removeprefix".as_bytes() {
        return Some(MethodName::RemovePrefix);
    }
    if text == "removesuffix".as_bytes() {
        return Some(MethodName::RemoveSuffix);
    }
    None
}

/// The method that a text names, among those of its length.
pub fn method_named(text: &[u8]) -> Option<MethodName>
    ensures { result ≡ method_in text.now }
{
    match text.len() {
        3 => method_of_three(text),
        4 => method_of_four(text),
        5 => method_of_five(text),
        6 => method_of_six(text),
        7 => method_of_seven(text),
        8 => method_of_eight(text),
        9 => method_of_nine(text),
        10 => method_of_ten(text),
        12 => method_of_twelve(text),
        _ => None,
    }
}
