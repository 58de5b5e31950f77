//! The names of methods.
ghost use Rattle.std.specs.Prelude.{◌≡◌};
ghost use Rattle.pybuf_line.specs.Methods.{written_method};

use pybuf_command::MethodName;

/// The name of a method.
pub fn method_text(name: MethodName) -> &'static str
    ensures { result.now ≡ written_method name }
{
    match name {
        MethodName::Add => "add",
        MethodName::Concat => "concat",
        MethodName::Mul => "mul",
        MethodName::IsAlnum => "isalnum",
        MethodName::IsAlpha => "isalpha",
        MethodName::IsAscii => "isascii",
        MethodName::IsDigit => "isdigit",
        MethodName::IsLower => "islower",
        MethodName::IsSpace => "isspace",
        MethodName::IsTitle => "istitle",
        MethodName::IsUpper => "isupper",
        MethodName::Lower => "lower",
        MethodName::Upper => "upper",
        MethodName::SwapCase => "swapcase",
        MethodName::Capitalize => "capitalize",
        MethodName::Title => "title",
        MethodName::Hex => "hex",
        MethodName::FromHex => "fromhex",
        MethodName::Center => "center",
        MethodName::LJust => "ljust",
        MethodName::RJust => "rjust",
        MethodName::Find => "find",
        MethodName::RFind => "rfind",
        MethodName::Index => "index",
        MethodName::RIndex => "rindex",
        MethodName::Count => "count",
        MethodName::StartsWith => "startswith",
        MethodName::EndsWith => "endswith",
        MethodName::Join => "join",
        MethodName::MakeTrans => "maketrans",
        MethodName::Translate => "translate",
        MethodName::Strip => "strip",
        MethodName::LStrip => "lstrip",
        MethodName::RStrip => "rstrip",
        MethodName::RemovePrefix => "removeprefix",
        MethodName::RemoveSuffix => "removesuffix",
        MethodName::Split => "split",
        MethodName::RSplit => "rsplit",
        MethodName::Partition => "partition",
        MethodName::RPartition => "rpartition",
        MethodName::ExpandTabs => "expandtabs",
        MethodName::SplitLines => "splitlines",
        MethodName::ZFill => "zfill",
        MethodName::Replace => "replace",
        MethodName::Decode => "decode",
    }
}
