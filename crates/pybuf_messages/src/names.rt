//! The names that lines are made of, and how each line is written. `tools/check_names.py` compares them with the grammar.
use pybuf_line::is_word;

/// Each command with the words of its line.
pub(crate) fn commands() -> [(&'static str, &'static str); 39] {
    [
        ("new", "new KIND [SOURCE [ENC [ERR]]]"),
        ("view", "view HANDLE"),
        ("range", "range HANDLE FROM TO"),
        ("get", "get HANDLE KEY"),
        ("set", "set HANDLE KEY VALUE"),
        ("del", "del HANDLE KEY"),
        ("cast", "cast HANDLE FORMAT [SHAPE]"),
        ("castf", "castf HANDLE FORMAT SHAPE"),
        ("toreadonly", "toreadonly HANDLE"),
        ("contig", "contig HANDLE"),
        ("len", "len HANDLE"),
        ("bytes", "bytes HANDLE [ORDER]"),
        ("tolist", "tolist HANDLE"),
        ("release", "release HANDLE"),
        ("exit", "exit HANDLE"),
        ("enter", "enter HANDLE"),
        ("prop", "prop HANDLE NAME"),
        ("compare", "compare HANDLE OP VALUE"),
        ("hash", "hash HANDLE"),
        ("repr", "repr HANDLE"),
        ("contains", "contains HANDLE NEEDLE"),
        ("hex", "hex HANDLE [SEP [GROUP]]"),
        ("call", "call HANDLE METHOD ARGUMENTS"),
        ("iter", "iter HANDLE"),
        ("next", "next HANDLE"),
        ("hint", "hint HANDLE"),
        ("setstate", "setstate HANDLE PLACE"),
        ("append", "append HANDLE VALUE"),
        ("extend", "extend HANDLE VALUE"),
        ("iadd", "iadd HANDLE VALUE"),
        ("insert", "insert HANDLE INDEX VALUE"),
        ("pop", "pop HANDLE [INDEX]"),
        ("remove", "remove HANDLE VALUE"),
        ("clear", "clear HANDLE"),
        ("reverse", "reverse HANDLE"),
        ("imul", "imul HANDLE COUNT"),
        ("init", "init HANDLE [SOURCE [ENC [ERR]]]"),
        ("copy", "copy HANDLE"),
        ("take", "take HANDLE"),
    ]
}

/// Each operation on a typed array with the words of its line.
pub(crate) fn operations() -> [(&'static str, &'static str); 17] {
    [
        ("append", "append N"),
        ("extend", "extend [N,..]"),
        ("insert", "insert I N"),
        ("pop", "pop [I]"),
        ("remove", "remove N"),
        ("frombytes", "frombytes xHEX"),
        ("get", "get I"),
        ("set", "set I N"),
        ("len", "len"),
        ("tolist", "tolist"),
        ("tobytes", "tobytes"),
        ("byteswap", "byteswap"),
        ("view", "view"),
        ("vslice", "vslice K SLICE"),
        ("vget", "vget K I"),
        ("vset", "vset K I N"),
        ("release", "release K"),
    ]
}

/// The kinds of exporters.
pub(crate) fn kinds() -> [&'static str; 4] {
    ["bytes", "bytearray", "vector", "rovector"]
}

/// The properties of exporters and views.
pub(crate) fn properties() -> [&'static str; 13] {
    [
        "exports",
        "obj",
        "nbytes",
        "itemsize",
        "readonly",
        "ndim",
        "shape",
        "strides",
        "suboffsets",
        "format",
        "c_contiguous",
        "f_contiguous",
        "contiguous",
    ]
}

/// The operators that compare.
pub(crate) fn operators() -> [&'static str; 6] {
    ["==", "!=", "<", "<=", ">", ">="]
}

/// The methods of bytes.
pub(crate) fn methods() -> [&'static str; 45] {
    [
        "add",
        "concat",
        "mul",
        "isalnum",
        "isalpha",
        "isascii",
        "isdigit",
        "isspace",
        "islower",
        "isupper",
        "istitle",
        "lower",
        "upper",
        "swapcase",
        "capitalize",
        "title",
        "hex",
        "fromhex",
        "center",
        "ljust",
        "rjust",
        "zfill",
        "find",
        "rfind",
        "index",
        "rindex",
        "count",
        "startswith",
        "endswith",
        "join",
        "maketrans",
        "translate",
        "strip",
        "lstrip",
        "rstrip",
        "removeprefix",
        "removesuffix",
        "split",
        "rsplit",
        "partition",
        "rpartition",
        "expandtabs",
        "splitlines",
        "replace",
        "decode",
    ]
}

/// The first words behind the name of the program, each with those behind it.
pub(crate) fn forms() -> [(&'static str, &'static str); 6] {
    [
        ("run", "run"),
        ("share", "share"),
        ("make", "make N"),
        ("array", "array CODE"),
        ("table", "table FORMAT [K OP N]"),
        ("nd", "nd SHAPE KEY [T]"),
    ]
}

/// Whether a text is one of some names.
pub(crate) fn is_one_of(text: &[u8], names: &[&'static str]) -> bool {
    for name in names {
        if is_word(text, name) {
            return true;
        }
    }
    false
}

/// Whether a text is the first of some pairs.
pub(crate) fn is_first_of(text: &[u8], pairs: &[(&'static str, &'static str)]) -> bool {
    for (name, _) in pairs {
        if is_word(text, name) {
            return true;
        }
    }
    false
}
