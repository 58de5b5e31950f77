//! The codes of the numbers that views read.

/// A code for numbers of 1, 2, 4 or 8 bytes.
#[derive(Clone, Copy)]
pub struct Code {
    pub format: &'static str,
    /// The number of bytes of a number.
    pub size: usize,
}

pub const BYTE: Code = Code {
    format: "B",
    size: 1,
};

pub const SHORT: Code = Code {
    format: "H",
    size: 2,
};

pub const INT: Code = Code {
    format: "i",
    size: 4,
};

pub const LONG: Code = Code {
    format: "q",
    size: 8,
};
