//! How a run of the program ends.
ghost use Rattle.std.specs.Prelude.{◌≡◌};
ghost use Rattle.pybuf_cli.specs.Endings.{exit_number};

/// How a run of the program ended.
///
/// Example: of the input `b"len\n"` it is `Status::BadLine`, whose number is 2.
#[derive(Clone, Copy, Debug, PartialEq, Eq)]
pub enum Status {
    /// All was read, run and written.
    /// Example: of the input `b"new bytes x6162\n"` it is this, and `h0` was written.
    Done,
    /// A line of the input is outside the grammar. Nothing was run.
    /// Example: of the input `b"len\n"` it is this, and `line 1 is not a command` was written.
    BadLine,
    /// Memory ran out.
    /// Example: of an input for which no block is left it is this.
    NoMemory,
    /// The input could not be read.
    /// Example: of a standard input that can't be read it is this, and nothing was written.
    ReadFault,
    /// The output could not be written.
    /// Example: of a standard output that was closed it is this.
    WriteFault,
    /// The words of the command line are none that the program knows.
    /// Example: of the words `make` and `0` it is this, and nothing was read or written.
    Usage,
    /// The input is longer than the program reads.
    /// Example: of an input of 1,048,577 bytes it is this, and nothing was written.
    TooLong,
    /// Sessions that share an exporter disagree with its history.
    /// Example: of `share` alone it can be this, and one line says what differs; no input is known that gives it.
    Disagree,
    /// The input is no whole number of records, or doesn't have as many bytes as a shape. How many bytes are left over, or there
    /// are, is all that was written.
    /// Example: of `table` and `<BH` with four bytes it is this, and `1 bytes left over` was written.
    BadData,
}

impl Status {
    /// The exit status of the process: 0 for `Done`, and 2 to 9 for the others in their order.
    ///
    /// Example: `Status::Done.number()` is 0, and `Status::BadData.number()` is 9.
    pub fn number(self) -> u8
        ensures { result ≡ exit_number self }
    {
        match self {
            Status::Done => 0,
            Status::BadLine => 2,
            Status::NoMemory => 3,
            Status::ReadFault => 4,
            Status::WriteFault => 5,
            Status::Usage => 6,
            Status::TooLong => 7,
            Status::Disagree => 8,
            Status::BadData => 9,
        }
    }
}
