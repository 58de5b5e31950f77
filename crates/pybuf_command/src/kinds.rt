//! What an exporter is, and what a command is told to work on.

/// The kind of an exporter: whose bytes may be written, and whose length may change.
///
/// Example: `ExporterKind::Bytes` is the kind of Python's `b'ab'`.
#[derive(Clone, Copy, Debug, PartialEq, Eq)]
pub enum ExporterKind {
    /// Python's `bytes`, whose bytes are never written.
    /// Example: `Verb::Set` of such an exporter is refused with `TypeError`.
    Bytes,
    /// Python's `bytearray`: its bytes are written, and resized while no view of it is unreleased.
    /// Example: `Verb::Append` adds a byte to it where no view of it is unreleased.
    ByteArray,
    /// A vector that lends its bytes, read-only or not.
    /// Example: of `Vector { readonly: true }` a view can be made, whose items can't be set.
    Vector { readonly: bool },
}

/// What one exporter's command works on.
///
/// Example: `Subject::View(0)` is the first view of the exporter.
#[derive(Clone, Copy, Debug, PartialEq, Eq)]
pub enum Subject {
    /// The exporter itself.
    /// Example: `Verb::Append` works on `Own`.
    Own,
    /// The view of this number, counted from 0 in the order in which they were made.
    /// Example: `Verb::Release` of `View(1)` releases the second view that was made.
    View(usize),
    /// The iterator of this number.
    /// Example: `Verb::Next` works on `Iter(0)`, the first iterator that was made.
    Iter(usize),
}

impl ExporterKind {
    ghost use Rattle.std.specs.Prelude.{◌≡◌};
    ghost use Rattle.pybuf_command.specs.Kinds.{holds_readonly};

    /// Whether the bytes are never written: those of `bytes` and of read-only vectors.
    ///
    /// Example: `ExporterKind::Bytes.is_readonly()` is `true`, and `ExporterKind::ByteArray.is_readonly()` is `false`.
    pub fn is_readonly(self) -> bool
        ensures { result ≡ holds_readonly self }
    {
        match self {
            ExporterKind::Bytes => true,
            ExporterKind::ByteArray => false,
            ExporterKind::Vector { readonly } => readonly,
        }
    }
}
