//! The format and the shape of single bytes.
ghost use Rattle.std.specs.Prelude.{◌≡◌, ◌==◌};
ghost use Rattle.pybuf_memoryview.specs.Fits as spec;

/// Whether a format is `B`, that of bytes. Takes no memory.
/// Example: `is_byte_format(b"B")` is true, and `is_byte_format(b"b")` false.
pub fn is_byte_format(format: &[u8]) -> bool
    ensures { result ≡ spec.is_byte_format format.now }
{
    match format {
        [b] => *b == 66,
        _ => false,
    }
}

/// Whether a shape is one dimension of so many entries. Takes no memory.
/// Example: `is_row_of(3, &[3])` is true, and `is_row_of(3, &[3, 1])` false.
pub fn is_row_of(count: usize, shape: &[usize]) -> bool
    ensures { result ≡ spec.is_row_of count shape.now }
{
    match shape {
        [n] => *n == count,
        _ => false,
    }
}
