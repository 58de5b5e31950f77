//! What bytes can be read from, and a separator with a greatest number of cuts.
ghost use Rattle.std.specs.Prelude.{◌≡◌, ℕ, List};
ghost use Rattle.pybuf_value.specs.Lent.{lent_bytes};
ghost use Rattle.pybuf_search.specs.Separators as spec;

use pybuf_value::{ByteList, Fault, Lent};

/// What bytes can be read from.
///
/// Example: a `ByteList` of `b"ab"` and a `Lent` of the same bytes both lend `b"ab"`.
pub trait AnyStrWrapper {
    // The bytes that are lent.
    ghost bytes: { Self → List ℕ };

    /// The bytes, lent.
    ///
    /// Example: of a `ByteList` of `b"ab"` it is `b"ab"`.
    fn as_ref(&self) -> &[u8]
        ensures { result.now ≡ bytes self.now };
}

impl AnyStrWrapper for ByteList {
    ghost bytes = { λ list. list };

    fn as_ref(&self) -> &[u8] {
        self.as_slice()
    }
}

impl<'a> AnyStrWrapper for Lent<'a> {
    ghost bytes = { lent_bytes };

    fn as_ref(&self) -> &[u8] {
        self.as_slice()
    }
}

/// A separator, where there is one, and the greatest number of cuts; a negative number is no bound.
///
/// Example: the separator `b","` and the number 1 ask for at most one cut, at a comma.
#[derive(Debug, Drop)]
pub struct SplitArgs<T> {
    pub sep: Option<T>,
    pub maxsplit: isize,
}

impl<T: AnyStrWrapper + Drop> SplitArgs<T> {
    /// The separator and the greatest number of cuts.
    ///
    /// Refused with `ValueError` exactly for an empty separator.
    ///
    /// Example: of the separator `b","` and the number 1 it is `Ok((Some(b","), 1))`.
    pub fn get_value(self) -> Result<(Option<T>, isize), Fault>
        ensures { result ≡ spec.separator_in T.bytes self.sep self.maxsplit }
    {
        let SplitArgs { sep, maxsplit } = self;
        match sep {
            None => Ok((None, maxsplit)),
            Some(separator) => {
                if separator.as_ref().is_empty() {
                    return Err(Fault::Value);
                }
                Ok((Some(separator), maxsplit))
            }
        }
    }
}
