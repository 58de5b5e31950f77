//! Numbers as a size and a sign.
ghost use Rattle.std.specs.Prelude.{◌≡◌, Some, MatchOption};
ghost use Rattle.pybuf_crossing.specs.Words as spec;

/// The number of a size and a sign. Takes no memory.
/// Example: `signed(true, 5)` is -5.
#[inline(always)]
pub fn signed(negative: bool, magnitude: u64) -> i128
    ensures { result ≡ spec.signed negative magnitude }
{
    if negative {
        -(magnitude as i128)
    } else {
        magnitude as i128
    }
}

/// The size of a number, and whether it is negative. It is None exactly where there is no number, or its size passes
/// a `u64`. Takes no memory.
/// Example: `word_of(Some(-5))` is `Some((5, true))`, and `word_of(None)` is None.
#[inline(always)]
pub fn word_of(number: Option<i128>) -> Option<(u64, bool)>
    ensures { MatchOption result (spec.IsNoWord number) (λ word. number ≡ Some (spec.signed word.1 word.0)) }
{
    let Some(number) = number else {
        return None;
    };
    let magnitude = number.unsigned_abs();
    if magnitude > u64::MAX as u128 {
        return None;
    }
    Some((magnitude as u64, number < 0))
}
