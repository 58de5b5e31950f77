//! A list so many times.
ghost use Rattle.std.specs.Prelude.{◌≡◌, ◌<◌, ◌*◌, ◌^◌, List, length, IfOk, OnOk, OnErr, Option};
ghost use Rattle.pybuf_value.specs.Numbers.{times};
ghost use Rattle.pybuf_slice.specs.Edits.{repeated_list, times_that_fit, SameLists, IsRepeated, repeat_answer, fits_answer, Repeats};
ghost use Rattle.pybuf_slice.specs.Reads.{MakesCopies};
ghost use Rattle.pybuf_value.specs.Halting.{Makes};

use pybuf_value::{Fault, Made, Outcome, Tried, Twin};
use std::alloc::Global;

/// How many times a list of this length is repeated: not at all for a negative number. `None` exactly
/// where the length of the whole passes `isize::MAX`.
fn times_of(len: usize, n: isize) -> Option<usize>
    requires { len < 2 ^ 63 }
    ensures { result ≡ times_that_fit len n }
{
    if n < 0 {
        return Some(0);
    }
    let times = n as usize;
    let total = len as u128 * times as u128;
    if total <= isize::MAX as u128 {
        Some(times)
    } else {
        None
    }
}

/// Copies of the items, so many times one after another. Room for all is taken at once.
fn copies_of<T: Twin>(alloc: Global, items: &[T], times: usize) -> Made<Vec<T>>
    requires { length items.now * times < 2 ^ 63 }
    ensures { MakesCopies T.same (repeated_list times items.now) result }
{
    let mut list = Vec::with_capacity(alloc, items.len() * times)?;
    // If there are no items, nothing is left to do, however often they are repeated.
    if items.is_empty() {
        return Ok(list);
    }
    for _time in 0..times {
        T::append_copies(alloc, items, &mut list)?;
    }
    Ok(list)
}

/// Copies of the items, `n` times one after another, none where `n` is negative.
///
/// Refused with `OverflowError` exactly where the number of items times `n` passes `isize::MAX`; memory
/// is taken only where it doesn't.
pub(crate) fn mul<T: Twin>(alloc: Global, items: &[T], n: isize) -> Tried<Vec<T>>
    requires { length items.now < 2 ^ 63 }
    ensures list { IfOk result (λ outcome. SameLists T.same (repeat_answer items.now n) outcome) }
    ensures memory { OnErr result (length items.now * times n < 2 ^ 63) }
{
    match times_of(items.len(), n) {
        None => Ok(Outcome::Refused(Fault::Overflow)),
        Some(times) => {
            let list = copies_of(alloc, items, times)?;
            Ok(Outcome::Done(list))
        }
    }
}

/// Puts copies of the elements behind them, so that the list stands there `n` times, and not at all
/// where `n` is negative.
///
/// Refused with `OverflowError` exactly where the length times `n` passes `isize::MAX`. After a
/// refusal, or where memory runs out, the list is as before.
pub(crate) fn imul<T: Twin>(list: &mut Vec<T>, alloc: Global, n: isize) -> Tried<()>
    requires { length list.old.items < 2 ^ 63 }
    ensures answer { Makes (fits_answer (length list.old.items * times n)) result }
    ensures change { Repeats result T.same (times n) list.old.items list.new.items }
    ensures memory { OnErr result (list.new.items ≡ list.old.items) }
{
    match times_of(list.len(), n) {
        None => Ok(Outcome::Refused(Fault::Overflow)),
        Some(times) => {
            grow_to(list, alloc, times)?;
            Ok(Outcome::Done(()))
        }
    }
}

/// The list so many times: its elements, and copies of them.
fn grow_to<T: Twin>(list: &mut Vec<T>, alloc: Global, times: usize) -> Made<()>
    requires { length list.old.items * times < 2 ^ 63 }
    ensures ok { OnOk result (IsRepeated T.same list.old.items times list.new.items) }
    ensures err { OnErr result (list.new.items ≡ list.old.items) }
{
    if times == 0 {
        list.clear();
        return Ok(());
    }
    let mut copies = copies_of(alloc, list.as_slice(), times - 1)?;
    list.append(&mut copies)?;
    Ok(())
}
