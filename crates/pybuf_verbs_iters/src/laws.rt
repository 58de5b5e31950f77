//! Laws of the definitions that the contracts cite.
ghost use Rattle.pybuf_verbs_iters.specs.Laws.{IterIsSafe, IteratorsAreSafe};

/// Where `iter` isn't refused, it changes nothing but iterators. Each that was there keeps its number and what it
/// goes over, and an exhausted one stays as it is.
/// Example: after `iter` of `bytearray(b"abc")` the bytes and the views are as before.
pub fn iter_is_safe()
    ensures { IterIsSafe }
{
    pybuf_state::new_iterators_stay();
}

/// Where a command on an iterator isn't refused, it changes nothing but iterators. Each keeps its number and what it
/// goes over, and an exhausted one stays as it is.
/// Example: after `next` the bytes and the views are as before.
pub fn iterators_are_safe()
    ensures { IteratorsAreSafe }
{
    pybuf_state::moved_iterators_stay();
}
