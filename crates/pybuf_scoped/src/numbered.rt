//! Calls on a view by its owner and its number, which scoped views and views of groups share.
ghost use Rattle.std.specs.Prelude.{◌≡◌, length};
ghost use Rattle.std.specs.Option.{option_copied};
ghost use Rattle.pybuf_value.specs.Halting.{Gives};
ghost use Rattle.pybuf_bytes.specs.Searching.{split_of};
ghost use Rattle.pybuf_shaping.specs.Replacing.{replacement};
ghost use Rattle.pybuf_shaping.specs.Digits.{hex_text};
ghost use Rattle.pybuf_scoped.specs.declared.stop.Cause.{Cause};
ghost use Rattle.pybuf_scoped.specs.Stops.{Tells, LendsBytes};
ghost use Rattle.pybuf_scoped.specs.Contents.{view_bytes, view_run, LendsContent, FindsIn, CountsIn, SplitsAt, ReplacesIn, StripsTo, WritesDigits, ComparesWith};
ghost use Rattle.pybuf_scoped.specs.Views.{entries_of, EndsWith, ReadsItem, ReadsBytes, Puts, AssignsBytes, AssignsItems};

use crate::owner::Owner;
use crate::stop::{Cause, Stop};
use pybuf_command::Subject;
use pybuf_exporter::ExporterState;
use pybuf_letters::{split_at_blanks, strip};
use pybuf_search::{first_place, number_of_matches};
use pybuf_value::{ByteList, ByteLists, Fault, Halt, Item, Lent, Outcome, PySlice, Text};
use std::alloc::Global;

/// The number of entries of the first dimension of a view, and 0 if it has none.
#[inline(always)]
pub(crate) fn entries(state: &ExporterState, view: usize) -> usize
    ensures { result ≡ entries_of state.now.exporter view }
{
    match state.view_desc(view) {
        Some((descriptor, _)) => match descriptor.dim_desc().first() {
            Some((n, _, _)) => *n,
            None => 0,
        },
        None => 0,
    }
}

/// The item at an index.
#[inline(always)]
pub(crate) fn item<O: Owner>(owner: &O, view: usize, index: isize) -> Result<Item, Stop>
    ensures answer { ReadsItem (O.exporter owner.now) view index result }
    ensures cause { Tells (Cause.Index index (entries_of (O.exporter owner.now) view)) result }
{
    let state = owner.exporter();
    match state.item(view, index) {
        Ok(item) => Ok(item),
        Err(halt) => {
            let length = entries(state, view);
            Err(Stop::new(halt, Cause::Index { index, length }))
        }
    }
}

/// Puts a number as the item at an index.
#[inline(always)]
pub(crate) fn put<O: Owner>(
    owner: &mut O,
    view: usize,
    index: isize,
    number: i128,
) -> Result<(), Stop>
    ensures answer { Puts (O.exporter owner.old) view index number result (O.exporter owner.new) }
    ensures owner { EndsWith O.with owner.old (O.exporter owner.new) owner.new }
    ensures cause { Tells (Cause.Number number index (entries_of (O.exporter owner.old) view)) result }
{
    let length = entries(owner.exporter(), view);
    match owner.exporter_mut().put_number(view, index, number) {
        Ok(()) => Ok(()),
        Err(halt) => Err(Stop::new(
            halt,
            Cause::Number {
                number,
                index,
                length,
            },
        )),
    }
}

/// Writes bytes over the items that a slice picks.
#[inline(always)]
pub(crate) fn assign<O: Owner, S: Into<PySlice>>(
    owner: &mut O,
    view: usize,
    slice: S,
    bytes: &[u8],
) -> Result<(), Stop>
    ensures answer { AssignsBytes (S.converts slice) view bytes.now (O.exporter owner.old) result (O.exporter owner.new) }
    ensures owner { EndsWith O.with owner.old (O.exporter owner.new) owner.new }
    ensures cause { Tells (Cause.Bytes (length bytes.now) (entries_of (O.exporter owner.old) view)) result }
{
    let length = entries(owner.exporter(), view);
    let given = bytes.len();
    match owner
        .exporter_mut()
        .assign_bytes(view, &slice.into(), bytes)
    {
        Ok(()) => Ok(()),
        Err(halt) => Err(Stop::new(halt, Cause::Bytes { given, length })),
    }
}

/// Writes the items of a view of another exporter over those that a slice picks.
#[inline(always)]
pub(crate) fn assign_across<O: Owner, S: Into<PySlice>>(
    owner: &mut O,
    view: usize,
    slice: S,
    lender: &ExporterState,
    source: usize,
) -> Result<(), Stop>
    ensures answer { AssignsItems (S.converts slice) view lender.now.exporter source (O.exporter owner.old) result (O.exporter owner.new) }
    ensures owner { EndsWith O.with owner.old (O.exporter owner.new) owner.new }
    ensures cause { Tells (Cause.Items (entries_of lender.now.exporter source) (entries_of (O.exporter owner.old) view)) result }
{
    let length = entries(owner.exporter(), view);
    let given = entries(lender, source);
    match owner
        .exporter_mut()
        .assign_across(view, &slice.into(), lender, source)
    {
        Ok(()) => Ok(()),
        Err(halt) => Err(Stop::new(halt, Cause::Items { given, length })),
    }
}

/// Writes the items of another view of the same exporter over those that a slice picks.
#[inline(always)]
pub(crate) fn assign_within<O: Owner, S: Into<PySlice>>(
    owner: &mut O,
    view: usize,
    slice: S,
    source: usize,
) -> Result<(), Stop>
    ensures answer { AssignsItems (S.converts slice) view (O.exporter owner.old) source (O.exporter owner.old) result (O.exporter owner.new) }
    ensures owner { EndsWith O.with owner.old (O.exporter owner.new) owner.new }
    ensures cause { Tells (Cause.Items (entries_of (O.exporter owner.old) source) (entries_of (O.exporter owner.old) view)) result }
{
    let length = entries(owner.exporter(), view);
    let given = entries(owner.exporter(), source);
    match owner
        .exporter_mut()
        .assign_within(view, &slice.into(), source)
    {
        Ok(()) => Ok(()),
        Err(halt) => Err(Stop::new(halt, Cause::Items { given, length })),
    }
}

/// A copy of the bytes of the items.
pub(crate) fn to_vec<O: Owner>(owner: &O, view: usize) -> Result<Vec<u8>, Stop>
    ensures answer { ReadsBytes (O.exporter owner.now) view result }
    ensures cause { Tells Cause.Content result }
{
    match owner.exporter().content(view) {
        Ok(bytes) => Ok(bytes),
        Err(halt) => Err(Stop::new(halt, Cause::Content)),
    }
}

/// The bytes of the items, where they lie one after the other.
#[inline(always)]
pub(crate) fn run<O: Owner>(owner: &O, view: usize) -> Result<&[u8], Stop>
    ensures answer { LendsBytes (view_run (O.exporter owner.now) view) result }
    ensures cause { Tells Cause.Content result }
{
    match owner.exporter().run_of(Subject::View(view)) {
        Ok(bytes) => Ok(bytes),
        Err(fault) => Err(Stop::new(Halt::Refused(fault), Cause::Content)),
    }
}

/// The bytes of the items, which are copied only where they lie apart.
pub(crate) fn content<O: Owner>(
    alloc: Global,
    owner: &O,
    view: usize,
    cause: Cause,
) -> Result<Lent<'_>, Stop>
    ensures answer { LendsContent (view_bytes (O.exporter owner.now) view) result }
    ensures cause { Tells cause result }
{
    match owner.exporter().content_of(alloc, Subject::View(view)) {
        Ok(bytes) => Ok(bytes),
        Err(halt) => Err(Stop::new(halt, cause)),
    }
}

/// Where the first match of a needle begins.
pub(crate) fn find<O: Owner>(
    alloc: Global,
    owner: &O,
    view: usize,
    needle: &[u8],
) -> Result<Option<usize>, Stop>
    ensures answer { FindsIn (view_bytes (O.exporter owner.now) view) needle.now result }
    ensures cause { Tells Cause.Content result }
{
    let bytes = content(alloc, owner, view, Cause::Content)?;
    Ok(first_place(bytes.as_slice(), needle))
}

/// The number of matches of a needle.
pub(crate) fn count<O: Owner>(
    alloc: Global,
    owner: &O,
    view: usize,
    needle: &[u8],
) -> Result<usize, Stop>
    ensures answer { CountsIn (view_bytes (O.exporter owner.now) view) needle.now result }
    ensures cause { Tells Cause.Content result }
{
    let bytes = content(alloc, owner, view, Cause::Content)?;
    Ok(number_of_matches(bytes.as_slice(), needle))
}

/// The parts of bytes between the matches of a separator, or between blanks.
fn parts_of(
    alloc: Global,
    bytes: &[u8],
    separator: Option<&[u8]>,
    most: isize,
) -> Result<ByteLists, Halt>
    ensures { Gives (split_of (option_copied separator.entry) most bytes.now) result }
{
    match separator {
        None => Ok(split_at_blanks(alloc, bytes, most)?),
        Some(separator) => {
            if separator.is_empty() {
                return Err(Halt::Refused(Fault::Value));
            }
            Ok(pybuf_search::split(alloc, bytes, separator, most)?)
        }
    }
}

/// The parts of the bytes of the items.
pub(crate) fn split<O: Owner>(
    alloc: Global,
    owner: &O,
    view: usize,
    separator: Option<&[u8]>,
    most: isize,
) -> Result<ByteLists, Stop>
    ensures answer { SplitsAt (view_bytes (O.exporter owner.now) view) (option_copied separator.entry) most result }
    ensures cause { Tells Cause.Parts result }
{
    let bytes = content(alloc, owner, view, Cause::Parts)?;
    match parts_of(alloc, bytes.as_slice(), separator, most) {
        Ok(parts) => Ok(parts),
        Err(halt) => Err(Stop::new(halt, Cause::Parts)),
    }
}

/// Bytes with others in place of the first matches of a needle.
fn replaced(
    alloc: Global,
    bytes: &[u8],
    old: &[u8],
    new: &[u8],
    most: isize,
) -> Result<ByteList, Halt>
    ensures { Gives (replacement most old.now new.now bytes.now) result }
{
    match pybuf_shaping::replace(alloc, bytes, old, new, most)? {
        Outcome::Done(bytes) => Ok(bytes),
        Outcome::Refused(fault) => Err(Halt::Refused(fault)),
    }
}

/// The bytes of the items, with others in place of the first matches of a needle.
pub(crate) fn replace<O: Owner>(
    alloc: Global,
    owner: &O,
    view: usize,
    old: &[u8],
    new: &[u8],
    most: isize,
) -> Result<ByteList, Stop>
    ensures answer { ReplacesIn (view_bytes (O.exporter owner.now) view) old.now new.now most result }
    ensures cause { Tells Cause.Replaced result }
{
    let bytes = content(alloc, owner, view, Cause::Replaced)?;
    match replaced(alloc, bytes.as_slice(), old, new, most) {
        Ok(bytes) => Ok(bytes),
        Err(halt) => Err(Stop::new(halt, Cause::Replaced)),
    }
}

/// The bytes of the items without some at both ends, where they lie one after the other.
pub(crate) fn stripped<'a, O: Owner>(
    owner: &'a O,
    view: usize,
    chars: Option<&[u8]>,
) -> Result<&'a [u8], Stop>
    ensures answer { StripsTo (view_run (O.exporter owner.now) view) (option_copied chars.entry) result }
    ensures cause { Tells Cause.Content result }
{
    let bytes = run(owner, view)?;
    Ok(strip(bytes, chars))
}

/// The hexadecimal digits of bytes.
fn digits_of(
    alloc: Global,
    bytes: &[u8],
    separator: Option<&[u8]>,
    size: isize,
) -> Result<Text, Halt>
    ensures { Gives (hex_text (option_copied separator.entry) size bytes.now) result }
{
    match pybuf_shaping::hex_text(alloc, bytes, separator, size)? {
        Outcome::Done(text) => Ok(text),
        Outcome::Refused(fault) => Err(Halt::Refused(fault)),
    }
}

/// The hexadecimal digits of the bytes of the items.
pub(crate) fn hex<O: Owner>(
    alloc: Global,
    owner: &O,
    view: usize,
    separator: Option<&[u8]>,
    size: isize,
) -> Result<Text, Stop>
    ensures answer { WritesDigits (view_bytes (O.exporter owner.now) view) (option_copied separator.entry) size result }
    ensures cause { Tells Cause.Digits result }
{
    let bytes = content(alloc, owner, view, Cause::Digits)?;
    match digits_of(alloc, bytes.as_slice(), separator, size) {
        Ok(text) => Ok(text),
        Err(halt) => Err(Stop::new(halt, Cause::Digits)),
    }
}

/// Whether the bytes of the items are these.
pub(crate) fn equals<O: Owner>(
    alloc: Global,
    owner: &O,
    view: usize,
    other: &[u8],
) -> Result<bool, Stop>
    ensures answer { ComparesWith (view_bytes (O.exporter owner.now) view) other.now result }
    ensures cause { Tells Cause.Content result }
{
    let bytes = content(alloc, owner, view, Cause::Content)?;
    Ok(bytes.as_slice() == other)
}
