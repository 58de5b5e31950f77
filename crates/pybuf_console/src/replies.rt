//! What a reply tells, by its kind.
ghost use Rattle.std.specs.Prelude.{◌≡◌, ℕ, Some, None, MatchOption};
ghost use Rattle.std.specs.Option.{option_copied};
ghost use Rattle.pybuf_console.specs.Replies as spec;

use pybuf_command::Reply;
use pybuf_value::{Item, Scalar};

/// The handles of the objects that a reply names. It is one handle twice, or that of an exporter and that of its
/// view, and None where a reply names none. Takes no memory.
/// Example: of `Reply::Handle(3)` it is `Some((3, 3))`, and of `Reply::Pair { exporter: 4, view: 5 }` `Some((4, 5))`.
pub fn objects_of(reply: &Reply) -> Option<(u64, u64)>
    ensures { result ≡ spec.objects_of reply.now }
{
    match reply {
        Reply::Handle(handle) => Some((*handle, *handle)),
        Reply::Pair { exporter, view } => Some((*exporter, *view)),
        _ => None,
    }
}

/// A truth value as 0 or 1.
#[inline(always)]
fn truth_number(truth: bool) -> i128
    ensures { result ≡ spec.truth_number truth }
{
    if truth { 1 } else { 0 }
}

/// A number, or a truth value as 0 or 1.
#[inline(always)]
fn number_of_scalar(scalar: &Scalar) -> Option<i128>
    ensures { result ≡ spec.number_of_scalar scalar.now }
{
    match scalar {
        Scalar::Int(number) => Some(*number),
        Scalar::Bool(truth) => Some(truth_number(*truth)),
        _ => None,
    }
}

#[inline(always)]
fn number_of_item(item: &Item) -> Option<i128>
    ensures { result ≡ spec.number_of_item item.now }
{
    match item {
        Item::One(scalar) => number_of_scalar(scalar),
        Item::Many(_) => None,
    }
}

/// The number that a reply is, or 0 or 1 for a truth value. It is None where a reply is neither. Takes no memory.
/// Example: of the item 3 it is `Some(3)`, and of `Reply::Truth(true)` `Some(1)`.
#[inline(always)]
pub fn number_of(reply: &Reply) -> Option<i128>
    ensures { result ≡ spec.number_of reply.now }
{
    match reply {
        Reply::Item(item) => number_of_item(item),
        Reply::Truth(truth) => Some(truth_number(*truth)),
        _ => None,
    }
}

/// The bytes of an item that is bytes.
fn bytes_of_item(item: &Item) -> Option<&[u8]>
    ensures { MatchOption result (spec.bytes_of_item item.now ≡ None) (λ bytes. spec.bytes_of_item item.now ≡ Some bytes.now) }
{
    match item {
        Item::One(Scalar::Bytes(bytes)) => Some(bytes.as_slice()),
        _ => None,
    }
}

/// The bytes that a reply is, or those of its text.
pub fn bytes_of(reply: &Reply) -> Option<&[u8]>
    ensures { MatchOption result (spec.bytes_of reply.now ≡ None) (λ bytes. spec.bytes_of reply.now ≡ Some bytes.now) }
{
    match reply {
        Reply::Bytes(bytes) => Some(bytes.as_slice()),
        Reply::Text(text) => Some(text.as_slice()),
        Reply::Shown(text) => Some(text.as_slice()),
        Reply::Item(item) => bytes_of_item(item),
        _ => None,
    }
}

/// How many parts a reply of several numbers or items has, and 0 of every other reply. Takes no memory.
/// Example: of the numbers of `shape` in two dimensions it is 2.
pub fn part_count(reply: &Reply) -> usize
    ensures { result ≡ spec.part_count reply.now }
{
    match reply {
        Reply::Numbers(numbers) => numbers.len(),
        Reply::Items { shape: _, items } => items.len(),
        _ => 0,
    }
}

fn number_at_item(item: Option<&Item>) -> Option<i128>
    ensures { result ≡ spec.number_at_item (option_copied item.entry) }
{
    match item {
        Some(item) => number_of_item(item),
        None => None,
    }
}

/// The number at a place of a reply that has several, counted from 0. It is None where there is none. Takes no
/// memory.
/// Example: of the numbers 2 and 3 the place 1 has `Some(3)`.
pub fn part_at(reply: &Reply, index: usize) -> Option<i128>
    ensures { result ≡ spec.part_at reply.now index }
{
    match reply {
        Reply::Numbers(numbers) => numbers.as_slice().get(index).copied(),
        Reply::Items { shape: _, items } => number_at_item(items.as_slice().get(index)),
        _ => None,
    }
}

/// Which kind a reply is of, as a number: 0 `Ok`, 1 a handle, 2 a pair, 3 an item, 4 items, 5 bytes, 6 a text, 7 a
/// shown text, 8 a truth value, 9 `NotImplemented`, 10 numbers, 11 lists of bytes, 12 `stop`, 13 a refusal. Takes no
/// memory.
/// Example: of `Reply::Stop` it is 12.
pub fn kind_of(reply: &Reply) -> u32
    ensures { result ≡ spec.kind_of reply.now }
{
    match reply {
        Reply::Ok => 0,
        Reply::Handle(_) => 1,
        Reply::Pair { .. } => 2,
        Reply::Item(_) => 3,
        Reply::Items { .. } => 4,
        Reply::Bytes(_) => 5,
        Reply::Text(_) => 6,
        Reply::Shown(_) => 7,
        Reply::Truth(_) => 8,
        Reply::NotImplementedReply => 9,
        Reply::Numbers(_) => 10,
        Reply::ByteLists(_) => 11,
        Reply::Stop => 12,
        Reply::Refused(_) => 13,
    }
}
