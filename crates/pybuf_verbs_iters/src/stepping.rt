//! The next item of an iterator, how many are left, and the place that it is moved to.
ghost use Rattle.std.specs.Prelude.{◌≡◌, ◌<◌, ◌^◌, IfOk, IsOk, IfSome, length};
ghost use Rattle.pybuf_value.specs.Halting.{Gives};
ghost use Rattle.pybuf_desc.specs.Slices.{first_entry};
ghost use Rattle.pybuf_command.specs.declared.kinds.Subject.TheVariants as subjects;
ghost use Rattle.pybuf_state.specs.Exporter.{exports_of};
ghost use Rattle.pybuf_state.specs.Answers.{exporter_of, IsWhole, AnswersIn, ReadsIn};
ghost use Rattle.pybuf_verbs_iters.specs.Iterators as spec;

use pybuf_command::{LocalReply, Subject, Verb};
use pybuf_memoryview::{KeptLayout, byte_item, item_by};
use pybuf_state::{Parts, StoredIterator};
use pybuf_value::{Fault, Halt, Item, Scalar, Value, index_of};

// ---- `next`

/// The byte of an exporter at a position, as its bytes are now.
fn byte_at(parts: &Parts, position: usize) -> Option<Item>
    ensures value { result ≡ spec.byte_at (exporter_of parts.now) position }
    ensures inside { IfSome result (λ _. position < 2 ^ 63) }
{
    match parts.bytes.get(position) {
        Some(byte) => Some(byte_item(byte)),
        None => None,
    }
}

/// How many entries an iterator over a view goes along.
fn entries_of(layout: &KeptLayout) -> usize
    ensures value { result ≡ first_entry layout.now.shape }
    ensures small { result < 2 ^ 63 }
{
    if layout.ndim() == 0 {
        return 1;
    }
    layout.first_entry()
}

/// The item of a view at a position, none past its end.
///
/// Refused with `ValueError` for a released view, and with `NotImplementedError` where an entry is no
/// item.
fn item_of_view(parts: &Parts, view: usize, position: usize) -> Result<Option<Item>, Halt>
    requires { IsWhole parts.now }
    ensures value { Gives (spec.item_over (exporter_of parts.now) (subjects.View view) position) result }
    ensures inside { IfOk result (λ item. IfSome item (λ _. position < 2 ^ 63)) }
{
    let layout = parts.live_layout(view)?;
    if position >= entries_of(layout) {
        return Ok(None);
    }
    if layout.ndim() != 1 {
        return Err(Halt::Refused(Fault::NotImplemented));
    }
    let place = layout.place(position);
    let bytes = &parts.bytes.as_slice()[place..place + layout.itemsize()];
    let item = item_by(parts.alloc, layout.format_text(), bytes)?;
    Ok(Some(item))
}

/// The item of what an iterator goes over at a position, none past its end.
fn item_over(parts: &Parts, subject: Subject, position: usize) -> Result<Option<Item>, Halt>
    requires { IsWhole parts.now }
    ensures value { Gives (spec.item_over (exporter_of parts.now) subject position) result }
    ensures inside { IfOk result (λ item. IfSome item (λ _. position < 2 ^ 63)) }
{
    match subject {
        Subject::Own => Ok(byte_at(parts, position)),
        Subject::View(view) => item_of_view(parts, view, position),
        Subject::Iter(_) => Err(Halt::Refused(Fault::UnknownName)),
    }
}

/// Replies the item and puts the iterator behind it; where there is none, the iterator is exhausted from
/// now on.
fn moved_on(parts: &mut Parts, k: usize, iterator: StoredIterator, item: Option<Item>) -> LocalReply
    requires whole { IsWhole parts.old }
    requires given { k < length parts.old.iterators.items }
    requires inside { IfSome item (λ _. iterator.position < 2 ^ 63) }
    ensures answer { spec.moved_on (exporter_of parts.old) k iterator item ≡ (exporter_of parts.new, result) }
    ensures counted { parts.new.exports ≡ exports_of (exporter_of parts.new) }
    ensures room { parts.new.bytes.room ≡ parts.old.bytes.room }
{
    match item {
        Some(item) => {
            parts.put_iterator(k, iterator.at(iterator.position() + 1));
            LocalReply::Item(item)
        }
        None => {
            parts.put_iterator(k, iterator.ended());
            LocalReply::Stop
        }
    }
}

/// The next item of an iterator. Once there was none, there is none for ever.
///
/// Refused as the item is, and the iterator is as before then.
fn next(parts: &mut Parts, k: usize) -> Result<LocalReply, Halt>
    requires { IsWhole parts.old }
    ensures answer { AnswersIn parts.old (λ e. spec.next_of_iterator e k) result parts.new }
    ensures counted { parts.new.exports ≡ exports_of (exporter_of parts.new) }
    ensures room { parts.new.bytes.room ≡ parts.old.bytes.room }
{
    let iterator = parts.iterator(k)?;
    if iterator.is_exhausted() {
        return Ok(LocalReply::Stop);
    }
    let item = item_over(parts, iterator.subject(), iterator.position())?;
    Ok(moved_on(parts, k, iterator, item))
}

// ---- how many items are left, and the place that an iterator is moved to

/// The iterator of a number that goes over bytes.
///
/// Refused with `UnknownName` where it goes over a view.
fn iterator_over_bytes(parts: &Parts, k: usize) -> Result<StoredIterator, Fault>
    ensures value { result ≡ spec.iterator_over_bytes (exporter_of parts.now) k }
    ensures given { IsOk result → k < length parts.now.iterators.items }
{
    let iterator = parts.iterator(k)?;
    match iterator.subject() {
        Subject::Own => Ok(iterator),
        _ => Err(Fault::UnknownName),
    }
}

/// How many items are still to come.
fn hint(parts: &Parts, k: usize) -> Result<LocalReply, Halt>
    ensures { ReadsIn parts.now (λ e. spec.hint_of_iterator e k) result }
{
    let iterator = iterator_over_bytes(parts, k)?;
    let mut left = 0;
    if !iterator.is_exhausted() {
        left = parts.bytes.len().saturating_sub(iterator.position());
    }
    Ok(LocalReply::Item(Item::One(Scalar::Int(left as i128))))
}

/// The nearest number from 0 up to a count.
fn clamped(count: usize, number: i128) -> usize
    ensures { result ≡ spec.clamped count number }
{
    if number < 0 {
        return 0;
    }
    if number > count as i128 {
        return count;
    }
    number as usize
}

/// Puts an iterator at another item, and an exhausted one nowhere.
///
/// Refused with `TypeError` where the state is no number.
fn set_state(parts: &mut Parts, k: usize, state: &Value) -> Result<LocalReply, Halt>
    requires { IsWhole parts.old }
    ensures answer { AnswersIn parts.old (λ e. spec.setstate_of_iterator e k state.now) result parts.new }
    ensures counted { parts.new.exports ≡ exports_of (exporter_of parts.new) }
    ensures room { parts.new.bytes.room ≡ parts.old.bytes.room }
{
    let iterator = iterator_over_bytes(parts, k)?;
    if iterator.is_exhausted() {
        return Ok(LocalReply::Ok);
    }
    let number = index_of(state)?;
    let place = clamped(parts.bytes.len(), number);
    parts.put_iterator(k, iterator.at(place));
    Ok(LocalReply::Ok)
}

// ---- the effect of a verb

/// The effect of a verb on an iterator: `iter` replies the iterator itself, `next` its next item or `Stop`, `hint`
/// how many bytes are left, and `setstate` moves it to the nearest place.
///
/// Refused with `UnknownName` for an iterator that was never given, for every other verb, and for `hint` and
/// `setstate` of an iterator over a view; for `setstate` with `TypeError` where the place is no number, unless the
/// iterator is exhausted; and for `next`, unless it is exhausted, with `ValueError` where its view was released, and
/// with `NotImplementedError` where an entry is left and the view hasn't one dimension. Nothing is changed then, nor
/// where memory runs out.
/// Example: over `b"ab"` `Verb::Next` replies the item 97, the item 98, and then `Stop`.
pub fn of_iterator(parts: &mut Parts, k: usize, verb: &Verb) -> Result<LocalReply, Halt>
    requires { IsWhole parts.old }
    ensures answer { AnswersIn parts.old (λ e. spec.effect_on_iterator e k verb.now) result parts.new }
    ensures counted { parts.new.exports ≡ exports_of (exporter_of parts.new) }
    ensures room { parts.new.bytes.room ≡ parts.old.bytes.room }
{
    match verb {
        Verb::Iter => {
            parts.iterator(k)?;
            Ok(LocalReply::Itself)
        }
        Verb::Next => next(parts, k),
        Verb::LengthHint => hint(parts, k),
        Verb::SetState { state } => set_state(parts, k, state),
        _ => Err(Halt::Refused(Fault::UnknownName)),
    }
}
