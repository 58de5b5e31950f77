//! The calls of `VecBuffer`, `PyBuffer` and `PyMemoryView` that make views without a command: no line of the program
//! makes one by a descriptor of its own, or of a buffer.
ghost use Rattle.std.specs.Prelude.{◌≡◌, true};
ghost use Rattle.pybuf_state.specs.Live.{is_live};

use crate::answers::{Word, described, say};
use pybuf_buffer::{PyBuffer, Steps};
use pybuf_command::{ExporterKind, Subject};
use pybuf_exporter::ExporterState;
use pybuf_memoryobject::{PyMemoryView, VecBuffer};
use pybuf_value::{Made, Outcome};
use std::alloc::Global;
use std::marker::Brand;
use std::ops::Range;
use std::sync::ledger::{Blank, Ledger};
use std::test::Fail;

/// Buffer 0 of a vector, of every other byte.
fn lend(lent: &mut VecBuffer, alloc: Global, told: &mut Vec<u8>) -> Made<()> {
    let descriptor = described(alloc, "B", 1, &[(3, 2, 0)])?;
    if lent.state().kind() != (ExporterKind::Vector { readonly: false }) {
        return Ok(());
    }
    if let Outcome::Done(buffer) = lent.into_pybuffer_with_descriptor(descriptor)? {
        say(told, Word::Count(buffer.number()));
    }
    Ok(())
}

/// Appends the bytes of a buffer, counted by a caller's counter.
fn append<L: Ledger>(
    buffer: &PyBuffer,
    state: &ExporterState,
    bytes: &mut Vec<u8>,
    blank: Blank,
) -> Made<()>
    requires live { is_live state.now.exporter buffer.now ≡ true }
    requires name { blank.name ≡ L.name }
    requires parts { blank.parts ≡ L.parts }
    requires one { blank.parts ≡ 1 }
{
    buffer.append_to(state, bytes, &mut Steps::<L>::new(blank))
}

/// The number and the bytes of buffer 0, which don't lie together, and those of a copy of it.
fn read(state: &ExporterState, alloc: Global, told: &mut Vec<u8>) -> Made<()> {
    let buffer = PyBuffer::of(0);
    if !buffer.is_live(state) {
        return Ok(());
    }
    let count = buffer.contiguous_or_collect(alloc, state, |bytes| bytes.len())?;
    say(told, Word::Count(count));
    append::<Brand>(&buffer, state, told, Blank::new(1))?;
    let (copy, _) = PyMemoryView::of(0).to_contiguous(alloc, state)?;
    say(told, Word::Bytes(copy.bytes()));
    drop(copy);
    Ok(())
}

/// The bytes of a view.
fn tell_view(state: &ExporterState, view: usize, told: &mut Vec<u8>) {
    if let Ok(bytes) = PyMemoryView::of(view).to_vec(state) {
        say(told, Word::Bytes(bytes.as_slice()));
    }
}

/// One more view of buffer 0.
fn keep(state: &mut ExporterState, alloc: Global, told: &mut Vec<u8>) -> Made<()> {
    let buffer = PyBuffer::of(0);
    if !buffer.is_live(state) {
        return Ok(());
    }
    let twin = buffer.retain(alloc, state)?;
    tell_view(state, twin.number(), told);
    Ok(())
}

/// A memoryview of buffer 0, and one more of that.
fn view_buffer(state: &mut ExporterState, alloc: Global, told: &mut Vec<u8>) -> Made<()> {
    let buffer = PyBuffer::of(0);
    if !buffer.is_live(state) {
        return Ok(());
    }
    let view = PyMemoryView::from_buffer(alloc, state, &buffer)?;
    if !PyBuffer::of(view.number()).is_live(state) {
        return Ok(());
    }
    let twin = view.new_view(alloc, state)?;
    tell_view(state, twin.number(), told);
    Ok(())
}

/// A memoryview of a range of the items of buffer 0, where they are there.
fn view_range(
    state: &mut ExporterState,
    alloc: Global,
    range: Range<usize>,
    told: &mut Vec<u8>,
) -> Made<()> {
    let buffer = PyBuffer::of(0);
    if !buffer.is_live(state) {
        return Ok(());
    }
    if !buffer.has_entries(state, &range) {
        return Ok(());
    }
    let part = PyMemoryView::from_buffer_range(alloc, state, &buffer, range)?;
    tell_view(state, part.number(), told);
    Ok(())
}

/// A memoryview of all bytes.
fn view_object(state: &mut ExporterState, alloc: Global, told: &mut Vec<u8>) -> Made<()> {
    if let Outcome::Done(view) = PyMemoryView::from_object(alloc, state, Subject::Own)? {
        tell_view(state, view.number(), told);
    }
    Ok(())
}

fn lend_and_view(lent: &mut VecBuffer, alloc: Global, told: &mut Vec<u8>) -> Made<()> {
    lend(lent, alloc, told)?;
    read(lent.state(), alloc, told)?;
    let state = lent.state_mut();
    keep(state, alloc, told)?;
    view_buffer(state, alloc, told)?;
    view_range(state, alloc, 1..3, told)?;
    view_object(state, alloc, told)
}

/// As `memoryview(b'abcdef')[::2]` of Python 3, a slice `[1:3]` of it, and its bytes.
#[test]
fn views_are_made_of_a_buffer(rt: HostRuntime) -> Result<(), Fail> {
    let alloc = rt.alloc();
    let mut told = Vec::new(alloc);
    let mut lent = VecBuffer::from(alloc, Vec::from_slice(alloc, b"abcdef")?);
    let done = lend_and_view(&mut lent, alloc, &mut told);
    drop(lent);
    done?;
    let (state, buffer) = PyBuffer::from_byte_vector(alloc, Vec::from_slice(alloc, b"xyz")?)?;
    say(&mut told, Word::Bytes(state.bytes()));
    say(&mut told, Word::Count(buffer.number()));
    drop(state);
    assert_eq!(rt;
        told.as_slice(),
        b"0; 3ace; b'ace'; b'ace'; b'ace'; b'ce'; b'abcdef'; b'xyz'; 0".as_slice()
    );
    Ok(())
}
