//! An exporter that goes from one thread to many and back, with its view.

use crate::asking::{append, asked, is_buffer_error, is_done, is_first_view};
use pybuf_command::{ExporterKind, Subject, Verb};
use pybuf_exporter::ExporterState;
use pybuf_locked::{Anything, LockedExporter, ViewMadeAt, commands_keep_views};
use pybuf_value::{ByteList, Made};
use std::alloc::Global;
use std::sync::Wait;
use std::test::Fail;
use std::thread;
use std::thread::Threads;

/// How many threads there are.
const THREADS: usize = 4;

/// Makes a view. Tells whether it is the first one.
fn view_once<R: Wait>(rt: &R, alloc: Global, shared: &LockedExporter<Anything>) -> bool {
    let command = asked(alloc, Subject::Own, Verb::View);
    let answer = shared.call(rt, &command);
    drop(command);
    is_first_view(answer)
}

/// Appends a byte while the view is out. The length that is found then, if the byte was refused; else 0.
fn append_in_vain<R: Wait>(rt: &R, alloc: Global, shared: &LockedExporter<ViewMadeAt>) -> usize {
    commands_keep_views();
    let command = append(alloc, b'd');
    let answer = shared.call(rt, &command);
    drop(command);
    if !is_buffer_error(answer) {
        return 0;
    }
    shared.read(rt).state().bytes().len()
}

/// What each of the threads finds, together.
fn lengths_of_all<R: Threads + Wait + Sync>(
    rt: &R,
    alloc: Global,
    shared: &LockedExporter<ViewMadeAt>,
) -> Made<usize> {
    let mut found = Vec::new(alloc);
    for _ in 0..THREADS {
        found.push(0)?;
    }
    thread::for_each_mut(
        rt,
        found.as_mut_slice(),
        THREADS,
        &|_, length| *length = append_in_vain(rt, alloc, shared),
    );
    let mut sum = 0usize;
    for length in found.as_slice() {
        sum = sum.wrapping_add(*length);
    }
    Ok(sum)
}

/// Does a command of an exporter under no lock. Tells whether it was done.
fn does(alloc: Global, state: &mut ExporterState, subject: Subject, verb: Verb) -> bool {
    let command = asked(alloc, subject, verb);
    let answer = state.step(&command);
    drop(command);
    is_done(answer)
}

/// Appends a byte of an exporter under no lock. Tells whether it was done.
fn appends(alloc: Global, state: &mut ExporterState, byte: u8) -> bool {
    let command = append(alloc, byte);
    let answer = state.step(&command);
    drop(command);
    is_done(answer)
}

/// As Python: while a memoryview of `bytearray(b"abc")` is out, `append` raises `BufferError`.
#[test]
fn an_exporter_goes_to_many_threads_and_back(rt: HostRuntime) -> Result<(), Fail> {
    let alloc = rt.alloc();
    let bytes = ByteList::from_slice(alloc, b"abc")?;
    let first = LockedExporter::start(alloc, ExporterKind::ByteArray, bytes, Anything);
    assert!(rt; view_once(&rt, alloc, &first));
    let (state, _) = first.finish();
    let fact = ViewMadeAt::of_live(&state, 0);
    let Some(fact) = fact else {
        return Err(Fail::from("no view"));
    };
    let shared = LockedExporter::start_from(state, fact);
    assert_eq!(rt; lengths_of_all(&rt, alloc, &shared)?, 12);
    let (mut state, fact) = shared.finish();
    assert_eq!(rt; fact.length, 3);
    assert_eq!(rt; state.exports(), 1);
    assert!(rt; does(alloc, &mut state, Subject::View(0), Verb::Release));
    assert!(rt; appends(alloc, &mut state, b'd'));
    assert!(rt; state.bytes() == b"abcd".as_slice());
    assert!(rt; ViewMadeAt::of_live(&state, 0).is_none());
    Ok(())
}
