//! Devices in memory that fail at each of their calls in turn, and an input that is cut at each place.
use pybuf_cli::{ListSink, ListSource, Sink, Source, Status, serve_alone, serve_bytes};
use pybuf_value::{ByteList, CountList, Made};
use std::alloc::Global;
use std::test::Fail;

/// The six lines of the program's stored run, and what is written for them.
const INPUT: &[u8] =
    b"new bytearray x616263\nview h0\nset h1 0 65\nget h1 0\nbytes h1\nrelease h1\n";

const OUTPUT: &[u8] = b"h0\nh1\nok\n65\nb'Abc'\nok\n";

/// A header that is written through casts, of which no command is refused for its values.
const HEADER: &[u8] = b"new bytearray 16\nview h0\nset h1 0:4:None x50425546\n\
get h1 4:8:None\ncast h2 'H'\nset h3 0 1\nset h3 1 258\nget h1 8:16:None\ncast h4 'I'\n\
set h5 0 5\nset h5 1 4294967295\nhex h1\nappend h0 104\nrelease h1\nrelease h2\nrelease h3\n\
release h4\nrelease h5\nextend h0 x68656c6c6f\nlen h0\n";

/// A call that no device comes to.
const NEVER: usize = usize::MAX;

/// How a run ended, how often a device failed, how many bytes were left to be read, how many were put, and whether these
/// are the front of what was due.
type Ended = (Status, u64, usize, usize, bool);

/// A run that nothing stopped.
const WHOLE: Ended = (Status::Done, 0, 0, OUTPUT.len(), true);

fn bytes(alloc: Global, bytes: &[u8]) -> Made<ByteList> {
    Ok(ByteList::from_vec(Vec::from_slice(alloc, bytes)?))
}

fn only(alloc: Global, number: usize) -> Made<CountList> {
    let mut numbers = CountList::new(alloc);
    numbers.push(number)?;
    Ok(numbers)
}

/// A source that moves a byte of the input at each call, and fails at this one.
fn source(alloc: Global, failing: usize) -> Made<ListSource> {
    let calls = only(alloc, failing)?;
    Ok(ListSource::new(bytes(alloc, INPUT)?, 1, calls))
}

/// A sink that puts a byte at each call, and fails at this one.
fn sink(alloc: Global, failing: usize) -> Made<ListSink> {
    Ok(ListSink::new(alloc, 1, only(alloc, failing)?))
}

/// How a run ends whose devices fail at these calls.
fn run(alloc: Global, read: usize, write: usize) -> Made<Ended> {
    let mut source = source(alloc, read)?;
    let mut sink = sink(alloc, write)?;
    let status = serve_alone(alloc, &[], &mut source, &mut sink);
    let faults = source.faults().wrapping_add(sink.faults());
    let put = sink.bytes();
    Ok((
        status,
        faults,
        source.left().len(),
        put.len(),
        OUTPUT.starts_with(put),
    ))
}

// A source makes a call for each byte, and one more that finds the end. A sink makes a call for each byte. If a call
// fails, what was put before it is the front of what was due.
#[test]
fn devices_fail_at_each_of_their_calls(rt: HostRuntime) -> Result<(), Fail> {
    for call in 0..=INPUT.len() {
        let ended = (Status::ReadFault, 1, INPUT.len() - call, 0, true);
        assert!(rt; run(rt.alloc(), call, NEVER)? == ended);
    }
    for call in 0..OUTPUT.len() {
        let ended = (Status::WriteFault, 1, 0, call, true);
        assert!(rt; run(rt.alloc(), NEVER, call)? == ended);
    }
    assert!(rt; run(rt.alloc(), INPUT.len() + 1, OUTPUT.len())? == WHOLE);
    Ok(())
}

// Wherever an input is cut, either its lines are commands or the program says that one of them isn't.
#[test]
fn an_input_is_cut_at_each_place(rt: HostRuntime) -> Result<(), Fail> {
    for place in 0..=HEADER.len() {
        let input = bytes(rt.alloc(), &HEADER[..place])?;
        let (_, status) = serve_bytes(rt.alloc(), &[], input);
        assert!(rt; status == Status::Done || status == Status::BadLine);
    }
    Ok(())
}
