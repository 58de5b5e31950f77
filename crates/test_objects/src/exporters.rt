//! The calls of an exporter that no line of the program makes: a copy, and a command whose moved bytes are counted.
ghost use Rattle.std.specs.Prelude.{◌≡◌, []};

use crate::answers::{Word, exporter_of, none, number, say, tell};
use pybuf_command::{LocalCommand, Subject, Verb};
use pybuf_exporter::ExporterState;
use pybuf_value::{Steps, Twin};
use std::alloc::Global;
use std::marker::Brand;
use std::sync::ledger::{Blank, Ledger};
use std::test::Fail;

/// Takes the first byte out.
fn pop_first(alloc: Global) -> LocalCommand
    ensures { result.loans ≡ [] }
{
    LocalCommand {
        subject: Subject::Own,
        verb: Verb::Pop {
            index: Some(number(0)),
        },
        loans: none(alloc),
    }
}

/// Takes the first byte out, and tells the bytes and the room before them.
fn count<L: Ledger>(state: &mut ExporterState, alloc: Global, told: &mut Vec<u8>, blank: Blank)
    requires name { blank.name ≡ L.name }
    requires parts { blank.parts ≡ L.parts }
    requires one { blank.parts ≡ 1 }
{
    let command = pop_first(alloc);
    let answer = state.step_counted(&command, &mut Steps::<L>::new(blank));
    drop(command);
    tell(told, alloc, answer);
    say(told, Word::Bytes(state.bytes()));
    say(told, Word::Count(state.front_room()));
}

fn count_by_brand(state: &mut ExporterState, alloc: Global, told: &mut Vec<u8>) {
    count::<Brand>(state, alloc, told, Blank::new(1));
}

/// As `b.pop(0)` of Python 3, where `b = bytearray(b'abcd')`; what is taken from the front is left as room. The copy,
/// which was made before, stays.
#[test]
fn an_exporter_is_copied_and_counts(rt: HostRuntime) -> Result<(), Fail> {
    let alloc = rt.alloc();
    let mut told = Vec::new(alloc);
    let mut state = exporter_of(alloc, b"abcd")?;
    let copy = state.copy(alloc);
    count_by_brand(&mut state, alloc, &mut told);
    drop(state);
    if let Ok(copy) = copy {
        say(&mut told, Word::Bytes(copy.bytes()));
        drop(copy);
    }
    assert_eq!(rt; told.as_slice(), b"97; b'bcd'; 1; b'abcd'".as_slice());
    Ok(())
}
