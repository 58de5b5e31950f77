//! A history that is handed over in parts: each part begins with the state that the part before handed over.
ghost use Rattle.std.specs.Prelude.{◌≡◌};

use crate::asking::append;
use pybuf_command::ExporterKind;
use pybuf_exporter::ExporterState;
use pybuf_share::{Begun, FinishFault, Part, PartExporter};
use pybuf_value::{ByteList, Made};
use std::alloc::Global;
use std::marker::Brand;
use std::sync::Wait;
use std::sync::ledger::{Blank, Ledger};
use std::test::Fail;

/// What a part hands over, as the number of its entries and the state.
fn handed(answer: Result<Part, FinishFault>) -> Option<(usize, ExporterState)> {
    match answer {
        Ok(Part { entries, state }) => Some((entries.len(), state)),
        Err(fault) => {
            drop(fault);
            None
        }
    }
}

/// A part in which one session appends a byte twice.
fn part_of<L: Ledger + Begun, R: Wait>(
    rt: &R,
    alloc: Global,
    blank: Blank,
    state: ExporterState,
    byte: u8,
) -> Made<Option<(usize, ExporterState)>>
    requires name { blank.name ≡ L.name }
    requires parts { blank.parts ≡ L.parts }
    requires one { blank.parts ≡ 1 }
    requires begun { state.exporter ≡ L.opening }
{
    let (exporter, mut sessions) = PartExporter::<L>::start_from(alloc, blank, state, 1)?;
    let Some(mut session) = sessions.pop() else {
        return Ok(None);
    };
    exporter.call(rt, &mut session, append(alloc, byte))?;
    exporter.call(rt, &mut session, append(alloc, byte))?;
    sessions.push(session)?;
    Ok(handed(exporter.finish_part(sessions)))
}

fn part_by_brand<R: Wait>(
    rt: &R,
    alloc: Global,
    state: ExporterState,
    byte: u8,
) -> Made<Option<(usize, ExporterState)>> {
    part_of::<Brand, R>(rt, alloc, Blank::new(1), state, byte)
}

/// Three parts of two bytes each: how many entries each part had is told, and the bytes at the end.
fn in_three_parts<R: Wait>(rt: &R, alloc: Global, told: &mut Vec<u8>) -> Made<()> {
    let bytes = ByteList::from_slice(alloc, b"a")?;
    let mut state = ExporterState::new(alloc, ExporterKind::ByteArray, bytes);
    for byte in b'b'..b'e' {
        match part_by_brand(rt, alloc, state, byte)? {
            Some((entries, after)) => {
                told.push((entries % 256) as u8)?;
                state = after;
            }
            None => return Ok(()),
        }
    }
    told.extend_from_slice(state.bytes())?;
    Ok(())
}

#[test]
fn a_history_is_handed_over_in_parts(rt: HostRuntime) -> Result<(), Fail> {
    let mut told = Vec::new(rt.alloc());
    in_three_parts(&rt, rt.alloc(), &mut told)?;
    assert_eq!(rt; told.as_slice(), b"\x02\x02\x02abbccdd".as_slice());
    Ok(())
}
