//! The loops that read a whole input and write a whole text.
ghost use Rattle.std.specs.Prelude.{◌≡◌, ◌≢◌, ◌≤◌, IfOk, OnOk, OnErr, IfErr, length};
ghost use Rattle.pybuf_cli.specs.Devices.{Took, AtEnd, Rose, Puts, PutsPrefix, TookUpTo, TookOneMore};
ghost use Rattle.pybuf_cli.specs.declared.loops.ReadStop.{ReadStop};
ghost use Rattle.pybuf_cli.specs.declared.devices.PutFault.{PutFault};

use crate::devices::{Failed, PutFault, Sink, Source};
use std::alloc::{AllocError, Global};

/// The greatest length of an input, in bytes.
pub const MOST: usize = 1_048_576;

/// As many bytes are taken in one call at most, and with so many waiting a text is put.
pub const PIECE: usize = 65_536;

/// Why an input wasn't read to its end.
#[derive(Clone, Copy, Debug, PartialEq, Eq)]
pub enum ReadStop {
    NoMemory,
    Failed,
    TooLong,
}

impl From<AllocError> for ReadStop {
    ghost from_gives = { λ _ stop. stop ≡ ReadStop.NoMemory };

    fn from(_e: AllocError) -> ReadStop {
        ReadStop::NoMemory
    }
}

impl From<Failed> for ReadStop {
    ghost from_gives = { λ _ stop. stop ≡ ReadStop.Failed };

    fn from(_e: Failed) -> ReadStop {
        ReadStop::Failed
    }
}

/// All bytes of the source, at most `MOST` of them. One more is taken to find that there are more.
pub fn read_all<S: Source>(alloc: Global, source: &mut S) -> Result<Vec<u8>, ReadStop>
    ensures took { IfOk result (λ input. Took (S.bytes_left source.old) input.items (S.bytes_left source.new)) }
    ensures end { OnOk result (AtEnd (S.bytes_left source.new)) }
    ensures limit { IfOk result (λ input. length input.items ≤ MOST) }
    ensures too_long { IfErr result (λ stop. stop ≡ ReadStop.TooLong →
        TookOneMore MOST S.bytes_left source.old source.new) }
    ensures stopped { IfErr result (λ stop. stop ≢ ReadStop.TooLong →
        TookUpTo MOST S.bytes_left source.old source.new) }
    ensures rose { IfErr result (λ stop. stop ≡ ReadStop.Failed → Rose (S.faults source.old) (S.faults source.new)) }
    ensures later { S.faults source.old ≤ S.faults source.new }
{
    let mut input = Vec::new(alloc);
    // memory is taken once for all pieces, so that no piece is moved when the next one comes
    input.reserve_exact(MOST + 1)?;
    let mut room = [0u8; PIECE];
    'reading: loop {
        let wanted = (MOST + 1 - input.len()).min(PIECE);
        let count = source.take(&mut room[..wanted])?;
        if count == 0 {
            return Ok(input);
        }
        match input.extend_from_slice(&room[..count]) {
            Ok(()) => {}
            Err(_) => unreachable!(),
        }
        if input.len() > MOST {
            return Err(ReadStop::TooLong);
        }
    }
}

/// Puts the whole text.
pub fn write_all<K: Sink>(sink: &mut K, text: &[u8]) -> Result<(), PutFault>
    ensures all { OnOk result (Puts K.bytes_held sink.old text.now sink.new) }
    ensures prefix { OnErr result (PutsPrefix K.bytes_held sink.old text.now sink.new) }
    ensures rose { IfErr result (λ fault. fault ≡ PutFault.Failed → Rose (K.faults sink.old) (K.faults sink.new)) }
    ensures later { K.faults sink.old ≤ K.faults sink.new }
{
    let mut at = 0;
    'writing: while at < text.len() {
        let count = sink.put(&text[at..])?;
        at += count;
    }
    Ok(())
}
