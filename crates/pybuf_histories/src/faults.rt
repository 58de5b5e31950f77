//! The texts of why sessions don't agree with a history.
ghost use Rattle.std.specs.Prelude.{◌≡◌, ◌++◌, OnOk};
ghost use Rattle.pybuf_share.specs.declared.joined.FinishFault.{FinishFault};
ghost use Rattle.pybuf_histories.specs.Faults as spec;
ghost use Rattle.pybuf_histories.specs.Pushing.{Pushes};

use crate::entries::push_entry;
use crate::words::kind_text;
use pybuf_command::ExporterKind;
use pybuf_line::push_decimal;
use pybuf_share::{Entry, FinishFault};
use pybuf_value::{Made, push_bytes};

/// Adds what the history has, or `none`.
fn push_kept(out: &mut Vec<u8>, kept: &Option<Entry>) -> Made<()>
    ensures { OnOk result (out.new.items ≡ out.old.items ++ spec.kept_text kept.now) }
{
    match kept {
        Some(entry) => push_entry(out, entry),
        None => {
            out.extend_from_slice(b"none")?;
            Ok(())
        }
    }
}

/// Adds the kind and the bytes that an exporter begins with.
fn push_opening(out: &mut Vec<u8>, kind: ExporterKind, bytes: &[u8]) -> Made<()>
    ensures { OnOk result (out.new.items ≡ out.old.items ++ spec.opening_text kind bytes.now) }
{
    out.extend_from_slice(kind_text(kind).as_bytes())?;
    out.push(b' ')?;
    push_bytes(out, bytes)
}

/// Adds the line of an entry that isn't the one of its number.
fn push_disagreement(out: &mut Vec<u8>, at: u64, kept: &Option<Entry>, got: &Entry) -> Made<()>
    ensures { Pushes (spec.fault_text (FinishFault.Disagree at kept.now got.now)) out.old out.new result }
{
    out.extend_from_slice(b"disagree ")?;
    push_decimal(out, at)?;
    out.extend_from_slice(b": ")?;
    push_kept(out, kept)?;
    out.extend_from_slice(b" | ")?;
    push_entry(out, got)?;
    out.push(b'\n')?;
    Ok(())
}

/// Adds the line of two numbers that don't rise.
fn push_fall(out: &mut Vec<u8>, session: u64, before: u64, after: u64) -> Made<()>
    ensures { Pushes (spec.fault_text (FinishFault.Order session before after)) out.old out.new result }
{
    out.extend_from_slice(b"order ")?;
    push_decimal(out, session)?;
    out.extend_from_slice(b": ")?;
    push_decimal(out, before)?;
    out.push(b' ')?;
    push_decimal(out, after)?;
    out.push(b'\n')?;
    Ok(())
}

/// Adds the line of an opening that isn't the one that is kept.
fn push_openings(
    out: &mut Vec<u8>,
    given_kind: ExporterKind,
    given: &[u8],
    kept_kind: ExporterKind,
    kept: &[u8],
) -> Made<()>
    ensures { Pushes (spec.fault_text (FinishFault.Opening given_kind given.now kept_kind kept.now)) out.old out.new result }
{
    out.extend_from_slice(b"opening ")?;
    push_opening(out, given_kind, given)?;
    out.extend_from_slice(b" | ")?;
    push_opening(out, kept_kind, kept)?;
    out.push(b'\n')?;
    Ok(())
}

/// Adds why sessions don't agree with a history, in one line, each entry spelled as on its own line:
/// `disagree AT: KEPT | GOT`, where KEPT may be `none`; `order S: BEFORE AFTER`; `opening KIND BYTES | KIND BYTES`, what was
/// given first. Want of memory is no text.
///
/// Where memory runs out, a part of it may have been added.
///
/// Example: of `FinishFault::Order` of session 0, whose receipts 2 and 1 don't rise, it adds the line `order 0: 2 1`.
pub fn push_fault(out: &mut Vec<u8>, fault: &FinishFault) -> Made<()>
    ensures { OnOk result (out.new.items ≡ out.old.items ++ spec.fault_text fault.now) }
{
    match fault {
        FinishFault::Disagree { at, kept, got } => push_disagreement(out, *at, kept, got),
        FinishFault::Order {
            session,
            before,
            after,
        } => push_fall(out, *session, *before, *after),
        FinishFault::Opening {
            given_kind,
            given,
            kept_kind,
            kept,
        } => push_openings(
            out,
            *given_kind,
            given.as_slice(),
            *kept_kind,
            kept.as_slice(),
        ),
        FinishFault::NoMemory => Ok(()),
    }
}
