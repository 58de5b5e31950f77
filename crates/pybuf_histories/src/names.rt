//! The names of views, of iterators and of what handles name.
ghost use Rattle.std.specs.Prelude.{◌≡◌, ◌++◌, ◌<◌, ◌+◌, ◌*◌, ◌^◌, length, OnOk};
ghost use Rattle.hex.specs.Hex.{encode_lower};
ghost use Rattle.pybuf_histories.specs.Names as spec;

use pybuf_command::{Loan, LoanList, Subject};
use pybuf_line::push_decimal;
use pybuf_value::{Made, NoMemory};

/// Adds the name of a view.
pub fn push_view(out: &mut Vec<u8>, view: usize) -> Made<()>
    ensures { OnOk result (out.new.items ≡ out.old.items ++ spec.view_name view) }
{
    out.push(b'v')?;
    push_decimal(out, view as u64)
}

/// Adds the name of an iterator.
pub fn push_iterator(out: &mut Vec<u8>, iterator: usize) -> Made<()>
    ensures { OnOk result (out.new.items ≡ out.old.items ++ spec.iterator_name iterator) }
{
    out.push(b'j')?;
    push_decimal(out, iterator as u64)
}

/// Adds the name of a view, where the greatest number stands for one that wasn't given.
fn push_view_if_given(out: &mut Vec<u8>, view: usize) -> Made<()>
    ensures { OnOk result (out.new.items ≡ out.old.items ++ spec.name_if_given spec.view_name view) }
{
    if view == usize::MAX {
        out.extend_from_slice(b"none")?;
        return Ok(());
    }
    push_view(out, view)
}

/// The same of an iterator.
fn push_iterator_if_given(out: &mut Vec<u8>, iterator: usize) -> Made<()>
    ensures { OnOk result (out.new.items ≡ out.old.items ++ spec.name_if_given spec.iterator_name iterator) }
{
    if iterator == usize::MAX {
        out.extend_from_slice(b"none")?;
        return Ok(());
    }
    push_iterator(out, iterator)
}

/// Adds what a command works on.
pub fn push_subject(out: &mut Vec<u8>, subject: Subject) -> Made<()>
    ensures { OnOk result (out.new.items ≡ out.old.items ++ spec.subject_text subject) }
{
    match subject {
        Subject::Own => out.extend_from_slice(b"own")?,
        Subject::View(view) => push_view_if_given(out, view)?,
        Subject::Iter(iterator) => push_iterator_if_given(out, iterator)?,
    }
    Ok(())
}

/// Adds two digits for each byte.
pub fn push_digits(out: &mut Vec<u8>, bytes: &[u8]) -> Made<()>
    ensures { OnOk result (out.new.items ≡ out.old.items ++ encode_lower bytes.now) }
{
    let start = out.len();
    // no vector can have so many bytes
    if bytes.len() > (isize::MAX as usize - start) / 2 {
        return Err(NoMemory);
    }
    out.resize(start + 2 * bytes.len(), 0)?;
    // the room is twice as long as the bytes, so this is never refused
    let _ = hex::encode_to_slice(bytes, &mut out.as_mut_slice()[start..]);
    Ok(())
}

/// Adds bytes as a line spells them.
pub fn push_bytes_value(out: &mut Vec<u8>, bytes: &[u8]) -> Made<()>
    ensures { OnOk result (out.new.items ≡ out.old.items ++ spec.bytes_value bytes.now) }
{
    out.push(b'x')?;
    push_digits(out, bytes)
}

/// Adds what is lent.
fn push_loan(out: &mut Vec<u8>, loan: &Loan) -> Made<()>
    ensures { OnOk result (out.new.items ≡ out.old.items ++ spec.loan_text loan.now) }
{
    match loan {
        Loan::Own => push_subject(out, Subject::Own),
        Loan::View(view) => push_subject(out, Subject::View(*view)),
        Loan::Iter(iterator) => push_subject(out, Subject::Iter(*iterator)),
        Loan::Other(snap) => push_bytes_value(out, snap.content.as_slice()),
        Loan::Missing => {
            out.extend_from_slice(b"none")?;
            Ok(())
        }
    }
}

/// Adds what a handle names, by what is lent for it.
pub fn push_name(out: &mut Vec<u8>, loans: &LoanList, handle: u64) -> Made<()>
    ensures { OnOk result (out.new.items ≡ out.old.items ++ spec.name_of loans.now handle) }
{
    match loans.loan(handle) {
        Some(loan) => push_loan(out, loan),
        None => {
            out.extend_from_slice(b"none")?;
            Ok(())
        }
    }
}
