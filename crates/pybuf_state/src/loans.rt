//! Whether loans fit.
ghost use Rattle.std.specs.Prelude.{◌≡◌, ◌==◌, ◌<◌, ◌^◌, ◌-◌, List, ℕ, length, min, IfOk};
ghost use Rattle.pybuf_command.specs.declared.loans.Loan.{Loan};
ghost use Rattle.pybuf_memoryview.specs.Sized as sizes;
ghost use Rattle.pybuf_memoryview.specs.Fits as snap_spec;
ghost use Rattle.pybuf_state.specs.Fits as spec;

use pybuf_command::{Loan, LoanList};
use pybuf_memoryview::{is_byte_format, is_row_of};
use pybuf_struct::FormatSpec;
use pybuf_value::{Made, Outcome, Snap, SnapKind, Text};
use std::alloc::Global;

/// Whether a format is in the grammar and has this size, which is at least 1.
fn is_sized(alloc: Global, format: &Text, itemsize: usize) -> Made<bool>
    ensures { IfOk result (λ sized. sized ≡ sizes.is_sized format.now itemsize) }
{
    match FormatSpec::parse(alloc, format.as_slice())? {
        Outcome::Done(format) => Ok(0 < itemsize && format.size() == itemsize),
        Outcome::Refused(_) => Ok(false),
    }
}

/// The bytes of all items of a shape, or the nearest `usize`.
fn byte_count(itemsize: usize, shape: &[usize]) -> usize
    ensures { result ≡ min (sizes.byte_count itemsize shape.now) (2 ^ 64 - 1) }
{
    let mut count = itemsize;
    for entries in shape {
        count = count.saturating_mul(*entries);
    }
    count
}

/// Whether an exporter's snap has single bytes, as many as there are.
fn is_whole(snap: &Snap) -> bool
    ensures { result ≡ snap_spec.is_whole snap.now }
{
    snap.itemsize == 1
        && is_byte_format(snap.format.as_slice())
        && is_row_of(snap.content.len(), snap.shape.as_slice())
}

/// Whether a view's snap has as many bytes as the items of its shape, where it isn't released.
fn is_filled(snap: &Snap) -> bool
    ensures { result ≡ snap_spec.is_filled snap.now }
{
    snap.released || snap.content.len() == byte_count(snap.itemsize, snap.shape.as_slice())
}

fn fits_kind(snap: &Snap) -> bool
    ensures { result ≡ snap_spec.fits_kind snap.now.kind snap.now }
{
    match snap.kind {
        SnapKind::View => is_filled(snap),
        SnapKind::Iterator => true,
        _ => is_whole(snap),
    }
}

fn fits_snap(alloc: Global, snap: &Snap) -> Made<bool>
    ensures { IfOk result (λ fits. fits ≡ snap_spec.fits_snap snap.now) }
{
    if !fits_kind(snap) {
        return Ok(false);
    }
    is_sized(alloc, &snap.format, snap.itemsize)
}

fn fits(alloc: Global, loan: &Loan) -> Made<bool>
    ensures { IfOk result (λ fits. fits ≡ spec.fits loan.now) }
{
    match loan {
        Loan::Other(snap) => fits_snap(alloc, snap),
        _ => Ok(true),
    }
}

fn all_fit(alloc: Global, loans: &[(u64, Loan)]) -> Made<bool>
    ensures { IfOk result (λ fit. fit ≡ spec.all_fit loans.now) }
{
    for pair in loans {
        if !fits(alloc, &pair.1)? {
            return Ok(false);
        }
    }
    Ok(true)
}

/// Loans that are tested whether they fit. They are words of commands and stand below formats, so this call is that
/// of a trait. A `LoanList` has it.
/// Example: `loans.fit(alloc)?` tests a `LoanList` before a command takes it.
pub trait FitLoans {
    ghost loans: { Self → List (ℕ × Loan) };

    /// Whether the loans fit. They do exactly where each `Other` has a format in the grammar whose size is its item
    /// size and at least 1, where as many bytes as all items of its shape have are the content of an unreleased view,
    /// and where an exporter has the format `B`, the item size 1 and the number of its bytes as the one entry of its
    /// shape.
    ///
    /// Memory is taken to read the formats, and for nothing else.
    /// Example: of `LoanList::new(alloc)` it is true.
    fn fit(&self, alloc: Global) -> Made<bool>
        ensures { IfOk result (λ fit. fit ≡ spec.all_fit (loans self.now)) };
}

impl FitLoans for LoanList {
    ghost loans = { λ list. list };

    fn fit(&self, alloc: Global) -> Made<bool> {
        all_fit(alloc, self.as_slice())
    }
}
