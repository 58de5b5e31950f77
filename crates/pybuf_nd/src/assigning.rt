//! Bytes that are assigned to the items of a view.
ghost use Rattle.std.specs.Prelude.{◌≡◌, ◌*◌, ◌^◌, ◌<◌, ◌≤◌, pos, nat_abs, length, map, take, true, false, Ok, Err, OnErr, MatchResult};
ghost use Rattle.std.specs.List.{AllByRecursion};
ghost use Rattle.pybuf_command.specs.Kinds.{holds_readonly};
ghost use Rattle.pybuf_desc.specs.Places.{places};
ghost use Rattle.pybuf_desc.specs.Valid.{IsInside};
ghost use Rattle.pybuf_state.specs.Live.{is_live, layout_of};
ghost use Rattle.pybuf_verbs_writes.specs.Laid.{laid};
ghost use Rattle.pybuf_nd.specs.Assigning.{bytes_assigned};

use crate::laying::lay_dims;
use pybuf_buffer::{PyBuffer, live_descriptor};
use pybuf_exporter::ExporterState;
use pybuf_value::Fault;

/// Lays bytes over the items of dimensions that start at a place among the bytes of an exporter.
fn lay_over(
    state: &mut ExporterState,
    dims: &[(usize, isize, isize)],
    start: usize,
    size: usize,
    content: &[u8],
)
    requires writable { holds_readonly state.old.exporter.kind ≡ false }
    requires entries { AllByRecursion (λ dim. 0 < dim.0) dims.now }
    requires inside { AllByRecursion (IsInside size (length state.old.exporter.bytes)) (places dims.now (pos start)) }
    requires enough { length (places dims.now (pos start)) * size ≤ length content.now }
    ensures exporter { state.new.exporter ≡ record state.old.exporter { bytes = laid state.old.exporter.bytes size (map nat_abs (places dims.now (pos start))) content.now } }
    ensures long { length state.new.exporter.bytes ≡ length state.old.exporter.bytes }
    ensures room { state.new.room ≡ state.old.room }
{
    let bytes = state.bytes_mut();
    let _next = lay_dims(bytes, dims, start, size, content, 0);
}

/// Copies dimensions to the front of others. Answers how many there are.
fn keep_dims(kept: &mut [(usize, isize, isize); 64], dims: &[(usize, isize, isize)]) -> usize
    requires { length dims.now ≤ 64 }
    ensures kept { take result kept.new ≡ dims.now }
    ensures few { result ≤ 64 }
{
    let count = dims.len();
    kept[..count].copy_from_slice(dims);
    count
}

/// Lays bytes over the items of a view, row by row, as NumPy's `items[...] = ..` with bytes for the items, in any
/// number of dimensions. Every byte that is of none of the items stays, and so do all views. Takes no memory.
///
/// Refused with `TypeError` exactly where the view can only be read; then with `ValueError` exactly where its items
/// have another number of bytes. Nothing is changed then.
/// Example: over the slice `::2` of a view of `b"abcd"` the bytes `b"12"` make `b"1b2d"`.
pub fn assign(state: &mut ExporterState, target: &PyBuffer, bytes: &[u8]) -> Result<(), Fault>
    requires { is_live state.old.exporter target.now ≡ true }
    ensures answer { MatchResult result (λ _. bytes_assigned state.old.exporter (layout_of state.old.exporter target.now) bytes.now ≡ Ok state.new.exporter) (λ fault. bytes_assigned state.old.exporter (layout_of state.old.exporter target.now) bytes.now ≡ Err fault) }
    ensures err { OnErr result (state.new ≡ state.old) }
    ensures long { length state.new.exporter.bytes ≡ length state.old.exporter.bytes }
    ensures room { state.new.room ≡ state.old.room }
{
    let (desc, start) = live_descriptor(state, target.number());
    if desc.readonly() {
        return Err(Fault::Kind);
    }
    if bytes.len() != desc.len() {
        return Err(Fault::Value);
    }
    if bytes.is_empty() {
        return Ok(());
    }
    // The exporter lends the descriptor, and its bytes are written. So what the walk needs of the descriptor is kept
    // apart from it.
    let size = desc.itemsize();
    let mut kept = [(0, 0, 0); 64];
    let count = keep_dims(&mut kept, desc.dim_desc());
    lay_over(state, &kept[..count], start, size, bytes);
    Ok(())
}
