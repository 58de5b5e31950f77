//! Views of an array of bytes, copied out.
ghost use Rattle.std.specs.Prelude.{IfSome};
ghost use Rattle.pybuf_desc.specs.Layouts.{LiesInside};

use crate::answers::Answer;
use crate::data::drawn;
use crate::measuring::Kernel;
use crate::plan::{PLANE, Plan};
use pybuf_desc::BufferDescriptor;
use pybuf_index::SaturatedSlice;
use pybuf_memoryview::{KeptLayout, content_of};
use pybuf_nd::{merged, permute, slice_all, transpose};
use pybuf_value::{DimList, Fault, Halt, Made, Outcome, PySlice, Scalar, Text, Tried};
use std::alloc::Global;

/// The number of bytes of a row of an array of rows.
const ROW: usize = 1_024;

/// The number of rows of a plane of an array of planes, and of the bytes of such a row.
const SIDE: usize = 64;

/// Which view of an array is copied out, as numpy spells it.
#[derive(Clone, Copy)]
pub enum Form {
    /// `a[::2, ::-1]`.
    Flipped,
    /// `a.T`.
    Transposed,
    /// `a[1:-1, 1:-1]`.
    Inner,
    /// `a.transpose(2, 0, 1)`.
    Permuted,
}

/// The bytes of an array, and a view of them; none where it is refused.
#[derive(Drop)]
pub struct CopiedView {
    bytes: Vec<u8>,
    view: Option<KeptLayout>,
}

/// The view of a descriptor's items, where they lie among so many bytes.
fn placed(desc: BufferDescriptor, start: usize, room: usize) -> Option<KeptLayout>
    ensures { IfSome result (λ view. LiesInside room view) }
{
    pybuf_desc::placed_descriptors_stand();
    pybuf_desc::valid_where_items_lie_inside();
    if room > isize::MAX as usize {
        return None;
    }
    if desc.validate(start, room).is_err() {
        return None;
    }
    Some(KeptLayout::of_descriptor(desc, start))
}

/// So many bytes in these dimensions.
fn array(alloc: Global, len: usize, dims: &[(usize, isize, isize)]) -> Made<Option<KeptLayout>> {
    let format = Text::from_str(alloc, "B")?;
    let list = DimList::from_slice(alloc, dims)?;
    let desc = BufferDescriptor::raw(len, true, 1, format, list);
    Ok(placed(desc, 0, len))
}

/// An array of rows.
fn rows(alloc: Global, len: usize) -> Made<Option<KeptLayout>> {
    array(alloc, len, &[(len / ROW, ROW as isize, 0), (ROW, 1, 0)])
}

/// An array of planes.
fn planes(alloc: Global, len: usize) -> Made<Option<KeptLayout>> {
    let dims = [
        (len / PLANE, PLANE as isize, 0),
        (SIDE, SIDE as isize, 0),
        (SIDE, 1, 0),
    ];
    array(alloc, len, &dims)
}

/// The slice of these parts.
fn slice(start: Scalar, stop: Scalar, step: Scalar) -> PySlice {
    PySlice { start, stop, step }
}

/// The items that a slice of rows and a slice of columns pick.
fn cut(
    alloc: Global,
    view: &KeptLayout,
    rows: &PySlice,
    columns: &PySlice,
) -> Tried<(BufferDescriptor, usize)> {
    let rows = match SaturatedSlice::with_slice(rows) {
        Ok(rows) => rows,
        Err(fault) => return Ok(Outcome::Refused(fault)),
    };
    let columns = match SaturatedSlice::with_slice(columns) {
        Ok(columns) => columns,
        Err(fault) => return Ok(Outcome::Refused(fault)),
    };
    let (desc, start) = view.placed();
    if desc.ndim() != 2 {
        return Ok(Outcome::Refused(Fault::Value));
    }
    slice_all(alloc, desc, start, &[rows, columns])
}

/// `a[::2, ::-1]`.
fn flipped(alloc: Global, view: &KeptLayout) -> Tried<(BufferDescriptor, usize)> {
    let others = slice(Scalar::None, Scalar::None, Scalar::Int(2));
    let backwards = slice(Scalar::None, Scalar::None, Scalar::Int(-1));
    cut(alloc, view, &others, &backwards)
}

/// `a[1:-1, 1:-1]`.
fn inner(alloc: Global, view: &KeptLayout) -> Tried<(BufferDescriptor, usize)> {
    let between = slice(Scalar::Int(1), Scalar::Int(-1), Scalar::None);
    cut(alloc, view, &between, &between)
}

/// A descriptor beside where the items of a view start.
fn beside_start(
    made: Outcome<BufferDescriptor>,
    start: usize,
) -> Outcome<(BufferDescriptor, usize)> {
    match made {
        Outcome::Done(desc) => Outcome::Done((desc, start)),
        Outcome::Refused(fault) => Outcome::Refused(fault),
    }
}

/// `a.T`.
fn transposed(alloc: Global, view: &KeptLayout) -> Tried<(BufferDescriptor, usize)> {
    let (desc, start) = view.placed();
    let made = transpose(alloc, desc)?;
    Ok(beside_start(made, start))
}

/// `a.transpose(2, 0, 1)`.
fn permuted(alloc: Global, view: &KeptLayout) -> Tried<(BufferDescriptor, usize)> {
    let (desc, start) = view.placed();
    if desc.ndim() != 3 {
        return Ok(Outcome::Refused(Fault::Value));
    }
    let made = permute(alloc, desc, &[2, 0, 1])?;
    Ok(beside_start(made, start))
}

/// The descriptor of what is copied out, and where its items start.
fn described(alloc: Global, array: &KeptLayout, form: Form) -> Tried<(BufferDescriptor, usize)> {
    match form {
        Form::Flipped => flipped(alloc, array),
        Form::Transposed => transposed(alloc, array),
        Form::Inner => inner(alloc, array),
        Form::Permuted => permuted(alloc, array),
    }
}

/// The array of so many bytes.
fn array_of(alloc: Global, len: usize, form: Form) -> Made<Option<KeptLayout>> {
    match form {
        Form::Permuted => planes(alloc, len),
        _ => rows(alloc, len),
    }
}

/// The view of so many bytes.
fn view_of(alloc: Global, len: usize, form: Form) -> Made<Option<KeptLayout>> {
    let Some(array) = array_of(alloc, len, form)? else {
        return Ok(None);
    };
    match described(alloc, &array, form)? {
        Outcome::Done((desc, start)) => Ok(placed(desc, start, len)),
        Outcome::Refused(_) => Ok(None),
    }
}

/// The bytes of a view's items, copied out by the fewest dimensions. Refused where an item lies outside of the bytes.
fn copied(alloc: Global, bytes: &[u8], view: &KeptLayout) -> Result<Answer, Halt> {
    let (desc, start) = view.placed();
    let made = merged(alloc, desc)?;
    match placed(made, start, bytes.len()) {
        Some(joined) => {
            let content = content_of(alloc, bytes, &joined)?;
            Ok(Answer::Bytes(content))
        }
        None => Ok(Answer::Refused),
    }
}

impl CopiedView {
    /// A view of drawn bytes.
    pub fn of(alloc: Global, plan: Plan, form: Form) -> Result<CopiedView, Halt> {
        let bytes = drawn(alloc, plan.seed, plan.size)?;
        let view = view_of(alloc, bytes.len(), form)?;
        Ok(CopiedView { bytes, view })
    }
}

impl Kernel for CopiedView {
    fn call(&mut self, alloc: Global) -> Result<Answer, Halt> {
        match &self.view {
            Some(view) => copied(alloc, self.bytes.as_slice(), view),
            None => Ok(Answer::Refused),
        }
    }
}
