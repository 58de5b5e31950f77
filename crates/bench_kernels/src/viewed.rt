//! Objects with views that kernels work on.

use crate::codes::Code;
use crate::data::drawn;
use crate::plan::{PLANE, Plan};
use pybuf_buffer::PyBuffer;
use pybuf_desc::BufferDescriptor;
use pybuf_memoryobject::PyMemoryView;
use pybuf_object::PyByteArray;
use pybuf_value::{DimList, Halt, Made, Outcome, PySlice, Text};
use std::alloc::Global;

/// What a view is of.
#[derive(Clone, Copy)]
pub enum Given {
    /// Every so many-th number of a code, so that the view has as many bytes as the plan says.
    Numbers(Code, isize),
    /// Every other plane of 256 rows of 16.
    Planes,
    /// As many numbers of a code as the plan has bytes, in rows of 1,024.
    Table(Code),
    /// Rows of 256 numbers of a code that lie apart or backwards, behind room for them or behind none.
    Rows(Order, Code, bool),
    /// As many numbers of a code as the plan has items.
    Items(Code),
    /// As many records of the format `<4sHHII`.
    Records,
    /// Bytes, and all of them but the last.
    Shifted,
    /// Bytes, and the same bytes behind them.
    Twins,
}

/// How the numbers of a row lie.
#[derive(Clone, Copy)]
pub enum Order {
    /// Every other number.
    EveryOther,
    /// All numbers, from the last on.
    Backwards,
}

/// A bytearray, one of its views, and another, which is the same where one is enough.
#[derive(Drop)]
pub struct Viewed {
    pub object: PyByteArray,
    pub view: PyMemoryView,
    pub other: PyMemoryView,
}

/// The number of items of a row of a table.
const COLUMNS: usize = 1024;

/// The number of items of a row.
const ROW: usize = 256;

/// The number of items from a row to the next, where every other is one of the row. It is more than twice as many, so
/// that rows don't go on as each begins.
const STEPPED_ROW: usize = 520;

/// The number of bytes of a record.
pub const RECORD: usize = 16;

/// What describes items of a format and a size in these dimensions.
fn described(
    alloc: Global,
    format: &str,
    size: usize,
    dims: &[(usize, isize, isize)],
) -> Made<BufferDescriptor> {
    let mut len = size;
    for dim in dims {
        len = len.saturating_mul(dim.0);
    }
    let list = DimList::from_slice(alloc, dims)?;
    let format = Text::from_str(alloc, format)?;
    Ok(BufferDescriptor::raw(len, false, size, format, list))
}

impl Viewed {
    /// A bytearray of these bytes, and a view of all.
    fn whole(alloc: Global, bytes: Vec<u8>) -> Result<Viewed, Halt> {
        let mut object = PyByteArray::new_ref(alloc, bytes);
        let view = PyMemoryView::of_all(object.state_mut())?;
        let other = PyMemoryView::of(view.number());
        Ok(Viewed {
            object,
            view,
            other,
        })
    }

    /// So many drawn bytes.
    pub fn drawn(alloc: Global, plan: Plan, size: usize) -> Result<Viewed, Halt> {
        Viewed::whole(alloc, drawn(alloc, plan.seed, size)?)
    }

    /// The view that a slice of the view makes.
    fn sliced(&mut self, slice: PySlice) -> Result<PyMemoryView, Halt> {
        self.view.slice(self.object.state_mut(), slice)
    }

    /// Goes on with the view in planes of so many bytes.
    pub fn to_planes(&mut self, size: usize) -> Result<(), Halt> {
        let shape = [size / PLANE, 256, 16];
        self.view = self
            .view
            .cast_shape(self.object.state_mut(), "B", shape.as_slice())?;
        Ok(())
    }

    /// Goes on with the items that a step picks.
    fn step(&mut self, step: isize) -> Result<(), Halt> {
        self.view = self.sliced(PySlice::new(None, None, Some(step)))?;
        Ok(())
    }

    /// Goes on with a view that is described, whose first item begins at a byte.
    fn describe(
        &mut self,
        alloc: Global,
        descriptor: BufferDescriptor,
        start: usize,
    ) -> Result<(), Halt> {
        match PyBuffer::new(alloc, self.object.state_mut(), descriptor, start)? {
            Outcome::Done(buffer) => {
                self.view = PyMemoryView::of(buffer.number());
                Ok(())
            }
            Outcome::Refused(fault) => Err(Halt::Refused(fault)),
        }
    }

    fn numbers(alloc: Global, plan: Plan, code: Code, step: isize) -> Result<Viewed, Halt> {
        let size = plan.size.saturating_mul(step.unsigned_abs());
        let mut viewed = Viewed::drawn(alloc, plan, size)?;
        viewed.view = viewed.view.cast_to(viewed.object.state_mut(), code.format)?;
        viewed.step(step)?;
        Ok(viewed)
    }

    fn planes(alloc: Global, plan: Plan) -> Result<Viewed, Halt> {
        let size = plan.size.saturating_mul(2);
        let mut viewed = Viewed::drawn(alloc, plan, size)?;
        viewed.to_planes(size)?;
        viewed.step(2)?;
        Ok(viewed)
    }

    fn table(alloc: Global, plan: Plan, code: Code) -> Result<Viewed, Halt> {
        let shape = [plan.size / COLUMNS, COLUMNS];
        let mut viewed = Viewed::drawn(alloc, plan, plan.size.saturating_mul(code.size))?;
        viewed.view = viewed
            .view
            .cast_shape(viewed.object.state_mut(), code.format, shape.as_slice())?;
        Ok(viewed)
    }

    fn items(alloc: Global, plan: Plan, code: Code) -> Result<Viewed, Halt> {
        let mut viewed = Viewed::drawn(alloc, plan, plan.count.saturating_mul(code.size))?;
        viewed.view = viewed.view.cast_to(viewed.object.state_mut(), code.format)?;
        Ok(viewed)
    }

    fn records(alloc: Global, plan: Plan) -> Result<Viewed, Halt> {
        let mut viewed = Viewed::drawn(alloc, plan, plan.count.saturating_mul(RECORD))?;
        let dims = [(plan.count, RECORD as isize, 0)];
        let descriptor = described(alloc, "<4sHHII", RECORD, dims.as_slice())?;
        viewed.describe(alloc, descriptor, 0)?;
        Ok(viewed)
    }

    fn rows(
        alloc: Global,
        plan: Plan,
        order: Order,
        code: Code,
        is_behind: bool,
    ) -> Result<Viewed, Halt> {
        let (width, step, first) = match order {
            Order::EveryOther => (STEPPED_ROW, 2, 0),
            Order::Backwards => (ROW, -1, ROW - 1),
        };
        let stride = width.saturating_mul(code.size);
        let count = plan
            .size
            .checked_div(code.size.saturating_mul(ROW))
            .unwrap_or(0);
        let room = if is_behind { plan.size } else { 0 };
        let mut bytes = vec![in alloc; 0u8; room]?;
        let source = drawn(alloc, plan.seed, count.saturating_mul(stride))?;
        bytes.extend_from_slice(source.as_slice())?;
        let size = code.size.min(8) as isize;
        let dims = [
            (count, stride.min(8_192) as isize, 0),
            (ROW, size.wrapping_mul(step), 0),
        ];
        let descriptor = described(alloc, code.format, code.size, dims.as_slice())?;
        let mut viewed = Viewed::whole(alloc, bytes)?;
        let start = first.saturating_mul(code.size).saturating_add(room);
        viewed.describe(alloc, descriptor, start)?;
        Ok(viewed)
    }

    fn shifted(alloc: Global, plan: Plan) -> Result<Viewed, Halt> {
        let mut viewed = Viewed::drawn(alloc, plan, plan.size)?;
        viewed.other = viewed.sliced(PySlice::new(None, Some(-1), None))?;
        Ok(viewed)
    }

    fn twins(alloc: Global, plan: Plan) -> Result<Viewed, Halt> {
        let mut bytes = drawn(alloc, plan.seed, plan.size)?;
        let twin = drawn(alloc, plan.seed, plan.size)?;
        bytes.extend_from_slice(twin.as_slice())?;
        let mut viewed = Viewed::whole(alloc, bytes)?;
        let half = Some(plan.size.min(isize::MAX as usize) as isize);
        viewed.other = viewed.sliced(PySlice::new(half, None, None))?;
        viewed.view = viewed.sliced(PySlice::new(None, half, None))?;
        Ok(viewed)
    }

    /// What is asked for.
    pub fn of(alloc: Global, plan: Plan, given: Given) -> Result<Viewed, Halt> {
        match given {
            Given::Numbers(code, step) => Viewed::numbers(alloc, plan, code, step),
            Given::Planes => Viewed::planes(alloc, plan),
            Given::Table(code) => Viewed::table(alloc, plan, code),
            Given::Rows(order, code, behind) => Viewed::rows(alloc, plan, order, code, behind),
            Given::Items(code) => Viewed::items(alloc, plan, code),
            Given::Records => Viewed::records(alloc, plan),
            Given::Shifted => Viewed::shifted(alloc, plan),
            Given::Twins => Viewed::twins(alloc, plan),
        }
    }
}
