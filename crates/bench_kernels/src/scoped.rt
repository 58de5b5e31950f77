//! Views that borrow the object that they are of.

use crate::answers::{Answer, mark_of_bytes};
use crate::codes::Code;
use crate::data::drawn;
use crate::keys::count_of_item;
use crate::making::Making;
use crate::measuring::Kernel;
use crate::plan::{PLANE, Plan};
use pybuf_object::PyByteArray;
use pybuf_scoped::{Owner, View};
use pybuf_value::Halt;
use std::alloc::Global;

/// What is done with scoped views.
#[derive(Clone, Copy)]
pub enum InScope {
    /// So many views are made, each dropped before the next.
    Make(Making),
    /// `view[k]` for each item of a code.
    Get(Code),
    /// `view[k] = k % limit` for each item of a code.
    Set(Code, usize),
}

/// A bytearray, and what is done with its scoped views.
#[derive(Drop)]
pub struct Scoped {
    array: PyByteArray,
    plan: Plan,
    doing: InScope,
}

/// So many views of all bytes.
fn make_views(array: &mut PyByteArray, count: usize) -> Result<(), Halt> {
    for _ in 0..count {
        drop(View::of(array)?);
    }
    Ok(())
}

/// So many slices of a view.
fn make_slices<O: Owner>(view: &mut View<'_, O>, count: usize) -> Result<(), Halt> {
    for _ in 0..count {
        drop(view.slice(1..)?);
    }
    Ok(())
}

/// So many slices of a view in three dimensions.
fn make_slices_of_planes(array: &mut PyByteArray, count: usize) -> Result<(), Halt> {
    let shape = [1, 256, 16];
    let mut whole = View::of(array)?;
    let mut planes = whole.cast_shape("B", shape.as_slice())?;
    make_slices(&mut planes, count)
}

/// So many casts of a view.
fn make_casts(array: &mut PyByteArray, count: usize) -> Result<(), Halt> {
    let mut view = View::of(array)?;
    for _ in 0..count {
        drop(view.cast("H")?);
    }
    Ok(())
}

/// So many views of a new bytearray.
fn make(alloc: Global, plan: Plan, making: Making) -> Result<Answer, Halt> {
    let mut array = PyByteArray::new_ref(alloc, drawn(alloc, plan.seed, PLANE)?);
    match making {
        Making::View => make_views(&mut array, plan.count)?,
        Making::Slice => {
            let mut view = View::of(&mut array)?;
            make_slices(&mut view, plan.count)?
        }
        Making::SliceOfPlanes => make_slices_of_planes(&mut array, plan.count)?,
        Making::Cast => make_casts(&mut array, plan.count)?,
    }
    Ok(Answer::Number(plan.count as i128))
}

fn get<O: Owner>(view: &View<'_, O>, place: usize) -> Result<i128, Halt> {
    let index = place.min(isize::MAX as usize) as isize;
    let item = view.get(index)?;
    Ok(count_of_item(&item))
}

fn get_all(array: &mut PyByteArray, code: Code, count: usize) -> Result<Answer, Halt> {
    let mut whole = View::of(array)?;
    let view = whole.cast(code.format)?;
    let mut sum = 0i128;
    for place in 0..count {
        sum = sum.wrapping_add(get(&view, place)?);
    }
    Ok(Answer::Number(sum))
}

fn set<O: Owner>(view: &mut View<'_, O>, place: usize, limit: usize) -> Result<(), Halt> {
    let index = place.min(isize::MAX as usize) as isize;
    let number = place.checked_rem(limit).unwrap_or(0);
    view.set(index, number as i128)?;
    Ok(())
}

fn set_all(
    array: &mut PyByteArray,
    code: Code,
    count: usize,
    limit: usize,
) -> Result<Answer, Halt> {
    let mut whole = View::of(array)?;
    let mut view = whole.cast(code.format)?;
    for place in 0..count {
        set(&mut view, place, limit)?;
    }
    Ok(Answer::Nothing)
}

impl Scoped {
    pub fn of(alloc: Global, plan: Plan, doing: InScope) -> Result<Scoped, Halt> {
        let size = match doing {
            InScope::Make(_) => 0,
            InScope::Get(code) | InScope::Set(code, _) => plan.count.saturating_mul(code.size),
        };
        Ok(Scoped {
            array: PyByteArray::new_ref(alloc, drawn(alloc, plan.seed, size)?),
            plan,
            doing,
        })
    }
}

impl Kernel for Scoped {
    fn call(&mut self, alloc: Global) -> Result<Answer, Halt> {
        let count = self.plan.count;
        match self.doing {
            InScope::Make(making) => make(alloc, self.plan, making),
            InScope::Get(code) => get_all(&mut self.array, code, count),
            InScope::Set(code, limit) => set_all(&mut self.array, code, count, limit),
        }
    }

    fn written(&self, _alloc: Global) -> Result<i128, Halt> {
        match self.doing {
            InScope::Set(_, _) => Ok(mark_of_bytes(self.array.borrow_buf())),
            _ => Ok(0),
        }
    }
}
