//! What is done with the views of an object.
ghost use Rattle.std.specs.Prelude.{IfOk};
ghost use Rattle.pybuf_state.specs.Fits.{LoansFit};

use crate::answers::{Answer, mark_of_bytes};
use crate::keys::{answer_of, count_of_item, count_of_reply, is_done, lent, number, slice, text};
use crate::measuring::Kernel;
use crate::plan::Plan;
use crate::viewed::{Given, Viewed};
use pybuf_command::{Loan, LoanList};
use pybuf_memoryobject::PyMemoryView;
use pybuf_value::{CompareOp, Halt, Made};
use std::alloc::Global;

/// What is done with a view, or with two.
#[derive(Clone, Copy)]
pub enum Doing {
    /// `view.tobytes()`.
    ToBytes,
    /// `view.tobytes('F')`.
    ToBytesInColumnOrder,
    /// `view[k]` for each item.
    Get,
    /// `view[k] = k % limit` for each item.
    Set(usize),
    /// The same by plain arguments.
    GetPlainly,
    SetPlainly(usize),
    /// `view[1:] = other`.
    Shift,
    /// `view[::-1] = other`.
    Reverse,
    /// `object[:size] = view`, of as many bytes as the plan says.
    SetFront,
    /// `view == other`.
    Compare,
}

/// Views of an object, and what is done with them.
#[derive(Drop)]
pub struct Views {
    viewed: Viewed,
    plan: Plan,
    doing: Doing,
}

/// The loans of a command in which handle 0 names a view of its own object.
fn lend_view(alloc: Global, view: &PyMemoryView) -> Made<LoanList>
    ensures { IfOk result LoansFit }
{
    let mut loans = LoanList::new(alloc);
    loans.push((0, Loan::View(view.number())))?;
    Ok(loans)
}

fn copy(alloc: Global, viewed: &mut Viewed) -> Result<Answer, Halt> {
    let state = viewed.object.state_mut();
    answer_of(viewed.view.tobytes(state, None, LoanList::new(alloc)))
}

fn copy_in_column_order(alloc: Global, viewed: &mut Viewed) -> Result<Answer, Halt> {
    let order = Some(text(alloc, "F")?);
    let state = viewed.object.state_mut();
    answer_of(viewed.view.tobytes(state, order, LoanList::new(alloc)))
}

fn get(alloc: Global, viewed: &mut Viewed, place: usize) -> Made<i128> {
    let state = viewed.object.state_mut();
    count_of_reply(
        viewed
            .view
            .getitem(state, number(place), LoanList::new(alloc)),
    )
}

fn get_all(alloc: Global, viewed: &mut Viewed, count: usize) -> Result<Answer, Halt> {
    let mut sum = 0i128;
    for place in 0..count {
        sum = sum.wrapping_add(get(alloc, viewed, place)?);
    }
    Ok(Answer::Number(sum))
}

fn set(alloc: Global, viewed: &mut Viewed, place: usize, limit: usize) -> Made<bool> {
    let value = number(place.checked_rem(limit).unwrap_or(0));
    let state = viewed.object.state_mut();
    is_done(
        viewed
            .view
            .setitem(state, number(place), value, LoanList::new(alloc)),
    )
}

fn set_all(alloc: Global, viewed: &mut Viewed, count: usize, limit: usize) -> Result<Answer, Halt> {
    for place in 0..count {
        if !set(alloc, viewed, place, limit)? {
            return Ok(Answer::Refused);
        }
    }
    Ok(Answer::Nothing)
}

fn get_plainly(viewed: &Viewed, place: usize) -> Result<i128, Halt> {
    let index = place.min(isize::MAX as usize) as isize;
    let item = viewed.view.index(viewed.object.state(), index)?;
    Ok(count_of_item(&item))
}

fn get_all_plainly(viewed: &Viewed, count: usize) -> Result<Answer, Halt> {
    let mut sum = 0i128;
    for place in 0..count {
        sum = sum.wrapping_add(get_plainly(viewed, place)?);
    }
    Ok(Answer::Number(sum))
}

fn set_plainly(viewed: &mut Viewed, place: usize, limit: usize) -> Result<(), Halt> {
    let index = place.min(isize::MAX as usize) as isize;
    let number = place.checked_rem(limit).unwrap_or(0);
    let state = viewed.object.state_mut();
    viewed.view.set(state, index, number as i128)
}

fn set_all_plainly(viewed: &mut Viewed, count: usize, limit: usize) -> Result<Answer, Halt> {
    for place in 0..count {
        set_plainly(viewed, place, limit)?;
    }
    Ok(Answer::Nothing)
}

fn assign(
    alloc: Global,
    viewed: &mut Viewed,
    start: Option<isize>,
    step: Option<isize>,
) -> Result<Answer, Halt> {
    let loans = lend_view(alloc, &viewed.other)?;
    let key = slice(start, None, step);
    let state = viewed.object.state_mut();
    answer_of(viewed.view.setitem(state, key, lent(), loans))
}

fn assign_front(alloc: Global, viewed: &mut Viewed, size: usize) -> Result<Answer, Halt> {
    let loans = lend_view(alloc, &viewed.view)?;
    let size = size.min(isize::MAX as usize) as isize;
    let key = slice(Some(0), Some(size), None);
    answer_of(viewed.object.setitem(key, lent(), loans))
}

fn compare(alloc: Global, viewed: &mut Viewed) -> Result<Answer, Halt> {
    let loans = lend_view(alloc, &viewed.other)?;
    let state = viewed.object.state_mut();
    answer_of(viewed.view.cmp(state, CompareOp::Eq, lent(), loans))
}

impl Views {
    pub fn of(alloc: Global, plan: Plan, given: Given, doing: Doing) -> Result<Views, Halt> {
        let viewed = Viewed::of(alloc, plan, given)?;
        Ok(Views {
            viewed,
            plan,
            doing,
        })
    }
}

impl Kernel for Views {
    fn call(&mut self, alloc: Global) -> Result<Answer, Halt> {
        let viewed = &mut self.viewed;
        let count = self.plan.count;
        match self.doing {
            Doing::ToBytes => copy(alloc, viewed),
            Doing::ToBytesInColumnOrder => copy_in_column_order(alloc, viewed),
            Doing::Get => get_all(alloc, viewed, count),
            Doing::Set(limit) => set_all(alloc, viewed, count, limit),
            Doing::GetPlainly => get_all_plainly(viewed, count),
            Doing::SetPlainly(limit) => set_all_plainly(viewed, count, limit),
            Doing::Shift => assign(alloc, viewed, Some(1), None),
            Doing::Reverse => assign(alloc, viewed, None, Some(-1)),
            Doing::SetFront => assign_front(alloc, viewed, self.plan.size),
            Doing::Compare => compare(alloc, viewed),
        }
    }

    fn written(&self, _alloc: Global) -> Result<i128, Halt> {
        match self.doing {
            Doing::ToBytes | Doing::ToBytesInColumnOrder | Doing::Get | Doing::GetPlainly => Ok(0),
            _ => Ok(mark_of_bytes(self.viewed.object.borrow_buf())),
        }
    }
}
