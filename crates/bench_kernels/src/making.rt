//! Views that are made and released again.

use crate::answers::Answer;
use crate::keys::{is_done, slice, text};
use crate::measuring::Kernel;
use crate::plan::{PLANE, Plan};
use crate::viewed::Viewed;
use pybuf_command::{LoanList, LocalReply};
use pybuf_memoryobject::PyMemoryView;
use pybuf_value::{Halt, Made};
use std::alloc::Global;

/// How a view is made.
#[derive(Clone, Copy)]
pub enum Making {
    /// `memoryview(object)`.
    View,
    /// `view[1:]`.
    Slice,
    /// The same of a view of three dimensions.
    SliceOfPlanes,
    /// `view.cast('H')`.
    Cast,
}

/// So many views, each released before the next is made. A call begins with a new bytearray.
#[derive(Clone, Copy)]
pub struct MakeViews {
    pub making: Making,
    /// Whether by plain arguments.
    pub is_plain: bool,
    pub plan: Plan,
}

/// The view of a reply. Where it was refused, one that was never given, of which every command is refused.
#[inline(always)]
fn view_of(reply: Made<LocalReply>) -> Made<PyMemoryView> {
    let reply = reply?;
    match &reply {
        LocalReply::View(view) => Ok(PyMemoryView::of(*view)),
        _ => Ok(PyMemoryView::of(usize::MAX)),
    }
}

fn make_view(alloc: Global, viewed: &mut Viewed) -> Made<PyMemoryView> {
    view_of(viewed.object.as_buffer(LoanList::new(alloc)))
}

fn make_slice(alloc: Global, viewed: &mut Viewed) -> Made<PyMemoryView> {
    let key = slice(Some(1), None, None);
    let state = viewed.object.state_mut();
    view_of(viewed.view.getitem(state, key, LoanList::new(alloc)))
}

fn make_cast(alloc: Global, viewed: &mut Viewed) -> Made<PyMemoryView> {
    let format = text(alloc, "H")?;
    let state = viewed.object.state_mut();
    view_of(viewed.view.cast(state, format, None, LoanList::new(alloc)))
}

impl Making {
    /// What the views are made of.
    fn start(self, alloc: Global, plan: Plan) -> Result<Viewed, Halt> {
        let mut viewed = Viewed::drawn(alloc, plan, PLANE)?;
        if let Making::SliceOfPlanes = self {
            viewed.to_planes(PLANE)?;
        }
        Ok(viewed)
    }

    /// One more view, which is released.
    fn make(self, alloc: Global, viewed: &mut Viewed) -> Made<()> {
        let made = match self {
            Making::View => make_view(alloc, viewed)?,
            Making::Slice | Making::SliceOfPlanes => make_slice(alloc, viewed)?,
            Making::Cast => make_cast(alloc, viewed)?,
        };
        is_done(made.exit(viewed.object.state_mut(), LoanList::new(alloc)))?;
        Ok(())
    }

    /// One more view by plain arguments, which is released.
    fn make_plainly(self, viewed: &mut Viewed) -> Result<(), Halt> {
        let state = viewed.object.state_mut();
        let made = match self {
            Making::View => PyMemoryView::of_all(state)?,
            Making::Slice | Making::SliceOfPlanes => viewed.view.slice(state, 1..)?,
            Making::Cast => viewed.view.cast_to(state, "H")?,
        };
        made.try_release(state)
    }
}

impl MakeViews {
    fn make_all(self, alloc: Global, viewed: &mut Viewed) -> Result<(), Halt> {
        if self.is_plain {
            for _ in 0..self.plan.count {
                self.making.make_plainly(viewed)?;
            }
            return Ok(());
        }
        for _ in 0..self.plan.count {
            self.making.make(alloc, viewed)?;
        }
        Ok(())
    }
}

impl Kernel for MakeViews {
    fn call(&mut self, alloc: Global) -> Result<Answer, Halt> {
        let mut viewed = self.making.start(alloc, self.plan)?;
        let before = viewed.object.state().view_count();
        self.make_all(alloc, &mut viewed)?;
        let made = viewed.object.state().view_count().saturating_sub(before);
        Ok(Answer::Number(made as i128))
    }
}
