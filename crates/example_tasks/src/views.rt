//! Views that show the same bytes in another order.
use pybuf::{
    Answer, BufferDescriptor, CompareOp, DimList, Halt, Loan, LoanList, PyBuffer, PyByteArray,
    PyMemoryView, PySlice, Scalar, Text, Value,
};
use std::alloc::Global;
use std::fmt::Write;

/// Writes two rows and two columns of a bit map with four columns, and the same turned to the right.
pub fn turn(alloc: Global, map: &mut PyByteArray, out: &mut String) -> Result<(), Halt> {
    let state = map.state_mut();
    let cropped = [(2, 4, 0), (2, 1, 0)];
    let turned = [(2, 1, 0), (2, -4, 0)];
    for (dims, start) in [(cropped, 1), (turned, 5)] {
        let dims = DimList::from_slice(alloc, &dims)?;
        let format = Text::from_str(alloc, "B")?;
        let descriptor = BufferDescriptor::raw(4, false, 1, format, dims);
        let part = PyBuffer::new(alloc, state, descriptor, start).done()?;
        let items = PyMemoryView::of(part.number()).tolist(state, LoanList::new(alloc))?;
        writeln!(out, "{items}")?;
    }
    Ok(())
}

/// Compares a matrix whose first row lies first with one whose last row lies first, and with that upside down.
pub fn compare(alloc: Global, file: &mut PyByteArray, out: &mut String) -> Result<(), Halt> {
    let state = file.state_mut();
    let all = PyMemoryView::of_all(state)?;
    let top = all.slice(state, ..6)?.cast_shape(state, "B", &[2, 3])?;
    let bottom = all.slice(state, 6..)?.cast_shape(state, "B", &[2, 3])?;
    let turned = bottom.slice(state, PySlice::new(None, None, Some(-1)))?;
    for view in [bottom, turned] {
        let mut loans = LoanList::new(alloc);
        loans.push((0, Loan::View(view.number())))?;
        let other = Value::One(Scalar::Handle(0));
        writeln!(out, "{}", top.cmp(state, CompareOp::Eq, other, loans)?)?;
    }
    Ok(())
}
