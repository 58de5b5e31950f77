//! The methods of `PyMemoryView` by commands that no example or benchmark shows: a line of the program makes the same
//! commands on a world.
use crate::answers::{exporter_of, none, number, tell, text};
use pybuf_exporter::ExporterState;
use pybuf_memoryobject::PyMemoryView;
use pybuf_value::{Halt, Scalar, ScalarList, Value};
use std::alloc::Global;
use std::test::Fail;

/// Three numbers of two bytes: 1, 258 and 3.
const NUMBERS: &[u8] = b"\x01\x00\x02\x01\x03\x00";

/// A tuple of three and two.
fn three_by_two(alloc: Global) -> Value {
    let mut parts = ScalarList::new(alloc);
    let _ = parts.push(Scalar::Int(3));
    let _ = parts.push(Scalar::Int(2));
    Value::Tuple(parts)
}

fn ask(view: &PyMemoryView, state: &mut ExporterState, alloc: Global, told: &mut Vec<u8>) {
    tell(told, alloc, view.as_buffer(state, none(alloc)));
    tell(told, alloc, view.delitem(state, number(1), none(alloc)));
    tell(told, alloc, view.enter(state, none(alloc)));
    tell(told, alloc, view.hash(state, none(alloc)));
    tell(
        told,
        alloc,
        view.hex(state, None, Some(number(2)), none(alloc)),
    );
    tell(told, alloc, view.repr_str(state, none(alloc)));
    tell(told, alloc, view.toreadonly(state, none(alloc)));
}

fn measure(view: &PyMemoryView, state: &mut ExporterState, alloc: Global, told: &mut Vec<u8>) {
    tell(told, alloc, view.obj(state, none(alloc)));
    tell(told, alloc, view.nbytes(state, none(alloc)));
    tell(told, alloc, view.itemsize(state, none(alloc)));
    tell(told, alloc, view.ndim(state, none(alloc)));
    tell(told, alloc, view.shape(state, none(alloc)));
    tell(told, alloc, view.strides(state, none(alloc)));
    tell(told, alloc, view.suboffsets(state, none(alloc)));
    tell(told, alloc, view.contiguous(state, none(alloc)));
    tell(told, alloc, view.c_contiguous(state, none(alloc)));
    tell(told, alloc, view.f_contiguous(state, none(alloc)));
}

fn call_all(state: &mut ExporterState, alloc: Global, told: &mut Vec<u8>) -> Result<(), Halt> {
    let whole = PyMemoryView::of_all(state)?;
    let view = whole.cast_to(state, "H")?;
    let (format, shape) = (text(alloc, "B"), three_by_two(alloc));
    tell(told, alloc, whole.cast_f(state, format, shape, none(alloc)));
    ask(&view, state, alloc, told);
    measure(&view, state, alloc, told);
    measure(&PyMemoryView::of(2), state, alloc, told);
    Ok(())
}

/// As `m = memoryview(bytearray(b'\x01\0\x02\x01\x03\0')).cast('H')` of Python 3, but `suboffsets`, which has one 0 for
/// each dimension here; a view is told by its number, and so it is shown. Then as the memoryview of an array of these
/// bytes in three rows, whose items lie in column order: `ndarray` of `_testbuffer` with `ND_FORTRAN` makes it.
#[test]
fn a_memoryview_has_methods(rt: HostRuntime) -> Result<(), Fail> {
    let alloc = rt.alloc();
    let mut told = Vec::new(alloc);
    let mut state = exporter_of(alloc, NUMBERS)?;
    let done = call_all(&mut state, alloc, &mut told);
    drop(state);
    done?;
    assert_eq!(rt;
        told.as_slice(),
        b"view 2; view 3; ! TypeError; itself; ! ValueError; '010002010300'; <memory 1>; view 4; the exporter; 6; 2; 1; (3,); (2,); (0,); True; True; True; the exporter; 6; 1; 2; (3, 2); (1, 3); (0, 0); True; False; True".as_slice()
    );
    Ok(())
}
