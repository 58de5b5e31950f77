//! Five things that are asked often, as the pages show them beside Python's.
use crate::telling::{equal, same};
use pybuf::{ByteStr, FormatSpec, PyByteArray, PyMemoryView};
use std::test::Fail;

#[test]
fn five_things(rt: HostRuntime) -> Result<(), Fail> {
    let alloc = rt.alloc();
    let place = ByteStr::new(b"key=value").find(b"=", None, None);
    equal(&rt, place, Some(3));
    let record = b"\xfe\xff\x02\x01\x00\x00";
    let format = FormatSpec::from_str(alloc, "<hI")?;
    let [delta, count] = format.unpack_values(alloc, record)?.numbers::<2>()?;
    equal(&rt, (delta, count), (-2, 258));
    let mut array = PyByteArray::from_slice(alloc, b"abcde")?;
    array.push(102)?;
    let view = PyMemoryView::of_all(array.state_mut())?;
    let part = view.slice(array.state_mut(), 1..4)?;
    let bytes = part.to_vec(array.state())?;
    same(&rt, bytes.as_slice(), b"bcd");
    let mut other = PyByteArray::from_slice(alloc, b"XYZ")?;
    let source = PyMemoryView::of_all(other.state_mut())?;
    view.assign_from(array.state_mut(), 2..5, other.state(), &source)?;
    same(&rt, array.as_slice(), b"abXYZf");
    Ok(())
}
