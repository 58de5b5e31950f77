//! The methods of strings of bytes, by the type that has them and by their names.
use crate::telling::{Told, equal, gives, same, tells};
use crate::values::{bytes, none};
use pybuf::{
    Answer, ByteStr, Fault, Made, MethodCall, MethodName, PyBytes, PyBytesInner, ValueList,
};
use std::alloc::Global;
use std::test::Fail;

fn string(alloc: Global, bytes: &[u8]) -> Made<PyBytesInner> {
    Ok(PyBytesInner::from(Vec::from_slice(alloc, bytes)?))
}

#[test]
fn strings_have_methods(rt: HostRuntime) -> Result<(), Fail> {
    let alloc = rt.alloc();
    let name = string(alloc, b" key=value ")?;
    same(&rt, name.strip(alloc, None)?.as_slice(), b"key=value");
    same(&rt, name.upper(alloc)?.as_slice(), b" KEY=VALUE ");
    let (sign, colon) = (string(alloc, b"=")?, string(alloc, b": ")?);
    let replaced = name.replace(alloc, &sign, &colon, None).done()?;
    same(&rt, replaced.as_slice(), b" key: value ");
    let digits = sign.hex(alloc, None, None).done()?;
    same(&rt, digits.as_slice(), b"3d");
    Ok(())
}

#[test]
fn lent_bytes_are_searched_and_split(rt: HostRuntime) -> Result<(), Fail> {
    let alloc = rt.alloc();
    let line = ByteStr::new(b"key=a,b");
    equal(&rt, line.find(b"=", None, None), Some(3));
    equal(&rt, line.rfind(b"=", Some(4), None), None);
    equal(&rt, line.index(b";", None, None), Err(Fault::Value));
    equal(&rt, line.count(b",", Some(-3), None), 1);
    equal(&rt, line.startswith(b"key", None, None), true);
    let parts = line.split(alloc, Some(b","), Some(1))?;
    if let Some(last) = parts.get(1) {
        same(&rt, last.as_slice(), b"b");
    }
    let replaced = line.replace(alloc, b",", b", ", None)?;
    same(&rt, replaced.as_slice(), b"key=a, b");
    let text = ByteStr::new(b"\xc3\xa9").decode(alloc, None, None)?;
    equal(&rt, text.as_str(), "é");
    Ok(())
}

/// A call of a method with one argument.
fn call(alloc: Global, name: MethodName, argument: &[u8]) -> Made<MethodCall> {
    let mut args = ValueList::new(alloc);
    args.push(bytes(alloc, argument)?)?;
    Ok(MethodCall { name, args })
}

#[test]
fn methods_are_called_by_name(rt: HostRuntime) -> Result<(), Fail> {
    let alloc = rt.alloc();
    let mut object = PyBytes::new_ref(alloc, Vec::from_slice(alloc, b"a,b,c")?);
    let find = call(alloc, MethodName::RFind, b",")?;
    tells(&rt, object.call(find, none(alloc)), Told::Number(3));
    let without = call(alloc, MethodName::RemovePrefix, b"a,")?;
    gives(&rt, object.call(without, none(alloc)), b"b,c");
    Ok(())
}
