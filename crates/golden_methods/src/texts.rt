//! The texts that the methods are tried on.

use pybuf_bytes::PyBytesInner;
use pybuf_value::{ByteList, Made, Scalar, Value};
use std::alloc::Global;

/// What a method is tried on: a text, and a needle where the method takes one.
#[derive(Clone, Copy)]
pub struct Case<'a> {
    pub alloc: Global,
    pub text: &'a PyBytesInner,
    pub needle: &'a PyBytesInner,
}

/// A string of these bytes.
pub fn string(alloc: Global, bytes: &[u8]) -> Made<PyBytesInner> {
    Ok(PyBytesInner::from(Vec::from_slice(alloc, bytes)?))
}

/// The bytes as a value.
pub fn value(bytes: Vec<u8>) -> Value {
    Value::One(Scalar::Bytes(ByteList::from_vec(bytes)))
}

/// A text and a letter behind it; none behind no text.
fn longer(alloc: Global, text: Option<&PyBytesInner>, letter: u8) -> Made<PyBytesInner> {
    let Some(text) = text else {
        return string(alloc, b"");
    };
    let mut longer = Vec::from_slice(alloc, text.as_bytes())?;
    longer.push(letter)?;
    Ok(PyBytesInner::from(longer))
}

/// All texts over an alphabet up to a length, the shorter ones first.
pub fn texts(alloc: Global, alphabet: &[u8], longest: usize) -> Made<Vec<PyBytesInner>> {
    let mut texts = Vec::new(alloc);
    texts.push(PyBytesInner::from(Vec::new(alloc)))?;
    let mut first = 0;
    for _ in 0..longest {
        let end = texts.len();
        for place in first..end {
            for letter in alphabet {
                let text = longer(alloc, texts.get(place), *letter)?;
                texts.push(text)?;
            }
        }
        first = end;
    }
    Ok(texts)
}

fn push(alloc: Global, texts: &mut Vec<PyBytesInner>, bytes: &[u8]) -> Made<()> {
    let text = string(alloc, bytes)?;
    texts.push(text)?;
    Ok(())
}

/// Each byte alone, before an `a`, after one, and between two.
pub fn single_bytes(alloc: Global) -> Made<Vec<PyBytesInner>> {
    let mut texts = Vec::new(alloc);
    for byte in 0..=255u8 {
        push(alloc, &mut texts, &[byte])?;
        push(alloc, &mut texts, &[byte, b'a'])?;
        push(alloc, &mut texts, &[b'a', byte])?;
        push(alloc, &mut texts, &[b'a', byte, b'a'])?;
    }
    Ok(texts)
}
