//! What bytes are made of, as a command says it.
use pybuf_value::{Exact, Made, NoMemory, Twin, Value};
use std::alloc::Global;

/// What bytes are made of, as the arguments of Python's `bytes(source, encoding, errors)` (Library
/// reference, "Built-in Functions", `bytearray`). An argument that isn't there is absent; a `None`
/// that is given is a value.
///
/// Example: the source 3 without an encoding asks for `b"\0\0\0"`.
#[derive(Debug, Drop, PartialEq)]
pub struct ByteInnerNewOptions {
    pub source: Option<Value>,
    pub encoding: Option<Value>,
    pub errors: Option<Value>,
}

impl Twin for ByteInnerNewOptions {
    fn copy(&self, alloc: Global) -> Made<ByteInnerNewOptions> {
        // What is dropped is handed over to a call. If it ended with its scope, the drop would spell out all its
        // variants.
        let source = self.source.copy(alloc)?;
        match self.encoding.copy(alloc) {
            Ok(encoding) => match self.errors.copy(alloc) {
                Ok(errors) => Ok(ByteInnerNewOptions {
                    source,
                    encoding,
                    errors,
                }),
                Err(NoMemory) => {
                    drop(encoding);
                    drop(source);
                    Err(NoMemory)
                }
            },
            Err(NoMemory) => {
                drop(source);
                Err(NoMemory)
            }
        }
    }
}

impl Exact for ByteInnerNewOptions {
    ghost exact = { λ x y e. e };
}
