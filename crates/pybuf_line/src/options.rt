//! The options of new exporters, as words spell them.
ghost use Rattle.std.specs.Prelude.{map};
ghost use Rattle.pybuf_line.specs.Scalars.{handle_in};
ghost use Rattle.pybuf_line.specs.Commands.{options_in};
ghost use Rattle.pybuf_line.specs.Reading.{Reads};

use crate::spellings::value;
use crate::unread::Unread;
use pybuf_command::ByteInnerNewOptions;
use std::alloc::Global;

/// The options of `new` and `init` by their words: none, a source, its encoding, the handler of errors.
#[inline(never)]
pub fn options_of(alloc: Global, words: &[&[u8]]) -> Result<ByteInnerNewOptions, Unread>
    ensures { Reads result (options_in handle_in (map (λ word. word.now) words.now)) }
{
    match words {
        [] => Ok(ByteInnerNewOptions {
            source: None,
            encoding: None,
            errors: None,
        }),
        [source] => {
            let source = Some(value(alloc, source)?);
            Ok(ByteInnerNewOptions {
                source,
                encoding: None,
                errors: None,
            })
        }
        [source, encoding] => {
            // What is dropped is handed over to a call. If it ended with its scope, the drop would spell out all its
            // variants.
            let source = value(alloc, source)?;
            match value(alloc, encoding) {
                Ok(encoding) => Ok(ByteInnerNewOptions {
                    source: Some(source),
                    encoding: Some(encoding),
                    errors: None,
                }),
                Err(unread) => {
                    drop(source);
                    Err(unread)
                }
            }
        }
        [source, encoding, errors] => {
            let source = value(alloc, source)?;
            match value(alloc, encoding) {
                Ok(encoding) => match value(alloc, errors) {
                    Ok(errors) => Ok(ByteInnerNewOptions {
                        source: Some(source),
                        encoding: Some(encoding),
                        errors: Some(errors),
                    }),
                    Err(unread) => {
                        drop(encoding);
                        drop(source);
                        Err(unread)
                    }
                },
                Err(unread) => {
                    drop(source);
                    Err(unread)
                }
            }
        }
        _ => Err(Unread::NoCommand),
    }
}
