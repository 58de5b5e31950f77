//! The program `pybuf`: it hands the words after its name, its input and its output to the top
//! call. Where that returns, its status is the status of the process. Where not all was done, standard error
//! says which word of the command line, line of the input or byte of the data is at fault, and what would be right.
#![tactic(auto)]

mod kept;
mod told;

use crate::kept::KeptSource;
use crate::told::{complaint, meaning};
use pybuf_cli::{ReaderSource, Status, WriterSink, serve};
use pybuf_value::{Made, Text};
use std::env;
use std::env::Env;
use std::io::{ErrorKind, Write};
use std::process::ExitCode;

/// The words after the program's name. A word that isn't UTF-8 is a wrong command line.
fn words<R: Env + AllocGlobal>(rt: &R) -> Result<Vec<Text>, Status> {
    let mut words = Vec::new(rt.alloc());
    match env::args(rt) {
        Ok(all) => {
            for word in all.skip(1) {
                if words.push(Text::from_string(word)).is_err() {
                    return Err(Status::NoMemory);
                }
            }
            Ok(words)
        }
        Err(e) => {
            if e.kind() == ErrorKind::OutOfMemory {
                return Err(Status::NoMemory);
            }
            Err(Status::Usage)
        }
    }
}

/// Writes what is told. Where there was no memory for it, only the meaning of the status is written, and where it can't be written,
/// the status still tells it.
fn tell<W: Write>(writer: &mut W, status: Status, told: Made<Vec<u8>>) {
    let _written = match told {
        Ok(text) => writer.write_all(text.as_slice()),
        Err(_) => match meaning(status) {
            Some(text) => writer
                .write_all(b"pybuf: ")
                .and_then(|()| writer.write_all(text.as_bytes()))
                .and_then(|()| writer.write_all(b"\n")),
            None => Ok(()),
        },
    };
}

fn main(rt: HostRuntime) -> ExitCode {
    let alloc = rt.alloc();
    match words(&rt) {
        Ok(words) => {
            let mut source = KeptSource::new(alloc, ReaderSource::new(rt.stdin()));
            let mut sink = WriterSink::new(rt.stdout());
            let status = serve(&rt, alloc, words.as_slice(), &mut source, &mut sink);
            let told = complaint(alloc, words.as_slice(), status, source.taken());
            tell(&mut rt.stderr(), status, told);
            ExitCode::from(status.number())
        }
        Err(status) => {
            let told = complaint(alloc, &[], status, None);
            tell(&mut rt.stderr(), status, told);
            ExitCode::from(status.number())
        }
    }
}
