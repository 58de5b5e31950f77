//! Ten tasks. `docs/tasks/cookbook.md` shows each beside Python's lines for the same, and `tools/python_tasks.py` compares what both print.
#![tactic(auto)]

mod files;
mod objects;
mod threads;
mod views;

use example_users::Interpreter;
use pybuf::{Fault, Halt, PyByteArray};
use std::alloc::Global;
use std::fs;
use std::io::Write;
use std::process::ExitCode;
use std::rt::Files;
use std::sync::Wait;
use std::thread::Threads;

/// The bytes of a file in the folder in which the program runs.
fn bytes_of<R: Files + AllocGlobal>(rt: &R, name: &str) -> Result<Vec<u8>, Halt> {
    match fs::read(rt, name) {
        Ok(bytes) => Ok(bytes),
        Err(_) => Err(Halt::Refused(Fault::Index)),
    }
}

/// The same as a bytearray.
fn array_of<R: Files + AllocGlobal>(rt: &R, name: &str) -> Result<PyByteArray, Halt> {
    Ok(PyByteArray::from(bytes_of(rt, name)?))
}

fn chunks<R: Files + AllocGlobal>(rt: &R, out: &mut String) -> Result<(), Halt> {
    let picture = bytes_of(rt, "picture.png")?;
    files::chunks(rt.alloc(), picture.as_slice(), out)
}

fn change(alloc: Global, out: &mut String) -> Result<(), Halt> {
    let mut file = PyByteArray::from_slice(alloc, b"ada\0\x05\0bob\0\x07\0")?;
    files::change(alloc, &mut file, out)
}

fn receive(alloc: Global, out: &mut String) -> Result<(), Halt> {
    let mut queue = PyByteArray::new(alloc);
    objects::receive(alloc, &mut queue, out)
}

fn turn(alloc: Global, out: &mut String) -> Result<(), Halt> {
    let mut map = PyByteArray::from_slice(alloc, &[0, 1, 2, 3, 4, 5, 6, 7, 8, 9, 10, 11])?;
    views::turn(alloc, &mut map, out)
}

fn mean<R: Files + AllocGlobal>(rt: &R, out: &mut String) -> Result<(), Halt> {
    let mut file = array_of(rt, "sensor.bin")?;
    files::mean(&mut file, out)
}

fn compare(alloc: Global, out: &mut String) -> Result<(), Halt> {
    let mut file = PyByteArray::from_slice(alloc, &[1, 2, 3, 4, 5, 6, 4, 5, 6, 1, 2, 3])?;
    views::compare(alloc, &mut file, out)
}

fn interpret(alloc: Global, out: &mut String) -> Result<(), Halt> {
    let mut python = Interpreter::new(alloc);
    objects::interpret(alloc, &mut python, out)
}

fn patch<R: Files + AllocGlobal>(rt: &R, out: &mut String) -> Result<(), Halt> {
    let mut file = array_of(rt, "status.elf")?;
    files::patch(&mut file, out)
}

fn stream<R: Files + AllocGlobal>(rt: &R, out: &mut String) -> Result<(), Halt> {
    let Ok(mut file) = fs::open(rt, "log.txt") else {
        return Err(Halt::Refused(Fault::Index));
    };
    match files::stream(rt.alloc(), &mut file, out) {
        Ok(()) => Ok(()),
        Err(_) => Err(Halt::Refused(Fault::Value)),
    }
}

/// Carries out the tasks in the order of the page.
fn all<R: Files + AllocGlobal + Threads + Wait + Sync>(
    rt: &R,
    out: &mut String,
) -> Result<(), Halt> {
    let alloc = rt.alloc();
    chunks(rt, out)?;
    change(alloc, out)?;
    receive(alloc, out)?;
    turn(alloc, out)?;
    mean(rt, out)?;
    compare(alloc, out)?;
    interpret(alloc, out)?;
    threads::count(rt, alloc, out)?;
    patch(rt, out)?;
    stream(rt, out)
}

fn main(rt: HostRuntime) -> ExitCode {
    let mut out = String::new(rt.alloc());
    if all(&rt, &mut out).is_err() {
        return ExitCode::from(2);
    }
    match rt.stdout().write_all(out.as_bytes()) {
        Ok(()) => ExitCode::SUCCESS,
        Err(_) => ExitCode::from(5),
    }
}
