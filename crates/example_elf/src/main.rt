//! Prints the section table of a program's file, which it reads from its standard input: where the table begins, how many
//! sections there are, and the number of the one that holds their names; and then a line for each section, with its number, its
//! name, and its values as numbers.
#![tactic(auto)]

use bstr::ByteSlice;
use example_users::{SectionTable, read_section_table, read_sections, section_records};
use pybuf::{Fault, Halt, Made};
use pybuf_table::RecordIter;
use pybuf_value::push_number;
use std::alloc::Global;
use std::io::{Read, Write};
use std::process::ExitCode;

/// As many pieces of a file are read at most.
const PIECES: usize = 4096;

/// The bytes of a piece at most.
const PIECE: usize = 65_536;

/// How many numbers describe a section.
const NUMBERS: usize = 10;

/// Adds the next piece to a file, and says whether there was one.
fn read_piece<R: Read>(reader: &mut R, file: &mut Vec<u8>) -> Made<bool> {
    let mut room = [0u8; PIECE];
    match reader.read(&mut room) {
        Ok(count) => {
            if count > PIECE {
                return Ok(false);
            }
            file.extend_from_slice(&room[..count])?;
            Ok(count > 0)
        }
        Err(_) => Ok(false),
    }
}

/// The bytes of a file.
fn read_file<R: Read>(alloc: Global, reader: &mut R) -> Made<Vec<u8>> {
    let mut file = Vec::new(alloc);
    for _piece in 0..PIECES {
        if !read_piece(reader, &mut file)? {
            return Ok(file);
        }
    }
    Ok(file)
}

/// The numbers that describe the next section.
fn next_section(alloc: Global, sections: &mut RecordIter) -> Result<[i128; NUMBERS], Halt> {
    match sections.next_row(alloc)? {
        Some(row) => Ok(row.numbers::<NUMBERS>()?),
        None => Err(Halt::Refused(Fault::Index)),
    }
}

/// The part of bytes from a place on, as many as are asked for; none where these aren't there.
fn part(bytes: &[u8], start: i128, size: i128) -> &[u8] {
    let Ok(start) = usize::try_from(start) else {
        return &[];
    };
    let Ok(size) = usize::try_from(size) else {
        return &[];
    };
    if start > bytes.len() {
        return &[];
    }
    if size > bytes.len() - start {
        return &[];
    }
    &bytes[start..start + size]
}

/// The name that begins at a place of the names, which a byte of 0 ends.
fn name_at(names: &[u8], start: i128) -> &[u8] {
    let Ok(start) = usize::try_from(start) else {
        return &[];
    };
    if start > names.len() {
        return &[];
    }
    let rest = &names[start..];
    match rest.find_byte(0) {
        Some(end) => &rest[..end],
        None => rest,
    }
}

/// The names of all sections, one behind the other.
fn names_of(alloc: Global, file: &[u8], table: SectionTable) -> Result<&[u8], Halt> {
    let records = section_records(alloc)?;
    let mut sections = read_sections(alloc, &records, file)?;
    for _section in 0..table.names {
        next_section(alloc, &mut sections)?;
    }
    let [_, _, _, _, start, size, _, _, _, _] = next_section(alloc, &mut sections)?;
    Ok(part(file, start, size))
}

/// Adds a word and a number, and ends the line.
fn push_line(out: &mut Vec<u8>, word: &[u8], number: i128) -> Made<()> {
    out.extend_from_slice(word)?;
    out.push(b' ')?;
    push_number(out, number)?;
    out.push(b'\n')?;
    Ok(())
}

/// Adds the line of a section.
fn push_section(
    out: &mut Vec<u8>,
    number: u16,
    names: &[u8],
    section: [i128; NUMBERS],
) -> Made<()> {
    let [
        name,
        kind,
        flags,
        address,
        start,
        size,
        link,
        info,
        alignment,
        entry,
    ] = section;
    push_number(out, i128::from(number))?;
    out.push(b' ')?;
    out.extend_from_slice(name_at(names, name))?;
    for value in [
        kind, flags, address, start, size, link, info, alignment, entry,
    ] {
        out.push(b' ')?;
        push_number(out, value)?;
    }
    out.push(b'\n')?;
    Ok(())
}

/// The lines of the section table of a file.
fn lines(alloc: Global, file: &[u8]) -> Result<Vec<u8>, Halt> {
    let table = read_section_table(alloc, file)?;
    let mut out = Vec::new(alloc);
    push_line(&mut out, b"start", i128::from(table.start))?;
    push_line(&mut out, b"sections", i128::from(table.count))?;
    push_line(&mut out, b"names", i128::from(table.names))?;
    let names = names_of(alloc, file, table)?;
    let records = section_records(alloc)?;
    let mut sections = read_sections(alloc, &records, file)?;
    for number in 0..table.count {
        let section = next_section(alloc, &mut sections)?;
        push_section(&mut out, number, names, section)?;
    }
    Ok(out)
}

/// What is printed of the file that is read, or why nothing is.
fn answer<R: Read>(alloc: Global, reader: &mut R) -> Result<Vec<u8>, Halt> {
    let file = read_file(alloc, reader)?;
    lines(alloc, file.as_slice())
}

fn main(rt: HostRuntime) -> ExitCode {
    let mut reader = rt.stdin();
    match answer(rt.alloc(), &mut reader) {
        Ok(text) => match rt.stdout().write_all(text.as_slice()) {
            Ok(()) => ExitCode::SUCCESS,
            Err(_) => ExitCode::from(5),
        },
        Err(Halt::NoMemory) => ExitCode::from(3),
        Err(Halt::Refused(fault)) => {
            let name = fault.python_name();
            // if the name can't be written, the exit status still tells that the file was refused
            let _ = eprintln!(rt; "example_elf: {name}");
            ExitCode::from(2)
        }
    }
}
