//! The section table of a program's file in the ELF format, read as records where it lies.
ghost use Rattle.std.specs.Prelude.{◌≡◌, IfOk};
ghost use Rattle.pybuf_value.specs.Halting.{Gives};
ghost use Rattle.pybuf_table.specs.Records.{record_format};
ghost use Rattle.example_users.specs.Elf.{header_values_of, section_format, section_table_of, sections_of};

use pybuf::{Answer, Fault, Halt, ScalarList};
use pybuf_table::{RecordIter, Records};
use std::alloc::Global;

/// Where the sections of a file are described.
#[derive(Clone, Copy, Debug, PartialEq, Eq)]
pub struct SectionTable {
    /// The place of the first description.
    pub start: u64,
    /// How many there are.
    pub count: u16,
    /// The number of the section that holds their names.
    pub names: u16,
}

/// What of a header says where the sections are described: a place, the bytes of a description, how many there are, and the
/// number of the section of names.
const HEADER: &str = "<40xQ10xHHH";

/// What describes a section.
const SECTION: &str = "<IIQQQQIIQQ";

/// The bytes of a description.
const SECTION_SIZE: usize = 64;

/// The values of a header.
#[tactic(auto, using(crate::proofs::ElfLemmas::header_has_format, crate::proofs::ElfLemmas::header_read_by))]
fn header_values(alloc: Global, file: &[u8]) -> Result<ScalarList, Halt>
    ensures { Gives (header_values_of file.now) result }
{
    let records = Records::from_str(alloc, HEADER)?;
    records.unpack_from(alloc, file, 0).done()
}

/// Where the sections of a file are described.
///
/// Refused with `StructError` exactly where the file is shorter than a header; then with `ValueError` exactly where it doesn't
/// begin as a file of 64 bits with the low byte first, or its sections aren't described by 64 bytes each.
pub fn read_section_table(alloc: Global, file: &[u8]) -> Result<SectionTable, Halt>
    ensures { Gives (section_table_of file.now) result }
{
    let [start, size, count, names] = header_values(alloc, file)?.numbers::<4>()?;
    if &file[..6] != b"\x7fELF\x02\x01".as_slice() {
        return Err(Halt::Refused(Fault::Value));
    }
    if size != SECTION_SIZE as i128 {
        return Err(Halt::Refused(Fault::Value));
    }
    Ok(SectionTable {
        start: start as u64,
        count: count as u16,
        names: names as u16,
    })
}

/// The records that describe sections: the place of a name among the names, type, flags, address, place in the file, size, two
/// numbers by the type, alignment, and size of an entry.
pub fn section_records(alloc: Global) -> Result<Records, Halt>
    ensures value { Gives (record_format section_format) result }
    ensures size { IfOk result (λ records. records.format.size ≡ 64) }
{
    Records::from_str(alloc, SECTION)
}

/// The sections of a file, one after another, each unpacked when it is asked for. The records are those of `section_records`.
///
/// Refused as `read_section_table` refuses, and then with `IndexError` exactly where the file ends before the table does.
pub fn read_sections<'a>(
    alloc: Global,
    records: &'a Records,
    file: &'a [u8],
) -> Result<RecordIter<'a>, Halt>
    requires { records.now.format.size ≡ 64 }
    ensures { Gives (sections_of records.now.format file.now) result }
{
    let table = read_section_table(alloc, file)?;
    let size = SECTION_SIZE * usize::from(table.count);
    let start = table.start as usize;
    if start > file.len() {
        return Err(Halt::Refused(Fault::Index));
    }
    if size > file.len() - start {
        return Err(Halt::Refused(Fault::Index));
    }
    records.iter_unpack(&file[start..start + size]).done()
}
