//! A binary file in memory, read by formats.
ghost use Rattle.std.specs.Prelude.{◌≡◌, Ok};
ghost use Rattle.pybuf_value.specs.Halting.{Gives};
ghost use Rattle.example_users.specs.Log.{header_of, reading_of};

use pybuf::{Fault, FormatSpec, Halt, PyBytes};
use std::alloc::Global;
use std::marker::Model;

/// What a log begins with.
#[derive(Clone, Copy, Debug, PartialEq, Eq)]
pub struct Header {
    /// The year of the readings.
    pub year: u16,
    /// How many readings follow.
    pub count: u32,
}

/// A reading of a weather station.
#[derive(Clone, Copy, Debug, PartialEq, Eq)]
pub struct Reading {
    /// The second of the year.
    pub second: u32,
    /// Tenths of a degree.
    pub temperature: i16,
    /// The number of the station.
    pub station: u8,
}

/// The format of a header, behind the four bytes `LOGS`: the year and the number of readings.
const HEADER: &str = "<4xHI";

/// The format of a reading.
const READING: &str = "<IhB";

/// The bytes of a header, and of a reading.
const HEADER_SIZE: usize = 10;

const READING_SIZE: usize = 7;

/// The header of a file.
///
/// Refused with `StructError` exactly where the file is shorter than a header, and then with `ValueError`
/// exactly where it doesn't begin with `LOGS`.
#[tactic(auto, using(crate::proofs::LogLemmas::header_format, crate::proofs::LogLemmas::header_refused, crate::proofs::LogLemmas::header_is_read))]
pub fn read_header(alloc: Global, file: &[u8]) -> Result<Header, Halt>
    ensures { Gives (header_of file.now) result }
{
    let format = FormatSpec::from_str(alloc, HEADER)?;
    let [year, count] = format.unpack_from(alloc, file, 0)?.numbers::<2>()?;
    if &file[..4] != b"LOGS".as_slice() {
        return Err(Halt::Refused(Fault::Value));
    }
    let (year, count) = (year as u16, count as u32);
    Ok(Header { year, count })
}

/// The reading that seven bytes are.
///
/// Refused with `StructError` exactly where they are another number of bytes.
#[tactic(auto, using(crate::proofs::LogLemmas::reading_format, crate::proofs::LogLemmas::reading_unread, crate::proofs::LogLemmas::reading_is_read))]
pub fn read_reading(alloc: Global, bytes: &[u8]) -> Result<Reading, Halt>
    ensures { Gives (reading_of bytes.now) result }
{
    let format = FormatSpec::from_str(alloc, READING)?;
    let [second, heat, station] = format.unpack_values(alloc, bytes)?.numbers::<3>()?;
    Ok(Reading {
        second: second as u32,
        temperature: heat as i16,
        station: station as u8,
    })
}

/// A log in memory: its header, and then its readings, one after the other. A clause sees its bytes.
#[derive(Debug, Drop)]
pub struct WeatherLog {
    file: PyBytes,
    header: Header,
}

impl Model for WeatherLog {
    ghost use Rattle.std.specs.Prelude.{List, ℕ};
    ghost use Rattle.example_users.specs.Log.{IsLog};

    ghost Value = { List ℕ };

    ghost view = { λ log. log.file.bytes };

    ghost invariant = { λ log. IsLog log.file log.header };
}

impl WeatherLog {
    ghost use Rattle.example_users.specs.Log.{checked_log, reading_at};

    /// The log that a file is.
    ///
    /// Refused as `read_header` refuses it, and then with `StructError` exactly where it has another length than
    /// its header says.
    pub fn open(alloc: Global, file: Vec<u8>) -> Result<WeatherLog, Halt>
        ensures { Gives (checked_log file.items) result }
    {
        let header = read_header(alloc, file.as_slice())?;
        if file.len() != HEADER_SIZE + READING_SIZE * header.count as usize {
            return Err(Halt::Refused(Fault::Struct));
        }
        let file = PyBytes::from_vec(alloc, file);
        Ok(WeatherLog { file, header })
    }

    /// The header.
    pub fn header(&self) -> Header
        ensures { header_of self.now ≡ Ok result }
    {
        self.header
    }

    /// The reading of a number, from 0 on, read from where it lies.
    ///
    /// Refused with `IndexError` exactly where the log has no such reading.
    pub fn reading(&self, alloc: Global, number: usize) -> Result<Reading, Halt>
        ensures { Gives (reading_at self.now number) result }
    {
        if number >= self.header.count as usize {
            return Err(Halt::Refused(Fault::Index));
        }
        let from = HEADER_SIZE + READING_SIZE * number;
        read_reading(alloc, &self.file.as_slice()[from..from + READING_SIZE])
    }
}
