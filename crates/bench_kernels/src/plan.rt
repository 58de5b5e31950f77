//! What a run is asked for, by the words after the program's name.

use std::env;
use std::env::Env;

/// The number of bytes of a plane of 256 rows of 16 bytes.
pub const PLANE: usize = 4_096;

/// One mebibyte.
const MEBIBYTE: u64 = 1_048_576;

/// The sizes of the kernels, and how often each is called.
#[derive(Clone, Copy)]
pub struct Plan {
    /// The number of calls that are measured.
    pub calls: u64,
    /// The number of bytes of a kernel over bytes.
    pub size: usize,
    /// The number of items of a kernel over items.
    pub count: usize,
    /// What the bytes are drawn from.
    pub seed: u64,
    /// Whether the time is told.
    pub is_timed: bool,
}

/// The words, none where they can't be read.
pub fn words_of<R: Env + AllocGlobal>(rt: &R) -> Vec<String> {
    let mut found = Vec::new(rt.alloc());
    if let Ok(words) = env::args(rt) {
        for word in words.skip(1) {
            let _ = found.push(word);
        }
    }
    found
}

/// The kernel that the first word names: all where there is none.
pub fn name_of(words: &[String]) -> &str {
    match words.first() {
        Some(word) => word.as_str(),
        None => "all",
    }
}

/// The number that a word spells, or another where it spells none.
fn number_or(word: Option<&String>, other: u64) -> u64 {
    match word {
        Some(word) => word.parse().unwrap_or(other),
        None => other,
    }
}

/// What the words behind the first ask for. The bytes are whole planes, and at least one.
pub fn plan_of(words: &[String]) -> Plan {
    let size = number_or(words.get(2), MEBIBYTE).min(1 << 40) as usize;
    Plan {
        calls: number_or(words.get(1), 1),
        size: (size / PLANE).max(1) * PLANE,
        count: number_or(words.get(3), 100_000).min(1 << 40) as usize,
        seed: number_or(words.get(4), 1),
        is_timed: match words.get(5) {
            Some(word) => word.as_str() == "time",
            None => false,
        },
    }
}
