//! What a run is asked for, by the words after the program's name.
ghost use Rattle.std.specs.Prelude.{◌<◌, ◌≤◌};

use std::env;
use std::env::Env;

/// What the threads of a run ask, and whom.
#[derive(Clone, Copy)]
pub enum Form {
    /// All of the following, one after the other.
    All,
    /// All ask one exporter that keeps a history.
    One,
    /// Each asks one of its own that keeps a history.
    Each,
    /// Each asks one of its own, under no lock.
    Own,
    /// All ask one exporter that keeps no history.
    Locked,
    /// The same, and each takes a byte out again for each byte that it adds.
    Soak,
    /// All read one exporter that keeps no history.
    Reads,
}

/// How many threads there are, and what each does.
#[derive(Clone, Copy)]
pub struct Plan {
    /// What they ask, and whom.
    pub form: Form,
    /// The number of threads.
    pub threads: usize,
    /// The number of rounds that each makes.
    pub rounds: u64,
}

/// The words, none where they can't be read.
pub fn words_of<R: Env + AllocGlobal>(rt: &R) -> Vec<String> {
    let mut found = Vec::new(rt.alloc());
    if let Ok(words) = env::args(rt) {
        for word in words.skip(1) {
            let _ = found.push(word);
        }
    }
    found
}

/// The number that a word spells, or another where it spells none.
fn number_or(word: Option<&String>, other: u64) -> u64 {
    match word {
        Some(word) => word.parse().unwrap_or(other),
        None => other,
    }
}

/// At least one thread, and at most 1,024.
fn threads_of(words: &[String]) -> usize
    ensures some { 0 < result }
    ensures most { result ≤ 1024 }
{
    let number = number_or(words.get(1), 1);
    if number == 0 || number > 1024 {
        return 1;
    }
    number as usize
}

/// The form that a word names.
fn form_of(word: Option<&String>) -> Form {
    match word {
        Some(word) => match word.as_str() {
            "all" => Form::All,
            "each" => Form::Each,
            "own" => Form::Own,
            "locked" => Form::Locked,
            "soak" => Form::Soak,
            "reads" => Form::Reads,
            _ => Form::One,
        },
        None => Form::One,
    }
}

/// What the words ask for.
pub fn plan_of(words: &[String]) -> Plan
    ensures some { 0 < result.threads }
    ensures most { result.threads ≤ 1024 }
{
    Plan {
        form: form_of(words.first()),
        threads: threads_of(words),
        rounds: number_or(words.get(2), 1),
    }
}
