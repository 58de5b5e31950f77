//! The name that is nearest to a word that is none.
use pybuf_value::Made;
use std::alloc::Global;
use strsim::levenshtein;

/// A word that is longer than this is near to no name.
const LONGEST: usize = 24;

/// So many letters may be other ones, be missing or be too many. A name of fewer letters than three is near to none.
const MOST_CHANGES: usize = 2;

/// The nearest name so far, and how many changes it takes.
#[derive(Drop)]
struct Candidate {
    name: Option<&'static str>,
    changes: usize,
}

/// Whether a name may be near to a word, and the word as a text.
fn text_of(word: &[u8]) -> Option<&str> {
    if word.len() > LONGEST {
        return None;
    }
    str::from_utf8(word).ok()
}

impl Candidate {
    /// No name yet for a word of so many letters.
    fn none(letters: usize) -> Candidate {
        Candidate {
            name: None,
            changes: letters.min(MOST_CHANGES + 1),
        }
    }

    /// Takes a name where it is nearer.
    fn take(&mut self, alloc: Global, text: &str, name: &'static str) -> Made<()> {
        let changes = levenshtein(alloc, text, name)?;
        if changes < self.changes {
            self.changes = changes;
            self.name = Some(name);
        }
        Ok(())
    }
}

/// The name that takes the fewest changes of single letters to make a word of it, the first of several. None where each takes more
/// than two, or as many as the word has letters.
pub(crate) fn nearest(
    alloc: Global,
    word: &[u8],
    names: &[&'static str],
) -> Made<Option<&'static str>> {
    let Some(text) = text_of(word) else {
        return Ok(None);
    };
    let mut found = Candidate::none(word.len());
    for name in names {
        found.take(alloc, text, name)?;
    }
    Ok(found.name)
}

/// The same of the first texts of some pairs.
pub(crate) fn nearest_first(
    alloc: Global,
    word: &[u8],
    pairs: &[(&'static str, &'static str)],
) -> Made<Option<&'static str>> {
    let Some(text) = text_of(word) else {
        return Ok(None);
    };
    let mut found = Candidate::none(word.len());
    for pair in pairs {
        found.take(alloc, text, pair.0)?;
    }
    Ok(found.name)
}
