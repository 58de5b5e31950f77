//! A source that keeps what was taken of it, so that a message can show it.
use pybuf_cli::{Failed, Source};
use std::alloc::Global;

/// A source with a copy of the bytes that were taken of it. Where there is no memory for the copy, nothing is kept, and the bytes are
/// taken all the same.
#[derive(Drop)]
pub(crate) struct KeptSource<S: Source> {
    source: S,
    kept: Option<Vec<u8>>,
}

impl<S: Source> KeptSource<S> {
    /// The source, of which nothing was taken yet.
    pub(crate) fn new(alloc: Global, source: S) -> KeptSource<S> {
        KeptSource {
            source,
            kept: Some(Vec::new(alloc)),
        }
    }

    /// All bytes that were taken, or none where they weren't kept.
    pub(crate) fn taken(&self) -> Option<&[u8]> {
        match &self.kept {
            Some(bytes) => Some(bytes.as_slice()),
            None => None,
        }
    }
}

impl<S: Source> Source for KeptSource<S> {
    ghost bytes_left = { λ kept. S.bytes_left kept.source };

    ghost faults = { λ kept. S.faults kept.source };

    /// Moves what the source gives, and keeps a copy of it.
    fn take(&mut self, room: &mut [u8]) -> Result<usize, Failed> {
        let count = self.source.take(room)?;
        if let Some(bytes) = &mut self.kept
            && bytes.extend_from_slice(&room[..count]).is_err()
        {
            self.kept = None;
        }
        Ok(count)
    }
}
