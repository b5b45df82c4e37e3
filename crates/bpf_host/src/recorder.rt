//! A reader that keeps what is read.

use std::alloc::Global;
use std::io::{Read, Result};

/// Reads from another reader, and keeps what it gave.
#[derive(Drop)]
pub(crate) struct Recorder<'a, I: Read> {
    reader: &'a mut I,
    kept: Vec<u8>,
    /// Whether all that was read is kept: not where there was no memory for it.
    is_whole: bool,
}

impl<'a, I: Read> Recorder<'a, I> {
    pub(crate) fn new(alloc: Global, reader: &'a mut I) -> Recorder<'a, I> {
        Recorder {
            reader,
            kept: Vec::new(alloc),
            is_whole: true,
        }
    }

    /// What was read so far; none where there was no memory to keep it.
    pub(crate) fn kept(&self) -> Option<&[u8]> {
        if self.is_whole {
            Some(&self.kept)
        } else {
            None
        }
    }
}

impl<I: Read> Read for Recorder<'_, I> {
    ghost remaining = { λ r. I.remaining r.reader.now };

    fn read(&mut self, buf: &mut [u8]) -> Result<usize> {
        let count = self.reader.read(buf)?;
        if self.is_whole {
            self.is_whole = self.kept.extend_from_slice(&buf[..count]).is_ok();
        }
        Ok(count)
    }
}
