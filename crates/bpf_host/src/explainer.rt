//! A writer that says below each line what it means.

use host_script::Script;
use script_meaning::meaning_of;
use std::alloc::{AllocError, Global};
use std::io::{Result, Write};
use world_trace::words_of_queued;

/// Writes lines of a script to another writer, and below each line, indented, what it means. A meaning for which there is no
/// memory is left out.
#[derive(Drop)]
pub(crate) struct Explainer<'a, O: Write> {
    alloc: Global,
    script: &'a Script,
    writer: &'a mut O,
    /// What was written of the line so far.
    line: Vec<u8>,
    /// Whether that is all of it: not where there was no memory for it.
    is_whole: bool,
}

impl<'a, O: Write> Explainer<'a, O> {
    pub(crate) fn new(alloc: Global, script: &'a Script, writer: &'a mut O) -> Explainer<'a, O> {
        Explainer {
            alloc,
            script,
            writer,
            line: Vec::new(alloc),
            is_whole: true,
        }
    }

    /// Writes what the line means, which is whole, and begins the next one.
    fn end_line(&mut self) -> Result<()> {
        let meaning = self.meaning();
        self.line.clear();
        self.is_whole = true;
        match meaning {
            Ok(meaning) => self.writer.write_all(meaning.as_bytes()),
            Err(_) => Ok(()),
        }
    }

    fn meaning(&self) -> std::result::Result<String, AllocError> {
        match str::from_utf8(&self.line) {
            Ok(line) if self.is_whole => self.meaning_of(line.trim_end()),
            _ => Ok(String::new(self.alloc)),
        }
    }

    fn meaning_of(&self, line: &str) -> std::result::Result<String, AllocError> {
        match words_of_queued(self.alloc, line)? {
            Some(words) => format!(in self.alloc; "    {words}\n"),
            None => meaning_of(self.alloc, self.script, line),
        }
    }
}

impl<O: Write> Write for Explainer<'_, O> {
    fn write(&mut self, buf: &[u8]) -> Result<usize> {
        let count = match buf.iter().position(|byte| *byte == b'\n') {
            Some(end) => end.saturating_add(1),
            None => buf.len(),
        };
        let front = &buf[..count];
        self.writer.write_all(front)?;
        if self.line.extend_from_slice(front).is_err() {
            self.is_whole = false;
        }
        if front.last() == Some(&b'\n') {
            self.end_line()?;
        }
        Ok(count)
    }

    fn flush(&mut self) -> Result<()> {
        self.writer.flush()
    }
}
