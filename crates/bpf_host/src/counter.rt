//! How far a command is, on one line of a terminal.

use crate::check::first_difference;
use host_script::Progress;
use std::io::Write;

/// Counts on one line of a stream that a person watches, and not on another; says on either what an `expect` finds. What
/// can't be written is lost.
#[derive(Drop)]
pub(crate) struct Counter<'a, E: Write> {
    stream: &'a mut E,
    is_watched: bool,
    is_shown: bool,
}

impl<'a, E: Write> Counter<'a, E> {
    pub(crate) fn new(stream: &'a mut E, is_watched: bool) -> Counter<'a, E> {
        Counter {
            stream,
            is_watched,
            is_shown: false,
        }
    }

    fn show(&mut self, what: &str, done: u64, all: u64) {
        if self.is_watched {
            let _ = write!(self.stream, "\r{what} {done} of {all}\x1b[K");
            self.is_shown = true;
        }
    }

    /// Clears the line.
    pub(crate) fn end(&mut self) {
        if self.is_shown {
            let _ = write!(self.stream, "\r\x1b[K");
            self.is_shown = false;
        }
    }
}

impl<E: Write> Progress for Counter<'_, E> {
    fn keys(&mut self, made: usize, all: usize) {
        self.show("keys made:", made as u64, all as u64);
    }

    fn step(&mut self, number: u32, all: usize) {
        self.show("step", u64::from(number), all as u64);
    }

    fn unexpected(&mut self, step: u32, wanted: &[u8], printed: &[u8]) {
        self.end();
        if let (Ok(wanted), Ok(printed)) = (str::from_utf8(wanted), str::from_utf8(printed)) {
            let (line, wanted, got) = first_difference(wanted, printed);
            let _ = writeln!(
                self.stream,
                "bpf_host: step {step} line {line}: wanted {wanted:?}, got {got:?}"
            );
        }
    }

    fn requests(&mut self, answered: u64, all: u64) {
        self.show("requests answered:", answered, all);
    }

    fn seeds(&mut self, done: u64, all: u64) {
        self.show("seeds:", done, all);
    }
}
