//! A writer that knows whether its reader has gone.

use std::io::{ErrorKind, Result, Write};

/// Writes to another writer, and keeps whether a write failed since nobody reads any more.
#[derive(Drop)]
pub(crate) struct Outlet<'a, O: Write> {
    writer: &'a mut O,
    is_closed: bool,
}

impl<'a, O: Write> Outlet<'a, O> {
    pub(crate) fn new(writer: &'a mut O) -> Outlet<'a, O> {
        Outlet {
            writer,
            is_closed: false,
        }
    }

    /// Whether the reader has gone.
    pub(crate) fn is_closed(&self) -> bool {
        self.is_closed
    }
}

impl<O: Write> Write for Outlet<'_, O> {
    fn write(&mut self, buf: &[u8]) -> Result<usize> {
        match self.writer.write(buf) {
            Ok(count) => Ok(count),
            Err(error) => {
                self.is_closed = error.kind() == ErrorKind::BrokenPipe;
                Err(error)
            }
        }
    }

    fn flush(&mut self) -> Result<()> {
        self.writer.flush()
    }
}
