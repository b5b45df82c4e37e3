//! Streams that fail, for tests of scripts.

ghost use Rattle.std.specs.Prelude.{◌≡◌, ◌+◌, ◌↔◌, Some, IsErr, OnErr, OnOk};
ghost use Rattle.std.specs.Io.{ReadsAtMost, WritesAtMost};
ghost use Rattle.std.specs.Io.KnownBytes.{ReadConsumes, WriteAppends, Keeps};

use std::io::{Error, ErrorKind, Read, Result, Write};

/// A reader of bytes, of which each read gives as many as there is room for, until one fails; so does each later one.
#[derive(Drop)]
pub struct BrokenReader<'a> {
    /// The bytes that are left.
    pub bytes: &'a [u8],
    /// How many reads there are before the one that fails.
    pub reads: u32,
}

impl Read for BrokenReader<'_> {
    ghost remaining = { λ r. Some r.bytes.now };

    fn read(&mut self, buf: &mut [u8]) -> Result<usize>
        ensures bound { ReadsAtMost result buf.new }
        ensures bytes { ReadConsumes (Some self.old.bytes.now) (Some self.new.bytes.now) result buf.new }
        ensures fails { IsErr result ↔ (self.old.reads ≡ 0) }
        ensures counted { OnOk result (self.new.reads + 1 ≡ self.old.reads) }
        ensures stays { OnErr result (self.new.reads ≡ self.old.reads) }
    {
        if self.reads == 0 {
            return Err(Error::from(ErrorKind::Other));
        }
        self.reads -= 1;
        Read::read(&mut self.bytes, buf)
    }
}

/// A writer that keeps what it takes, until a write fails; so does each later one.
#[derive(Drop)]
pub struct BrokenWriter {
    /// What was written.
    pub written: Vec<u8>,
    /// How many writes there are before the one that fails.
    pub writes: u32,
}

impl Write for BrokenWriter {
    ghost contents = { λ w. Some w.written.items };

    fn write(&mut self, buf: &[u8]) -> Result<usize>
        ensures bound { WritesAtMost result buf.now }
        ensures bytes { WriteAppends (Some self.old.written.items) (Some self.new.written.items) result buf.now }
        ensures fails { self.old.writes ≡ 0 → IsErr result }
        ensures counted { OnOk result (self.new.writes + 1 ≡ self.old.writes) }
        ensures stays { self.old.writes ≡ 0 → self.new.writes ≡ 0 }
    {
        if self.writes == 0 {
            return Err(Error::from(ErrorKind::BrokenPipe));
        }
        self.writes -= 1;
        Write::write(&mut self.written, buf)
    }

    fn flush(&mut self) -> Result<()> {
        Ok(())
    }
}
