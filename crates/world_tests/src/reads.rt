//! Scripts whose reader gives little, or fails, and writers that fail.

use std::alloc::Global;
use std::io::{self, Read, Write};
use std::test::Fail;
use world_script::{Played, ScriptFault, run_script};

/// Gives line ends, one at each read, until none is left, or one read fails; and counts the reads.
#[derive(Drop)]
struct Drips {
    left: u32,
    reads: u32,
    fails_at: u32,
}

impl Read for Drips {
    fn read(&mut self, buf: &mut [u8]) -> io::Result<usize> {
        self.reads = self.reads.saturating_add(1);
        if self.reads == self.fails_at {
            return Err(io::Error::from(io::ErrorKind::Other));
        }
        if self.left == 0 || buf.is_empty() {
            return Ok(0);
        }
        self.left -= 1;
        buf[0] = b'\n';
        Ok(1)
    }
}

/// How many line ends a script has, which read fails, and at most how many reads there are; and what is written.
const READS: &str = "\
0 0 1 script fault 2 MissingKey step 0\n\
100 0 101 script fault 2 MissingKey step 0\n\
1048576 0 1048577 script fault 2 MissingKey step 0\n\
1048577 0 1048577 script fault 7 TooLong step 0\n\
2000000 0 1048577 script fault 7 TooLong step 0\n\
100 1 1 script fault 8 Read step 0\n\
100 2 2 script fault 8 Read step 0\n\
";

/// The word before a blank, and what stands behind it.
fn halves(line: &str) -> Result<(&str, &str), Fail> {
    Ok(line.split_once(" ").ok_or("half a line")?)
}

/// Whether a script that is read so writes its line, after no more reads than that.
fn is_read_so(alloc: Global, line: &str) -> Result<bool, Fail> {
    let (left, rest) = halves(line)?;
    let (fails_at, rest) = halves(rest)?;
    let (most, wanted) = halves(rest)?;
    let mut reader = Drips {
        left: left.parse()?,
        reads: 0,
        fails_at: fails_at.parse()?,
    };
    let mut written = Vec::new(alloc);
    let is_run = run_script(alloc, &mut reader, &mut written).is_ok();
    let found = str::from_utf8(&written)?;
    Ok(!is_run && reader.reads <= most.parse::<u32>()? && found.trim_end() == wanted)
}

#[test]
fn a_script_is_read_byte_by_byte(rt: HostRuntime) -> Result<(), Fail> {
    for line in READS.lines() {
        assert!(rt; is_read_so(rt.alloc(), line)?, "{line}");
    }
    Ok(())
}

/// Takes so many writes, and fails at the next.
#[derive(Drop)]
struct Fills {
    writes: u32,
}

impl Write for Fills {
    fn write(&mut self, buf: &[u8]) -> io::Result<usize> {
        if self.writes == 0 {
            return Err(io::Error::from(io::ErrorKind::BrokenPipe));
        }
        self.writes -= 1;
        Ok(buf.len())
    }

    fn flush(&mut self) -> io::Result<()> {
        Ok(())
    }
}

/// A script of two steps that each write a line or more.
const SHOWS: &str = "\
f = 1
k = 8
secret = \"0000000000000000000000000000000000000000000000000000000000000000\"
step = [{ do = \"show\" }, { do = \"show\" }]
";

/// The number of the fault of a script whose writer fails behind so many writes, 0 if it is run.
fn fault_of(alloc: Global, script: &str, writes: u32) -> u8 {
    let mut reader = script.as_bytes();
    let ended: Result<Played, ScriptFault> = run_script(alloc, &mut reader, &mut Fills { writes });
    ended.err().map_or(0, |fault| fault.kind.number())
}

#[test]
fn writes_that_fail(rt: HostRuntime) {
    assert!(rt; fault_of(rt.alloc(), "f = 1", 0) == 9);
    for (writes, wanted) in [(0, 9), (1, 9), (2, 0)] {
        let found = fault_of(rt.alloc(), SHOWS, writes);
        assert!(rt; found == wanted, "{writes}");
    }
}
