//! What no row of the program can say of its commands over code: inputs of a million bytes, streams that fail, blanks in
//! the arguments, and output that is too long to stand in a file.

use code_commands::{
    Arguments, CodeFailure, CodeForm, Execution, Format, Profile, asm, exec, verify,
    verify_explained,
};
use host_types::ClientId;
use std::alloc::Global;
use std::io::{self, Read, Write};
use std::test::Fail;

/// Does a command: `asm`, `verify`, `explain`, or `exec` with its arguments behind it.
fn run<I: Read, O: Write>(
    alloc: Global,
    command: &str,
    reader: &mut I,
    writer: &mut O,
) -> Result<(), CodeFailure> {
    match command.as_bytes() {
        b"asm" => asm(alloc, reader, writer),
        b"verify" => verify(
            alloc,
            CodeForm::Hex,
            Profile::One,
            Format::Words,
            reader,
            writer,
        ),
        b"explain" => verify_explained(alloc, CodeForm::Hex, Profile::One, reader, writer),
        _ => {
            let arguments = command.strip_prefix("exec").unwrap_or("");
            exec(alloc, called_with(arguments), reader, writer)
        }
    }
}

/// A run over an empty map, called with these bytes.
fn called_with(arguments: &str) -> Execution<'_> {
    Execution {
        form: CodeForm::Hex,
        profile: Profile::One,
        arguments: Arguments::Hex(arguments),
        client: ClientId(16),
        map: None,
        dumps: false,
        format: Format::Words,
    }
}

/// The status of a command, and what it writes, with `/` for a line end: behind that the line of its failure, where
/// one is to be written.
fn outcome(alloc: Global, command: &str, input: &[u8]) -> Result<String, Fail> {
    let mut written = Vec::new(alloc);
    let mut reader = input;
    let ended = run(alloc, command, &mut reader, &mut written);
    let written = str::from_utf8(&written)?.replace(alloc, "\n", "/")?;
    match ended {
        Ok(()) => Ok(format!(in alloc; "0 {written}")?),
        Err(failure) if failure.is_reported() => {
            let status = failure.status();
            Ok(format!(in alloc; "{status} {written}{failure}/")?)
        }
        Err(failure) => {
            let status = failure.status();
            Ok(format!(in alloc; "{status} {written}")?)
        }
    }
}

/// The fields of a line, three of them.
fn fields(line: &str) -> Option<(&str, &str, &str)> {
    let (first, rest) = line.split_once(" | ")?;
    let (second, third) = rest.split_once(" | ")?;
    Some((first, second, third))
}

/// A command, its input, and status with output; and a million blanks, and one more.
const BLANKS: &str = "\
exec 0a 0b0C | bf200000000000009500000000000000 | 0 accepted bound 2/result 3/steps 2/out -/\n\
exec | B700000007000000\t9500000000000000\r | 0 accepted bound 2/result 7/steps 2/out -/\n\
exec | b7000\t | 1 input not hex/\n\
verify | 1048576 | 1 refused 1 Empty at 0/\n\
verify | 1048577 | 1 input too long/\n\
asm | 1048576 | 0 /\n\
asm | 1048577 | 1 input too long/\n\
";

/// The input of a line: its text, or so many blanks.
fn input_of(alloc: Global, text: &str) -> Result<String, Fail> {
    if !text.starts_with("10485") {
        return Ok(String::from_str(alloc, text)?);
    }
    Ok(" ".repeat(alloc, text.parse::<usize>()?)?)
}

#[test]
fn blanks_in_arguments_and_input(rt: HostRuntime) -> Result<(), Fail> {
    for line in BLANKS.lines() {
        let (command, input, wanted) = fields(line).ok_or("a field is missing")?;
        let input = input_of(rt.alloc(), input)?;
        let found = outcome(rt.alloc(), command, input.as_bytes())?;
        assert!(rt; found.as_str() == wanted, "{line}");
    }
    Ok(())
}

/// Seven functions that each call the next one twice, and a last one of 509 moves.
fn code_of_too_many_visits(alloc: Global) -> Result<String, Fail> {
    let calls = "851000000200000085100000010000009500000000000000".repeat(alloc, 7)?;
    let moves = "b700000000000000".repeat(alloc, 509)?;
    Ok(format!(in alloc; "{calls}{moves}9500000000000000")?)
}

#[test]
fn an_explanation_of_too_many_visits(rt: HostRuntime) -> Result<(), Fail> {
    let code = code_of_too_many_visits(rt.alloc())?;
    let written = outcome(rt.alloc(), "explain", code.as_bytes())?;
    let visits = written
        .split('/')
        .filter(|line| line.starts_with("at "))
        .count();
    assert_eq!(rt; visits, 65_537);
    let last = "/why: 65536 visits were made before this one/";
    assert!(rt; written.starts_with("1 refused 20 TooComplex at 413/") && written.ends_with(last));
    Ok(())
}

/// Takes so many writes, and fails at the next.
#[derive(Drop)]
struct Fills {
    writes: u32,
}

impl Write for Fills {
    fn write(&mut self, buf: &[u8]) -> io::Result<usize> {
        if self.writes == 0 {
            return Err(io::Error::from(io::ErrorKind::BrokenPipe));
        }
        self.writes -= 1;
        Ok(buf.len())
    }

    fn flush(&mut self) -> io::Result<()> {
        Ok(())
    }
}

/// A command, and how many writes succeed, on code that returns 7; and the status.
const CUT_SHORT: &str = "\
exec | 0 | 4\n\
exec | 3 | 4\n\
exec | 4 | 0\n\
explain | 0 | 4\n\
explain | 1 | 4\n\
explain | 2 | 4\n\
explain | 3 | 0\n\
";

#[test]
fn writes_that_fail(rt: HostRuntime) -> Result<(), Fail> {
    for line in CUT_SHORT.lines() {
        let (command, writes, wanted) = fields(line).ok_or("a field is missing")?;
        let writes = writes.parse::<u32>()?;
        let mut input = b"b7000000070000009500000000000000".as_slice();
        let ended = run(rt.alloc(), command, &mut input, &mut Fills { writes });
        let status = ended.err().map_or(0, |failure| failure.status());
        assert!(rt; status == wanted.parse::<u8>()?, "{line}");
    }
    Ok(())
}

/// Gives two digits at its first read, and fails at the second.
#[derive(Drop)]
struct Breaks {
    reads: u32,
}

impl Read for Breaks {
    fn read(&mut self, buf: &mut [u8]) -> io::Result<usize> {
        self.reads = self.reads.saturating_add(1);
        if self.reads > 1 || buf.len() < 2 {
            return Err(io::Error::from(io::ErrorKind::Other));
        }
        buf[0] = b'b';
        buf[1] = b'7';
        Ok(2)
    }
}

#[test]
fn reads_that_fail(rt: HostRuntime) -> Result<(), Fail> {
    let mut written = Vec::new(rt.alloc());
    let ended = run(rt.alloc(), "exec", &mut Breaks { reads: 0 }, &mut written);
    let status = ended.err().map_or(0, |failure| failure.status());
    assert!(rt; status == 4 && written.is_empty());
    Ok(())
}
