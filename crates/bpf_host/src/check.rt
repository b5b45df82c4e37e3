//! `check`: the runs of a folder, each compared with what is to come of it. A script `NAME.toml` is to print what
//! `NAME.out` has, with `--trace` what `NAME.trace` has, and with `--chart` what `NAME.mmd` and `NAME.svg` have, where they
//! are there; `NAME.run.toml` is run on replicas in threads; each row of `NAME.rows` names its words, input, status and output.

use crate::command::run_in_folder;
use crate::failure::Failure;
use crate::files::Unread;
use crate::row::{MAX_STATUS, Row, is_row};
use code_commands::{Format, push_json};
use std::alloc::{AllocError, Global};
use std::io::Write;
use std::rt::Files;
use std::sync::Wait;
use std::thread::Threads;
use std::time::Clock;
use std::{fs, io};
use thiserror::Error;

/// Why a folder's runs are not all tried.
#[derive(Debug, Drop, Error)]
pub enum CheckFault {
    /// The folder or a file in it can't be read, or a file that is to be text isn't.
    #[error("check fault 1 Unreadable {}", .0.name)]
    Unreadable(Unread),
    /// A line of a file of rows is no row.
    #[error("check fault 2 BadRow {0}:{1}")]
    BadRow(String, u32),
    /// The folder has nothing that is run.
    #[error("check fault 3 NothingToRun {0}")]
    NothingToRun(String),
}

impl CheckFault {
    /// The fault as an object of JSON, without a line end.
    pub(crate) fn object(
        &self,
        alloc: Global,
        sentence: Option<&str>,
    ) -> Result<String, AllocError> {
        let (name, number) = match self {
            CheckFault::Unreadable(_) => ("Unreadable", 1),
            CheckFault::BadRow(_, _) => ("BadRow", 2),
            CheckFault::NothingToRun(_) => ("NothingToRun", 3),
        };
        let mut text = format!(in alloc;
            "{{\"fault\":\"{name}\",\"of\":\"folder\",\"number\":{number},\"place\":"
        )?;
        match self {
            CheckFault::Unreadable(unread) => push_json(&mut text, unread.name.as_str())?,
            CheckFault::NothingToRun(path) => push_json(&mut text, path)?,
            CheckFault::BadRow(path, line) => {
                push_json(&mut text, format!(in alloc; "{path}:{line}")?.as_str())?
            }
        }
        if let Some(sentence) = sentence {
            text.push_str(",\"sentence\":")?;
            push_json(&mut text, sentence)?;
        }
        text.push('}')?;
        Ok(text)
    }

    /// What there is more to say.
    pub(crate) fn sentence(&self, alloc: Global) -> Result<String, AllocError> {
        match self {
            CheckFault::Unreadable(unread) => format!(in alloc; "{unread}"),
            CheckFault::BadRow(path, line) => format!(in alloc;
                "line {line} of {path} is no row: words | input | status | output, where the status is 0 to {MAX_STATUS}"
            ),
            CheckFault::NothingToRun(folder) => format!(in alloc;
                "{folder} has no NAME.toml, no NAME.rows, and no NAME.trace, NAME.mmd or NAME.svg"
            ),
        }
    }
}

/// How many runs there were.
#[derive(Clone, Copy, Default)]
struct Counts {
    passed: u32,
    failed: u32,
}

impl Counts {
    /// Counts a run.
    fn add(&mut self, has_passed: bool) {
        if has_passed {
            self.passed = self.passed.saturating_add(1);
        } else {
            self.failed = self.failed.saturating_add(1);
        }
    }
}

/// What came of a run.
#[derive(Drop)]
struct Ending {
    status: u8,
    output: Vec<u8>,
    /// What standard error was told.
    errors: Vec<u8>,
}

/// Where differences are written, and how.
#[derive(Drop)]
struct Differences<'a, O: Write> {
    alloc: Global,
    format: Format,
    writer: &'a mut O,
    counts: Counts,
}

impl<O: Write> Differences<'_, O> {
    /// A run ended with another status than was wanted.
    fn status(&mut self, place: &str, wanted: u8, got: u8) -> Result<(), Failure> {
        if self.format == Format::Words {
            writeln!(self.writer, "{place}: wanted status {wanted}, got {got}")?;
            return Ok(());
        }
        let mut text = String::from_str(self.alloc, "{\"run\":")?;
        push_json(&mut text, place)?;
        writeln!(
            self.writer,
            "{text},\"wanted_status\":{wanted},\"got_status\":{got}}}"
        )?;
        Ok(())
    }

    /// A run wrote bytes that are no text.
    fn no_text(&mut self, place: &str) -> Result<(), Failure> {
        if self.format == Format::Words {
            writeln!(self.writer, "{place}: what is written is not UTF-8")?;
            return Ok(());
        }
        let mut text = String::from_str(self.alloc, "{\"run\":")?;
        push_json(&mut text, place)?;
        writeln!(self.writer, "{text},\"got\":null}}")?;
        Ok(())
    }

    /// A run wrote another line than was wanted.
    fn line(&mut self, place: &str, line: u32, wanted: &str, got: &str) -> Result<(), Failure> {
        if self.format == Format::Words {
            writeln!(
                self.writer,
                "{place} line {line}: wanted {wanted:?}, got {got:?}"
            )?;
            return Ok(());
        }
        let mut text = String::from_str(self.alloc, "{\"run\":")?;
        push_json(&mut text, place)?;
        write!(text, ",\"line\":{line},\"wanted\":")?;
        push_json(&mut text, wanted)?;
        text.push_str(",\"got\":")?;
        push_json(&mut text, got)?;
        writeln!(self.writer, "{text}}}")?;
        Ok(())
    }

    /// Whether a run wrote what was wanted; where it didn't, a line says which line is the first that differs.
    fn compare(&mut self, place: &str, wanted: &str, written: &[u8]) -> Result<bool, Failure> {
        if wanted.as_bytes() == written {
            return Ok(true);
        }
        let Ok(written) = str::from_utf8(written) else {
            self.no_text(place)?;
            return Ok(false);
        };
        let (number, wanted, got) = first_difference(wanted, written);
        self.line(place, number, wanted, got)?;
        Ok(false)
    }

    /// How many runs passed and failed.
    fn end(&mut self) -> Result<(), Failure> {
        let Counts { passed, failed } = self.counts;
        match self.format {
            Format::Words => writeln!(self.writer, "{passed} passed, {failed} failed")?,
            Format::Json => {
                writeln!(self.writer, "{{\"passed\":{passed},\"failed\":{failed}}}")?
            }
        }
        Ok(())
    }
}

/// Runs the scripts and rows of a folder, by their names ascending. Writes a line for each run that comes to something else,
/// and at the end how many passed and failed. A folder with nothing to run is refused.
pub(crate) fn check<
    R: Files + AllocGlobal + Threads + Wait + Clock + Copy + Send + Sync + Drop + 'static,
    O: Write,
>(rt: &R, folder: &str, format: Format, writer: &mut O) -> Result<(), Failure> {
    let mut differences = Differences {
        alloc: rt.alloc(),
        format,
        writer,
        counts: Counts::default(),
    };
    for name in &names_in(rt, folder)? {
        if let Some((stem, words)) = shown_by(name.as_str()) {
            check_script(rt, folder, stem, name.as_str(), words, &mut differences)?;
        } else if name.ends_with(".rows") {
            check_rows(rt, folder, name.as_str(), &mut differences)?;
        }
    }
    let Counts { passed, failed } = differences.counts;
    if passed == 0 && failed == 0 {
        let folder = String::from_str(rt.alloc(), folder)?;
        return Err(Failure::Check(CheckFault::NothingToRun(folder)));
    }
    differences.end()?;
    if failed > 0 {
        return Err(Failure::Differs);
    }
    Ok(())
}

/// The names of a folder's files, ascending.
fn names_in<R: Files + AllocGlobal + Clone + Drop>(
    rt: &R,
    folder: &str,
) -> Result<Vec<String>, Failure> {
    match listed(rt, folder) {
        Ok(mut names) => {
            names.sort()?;
            Ok(names)
        }
        Err(error) => Err(unreadable(rt.alloc(), folder, &error)?),
    }
}

fn listed<R: Files + AllocGlobal + Clone + Drop>(rt: &R, folder: &str) -> io::Result<Vec<String>> {
    let mut names = Vec::new(rt.alloc());
    for entry in fs::read_dir(rt, folder)? {
        let entry = entry?;
        names.push(String::from_str(rt.alloc(), entry.file_name())?)?;
    }
    Ok(names)
}

/// What a failed read of a folder or file is.
fn unreadable(alloc: Global, path: &str, error: &io::Error) -> Result<Failure, AllocError> {
    if error.kind() == io::ErrorKind::OutOfMemory {
        return Ok(Failure::Memory);
    }
    let unread = Unread {
        name: String::from_str(alloc, path)?,
        kind: error.kind(),
    };
    Ok(Failure::Check(CheckFault::Unreadable(unread)))
}

/// The bytes of a file.
fn bytes_of<R: Files + AllocGlobal>(rt: &R, folder: &str, name: &str) -> Result<Vec<u8>, Failure> {
    let path = format!(in rt.alloc(); "{folder}/{name}")?;
    match fs::read(rt, path.as_str()) {
        Ok(bytes) => Ok(bytes),
        Err(error) => Err(unreadable(rt.alloc(), path.as_str(), &error)?),
    }
}

/// The text of a file.
fn text_of<R: Files + AllocGlobal>(rt: &R, folder: &str, name: &str) -> Result<String, Failure> {
    let path = format!(in rt.alloc(); "{folder}/{name}")?;
    match fs::read_to_string(rt, path.as_str()) {
        Ok(text) => Ok(text),
        Err(error) => Err(unreadable(rt.alloc(), path.as_str(), &error)?),
    }
}

/// Whose run a file is, by its name's end, and with which words: that of the script `NAME.toml`, whose lines stand in
/// `NAME.out`, whose trace in `NAME.trace`, and whose chart in `NAME.mmd` and `NAME.svg`; of `NAME.run.toml` on threads.
fn shown_by(name: &str) -> Option<(&str, &'static [&'static str])> {
    let (stem, end) = name.rsplit_once('.')?;
    match end {
        "toml" if stem.ends_with(".run") => Some((stem, &["bpf_host", "run"])),
        "toml" => Some((stem, &["bpf_host", "world"])),
        "trace" => Some((stem, &["bpf_host", "world", "--trace"])),
        "mmd" => Some((stem, &["bpf_host", "world", "--chart"])),
        "svg" => Some((stem, &["bpf_host", "world", "--chart", "svg"])),
        _ => None,
    }
}

/// Runs a script and compares what it prints.
fn check_script<
    R: Files + AllocGlobal + Threads + Wait + Clock + Copy + Send + Sync + Drop + 'static,
    O: Write,
>(
    rt: &R,
    folder: &str,
    stem: &str,
    name: &str,
    words: &[&str],
    differences: &mut Differences<'_, O>,
) -> Result<(), Failure> {
    let alloc = rt.alloc();
    let script = bytes_of(rt, folder, format!(in alloc; "{stem}.toml")?.as_str())?;
    let wanted = wanted_of(rt, folder, stem, name)?;
    let ending = ending_of(rt, folder, words, &script);
    let is_same = differences.compare(name, wanted.as_str(), &ending.output)?;
    differences.counts.add(is_same);
    Ok(())
}

/// What a run of a script is to print: the script's lines, or the file itself.
fn wanted_of<R: Files + AllocGlobal>(
    rt: &R,
    folder: &str,
    stem: &str,
    name: &str,
) -> Result<String, Failure> {
    if name.ends_with(".toml") {
        return text_of(rt, folder, format!(in rt.alloc(); "{stem}.out")?.as_str());
    }
    text_of(rt, folder, name)
}

/// Runs the rows of a file, one after another, and compares what they print and their status.
fn check_rows<
    R: Files + AllocGlobal + Threads + Wait + Clock + Copy + Send + Sync + Drop + 'static,
    O: Write,
>(rt: &R, folder: &str, name: &str, differences: &mut Differences<'_, O>) -> Result<(), Failure> {
    let text = text_of(rt, folder, name)?;
    let mut number: u32 = 0;
    for line in text.lines() {
        number = number.saturating_add(1);
        if is_row(line) {
            let has_passed = check_row(rt, folder, name, number, line, differences)?;
            differences.counts.add(has_passed);
        }
    }
    Ok(())
}

/// Runs a row, and returns whether it came to what it is to.
fn check_row<
    R: Files + AllocGlobal + Threads + Wait + Clock + Copy + Send + Sync + Drop + 'static,
    O: Write,
>(
    rt: &R,
    folder: &str,
    name: &str,
    number: u32,
    line: &str,
    differences: &mut Differences<'_, O>,
) -> Result<bool, Failure> {
    let alloc = rt.alloc();
    let Some(row) = Row::read(alloc, line)? else {
        let name = String::from_str(alloc, name)?;
        return Err(Failure::Check(CheckFault::BadRow(name, number)));
    };
    let words = row.words(alloc)?;
    let ending = ending_of(rt, folder, &words, row.input.as_bytes());
    let place = format!(in alloc; "{name}:{number}")?;
    if ending.status != row.status {
        differences.status(place.as_str(), row.status, ending.status)?;
        return Ok(false);
    }
    if !differences.compare(place.as_str(), row.output.as_str(), &ending.output)? {
        return Ok(false);
    }
    match &row.errors {
        Some(errors) => {
            let place = format!(in alloc; "{place}, standard error")?;
            differences.compare(place.as_str(), errors.as_str(), &ending.errors)
        }
        None => Ok(true),
    }
}

/// Runs the program's words over an input, with the folder's files.
fn ending_of<
    'a,
    R: Files + AllocGlobal + Threads + Wait + Clock + Copy + Send + Sync + Drop + 'static,
>(rt: &R, folder: &str, words: &'a [&'a str], input: &[u8]) -> Ending {
    let mut reader = input;
    let mut output = Vec::new(rt.alloc());
    let mut errors = Vec::new(rt.alloc());
    let status = run_in_folder(rt, folder, words, &mut reader, &mut output, &mut errors);
    Ending {
        status,
        output,
        errors,
    }
}

/// The number of the first line that differs, counted from 1, and the two lines, with their line ends.
pub(crate) fn first_difference<'a>(wanted: &'a str, written: &'a str) -> (u32, &'a str, &'a str) {
    let mut number: u32 = 1;
    let mut wanted = wanted.split_inclusive('\n');
    let mut written = written.split_inclusive('\n');
    for _ in 0..u32::MAX {
        let left = wanted.next().unwrap_or("");
        let right = written.next().unwrap_or("");
        if left != right || left.is_empty() {
            return (number, left, right);
        }
        number = number.saturating_add(1);
    }
    (number, "", "")
}
