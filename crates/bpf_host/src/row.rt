//! A row of runs: `words | input | status | output`, and `| standard error` where that is told, too.

use std::alloc::{AllocError, Global};

/// What stands between two fields.
const SEPARATOR: &str = " | ";

/// What ends a line, in an input or an output of a row.
const LINE_END: &str = "/";

/// What stands for a slash there.
const SLASH: &str = "\\/";

/// What no row has.
const KEPT: &str = "\0";

/// The word that stands for an empty one.
const EMPTY: &str = "-";

/// What stands round a word that is taken as it is.
const QUOTE: char = '\'';

/// The greatest status.
pub(crate) const MAX_STATUS: u8 = 4;

/// A run of the program, and what is to come of it.
#[derive(Drop)]
pub(crate) struct Row<'a> {
    /// The words of the command line behind the program's name, with blanks between them.
    words: &'a str,
    pub(crate) input: String,
    pub(crate) status: u8,
    pub(crate) output: String,
    /// What standard error is to be told; none where the row doesn't say.
    pub(crate) errors: Option<String>,
}

impl<'a> Row<'a> {
    /// Reads a line. None where it is no row.
    pub(crate) fn read(alloc: Global, line: &'a str) -> Result<Option<Row<'a>>, AllocError> {
        let Some((words, input, status, rest)) = fields_of(line) else {
            return Ok(None);
        };
        let (output, errors) = match rest.split_once(SEPARATOR) {
            Some((output, errors)) => (output, Some(lines_of(alloc, errors)?)),
            None => (rest, None),
        };
        match status.parse::<u8>() {
            Ok(status) if status <= MAX_STATUS => Ok(Some(Row {
                words,
                input: lines_of(alloc, input)?,
                status,
                output: lines_of(alloc, output)?,
                errors,
            })),
            _ => Ok(None),
        }
    }

    /// The words of the command line, the program's name the first of them.
    pub(crate) fn words(&self, alloc: Global) -> Result<Vec<&'a str>, AllocError> {
        let mut words = Vec::new(alloc);
        words.push("bpf_host")?;
        let mut is_quoted = false;
        for part in self.words.split(QUOTE) {
            if is_quoted {
                words.push(part)?;
            } else {
                add_words(&mut words, part)?;
            }
            is_quoted = !is_quoted;
        }
        Ok(words)
    }
}

/// Adds words with blanks between them.
fn add_words<'a>(words: &mut Vec<&'a str>, text: &'a str) -> Result<(), AllocError> {
    for word in text.split(' ') {
        if word == EMPTY {
            words.push("")?;
        } else if !word.is_empty() {
            words.push(word)?;
        }
    }
    Ok(())
}

/// A field with its line ends and slashes.
fn lines_of(alloc: Global, field: &str) -> Result<String, AllocError> {
    let kept = field.replace(alloc, SLASH, KEPT)?;
    let lines = kept.replace(alloc, LINE_END, "\n")?;
    lines.replace(alloc, KEPT, "/")
}

/// The first three fields of a row, and the rest: the output, which may be left out where it is empty, and what standard
/// error is told.
fn fields_of(line: &str) -> Option<(&str, &str, &str, &str)> {
    let (words, rest) = line.split_once(SEPARATOR)?;
    let (input, rest) = rest.split_once(SEPARATOR)?;
    match rest.split_once(SEPARATOR) {
        Some((status, output)) => Some((words, input, status, output)),
        None => Some((words, input, rest.strip_suffix(" |")?, "")),
    }
}

/// Whether a line of a file of rows is one: blank lines and those that begin with `#` are not.
pub(crate) fn is_row(line: &str) -> bool {
    !line.is_empty() && !line.starts_with('#')
}
