//! The files that commands are given, by name.

use crate::failure::Failure;
use code_commands::CodeFailure;
use std::alloc::{AllocError, Global};
use std::fmt;
use std::fs::{self, Files, OpenFile};
use std::io::{self, ErrorKind, Read};

/// The most bytes of a text that an option names.
const MAX_TEXT: u64 = 1_048_576;

/// Where the names of files are looked up.
#[derive(Clone, Copy, Debug)]
pub(crate) enum Place<'a> {
    /// The caller's folder.
    Here,
    /// A folder of runs, or that of a script: names of files in it, and no paths.
    Folder(&'a str),
}

impl<'a> Place<'a> {
    /// Where the files beside this one lie, whose name is looked up here; those beside standard input, where there is none,
    /// lie here.
    pub(crate) fn beside(self, name: Option<&'a str>) -> Place<'a> {
        let Some(name) = name else {
            return self;
        };
        match (self, name.rsplit_once('/')) {
            (Place::Here, Some((folder, _))) => Place::Folder(folder),
            (place, _) => place,
        }
    }
}

/// A file that can't be read, and why.
#[derive(Debug, Drop)]
pub struct Unread {
    pub(crate) name: String,
    pub(crate) kind: ErrorKind,
}

impl fmt::Display for Unread {
    fn fmt<W: fmt::Write>(&self, f: &mut fmt::Formatter<W>) -> fmt::Result {
        let Unread { name, kind } = self;
        if name.is_empty() {
            return f.write_str("an empty name is that of no file");
        }
        match kind {
            ErrorKind::NotFound => write!(f, "{name} can't be read: there is no such file"),
            ErrorKind::NotADirectory => write!(f, "{name} can't be read: it is no folder"),
            ErrorKind::IsADirectory => write!(f, "{name} can't be read: it is a folder"),
            ErrorKind::PermissionDenied => {
                write!(f, "{name} can't be read: there is no right to")
            }
            ErrorKind::InvalidData => write!(f, "{name} can't be read: it is not UTF-8"),
            kind => write!(f, "{name} can't be read: {kind}"),
        }
    }
}

/// What a failed read of a file is.
fn failed_read(alloc: Global, name: &str, error: &io::Error) -> Result<Failure, AllocError> {
    match error.kind() {
        ErrorKind::OutOfMemory => Ok(Failure::Memory),
        kind => Ok(Failure::Unread(Unread {
            name: String::from_str(alloc, name)?,
            kind,
        })),
    }
}

/// Opens a file that isn't a folder.
pub(crate) fn open<R: Files>(
    rt: &R,
    alloc: Global,
    place: Place<'_>,
    name: &str,
) -> Result<R::File, Failure> {
    let opened = match place {
        Place::Here => open_path(rt, name),
        Place::Folder(folder) => {
            if name.contains('/') || name == ".." {
                return Err(Failure::NotPlain);
            }
            open_path(rt, format!(in alloc; "{folder}/{name}")?.as_str())
        }
    };
    match opened {
        Ok(file) => Ok(file),
        Err(error) => Err(failed_read(alloc, name, &error)?),
    }
}

fn open_path<R: Files>(rt: &R, path: &str) -> io::Result<R::File> {
    let file = fs::open(rt, path)?;
    if file.metadata()?.is_dir() {
        return Err(io::Error::from(ErrorKind::IsADirectory));
    }
    Ok(file)
}

/// The bytes of a file; of a longer one than this the first ones, and one more.
pub(crate) fn bytes_of<R: Files>(
    rt: &R,
    alloc: Global,
    place: Place<'_>,
    name: &str,
    most: usize,
) -> Result<Vec<u8>, Failure> {
    let file = open(rt, alloc, place, name)?;
    let mut bytes = Vec::new(alloc);
    match file
        .take((most as u64).saturating_add(1))
        .read_to_end(&mut bytes)
    {
        Ok(_) => Ok(bytes),
        Err(error) => Err(failed_read(alloc, name, &error)?),
    }
}

/// The text of a file, which has at most as many bytes as the commands read.
pub(crate) fn text_of<R: Files>(
    rt: &R,
    alloc: Global,
    place: Place<'_>,
    name: &str,
) -> Result<String, Failure> {
    let file = open(rt, alloc, place, name)?;
    let mut text = String::new(alloc);
    match file.take(MAX_TEXT + 1).read_to_string(&mut text) {
        Ok(_) if text.len() as u64 > MAX_TEXT => Err(Failure::Code(CodeFailure::InputTooLong)),
        Ok(_) => Ok(text),
        Err(error) => Err(failed_read(alloc, name, &error)?),
    }
}
