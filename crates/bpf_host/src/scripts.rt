//! Scripts with the files that they name, as commands read them.

use crate::failure::Failure;
use crate::files::{Place, Unread, bytes_of};
use code_commands::Format;
use host_script::{
    Dialect, FileName, FileUse, MAX_FILE, NamedFile, ScriptFault, ScriptKind, files_named_in,
    read_input, read_script_with, report,
};
use host_types::Bytes;
use script_hints::{sentence_for, step_words};
use std::alloc::{AllocError, Global};
use std::fmt;
use std::io::{Read, Write};
use std::rt::Files;
use world_trace::PlacedScript;

/// A script that is refused, or can't be read.
#[derive(Debug, Drop)]
pub struct RefusedScript {
    fault: ScriptFault,
    dialect: Dialect,
    /// The files that it names; one that can't be read has no bytes here.
    files: Vec<NamedFile>,
    /// The file that can't be read, where that is the fault.
    unread: Option<Unread>,
}

impl RefusedScript {
    /// A script that can't be read itself.
    fn unreadable(alloc: Global, dialect: Dialect, kind: ScriptKind) -> RefusedScript {
        RefusedScript {
            fault: ScriptFault::at_head(kind),
            dialect,
            files: Vec::new(alloc),
            unread: None,
        }
    }

    /// Why it is refused.
    pub(crate) fn fault(&self) -> ScriptFault {
        self.fault
    }

    /// Writes the line of the fault, and returns why the command ends.
    pub(crate) fn written<O: Write>(self, writer: &mut O) -> Failure {
        let fault = report(self.fault, writer);
        if fault == self.fault {
            return self.unwritten();
        }
        Failure::Script(fault)
    }

    /// Returns why the command ends. Its line is written in words; an object is not yet.
    pub(crate) fn written_in<O: Write>(self, format: Format, writer: &mut O) -> Failure {
        match format {
            Format::Words => self.written(writer),
            Format::Json => self.unwritten(),
        }
    }

    /// Returns why the command ends, of which no line is written yet.
    pub(crate) fn unwritten(self) -> Failure {
        if self.is_of_text() {
            Failure::RefusedScript(self)
        } else {
            Failure::Script(self.fault)
        }
    }

    /// Whether the text is refused, or what it names: no memory ran out, and it was read itself.
    fn is_of_text(&self) -> bool {
        match self.fault.kind {
            ScriptKind::Memory => false,
            ScriptKind::Read => self.unread.is_some(),
            _ => true,
        }
    }

    /// What there is more to say of it, in a sentence; `text` is the script's.
    pub(crate) fn sentence(
        &self,
        alloc: Global,
        text: &[u8],
    ) -> Result<Option<String>, AllocError> {
        match &self.unread {
            Some(unread) => {
                let place = step_words(alloc, text, self.fault.step)?;
                Ok(Some(format!(in alloc; "{place}: file {unread}")?))
            }
            None => sentence_for(alloc, self.dialect, &self.files, text, self.fault),
        }
    }
}

impl fmt::Display for RefusedScript {
    fn fmt<W: fmt::Write>(&self, f: &mut fmt::Formatter<W>) -> fmt::Result {
        let fault = self.fault;
        write!(f, "{fault}")
    }
}

/// Reads a script to the end of the reader, and the files that it names, which lie at this place.
pub(crate) fn read_script_at<R: Files + AllocGlobal, I: Read>(
    rt: &R,
    place: Place<'_>,
    dialect: Dialect,
    reader: &mut I,
) -> Result<PlacedScript, RefusedScript> {
    let alloc = rt.alloc();
    match read_input(alloc, reader) {
        Ok(text) => match gather_all(rt, place, &text) {
            Ok(gathered) => gathered.script(alloc, dialect, &text),
            Err(_) => Err(RefusedScript::unreadable(alloc, dialect, ScriptKind::Memory)),
        },
        Err(kind) => Err(RefusedScript::unreadable(alloc, dialect, kind)),
    }
}

/// The files that a script names.
#[derive(Drop)]
struct Gathered {
    /// One that can't be read has no bytes here, so that it is known what else is wrong with the script.
    files: Vec<NamedFile>,
    /// The first file that can't be read, and the step that names it first.
    unread: Option<(u32, Unread)>,
}

impl Gathered {
    /// The script that a text is. Of a file that can't be read and the fault of another step, the one of the earlier step is
    /// reported; of two of one step, that of the lesser number.
    fn script(
        self,
        alloc: Global,
        dialect: Dialect,
        text: &[u8],
    ) -> Result<PlacedScript, RefusedScript> {
        let Gathered { files, unread } = self;
        let read = match read_script_with(alloc, dialect, &files, text) {
            Ok(script) => PlacedScript::new(alloc, script, text).map_err(|_| ScriptFault::at_head(
                ScriptKind::Memory,
            )),
            Err(fault) => Err(fault),
        };
        let (fault, unread) = match (read, unread) {
            (Ok(placed), None) => return Ok(placed),
            (Err(fault), None) => (fault, None),
            (Err(fault), Some((step, _))) if fault.step <= step => (fault, None),
            (_, Some((step, unread))) => {
                let kind = ScriptKind::Read;
                (ScriptFault { kind, step }, Some(unread))
            }
        };
        Err(RefusedScript {
            fault,
            dialect,
            files,
            unread,
        })
    }
}

/// Reads the files that a text names, each once. The error is that memory ran out.
fn gather_all<R: Files + AllocGlobal>(
    rt: &R,
    place: Place<'_>,
    text: &[u8],
) -> Result<Gathered, AllocError> {
    let alloc = rt.alloc();
    let mut gathered = Gathered {
        files: Vec::new(alloc),
        unread: None,
    };
    for used in files_named_in(alloc, text)? {
        let is_there = gathered
            .files
            .iter()
            .any(|file| file.name.as_str() == used.name.as_str());
        if !is_there {
            gather(rt, place, used, &mut gathered)?;
        }
    }
    Ok(gathered)
}

/// Reads a file.
fn gather<R: Files + AllocGlobal>(
    rt: &R,
    place: Place<'_>,
    used: FileUse,
    gathered: &mut Gathered,
) -> Result<(), AllocError> {
    let alloc = rt.alloc();
    let FileUse { step, name } = used;
    let bytes = match bytes_of(rt, alloc, place, name.as_str(), MAX_FILE) {
        Ok(bytes) => bytes,
        Err(Failure::Unread(unread)) => {
            if gathered.unread.is_none() {
                gathered.unread = Some((step, unread));
            }
            Vec::new(alloc)
        }
        Err(_) => return Err(AllocError),
    };
    gathered.files.push(NamedFile {
        name,
        bytes: Bytes::from_vec(bytes),
    })?;
    Ok(())
}
