//! Why a command ends early, and with which status.

ghost use Rattle.std.specs.Prelude.{◌≤◌};

use crate::check::CheckFault;
use crate::files::Unread;
use crate::scripts::RefusedScript;
use code_commands::CodeFailure;
use host_script::{ScriptFault, ScriptKind};
use std::alloc::{AllocError, AllocFailed};
use std::io;
use thiserror::Error;

/// What is written of a script that can't be read.
pub(crate) const UNREAD_SCRIPT: ScriptFault = ScriptFault {
    kind: ScriptKind::Read,
    step: 0,
};

/// Why a command ended early. Its text is the line that is written, if one is.
#[derive(Debug, Drop, Error)]
pub enum Failure {
    /// A command over code ended early.
    #[error("{0}")]
    Code(CodeFailure),
    /// A script has a fault, or ended early; its line is written already.
    #[error("{0}")]
    Script(ScriptFault),
    /// A script is refused, or a file that it names can't be read; the line of the fault is written already.
    #[error("{0}")]
    RefusedScript(RefusedScript),
    /// The journals of running replicas don't agree, or an `expect` of a script finds other lines; the line that says so is
    /// written already.
    #[error("the journals don't agree, or other lines were expected")]
    Refused,
    /// A request to running replicas can't be answered any more; the line of the audit is written already.
    #[error("{0}")]
    Unanswered(String),
    /// A file that an option names, or one with code or an assembler text, can't be read.
    #[error("{0}")]
    Unread(Unread),
    /// A file with a script can't be read.
    #[error("{UNREAD_SCRIPT}")]
    UnreadScript(Unread),
    /// A folder's runs can't be read.
    #[error("{0}")]
    Check(CheckFault),
    /// A run of a folder came to something else; the lines that say so are written already.
    #[error("a run differs")]
    Differs,
    /// A folder is to be checked as a run of a folder.
    #[error("a folder's runs are alone")]
    Nested,
    /// A run of a folder names a file by a path.
    #[error("a file of a folder's runs is a plain name in that folder")]
    NotPlain,
    /// The words of the command line are wrong, or ask for help.
    #[error("{0}")]
    CommandLine(clap::Error),
    /// `--seeds` has no such range of numbers.
    #[error("--seeds takes A..B, numbers of at most 63 bits with A below B")]
    BadSeeds,
    /// A word of the command line isn't UTF-8.
    #[error("a word of the command line is not UTF-8")]
    WordNotUtf8,
    /// Memory ran out.
    #[error("out of memory")]
    Memory,
    /// A read or a write failed.
    #[error("{0}")]
    Stream(io::Error),
}

/// The status of a script's fault.
fn status_of(kind: ScriptKind) -> u8
    ensures { (1 ≤ result) × (result ≤ 4) }
{
    match kind {
        ScriptKind::Memory => 3,
        ScriptKind::Read | ScriptKind::Write => 4,
        _ => 1,
    }
}

impl Failure {
    ghost use Rattle.std.specs.Prelude.{◌≤◌};

    /// The status with which the program ends.
    pub(crate) fn status(&self) -> u8
        ensures { (1 ≤ result) × (result ≤ 4) }
    {
        match self {
            Failure::Code(failure) => failure.status(),
            Failure::Script(fault) => status_of(fault.kind),
            Failure::RefusedScript(refused) => status_of(refused.fault().kind),
            Failure::Check(_) | Failure::Differs | Failure::Refused | Failure::Unanswered(_) => 1,
            Failure::Nested
            | Failure::NotPlain
            | Failure::BadSeeds
            | Failure::CommandLine(_)
            | Failure::WordNotUtf8 => 2,
            Failure::Memory => 3,
            Failure::Unread(_) | Failure::UnreadScript(_) | Failure::Stream(_) => 4,
        }
    }

    /// The fault of a command line whose words could not be read: one that isn't UTF-8, or no memory
    /// for them.
    pub(crate) fn from_words(error: &io::Error) -> Failure {
        match error.kind() {
            io::ErrorKind::OutOfMemory => Failure::Memory,
            _ => Failure::WordNotUtf8,
        }
    }

    /// The failure of a command whose input this is: where a script can't be read, a line says so.
    pub(crate) fn in_place_of_input(self, command: Option<&str>) -> Failure {
        match (self, command) {
            (Failure::Unread(unread), Some("world" | "explore" | "run")) => {
                Failure::UnreadScript(unread)
            }
            (failure, _) => failure,
        }
    }

    /// Whether its text is still to be written: nothing is said where memory ran out, or a file or a stream failed,
    /// and some commands have said it themselves.
    pub(crate) fn is_reported(&self) -> bool {
        match self {
            Failure::Code(failure) => failure.is_reported(),
            Failure::Script(_)
            | Failure::RefusedScript(_)
            | Failure::Differs
            | Failure::Refused
            | Failure::Unanswered(_) => false,
            Failure::UnreadScript(_) => true,
            _ => self.status() < 3,
        }
    }
}

impl From<AllocError> for Failure {
    fn from(_: AllocError) -> Failure {
        Failure::Memory
    }
}

impl<T: Drop> From<AllocFailed<T>> for Failure {
    fn from(_: AllocFailed<T>) -> Failure {
        Failure::Memory
    }
}

impl From<io::Error> for Failure {
    fn from(error: io::Error) -> Failure {
        Failure::Stream(error)
    }
}

impl From<CodeFailure> for Failure {
    fn from(failure: CodeFailure) -> Failure {
        Failure::Code(failure)
    }
}

impl From<ScriptFault> for Failure {
    fn from(fault: ScriptFault) -> Failure {
        Failure::Script(fault)
    }
}

impl From<CheckFault> for Failure {
    fn from(fault: CheckFault) -> Failure {
        Failure::Check(fault)
    }
}

impl From<clap::Error> for Failure {
    fn from(error: clap::Error) -> Failure {
        match error.kind() {
            clap::error::ErrorKind::OutOfMemory => Failure::Memory,
            _ => Failure::CommandLine(error),
        }
    }
}
