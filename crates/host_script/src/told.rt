//! What a run on threads tells, and the lines that are made of it.

use host_types::{ClientId, Reply};
use std::alloc::{AllocError, Global};
use world_script::{AuditFault, History, line_of_audit, line_of_reply};

/// What a run on threads tells, a line each.
#[derive(Clone, Copy)]
pub enum Told<'a> {
    /// A client accepts a reply to its request for this operation.
    Accepted { op: &'a [u8], reply: &'a Reply },
    /// A client's key has no leaf left by which it could sign its request.
    NothingQueued(ClientId),
    /// The replicas have stopped, and an audit of their journals finds this.
    Audited(&'a Result<History, AuditFault>),
}

/// Makes lines of what a run tells.
pub trait Telling {
    /// The line, with its end. The error is that memory ran out, here or at the audit.
    fn line_of(&self, alloc: Global, told: Told<'_>) -> Result<String, AllocError>;
}

/// Lines of words, as a script of a world prints them.
#[derive(Clone, Copy, Debug)]
pub struct InWords;

impl Telling for InWords {
    fn line_of(&self, alloc: Global, told: Told<'_>) -> Result<String, AllocError> {
        match told {
            Told::Accepted { reply, .. } => line_of_reply(alloc, reply),
            Told::NothingQueued(_) => String::from_str(alloc, "nothing queued\n"),
            Told::Audited(found) => line_of_audit(alloc, found),
        }
    }
}
