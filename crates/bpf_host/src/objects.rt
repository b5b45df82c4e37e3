//! What a run on threads tells, as objects of JSON.

use code_commands::push_json;
use host_script::{AuditFault, History, Telling, Told};
use host_types::Reply;
use script_meaning::{Outcome, outcome_words};
use std::alloc::{AllocError, Global};

/// An object of JSON for what a run on threads tells, each on a line.
#[derive(Clone, Copy, Debug)]
pub(crate) struct InJson;

impl Telling for InJson {
    fn line_of(&self, alloc: Global, told: Told<'_>) -> Result<String, AllocError> {
        match told {
            Told::Accepted { op, reply } => accepted_object(alloc, op, reply),
            Told::NothingQueued(client) => {
                let client = client.0;
                format!(in alloc; "{{\"client\":{client},\"queued\":false}}\n")
            }
            Told::Audited(found) => audit_object(alloc, found),
        }
    }
}

/// A reply that a client accepted, with what its result says.
fn accepted_object(alloc: Global, op: &[u8], reply: &Reply) -> Result<String, AllocError> {
    let client = reply.client.0;
    let time = reply.time;
    let number = reply.number.0;
    let bytes = reply.result.as_slice();
    let result = hex::encode(alloc, bytes)?;
    let mut text = format!(in alloc;
        "{{\"client\":{client},\"time\":\"{time}\",\"number\":\"{number}\",\"result\":\"{result}\""
    )?;
    if let Some(outcome) = Outcome::read(bytes) {
        add_outcome(alloc, outcome, &mut text)?;
        text.push_str(",\"meaning\":")?;
        push_json(&mut text, outcome_words(alloc, Some(op), outcome)?.as_str())?;
    }
    text.push_str("}\n")?;
    Ok(text)
}

/// Adds the parts of a result: its status, and what was installed or returned.
pub(crate) fn add_outcome(
    alloc: Global,
    outcome: Outcome<'_>,
    text: &mut String,
) -> Result<(), AllocError> {
    match outcome {
        Outcome::Installed(id) => write!(text, ",\"status\":0,\"procedure\":{id}"),
        Outcome::Returned { r0, output } => {
            let output = hex::encode(alloc, output)?;
            write!(text, ",\"status\":0,\"r0\":\"{r0}\",\"out\":\"{output}\"")
        }
        Outcome::Refused(why) => {
            let number = why.number();
            write!(text, ",\"status\":{number}")
        }
    }
}

/// What an audit found.
fn audit_object(alloc: Global, found: &Result<History, AuditFault>) -> Result<String, AllocError> {
    match found {
        Ok(history) => {
            let greatest = history.greatest().0;
            format!(in alloc; "{{\"audit\":\"agreed\",\"executed\":\"{greatest}\"}}\n")
        }
        Err(AuditFault::Memory) => Err(AllocError),
        Err(fault) => {
            let number = fault.number();
            format!(in alloc;
                "{{\"audit\":\"fault\",\"fault\":\"{fault}\",\"of\":\"journals\",\"number\":{number}}}\n"
            )
        }
    }
}
