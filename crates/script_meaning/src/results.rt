//! What a request's result means.

use crate::outcome::{Outcome, Refused};
use code_commands::{CodeForm, Format, Profile, sentence_for, verify};
use host_types::operation::{INSTALL, INSTALL2};
use std::alloc::{AllocError, Global};
use std::io;

/// What a request came to, in words. The operation that was asked for tells why code was refused. The error is that memory
/// ran out.
pub fn outcome_words(
    alloc: Global,
    op: Option<&[u8]>,
    outcome: Outcome<'_>,
) -> Result<String, AllocError> {
    match outcome {
        Outcome::Installed(id) => format!(in alloc; "done: it is procedure {id}"),
        Outcome::Returned { r0, output } => returned_words(alloc, r0, output),
        Outcome::Refused(Refused::Code) => refusal_words(alloc, op),
        Outcome::Refused(why) => String::from_str(alloc, reason(why)),
    }
}

fn returned_words(alloc: Global, r0: u64, output: &[u8]) -> Result<String, AllocError> {
    if output.is_empty() {
        return format!(in alloc; "done: r0 is {r0}, no output");
    }
    let output = hex::encode(alloc, output)?;
    format!(in alloc; "done: r0 is {r0}, output {output}")
}

fn reason(why: Refused) -> &'static str {
    match why {
        Refused::Operation => "refused: there is no such operation",
        Refused::Code => "refused: the code isn't accepted",
        Refused::Procedure => "refused: the tenant has no such procedure",
        Refused::Full => "refused: the tenant has 64 procedures, and takes no more",
        Refused::Arguments => "refused: a call has at most 256 bytes of arguments",
    }
}

/// Why code was refused, as the verifier says it.
fn refusal_words(alloc: Global, op: Option<&[u8]>) -> Result<String, AllocError> {
    match op.and_then(installed) {
        Some((profile, code)) => verdict_words(alloc, profile, code),
        None => String::from_str(alloc, reason(Refused::Code)),
    }
}

/// The profile and the code of an operation that installs.
fn installed(op: &[u8]) -> Option<(Profile, &[u8])> {
    let (first, code) = op.split_first()?;
    match *first {
        INSTALL => Some((Profile::One, code)),
        INSTALL2 => Some((Profile::Two, code)),
        _ => None,
    }
}

/// What the verifier says of code, and why.
fn verdict_words(alloc: Global, profile: Profile, code: &[u8]) -> Result<String, AllocError> {
    let text = hex::encode(alloc, code)?;
    let mut reader = text.as_bytes();
    let Err(failure) = verify(
        alloc,
        CodeForm::Hex,
        profile,
        Format::Words,
        &mut reader,
        &mut io::sink(),
    ) else {
        return String::from_str(alloc, reason(Refused::Code));
    };
    match sentence_for(alloc, CodeForm::Hex, profile, text.as_bytes(), &failure)? {
        Some(why) => format!(in alloc; "{failure}: {why}"),
        None => format!(in alloc; "{failure}"),
    }
}
