//! What a line says of a message that waits in the queue, or that has not come.

use std::alloc::{AllocError, Global};
use world_chart::{saying_in, words_of};

/// The words of bytes that are no message.
const NO_MESSAGE: &str = "bytes";

/// What stands in a line for no kind.
const NO_KIND: &str = "-";

/// The words of the message that a line shows, of the queue, `queue 0 1 prepare 0100..`, or of a `drained`,
/// `drained no 0 1 prepare 0100..`, as a trace has them. None where the line is no such line. The error is that memory ran out.
pub fn words_of_queued(alloc: Global, line: &str) -> Result<Option<String>, AllocError> {
    let Some((kind, digits)) = shown_in(line) else {
        return Ok(None);
    };
    match hex::decode(alloc, digits.as_bytes()) {
        Ok(bytes) => {
            let words = words_of(alloc, &saying_in(alloc, None, &bytes)?)?;
            if words.as_str() == NO_MESSAGE && kind != NO_KIND {
                return Ok(Some(format!(in alloc; "{kind} unreadable")?));
            }
            Ok(Some(words))
        }
        Err(_) => Ok(None),
    }
}

/// The name of the kind and the bytes in hex of such a line.
fn shown_in(line: &str) -> Option<(&str, &str)> {
    if !line.starts_with("queue ") && !line.starts_with("drained no ") {
        return None;
    }
    let (front, digits) = line.rsplit_once(' ')?;
    let (_, kind) = front.rsplit_once(' ')?;
    Some((kind, digits))
}
