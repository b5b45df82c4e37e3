//! On which line of a script a fault is.

use script_text::{ScriptFault, ScriptKind, lines_of_steps};
use std::alloc::{AllocError, Global};
use toml::Value;

/// The line of a script's text, counted from 1, on which the step of a fault begins, or where a text stops being a TOML
/// document. None where the text doesn't show it, as of a fault of the head. The error is that memory ran out.
pub fn line_for(
    alloc: Global,
    bytes: &[u8],
    fault: ScriptFault,
) -> Result<Option<usize>, AllocError> {
    match fault.kind {
        ScriptKind::NotToml => line_of_slip(alloc, bytes),
        _ => line_of_step(alloc, bytes, fault.step),
    }
}

/// Where a text stops being a document.
fn line_of_slip(alloc: Global, bytes: &[u8]) -> Result<Option<usize>, AllocError> {
    let Ok(text) = str::from_utf8(bytes) else {
        return Ok(None);
    };
    match toml::table_from_str(alloc, text) {
        Err(error) if error.is_memory() => Err(AllocError),
        Err(error) => Ok(error.span().and_then(|span| line_at(bytes, span.start))),
        Ok(_) => Ok(None),
    }
}

/// The line that has the byte of this index.
fn line_at(bytes: &[u8], index: usize) -> Option<usize> {
    let before = bytes.get(..index)?;
    let ends = before.iter().filter(|byte| **byte == b'\n').count();
    ends.checked_add(1)
}

/// The line of a text that has the byte of this index, without blanks at its ends.
pub(crate) fn line_with(text: &str, index: usize) -> Option<&str> {
    let number = line_at(text.as_bytes(), index)?;
    let line = text.lines().nth(number.checked_sub(1)?)?;
    Some(line.trim())
}

/// The line on which a step begins, where each step has a line `[[step]]`.
pub(crate) fn line_of_step(
    alloc: Global,
    bytes: &[u8],
    step: u32,
) -> Result<Option<usize>, AllocError> {
    let Ok(text) = str::from_utf8(bytes) else {
        return Ok(None);
    };
    match toml::table_from_str(alloc, text) {
        Ok(document) => match document.get("step") {
            Some(Value::Array(steps)) if step > 0 => {
                let lines = lines_of_steps(alloc, text, steps.len())?;
                Ok(lines.get(step as usize - 1).copied())
            }
            _ => Ok(None),
        },
        Err(_) => Ok(None),
    }
}
