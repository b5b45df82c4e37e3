//! Where steps begin in a text, for a person. No definition speaks of it.

use std::alloc::{AllocError, Global};

/// The lines of a text on which its so many steps begin, counted from 1: those that begin with `[[step]]`, blanks passed
/// over. It is empty where there is another number of such lines. The error is that memory ran out.
pub fn lines_of_steps(alloc: Global, text: &str, steps: usize) -> Result<Vec<usize>, AllocError> {
    let mut lines = Vec::new(alloc);
    let mut number: usize = 0;
    for line in text.lines() {
        number = number.saturating_add(1);
        if line.trim_start().starts_with("[[step]]") {
            lines.push(number)?;
        }
    }
    if lines.len() != steps {
        lines.clear();
    }
    Ok(lines)
}
