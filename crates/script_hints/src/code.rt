//! Where a text of a step is no code.

use code_commands::{CodeForm, Profile, asm, sentence_for};
use std::alloc::{AllocError, Global};
use std::io;

/// What is wrong with the text of a key: of `asm` its line, of hex digits the byte. None where nothing of it is.
pub(crate) fn fault_in(alloc: Global, key: &str, text: &str) -> Result<Option<String>, AllocError> {
    match key {
        "asm" => assembler_fault(alloc, text.as_bytes()),
        "install" | "args" | "bytes" => hex_fault(alloc, text),
        _ => Ok(None),
    }
}

/// The first line of an assembler text that is wrong, and why.
pub(crate) fn assembler_fault(alloc: Global, text: &[u8]) -> Result<Option<String>, AllocError> {
    let mut reader = text;
    match asm(alloc, &mut reader, &mut io::sink()) {
        Ok(()) => Ok(None),
        Err(failure) => sentence_for(alloc, CodeForm::Hex, Profile::One, text, &failure),
    }
}

/// The first byte of a text that is neither a hex digit nor a blank; or that a digit is left over.
pub(crate) fn hex_fault(alloc: Global, text: &str) -> Result<Option<String>, AllocError> {
    let mut digits: usize = 0;
    let mut place: usize = 0;
    for letter in text.chars() {
        place = place.saturating_add(1);
        if letter.is_ascii_hexdigit() {
            digits = digits.saturating_add(1);
        } else if ![' ', '\t', '\r', '\n'].contains(&letter) {
            let sentence = format!(in alloc; "its letter {place}, {letter:?}, is no hex digit")?;
            return Ok(Some(sentence));
        }
    }
    if digits % 2 != 0 {
        let sentence = format!(in alloc; "the number of its hex digits, {digits}, is odd")?;
        return Ok(Some(sentence));
    }
    Ok(None)
}
