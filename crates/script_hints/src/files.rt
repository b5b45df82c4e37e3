//! The files with which the reader of scripts is asked, and what is wrong with one of them.

use crate::code::{assembler_fault, hex_fault};
use host_types::Bytes;
use script_text::{FileName, MAX_FILE, NamedFile, is_code_name};
use std::alloc::{AllocError, Global};

/// A file that a step can name, of which a script knows nothing.
pub(crate) const SAMPLE_FILE: &str = "a file that no script names.hex";

/// Copies of the files of a script, and one more that is right.
pub(crate) fn with_sample(
    alloc: Global,
    files: &[NamedFile],
) -> Result<Vec<NamedFile>, AllocError> {
    let mut copies = Vec::new(alloc);
    for file in files {
        copies.push(copy_of(alloc, file.name.as_str(), file.bytes.as_slice())?)?;
    }
    copies.push(copy_of(alloc, SAMPLE_FILE, b"")?)?;
    Ok(copies)
}

fn copy_of(alloc: Global, name: &str, bytes: &[u8]) -> Result<NamedFile, AllocError> {
    Ok(NamedFile {
        name: FileName::new(alloc, name)?,
        bytes: Bytes::from_vec(Vec::from_slice(alloc, bytes)?),
    })
}

/// What is wrong with a file that a step names. None where there is no more to say.
pub(crate) fn file_fault(
    alloc: Global,
    files: &[NamedFile],
    name: &str,
) -> Result<Option<String>, AllocError> {
    if !is_code_name(name) {
        return Ok(None);
    }
    match files.iter().find(|file| file.name.as_str() == name) {
        Some(file) => fault_of(alloc, name, file.bytes.as_slice()),
        None => Ok(None),
    }
}

/// What is wrong with these bytes in a file of this name.
fn fault_of(alloc: Global, name: &str, bytes: &[u8]) -> Result<Option<String>, AllocError> {
    if bytes.len() > MAX_FILE {
        let sentence = String::from_str(alloc, "it has more than 1,048,576 bytes")?;
        return Ok(Some(sentence));
    }
    if name.ends_with(".asm") {
        return assembler_fault(alloc, bytes);
    }
    match str::from_utf8(bytes) {
        Ok(text) => hex_fault(alloc, text),
        Err(error) => {
            let at = error.valid_up_to();
            Ok(Some(format!(in alloc; "its bytes from {at} on are not UTF-8")?))
        }
    }
}
