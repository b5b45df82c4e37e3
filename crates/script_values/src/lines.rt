//! The lines that an `expect` names.

ghost use Rattle.std.specs.Prelude.{◌≡◌, IfOk};
ghost use Rattle.script_values.specs.Forms.{ended, is_ended, joined};

use crate::fault::TableFault;
use crate::form::Form;
use crate::values::ListOf;
use host_types::Bytes;
use std::alloc::{AllocError, Global};
use toml::Value;

/// The text of a string.
#[derive(Clone, Copy)]
struct Text;

impl Form for Text {
    ghost use Rattle.script_values.specs.Forms.{text};

    ghost reads = { λ _ d. text d };

    type Says = Bytes;

    fn read(&self, alloc: Global, value: &Value) -> Result<Bytes, TableFault> {
        let Some(text) = value.as_str() else {
            return Err(TableFault::WrongValue);
        };
        Ok(Bytes::from_vec(Vec::from_slice(alloc, text.as_bytes())?))
    }
}

/// Lines: a text, whose last line's end may be left out, or a list of strings, each a line.
#[derive(Clone, Copy)]
pub struct Lines;

impl Form for Lines {
    ghost use Rattle.script_values.specs.Forms.{lines};

    ghost reads = { λ _ d. lines d };

    type Says = Bytes;

    fn read(&self, alloc: Global, value: &Value) -> Result<Bytes, TableFault> {
        if let Some(text) = value.as_str() {
            return Ok(Bytes::from_vec(ended(alloc, text.as_bytes())?));
        }
        let list = ListOf(Text).read(alloc, value)?;
        Ok(Bytes::from_vec(joined(alloc, list.as_slice())?))
    }
}

/// A text with an end behind its last line.
fn ended(alloc: Global, text: &[u8]) -> Result<Vec<u8>, AllocError>
    ensures { IfOk result (λ v. v.items ≡ ended text.now) }
{
    let mut ended = Vec::from_slice(alloc, text)?;
    if !is_ended(text.last().copied()) {
        ended.push(b'\n')?;
    }
    Ok(ended)
}

/// Whether a text with this last byte has an end behind its last line.
fn is_ended(last: Option<u8>) -> bool
    ensures { result ≡ is_ended last }
{
    match last {
        Some(byte) => byte == b'\n',
        None => true,
    }
}

/// Strings as the lines of a text.
fn joined(alloc: Global, lines: &[Bytes]) -> Result<Vec<u8>, AllocError>
    ensures { IfOk result (λ v. v.items ≡ joined lines.now) }
{
    let mut text = Vec::new(alloc);
    for line in lines {
        text.extend_from_slice(line.as_slice())?;
        text.push(b'\n')?;
    }
    Ok(text)
}
