//! Objects of JSON (RFC 8259), each on a line of its own.

use crate::failure::CodeFailure;
use std::alloc::{AllocError, Global};

/// Adds a text as a string of JSON, in quotes.
pub fn push_json(text: &mut String, said: &str) -> Result<(), AllocError> {
    text.push('"')?;
    for letter in said.chars() {
        match letter {
            '"' => text.push_str("\\\"")?,
            '\\' => text.push_str("\\\\")?,
            '\n' => text.push_str("\\n")?,
            letter if letter < ' ' => write!(text, "\\u{:04x}", letter as u32)?,
            letter => text.push(letter)?,
        }
    }
    text.push('"')
}

/// What an object says of a failure.
#[derive(Drop)]
struct Told {
    /// What it is a failure of: `input`, `arguments`, `numbers`, `calls`, `map`, `object`, `code` or `text`.
    of: &'static str,
    name: String,
    number: Option<u8>,
    /// The slot of code, the line of a text, or which of the numbers.
    place: Option<u64>,
}

impl Told {
    /// What is said of a failure; none where nothing is.
    fn of(alloc: Global, failure: &CodeFailure) -> Result<Option<Told>, AllocError> {
        let told = match failure {
            CodeFailure::InputTooLong => Told::unnumbered(alloc, "input", "TooLong")?,
            CodeFailure::NotHex => Told::unnumbered(alloc, "input", "NotHex")?,
            CodeFailure::ArgsNotHex(_) => Told::unnumbered(alloc, "arguments", "NotHex")?,
            CodeFailure::ArgsTooLong => Told::unnumbered(alloc, "arguments", "TooLong")?,
            CodeFailure::Number(fault) => {
                let name = format!(in alloc; "{}", fault.kind)?;
                Told::at("numbers", name, fault.kind.number(), fault.place as u64)
            }
            CodeFailure::Call(fault) => {
                let name = format!(in alloc; "{}", fault.kind)?;
                Told::at("calls", name, fault.kind.number(), fault.line as u64)
            }
            CodeFailure::Map(fault) => {
                let name = format!(in alloc; "{}", fault.kind)?;
                Told::at("map", name, fault.kind.number(), fault.line as u64)
            }
            CodeFailure::Object(fault) => Told {
                of: "object",
                name: format!(in alloc; "{fault}")?,
                number: Some(fault.number()),
                place: None,
            },
            CodeFailure::Refused(refusal) => {
                let name = format!(in alloc; "{}", refusal.fault)?;
                Told::at("code", name, refusal.fault.number(), refusal.slot as u64)
            }
            CodeFailure::NoCode(refusal) => {
                let name = format!(in alloc; "{}", refusal.fault)?;
                Told::at("code", name, refusal.fault.number(), refusal.slot as u64)
            }
            CodeFailure::Assembler(fault) => {
                let name = format!(in alloc; "{}", fault.kind)?;
                Told::at("text", name, fault.kind.number(), u64::from(fault.line))
            }
            CodeFailure::Explained(_) | CodeFailure::Memory | CodeFailure::Stream(_) => {
                return Ok(None);
            }
        };
        Ok(Some(told))
    }

    fn unnumbered(alloc: Global, of: &'static str, name: &str) -> Result<Told, AllocError> {
        Ok(Told {
            of,
            name: String::from_str(alloc, name)?,
            number: None,
            place: None,
        })
    }

    fn at(of: &'static str, name: String, number: u8, place: u64) -> Told {
        Told {
            of,
            name,
            number: Some(number),
            place: Some(place),
        }
    }
}

/// A failure as an object of JSON, without a line end: what it is a failure of, its name, its number and its place where it has
/// them, and the sentence where there is one; refused code has a verdict too. None for a failure of which no line is written.
/// The error is that memory ran out.
pub fn failure_object(
    alloc: Global,
    failure: &CodeFailure,
    sentence: Option<&str>,
) -> Result<Option<String>, AllocError> {
    let Some(told) = Told::of(alloc, failure)? else {
        return Ok(None);
    };
    let Told {
        of,
        name,
        number,
        place,
    } = told;
    let verdict = if of == "code" {
        "\"verdict\":\"refused\","
    } else {
        ""
    };
    let mut text = format!(in alloc; "{{{verdict}\"fault\":\"{name}\",\"of\":\"{of}\"")?;
    if let Some(number) = number {
        write!(text, ",\"number\":{number}")?;
    }
    if let Some(place) = place {
        write!(text, ",\"place\":{place}")?;
    }
    if let Some(sentence) = sentence {
        text.push_str(",\"sentence\":")?;
        push_json(&mut text, sentence)?;
    }
    text.push('}')?;
    Ok(Some(text))
}
