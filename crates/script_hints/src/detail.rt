//! What there is more to say of a wrong value, and values in short.

use crate::code::fault_in;
use crate::files::file_fault;
use crate::keys::{HEAD, Key};
use crate::meant::{meant_value, wrong_entry};
use crate::probe::Probe;
use std::alloc::{AllocError, Global};
use toml::Value;

/// The most bytes of a text that a sentence shows.
pub(crate) const MAX_SHOWN: usize = 40;

/// What there is more to say of a wrong value, behind a semicolon: where a text is no code, which value may be meant, which entry of a list is
/// wrong, or that the script has nothing that the key could name. Nothing where there is no more to say.
pub(crate) fn detail(probe: &Probe, key: Key, value: &Value) -> Result<String, AllocError> {
    let alloc = probe.alloc;
    if let Some(fault) = fault_of_text(probe, key.name, value)? {
        return format!(in alloc; "; {fault}");
    }
    if let Some(meant) = meant_value(probe, key)? {
        let shown = shown_as_meant(alloc, key, value, &meant)?;
        return format!(in alloc; "; did you mean {shown}?");
    }
    if let Some((number, entry)) = wrong_entry(probe, key)? {
        let shown = shown(alloc, entry)?;
        return format!(in alloc; "; its entry {number}, {shown}, is none");
    }
    match lacking(probe, key)? {
        Some(lacking) => format!(in alloc; "; {lacking}"),
        None => Ok(String::new(alloc)),
    }
}

/// Where a text, or the file of that name, is no code.
fn fault_of_text(probe: &Probe, key: &str, value: &Value) -> Result<Option<String>, AllocError> {
    let alloc = probe.alloc;
    match value {
        Value::String(name) if key == "file" => file_fault(alloc, &probe.files, name.as_str()),
        Value::String(text) => fault_in(alloc, key, text.as_str()),
        _ => Ok(None),
    }
}

/// A value that may be meant. A table that stands for a list of them is shown as one writes it.
fn shown_as_meant(
    alloc: Global,
    key: Key,
    value: &Value,
    meant: &Value,
) -> Result<String, AllocError> {
    let name = key.name;
    match value {
        Value::Table(_) if key.place == HEAD => format!(in alloc; "[[{name}]]"),
        _ => shown(alloc, meant),
    }
}

/// What the script lacks that a key could name.
fn lacking(probe: &Probe, key: Key) -> Result<Option<&'static str>, AllocError> {
    let lacking = match key.sample {
        "CLIENT" => "the script has no [[client]]",
        "NAME" => "no step before has as",
        "FAULTY" => "the head has no faulty replicas, as faulty = [0] would name one",
        _ => return Ok(None),
    };
    match probe.sample(key.sample)? {
        Some(_) => Ok(None),
        None => Ok(Some(lacking)),
    }
}

/// A value in short.
pub(crate) fn shown(alloc: Global, value: &Value) -> Result<String, AllocError> {
    match value {
        Value::Integer(number) => format!(in alloc; "{number}"),
        Value::Boolean(is_true) => format!(in alloc; "{is_true}"),
        Value::String(text) if text.len() <= MAX_SHOWN => format!(in alloc; "{text:?}"),
        Value::String(text) => {
            let length = text.chars().count();
            format!(in alloc; "a text of {length} letters")
        }
        Value::Array(values) => shown_list(alloc, values),
        Value::Table(_) => String::from_str(alloc, "a table"),
        Value::Float(_) => String::from_str(alloc, "a number with a fraction"),
        Value::Datetime(_) => String::from_str(alloc, "a date or a time"),
    }
}

/// A list in short.
fn shown_list(alloc: Global, values: &[Value]) -> Result<String, AllocError> {
    let mut text = String::from_str(alloc, "[")?;
    for (index, value) in values.iter().enumerate() {
        if index > 0 {
            text.push_str(", ")?;
        }
        match value {
            Value::Integer(number) => write!(text, "{number}")?,
            Value::String(word) => write!(text, "{word:?}")?,
            _ => return String::from_str(alloc, "a list"),
        }
        if text.len() > MAX_SHOWN {
            return String::from_str(alloc, "a long list");
        }
    }
    text.push(']')?;
    Ok(text)
}
