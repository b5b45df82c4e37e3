//! A value that may be meant by a wrong one: a number for a text of one, a list of one entry for the entry, the entry for such
//! a list, a name of nearly the same letters. The reader is asked whether it takes it.

use crate::keys::Key;
use crate::near::is_near;
use crate::probe::{Probe, set};
use crate::search::is_refused_for;
use script_text::{STEP_FORMS, ScriptKind};
use std::alloc::{AllocError, Global};
use toml::{Table, Value};

/// What stands before the name of a step in the list of steps.
const BEFORE_STEP: &str = "  do = \"";

/// A value with which the reader takes a key whose value is wrong; none where none is near.
pub(crate) fn meant_value(probe: &Probe, key: Key) -> Result<Option<Value>, AllocError> {
    let Some(value) = probe.table.get(key.name) else {
        return Ok(None);
    };
    for candidate in candidates(probe.alloc, key, value)? {
        if is_taken(probe, key.name, &candidate)? {
            return Ok(Some(candidate));
        }
    }
    Ok(None)
}

/// The first entry of a list of several that the reader refuses alone, and its number; none where it takes no list of one.
pub(crate) fn wrong_entry<'a>(
    probe: &'a Probe,
    key: Key,
) -> Result<Option<(usize, &'a Value)>, AllocError> {
    let Some(Value::Array(entries)) = probe.table.get(key.name) else {
        return Ok(None);
    };
    let mut wrong = None;
    let mut is_any_taken = false;
    let mut number: usize = 0;
    for entry in entries {
        number = number.saturating_add(1);
        if is_taken(probe, key.name, &list_of(probe.alloc, entry.clone()?)?)? {
            is_any_taken = true;
        } else if wrong.is_none() {
            wrong = Some((number, entry));
        }
    }
    if is_any_taken { Ok(wrong) } else { Ok(None) }
}

/// Whether the reader finds no wrong value once a key has this one. A `do` is asked about alone, since with another one other keys
/// are needed.
fn is_taken(probe: &Probe, name: &str, value: &Value) -> Result<bool, AllocError> {
    let mut trial = match name {
        "do" => Table::new(probe.alloc),
        _ => probe.table.clone()?,
    };
    set(probe.alloc, &mut trial, name, value.clone()?)?;
    let is_wrong = is_refused_for(probe, &trial, ScriptKind::WrongValue)?;
    let is_missing = is_refused_for(probe, &trial, ScriptKind::MissingKey)?;
    Ok(!is_wrong && (!is_missing || name == "do"))
}

/// Values that may be meant by one.
fn candidates(alloc: Global, key: Key, value: &Value) -> Result<Vec<Value>, AllocError> {
    let mut found = others(alloc, key, value)?;
    match value {
        Value::Array(entries) => {
            if let [entry] = entries.as_slice() {
                found.push(entry.clone()?)?;
            }
            found.push(with_others(alloc, key, entries)?)?;
        }
        _ => found.push(list_of(alloc, value.clone()?)?)?,
    }
    Ok(found)
}

/// Values that may be meant by one that is no list.
fn others(alloc: Global, key: Key, value: &Value) -> Result<Vec<Value>, AllocError> {
    let mut found = Vec::new(alloc);
    let Value::String(text) = value else {
        return Ok(found);
    };
    match text.parse::<i64>() {
        Ok(number) => found.push(Value::Integer(number))?,
        Err(_) => {}
    }
    if text.as_str() == "true" {
        found.push(Value::Boolean(true))?;
    }
    let small = text.to_ascii_lowercase(alloc)?;
    for name in names_of(alloc, key)? {
        if is_near(alloc, small.as_str(), name)? {
            found.push(Value::string(alloc, name)?)?;
        }
    }
    Ok(found)
}

/// A list with what may be meant by each of its entries.
fn with_others(alloc: Global, key: Key, entries: &[Value]) -> Result<Value, AllocError> {
    let mut meant = Vec::new(alloc);
    for entry in entries {
        let mut found = others(alloc, key, entry)?;
        match found.pop() {
            Some(other) => meant.push(other)?,
            None => meant.push(entry.clone()?)?,
        }
    }
    Ok(Value::Array(meant))
}

fn list_of(alloc: Global, value: Value) -> Result<Value, AllocError> {
    let mut entries = Vec::new(alloc);
    entries.push(value)?;
    Ok(Value::Array(entries))
}

/// The names that a key may take: of steps, or the words that its hint lists.
fn names_of(alloc: Global, key: Key) -> Result<Vec<&'static str>, AllocError> {
    let mut names = Vec::new(alloc);
    if key.name == "do" {
        for line in STEP_FORMS.lines() {
            if let Some((name, _)) = line
                .strip_prefix(BEFORE_STEP)
                .and_then(|rest| rest.split_once('"'))
            {
                names.push(name)?;
            }
        }
        return Ok(names);
    }
    for word in key.takes.split(' ') {
        names.push(word.trim_end_matches(','))?;
    }
    Ok(names)
}
