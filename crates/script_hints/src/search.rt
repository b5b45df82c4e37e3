//! Which keys of a table a fault is about.

use crate::keys::{CLIENT, HEAD, Key, key_at, keys_at};
use crate::near::is_near;
use crate::probe::{Probe, set};
use script_text::ScriptKind;
use std::alloc::AllocError;
use toml::{Table, Value};

/// The key that has no meaning in the table: without it, and perhaps others like it, the reader finds no such fault.
pub(crate) fn unknown_key(probe: &Probe) -> Result<Option<String>, AllocError> {
    unknown_in(probe, &probe.table)
}

/// The same of a table in place of the probe's own. Where without one of two keys the other is taken, it is the one whose
/// value the reader passes over.
fn unknown_in(probe: &Probe, table: &Table) -> Result<Option<String>, AllocError> {
    let mut left = table.clone()?;
    let mut judged = None;
    for key in table.keys() {
        let mut trial = left.clone()?;
        trial.remove(key.as_str());
        match probe.fault_with(&trial)? {
            Some(ScriptKind::UnknownKey) => left = trial,
            Some(ScriptKind::MissingKey | ScriptKind::WrongValue) => {}
            _ => {
                if !is_judged(probe, &left, key.as_str())? {
                    return Ok(Some(key.clone()?));
                }
                judged = Some(key.clone()?);
            }
        }
    }
    Ok(judged)
}

/// Whether the reader judges a key's value: `false`, which no key takes, is a wrong one.
fn is_judged(probe: &Probe, table: &Table, key: &str) -> Result<bool, AllocError> {
    let mut trial = table.clone()?;
    set(probe.alloc, &mut trial, key, Value::Boolean(false))?;
    is_refused_for(probe, &trial, ScriptKind::WrongValue)
}

/// The key that is meant by an unknown one: of nearly the same name, and with its value the reader takes it.
pub(crate) fn meant_by(probe: &Probe, keys: &[Key], name: &str) -> Result<Option<Key>, AllocError> {
    for key in &absent_keys(probe, keys)? {
        if is_near(probe.alloc, name, key.name)? && is_taken_as(probe, name, *key)? {
            return Ok(Some(*key));
        }
    }
    Ok(None)
}

/// Whether the reader takes a key of another name with the value of this one, and judges it.
fn is_taken_as(probe: &Probe, name: &str, key: Key) -> Result<bool, AllocError> {
    let mut trial = probe.table.clone()?;
    let Some(value) = trial.remove(name) else {
        return Ok(false);
    };
    set(probe.alloc, &mut trial, key.name, value)?;
    match probe.fault_with(&trial)? {
        Some(ScriptKind::MissingKey | ScriptKind::WrongValue) => Ok(false),
        _ => is_judged(probe, &trial, key.name),
    }
}

/// The key of the table beside which an unknown one can't stand: without it, or with another one in its place, the reader takes
/// the unknown one. None where no key of that name may stand there.
pub(crate) fn rival_of(
    probe: &Probe,
    keys: &[Key],
    name: &str,
) -> Result<Option<String>, AllocError> {
    if key_at(keys, probe.place_name(), name).is_none() {
        return Ok(None);
    }
    for other in probe.table.keys() {
        if other.as_str() != name && other.as_str() != "do" {
            let mut trial = probe.table.clone()?;
            trial.remove(other.as_str());
            if is_taken_with_more(probe, keys, &trial)? {
                return Ok(Some(other.clone()?));
            }
        }
    }
    Ok(None)
}

/// The key without which an unknown one can't stand: with it the reader takes the table. None where no key of the unknown one's name may
/// stand there.
pub(crate) fn partner_of(
    probe: &Probe,
    keys: &[Key],
    name: &str,
) -> Result<Option<Key>, AllocError> {
    if key_at(keys, probe.place_name(), name).is_none() {
        return Ok(None);
    }
    for key in &absent_keys(probe, keys)? {
        if let Some(value) = probe.sample(key.sample)? {
            let mut trial = probe.table.clone()?;
            set(probe.alloc, &mut trial, key.name, value)?;
            if probe.fault_with(&trial)?.is_none() {
                return Ok(Some(*key));
            }
        }
    }
    Ok(None)
}

/// Whether the reader takes a table, or misses one key in it alone.
fn is_taken_with_more(probe: &Probe, keys: &[Key], table: &Table) -> Result<bool, AllocError> {
    match probe.fault_with(table)? {
        None => return Ok(true),
        Some(ScriptKind::MissingKey) => {}
        Some(_) => return Ok(false),
    }
    for key in &absent_keys(probe, keys)? {
        if let Some(value) = probe.sample(key.sample)? {
            let mut trial = table.clone()?;
            set(probe.alloc, &mut trial, key.name, value)?;
            if probe.fault_with(&trial)?.is_none() {
                return Ok(true);
            }
        }
    }
    Ok(false)
}

/// The first client that has one of the keys that the head misses, counted from 1.
pub(crate) fn client_with(probe: &Probe, keys: &[Key], missing: &[Key]) -> Option<usize> {
    let Some(Value::Array(clients)) = probe.table.get("client") else {
        return None;
    };
    if probe.place_name() != HEAD {
        return None;
    }
    for (index, client) in clients.iter().enumerate() {
        for key in missing {
            if client.get(key.name).is_some() && key_at(keys, CLIENT, key.name).is_none() {
                return index.checked_add(1);
            }
        }
    }
    None
}

/// A key of the table that may stand for one of the missing ones: no key has its name there, and one that is missing has
/// nearly the same.
pub(crate) fn slip_for(
    probe: &Probe,
    keys: &[Key],
    missing: &[Key],
) -> Result<Option<String>, AllocError> {
    for name in probe.table.keys() {
        if key_at(keys, probe.place_name(), name.as_str()).is_some() {
            continue;
        }
        for key in missing {
            if is_near(probe.alloc, name.as_str(), key.name)? {
                return Ok(Some(name.clone()?));
            }
        }
    }
    Ok(None)
}

/// What is wrong with a key.
#[derive(Clone, Copy, Debug)]
pub(crate) enum Wrong {
    /// It takes another value.
    Value(Key),
    /// It is not taken there, with any value.
    Presence(Key),
}

/// The key whose value is wrong: with another value, or without it, the reader finds no such fault. Others before it may
/// be wrong, too. Where no other value can be had, the key for which the script has none.
pub(crate) fn wrong_key(probe: &Probe, keys: &[Key]) -> Result<Option<Wrong>, AllocError> {
    if let Some(name) = wrong_selector(probe)? {
        return Ok(key_at(keys, probe.place_name(), name).map(Wrong::Value));
    }
    let mut mended = probe.table.clone()?;
    let mut lacking = None;
    for name in names_in_turn(probe)? {
        match key_at(keys, probe.place_name(), name) {
            // With another kind a key may be missing, which is judged before a wrong value.
            Some(key) if key.name == "kind" && lacking.is_some() => {}
            Some(key) => {
                if let Some(wrong) = mend(probe, key, &mut mended)? {
                    return Ok(Some(wrong));
                }
                if probe.sample(key.sample)?.is_none() {
                    lacking = Some(Wrong::Value(key));
                }
            }
            None => {}
        }
    }
    Ok(lacking)
}

/// The key by whose value the others are judged, where that value is wrong.
fn wrong_selector(probe: &Probe) -> Result<Option<&'static str>, AllocError> {
    if is_no_step(probe)? {
        return Ok(Some("do"));
    }
    match probe.table.get("f") {
        Some(Value::Integer(_)) | None => Ok(None),
        Some(_) if probe.place_name() == HEAD => Ok(Some("f")),
        Some(_) => Ok(None),
    }
}

/// The names of a table's keys, in the order in which they are given other values: `spent` first, since other heights may
/// leave it too few leaves, and `kind` last, since another one needs other keys. Without those by which the others are
/// judged: as many entries as `f` says are a list's.
fn names_in_turn(probe: &Probe) -> Result<Vec<&str>, AllocError> {
    let mut names = Vec::new(probe.alloc);
    for turn in [Turn::First, Turn::Next, Turn::Last] {
        for key in probe.table.keys() {
            if Turn::of(key.as_str()) == Some(turn) {
                names.push(key.as_str())?;
            }
        }
    }
    Ok(names)
}

/// When a key is given another value.
#[derive(Clone, Copy, Debug, PartialEq, Eq)]
enum Turn {
    First,
    Next,
    Last,
}

impl Turn {
    /// The turn of a key of this name; none of one by which the others are judged.
    fn of(name: &str) -> Option<Turn> {
        match name {
            "do" | "f" => None,
            "spent" => Some(Turn::First),
            "kind" => Some(Turn::Last),
            _ => Some(Turn::Next),
        }
    }
}

/// Whether there is no step of the table's name.
fn is_no_step(probe: &Probe) -> Result<bool, AllocError> {
    let mut alone = Table::new(probe.alloc);
    match probe.table.get("do") {
        Some(name) => set(probe.alloc, &mut alone, "do", name.clone()?)?,
        None => return Ok(false),
    }
    is_refused_for(probe, &alone, ScriptKind::WrongValue)
}

/// Gives a key a value that it takes, or leaves it out. What was wrong with it, if nothing is wrong then.
fn mend(probe: &Probe, key: Key, table: &mut Table) -> Result<Option<Wrong>, AllocError> {
    let mut without = table.clone()?;
    without.remove(key.name);
    match fault_with_sample(probe, key, table)? {
        Some(ScriptKind::WrongValue) => match probe.fault_with(&without)? {
            Some(ScriptKind::WrongValue | ScriptKind::MissingKey) => Ok(None),
            _ => Ok(Some(Wrong::Presence(key))),
        },
        Some(ScriptKind::UnknownKey) => match unknown_in(probe, table)? {
            Some(name) if name.as_str() == key.name => Ok(Some(Wrong::Presence(key))),
            _ => Ok(Some(Wrong::Value(key))),
        },
        _ => Ok(Some(Wrong::Value(key))),
    }
}

/// What the reader refuses the script for once a key of the table has a value that it takes. Where the script has no such
/// value, the value stays wrong.
fn fault_with_sample(
    probe: &Probe,
    key: Key,
    table: &mut Table,
) -> Result<Option<ScriptKind>, AllocError> {
    let Some(value) = probe.sample(key.sample)? else {
        return Ok(Some(ScriptKind::WrongValue));
    };
    set(probe.alloc, table, key.name, value)?;
    probe.fault_with(table)
}

/// The keys of which one is needed: with any of them the reader misses none. Where several are needed at once, none.
pub(crate) fn missing_keys(probe: &Probe, keys: &[Key]) -> Result<Vec<Key>, AllocError> {
    let mut missing = Vec::new(probe.alloc);
    for key in &absent_keys(probe, keys)? {
        if is_enough(probe, *key)? {
            missing.push(*key)?;
        }
    }
    Ok(missing)
}

/// The keys that the table may have and hasn't.
fn absent_keys(probe: &Probe, keys: &[Key]) -> Result<Vec<Key>, AllocError> {
    let mut absent = Vec::new(probe.alloc);
    for key in &keys_at(probe.alloc, keys, probe.place_name())? {
        if probe.table.get(key.name).is_none() {
            absent.push(*key)?;
        }
    }
    Ok(absent)
}

/// The keys that are needed together: the reader misses none once all of them are there, and misses one without any of
/// them. Of keys that can stand for one another it is the first.
pub(crate) fn missing_together(probe: &Probe, keys: &[Key]) -> Result<Vec<Key>, AllocError> {
    let absent = absent_keys(probe, keys)?;
    let mut filled = probe.table.clone()?;
    for key in &absent {
        if let Some(value) = probe.sample(key.sample)? {
            set(probe.alloc, &mut filled, key.name, value)?;
        }
    }
    let mut needed = Vec::new(probe.alloc);
    for key in absent.iter().rev() {
        let mut trial = filled.clone()?;
        trial.remove(key.name);
        if is_refused_for(probe, &trial, ScriptKind::MissingKey)? {
            needed.push(*key)?;
        } else {
            filled = trial;
        }
    }
    needed.reverse();
    Ok(needed)
}

/// Whether no key is missing once this one is there.
fn is_enough(probe: &Probe, key: Key) -> Result<bool, AllocError> {
    let mut trial = probe.table.clone()?;
    let Some(value) = probe.sample(key.sample)? else {
        return Ok(false);
    };
    set(probe.alloc, &mut trial, key.name, value)?;
    Ok(!is_refused_for(probe, &trial, ScriptKind::MissingKey)?)
}

/// Whether the reader refuses the script for this with a table in place of the probe's own.
pub(crate) fn is_refused_for(
    probe: &Probe,
    table: &Table,
    kind: ScriptKind,
) -> Result<bool, AllocError> {
    Ok(probe.fault_with(table)? == Some(kind))
}
