//! What is wrong, as a sentence.

use crate::configured::broken_limit;
use crate::detail::{MAX_SHOWN, detail, shown};
use crate::keys::{HEAD, Key, all_keys, key_at};
use crate::line::{line_of_step, line_with};
use crate::probe::Probe;
use crate::search::{
    Wrong, client_with, is_refused_for, meant_by, missing_keys, missing_together, partner_of,
    rival_of, slip_for, unknown_key, wrong_key,
};
use script_text::{Dialect, NamedFile, ScriptFault, ScriptKind};
use std::alloc::{AllocError, Global};
use toml::{Table, Value};

/// How many hex digits an instruction has.
const SLOT_DIGITS: usize = 16;

/// What is wrong with a script that was refused for this fault, or that ended with it, without a full stop or a line
/// end. None where there is no more to say than the fault does. `files` are those that the script names, as far as they could be
/// read. The error is that memory ran out.
pub fn sentence_for(
    alloc: Global,
    dialect: Dialect,
    files: &[NamedFile],
    bytes: &[u8],
    fault: ScriptFault,
) -> Result<Option<String>, AllocError> {
    match fault.kind {
        ScriptKind::NotToml => Ok(Some(parse_sentence(alloc, bytes)?)),
        ScriptKind::MissingKey
        | ScriptKind::WrongValue
        | ScriptKind::UnknownKey
        | ScriptKind::BadConfig => refused_sentence(alloc, dialect, files, bytes, fault),
        ScriptKind::TooManyDeliveries => {
            let place = step_words(alloc, bytes, fault.step)?;
            let text = format!(in alloc;
                "{place} has delivered 1,000,000 messages, and another one matches"
            )?;
            Ok(Some(text))
        }
        ScriptKind::TooLong => {
            let text = "the script has more than 1,048,576 bytes";
            Ok(Some(String::from_str(alloc, text)?))
        }
        ScriptKind::Read | ScriptKind::Write | ScriptKind::Memory => Ok(None),
    }
}

/// Where and why a text is no document.
fn parse_sentence(alloc: Global, bytes: &[u8]) -> Result<String, AllocError> {
    let text = match str::from_utf8(bytes) {
        Ok(text) => text,
        Err(error) => {
            let at = error.valid_up_to();
            return format!(in alloc; "the bytes from {at} on are not UTF-8");
        }
    };
    if text.len() >= SLOT_DIGITS && text.bytes().all(is_of_hex) {
        return String::from_str(
            alloc,
            "the text is hex digits, and no script; bpf_host exec runs code",
        );
    }
    match toml::table_from_str(alloc, text) {
        Ok(_) => String::from_str(alloc, "the text is no TOML document"),
        Err(error) if error.is_memory() => Err(AllocError),
        Err(error) => {
            let said = format!(in alloc; "{error}")?;
            let said = said.trim_end().replace(alloc, "\n", ": ")?;
            let start = error.span().map_or(0, |span| span.start);
            match line_with(text, start) {
                Some(line) => with_line(alloc, &said, line),
                None => Ok(said),
            }
        }
    }
}

/// What is said of a text that is no document, with the line that has the fault, where that is short, and with what may be meant in it.
fn with_line(alloc: Global, said: &str, line: &str) -> Result<String, AllocError> {
    let more = if line.starts_with("//") {
        "; a comment begins with #"
    } else if line.contains('\u{201c}') || line.contains('\u{201d}') {
        "; a text stands in straight quotes"
    } else {
        ""
    };
    if line.is_empty() || line.len() > MAX_SHOWN {
        return format!(in alloc; "{said}{more}");
    }
    format!(in alloc; "{said}; the line is {line:?}{more}")
}

/// Whether a byte is a hex digit or a blank.
fn is_of_hex(byte: u8) -> bool {
    byte.is_ascii_hexdigit() || byte.is_ascii_whitespace()
}

/// Which key of which table a script was refused for.
fn refused_sentence(
    alloc: Global,
    dialect: Dialect,
    files: &[NamedFile],
    bytes: &[u8],
    fault: ScriptFault,
) -> Result<Option<String>, AllocError> {
    let Ok(text) = str::from_utf8(bytes) else {
        return Ok(None);
    };
    let Ok(document) = toml::table_from_str(alloc, text) else {
        return Ok(None);
    };
    let keys = all_keys(alloc)?;
    if fault.step == 0 {
        return head_sentence(alloc, dialect, &document, &keys, fault.kind);
    }
    let before = fault.step as usize - 1;
    let Some(probe) = Probe::of_step(alloc, dialect, files, &document, before)? else {
        return Ok(None);
    };
    let place = step_words(alloc, bytes, fault.step)?;
    table_sentence(&probe, &keys, fault.kind, &place)
}

/// Which key of the head, or of a client, it was.
fn head_sentence(
    alloc: Global,
    dialect: Dialect,
    document: &Table,
    keys: &[Key],
    kind: ScriptKind,
) -> Result<Option<String>, AllocError> {
    if kind == ScriptKind::BadConfig {
        return broken_limit(alloc, document);
    }
    let many = match document.get("client") {
        Some(Value::Array(clients)) => clients.len(),
        _ => 0,
    };
    for index in 0..many {
        if let Some(probe) = Probe::of_client(alloc, dialect, document, index)? {
            let number = index.saturating_add(1);
            let place = format!(in alloc; "client {number}")?;
            if let Some(sentence) = table_sentence(&probe, keys, kind, &place)? {
                return Ok(Some(sentence));
            }
        }
    }
    let probe = Probe::of_head(alloc, dialect, document)?;
    table_sentence(&probe, keys, kind, "the head")
}

/// Which key of a table it was.
fn table_sentence(
    probe: &Probe,
    keys: &[Key],
    kind: ScriptKind,
    place: &str,
) -> Result<Option<String>, AllocError> {
    if !is_refused_for(probe, &probe.table, kind)? {
        return Ok(None);
    }
    match kind {
        ScriptKind::MissingKey => missing_sentence(probe, keys, place),
        ScriptKind::WrongValue => wrong_sentence(probe, keys, place),
        ScriptKind::UnknownKey => unknown_sentence(probe, keys, place),
        _ => Ok(None),
    }
}

/// Which key is unknown, and which one may be meant by it, beside or without which other one it can't stand, or that it is the head's.
fn unknown_sentence(
    probe: &Probe,
    keys: &[Key],
    place: &str,
) -> Result<Option<String>, AllocError> {
    let Some(name) = unknown_key(probe)? else {
        return Ok(None);
    };
    let alloc = probe.alloc;
    if let Some(rival) = rival_of(probe, keys, name.as_str())? {
        return Ok(Some(format!(in alloc; "{place} has no key {name} beside {rival}")?));
    }
    if let Some(Key { name: partner, .. }) = partner_of(probe, keys, name.as_str())? {
        return Ok(Some(format!(in alloc; "{place} has no key {name} without {partner}")?));
    }
    if let Some(Key { name: meant, .. }) = meant_by(probe, keys, name.as_str())? {
        return Ok(Some(format!(in alloc; "{place} has no key {name}; did you mean {meant}?")?));
    }
    if probe.place_name() != HEAD && key_at(keys, HEAD, name.as_str()).is_some() {
        return Ok(Some(format!(in alloc;
            "{place} has no key {name}, which is one of the head: it stands before the first [[client]] or [[step]]"
        )?));
    }
    Ok(Some(format!(in alloc; "{place} has no key {name}")?))
}

/// Which keys are missing.
fn missing_sentence(
    probe: &Probe,
    keys: &[Key],
    place: &str,
) -> Result<Option<String>, AllocError> {
    let any = missing_keys(probe, keys)?;
    if let Some(words) = listed(probe.alloc, &any, " or ")? {
        return Ok(Some(needs_sentence(probe, keys, &any, place, words.as_str())?));
    }
    let all = missing_together(probe, keys)?;
    match listed(probe.alloc, &all, " and ")? {
        Some(words) => Ok(Some(needs_sentence(probe, keys, &all, place, words.as_str())?)),
        None => Ok(None),
    }
}

/// That keys are missing, and which key of the table may stand for one of them, or which client has one of the head.
fn needs_sentence(
    probe: &Probe,
    keys: &[Key],
    missing: &[Key],
    place: &str,
    words: &str,
) -> Result<String, AllocError> {
    if let Some(slip) = slip_for(probe, keys, missing)? {
        return format!(in probe.alloc; "{place} needs {words}, and has {slip}");
    }
    match client_with(probe, keys, missing) {
        Some(client) => format!(in probe.alloc;
            "{place} needs {words}, and client {client} has it: what the head has stands before the first [[client]]"
        ),
        None => format!(in probe.alloc; "{place} needs {words}"),
    }
}

/// Which value is wrong, and what its key takes.
fn wrong_sentence(probe: &Probe, keys: &[Key], place: &str) -> Result<Option<String>, AllocError> {
    match wrong_key(probe, keys)? {
        Some(Wrong::Value(key)) => Ok(Some(value_sentence(probe, key, place)?)),
        Some(Wrong::Presence(Key { name, .. })) => {
            Ok(Some(format!(in probe.alloc; "{place} takes no {name}")?))
        }
        None => Ok(None),
    }
}

fn value_sentence(probe: &Probe, key: Key, place: &str) -> Result<String, AllocError> {
    let Key { name, takes, .. } = key;
    match probe.table.get(name) {
        Some(value) => {
            let shown = shown(probe.alloc, value)?;
            let more = detail(probe, key, value)?;
            format!(in probe.alloc; "{place}: {name} is {shown}, and takes {takes}{more}")
        }
        None => format!(in probe.alloc; "{place}: {name} takes {takes}"),
    }
}

/// The names of keys, with a word before the last.
fn listed(alloc: Global, keys: &[Key], word: &str) -> Result<Option<String>, AllocError> {
    let mut text = String::new(alloc);
    for (index, key) in keys.iter().enumerate() {
        if index > 0 {
            let is_last = index.saturating_add(1) == keys.len();
            text.push_str(if is_last { word } else { ", " })?;
        }
        text.push_str(key.name)?;
    }
    if text.is_empty() {
        return Ok(None);
    }
    Ok(Some(text))
}

/// A step, with the line on which it begins where the text shows it: `step 3 (line 24)`. The error is that memory ran out.
pub fn step_words(alloc: Global, bytes: &[u8], step: u32) -> Result<String, AllocError> {
    match line_of_step(alloc, bytes, step)? {
        Some(line) => format!(in alloc; "step {step} (line {line})"),
        None => format!(in alloc; "step {step}"),
    }
}
