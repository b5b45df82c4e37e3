//! The text of a map: `entry KEY VALUE`, a line for each entry.

ghost use Rattle.std.specs.Prelude.{◌≡◌, ◌⊎◌, ◌++◌, IfOk, IfErr, OnOk, MatchResult, Ok, Err};
ghost use Rattle.std.specs.String.{string_bytes};
ghost use Rattle.code_commands.specs.declared.map_text.MapKind.TheVariants.{Memory};
ghost use Rattle.hex.specs.Hex.{decode_sized};
ghost use Rattle.std.specs.FinMap as map;
ghost use Rattle.code_commands.specs.Folds.{folded, texts};
ghost use Rattle.code_commands.specs.MapTexts.{entry_of, entry_of_body, entry_of_parts, line_of, map_of_text, map_text, with_line};

use crate::lines::text_lines;
use hex::FromHex;
use std::alloc::{AllocError, Global};
use tenant_maps::{MAX_ENTRIES, MapPort, TenantMap};
use thiserror::Error;

/// What stands before an entry, or nothing.
const WORD: &[u8] = b"entry ";

/// The bytes of an entry's line behind that word: 32 digits, a blank, 64 digits.
const ENTRY_SIZE: usize = 97;

/// Where the blank between key and value stands.
const BLANK_AT: usize = 32;

/// What is wrong with a line of a map's text.
#[derive(Clone, Copy, Debug, Error)]
pub enum MapKind {
    /// The line isn't 32 digits, a blank and 64 digits, with `entry` and a blank before them or nothing.
    #[error("WrongLength")]
    WrongLength = 1,
    /// The key or the value isn't hex.
    #[error("NotHex")]
    NotHex = 2,
    /// A line before has the key.
    #[error("KeyTwice")]
    KeyTwice = 3,
    /// 4,096 entries stand before it.
    #[error("TooMany")]
    TooMany = 4,
    /// Memory ran out. It says nothing of the text.
    #[error("Memory")]
    Memory = 5,
}

impl MapKind {
    ghost use Rattle.code_commands.specs.Faults.{number_of_map_kind};

    /// The fault's number.
    pub fn number(&self) -> u8
        ensures { result ≡ number_of_map_kind self.now }
    {
        *self as u8
    }
}

/// A fault of a map's text, and its line, counted from 1. Where memory ran out the line says nothing.
#[derive(Clone, Copy, Debug, Error)]
#[error("map line {line} fault {} {kind}", .kind.number())]
pub struct MapFault {
    pub kind: MapKind,
    pub line: usize,
}

impl From<AllocError> for MapFault {
    ghost use Rattle.std.specs.Prelude.{◌≡◌};
    ghost use Rattle.code_commands.specs.declared.map_text.MapKind.TheVariants.{Memory};

    ghost from_gives = { λ _ fault. fault.kind ≡ Memory };

    fn from(_: AllocError) -> MapFault {
        MapFault {
            kind: MapKind::Memory,
            line: 0,
        }
    }
}

/// An entry of a map.
#[derive(Clone, Copy)]
pub struct Entry {
    key: [u8; 16],
    value: [u8; 32],
}

/// The map that a text is: a line for each entry, of 32 hex digits, a blank and 64 hex digits; `entry` and a blank may stand
/// before them. An error names the first line that is no entry, has the key of a line before, or is the 4,097th. `Memory`
/// may come instead of any of these.
pub fn read_map(alloc: Global, text: &str) -> Result<TenantMap, MapFault>
    ensures found { IfOk result (λ found. map_of_text text.now ≡ Ok found.entries) }
    ensures refused { IfErr result (λ fault.
        (fault.kind ≡ Memory) ⊎ (map_of_text text.now ≡ Err (fault.kind, fault.line))) }
{
    let lines = text_lines(alloc, text)?;
    map_of(alloc, &lines)
}

/// The map of lines.
fn map_of(alloc: Global, lines: &[&str]) -> Result<TenantMap, MapFault>
    ensures found { IfOk result (λ found. folded with_line map.empty 1 (texts lines.now) ≡ Ok found.entries) }
    ensures refused { IfErr result (λ fault.
        (fault.kind ≡ Memory) ⊎ (folded with_line map.empty 1 (texts lines.now) ≡ Err (fault.kind, fault.line))) }
{
    let mut found = TenantMap::new(alloc);
    for (index, line) in lines.iter().enumerate() {
        if let Err(kind) = add_line(&mut found, line.as_bytes()) {
            return Err(MapFault {
                kind,
                line: index + 1,
            });
        }
    }
    Ok(found)
}

/// Adds the entry of a line. Where it can't be added the map is as it was.
fn add_line(found: &mut TenantMap, line: &[u8]) -> Result<(), MapKind>
    ensures { MatchResult result
        (λ _. with_line found.old.entries line.now ≡ Ok found.new.entries)
        (λ kind. (kind ≡ Memory) ⊎ (with_line found.old.entries line.now ≡ Err kind)) }
{
    let Entry { key, value } = read_entry(line)?;
    if found.get(&key).is_some() {
        return Err(MapKind::KeyTwice);
    }
    if found.len() >= MAX_ENTRIES {
        return Err(MapKind::TooMany);
    }
    match found.put(key, value) {
        Ok(_) => Ok(()),
        Err(_) => Err(MapKind::Memory),
    }
}

/// The entry of a line.
fn read_entry(line: &[u8]) -> Result<Entry, MapKind>
    ensures { result ≡ entry_of line.now }
{
    match line.strip_prefix(WORD) {
        Some(body) => read_body(body),
        None => read_body(line),
    }
}

/// The entry of 32 digits, a blank and 64 digits.
fn read_body(body: &[u8]) -> Result<Entry, MapKind>
    ensures { result ≡ entry_of_body body.now }
{
    if body.len() != ENTRY_SIZE {
        return Err(MapKind::WrongLength);
    }
    if body[BLANK_AT] != b' ' {
        return Err(MapKind::WrongLength);
    }
    read_parts(&body[..BLANK_AT], &body[BLANK_AT + 1..])
}

/// The entry of a key's digits and a value's.
fn read_parts(key: &[u8], value: &[u8]) -> Result<Entry, MapKind>
    ensures { result ≡ entry_of_parts (decode_sized key.now 16) (decode_sized value.now 32) }
{
    match (
        <[u8; 16] as FromHex>::from_hex(key),
        <[u8; 32] as FromHex>::from_hex(value),
    ) {
        (Ok(key), Ok(value)) => Ok(Entry { key, value }),
        _ => Err(MapKind::NotHex),
    }
}

/// The text of a map: a line `entry KEY VALUE` for each entry, by key ascending, in lower case. It is refused only where
/// memory ran out.
pub fn print_map(alloc: Global, shown: &TenantMap) -> Result<String, AllocError>
    ensures { IfOk result (λ text. string_bytes text ≡ map_text shown.now.entries) }
{
    let mut text = String::new(alloc);
    for (key, value) in shown.entries() {
        push_entry(alloc, &mut text, key, value)?;
    }
    Ok(text)
}

/// Adds the line of an entry.
fn push_entry(
    alloc: Global,
    text: &mut String,
    key: &[u8; 16],
    value: &[u8; 32],
) -> Result<(), AllocError>
    ensures { OnOk result (string_bytes text.new ≡ string_bytes text.old ++ line_of (key.now, value.now)) }
{
    let key = hex::encode(alloc, key.as_slice())?;
    let value = hex::encode(alloc, value.as_slice())?;
    text.push_str("entry ")?;
    text.push_str(&key)?;
    text.push(' ')?;
    text.push_str(&value)?;
    text.push('\n')
}
