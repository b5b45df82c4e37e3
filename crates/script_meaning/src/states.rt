//! What a state holds.

use crate::cursor::Cursor;
use crate::unclear::Unclear;
use std::alloc::Global;

/// How many bytes a key has, and a value.
const KEY: usize = 16;

const VALUE: usize = 32;

/// A state's clients with their kept replies, and its tenants with their procedures and entries, from its bytes of version 1
/// or 2 (`service_core/specs/Encoding.antt`).
pub(crate) fn state_words(alloc: Global, bytes: &[u8]) -> Result<String, Unclear> {
    let mut cursor = Cursor::new(bytes);
    let version = cursor.number(1)?;
    let number = cursor.number(8)?;
    let mut text = format!(in alloc; "    the state after number {number}, version {version}\n")?;
    for _ in 0..cursor.number(4)? {
        add_client(alloc, &mut cursor, &mut text)?;
    }
    for _ in 0..cursor.number(4)? {
        add_tenant(alloc, version, &mut cursor, &mut text)?;
    }
    Ok(text)
}

/// A client and its kept reply.
fn add_client(alloc: Global, cursor: &mut Cursor<'_>, text: &mut String) -> Result<(), Unclear> {
    let id = cursor.number(4)?;
    let time = cursor.number(8)?;
    let number = cursor.number(8)?;
    let result = hex::encode(alloc, cursor.sized()?)?;
    text.push_str(&format!(in alloc;
        "    client {id}: time {time}, number {number}, result {result}\n"
    )?)?;
    Ok(())
}

/// A tenant, and lines for its procedures and entries.
fn add_tenant(
    alloc: Global,
    version: u64,
    cursor: &mut Cursor<'_>,
    text: &mut String,
) -> Result<(), Unclear> {
    let id = cursor.number(4)?;
    let mut inside = String::new(alloc);
    let procedures = cursor.number(4)?;
    for procedure in 0..procedures {
        let profile = if version == 1 { 1 } else { cursor.number(1)? };
        let length = cursor.sized()?.len();
        inside.push_str(&format!(in alloc;
            "      procedure {procedure}: {length} bytes of code, profile {profile}\n"
        )?)?;
    }
    let entries = cursor.number(4)?;
    for _ in 0..entries {
        let key = hex::encode(alloc, cursor.take(KEY)?)?;
        let value = hex::encode(alloc, cursor.take(VALUE)?)?;
        inside.push_str(&format!(in alloc; "      entry {key} {value}\n")?)?;
    }
    text.push_str(&format!(in alloc;
        "    tenant {id}: procedures {procedures}, entries {entries}\n"
    )?)?;
    text.push_str(&inside)?;
    Ok(())
}
