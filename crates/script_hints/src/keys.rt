//! What the keys of a script take, as the crate that reads them lists it.

use script_text::{CLIENT_HINTS, HEAD_HINTS, KEY_LIST_HINTS, STEP_HINTS};
use std::alloc::{AllocError, Global};

/// The place of the keys of the head.
pub(crate) const HEAD: &str = "head";

/// The place of the keys of a client's table.
pub(crate) const CLIENT: &str = "client";

/// The place of keys that mean the same in all steps that have them.
pub(crate) const ANY_STEP: &str = "step";

/// What stands between two fields of a line.
const SEPARATOR: &str = " | ";

/// A key, a value that it takes, and what it takes in words.
#[derive(Clone, Copy, Debug)]
pub(crate) struct Key {
    pub(crate) place: &'static str,
    pub(crate) name: &'static str,
    /// A TOML value, or a word for one of the script's own.
    pub(crate) sample: &'static str,
    pub(crate) takes: &'static str,
}

/// All keys, those of one step before those of any.
pub(crate) fn all_keys(alloc: Global) -> Result<Vec<Key>, AllocError> {
    let mut keys = Vec::new(alloc);
    for hints in [HEAD_HINTS, KEY_LIST_HINTS, CLIENT_HINTS, STEP_HINTS] {
        for line in hints.lines() {
            if let Some(key) = key_in(line) {
                keys.push(key)?;
            }
        }
    }
    Ok(keys)
}

/// The key of a line.
fn key_in(line: &'static str) -> Option<Key> {
    let (place, rest) = line.split_once(SEPARATOR)?;
    let (name, rest) = rest.split_once(SEPARATOR)?;
    let (sample, takes) = rest.split_once(SEPARATOR)?;
    Some(Key {
        place,
        name,
        sample,
        takes,
    })
}

/// The keys that may stand at a place: of the head, of a client, or of a step of some name.
pub(crate) fn keys_at(alloc: Global, keys: &[Key], place: &str) -> Result<Vec<Key>, AllocError> {
    let mut there = Vec::new(alloc);
    for key in keys {
        match key_at(keys, place, key.name) {
            Some(own) if own.place == key.place => there.push(*key)?,
            _ => {}
        }
    }
    Ok(there)
}

/// The key of this name at a place.
pub(crate) fn key_at(keys: &[Key], place: &str, name: &str) -> Option<Key> {
    keys.iter()
        .copied()
        .find(|key| key.name == name && key.is_at(place))
}

impl Key {
    /// Whether it may stand there.
    fn is_at(&self, place: &str) -> bool {
        self.place == place || self.place == ANY_STEP && place != HEAD && place != CLIENT
    }
}
