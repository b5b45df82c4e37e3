//! Cases of a key, a message and a signature, which are read from rows and damaged.

use crate::one_tree::ONE_TREE;
use crate::two_levels::TWO_LEVELS;
use hex::{FromHex, decode};
use host_types::PublicKey;
use std::alloc::Global;
use std::test::Fail;

/// The bytes of hex text.
pub(crate) fn array<const N: usize>(text: &str) -> Result<[u8; N], Fail> {
    Ok(<[u8; N] as FromHex>::from_hex(text)?)
}

/// The word before a blank, and what stands behind it.
pub(crate) fn halves(line: &str) -> (&str, &str) {
    line.split_once(" ").unwrap_or((line, ""))
}

/// The key of hex text: of one tree, which takes 56 bytes, or else of two levels.
pub(crate) fn key_of(text: &str) -> Result<PublicKey, Fail> {
    if text.len() == 112 {
        Ok(PublicKey::Lms(array(text)?))
    } else {
        Ok(PublicKey::Hss(array(text)?))
    }
}

/// A key, a message and a signature.
#[derive(Drop)]
pub(crate) struct Case {
    pub(crate) key: PublicKey,
    pub(crate) message: Vec<u8>,
    pub(crate) signature: Vec<u8>,
}

/// What stands behind a name in the table's line of that name, if there is one.
fn row_of(table: &'static str, name: &str) -> Option<&'static str> {
    let line = table.lines().find(|line| halves(line).0 == name)?;
    Some(halves(line).1)
}

/// The valid case of this name.
pub(crate) fn valid_case(alloc: Global, name: &str) -> Result<Case, Fail> {
    let row = match row_of(ONE_TREE, name) {
        Some(row) => row,
        None => row_of(TWO_LEVELS, name).ok_or("no such case")?,
    };
    read_case(alloc, row)
}

/// The case of a key, a message, `-` for an empty one, and a signature, in hex.
fn read_case(alloc: Global, row: &str) -> Result<Case, Fail> {
    let (key, rest) = halves(row);
    let (message, signature) = halves(rest);
    let key = key_of(key)?;
    let message = if message == "-" { "" } else { message };
    let message = decode(alloc, message)?;
    let signature = decode(alloc, signature)?;
    Ok(Case {
        key,
        message,
        signature,
    })
}

/// Writes bytes in hex from a place on: `PLACE HEX`.
fn put(bytes: &mut [u8], text: &str) -> Result<(), Fail> {
    let (place, piece) = halves(text);
    let place = place.parse::<usize>()?;
    for (target, byte) in bytes.iter_mut().skip(place).zip(piece.as_bytes().chunks(2)) {
        *target = u8::from_str_radix(str::from_utf8(byte)?, 16)?;
    }
    Ok(())
}

impl Case {
    /// Changes the case as a text says: `length N`, `message HEX`, or bytes from a place of the key or of the
    /// signature on.
    pub(crate) fn change(&mut self, alloc: Global, text: &str) -> Result<(), Fail> {
        let (what, rest) = halves(text);
        match what {
            "" => {}
            "length" => self.signature.resize(rest.parse::<usize>()?, 0)?,
            "message" => self.message = decode(alloc, rest)?,
            "key" => match &mut self.key {
                PublicKey::Lms(key) => put(key, rest)?,
                PublicKey::Hss(key) => put(key, rest)?,
            },
            "signature" => put(&mut self.signature, rest)?,
            _ => return Err(Fail::new("no such change")),
        }
        Ok(())
    }
}
