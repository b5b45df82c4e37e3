//! Reads tables of keys and of signatures that other implementations made, and prints of each table how many of its rows come
//! out as they say; before that, the rows that don't. The tables stand where it runs.
//!
//! A row of keys: the height, or those of the top tree and of the bottom trees; I; SEED; the public key. A row of signatures: a
//! name; a key; a message; a signature; and the fault's number, 0 of a valid one. Columns are apart by a tab, bytes are in hex,
//! `-` stands for none, and a line that begins with `#` says what the columns are.
#![tactic(auto)]

use anyhow::{Result, anyhow};
use hex::{FromHex, decode};
use host_types::PublicKey;
use lms_tree::{Height, Signer, verify};
use std::alloc::Global;
use std::fs;

/// The tables.
const TABLES: [(&str, Table); 4] = [
    ("lms-keys.tsv", Table::Keys),
    ("hss-keys.tsv", Table::KeysOfTwoLevels),
    ("lms-signatures.tsv", Table::Signatures { fault: 4 }),
    ("hss-signatures.tsv", Table::Signatures { fault: 5 }),
];

/// What a table's rows are.
#[derive(Clone, Copy)]
enum Table {
    Keys,
    KeysOfTwoLevels,
    /// With the fault in this column.
    Signatures { fault: usize },
}

fn main(rt: HostRuntime) -> Result<()> {
    let mut all = true;
    for (name, table) in TABLES {
        all = print_table(&rt, name, table)? && all;
    }
    if all {
        Ok(())
    } else {
        Err(anyhow!("a row comes out otherwise"))
    }
}

/// Prints what comes of a table; whether each row holds.
fn print_table(rt: &HostRuntime, name: &str, table: Table) -> Result<bool> {
    let alloc = rt.alloc();
    let text = fs::read_to_string(rt, name)?;
    let (mut rows, mut held): (u32, u32) = (0, 0);
    for line in text.lines() {
        if line.starts_with("#") {
            continue;
        }
        rows = rows.saturating_add(1);
        if holds(alloc, table, line)? {
            held = held.saturating_add(1);
        } else {
            println!(rt; "{name}: {line}")?;
        }
    }
    println!(rt; "{name}: {held} of {rows}")?;
    Ok(held == rows)
}

/// Whether a row comes out as it says.
fn holds(alloc: Global, table: Table, line: &str) -> Result<bool> {
    match table {
        Table::Keys => key_holds(alloc, line),
        Table::KeysOfTwoLevels => key_of_two_levels_holds(alloc, line),
        Table::Signatures { fault } => signature_holds(alloc, line, fault),
    }
}

/// Column `at` of a row.
fn column(line: &str, at: usize) -> Result<&str> {
    line.split('\t')
        .nth(at)
        .ok_or_else(|| anyhow!("a row lacks a column"))
}

/// The bytes in a column, of a length that is known.
fn bytes_in<const N: usize>(line: &str, at: usize) -> Result<[u8; N]> {
    Ok(<[u8; N] as FromHex>::from_hex(column(line, at)?)?)
}

/// The height in a column.
fn height_in(line: &str, at: usize) -> Result<Height> {
    match column(line, at)? {
        "5" => Ok(Height::H5),
        "10" => Ok(Height::H10),
        _ => Err(anyhow!("no such height")),
    }
}

/// The key in a column: of one tree, which takes 56 bytes, or else of two levels.
fn key_in(line: &str, at: usize) -> Result<PublicKey> {
    if column(line, at)?.len() == 112 {
        Ok(PublicKey::Lms(bytes_in(line, at)?))
    } else {
        Ok(PublicKey::Hss(bytes_in(line, at)?))
    }
}

/// The bytes in a column, of any length.
fn any_bytes_in(alloc: Global, line: &str, at: usize) -> Result<Vec<u8>> {
    match column(line, at)? {
        "-" => Ok(Vec::new(alloc)),
        text => Ok(decode(alloc, text)?),
    }
}

fn key_holds(alloc: Global, line: &str) -> Result<bool> {
    let signer = Signer::from_seed(
        alloc,
        height_in(line, 0)?,
        bytes_in(line, 1)?,
        bytes_in(line, 2)?,
    )?;
    Ok(signer.public_key() == key_in(line, 3)?)
}

fn key_of_two_levels_holds(alloc: Global, line: &str) -> Result<bool> {
    let signer = Signer::from_seed2(
        alloc,
        height_in(line, 0)?,
        height_in(line, 1)?,
        bytes_in(line, 2)?,
        bytes_in(line, 3)?,
    )?;
    Ok(signer.public_key() == key_in(line, 4)?)
}

fn signature_holds(alloc: Global, line: &str, fault: usize) -> Result<bool> {
    let message = any_bytes_in(alloc, line, 2)?;
    let signature = any_bytes_in(alloc, line, 3)?;
    let found = match verify(&key_in(line, 1)?, &message, &signature) {
        Ok(()) => 0,
        Err(fault) => fault.number(),
    };
    Ok(found == column(line, fault)?.parse::<u8>()?)
}
