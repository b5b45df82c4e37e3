//! Messages. The part opens a Commit and reads a full NewView. For `time` it prints what reading messages
//! costs against copying their bytes, and what opening one costs against the verification of its
//! signature.

use anyhow::{Result, anyhow};
use bench_common::Measures;
use pbft_codec::decode;
use seal::open;
use std::alloc::Global;

mod cases;
mod times;

/// Opens and reads a message each, or does what a word names.
pub fn run(rt: &impl Measures, work: Option<&str>) -> Result<()> {
    match work {
        None => print_small(rt),
        Some("time") => times::print_times(rt),
        Some(_) => Err(anyhow!("the word behind messages is not time")),
    }
}

fn print_small(rt: &impl Measures) -> Result<()> {
    let opened = opened_bytes(rt.alloc())?;
    let read = read_bytes(rt.alloc())?;
    println!(rt; "a message of {opened} bytes opens, and a new view of {read} bytes is read")?;
    Ok(())
}

/// Opens a Commit, and returns how many bytes it has.
fn opened_bytes(alloc: Global) -> Result<usize> {
    let commit = cases::commit(alloc)?;
    match open(alloc, &commit.config, &commit.bytes) {
        Ok(_) => Ok(commit.bytes.len()),
        Err(_) => Err(anyhow!("the message does not open")),
    }
}

/// Reads a full NewView, and returns how many bytes it has.
fn read_bytes(alloc: Global) -> Result<usize> {
    let bytes = cases::new_view(alloc)?;
    match decode(alloc, &bytes) {
        Ok(_) => Ok(bytes.len()),
        Err(_) => Err(anyhow!("the new view is not read")),
    }
}
