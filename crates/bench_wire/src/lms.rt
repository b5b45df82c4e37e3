//! Keys and signatures. The part signs and verifies once. For `time` it prints what keys, signatures and
//! verification cost against as many one-block hashes as they take; for `time-v3` likewise, with the limits of a program that was
//! built for x86-64-v3.

use anyhow::{Result, anyhow};
use bench_common::Measures;
use lms_tree::{Height, Signer, verify};
use std::alloc::Global;
use times::Build;

mod counts;
mod levels;
mod times;

/// Signs and verifies once, or does what a word names.
pub fn run(rt: &impl Measures, work: Option<&str>) -> Result<()> {
    match work {
        None => print_small(rt),
        Some("time") => times::print_times(rt, Build::Default),
        Some("time-v3") => times::print_times(rt, Build::V3),
        Some(_) => Err(anyhow!("the word behind lms is neither time nor time-v3")),
    }
}

fn print_small(rt: &impl Measures) -> Result<()> {
    let bytes = valid_bytes(rt.alloc())?;
    println!(rt; "a signature of {bytes} bytes is valid")?;
    Ok(())
}

/// Signs and verifies, and returns how many bytes the signature has.
fn valid_bytes(alloc: Global) -> Result<usize> {
    let mut signer = Signer::from_seed(alloc, Height::H5, [1; 16], [2; 32])?;
    let sig = signer.sign(b"a message")?;
    match verify(&signer.public_key(), b"a message", &sig) {
        Ok(()) => Ok(sig.len()),
        Err(_) => Err(anyhow!("the signature is not valid")),
    }
}
