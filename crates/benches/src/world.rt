//! Scripts. The part runs a script of eleven requests. For `time` it prints what scripts take of the
//! processor's time against their keys, signatures and openings alone, and what twice as much of each
//! takes; for `seeds` what a seed of `explore` takes against its signatures; for `queue` and for `rows` the memory that a
//! script has taken at most.

use anyhow::{Result, anyhow};
use bench_common::Measures;
use std::fs::Files;

mod floor;
mod memory;
mod replies;
mod scripts;
mod seeds;
mod times;

/// Runs a script, or does what a word names.
pub(crate) fn run(rt: &(impl Measures + Files), work: Option<&str>) -> Result<()> {
    match work {
        None => times::print_small(rt),
        Some("time") => times::print_times(rt),
        Some("seeds") => seeds::print_seeds(rt),
        Some("queue") => memory::print_queue(rt),
        Some("rows") => memory::print_rows(rt),
        Some(_) => Err(anyhow!("the word behind world is none of time, seeds, queue and rows")),
    }
}
