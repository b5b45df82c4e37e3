//! Lanes by tenant. The part calls procedures of eight tenants in lanes. For `time` it prints what requests take by
//! 1 to 8 workers, what those of one tenant take in a lane against one after another, and what small calls take.

use anyhow::{Result, anyhow};
use bench_common::Measures;
use std::thread::Threads;

mod batches;
mod times;

/// Calls procedures in lanes, or does what a word names.
pub fn run<R: Measures + Threads + Sync>(rt: &R, work: Option<&str>) -> Result<()> {
    match work {
        None => times::print_small(rt),
        Some("time") => times::print_times(rt),
        Some(_) => Err(anyhow!("the word behind lanes is not time")),
    }
}
