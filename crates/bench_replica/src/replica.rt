//! Four replicas, of which one may be faulty. The part has them execute 2 requests that put into the map.
//! For `time` it prints what requests take of the processor's time against their signatures alone, each
//! made once and verified by each replica that opens it. What the clients sign and verify themselves
//! counts on neither side.

use anyhow::{Result, anyhow};
use bench_common::Measures;

mod floor;
mod group;
mod node;
mod rows;
mod times;
mod traffic;

/// Executes 2 requests, or does what a word names.
pub fn run(rt: &impl Measures, work: Option<&str>) -> Result<()> {
    match work {
        None => times::print_small(rt),
        Some("time") => times::print_times(rt),
        Some(_) => Err(anyhow!("the word behind replica is not time")),
    }
}
