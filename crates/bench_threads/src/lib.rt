//! Hosts: replicas in threads of their own. The part lets a client call them. For `time` it prints how
//! long calls take against their signatures alone on as many threads, and a step under a station's lock
//! against the replica's alone; for `rates` how many calls a second; for `memory` the memory that a host has taken at most; for `go` how many of
//! hosts that eight clients call at once go on until all calls are answered, ten of each kind, or as many as
//! a number in its place says.
#![tactic(auto)]

use anyhow::{Result, anyhow};
use bench_common::Measures;
use std::fs::Files;
use std::sync::Wait;
use std::thread::Threads;

mod calls;
mod going;
mod load;
mod memory;
mod steps;
mod times;

/// Lets a client call, or does what a word names.
pub fn run<R: Measures + Files + Threads + Wait + Copy + Send + Sync + Drop + 'static>(
    rt: &R,
    work: Option<&str>,
) -> Result<()> {
    match work {
        None => times::print_small(rt),
        Some("time") => times::print_times(rt),
        Some("rates") => times::print_rates(rt),
        Some("memory") => memory::print_memory(rt),
        Some("go") => going::print_going(rt, going::HOSTS),
        Some(word) => match word.parse::<u32>() {
            Ok(hosts) => going::print_going(rt, hosts),
            Err(_) => Err(anyhow!(
                "the word behind threads is none of time, rates, memory, go and a number"
            )),
        },
    }
}
