//! Measures parts of the repository. The first word names a part. With no other word the part does a
//! little of its work and prints what came of it; with a second word, as `time`, it prints what the work
//! costs, and the program ends with 1 where a limit is passed. With no word at all each part does its
//! little.
#![tactic(auto)]

use anyhow::{Result, anyhow};
use bench_code::{lanes, machine, service};
use bench_common::Measures;
use bench_replica::{records, replica};
use bench_wire::{lms, messages};
use std::env;
use std::fs::Files;
use std::sync::Wait;
use std::thread::Threads;

mod world;

/// The words of the parts.
const PARTS: [&str; 9] = [
    "lms", "messages", "machine", "records", "replica", "service", "world", "threads", "lanes",
];

fn main(rt: HostRuntime) -> Result<()> {
    let Some(part) = env::args(&rt)?.nth(1) else {
        return run_all(&rt);
    };
    match env::args(&rt)?.nth(2) {
        None => run(&rt, part.as_str(), None),
        Some(work) => run(&rt, part.as_str(), Some(work.as_str())),
    }
}

/// Each part does its little.
fn run_all<R: Measures + Files + Threads + Wait + Copy + Send + Sync + Drop + 'static>(
    rt: &R,
) -> Result<()> {
    for part in PARTS {
        run(rt, part, None)?;
    }
    Ok(())
}

/// A part does its little, or measures what a word of its own names.
fn run<R: Measures + Files + Threads + Wait + Copy + Send + Sync + Drop + 'static>(
    rt: &R,
    part: &str,
    work: Option<&str>,
) -> Result<()> {
    match part {
        "lms" => lms::run(rt, work),
        "messages" => messages::run(rt, work),
        "machine" => machine::run(rt, work),
        "records" => records::run(rt, work),
        "replica" => replica::run(rt, work),
        "service" => service::run(rt, work),
        "world" => world::run(rt, work),
        "threads" => bench_threads::run(rt, work),
        "lanes" => lanes::run(rt, work),
        _ => Err(anyhow!(
            "the first word is none of lms, messages, machine, records, replica, service, world, threads and lanes"
        )),
    }
}
