//! Drivers of single calls whose allocations are refused, one after another. The first word names a driver; with no
//! word each does its work once.
//!
//!     refused_calls apply
//!     refused_calls events < script.toml
//!
//! A driver sets up what it needs, prints `begin`, makes its one call, and prints what came of it: `memory` where
//! memory ran out, and then what the refused call has to have kept.
#![tactic(auto)]

use anyhow::{Result, anyhow};
use std::env;
use std::sync::Wait;
use std::thread::Threads;

mod common;
mod events;
mod replies;
mod service;
mod threads;

/// The drivers that need no input, by their words.
const DRIVERS: [&str; 6] = ["apply", "apply_all", "request", "offer", "take", "start"];

fn main(rt: HostRuntime) -> Result<()> {
    let Some(driver) = env::args(&rt)?.nth(1) else {
        return run_all(&rt, &rt);
    };
    match (driver.as_str(), env::args(&rt)?.nth(2)) {
        ("events", None) => events::print_read(&rt),
        (driver, None) => run(&rt, &rt, driver),
        _ => Err(anyhow!("there is no such driver")),
    }
}

/// Each driver does its work once.
fn run_all<R: Threads + Wait + Copy + Send + Sync + Drop + 'static>(
    rt: &HostRuntime,
    threads: &R,
) -> Result<()> {
    for driver in DRIVERS {
        println!(rt; "{driver}")?;
        run(rt, threads, driver)?;
    }
    println!(rt; "events")?;
    events::print_small(rt)
}

/// Runs the driver of this name. Threads are made by a handle of their own.
fn run<R: Threads + Wait + Copy + Send + Sync + Drop + 'static>(
    rt: &HostRuntime,
    threads: &R,
    driver: &str,
) -> Result<()> {
    match driver {
        "apply" => service::print_apply(rt),
        "apply_all" => service::print_apply_all(rt, threads),
        "request" => replies::print_request(rt),
        "offer" => replies::print_offer(rt),
        "take" => threads::print_take(rt, threads),
        "start" => threads::print_start(rt, threads),
        _ => Err(anyhow!("there is no such driver")),
    }
}
