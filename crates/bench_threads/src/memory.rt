//! The memory that a host takes.

use crate::calls::{Setup, Work, measure};
use anyhow::Result;
use bench_common::Measures;
use bench_common::peak::{peak, print_within};
use lms_tree::Height;
use std::fs::Files;
use std::sync::Wait;
use std::thread::Threads;

/// The requests, with the installation.
const REQUESTS: u32 = 300;

/// What a host may take for them, in KiB.
const LIMIT: u64 = 256 * 1024;

/// Prints what a host and its client have taken at most after 300 requests.
pub(crate) fn print_memory<
    R: Measures + Files + Threads + Wait + Copy + Send + Sync + Drop + 'static,
>(rt: &R) -> Result<()> {
    let setup = Setup {
        height: Height::H10,
        interval: 8,
        clients: 1,
        tenants: 1,
        calls: REQUESTS - 1,
        work: Work::Put,
        openers: 1,
    };
    measure(rt, setup)?;
    print_within(
        rt,
        "a host of four replicas after 300 requests, at most",
        peak(rt)?,
        "KiB",
        LIMIT,
    )
}
