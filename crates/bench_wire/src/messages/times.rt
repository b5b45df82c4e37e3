//! Times in one run: the least of a few rounds of each.

use crate::messages::cases::{self, Sealed};
use anyhow::{Result, anyhow};
use bench_common::Measures;
use bench_common::ratio::{Comparison, Limit, require_within_limits};
use pbft_codec::decode;
use seal::open;
use std::io;
use std::time::{Clock, Duration, Instant};

const ROUNDS: u32 = 30;

/// What reading may cost of one copy of the bytes.
const READING: Limit = Limit::Thousandths(3000);

/// What opening may cost of the verification of its signature.
const OPENING: Limit = Limit::Thousandths(1050);

/// The nanoseconds of what was taken, where a message was read.
fn nanoseconds_if_read(is_read: bool, taken: io::Result<Duration>) -> Result<u128> {
    if is_read {
        Ok(taken?.as_nanos())
    } else {
        Err(anyhow!("the message is not read"))
    }
}

/// The time of reading the bytes as a message once.
fn nanoseconds_of_one(rt: &impl Measures, bytes: &[u8]) -> Result<u128> {
    let start = Instant::now(rt)?;
    let message = decode(rt.alloc(), bytes);
    let taken = start.elapsed(rt);
    nanoseconds_if_read(message.is_ok(), taken)
}

/// The time of reading the bytes as a message.
fn nanoseconds_of_reading(rt: &impl Measures, bytes: &[u8]) -> Result<u128> {
    let mut least = u128::MAX;
    for _ in 0..ROUNDS {
        least = least.min(nanoseconds_of_one(rt, bytes)?);
    }
    Ok(least)
}

/// The time of one copy of the bytes into a fresh vector.
fn nanoseconds_of_copying(rt: &impl Measures, bytes: &[u8]) -> Result<u128> {
    let mut least = u128::MAX;
    for _ in 0..ROUNDS {
        let start = Instant::now(rt)?;
        let mut copy = Vec::new(rt.alloc());
        copy.extend_from_slice(bytes)?;
        least = least.min(start.elapsed(rt)?.as_nanos());
        if copy.len() != bytes.len() {
            return Err(anyhow!("the copy is short"));
        }
    }
    Ok(least)
}

fn print_decode(rt: &impl Measures, work: &str, bytes: &[u8]) -> Result<bool> {
    Comparison {
        work,
        taken: nanoseconds_of_reading(rt, bytes)?,
        other: "one copy of the bytes",
        floor: nanoseconds_of_copying(rt, bytes)?,
        limit: READING,
    }
    .print(rt)
}

/// The time of opening a message `count` times.
fn nanoseconds_of_opening(rt: &impl Measures, message: &Sealed, count: u32) -> Result<u128> {
    let start = Instant::now(rt)?;
    for _ in 0..count {
        if open(rt.alloc(), &message.config, &message.bytes).is_err() {
            return Err(anyhow!("the message does not open"));
        }
    }
    Ok(start.elapsed(rt)?.as_nanos())
}

/// The time of verifying its signature as often.
fn nanoseconds_of_verifying(rt: &impl Clock, message: &Sealed, count: u32) -> Result<u128> {
    let start = Instant::now(rt)?;
    for _ in 0..count {
        message.case.verify()?;
    }
    Ok(start.elapsed(rt)?.as_nanos())
}

fn print_open(rt: &impl Measures, work: &str, message: &Sealed, count: u32) -> Result<bool> {
    let mut opened = u128::MAX;
    let mut verified = u128::MAX;
    for _ in 0..ROUNDS {
        opened = opened.min(nanoseconds_of_opening(rt, message, count)?);
        verified = verified.min(nanoseconds_of_verifying(rt, message, count)?);
    }
    Comparison {
        work,
        taken: opened,
        other: "verification alone",
        floor: verified,
        limit: OPENING,
    }
    .print(rt)
}

/// Reading a Snapshot and a NewView.
fn print_decodes(rt: &impl Measures, snapshot: &Sealed) -> Result<bool> {
    let bytes = cases::new_view(rt.alloc())?;
    let read = print_decode(rt, "reading a snapshot", &snapshot.bytes)?;
    let read_nested = print_decode(rt, "reading a new view", &bytes)?;
    Ok(read && read_nested)
}

/// Opening messages that are signed with keys of two levels.
fn print_of_levels(rt: &impl Measures) -> Result<bool> {
    let commit = cases::commit_of_levels(rt.alloc())?;
    let snapshot = cases::snapshot_of_levels(rt.alloc())?;
    let opened = print_open(rt, "opening a commit of two levels", &commit, 100)?;
    let opened_long = print_open(rt, "opening a snapshot of two levels", &snapshot, 1)?;
    Ok(opened && opened_long)
}

/// Prints all ratios, and returns whether they are within their limits.
fn print_of(rt: &impl Measures, snapshot: &Sealed, commit: &Sealed) -> Result<bool> {
    let read = print_decodes(rt, snapshot)?;
    let opened = print_open(rt, "opening a commit", commit, 100)?;
    let opened_long = print_open(rt, "opening a snapshot", snapshot, 1)?;
    let levels = print_of_levels(rt)?;
    Ok(read && opened && opened_long && levels)
}

/// Prints all ratios; an error where one passes its limit.
pub(crate) fn print_times(rt: &impl Measures) -> Result<()> {
    let snapshot = cases::snapshot(rt.alloc())?;
    let commit = cases::commit(rt.alloc())?;
    let are_within = print_of(rt, &snapshot, &commit)?;
    require_within_limits(are_within)
}
