//! What requests cost in one run, against their signatures alone.

use crate::replica::group::Setup;
use crate::replica::rows::{Cost, SLOTS, measure};
use anyhow::Result;
use bench_common::Measures;
use bench_common::ratio::{Comparison, Limit, require_within_limits};
use lms_tree::Height;
use std::alloc::{AllocError, Global};

/// What requests may cost of their signatures, and of those and the hashes of the state at each checkpoint where that is large.
const LIMIT: Limit = Limit::Thousandths(1350);

/// The same where the state is large and a checkpoint follows each request: nearly all is then the state, which is written out before
/// it is hashed.
const LIMIT_OF_HASHES: Limit = Limit::Thousandths(1750);

/// The requests of a row.
const REQUESTS: u32 = 300;

/// The requests where a checkpoint follows each one: they and the installation take 4 leaves each, and a
/// signer has 1,024.
const REQUESTS_AT_1: u32 = 255;

/// The requests where the state is large.
const REQUESTS_LARGE: u32 = 48;

/// The procedures that make it large.
const PROCEDURES: u8 = 60;

/// What a row is called.
fn name_of(alloc: Global, setup: Setup, requests: u32) -> Result<String, AllocError> {
    let Setup {
        clients,
        interval,
        procedures,
        ..
    } = setup;
    let mut name = format!(in alloc; "{requests} requests, clients: {clients}, k = {interval}")?;
    if procedures > 0 {
        let more = format!(in alloc; ", {procedures} procedures of {SLOTS} slots")?;
        name.push_str(more.as_str())?;
    }
    Ok(name)
}

/// Prints a ratio, and returns whether it is within its limit.
fn print_ratio(rt: &impl Measures, setup: Setup, cost: &Cost) -> Result<bool> {
    let limit = if setup.procedures > 0 && setup.interval == 1 {
        LIMIT_OF_HASHES
    } else {
        LIMIT
    };
    let name = name_of(rt.alloc(), setup, cost.requests)?;
    let (other, floor) = if setup.procedures > 0 {
        let both = cost.signatures.saturating_add(cost.hashes);
        ("signatures and hashes of the state alone", both)
    } else {
        ("signatures alone", cost.signatures)
    };
    Comparison {
        work: name.as_str(),
        taken: cost.all,
        other,
        floor,
        limit,
    }
    .print_microseconds(rt)
}

/// Prints what one of the requests takes: time, messages and leaves, these two in thousandths.
fn print_request(rt: &impl Print, cost: &Cost) -> Result<()> {
    let each = |total: u64| total.saturating_mul(1000) / u64::from(cost.requests).max(1);
    let (opened, signed) = (each(cost.opened), each(cost.signed));
    let (primary, backup) = (each(u64::from(cost.primary)), each(u64::from(cost.backup)));
    println!(rt;
        "  a request: {} us, {}.{:03} messages opened, {}.{:03} signed; leaves: {}.{:03} at the primary, {}.{:03} at a backup",
        cost.all / 1000 / u128::from(cost.requests).max(1),
        opened / 1000,
        opened % 1000,
        signed / 1000,
        signed % 1000,
        primary / 1000,
        primary % 1000,
        backup / 1000,
        backup % 1000
    )?;
    Ok(())
}

/// A group of this interval between checkpoints, one client and a large state.
fn large_group_of(interval: u8) -> Setup {
    Setup {
        procedures: PROCEDURES,
        ..group_of(interval, 1)
    }
}

/// A group of this interval between checkpoints and so many clients.
fn group_of(interval: u8, clients: u8) -> Setup {
    Setup {
        height: Height::H10,
        interval,
        clients,
        procedures: 0,
    }
}

/// Measures a group of this kind, and prints it.
fn print_row(rt: &impl Measures, setup: Setup, requests: u32) -> Result<bool> {
    let cost = measure(rt, setup, requests)?;
    let is_within = print_ratio(rt, setup, &cost)?;
    print_request(rt, &cost)?;
    Ok(is_within)
}

/// Prints the ratio at one client and an interval of 8 between checkpoints, then with more clients, with
/// more checkpoints, and with a large state; an error where one passes its limit.
pub(crate) fn print_times(rt: &impl Measures) -> Result<()> {
    println!(rt;
        "at k = 1 there are {REQUESTS_AT_1} requests: more would take a leaf that no signer has"
    )?;
    let at_8 = print_row(rt, group_of(8, 1), REQUESTS)?;
    let at_8_clients = print_row(rt, group_of(8, 8), REQUESTS)?;
    let at_4 = print_row(rt, group_of(4, 1), REQUESTS)?;
    let at_1 = print_row(rt, group_of(1, 1), REQUESTS_AT_1)?;
    let large_at_8 = print_row(rt, large_group_of(8), REQUESTS_LARGE)?;
    let large_at_1 = print_row(rt, large_group_of(1), REQUESTS_LARGE)?;
    require_within_limits(at_8 && at_8_clients && at_4 && at_1 && large_at_8 && large_at_1)
}

/// Prints how many messages and leaves 2 requests take.
pub(crate) fn print_small(rt: &impl Measures) -> Result<()> {
    let small = Setup {
        height: Height::H5,
        ..group_of(8, 1)
    };
    let cost = measure(rt, small, 2)?;
    println!(rt;
        "{} requests: {} messages opened, {} signed, {} leaves at the primary and {} at a backup",
        cost.requests, cost.opened, cost.signed, cost.primary, cost.backup
    )?;
    Ok(())
}
