//! What requests of several tenants take, by how many workers.

use crate::lanes::batches::{LARGE, SMALL, TENANTS, calls, in_lanes, in_turn, state};
use anyhow::Result;
use bench_common::Measures;
use bench_common::ratio::{Comparison, Limit, require_within_limits};
use std::thread::{self, Threads};
use tenant_lanes::State;

/// How often each is measured; the least time counts.
const ROUNDS: u32 = 10;

/// What the eight tenants' calls may take by so many workers of what they take by one, on four processors.
const BY_WORKERS: [(u8, Limit); 3] = [
    (2, Limit::Thousandths(650)),
    (4, Limit::Thousandths(450)),
    (8, Limit::Thousandths(450)),
];

/// What one tenant's calls may take in a lane of what they take one after another.
const ONE_TENANT: Limit = Limit::Thousandths(1050);

/// What small calls may take in lanes of what they take one after another: each lane looks at all of them.
const SMALL_CALLS: Limit = Limit::Thousandths(3000);

/// The least time of some rounds of calls in lanes, and the state after them.
fn least_in_lanes<R: Measures + Threads + Sync>(
    rt: &R,
    mut state: State,
    call: (u8, u32, u32),
    workers: u8,
) -> Result<(State, u128)> {
    let (procedure, tenants, each) = call;
    let mut least = u128::MAX;
    for _ in 0..ROUNDS {
        let requests = calls(rt.alloc(), state.number().0, procedure, tenants, each)?;
        let (next, taken) = in_lanes(rt, state, &requests, workers)?;
        state = next;
        least = least.min(taken);
    }
    Ok((state, least))
}

/// The same one after another.
fn least_in_turn(
    rt: &impl Measures,
    mut state: State,
    call: (u8, u32, u32),
) -> Result<(State, u128)> {
    let (procedure, tenants, each) = call;
    let mut least = u128::MAX;
    for _ in 0..ROUNDS {
        let requests = calls(rt.alloc(), state.number().0, procedure, tenants, each)?;
        let (next, taken) = in_turn(rt, state, &requests)?;
        state = next;
        least = least.min(taken);
    }
    Ok((state, least))
}

/// Prints what the eight tenants' calls take by so many workers against one, and returns whether that is within the limit.
fn print_workers(
    rt: &impl Measures,
    workers: u8,
    taken: u128,
    one: u128,
    limit: Limit,
) -> Result<bool> {
    let work = format!(in rt.alloc(); "256 calls of eight tenants, workers: {workers}")?;
    Comparison {
        work: work.as_str(),
        taken,
        other: "one worker",
        floor: one,
        limit,
    }
    .print_microseconds(rt)
}

/// Prints what they take by several workers, and returns whether that is within the limits.
fn print_by_workers<R: Measures + Threads + Sync>(rt: &R, state: State) -> Result<(State, bool)> {
    let call = (LARGE, TENANTS, 32);
    let (mut state, one) = least_in_lanes(rt, state, call, 1)?;
    let mut are_within = true;
    for (workers, limit) in BY_WORKERS {
        let (next, taken) = least_in_lanes(rt, state, call, workers)?;
        state = next;
        are_within = print_workers(rt, workers, taken, one, limit)? && are_within;
    }
    Ok((state, are_within))
}

/// Prints what calls take in lanes against one after another, and returns whether that is within the limit.
fn print_against_turn<R: Measures + Threads + Sync>(
    rt: &R,
    state: State,
    work: &str,
    call: (u8, u32, u32),
    limit: Limit,
) -> Result<(State, bool)> {
    let (state, taken) = least_in_lanes(rt, state, call, 4)?;
    let (state, floor) = least_in_turn(rt, state, call)?;
    let is_within = Comparison {
        work,
        taken,
        other: "one after another",
        floor,
        limit,
    }
    .print_microseconds(rt)?;
    Ok((state, is_within))
}

/// Prints all ratios; an error where one passes its limit.
pub(crate) fn print_times<R: Measures + Threads + Sync>(rt: &R) -> Result<()> {
    let state = state(rt.alloc())?;
    let (state, by_workers) = print_by_workers(rt, state)?;
    let (state, one) = print_against_turn(
        rt,
        state,
        "256 calls of one tenant",
        (LARGE, 1, 256),
        ONE_TENANT,
    )?;
    let (_, small) = print_against_turn(
        rt,
        state,
        "4,096 small calls of eight tenants",
        (SMALL, TENANTS, 512),
        SMALL_CALLS,
    )?;
    println!(rt; "  on {} processors", thread::available_parallelism(rt)?)?;
    require_within_limits(by_workers && one && small)
}

/// How many small calls three workers took in lanes, and whether they came to the state that they come to one after another.
fn small_calls<R: Measures + Threads + Sync>(rt: &R) -> Result<(usize, bool)> {
    let one = state(rt.alloc())?;
    let requests = calls(rt.alloc(), one.number().0, SMALL, TENANTS, 3)?;
    let (one, _) = in_lanes(rt, one, &requests, 3)?;
    let digest = one.digest();
    let (other, _) = in_turn(rt, state(rt.alloc())?, &requests)?;
    Ok((requests.len(), digest.0 == other.digest().0))
}

/// Prints how many small calls in lanes came to the state that they come to one after another.
pub(crate) fn print_small<R: Measures + Threads + Sync>(rt: &R) -> Result<()> {
    let (calls, is_same) = small_calls(rt)?;
    println!(rt; "{calls} calls of eight tenants by 3 workers, as one after another: {is_same}")?;
    require_within_limits(is_same)
}
