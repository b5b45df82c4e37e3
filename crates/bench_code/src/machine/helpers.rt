//! What a call of a helper costs over the map's own operation.

use crate::machine::programs::helper_calls;
use crate::machine::runs::{finished, verified};
use anyhow::{Result, anyhow};
use bench_common::Measures;
use bench_common::ratio::{Limit, Ratio, require_within_limits};
use bpf_verifier::Procedure;
use std::alloc::{AllocError, Global};
use std::time::{Clock, Instant};
use tenant_maps::{MapPort, TenantMap};

/// The number of the helper `get`.
const GET: i32 = 1;

/// The number of the helper `put`.
const PUT: i32 = 2;

/// The entries of the map.
const ENTRIES: u64 = 4096;

/// How far a key lies behind the one before it.
const STRIDE: u64 = 1009;

/// The calls of a program.
const CALLS: u32 = 150;

/// The rounds of which the least counts.
const ROUNDS: u32 = 100;

/// How often a program is run in a round, each time from another key on.
const RUNS: u32 = 40;

/// What a call may take of what the map's own operation takes.
const LIMIT: Limit = Limit::Thousandths(1500);

/// The key of a number, as the programs make it.
fn key_of(number: u64) -> [u8; 16] {
    let [a, b, c, d, e, f, g, h] = (number % ENTRIES).to_le_bytes();
    [0, 0, 0, 0, 0, 0, 0, 0, a, b, c, d, e, f, g, h]
}

/// The number of the first key of a run.
fn first_of(run: u32) -> u64 {
    u64::from(run.wrapping_mul(2_654_435_761))
}

/// The arguments of a run: the number of its first key, the least byte first.
fn arguments_of(run: u32) -> [u8; 48] {
    let number = first_of(run).to_le_bytes();
    let mut args = [0; 48];
    for index in 0..8 {
        args[index] = number[index];
    }
    args
}

fn full_map(alloc: Global) -> Result<TenantMap, AllocError> {
    let mut map = TenantMap::new(alloc);
    for number in 0..ENTRIES {
        map.put(key_of(number), [7; 32])?;
    }
    Ok(map)
}

/// The nanoseconds of a round of calls of a helper.
fn round_of_calls(rt: &impl Clock, procedure: &Procedure, map: &mut TenantMap) -> Result<u128> {
    let start = Instant::now(rt)?;
    for run in 0..RUNS {
        if finished(procedure, &arguments_of(run), map).is_none() {
            return Err(anyhow!("memory ran out"));
        }
    }
    Ok(start.elapsed(rt)?.as_nanos())
}

/// The nanoseconds of a round of the map's own `get`; gives the value that it found last.
fn round_of_gets(rt: &impl Clock, map: &TenantMap, found: &mut [u8; 32]) -> Result<u128> {
    let start = Instant::now(rt)?;
    for run in 0..RUNS {
        let mut number = first_of(run);
        for _ in 0..CALLS {
            if let Some(value) = map.get(&key_of(number)) {
                *found = value;
            }
            number = number.wrapping_add(STRIDE);
        }
    }
    Ok(start.elapsed(rt)?.as_nanos())
}

/// The nanoseconds of a round of the map's own `put`.
fn round_of_puts(rt: &impl Clock, map: &mut TenantMap) -> Result<u128> {
    let start = Instant::now(rt)?;
    for run in 0..RUNS {
        let mut number = first_of(run);
        for _ in 0..CALLS {
            map.put(key_of(number), [0; 32])?;
            number = number.wrapping_add(STRIDE);
        }
    }
    Ok(start.elapsed(rt)?.as_nanos())
}

/// Prints what a call costs and what the map's own operation does, given the least round of each.
/// Whether the limit is kept.
fn keeps_limit(rt: &impl Print, name: &str, call: u128, own: u128) -> Result<bool> {
    let operations = u128::from(RUNS.saturating_mul(CALLS).max(1));
    let call = call.saturating_mul(1000) / operations;
    let own = own.saturating_mul(1000) / operations;
    let ratio = Ratio::new(call, own, LIMIT);
    println!(rt; "{name}, 4,096 entries: {call} ps a call, the map's own {own} ps, {ratio}")?;
    Ok(ratio.is_within_limit())
}

/// The least nanoseconds of a round of each: calls of `get`, the map's own `get`, calls of `put`, the map's own `put`. The
/// four take turns. Gives the value that was found last.
fn least_rounds(
    rt: &impl Clock,
    gets: &Procedure,
    puts: &Procedure,
    map: &mut TenantMap,
    found: &mut [u8; 32],
) -> Result<[u128; 4]> {
    let mut least = [u128::MAX; 4];
    for _ in 0..ROUNDS {
        least[0] = least[0].min(round_of_calls(rt, gets, map)?);
        least[1] = least[1].min(round_of_gets(rt, map, found)?);
        least[2] = least[2].min(round_of_calls(rt, puts, map)?);
        least[3] = least[3].min(round_of_puts(rt, map)?);
    }
    Ok(least)
}

/// The same over a full map.
fn least_of_full_map(rt: &impl Measures, found: &mut [u8; 32]) -> Result<[u128; 4]> {
    let alloc = rt.alloc();
    let gets = verified(alloc, &helper_calls(alloc, "gets", GET, CALLS)?)?;
    let puts = verified(alloc, &helper_calls(alloc, "puts", PUT, CALLS)?)?;
    let mut map = full_map(alloc)?;
    least_rounds(rt, &gets, &puts, &mut map, found)
}

/// Prints what calls of `get` and `put` cost over the map's own, in turn with them; an error where it is
/// too much. The keys change from run to run, so that neither side learns the way to one.
pub(crate) fn print_costs(rt: &impl Measures) -> Result<()> {
    let mut found = [0; 32];
    let least = least_of_full_map(rt, &mut found)?;
    println!(rt;
        "the value found last: {}",
        hex::encode(rt.alloc(), &found)?
    )?;
    let get = keeps_limit(rt, "get", least[0], least[1])?;
    let put = keeps_limit(rt, "put", least[2], least[3])?;
    require_within_limits(get && put)
}
