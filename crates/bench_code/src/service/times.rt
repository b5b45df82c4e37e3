//! Times in one run: the least of a few rounds of each.

use crate::service::states;
use anyhow::{Result, anyhow};
use bench_common::Measures;
use bench_common::operations::key;
use bench_common::ratio::{Comparison, Limit, require_within_limits};
use sha2::{Digest, Sha256};
use std::time::{Clock, Instant};
use tenant_lanes::State;
use tenant_maps::{MapPort, TenantMap};

const ROUNDS: u32 = 40;

/// What a state's digest may cost of one hash of its bytes.
const DIGEST: Limit = Limit::Thousandths(1100);

/// What a put to a full map may cost of one to a map with room.
const FULL_PUT: Limit = Limit::Thousandths(1300);

/// The least time of a state's digest, and that of one hash of its bytes.
fn least_of_digest(rt: &impl Clock, state: &State, bytes: &[u8]) -> Result<(u128, u128)> {
    let mut taken = u128::MAX;
    let mut hashed = u128::MAX;
    for _ in 0..ROUNDS {
        let start = Instant::now(rt)?;
        let digest = state.digest();
        taken = taken.min(start.elapsed(rt)?.as_nanos());
        let start = Instant::now(rt)?;
        let hash = <Sha256 as Digest>::digest(bytes);
        hashed = hashed.min(start.elapsed(rt)?.as_nanos());
        if digest.0 != hash {
            return Err(anyhow!("the digest is another"));
        }
    }
    Ok((taken, hashed))
}

/// The digest of a full state against one hash of its bytes.
fn print_digest(rt: &impl Measures) -> Result<bool> {
    let state = states::with_entries(rt.alloc(), 4096)?;
    let bytes = state.to_bytes()?;
    let (taken, hashed) = least_of_digest(rt, &state, &bytes)?;
    Comparison {
        work: "the digest of a full state",
        taken,
        other: "one hash of its bytes",
        floor: hashed,
        limit: DIGEST,
    }
    .print(rt)
}

/// The time of putting all keys below 4,000 again.
fn nanoseconds_of_puts(rt: &impl Clock, map: &mut TenantMap) -> Result<u128> {
    let mut least = u128::MAX;
    for _ in 0..ROUNDS {
        let start = Instant::now(rt)?;
        for number in 0..4000 {
            map.put(key(number), [1; 32])?;
        }
        least = least.min(start.elapsed(rt)?.as_nanos());
    }
    Ok(least)
}

/// Puts to a full map against puts to a map with room.
fn print_puts(rt: &impl Measures) -> Result<bool> {
    let mut full = states::map(rt.alloc(), 4096)?;
    let mut almost = states::map(rt.alloc(), 4095)?;
    Comparison {
        work: "4,000 puts to a full map",
        taken: nanoseconds_of_puts(rt, &mut full)?,
        other: "with room",
        floor: nanoseconds_of_puts(rt, &mut almost)?,
        limit: FULL_PUT,
    }
    .print(rt)
}

/// Prints all ratios; an error where one passes its limit.
pub(crate) fn print_times(rt: &impl Measures) -> Result<()> {
    let digest = print_digest(rt)?;
    let puts = print_puts(rt)?;
    require_within_limits(digest && puts)
}
