//! What a seed of `explore` takes: the keys are made once, and each seed signs and opens anew.

use crate::world::floor::{nanoseconds_of_keys, nanoseconds_of_signing, nanoseconds_of_verifying};
use crate::world::scripts::{CALLS, OPENED, SIGNED, requests};
use anyhow::{Result, anyhow};
use bench_common::ratio::{Comparison, Limit, require_within_limits};
use bench_common::{Measures, ProcessorTime};
use world_trace::{
    ScriptFault, Search, Searched, Seeds, Unwatched, Wanted, explore_script, read_script,
};

const ROUNDS: u32 = 5;

/// The seeds that are compared with one.
const SEEDS: u64 = 8;

/// What a seed may cost of its signatures.
const SEED: Limit = Limit::Thousandths(1250);

/// The processor's time of exploring a script under so many seeds, its keys among it, in nanoseconds.
fn nanoseconds_of_seeds(rt: &impl Measures, script: &str, many: u64) -> Result<u128> {
    let seeds = Seeds {
        first: 0,
        end: many,
    };
    let start = ProcessorTime::now(rt)?;
    let searched = searched_under(rt, script, seeds);
    let taken = start.nanoseconds(rt)?;
    match searched {
        Ok(Searched::Agreed) => Ok(taken),
        _ => Err(anyhow!("the script doesn't agree under each seed")),
    }
}

/// What is found of a script under these seeds.
fn searched_under(
    rt: &impl Measures,
    script: &str,
    seeds: Seeds,
) -> std::result::Result<Searched, ScriptFault> {
    let mut written = Vec::new(rt.alloc());
    let script = read_script(rt.alloc(), script.as_bytes())?;
    let search = Search {
        seeds,
        wanted: Wanted::Agreement,
        shrinks: false,
    };
    explore_script(rt.alloc(), search, &script, &mut written, &mut Unwatched)
}

/// The processor's time of a seed behind the first, in nanoseconds.
fn least_of_seed(rt: &impl Measures, script: &str) -> Result<u128> {
    let mut one = u128::MAX;
    let mut many = u128::MAX;
    for _ in 0..ROUNDS {
        one = one.min(nanoseconds_of_seeds(rt, script, 1)?);
        many = many.min(nanoseconds_of_seeds(rt, script, SEEDS.saturating_add(1))?);
    }
    Ok(many.saturating_sub(one) / u128::from(SEEDS))
}

/// The least time of as many signatures, made and verified alone, in nanoseconds.
fn least_of_signatures(rt: &impl Measures) -> Result<u128> {
    let (_, mut signer) = nanoseconds_of_keys(rt, 1)?;
    let mut least = u128::MAX;
    for _ in 0..ROUNDS {
        let (signing, signed) = nanoseconds_of_signing(rt, &mut signer, SIGNED)?;
        let verifying = nanoseconds_of_verifying(rt, &signer.public_key(), &signed, OPENED)?;
        least = least.min(signing.saturating_add(verifying));
    }
    Ok(least)
}

/// Prints what a seed of eleven requests takes against its signatures; an error where that passes its limit.
pub(crate) fn print_seeds(rt: &impl Measures) -> Result<()> {
    let script = requests(rt.alloc(), CALLS)?;
    let comparison = Comparison {
        work: "a seed of 11 requests",
        taken: least_of_seed(rt, &script)?,
        other: "its signatures alone",
        floor: least_of_signatures(rt)?,
        limit: SEED,
    };
    require_within_limits(comparison.print_microseconds(rt)?)
}
