//! What calls take against their signatures alone, and steps at a station against steps alone.

use crate::calls::{REPLICAS, Setup, Work, measure};
use crate::load;
use crate::steps::{self, messages_of};
use anyhow::Result;
use bench_common::Measures;
use bench_common::ratio::{Comparison, Limit, require_within_limits};
use host_types::Config;
use lms_tree::Height;
use seal::Checked;
use std::sync::{Arc, Wait};
use std::thread;
use std::thread::Threads;

/// What calls may take of their signatures alone on as many threads.
const CALLS: Limit = Limit::Thousandths(1500);

/// What calls by clients of eight tenants may take of those by as many clients of one.
const TENANTS: Limit = Limit::Thousandths(1250);

/// What a step at a station may take of the replica's alone.
const STEP: Limit = Limit::Thousandths(1050);

/// The calls of a row, of all clients together.
const REQUESTS: u32 = 160;

/// How often a step is measured; the least time counts.
const ROUNDS: u32 = 5;

/// A host whose replicas have so many openers each, and so many clients that call at the same time.
fn host_of(clients: u8, openers: u8) -> Setup {
    Setup {
        height: Height::H10,
        interval: 8,
        clients,
        tenants: 1,
        calls: REQUESTS / u32::from(clients).max(1),
        work: Work::Put,
        openers,
    }
}

/// A host whose eight clients are of so many tenants, and call procedures of many steps.
fn host_of_tenants(tenants: u8) -> Setup {
    Setup {
        tenants,
        work: Work::Steps,
        ..host_of(8, 1)
    }
}

/// The time of the calls of a host, and that of their signatures alone, in nanoseconds.
fn measured_calls<R: Measures + Threads + Wait + Copy + Send + Sync + Drop + 'static>(
    rt: &R,
    setup: Setup,
) -> Result<(u128, u128)> {
    let run = measure(rt, setup)?;
    let alone = load::nanoseconds_alone(rt, setup, &run)?;
    Ok((run.nanoseconds, alone))
}

/// Prints what the calls of a host take, and returns whether that is within the limit.
fn print_calls<R: Measures + Threads + Wait + Copy + Send + Sync + Drop + 'static>(
    rt: &R,
    setup: Setup,
) -> Result<bool> {
    let (taken, floor) = measured_calls(rt, setup)?;
    let Setup {
        clients,
        openers,
        ..
    } = setup;
    let work = format!(in rt.alloc(); "{REQUESTS} calls, clients: {clients}, openers: {openers}")?;
    let is_within = Comparison {
        work: work.as_str(),
        taken,
        other: "signatures alone in four threads",
        floor,
        limit: CALLS,
    }
    .print_microseconds(rt)?;
    let each_second = u128::from(REQUESTS).saturating_mul(1_000_000_000) / taken.max(1);
    let processors = thread::available_parallelism(rt)?;
    println!(rt; "  {each_second} calls a second, on {processors} processors")?;
    Ok(is_within)
}

/// Prints what calls of long procedures take where each client is of a tenant of its own, against those of
/// clients of one tenant, and returns whether that is within the limit.
fn print_tenants<R: Measures + Threads + Wait + Copy + Send + Sync + Drop + 'static>(
    rt: &R,
) -> Result<bool> {
    let one = measure(rt, host_of_tenants(1))?.nanoseconds;
    let eight = measure(rt, host_of_tenants(8))?.nanoseconds;
    let work = format!(in rt.alloc(); "{REQUESTS} calls of 60,121 steps, clients: 8, tenants: 8")?;
    Comparison {
        work: work.as_str(),
        taken: eight,
        other: "tenants: 1",
        floor: one,
        limit: TENANTS,
    }
    .print_microseconds(rt)
}

/// The least time in which a replica takes messages at a station, and that in which it takes them alone.
fn least_of_steps<R: Measures + Threads + Wait + Sync>(
    rt: &R,
    setup: Setup,
    config: &Arc<Config>,
    messages: &[Checked],
) -> Result<(u128, u128)> {
    let (mut taken, mut alone) = (u128::MAX, u128::MAX);
    for _ in 0..ROUNDS {
        alone = alone.min(steps::nanoseconds_alone(rt, setup, config, messages)?);
        taken = taken.min(steps::nanoseconds_at_station(rt, setup, config, messages)?);
    }
    Ok((taken, alone))
}

/// How many messages the backup took in a run, and both least times of them.
fn measured_steps<R: Measures + Threads + Wait + Copy + Send + Sync + Drop + 'static>(
    rt: &R,
    setup: Setup,
) -> Result<(usize, u128, u128)> {
    let run = measure(rt, setup)?;
    let messages = messages_of(rt.alloc(), &run)?;
    let (taken, alone) = least_of_steps(rt, setup, &run.config, &messages)?;
    Ok((messages.len(), taken, alone))
}

/// Prints what the steps of a replica take at a station, and returns whether that is within the limit.
fn print_steps<R: Measures + Threads + Wait + Copy + Send + Sync + Drop + 'static>(
    rt: &R,
) -> Result<bool> {
    let (count, taken, floor) = measured_steps(rt, host_of(1, 1))?;
    let work = format!(in rt.alloc(); "{count} steps at a station")?;
    Comparison {
        work: work.as_str(),
        taken,
        other: "the replica's alone",
        floor,
        limit: STEP,
    }
    .print_microseconds(rt)
}

/// Prints all ratios; an error where one passes its limit.
pub(crate) fn print_times<R: Measures + Threads + Wait + Copy + Send + Sync + Drop + 'static>(
    rt: &R,
) -> Result<()> {
    let mut are_within = print_steps(rt)?;
    for (clients, openers) in [(1, 1), (1, 2), (8, 1), (8, 2)] {
        are_within = print_calls(rt, host_of(clients, openers))? && are_within;
    }
    are_within = print_tenants(rt)? && are_within;
    require_within_limits(are_within)
}

/// Prints how many calls a second hosts answer of 1, 4 and 16 clients that call at the same time.
pub(crate) fn print_rates<R: Measures + Threads + Wait + Copy + Send + Sync + Drop + 'static>(
    rt: &R,
) -> Result<()> {
    for clients in [1, 4, 16] {
        let taken = measure(rt, host_of(clients, 1))?.nanoseconds;
        let each_second = u128::from(REQUESTS).saturating_mul(1_000_000_000) / taken.max(1);
        println!(rt; "clients: {clients}, {each_second} calls a second")?;
    }
    Ok(())
}

/// Prints how many replicas gave a journal after two calls.
pub(crate) fn print_small<R: Measures + Threads + Wait + Copy + Send + Sync + Drop + 'static>(
    rt: &R,
) -> Result<()> {
    let setup = Setup {
        height: Height::H5,
        interval: 8,
        clients: 1,
        tenants: 1,
        calls: 2,
        work: Work::Put,
        openers: 1,
    };
    let journals = measure(rt, setup)?.journals.len();
    println!(rt;
        "2 calls are answered, and {journals} replicas of {REPLICAS} give their journals"
    )?;
    require_within_limits(journals == usize::from(REPLICAS))
}
