//! Times in one run: the least of a few rounds of each.

use crate::world::floor::{
    Vote, commit, nanoseconds_of_keys, nanoseconds_of_opening, nanoseconds_of_signing,
    nanoseconds_of_verifying,
};
use crate::world::replies::nanoseconds_of_offers;
use crate::world::scripts::{
    CALLS, DELIVERY, OPENED, SIGNED, VAIN_DELIVERY, followed, nanoseconds_of, output_of, queued,
    requests, steps,
};
use anyhow::{Result, anyhow};
use bench_common::Measures;
use bench_common::ratio::{Comparison, Limit, require_within_limits};
use std::alloc::Global;

const ROUNDS: u32 = 9;

/// A script's keys: of four replicas and a client.
const KEYS: u8 = 5;

/// What the requests' script may cost of its keys and signatures.
const WHOLE: Limit = Limit::Thousandths(1250);

/// The deliveries of a vote.
const DELIVERIES: u32 = 1000;

/// What a delivery to who opens it may cost of an opening.
const OPENING: Limit = Limit::Thousandths(1500);

/// The same of bytes that are refused: they are opened once more to report why.
const REFUSING: Limit = Limit::Thousandths(2500);

/// The same of deliveries to a faulty replica.
const PASSING: Limit = Limit::Thousandths(50);

/// The faulty replica.
const FAULTY: u8 = 3;

/// What twice as much may cost of half of it. Scripts make their keys both times.
const TWICE: Limit = Limit::Thousandths(2500);

/// The least time of a script in a few rounds, in nanoseconds.
fn least(rt: &impl Measures, script: &str, lines: usize) -> Result<u128> {
    let mut least = u128::MAX;
    for _ in 0..ROUNDS {
        least = least.min(nanoseconds_of(rt, script, lines)?);
    }
    Ok(least)
}

/// The least times of a script without its last steps and with them, which print so many lines: what these
/// steps take, in nanoseconds.
fn least_of_steps(rt: &impl Measures, script: &str, steps: &str, lines: usize) -> Result<u128> {
    let whole = followed(rt.alloc(), script, steps)?;
    let mut least = u128::MAX;
    let mut least_whole = u128::MAX;
    for _ in 0..ROUNDS {
        least = least.min(nanoseconds_of(rt, script, 0)?);
        least_whole = least_whole.min(nanoseconds_of(rt, &whole, lines)?);
    }
    Ok(least_whole.saturating_sub(least))
}

/// The time of the keys of a script of requests, and of as many signatures, made and verified, in
/// nanoseconds.
fn nanoseconds_of_floor(rt: &impl Measures) -> Result<u128> {
    let (made, mut signer) = nanoseconds_of_keys(rt, KEYS)?;
    let (signing, signed) = nanoseconds_of_signing(rt, &mut signer, SIGNED)?;
    let verifying = nanoseconds_of_verifying(rt, &signer.public_key(), &signed, OPENED)?;
    Ok(made.saturating_add(signing).saturating_add(verifying))
}

/// Eleven requests that are executed.
fn print_requests(rt: &impl Measures) -> Result<bool> {
    let script = requests(rt.alloc(), CALLS)?;
    let mut taken = u128::MAX;
    let mut floor = u128::MAX;
    for _ in 0..ROUNDS {
        taken = taken.min(nanoseconds_of(rt, &script, CALLS.saturating_add(1))?);
        floor = floor.min(nanoseconds_of_floor(rt)?);
    }
    Comparison {
        work: "a script of 11 requests",
        taken,
        other: "its keys and signatures alone",
        floor,
        limit: WHOLE,
    }
    .print_microseconds(rt)
}

/// Deliveries of bytes, as hex, to who opens them: how many lines they print, and what they may cost.
#[derive(Clone, Copy)]
struct Delivery<'a> {
    work: &'a str,
    to: u8,
    bytes: &'a str,
    lines: usize,
    limit: Limit,
}

impl<'a> Delivery<'a> {
    /// Prints what a thousand of them take against as many openings of a vote alone.
    fn print(&self, rt: &impl Measures, opening: u128) -> Result<bool> {
        let script = queued(rt.alloc(), self.to, self.bytes, DELIVERIES as usize, 0)?;
        let taken = least_of_steps(rt, &script, DELIVERY, self.lines)?;
        Comparison {
            work: self.work,
            taken,
            other: "as many openings alone",
            floor: opening,
            limit: self.limit,
        }
        .print_microseconds(rt)
    }
}

/// The least time of as many openings of a vote alone, in nanoseconds.
fn least_of_openings(rt: &impl Measures, vote: &Vote) -> Result<u128> {
    let mut least = u128::MAX;
    for _ in 0..ROUNDS {
        least = least.min(nanoseconds_of_opening(rt, vote, DELIVERIES)?);
    }
    Ok(least)
}

/// The bytes of a vote as hex, and those with a wrong signature.
fn hex_of(alloc: Global, mut vote: Vote) -> Result<(String, String)> {
    let good = hex::encode(alloc, vote.bytes.as_slice())?;
    let Some(last) = vote.bytes.last_mut() else {
        return Err(anyhow!("a vote of no bytes"));
    };
    *last ^= 1;
    let bad = hex::encode(alloc, vote.bytes.as_slice())?;
    Ok((good, bad))
}

/// A thousand deliveries to those who open them, of a vote and of one with a wrong signature.
fn print_opened(rt: &impl Measures, opening: u128, good: &str, bad: &str) -> Result<bool> {
    let cases = [
        Delivery {
            work: "1,000 deliveries to a replica",
            to: 1,
            bytes: good,
            lines: 0,
            limit: OPENING,
        },
        Delivery {
            work: "1,000 deliveries to a client",
            to: 100,
            bytes: good,
            lines: 0,
            limit: OPENING,
        },
        Delivery {
            work: "1,000 deliveries of a wrong signature",
            to: 1,
            bytes: bad,
            lines: DELIVERIES as usize,
            limit: REFUSING,
        },
    ];
    let mut are_within = true;
    for case in &cases {
        are_within = case.print(rt, opening)? && are_within;
    }
    Ok(are_within)
}

/// 800,000 deliveries to a faulty replica, and those to who opens them.
fn print_deliveries(rt: &impl Measures) -> Result<bool> {
    let vote = commit(rt.alloc())?;
    let opening = least_of_openings(rt, &vote)?;
    let (good, bad) = hex_of(rt.alloc(), vote)?;
    let faulty = print_faulty(rt, opening)?;
    let opened = print_opened(rt, opening, &good, &bad)?;
    Ok(faulty && opened)
}

/// Deliveries to a faulty replica, which opens nothing.
fn print_faulty(rt: &impl Measures, opening: u128) -> Result<bool> {
    let script = queued(rt.alloc(), FAULTY, "01", 3125, 8)?;
    Comparison {
        work: "800,000 deliveries to a faulty replica",
        taken: least_of_steps(rt, &script, DELIVERY, 0)?,
        other: "as many openings alone",
        floor: opening.saturating_mul(800),
        limit: PASSING,
    }
    .print_microseconds(rt)
}

/// Prints what twice as much takes against what this takes.
fn print_twice(rt: &impl Print, work: &str, twice: u128, once: u128) -> Result<bool> {
    Comparison {
        work,
        taken: twice,
        other: "half as many",
        floor: once,
        limit: TWICE,
    }
    .print_microseconds(rt)
}

/// The least time of messages on their way, 400,000 doubled so many times: they are queued, passed over and
/// delivered to a faulty replica.
fn least_of_queue(rt: &impl Measures, doublings: usize) -> Result<u128> {
    let alloc = rt.alloc();
    let queued = queued(alloc, FAULTY, "01", 3125, doublings.saturating_add(7))?;
    let whole = followed(alloc, &followed(alloc, &queued, VAIN_DELIVERY)?, DELIVERY)?;
    least(rt, &whole, 0)
}

/// The least time of so many steps that do nothing.
fn least_of_vain_steps(rt: &impl Measures, count: usize) -> Result<u128> {
    least(rt, &steps(rt.alloc(), count)?, 0)
}

/// The least time of so many offers of one reply.
fn least_of_offers(rt: &impl Measures, count: u32) -> Result<u128> {
    let mut least = u128::MAX;
    for _ in 0..ROUNDS {
        least = least.min(nanoseconds_of_offers(rt, count)?);
    }
    Ok(least)
}

/// Prints what grows: messages on their way, steps, and replies that a replica repeats.
fn print_growth(rt: &impl Measures) -> Result<bool> {
    let queue = print_twice(
        rt,
        "800,000 messages queued, passed over and delivered",
        least_of_queue(rt, 1)?,
        least_of_queue(rt, 0)?,
    )?;
    let steps = print_twice(
        rt,
        "32,000 steps that do nothing",
        least_of_vain_steps(rt, 32_000)?,
        least_of_vain_steps(rt, 16_000)?,
    )?;
    let offers = print_twice(
        rt,
        "a reply that comes 2,000,000 times",
        least_of_offers(rt, 2_000_000)?,
        least_of_offers(rt, 1_000_000)?,
    )?;
    Ok(queue && steps && offers)
}

/// Prints all ratios; an error where one passes its limit.
pub(crate) fn print_times(rt: &impl Measures) -> Result<()> {
    let requests = print_requests(rt)?;
    let deliveries = print_deliveries(rt)?;
    let growth = print_growth(rt)?;
    require_within_limits(requests && deliveries && growth)
}

/// Prints how many requests of a script were accepted.
pub(crate) fn print_small(rt: &impl Measures) -> Result<()> {
    let output = output_of(rt.alloc(), &requests(rt.alloc(), CALLS)?)?;
    let accepted = str::from_utf8(&output)?
        .lines()
        .filter(|line| line.starts_with("client 100 time "))
        .count();
    println!(rt; "{accepted} requests are accepted")?;
    Ok(())
}
