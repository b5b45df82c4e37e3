//! Times in one run: the least of a few rounds of each.

ghost use Rattle.std.specs.Prelude.{◌≡◌};

use crate::records::replicas::{INTERVAL, REPLICAS, config, signers};
use crate::records::{entries, largest_state, votes};
use anyhow::{Result, anyhow};
use bench_common::Measures;
use bench_common::case::Case;
use bench_common::ratio::{Comparison, Limit, require_within_limits};
use checkpoints::Checkpoints;
use host_types::Config;
use quorum_log::QuorumLog;
use replica_core::State;
use seal::{Checked, CheckedList, nested_checkpoints};
use sha2::{Digest, Sha256};
use std::sync::Arc;
use std::time::{Clock, Instant};

const ROUNDS: u32 = 20;

/// What recording may cost of the verification of a signature.
const RECORDING: Limit = Limit::Millionths(20_000);

/// What reading a state may cost of one hash of its bytes.
const READING: Limit = Limit::Millionths(3_000_000);

/// The time of verifying the signature of each message.
fn nanoseconds_of_verifying(
    rt: &impl Measures,
    config: &Config,
    messages: &CheckedList,
) -> Result<u128> {
    let cases = Case::all_of(rt.alloc(), config, messages.as_slice())?;
    let mut least = u128::MAX;
    for _ in 0..ROUNDS {
        let start = Instant::now(rt)?;
        for case in &cases {
            case.verify()?;
        }
        least = least.min(start.elapsed(rt)?.as_nanos());
    }
    Ok(least)
}

/// The time of recording each vote in a log of no votes and asking whether its number is prepared and
/// committed.
fn nanoseconds_of_votes(
    rt: &impl Measures,
    config: &Arc<Config>,
    votes: &CheckedList,
) -> Result<u128>
    requires { votes.now.config ≡ config.now.value }
{
    let mut least = u128::MAX;
    for _ in 0..ROUNDS {
        let mut log = QuorumLog::new(rt.alloc(), config)?;
        let start = Instant::now(rt)?;
        let committed = votes::record(&mut log, votes)?;
        least = least.min(start.elapsed(rt)?.as_nanos());
        if committed == 0 {
            return Err(anyhow!("no number is committed"));
        }
    }
    Ok(least)
}

/// Prints what recording votes takes against the verification of their signatures, and returns whether that is within
/// the limit.
fn print_recording(rt: &impl Measures, config: &Arc<Config>, votes: &CheckedList) -> Result<bool>
    requires { votes.now.config ≡ config.now.value }
{
    println!(rt; "{} votes of {REPLICAS} replicas", votes.len())?;
    Comparison {
        work: "recording a vote, prepared and committed",
        taken: nanoseconds_of_votes(rt, config, votes)?,
        other: "verification of its signature",
        floor: nanoseconds_of_verifying(rt, config, votes)?,
        limit: RECORDING,
    }
    .print_each(rt, votes.len())
}

/// The same of votes for all numbers between the marks.
fn print_votes(rt: &impl Measures) -> Result<bool> {
    let mut signers = signers(rt.alloc())?;
    let config = config(rt.alloc(), &signers)?;
    let votes = votes::votes(rt.alloc(), &config, &mut signers, 2 * INTERVAL)?;
    print_recording(rt, &config, &votes)
}

/// The time of recording the Checkpoints in a message where there are none.
fn nanoseconds_of_checkpoints(
    rt: &impl Measures,
    config: &Arc<Config>,
    message: &Checked,
) -> Result<u128>
    requires { message.now.config ≡ config.now.value }
{
    let mut least = u128::MAX;
    for _ in 0..ROUNDS {
        let mut table = Checkpoints::new(rt.alloc(), config)?;
        let start = Instant::now(rt)?;
        entries::record(rt.alloc(), &mut table, message)?;
        least = least.min(start.elapsed(rt)?.as_nanos());
        if entries::stable_numbers(&table) == 0 {
            return Err(anyhow!("no number is stable"));
        }
    }
    Ok(least)
}

/// Prints what recording the Checkpoints in a NewView takes against the verification of their signatures, and returns
/// whether that is within the limit.
fn print_entering(rt: &impl Measures, config: &Arc<Config>, entry: &Checked) -> Result<bool>
    requires { entry.now.config ≡ config.now.value }
{
    let inside = nested_checkpoints(rt.alloc(), entry)?;
    println!(rt; "{} Checkpoints in a NewView", inside.len())?;
    Comparison {
        work: "recording a Checkpoint in it",
        taken: nanoseconds_of_checkpoints(rt, config, entry)?,
        other: "verification of its signature",
        floor: nanoseconds_of_verifying(rt, config, &inside)?,
        limit: RECORDING,
    }
    .print_each(rt, inside.len())
}

/// The same of a NewView with as many as there may be.
fn print_checkpoints(rt: &impl Measures) -> Result<bool> {
    let mut signers = signers(rt.alloc())?;
    let config = config(rt.alloc(), &signers)?;
    let entry = entries::new_view(rt.alloc(), &config, &mut signers)?;
    print_entering(rt, &config, &entry)
}

/// One hash of a state's bytes, and its time.
fn timed_hash(rt: &impl Clock, bytes: &[u8]) -> Result<([u8; 32], u128)> {
    let start = Instant::now(rt)?;
    let hash = <Sha256 as Digest>::digest(bytes);
    Ok((hash, start.elapsed(rt)?.as_nanos()))
}

/// The time of reading a state whose bytes have this hash.
fn nanoseconds_of_reading(
    rt: &impl Measures,
    config: &Arc<Config>,
    bytes: &[u8],
    hash: &[u8; 32],
) -> Result<u128> {
    let config = config.clone()?;
    let start = Instant::now(rt)?;
    let read = State::from_bytes(rt.alloc(), config, bytes);
    let taken = start.elapsed(rt);
    if read.is_ok_and(|state| state.digest().0 == *hash) {
        Ok(taken?.as_nanos())
    } else {
        Err(anyhow!("the state is not read, or it is another"))
    }
}

/// The least time of reading a state, and that of one hash of its bytes, in turn.
fn least_of_reading(
    rt: &impl Measures,
    config: &Arc<Config>,
    bytes: &[u8],
) -> Result<(u128, u128)> {
    let mut least = u128::MAX;
    let mut least_hash = u128::MAX;
    for _ in 0..ROUNDS {
        let (hash, hashed) = timed_hash(rt, bytes)?;
        least_hash = least_hash.min(hashed);
        least = least.min(nanoseconds_of_reading(rt, config, bytes, &hash)?);
    }
    Ok((least, least_hash))
}

/// Reading a largest state, against one hash of its bytes.
fn print_reading(rt: &impl Measures) -> Result<bool> {
    let (config, bytes) = largest_state::made(rt.alloc())?;
    let (least, least_hash) = least_of_reading(rt, &config, &bytes)?;
    println!(rt; "a largest state has {} bytes", bytes.len())?;
    Comparison {
        work: "reading it",
        taken: least,
        other: "one hash of its bytes",
        floor: least_hash,
        limit: READING,
    }
    .print(rt)
}

/// Prints all ratios; an error where one passes its limit.
pub(crate) fn print_times(rt: &impl Measures) -> Result<()> {
    let votes = print_votes(rt)?;
    let checkpoints = print_checkpoints(rt)?;
    let reading = print_reading(rt)?;
    require_within_limits(votes && checkpoints && reading)
}
