//! What a replica records, and states. The part records the votes of ten replicas for one number, and the
//! Checkpoints in a NewView. For `time` it prints what recording costs against the verification of
//! signatures, and what reading a largest state costs against one hash of its bytes.

use anyhow::{Result, anyhow};
use bench_common::Measures;
use checkpoints::Checkpoints;
use quorum_log::QuorumLog;
use std::alloc::Global;

mod entries;
mod largest_state;
mod replicas;
mod times;
mod votes;

/// Records a number's votes and a NewView's Checkpoints, or does what a word names.
pub fn run(rt: &impl Measures, work: Option<&str>) -> Result<()> {
    match work {
        None => {
            print_votes(rt)?;
            print_checkpoints(rt)
        }
        Some("time") => times::print_times(rt),
        Some(_) => Err(anyhow!("the word behind records is not time")),
    }
}

fn print_votes(rt: &impl Measures) -> Result<()> {
    let (votes, committed) = recorded_votes(rt.alloc())?;
    println!(rt;
        "{votes} votes are recorded, and after {committed} of them the number is committed"
    )?;
    Ok(())
}

/// Records a number's votes: how many they are, and after how many of them it is committed.
fn recorded_votes(alloc: Global) -> Result<(usize, u32)> {
    let mut signers = replicas::signers(alloc)?;
    let config = replicas::config(alloc, &signers)?;
    let votes = votes::votes(alloc, &config, &mut signers, 1)?;
    let mut log = QuorumLog::new(alloc, &config)?;
    let committed = votes::record(&mut log, &votes)?;
    Ok((votes.len(), committed))
}

fn print_checkpoints(rt: &impl Measures) -> Result<()> {
    let (recorded, stable) = recorded_checkpoints(rt.alloc())?;
    println!(rt;
        "{recorded} Checkpoints of a NewView are recorded, and {stable} numbers are stable"
    )?;
    Ok(())
}

/// Records the Checkpoints in a NewView: how many they are, and how many numbers are stable.
fn recorded_checkpoints(alloc: Global) -> Result<(usize, usize)> {
    let mut signers = replicas::signers(alloc)?;
    let config = replicas::config(alloc, &signers)?;
    let entry = entries::new_view(alloc, &config, &mut signers)?;
    let mut table = Checkpoints::new(alloc, &config)?;
    let recorded = entries::record(alloc, &mut table, &entry)?;
    Ok((recorded, entries::stable_numbers(&table)))
}
