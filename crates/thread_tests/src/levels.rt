//! A host whose replicas have keys of two levels.

use crate::calls::called;
use crate::gates::TURNS;
use crate::place::{Place, call_it, four_of_two_levels, install};
use host_script::Row;
use host_types::Bytes;
use std::alloc::Global;
use std::test::Fail;

/// The leaves of a bottom tree.
const LEAVES: u32 = 32;

/// The requests, each of which takes three leaves at a replica.
const REQUESTS: u8 = 12;

// How many leaves the rows of a journal used.
fn leaves_of(rows: &[Row]) -> u32 {
    let mut leaves: u32 = 0;
    for row in rows {
        leaves = leaves.saturating_add(row.leaves());
    }
    leaves
}

// An installation, and calls of what it installs.
fn operations(alloc: Global) -> Result<Vec<Bytes>, Fail> {
    let mut ops = Vec::new(alloc);
    ops.push(install(alloc)?)?;
    for _ in 1..REQUESTS {
        ops.push(call_it(alloc)?)?;
    }
    Ok(ops)
}

#[test]
fn replicas_with_two_levels_go_past_a_bottom_tree(rt: HostRuntime) -> Result<(), Fail> {
    let Place {
        config,
        signers,
        client,
    } = four_of_two_levels(rt.alloc())?;
    let ops = operations(rt.alloc())?;
    let (replies, journals) = called(&rt, rt.alloc(), signers, (config, client), ops, TURNS)?;
    let answered = replies.iter().filter(|reply| reply.is_ok()).count();
    let went_past = journals
        .iter()
        .any(|journal| leaves_of(&journal.1) > LEAVES);
    if answered == usize::from(REQUESTS) && went_past {
        Ok(())
    } else {
        Err(Fail::new("a call without a reply, or no bottom tree is used up"))
    }
}
