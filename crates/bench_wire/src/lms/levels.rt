//! Keys of two levels of height 10, against as many one-block hashes, and how evenly they sign.

use crate::lms::counts::{leaf_blocks, sign_blocks, verify_blocks};
use crate::lms::times::{
    Build, Floors, ID, MESSAGE, SECRET, print_ratio, print_verifying, timed_signature,
};
use anyhow::{Result, anyhow};
use bench_common::ratio::{Comparison, Limit};
use bench_common::{Measures, ProcessorTime};
use lms_tree::{Height, Signer};
use std::alloc::{AllocError, Global};
use std::time::CpuClock;

/// Where the top tree's signature begins.
const TOP: usize = 4;

/// Where the bottom tree's key begins, behind the 2,508 bytes of the top tree's signature.
const KEY: usize = 2512;

/// Where the bottom tree's signature begins, behind the 56 bytes of its key.
const BOTTOM: usize = 2568;

/// The signatures that are compared: more than one bottom tree gives.
const SIGNATURES: usize = 1100;

/// The runs of which the least time of each signature counts.
const RUNS: u32 = 3;

/// What the slowest signature may take of the mean.
const SLOWEST: Limit = Limit::Thousandths(10_000);

fn signer(alloc: Global) -> Result<Signer, AllocError> {
    Signer::from_seed2(alloc, Height::H10, Height::H10, ID, SECRET)
}

/// A signature's parts: the top tree's signature, the bottom tree's key and identifier, and its signature.
#[derive(Clone, Copy)]
struct Parts<'a> {
    top: &'a [u8],
    key: &'a [u8],
    id: [u8; 16],
    bottom: &'a [u8],
}

fn parts_of(sig: &[u8]) -> Option<Parts<'_>> {
    let mut id = [0; 16];
    id.copy_from_slice(sig.get(KEY + 8..KEY + 24)?);
    Some(Parts {
        top: sig.get(TOP..KEY)?,
        key: sig.get(KEY..BOTTOM)?,
        id,
        bottom: sig.get(BOTTOM..)?,
    })
}

/// The blocks of a signature that changes no tree: the bottom tree's, and a leaf's node of the next one.
fn blocks_of_signing(sig: &[u8]) -> Option<u64> {
    let parts = parts_of(sig)?;
    Some(sign_blocks(&parts.id, &MESSAGE, parts.bottom).saturating_add(leaf_blocks()))
}

/// The blocks of a verification: those of both trees' signatures.
fn blocks_of_verifying(sig: &[u8]) -> Option<u64> {
    let parts = parts_of(sig)?;
    let top = verify_blocks(&ID, parts.key, parts.top, 10);
    Some(top.saturating_add(verify_blocks(&parts.id, &MESSAGE, parts.bottom, 10)))
}

/// The least time of a block's share of a signature, and of a bare hash, over rounds of 100 signatures.
fn print_signatures(rt: &impl Measures, build: Build, signer: &mut Signer) -> Result<bool> {
    let mut all = 0u64;
    let mut signed = u128::MAX;
    let mut floors = Floors::MOST;
    for _ in 0..10 {
        let mut blocks = 0u64;
        let mut taken = 0u128;
        for _ in 0..100 {
            let (sig, own) = timed_signature(rt, signer)?;
            taken = taken.saturating_add(own);
            let Some(own) = blocks_of_signing(&sig) else {
                return Err(anyhow!("the signature is short"));
            };
            blocks = blocks.saturating_add(own);
        }
        let share = u128::from(blocks.max(1));
        signed = signed.min(taken.saturating_mul(1000) / share);
        floors = floors.least(Floors::measure(rt, blocks)?.shared(share));
        all = all.saturating_add(blocks);
    }
    let work = "1,000 signatures of two levels, by 1,000 blocks";
    print_ratio(rt, build, work, all, signed, floors)
}

fn print_verification(rt: &impl Measures, build: Build, signer: &mut Signer) -> Result<bool> {
    let key = signer.public_key();
    let sig = signer.sign(&MESSAGE)?;
    let Some(blocks) = blocks_of_verifying(&sig) else {
        return Err(anyhow!("the signature is short"));
    };
    print_verifying(
        rt,
        build,
        "verification of two levels, 1,000 times",
        &key,
        &sig,
        blocks,
    )
}

/// Signs as often as there are times, and lessens each to the processor's time of its signature.
fn sign_all(rt: &impl CpuClock, signer: &mut Signer, times: &mut [u128]) -> Result<()> {
    for least in times.iter_mut() {
        let start = ProcessorTime::now(rt)?;
        let _sig = signer.sign(&MESSAGE)?;
        *least = start.nanoseconds(rt)?.min(*least);
    }
    Ok(())
}

/// The processor's time of each of the first signatures, the least of the runs.
fn times_of_signing(rt: &impl Measures) -> Result<Vec<u128>> {
    let mut times = Vec::from_elem(rt.alloc(), u128::MAX, SIGNATURES)?;
    for _ in 0..RUNS {
        sign_all(rt, &mut signer(rt.alloc())?, &mut times)?;
    }
    Ok(times)
}

/// The slowest signature against the mean one, a change of the bottom tree among them.
fn print_slowest(rt: &impl Measures) -> Result<bool> {
    let times = times_of_signing(rt)?;
    let mut slowest = 0u128;
    let mut all = 0u128;
    for time in &times {
        slowest = slowest.max(*time);
        all = all.saturating_add(*time);
    }
    Comparison {
        work: "the slowest of 1,100 signatures",
        taken: slowest,
        other: "the mean one",
        floor: all / SIGNATURES as u128,
        limit: SLOWEST,
    }
    .print(rt)
}

/// Prints what a verification and signatures of a key take, and returns whether both are within the limit.
fn print_of_key(rt: &impl Measures, build: Build, signer: &mut Signer) -> Result<bool> {
    let verified = print_verification(rt, build, signer)?;
    let signed = print_signatures(rt, build, signer)?;
    Ok(verified && signed)
}

/// Prints all ratios, and returns whether they are within their limits.
pub(crate) fn print_times(rt: &impl Measures, build: Build) -> Result<bool> {
    let of_key = print_of_key(rt, build, &mut signer(rt.alloc())?)?;
    let even = print_slowest(rt)?;
    Ok(of_key && even)
}
