//! What scripts can't do without: keys, signatures and openings alone.

use anyhow::{Result, anyhow};
use bench_common::members::config;
use bench_common::signing::message_bytes;
use bench_common::{Measures, ProcessorTime};
use host_types::{Config, Digest, PublicKey, SeqNo, View};
use lms_tree::{Height, Signer, verify};
use pbft_codec::{Body, Commit, Role};
use seal::open;
use sha2::{Digest as _, Sha256};
use std::alloc::{AllocError, Global};
use std::sync::Arc;
use std::time::CpuClock;

/// Whose vote is delivered.
const VOTER: u8 = 2;

/// The bytes of a vote, and who takes part.
#[derive(Drop)]
pub(crate) struct Vote {
    pub(crate) config: Arc<Config>,
    pub(crate) bytes: Vec<u8>,
}

/// The signer that a script makes of its secret, here zeros, for a replica. Its key has 32 leaves.
pub(crate) fn replica_signer(alloc: Global, id: u8) -> Result<Signer, AllocError> {
    let hash = |part: u8| -> [u8; 32] {
        let mut hasher = Sha256::new();
        hasher.update([0x52, 0, 0, 0, id, part]);
        hasher.update([0; 32]);
        hasher.finalize()
    };
    let mut identity = [0; 16];
    identity.copy_from_slice(&hash(0)[..16]);
    Signer::from_seed(alloc, Height::H5, identity, hash(1))
}

/// A Commit of replica 2, as the replicas of a script open it.
pub(crate) fn commit(alloc: Global) -> Result<Vote> {
    let mut replicas = Vec::new(alloc);
    for id in 0..4 {
        replicas.push(replica_signer(alloc, id)?)?;
    }
    let config = config(alloc, 1, 8, &replicas, &[], 1)?;
    let Some(voter) = replicas.get_mut(usize::from(VOTER)) else {
        return Err(anyhow!("there is no such replica"));
    };
    let body = Body::Commit(Commit {
        view: View(0),
        number: SeqNo(1),
        digest: Digest([7; 32]),
    });
    let bytes = message_bytes(alloc, voter, Role::Replica, u32::from(VOTER), body)?;
    Ok(Vote { config, bytes })
}

/// The processor's time of opening a vote so many times, in nanoseconds.
pub(crate) fn nanoseconds_of_opening(rt: &impl Measures, vote: &Vote, count: u32) -> Result<u128> {
    let start = ProcessorTime::now(rt)?;
    for _ in 0..count {
        if open(rt.alloc(), &vote.config, &vote.bytes).is_err() {
            return Err(anyhow!("the vote does not open"));
        }
    }
    Ok(start.nanoseconds(rt)?)
}

/// The processor's time of so many keys of height 10, in nanoseconds, and one of their signers.
pub(crate) fn nanoseconds_of_keys(rt: &impl Measures, count: u8) -> Result<(u128, Signer)> {
    let start = ProcessorTime::now(rt)?;
    let mut signer = Signer::from_seed(rt.alloc(), Height::H10, [0; 16], [1; 32])?;
    for number in 1..count {
        signer = Signer::from_seed(rt.alloc(), Height::H10, [number; 16], [1; 32])?;
    }
    let taken = start.nanoseconds(rt)?;
    Ok((taken, signer))
}

/// A text as long as a vote's, another for each number.
fn text_of(number: u32) -> [u8; 50] {
    let number = number.to_be_bytes();
    let mut text = [7; 50];
    for index in 0..4 {
        text[index] = number[index];
    }
    text
}

/// The processor's time of so many signatures, of texts as long as a vote's, in nanoseconds, and the texts
/// with their signatures.
pub(crate) fn nanoseconds_of_signing(
    rt: &impl Measures,
    signer: &mut Signer,
    count: u32,
) -> Result<(u128, Vec<([u8; 50], Vec<u8>)>)> {
    let mut signed = Vec::with_capacity(rt.alloc(), count as usize)?;
    let start = ProcessorTime::now(rt)?;
    for number in 0..count {
        let text = text_of(number);
        let signature = signer.sign(&text)?;
        signed.push((text, signature))?;
    }
    Ok((start.nanoseconds(rt)?, signed))
}

/// The processor's time of so many verifications, of these signatures in turn, in nanoseconds.
pub(crate) fn nanoseconds_of_verifying(
    rt: &impl CpuClock,
    key: &PublicKey,
    signed: &[([u8; 50], Vec<u8>)],
    count: usize,
) -> Result<u128> {
    let start = ProcessorTime::now(rt)?;
    for (text, signature) in signed.iter().cycle().take(count) {
        if verify(key, text, signature).is_err() {
            return Err(anyhow!("the signature is not valid"));
        }
    }
    Ok(start.nanoseconds(rt)?)
}
