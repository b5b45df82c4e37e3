//! Messages as bytes, put together by hand.

use anyhow::{Result, anyhow};
use bench_common::case::Case;
use bench_common::members::{config, signers, signers_of_levels};
use bench_common::signing::{put_length_prefixed, put_message};
use host_types::Config;
use lms_tree::{Height, Signer};
use std::alloc::{AllocError, Global};
use std::sync::Arc;

/// A replica's role.
const REPLICA: u8 = 1;

/// The replicas where three may be faulty, and a certificate's count of them.
const QUORUM: u8 = 7;

/// The numbers above the low mark at the greatest interval between checkpoints.
const NUMBERS: u8 = 16;

/// The bytes of a signature at height 5.
const SIGNATURE: usize = 2348;

/// The bytes of a snapshot's state, with which the message comes close to its limit.
const STATE: usize = 8_380_000;

/// A message of replica 1 that opens, and what its signature is verified over.
#[derive(Drop)]
pub(crate) struct Sealed {
    pub(crate) config: Arc<Config>,
    pub(crate) case: Case,
    pub(crate) bytes: Vec<u8>,
}

/// What a replica signs of a message with this body.
fn text(alloc: Global, id: u8, body: &[u8]) -> Result<Vec<u8>, AllocError> {
    let mut text = [REPLICA, 0, 0, 0, id].to_vec(alloc)?;
    text.extend_from_slice(body)?;
    Ok(text)
}

/// That of a PrePrepare (2), a Prepare (3) or a Commit (4).
fn vote(alloc: Global, id: u8, kind: u8, number: u8) -> Result<Vec<u8>, AllocError> {
    let mut text = text(alloc, id, &[kind, 0, 0, 0, 0])?;
    text.extend_from_slice(&[0, 0, 0, 0, 0, 0, 0, number])?;
    text.extend_from_slice(&[7; 32])?;
    Ok(text)
}

fn checkpoint(alloc: Global, id: u8) -> Result<Vec<u8>, AllocError> {
    let mut text = text(alloc, id, &[6, 0, 0, 0, 0, 0, 0, 0, 8])?;
    text.extend_from_slice(&[7; 32])?;
    Ok(text)
}

fn put_certificate(alloc: Global, out: &mut Vec<u8>, number: u8, sig: &[u8]) -> Result<()> {
    put_message(out, &vote(alloc, 0, 2, number)?, sig)?;
    out.extend_from_slice(&[0, 0, 0, QUORUM - 1])?;
    for id in 1..QUORUM {
        put_message(out, &vote(alloc, id, 3, number)?, sig)?;
    }
    Ok(())
}

/// That of a ViewChange with as many Checkpoints and certificates as there may be.
fn view_change(alloc: Global, id: u8, sig: &[u8]) -> Result<Vec<u8>> {
    let mut text = text(alloc, id, &[7, 0, 0, 0, 1])?;
    text.extend_from_slice(&[0, 0, 0, 0, 0, 0, 0, 8])?;
    text.extend_from_slice(&[0, 0, 0, QUORUM])?;
    for id in 0..QUORUM {
        put_message(&mut text, &checkpoint(alloc, id)?, sig)?;
    }
    text.extend_from_slice(&[0, 0, 0, NUMBERS])?;
    for number in 0..NUMBERS {
        put_certificate(alloc, &mut text, number, sig)?;
    }
    Ok(text)
}

/// A NewView where three replicas may be faulty, with all that it may hold. Its signatures have the
/// right length and no other virtue.
pub(crate) fn new_view(alloc: Global) -> Result<Vec<u8>> {
    let sig = [0; SIGNATURE];
    let mut text = text(alloc, 1, &[8, 0, 0, 0, 1])?;
    text.extend_from_slice(&[0, 0, 0, QUORUM])?;
    for id in 0..QUORUM {
        put_message(&mut text, &view_change(alloc, id, &sig)?, &sig)?;
    }
    text.extend_from_slice(&[0, 0, 0, NUMBERS])?;
    for number in 0..NUMBERS {
        put_message(&mut text, &vote(alloc, 1, 2, number)?, &sig)?;
    }
    let mut bytes = Vec::new(alloc);
    put_message(&mut bytes, &text, &sig)?;
    Ok(bytes)
}

/// This text of replica 1 as a message, where one of the replicas with these signers may be faulty.
fn seal_text(alloc: Global, mut signers: Vec<Signer>, text: Vec<u8>) -> Result<Sealed> {
    let config = config(alloc, 1, 8, &signers, &[], 1)?;
    let Some(signer) = signers.get_mut(1) else {
        return Err(anyhow!("there is no such replica"));
    };
    let key = signer.public_key();
    let sig = signer.sign(&text)?;
    let mut bytes = Vec::new(alloc);
    put_message(&mut bytes, &text, &sig)?;
    let case = Case { key, text, sig };
    Ok(Sealed {
        config,
        case,
        bytes,
    })
}

/// A Commit.
pub(crate) fn commit(alloc: Global) -> Result<Sealed> {
    let signers = signers(alloc, Height::H5, 0, 4)?;
    seal_text(alloc, signers, vote(alloc, 1, 4, 1)?)
}

/// A Snapshot of some eight million bytes.
pub(crate) fn snapshot(alloc: Global) -> Result<Sealed> {
    let signers = signers(alloc, Height::H5, 0, 4)?;
    seal_text(alloc, signers, snapshot_text(alloc)?)
}

/// The same where the replicas have keys of two levels.
pub(crate) fn commit_of_levels(alloc: Global) -> Result<Sealed> {
    let signers = signers_of_levels(alloc, 4)?;
    seal_text(alloc, signers, vote(alloc, 1, 4, 1)?)
}

pub(crate) fn snapshot_of_levels(alloc: Global) -> Result<Sealed> {
    let signers = signers_of_levels(alloc, 4)?;
    seal_text(alloc, signers, snapshot_text(alloc)?)
}

fn snapshot_text(alloc: Global) -> Result<Vec<u8>> {
    let state = Vec::from_elem(alloc, 7u8, STATE)?;
    let mut text = text(alloc, 1, &[10, 0, 0, 0, 0, 0, 0, 0, 8])?;
    put_length_prefixed(&mut text, &state)?;
    Ok(text)
}
