//! Signed messages of four replicas, of which one may be faulty.

ghost use Rattle.std.specs.Prelude.{◌≡◌, IfOk};

use crate::signing::checked;
use host_types::{Config, Digest, SeqNo, View};
use lms_tree::{Height, Signer};
use pbft_codec::{Body, Checkpoint, Commit, PrePrepare, Prepare};
use seal::Checked;
use std::alloc::{AllocError, Global};
use std::sync::Arc;
use std::test::Fail;

/// The signers of replicas 0 to 3.
pub fn signers(alloc: Global, secret: u8) -> Result<Vec<Signer>, AllocError> {
    let mut signers = Vec::new(alloc);
    for index in 0..4 {
        signers.push(Signer::from_seed(alloc, Height::H5, [index; 16], [secret; 32])?)?;
    }
    Ok(signers)
}

/// The configuration of these replicas, with no clients and a checkpoint at each multiple of the interval.
fn config_at(alloc: Global, signers: &[Signer], interval: u8) -> Result<Arc<Config>, Fail> {
    let mut keys = Vec::new(alloc);
    for signer in signers {
        keys.push(signer.public_key())?;
    }
    let config = Config::new(1, interval, keys, Vec::new(alloc))?;
    Ok(Arc::new(alloc, config)?)
}

/// The configuration of these replicas, with no clients and a checkpoint at each eighth number.
pub fn config(alloc: Global, signers: &[Signer]) -> Result<Arc<Config>, Fail> {
    config_at(alloc, signers, 8)
}

/// The same with a checkpoint after each number: two numbers lie between the marks.
pub fn narrow_config(alloc: Global, signers: &[Signer]) -> Result<Arc<Config>, Fail> {
    config_at(alloc, signers, 1)
}

/// The body of a vote in view 0 for number 1: kinds 0 to 2 are a `PrePrepare`, a `Prepare` and a `Commit`,
/// any other is a `Checkpoint`. All bytes of the digest are this one.
pub fn body(kind: u8, digest: u8) -> Body {
    body_at(kind, View(0), SeqNo(1), digest)
}

/// The same in this view for this number.
fn body_at(kind: u8, view: View, number: SeqNo, digest: u8) -> Body {
    let digest = Digest([digest; 32]);
    match kind {
        0 => Body::PrePrepare(PrePrepare {
            view,
            number,
            digest,
        }),
        1 => Body::Prepare(Prepare {
            view,
            number,
            digest,
        }),
        2 => Body::Commit(Commit {
            view,
            number,
            digest,
        }),
        _ => Body::Checkpoint(Checkpoint { number, digest }),
    }
}

/// The checked message of a replica with this vote, in view 0 for number 1.
pub fn vote(
    alloc: Global,
    config: &Arc<Config>,
    signers: &mut [Signer],
    id: u8,
    kind: u8,
    digest: u8,
) -> Result<Checked, Fail>
    ensures { IfOk result (λ c. c.config ≡ config.now.value) }
{
    checked(alloc, config, signers, id, body(kind, digest))
}

/// The same in this view for this number.
pub fn cast(
    alloc: Global,
    config: &Arc<Config>,
    signers: &mut [Signer],
    id: u8,
    kind: u8,
    view: View,
    number: SeqNo,
    digest: u8,
) -> Result<Checked, Fail>
    ensures { IfOk result (λ c. c.config ≡ config.now.value) }
{
    checked(
        alloc,
        config,
        signers,
        id,
        body_at(kind, view, number, digest),
    )
}

/// The checked Checkpoint of a replica.
pub fn checkpoint(
    alloc: Global,
    config: &Arc<Config>,
    signers: &mut [Signer],
    id: u8,
    number: SeqNo,
    digest: Digest,
) -> Result<Checked, Fail>
    ensures { IfOk result (λ c. c.config ≡ config.now.value) }
{
    checked(
        alloc,
        config,
        signers,
        id,
        Body::Checkpoint(Checkpoint { number, digest }),
    )
}
