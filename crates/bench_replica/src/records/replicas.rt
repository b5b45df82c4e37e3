//! Ten replicas, of which three may be faulty, and what they sign.

ghost use Rattle.std.specs.Prelude.{◌≡◌, IfOk, IfSome};
ghost use Rattle.std.specs.Option.{option_copied};

use anyhow::{Result, anyhow};
use bench_common::{members, signing};
use host_types::{Bytes, Config};
use lms_tree::{Height, Signer};
use pbft_codec::{Body, MessageBody, Role, Signed};
use seal::{Checked, CheckedList};
use std::alloc::{AllocError, Global};
use std::sync::Arc;

/// The most replicas that there can be.
pub(crate) const REPLICAS: u8 = 10;

/// How many replicas are a quorum of them.
pub(crate) const QUORUM: u8 = 7;

/// The interval between checkpoints; votes are recorded for twice as many numbers.
pub(crate) const INTERVAL: u8 = 8;

/// Their signers. Each call gives the same ones.
pub(crate) fn signers(alloc: Global) -> Result<Vec<Signer>, AllocError> {
    members::signers(alloc, Height::H5, 0, REPLICAS)
}

/// Their configuration, with no clients.
pub(crate) fn config(alloc: Global, signers: &[Signer]) -> Result<Arc<Config>> {
    members::config(alloc, 3, INTERVAL, signers, &[], 1)
}

/// A replica's body of one kind, to be nested in another.
pub(crate) fn signed<B: MessageBody>(
    alloc: Global,
    signers: &mut [Signer],
    id: u8,
    body: B,
) -> Result<Signed<B>> {
    let Some(signer) = signers.get_mut(usize::from(id)) else {
        return Err(anyhow!("there is no such replica"));
    };
    let copy = body.try_clone(alloc)?.into_body();
    let (_, sig) = signing::sign(alloc, signer, Role::Replica, u32::from(id), copy)?;
    Ok(Signed {
        role: Role::Replica,
        id: u32::from(id),
        body,
        sig: Bytes::from_vec(sig),
    })
}

/// The message of a replica with this body, opened.
pub(crate) fn message(
    alloc: Global,
    config: &Arc<Config>,
    signers: &mut [Signer],
    id: u8,
    body: Body,
) -> Result<Checked>
    ensures { IfOk result (λ m. m.config ≡ config.now.value) }
{
    let Some(signer) = signers.get_mut(usize::from(id)) else {
        return Err(anyhow!("there is no such replica"));
    };
    signing::message(alloc, config, signer, Role::Replica, u32::from(id), body)
}

/// The message at an index of a list.
pub(crate) fn at(list: &CheckedList, index: usize) -> Option<&Checked>
    ensures { IfSome (option_copied result) (λ m. m.config ≡ list.now.config) }
{
    list.as_slice().get(index)
}
