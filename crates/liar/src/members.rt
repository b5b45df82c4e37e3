//! Who takes part: four replicas, of which one may be faulty, and a client.

use anyhow::{Result, anyhow};
use bench_common::members::{FIRST_CLIENT, config, signers};
use host_types::{ClientId, Config};
use lms_tree::{Height, Signer};
use std::alloc::{AllocError, Global};
use std::sync::Arc;

/// How many replicas there are.
const REPLICAS: u8 = 4;

/// How many of them may be faulty.
const FAULTY: u8 = 1;

/// How many clients there are, all of one tenant.
const CLIENTS: u8 = 1;

const TENANTS: u32 = 1;

/// The first client.
pub(crate) const CLIENT: ClientId = ClientId(FIRST_CLIENT as u32);

/// The numbers from a checkpoint to the next.
pub(crate) const INTERVAL: u8 = 8;

/// How many messages the keys sign.
#[derive(Clone, Copy, PartialEq, Eq)]
pub(crate) enum Keys {
    /// One tree each: 32.
    Few,
    /// Two levels of height 10 each: 1,048,576.
    Many,
}

impl Keys {
    /// The signers with the ids from `first` on. Each call gives the same ones.
    fn signers(self, alloc: Global, first: u8, count: u8) -> Result<Vec<Signer>, AllocError> {
        match self {
            Keys::Few => signers(alloc, Height::H5, first, count),
            Keys::Many => signers_of_levels(alloc, first, count),
        }
    }
}

/// Those whose keys are of two levels of height 10.
fn signers_of_levels(alloc: Global, first: u8, count: u8) -> Result<Vec<Signer>, AllocError> {
    let mut signers = Vec::new(alloc);
    for index in 0..count {
        let id = first.saturating_add(index);
        let signer = Signer::from_seed2(alloc, Height::H10, Height::H10, [id; 16], [2; 32])?;
        signers.push(signer)?;
    }
    Ok(signers)
}

/// The signers of the replicas and of the client, ids ascending, and the configuration that lists their keys.
#[derive(Drop)]
pub(crate) struct Group {
    pub(crate) config: Arc<Config>,
    pub(crate) replicas: Vec<Signer>,
    pub(crate) clients: Vec<Signer>,
}

impl Group {
    /// A group before its first signature.
    pub(crate) fn new(alloc: Global, keys: Keys) -> Result<Group> {
        let replicas = keys.signers(alloc, 0, REPLICAS)?;
        let clients = keys.signers(alloc, FIRST_CLIENT, CLIENTS)?;
        let config = config(alloc, FAULTY, INTERVAL, &replicas, &clients, TENANTS)?;
        Ok(Group {
            config,
            replicas,
            clients,
        })
    }
}

/// The signer at an index, taken out of a list.
pub(crate) fn taken(signers: &mut Vec<Signer>, index: usize) -> Result<Signer> {
    if index < signers.len() {
        Ok(signers.swap_remove(index))
    } else {
        Err(anyhow!("there is no such signer"))
    }
}
