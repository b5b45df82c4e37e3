//! Who takes part: the signers of replicas and clients, and the configuration that lists them.

use anyhow::Result;
use host_types::{ClientEntry, ClientId, Config, TenantId};
use lms_tree::{Height, KeySource, Signer};
use std::alloc::{AllocError, Global};
use std::sync::Arc;

/// The id of the first client.
pub const FIRST_CLIENT: u8 = 16;

/// The signers with the ids from `first` on. Each call gives the same ones.
pub fn signers(
    alloc: Global,
    height: Height,
    first: u8,
    count: u8,
) -> Result<Vec<Signer>, AllocError> {
    let mut signers = Vec::new(alloc);
    for index in 0..count {
        let id = first.saturating_add(index);
        signers.push(Signer::from_seed(alloc, height, [id; 16], [2; 32])?)?;
    }
    Ok(signers)
}

/// The signers with the ids from 0 on, whose keys are of two levels of height 5.
pub fn signers_of_levels(alloc: Global, count: u8) -> Result<Vec<Signer>, AllocError> {
    let mut signers = Vec::new(alloc);
    for id in 0..count {
        let signer = Signer::from_seed2(alloc, Height::H5, Height::H5, [id; 16], [2; 32])?;
        signers.push(signer)?;
    }
    Ok(signers)
}

/// The sources of the keys with the ids from `first` on, with a top tree of height 5 and these bottom trees.
pub fn sources(
    alloc: Global,
    bottom: Option<Height>,
    first: u8,
    count: u8,
) -> Result<Vec<KeySource>, AllocError> {
    let mut sources = Vec::new(alloc);
    for index in 0..count {
        let id = first.saturating_add(index);
        sources.push(KeySource::from_seed(alloc, Height::H5, bottom, [id; 16], [2; 32])?)?;
    }
    Ok(sources)
}

/// A signer of each source, none of whose leaves was used.
pub fn signers_from(alloc: Global, sources: &[KeySource]) -> Result<Vec<Signer>, AllocError> {
    let mut signers = Vec::new(alloc);
    for source in sources {
        signers.push(source.signer(alloc)?)?;
    }
    Ok(signers)
}

/// The configuration of replicas, of which so many may be faulty, and of clients, which are in turn of so
/// many tenants.
pub fn config(
    alloc: Global,
    faulty: u8,
    interval: u8,
    replicas: &[Signer],
    clients: &[Signer],
    tenants: u32,
) -> Result<Arc<Config>> {
    let mut keys = Vec::new(alloc);
    for signer in replicas {
        keys.push(signer.public_key())?;
    }
    let mut entries = Vec::new(alloc);
    let mut index: u32 = 0;
    for signer in clients {
        entries.push(ClientEntry {
            id: ClientId(u32::from(FIRST_CLIENT).saturating_add(index)),
            tenant: TenantId(index % tenants.max(1)),
            key: signer.public_key(),
        })?;
        index = index.saturating_add(1);
    }
    let config = Config::new(faulty, interval, keys, entries)?;
    Ok(Arc::new(alloc, config)?)
}
