//! Who takes part: four replicas, of which one may be faulty, and two clients.

use anyhow::{Result, anyhow};
use host_types::{ClientEntry, ClientId, Config, TenantId};
use lms_tree::{Height, Signer};
use std::alloc::{AllocError, Global};
use std::sync::Arc;

/// How many replicas there are.
const REPLICAS: u8 = 4;

/// How many clients there are, each of a tenant of its own.
const CLIENTS: u8 = 2;

/// The number of the first client among the signers, which is its id, too.
const FIRST_CLIENT: u8 = 16;

/// The first client.
pub(crate) const CLIENT: ClientId = ClientId(FIRST_CLIENT as u32);

/// The numbers from a checkpoint to the next, where little is executed.
const INTERVAL: u8 = 2;

/// The signers of the replicas and of the clients, ids ascending, and the configuration that lists their keys.
#[derive(Drop)]
pub(crate) struct Group {
    pub(crate) config: Arc<Config>,
    pub(crate) replicas: Vec<Signer>,
    pub(crate) clients: Vec<Signer>,
}

impl Group {
    /// A group before its first signature. Each call gives the same one.
    pub(crate) fn new(alloc: Global) -> Result<Group> {
        let replicas = signers(alloc, 0, REPLICAS)?;
        let clients = signers(alloc, FIRST_CLIENT, CLIENTS)?;
        let config = config(alloc, &replicas, &clients)?;
        Ok(Group {
            config,
            replicas,
            clients,
        })
    }
}

/// So many signers, numbers ascending.
fn signers(alloc: Global, first: u8, count: u8) -> Result<Vec<Signer>, AllocError> {
    let mut signers = Vec::new(alloc);
    for index in 0..count {
        let number = first.saturating_add(index);
        let signer = Signer::from_seed(alloc, Height::H5, [number; 16], [2; 32])?;
        signers.push(signer)?;
    }
    Ok(signers)
}

/// The signer at an index, taken out of a list.
pub(crate) fn taken(signers: &mut Vec<Signer>, index: usize) -> Result<Signer> {
    if index < signers.len() {
        Ok(signers.swap_remove(index))
    } else {
        Err(anyhow!("there is no such signer"))
    }
}

/// The configuration that lists these keys.
fn config(alloc: Global, replicas: &[Signer], clients: &[Signer]) -> Result<Arc<Config>> {
    let mut keys = Vec::new(alloc);
    for signer in replicas {
        keys.push(signer.public_key())?;
    }
    let mut entries = Vec::new(alloc);
    let mut id = CLIENT.0;
    for signer in clients {
        entries.push(ClientEntry {
            id: ClientId(id),
            tenant: TenantId(id),
            key: signer.public_key(),
        })?;
        id = id.saturating_add(1);
    }
    let config = Config::new(1, INTERVAL, keys, entries)?;
    Ok(Arc::new(alloc, config)?)
}
