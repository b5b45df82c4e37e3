//! The keys of all worlds.

use crate::plan::{MOST, Plan, replicas_for};
use anyhow::{Result, anyhow};
use host_types::{ClientEntry, ClientId, Config, PublicKey, TenantId};
use lms_tree::{Height, KeySource, Signer};
use std::alloc::{AllocError, Global};
use std::sync::Arc;

/// The most clients of a world.
const CLIENTS: u8 = 3;

/// The seed of a client's key, apart from those of replicas.
const FIRST_CLIENT: u8 = 100;

/// A key that is made once, and the public one.
#[derive(Drop)]
struct Key {
    source: KeySource,
    public: PublicKey,
}

impl Key {
    fn new(alloc: Global, number: u8) -> Result<Key, AllocError> {
        let source = KeySource::from_seed(alloc, Height::H5, None, [number; 16], [number; 32])?;
        let public = source.signer(alloc)?.public_key();
        Ok(Key { source, public })
    }
}

/// The keys of replicas and clients, of which each world has some, with unused leaves.
#[derive(Drop)]
pub(crate) struct Keys {
    alloc: Global,
    replicas: Vec<Key>,
    clients: Vec<Key>,
}

fn keys_from(alloc: Global, first: u8, count: u8) -> Result<Vec<Key>, AllocError> {
    let mut keys = Vec::new(alloc);
    for index in 0..count {
        keys.push(Key::new(alloc, first.saturating_add(index))?)?;
    }
    Ok(keys)
}

/// A new signer of the key at an index.
fn signer_at(alloc: Global, keys: &[Key], index: usize) -> Result<Signer> {
    match keys.get(index) {
        Some(key) => Ok(key.source.signer(alloc)?),
        None => Err(anyhow!("there is no such key")),
    }
}

/// The id of the client with an index.
pub(crate) fn client_id(index: usize) -> ClientId {
    ClientId(u32::from(FIRST_CLIENT).saturating_add((index % 8) as u32))
}

/// The index of a client.
pub(crate) fn client_index(id: ClientId) -> usize {
    id.0.saturating_sub(u32::from(FIRST_CLIENT)) as usize
}

impl Keys {
    pub(crate) fn new(alloc: Global) -> Result<Keys, AllocError> {
        Ok(Keys {
            alloc,
            replicas: keys_from(alloc, 0, MOST as u8)?,
            clients: keys_from(alloc, FIRST_CLIENT, CLIENTS)?,
        })
    }

    pub(crate) fn replica(&self, index: usize) -> Result<Signer> {
        signer_at(self.alloc, &self.replicas, index)
    }

    pub(crate) fn client(&self, index: usize) -> Result<Signer> {
        signer_at(self.alloc, &self.clients, index)
    }

    /// The configuration of a plan's replicas and clients.
    pub(crate) fn config(&self, plan: &Plan) -> Result<Arc<Config>> {
        let mut keys = Vec::new(self.alloc);
        for key in self.replicas.iter().take(replicas_for(plan.f)) {
            keys.push(key.public)?;
        }
        let clients = self.entries(usize::from(plan.clients))?;
        Ok(Arc::new(self.alloc, Config::new(plan.f, plan.k, keys, clients)?)?)
    }

    /// The first clients, all of one tenant.
    fn entries(&self, count: usize) -> Result<Vec<ClientEntry>, AllocError> {
        let mut entries = Vec::new(self.alloc);
        for (index, key) in self.clients.iter().take(count).enumerate() {
            entries.push(ClientEntry {
                id: client_id(index),
                tenant: TenantId(1),
                key: key.public,
            })?;
        }
        Ok(entries)
    }
}
