//! States of the service, with no replicas around them.

use anyhow::{Result, anyhow};
use host_types::{Bytes, ClientEntry, ClientId, Config, PublicKey, Request, TenantId};
use service_core::State;
use std::alloc::Global;
use std::sync::Arc;

/// The id of the first client.
const FIRST: u32 = 100;

/// A configuration of so many replicas, of which so many may be faulty, and so many clients, in turn of so
/// many tenants from 1 on. Their keys verify nothing.
pub fn config(
    alloc: Global,
    faulty: u8,
    replicas: u8,
    clients: u32,
    tenants: u32,
) -> Result<Arc<Config>> {
    let mut keys = Vec::new(alloc);
    for index in 0..replicas {
        keys.push(PublicKey::Lms([index; 56]))?;
    }
    let mut entries = Vec::new(alloc);
    for index in 0..clients {
        entries.push(ClientEntry {
            id: ClientId(FIRST.saturating_add(index)),
            tenant: TenantId((index % tenants.max(1)).saturating_add(1)),
            key: PublicKey::Lms([7; 56]),
        })?;
    }
    let config = Config::new(faulty, 8, keys, entries)?;
    Ok(Arc::new(alloc, config)?)
}

/// Applies a client's operation, at a time above those before. The clients count from 0.
pub fn apply(state: &mut State, client: u32, op: Vec<u8>) -> Result<()> {
    let client = ClientId(FIRST.saturating_add(client));
    let number = state.number().0;
    if number > 1_000_000 || !state.is_listed(client) {
        return Err(anyhow!("the request can't be applied"));
    }
    let request = Request {
        client,
        time: number + 1,
        op: Bytes::from_vec(op),
    };
    state.apply(Some(&request))?;
    Ok(())
}
