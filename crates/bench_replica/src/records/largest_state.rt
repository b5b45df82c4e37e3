//! A largest state, made by requests.

use anyhow::Result;
use bench_common::operations::{PUT, call, long_installation, put};
use bench_common::states::{apply, config};
use host_types::Config;
use replica_core::State;
use std::alloc::Global;
use std::sync::Arc;

/// The most tenants, clients, procedures of a tenant, entries of its map, and slots of a procedure.
const TENANTS: u32 = 8;

const CLIENTS: u32 = 64;

const PROCEDURES: u32 = 64;

const ENTRIES: u32 = 4096;

const SLOTS: usize = 1024;

/// Code that emits the 256 argument bytes.
const EMIT: [u8; 24] = [
    0xb7, 0x02, 0, 0, 0, 1, 0, 0, 0x85, 0, 0, 0, 6, 0, 0, 0, 0x95, 0, 0, 0, 0, 0, 0, 0,
];

/// Fills the procedures and the map of a client's tenant: the first procedure puts, the others emit.
fn fill(alloc: Global, state: &mut State, client: u32) -> Result<()> {
    apply(state, client, long_installation(alloc, &PUT, SLOTS)?)?;
    for _ in 1..PROCEDURES {
        apply(state, client, long_installation(alloc, &EMIT, SLOTS)?)?;
    }
    for number in 0..ENTRIES {
        apply(state, client, put(alloc, number)?)?;
    }
    Ok(())
}

/// Fills all tenants, and has each client call a procedure that emits.
fn fill_all(alloc: Global, state: &mut State) -> Result<()> {
    for client in 0..TENANTS {
        fill(alloc, state, client)?;
    }
    for client in 0..CLIENTS {
        apply(state, client, call(alloc, 1)?)?;
    }
    Ok(())
}

/// The configuration and the bytes of a state that requests made as large as a state can be: each client
/// has a longest last reply, each tenant all its procedures and a full map.
pub(crate) fn made(alloc: Global) -> Result<(Arc<Config>, Vec<u8>)> {
    let config = config(alloc, 3, 10, CLIENTS, TENANTS)?;
    let mut state = State::genesis(alloc, config.clone()?)?;
    fill_all(alloc, &mut state)?;
    let bytes = state.to_bytes()?;
    Ok((config, bytes))
}
