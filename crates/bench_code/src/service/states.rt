//! States and maps to measure.

use anyhow::Result;
use bench_common::operations::{PUT, installation, key, put};
use bench_common::states::{apply, config};
use std::alloc::{AllocError, Global};
use tenant_lanes::State;
use tenant_maps::{MapPort, TenantMap};

/// A state whose map has so many entries, put there by one client of one tenant.
pub(crate) fn with_entries(alloc: Global, count: u32) -> Result<State> {
    let mut state = State::genesis(alloc, config(alloc, 1, 4, 1, 1)?)?;
    apply(&mut state, 0, installation(alloc, &PUT)?)?;
    for number in 0..count {
        apply(&mut state, 0, put(alloc, number)?)?;
    }
    Ok(state)
}

/// A map with so many entries.
pub(crate) fn map(alloc: Global, count: u32) -> Result<TenantMap, AllocError> {
    let mut map = TenantMap::new(alloc);
    for number in 0..count {
        map.put(key(number), [0x5a; 32])?;
    }
    Ok(map)
}
