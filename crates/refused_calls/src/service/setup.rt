//! A state of several tenants, each with a client and a procedure that puts an entry, and calls of it.

ghost use Rattle.std.specs.Prelude.{◌≡◌, true, IfSome, IsSome};
ghost use Rattle.host_types.specs.Configuration.{entry_of};

use anyhow::{Result, anyhow};
use host_types::{Bytes, ClientEntry, ClientId, Config, PublicKey, Request, TenantId};
use std::alloc::{AllocError, Global};
use std::sync::Arc;
use tenant_lanes::{Outcome, State};

/// How many tenants there are.
pub(crate) const TENANTS: u32 = 3;

/// The id of the first tenant's client.
const FIRST: u32 = 100;

/// A replica's or a client's key that verifies nothing.
const NO_KEY: PublicKey = PublicKey::Lms([7; 56]);

/// The operation that installs code which puts the 32 argument bytes behind the first 16 at the key that these are.
const INSTALLATION: [u8; 33] = [
    1, 0xbf, 0x12, 0, 0, 0, 0, 0, 0, 0x07, 0x02, 0, 0, 0x10, 0, 0, 0, 0x85, 0, 0, 0, 2, 0, 0, 0,
    0x95, 0, 0, 0, 0, 0, 0, 0,
];

/// The operation that calls procedure 0 with these argument bytes behind it.
const CALL: [u8; 5] = [2, 0, 0, 0, 0];

fn config(alloc: Global) -> Result<Arc<Config>> {
    let keys = vec![in alloc; NO_KEY; 4]?;
    let mut clients = Vec::new(alloc);
    for tenant in 0..TENANTS {
        clients.push(ClientEntry {
            id: ClientId(FIRST + tenant),
            tenant: TenantId(tenant),
            key: NO_KEY,
        })?;
    }
    Ok(Arc::new(alloc, Config::new(1, 8, keys, clients)?)?)
}

/// A state in which each tenant has installed the procedure.
pub(crate) fn state(alloc: Global) -> Result<State> {
    let mut state = State::genesis(alloc, config(alloc)?)?;
    install(alloc, &mut state)?;
    Ok(state)
}

fn install(alloc: Global, state: &mut State) -> Result<()> {
    for tenant in 0..TENANTS {
        let request = request(tenant, 1, INSTALLATION.to_vec(alloc)?);
        apply(state, &request)??;
    }
    Ok(())
}

fn request(tenant: u32, time: u64, op: Vec<u8>) -> Request {
    Request {
        client: ClientId(FIRST.saturating_add(tenant)),
        time,
        op: Bytes::from_vec(op),
    }
}

/// A tenant's call, which puts another entry at each time.
pub(crate) fn call(alloc: Global, tenant: u32, time: u64) -> Result<Request, AllocError> {
    let mut op = CALL.to_vec(alloc)?;
    op.extend_from_slice(&time.to_be_bytes())?;
    op.extend_from_slice(&[0x5a; 40])?;
    Ok(request(tenant, time, op))
}

/// Whether a request can be applied.
pub(crate) fn is_listed(state: &State, request: &Option<Request>) -> bool
    ensures { result ≡ true → IfSome request.now (λ taken. IsSome (entry_of state.now.config.clients taken.client.0)) }
{
    match request {
        Some(request) => state.is_listed(request.client),
        None => true,
    }
}

/// Applies a request of a client that is listed.
pub(crate) fn apply(state: &mut State, request: &Request) -> Result<Result<Outcome, AllocError>> {
    if state.number().0 > 1_000 || !state.is_listed(request.client) {
        return Err(anyhow!("the request can't be applied"));
    }
    Ok(state.apply(Some(request)))
}
