//! Requests of tenants that each have a procedure of many steps and one of two, and what taking them takes.

ghost use Rattle.std.specs.Prelude.{◌≡◌, ◌<◌, true, All, IfSome, IsSome};
ghost use Rattle.host_types.specs.Configuration.{entry_of};

use anyhow::{Result, anyhow};
use bench_common::operations::{EXIT, MOVE, call, installation, large_code};
use bench_common::states::{apply, config};
use bench_common::{Measures, NoGate};
use host_types::{Bytes, ClientId, Request};
use std::alloc::{AllocError, Global};
use std::thread::Threads;
use std::time::{Clock, Instant};
use tenant_lanes::{State, apply_all};

/// The tenants, each with one client.
pub(crate) const TENANTS: u32 = 8;

/// The id of the first client.
const FIRST: u32 = 100;

/// The procedure of two steps; the other is of many.
pub(crate) const SMALL: u8 = 0;

pub(crate) const LARGE: u8 = 1;

/// Installs the procedures of all tenants.
fn install_all(alloc: Global, state: &mut State) -> Result<()> {
    let mut small = MOVE.to_vec(alloc)?;
    small.extend_from_slice(&EXIT)?;
    let large = large_code(alloc)?;
    for client in 0..TENANTS {
        apply(state, client, installation(alloc, &small)?)?;
        apply(state, client, installation(alloc, &large)?)?;
    }
    Ok(())
}

/// A state of eight tenants with their procedures.
pub(crate) fn state(alloc: Global) -> Result<State> {
    let mut state = State::genesis(alloc, config(alloc, 1, 4, TENANTS, TENANTS)?)?;
    install_all(alloc, &mut state)?;
    Ok(state)
}

/// Calls of a procedure, in turn by so many tenants, so many by each, at times behind this number.
pub(crate) fn calls(
    alloc: Global,
    number: u64,
    procedure: u8,
    tenants: u32,
    each: u32,
) -> Result<Vec<Option<Request>>, AllocError> {
    let mut requests = Vec::new(alloc);
    for round in 0..each {
        for tenant in 0..tenants {
            requests.push(Some(Request {
                client: ClientId(FIRST.saturating_add(tenant)),
                time: number.saturating_add(u64::from(round) + 1),
                op: Bytes::from_vec(call(alloc, procedure)?),
            }))?;
        }
    }
    Ok(requests)
}

/// Whether the request's client is listed.
fn is_listed(state: &State, request: &Option<Request>) -> bool
    ensures { result ≡ true → IfSome request.now (λ taken. IsSome (entry_of state.now.config.clients taken.client.0)) }
{
    match request {
        Some(request) => state.is_listed(request.client),
        None => true,
    }
}

/// Whether each request's client is listed.
fn are_listed(state: &State, requests: &[Option<Request>]) -> bool
    ensures { result ≡ true → All (λ request. IfSome request (λ taken. IsSome (entry_of state.now.config.clients taken.client.0))) requests.now }
{
    requests.iter().all(|request| is_listed(state, request))
}

/// The state after the requests in lanes, and the nanoseconds that it took.
pub(crate) fn in_lanes<R: Measures + Threads + Sync>(
    rt: &R,
    state: State,
    requests: &[Option<Request>],
    workers: u8,
) -> Result<(State, u128)> {
    if workers == 0
        || state.number().0 > 1_000_000
        || requests.len() > 1_000_000
        || !are_listed(&state, requests)
    {
        return Err(anyhow!("the requests can't be applied"));
    }
    let start = Instant::now(rt)?;
    let (state, outcomes) = apply_all(rt, rt.alloc(), state, requests, workers, &NoGate)?;
    let taken = start.elapsed(rt)?.as_nanos();
    if outcomes.len() != requests.len() {
        return Err(anyhow!("a request has no outcome"));
    }
    Ok((state, taken))
}

/// Takes requests one after another.
fn apply_in_turn(state: &mut State, requests: &[Option<Request>]) -> Result<()> {
    for request in requests {
        if state.number().0 > 1_000_000 || !is_listed(state, request) {
            return Err(anyhow!("a request can't be applied"));
        }
        state.apply(request.as_ref())?;
    }
    Ok(())
}

/// The state after the requests one after another, and the nanoseconds that it took.
pub(crate) fn in_turn(
    rt: &impl Clock,
    mut state: State,
    requests: &[Option<Request>],
) -> Result<(State, u128)> {
    let start = Instant::now(rt)?;
    apply_in_turn(&mut state, requests)?;
    let taken = start.elapsed(rt)?.as_nanos();
    Ok((state, taken))
}
