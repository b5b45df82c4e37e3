//! Drivers of the service: a request that is applied, and requests of several tenants in lanes.

mod setup;

ghost use Rattle.std.specs.Prelude.{◌≡◌, true, All, IfSome, IsSome};
ghost use Rattle.host_types.specs.Configuration.{entry_of};

use crate::common::gate::NoGate;
use crate::common::told::{begin, is_kept, leading, memory};
use crate::service::setup::{TENANTS, apply, call, is_listed, state};
use anyhow::{Result, anyhow};
use host_types::Request;
use std::alloc::{AllocError, Global};
use std::thread::Threads;
use tenant_lanes::{Outcome, State, apply_all};

/// The workers of lanes.
const WORKERS: u8 = 2;

/// The calls of each tenant that go to lanes together.
const ROUNDS: u64 = 3;

/// Applies a call. Where it is refused, the number is to be what it was; the rest of the state is then unusable.
pub(crate) fn print_apply(rt: &HostRuntime) -> Result<()> {
    let mut state = state(rt.alloc())?;
    apply_one(rt, &mut state)
}

fn apply_one(rt: &HostRuntime, state: &mut State) -> Result<()> {
    let request = call(rt.alloc(), 0, 2)?;
    let number = state.number();
    begin(rt)?;
    match apply(state, &request)? {
        Ok(outcome) => print_outcome(rt, &outcome),
        Err(AllocError) => {
            memory(rt)?;
            is_kept(rt, "number", state.number() == number)
        }
    }
}

/// Prints what a request came to.
fn print_outcome(rt: &HostRuntime, outcome: &Outcome) -> Result<()> {
    let number = outcome.number.0;
    match &outcome.reply {
        Some(reply) => println!(rt; "number {number} result {:?}", reply.result.as_slice())?,
        None => println!(rt; "number {number} no reply")?,
    }
    Ok(())
}

/// Calls of all tenants, in turn.
fn calls(alloc: Global) -> Result<Vec<Option<Request>>, AllocError> {
    let mut requests = Vec::new(alloc);
    for round in 0..ROUNDS {
        for tenant in 0..TENANTS {
            requests.push(Some(call(alloc, tenant, round + 2)?))?;
        }
    }
    Ok(requests)
}

/// Whether each request's client is listed.
fn are_listed(state: &State, requests: &[Option<Request>]) -> bool
    ensures { result ≡ true → All (λ request. IfSome request (λ taken. IsSome (entry_of state.now.config.clients taken.client.0))) requests.now }
{
    requests.iter().all(|request| is_listed(state, request))
}

/// Applies calls of all tenants in lanes.
pub(crate) fn print_apply_all<R: Threads + Sync>(rt: &HostRuntime, threads: &R) -> Result<()> {
    let state = state(rt.alloc())?;
    let requests = calls(rt.alloc())?;
    if state.number().0 > 1_000 || requests.len() > 1_000 || !are_listed(&state, &requests) {
        return Err(anyhow!("the requests can't be applied"));
    }
    begin(rt)?;
    match apply_all(threads, rt.alloc(), state, &requests, WORKERS, &NoGate) {
        Ok((state, outcomes)) => print_applied(rt, &state, &outcomes),
        Err(AllocError) => memory(rt),
    }
}

/// Prints what requests came to.
fn print_applied(rt: &HostRuntime, state: &State, outcomes: &[Outcome]) -> Result<()> {
    for outcome in outcomes {
        print_outcome(rt, outcome)?;
    }
    println!(rt;
        "state {} {:016x}",
        state.number().0,
        leading(&state.digest())
    )?;
    Ok(())
}
