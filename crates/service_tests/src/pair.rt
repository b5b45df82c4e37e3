//! Two states under one configuration: one takes requests one after another, as a service, the other in lanes.

ghost use Rattle.std.specs.Prelude.{◌≡◌, ◌<◌, true, All, IfSome, IsSome};
ghost use Rattle.host_types.specs.Configuration.{entry_of};

use crate::asked::requests;
use crate::service::Service;
use host_types::{Gate, Reply, Request};
use service_core::{Outcome, State};
use std::alloc::Global;
use std::test::Fail;
use std::thread::Threads;
use tenant_lanes::apply_all;

/// Whether each request's client is listed.
fn are_listed(state: &State, requests: &[Option<Request>]) -> bool
    ensures { result ≡ true → All (λ request. IfSome request (λ taken. IsSome (entry_of state.now.config.clients taken.client.0))) requests.now }
{
    requests.iter().all(|request| is_listed(state, request))
}

/// Whether the request's client is listed.
fn is_listed(state: &State, request: &Option<Request>) -> bool
    ensures { result ≡ true → IfSome request.now (λ taken. IsSome (entry_of state.now.config.clients taken.client.0)) }
{
    match request {
        Some(request) => state.is_listed(request.client),
        None => true,
    }
}

/// Whether two replies are equal.
fn is_same_reply(one: &Reply, other: &Reply) -> bool {
    one.client.0 == other.client.0
        && one.time == other.time
        && one.number.0 == other.number.0
        && one.result.as_slice() == other.result.as_slice()
}

/// Whether two outcomes are equal.
fn is_same(one: &Outcome, other: &Outcome) -> bool {
    let replies = match (&one.reply, &other.reply) {
        (Some(reply), Some(other)) => is_same_reply(reply, other),
        (None, None) => true,
        _ => false,
    };
    replies && one.number.0 == other.number.0 && one.kept == other.kept
}

/// Whether the outcomes are equal, one by one.
fn are_same(outcomes: &[Outcome], others: &[Outcome]) -> bool {
    outcomes.len() == others.len()
        && outcomes
            .iter()
            .zip(others)
            .all(|(one, other)| is_same(one, other))
}

/// What the requests come to, one after another.
fn one_by_one(service: &mut Service, requests: &[Option<Request>]) -> Result<Vec<Outcome>, Fail> {
    let mut outcomes = Vec::new(service.alloc);
    for request in requests {
        outcomes.push(service.apply(request.as_ref())?)?;
    }
    Ok(outcomes)
}

/// A service and a state that have taken the same requests.
#[derive(Drop)]
pub(crate) struct Pair {
    sequential: Service,
    parallel: State,
}

impl Pair {
    /// Two first states.
    pub(crate) fn new(alloc: Global, pairs: &str) -> Result<Pair, Fail> {
        let sequential = Service::new(alloc, pairs)?;
        let parallel = State::genesis(alloc, sequential.config.clone()?)?;
        Ok(Pair {
            sequential,
            parallel,
        })
    }

    /// Both take the requests of a text, and have to come to equal outcomes and bytes; gives the outcomes.
    pub(crate) fn take<R: Threads + Sync, G: Gate + Sync>(
        self,
        rt: &R,
        text: &str,
        workers: u8,
        gate: &G,
    ) -> Result<(Pair, Vec<Outcome>), Fail>
        requires { 0 < workers }
    {
        let alloc = self.sequential.alloc;
        let requests = requests(alloc, text)?;
        let mut sequential = self.sequential;
        let wanted = one_by_one(&mut sequential, &requests)?;
        if self.parallel.number().0 > 1_000_000
            || requests.len() > 1_000_000
            || !are_listed(&self.parallel, &requests)
        {
            return Err(Fail::new("can't be applied"));
        }
        let (parallel, outcomes) = apply_all(rt, alloc, self.parallel, &requests, workers, gate)?;
        if !are_same(&outcomes, &wanted) {
            return Err(Fail::new("other outcomes"));
        }
        if parallel.to_bytes()?.as_slice() != sequential.state.to_bytes()?.as_slice() {
            return Err(Fail::new("another state"));
        }
        let pair = Pair {
            sequential,
            parallel,
        };
        Ok((pair, outcomes))
    }
}
