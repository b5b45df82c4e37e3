//! Requests of different tenants at the same time.

ghost use Rattle.std.specs.Prelude.{◌≡◌, ◌+◌, ◌<◌, ◌^◌, All, IfOk, IfSome, IsSome, length};
ghost use Rattle.host_types.specs.Configuration.{entry_of};
ghost use Rattle.service_model.specs.Steps.{Follows};
ghost use Rattle.tenant_lanes.specs.Runs.{LaneRuns, HaveRun, filled_by, AreApart, NoneAsked};

use crate::dealing::{Dealt, deal, places_of};
use crate::lane::{Done, Lane, run_lane};
use crate::slots::{empty_slots, fill, items_of, settled};
use host_types::{Gate, Request, SeqNo};
use service_core::{Outcome, State};
use std::alloc::{AllocError, Global};
use std::thread::{self, Threads};

/// Takes requests one after another, or does what comes to the same: those of different tenants at the same time, in
/// at most so many threads as workers, which have to be some. Tenants with requests, by id ascending, go to lanes 0,
/// 1, .. in turn; each lane has a thread of its own where one can be made, else lanes run one after another. A lane
/// calls `gate.step` with its number once, before its first request. Null requests go to no lane. The clients have to
/// be listed, and the numbers have to stay below 2^48. Where memory runs out the state is dropped.
pub fn apply_all<R: Threads + Sync, G: Gate + Sync>(
    rt: &R,
    alloc: Global,
    state: State,
    requests: &[Option<Request>],
    workers: u8,
    gate: &G,
) -> Result<(State, Vec<Outcome>), AllocError>
    requires workers { 0 < workers }
    requires listed { All (λ request. IfSome request (λ taken. IsSome (entry_of state.config.clients taken.client.0))) requests.now }
    requires numbers { state.number + length requests.now < 2 ^ 48 }
    ensures { IfOk result (λ done. Follows state requests.now done.0 done.1.items) }
{
    let places = places_of(alloc, &state, requests)?;
    let (config, number, parts) = state.split();
    let dealt = deal(alloc, parts, &places, workers)?;
    let done = run_dealt(rt, alloc, dealt, requests, &places, number.0, gate)?;
    let outcomes = settled(alloc, number.0, done.outcomes)?;
    let parts = items_of(alloc, done.slots)?;
    let last = SeqNo(number.0 + requests.len() as u64);
    Ok((State::join(config, last, parts), outcomes))
}

/// Runs the lanes, and puts what they have into the slots of all others.
fn run_dealt<R: Threads + Sync, G: Gate + Sync>(
    rt: &R,
    alloc: Global,
    dealt: Dealt,
    requests: &[Option<Request>],
    places: &[Option<usize>],
    number: u64,
    gate: &G,
) -> Result<Done, AllocError>
    requires lengths { length places.now ≡ length requests.now }
    requires lanes { All (λ lane. length lane.slots.items ≡ length dealt.others.items) dealt.lanes.items }
    requires within { All (λ place. IfSome place (λ index. index < length dealt.others.items)) places.now }
    requires numbers { number + length requests.now < 2 ^ 48 }
    requires apart { AreApart dealt.others.items dealt.lanes.items }
    requires others { NoneAsked dealt.others.items places.now }
    ensures { IfOk result (λ done. LaneRuns number (filled_by dealt.lanes.items dealt.others.items) places.now requests.now done.slots.items done.outcomes.items) }
{
    let Dealt { lanes, others } = dealt;
    let all = run_lanes(rt, alloc, lanes, requests, places, number, gate)?;
    let mut slots = others;
    let mut outcomes = empty_slots(alloc, requests.len())?;
    for done in all {
        let done = done?;
        fill(&mut slots, done.slots);
        fill(&mut outcomes, done.outcomes);
    }
    Ok(Done { slots, outcomes })
}

/// Runs the lanes, each in a thread of its own where one can be made.
fn run_lanes<R: Threads + Sync, G: Gate + Sync>(
    rt: &R,
    alloc: Global,
    lanes: Vec<Lane>,
    requests: &[Option<Request>],
    places: &[Option<usize>],
    number: u64,
    gate: &G,
) -> Result<Vec<Result<Done, AllocError>>, AllocError>
    requires lengths { length places.now ≡ length requests.now }
    requires within { All (λ lane. All (λ place. IfSome place (λ index. index < length lane.slots.items)) places.now) lanes.items }
    requires numbers { number + length requests.now < 2 ^ 48 }
    ensures len { IfOk result (λ all. length all.items ≡ length lanes.items) }
    ensures each { IfOk result (λ all. HaveRun number places.now requests.now lanes.items all.items) }
{
    let run = move |lane: Lane| -> Result<Done, AllocError>
        requires { (length places.now ≡ length requests.now) × All (λ place. IfSome place (λ index. index < length lane.slots.items)) places.now × (number + length requests.now < 2 ^ 48) }
        ensures { IfOk result (λ done. LaneRuns number lane.slots.items places.entry.now requests.entry.now done.slots.items done.outcomes.items) }
    { run_lane(alloc, lane, requests, places, number, gate) };
    thread::map_vec(rt, lanes, &run)
}
