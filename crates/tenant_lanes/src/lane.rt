//! A lane: the parts of some tenants, and what it makes of their requests.

ghost use Rattle.std.specs.Prelude.{◌≡◌, ◌+◌, ◌<◌, ◌^◌, All, IfOk, IfSome, length};
ghost use Rattle.tenant_lanes.specs.Runs.{LaneStep, LaneRuns};

use host_types::{Gate, Request, SeqNo};
use service_core::{Outcome, TenantPart};
use std::alloc::{AllocError, Global};

/// A lane by its number, with a slot for each tenant of the state, of which its own have their parts.
#[derive(Drop)]
pub(crate) struct Lane {
    pub(crate) number: u8,
    pub(crate) slots: Vec<Option<TenantPart>>,
}

/// What a lane has done: its slots, and the outcome of each request that it took.
#[derive(Drop)]
pub(crate) struct Done {
    pub(crate) slots: Vec<Option<TenantPart>>,
    pub(crate) outcomes: Vec<Option<Outcome>>,
}

/// Goes through the requests behind this number, each with the index of its tenant, and takes those of the lane's
/// own tenants.
pub(crate) fn run_lane<G: Gate>(
    alloc: Global,
    lane: Lane,
    requests: &[Option<Request>],
    places: &[Option<usize>],
    number: u64,
    gate: &G,
) -> Result<Done, AllocError>
    requires lengths { length places.now ≡ length requests.now }
    requires within { All (λ place. IfSome place (λ index. index < length lane.slots.items)) places.now }
    requires numbers { number + length requests.now < 2 ^ 48 }
    ensures { IfOk result (λ done. LaneRuns number lane.slots.items places.now requests.now done.slots.items done.outcomes.items) }
{
    gate.step(u32::from(lane.number));
    let mut slots = lane.slots;
    let mut outcomes = Vec::new(alloc);
    for (i, request) in requests.iter().enumerate() {
        let outcome = step(&mut slots, places[i], request, number + i as u64 + 1)?;
        outcomes.push(outcome)?;
    }
    Ok(Done { slots, outcomes })
}

/// Takes a request as this number if its tenant's part is there.
fn step(
    slots: &mut [Option<TenantPart>],
    place: Option<usize>,
    request: &Option<Request>,
    number: u64,
) -> Result<Option<Outcome>, AllocError>
    requires { IfSome place (λ index. index < length slots.old) }
    ensures { IfOk result (λ outcome. LaneStep number slots.old place request.now slots.new outcome) }
{
    let Some(index) = place else {
        return Ok(None);
    };
    let Some(request) = request else {
        return Ok(None);
    };
    let Some(part) = &mut slots[index] else {
        return Ok(None);
    };
    let outcome = part.apply_at(SeqNo(number), request)?;
    Ok(Some(outcome))
}
