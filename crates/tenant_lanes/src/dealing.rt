//! Which tenant's part goes to which lane.

ghost use Rattle.std.specs.Prelude.{◌≡◌, ◌<◌, List, IfOk, OnOk, Some, length, map};
ghost use Rattle.std.specs.List.{range_with_len};
ghost use Rattle.service_model.specs.TenantStates.{TenantState};
ghost use Rattle.tenant_lanes.specs.Dealing.{place_of, has_requests, lane_of, lane_count, is_at};
ghost use Rattle.tenant_lanes.specs.Lanes.{IsDealt};
ghost use Rattle.tenant_lanes.specs.Runs.{picked, left};

use crate::lane::Lane;
use crate::slots::slots_of;
use host_types::Request;
use service_core::{State, TenantPart};
use std::alloc::{AllocError, Global};

/// Where the part of each request's tenant stands among the state's parts; a null request has none.
pub(crate) fn places_of(
    alloc: Global,
    state: &State,
    requests: &[Option<Request>],
) -> Result<Vec<Option<usize>>, AllocError>
    ensures { IfOk result (λ places. places.items ≡ map (place_of state.now) requests.now) }
{
    let mut places = Vec::new(alloc);
    for request in requests {
        places.push(place_of(state, request))?;
    }
    Ok(places)
}

/// Where the part of the request's tenant stands.
fn place_of(state: &State, request: &Option<Request>) -> Option<usize>
    ensures { result ≡ place_of state.now request.now }
{
    match request {
        Some(request) => state.client_index(request.client),
        None => None,
    }
}

/// Whether some request is for the tenant at this index.
fn has_requests(places: &[Option<usize>], index: usize) -> bool
    ensures { result ≡ has_requests places.now index }
{
    places.iter().any(|place| is_at(index, *place))
}

/// Whether the place is this index.
fn is_at(index: usize, place: Option<usize>) -> bool
    ensures { result ≡ is_at index place }
{
    match place {
        Some(place) => place == index,
        None => false,
    }
}

/// The lane of each tenant, and how many lanes there are.
fn lane_numbers(
    alloc: Global,
    places: &[Option<usize>],
    tenants: usize,
    workers: u8,
) -> Result<(Vec<Option<u8>>, u8), AllocError>
    requires { 0 < workers }
    ensures lanes { IfOk result (λ r. r.0.items ≡ map (lane_of workers places.now) (range_with_len 0 tenants)) }
    ensures count { IfOk result (λ r. r.1 ≡ lane_count workers places.now tenants) }
{
    let workers = usize::from(workers);
    let mut lanes = Vec::new(alloc);
    let mut turn = 0;
    for index in 0..tenants {
        if has_requests(places, index) {
            lanes.push(Some((turn % workers) as u8))?;
            turn += 1;
        } else {
            lanes.push(None)?;
        }
    }
    Ok((lanes, turn.min(workers) as u8))
}

/// Takes the parts of a lane's tenants out of the slots.
fn pick(
    alloc: Global,
    slots: &mut [Option<TenantPart>],
    lanes: &[Option<u8>],
    lane: u8,
) -> Result<Vec<Option<TenantPart>>, AllocError>
    requires { length lanes.now ≡ length slots.old }
    ensures picked { IfOk result (λ own. own.items ≡ picked lane lanes.now slots.old) }
    ensures left { OnOk result (slots.new ≡ left lane lanes.now slots.old) }
{
    let mut own = Vec::new(alloc);
    for index in 0..slots.len() {
        if is_number(lane, lanes[index]) {
            own.push(slots[index].take())?;
        } else {
            own.push(None)?;
        }
    }
    Ok(own)
}

/// Whether the lane's number is this one.
fn is_number(lane: u8, number: Option<u8>) -> bool
    ensures { result ≡ is_at lane number }
{
    match number {
        Some(number) => number == lane,
        None => false,
    }
}

/// What is dealt: the lanes, and the parts that are in none.
#[derive(Drop)]
pub(crate) struct Dealt {
    pub(crate) lanes: Vec<Lane>,
    pub(crate) others: Vec<Option<TenantPart>>,
}

/// Deals the parts to lanes: tenants with requests, by id ascending, go to lanes 0, 1, .. in turn, and all others to
/// none.
pub(crate) fn deal(
    alloc: Global,
    parts: Vec<TenantPart>,
    places: &[Option<usize>],
    workers: u8,
) -> Result<Dealt, AllocError>
    requires { 0 < workers }
    ensures { IfOk result (λ dealt. IsDealt workers places.now parts.items dealt.lanes.items dealt.others.items) }
{
    let mut slots = slots_of(alloc, parts)?;
    let lanes = deal_slots(alloc, &mut slots, places, workers)?;
    Ok(Dealt {
        lanes,
        others: slots,
    })
}

/// Deals what is in the slots to lanes.
fn deal_slots(
    alloc: Global,
    slots: &mut [Option<TenantPart>],
    places: &[Option<usize>],
    workers: u8,
) -> Result<Vec<Lane>, AllocError>
    requires { 0 < workers }
    ensures { IfOk result (λ lanes. (parts : List TenantState) → slots.old ≡ map Some parts → IsDealt workers places.now parts lanes.items slots.new) }
{
    let (numbers, count) = lane_numbers(alloc, places, slots.len(), workers)?;
    let mut lanes = Vec::new(alloc);
    for number in 0..count {
        let own = pick(alloc, slots, &numbers, number)?;
        lanes.push(Lane { number, slots: own })?;
    }
    Ok(lanes)
}
