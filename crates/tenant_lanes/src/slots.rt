//! Slots, one for each tenant or request, which lanes fill.

ghost use Rattle.std.specs.Prelude.{◌≡◌, ◌+◌, ◌<◌, ◌^◌, All, IfOk, IsSome, Some, None, length, map, replicate};
ghost use Rattle.tenant_lanes.specs.Runs.{filled};
ghost use Rattle.tenant_lanes.specs.Settled.{outcome_of, settled};

use host_types::SeqNo;
use service_core::Outcome;
use std::alloc::{AllocError, Global};

/// A slot for each item.
pub(crate) fn slots_of<T: Drop>(alloc: Global, items: Vec<T>) -> Result<Vec<Option<T>>, AllocError>
    ensures { IfOk result (λ slots. slots.items ≡ map Some items.items) }
{
    let mut slots = Vec::new(alloc);
    for item in items {
        slots.push(Some(item))?;
    }
    Ok(slots)
}

/// So many slots with nothing.
pub(crate) fn empty_slots<T: Drop>(
    alloc: Global,
    count: usize,
) -> Result<Vec<Option<T>>, AllocError>
    ensures { IfOk result (λ slots. slots.items ≡ replicate count None) }
{
    let mut slots = Vec::new(alloc);
    for _ in 0..count {
        slots.push(None)?;
    }
    Ok(slots)
}

/// Puts into the slots what others have.
pub(crate) fn fill<T: Drop>(slots: &mut [Option<T>], mut from: Vec<Option<T>>)
    requires { length from.items ≡ length slots.old }
    ensures { slots.new ≡ filled from.items slots.old }
{
    while let Some(slot) = from.pop() {
        if slot.is_some() {
            slots[from.len()] = slot;
        }
    }
}

/// What is in the slots, of which each has something.
pub(crate) fn items_of<T: Drop>(alloc: Global, slots: Vec<Option<T>>) -> Result<Vec<T>, AllocError>
    requires { All IsSome slots.items }
    ensures { IfOk result (λ items. map Some items.items ≡ slots.items) }
{
    let mut items = Vec::new(alloc);
    for slot in slots {
        match slot {
            Some(item) => items.push(item)?,
            None => unreachable!(),
        }
    }
    Ok(items)
}

/// The outcomes of all requests behind this number: a request that no lane took was null.
pub(crate) fn settled(
    alloc: Global,
    number: u64,
    slots: Vec<Option<Outcome>>,
) -> Result<Vec<Outcome>, AllocError>
    requires { number + length slots.items < 2 ^ 48 }
    ensures { IfOk result (λ outcomes. outcomes.items ≡ settled number slots.items) }
{
    let mut outcomes = Vec::new(alloc);
    let mut number = number;
    for slot in slots {
        number += 1;
        outcomes.push(outcome_of(number, slot))?;
    }
    Ok(outcomes)
}

/// The outcome at this number.
fn outcome_of(number: u64, slot: Option<Outcome>) -> Outcome
    ensures { result ≡ outcome_of number slot }
{
    match slot {
        Some(outcome) => outcome,
        None => Outcome {
            number: SeqNo(number),
            reply: None,
            kept: false,
        },
    }
}
