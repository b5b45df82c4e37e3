//! What becomes of a replica's standing.

ghost use Rattle.std.specs.Prelude.{◌≡◌, ◌++◌, OnOk};
ghost use Rattle.world_lines.specs.Changes.{changes};

use crate::happening::Happening;
use host_types::ReplicaId;
use replica_core::Status;
use std::alloc::{AllocError, Global};

/// Where a replica stood and stands.
#[derive(Clone, Copy, Debug, PartialEq, Eq)]
pub struct Standing {
    pub at: ReplicaId,
    pub before: Status,
    pub after: Status,
}

/// Adds what changed of a replica's standing: it left a view, entered one, raised its low mark, halted, in this order.
pub fn changes(standing: &Standing, happened: &mut Vec<Happening>) -> Result<(), AllocError>
    ensures { OnOk result (happened.new.items ≡ happened.old.items ++ changes standing.now) }
{
    let Standing { at, before, after } = *standing;
    if !after.active && (before.active || before.view != after.view) {
        happened.push(Happening::Left {
            at,
            view: after.view,
        })?;
    }
    if after.active && (!before.active || before.view != after.view) {
        happened.push(Happening::Entered {
            at,
            view: after.view,
        })?;
    }
    if before.low != after.low {
        happened.push(Happening::Raised { at, low: after.low })?;
    }
    if let Some(halt) = after.halted {
        if before.halted.is_none() {
            happened.push(Happening::Halted { at, halt })?;
        }
    }
    Ok(())
}
