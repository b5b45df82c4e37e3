//! Messages that are heard one after another, and whom they blame.

ghost use Rattle.std.specs.Prelude.{◌≡◌, ℕ, List, [], Some, None, MatchResult};
ghost use Rattle.handles.specs.declared.held.Held.TheVariants as kinds;
ghost use Rattle.member_calls.specs.Auditing.{AuditedIn, heard_as};
ghost use Rattle.member_calls.specs.Inside.{config_of};
ghost use Rattle.member_calls.specs.Statuses.{number_of};
ghost use Rattle.member_calls.specs.declared.auditing.Heard.{Heard as HeardSaid};
ghost use Rattle.member_calls.specs.declared.status.Status.TheVariants as statuses;

use crate::status::Status;
use handles::{Audit, Held};
use std::alloc::Global;

/// The place of a message among those that were heard, and whether it blames its signer.
#[repr(C)]
pub struct Heard {
    /// From 0 on.
    pub place: u64,
    /// The place of the first message that its signer contradicts in it; 0 where there is none.
    pub first: u64,
    /// 1 where there is one, else 0.
    pub blames: u32,
}

/// An audit that has heard nothing yet, in a box. The status is `Memory`.
pub fn new_audit(alloc: Global) -> Result<Box<Held>, Status>
    ensures { MatchResult result (λ boxed. boxed.value ≡ kinds.Audit []) (λ status. status ≡ statuses.Memory) }
{
    match Box::new(alloc, Held::Audit(Audit::new(alloc))) {
        Ok(boxed) => Ok(boxed),
        Err(_) => Err(Status::Memory),
    }
}

/// Opens bytes under a configuration, and has an audit hear the message that they are. `heard` is written where the status is
/// `Done` alone; else nothing is changed.
pub fn audit(
    alloc: Global,
    config: &Held,
    held: &mut Held,
    bytes: &[u8],
    heard: &mut Heard,
) -> Status
    ensures { AuditedIn (config_of config.now) (Some held.old) bytes.now (number_of result) heard.old heard.new (Some held.new) }
{
    let Held::Config(config) = config else {
        return Status::NoConfig;
    };
    let Held::Audit(audit) = held else {
        return Status::NoAudit;
    };
    let place = audit.len();
    match audit.hear(alloc, config, bytes) {
        Ok(first) => {
            tell_heard(place, first, heard);
            Status::Done
        }
        Err(fault) => Status::from(fault),
    }
}

/// What is answered where no handle holds an audit.
pub fn no_audit(config: &Held) -> Status
    ensures { (bytes : List ℕ) (heard : HeardSaid) → AuditedIn (config_of config.now) None bytes (number_of result) heard heard None }
{
    match config {
        Held::Config(_) => Status::NoAudit,
        _ => Status::NoConfig,
    }
}

fn tell_heard(place: usize, first: Option<usize>, heard: &mut Heard)
    ensures { heard.new ≡ heard_as place first }
{
    heard.place = place as u64;
    match first {
        Some(first) => {
            heard.first = first as u64;
            heard.blames = 1;
        }
        None => {
            heard.first = 0;
            heard.blames = 0;
        }
    }
}
