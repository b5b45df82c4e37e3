//! Whether the records of replicas agree, and what they agree on.

ghost use Rattle.std.specs.Prelude.{◌≡◌, ◌++◌, List, map, IfOk, OnOk};
ghost use Rattle.replica_journal.specs.Done.{Done};
ghost use Rattle.byz_world.specs.Audits.{IsAudit, done_in, rises};
ghost use Rattle.byz_world.specs.Noting.{IsMadeOf, IsNoted};

use crate::audit_fault::AuditFault;
use crate::history::History;
use crate::noted::{Noted, note_all};
use host_types::ReplicaId;
use replica_journal::{Done, Row};
use std::alloc::{AllocError, Global};

/// The one history of these records, or the first fault: `Differ`, then `Gap`, then `Unrecorded`.
pub fn audit(alloc: Global, records: &[(ReplicaId, Vec<Row>)]) -> Result<History, AuditFault>
    ensures { IsAudit (map (λ r. r.1.items) records.now) result }
{
    let mut noted = Noted::new(alloc);
    let mut all_rise = true;
    for record in records {
        let done = all_done(alloc, &record.1)?;
        note_all(&mut noted, alloc, &done)?;
        all_rise = all_rise && rises(&done);
    }
    if !all_rise {
        return Err(AuditFault::Gap);
    }
    history_of(alloc, noted)
}

/// What a record did, in order.
fn all_done(alloc: Global, rows: &[Row]) -> Result<Vec<&Done>, AllocError>
    ensures { IfOk result (λ v. map (λ d. d.now) v.items ≡ done_in rows.now) }
{
    let mut all = Vec::new(alloc);
    for row in rows {
        push_all(&mut all, row.done())?;
    }
    Ok(all)
}

/// Adds what a row did.
fn push_all<'a>(all: &mut Vec<&'a Done>, done: &'a [Done]) -> Result<(), AllocError>
    ensures { OnOk result (map (λ d. d.now) all.new.items ≡ map (λ d. d.now) all.old.items ++ done.now) }
{
    for item in done {
        all.push(item)?;
    }
    Ok(())
}

/// Whether executions rise by one, from 0 or from the number last installed.
fn rises(done: &[&Done]) -> bool
    ensures { result ≡ rises (map (λ d. d.now) done.now) }
{
    let mut last: u64 = 0;
    for item in done {
        match item {
            Done::Executed { number, .. } => {
                if number.0.checked_sub(1) != Some(last) {
                    return false;
                }
                last = number.0;
            }
            Done::Installed { number, .. } => last = number.0,
        }
    }
    true
}

/// The history of what was noted; `Unrecorded` where a number up to the greatest was not executed.
fn history_of(alloc: Global, mut noted: Noted) -> Result<History, AuditFault>
    ensures { (all : List Done) → IsNoted all noted → IsMadeOf all result }
{
    let mut entries = Vec::new(alloc);
    for last in 0..noted.greatest {
        match noted.executed.remove(&(last + 1)) {
            Some(entry) => entries.push(entry)?,
            None => return Err(AuditFault::Unrecorded),
        }
    }
    Ok(History::new(entries))
}
