//! What is noted of what replicas did.

ghost use Rattle.std.specs.Prelude.{◌++◌, ◌∷◌, [], map, List, IfErr, OnOk};
ghost use Rattle.replica_journal.specs.Done.{Done};
ghost use Rattle.byz_world.specs.Audits.{SaysOther, SomeDiffer, execution};
ghost use Rattle.byz_world.specs.Noting.{IsClash, IsFirst, IsNoted, IsRefusal};

use crate::audit_fault::AuditFault;
use crate::history::Execution;
use host_types::{Bytes, Digest};
use replica_journal::Done;
use std::alloc::Global;
use std::collections::BTreeMap;

/// What is noted of what replicas did: the first execution and the first installation at each number.
#[derive(Drop)]
pub(crate) struct Noted {
    pub executed: BTreeMap<u64, Execution>,
    pub installed: BTreeMap<u64, Digest>,
    /// The greatest number of all.
    pub greatest: u64,
}

impl Noted {
    /// Nothing is noted.
    pub(crate) fn new(alloc: Global) -> Noted
        ensures { IsNoted [] result }
    {
        Noted {
            executed: BTreeMap::new(alloc),
            installed: BTreeMap::new(alloc),
            greatest: 0,
        }
    }

    /// Notes what a replica did; `Differ` where the first of its number says other.
    pub(crate) fn note(&mut self, alloc: Global, done: &Done) -> Result<(), AuditFault>
        ensures noted { OnOk result ((before : List Done) → IsNoted before self.old → IsNoted (before ++ done.now ∷ []) self.new) }
        ensures fault { IfErr result (λ fault. (before : List Done) → IsNoted before self.old → IsRefusal (SaysOther before done.now) fault) }
    {
        let number = match done {
            Done::Executed {
                number,
                digest,
                result,
            } => {
                note_execution(
                    alloc,
                    &mut self.executed,
                    number.0,
                    digest,
                    result.as_slice(),
                )?;
                number.0
            }
            Done::Installed { number, digest } => {
                note_installation(&mut self.installed, number.0, digest)?;
                number.0
            }
        };
        self.greatest = self.greatest.max(number);
        Ok(())
    }
}

/// Notes an execution; `Differ` where another is noted at its number.
fn note_execution(
    alloc: Global,
    executed: &mut BTreeMap<u64, Execution>,
    number: u64,
    digest: &Digest,
    answer: &[u8],
) -> Result<(), AuditFault>
    ensures noted { OnOk result (IsFirst number (execution digest.now answer.now) executed.old executed.new) }
    ensures fault { IfErr result (IsClash number (execution digest.now answer.now) executed.old) }
{
    match executed.get(&number) {
        Some(first) if first.digest == *digest && first.result.as_slice() == answer => Ok(()),
        Some(_) => Err(AuditFault::Differ),
        None => {
            let result = Bytes::from_vec(Vec::from_slice(alloc, answer)?);
            let digest = *digest;
            executed.insert(number, Execution { digest, result })?;
            Ok(())
        }
    }
}

/// Notes an installation; `Differ` where another is noted at its number.
fn note_installation(
    installed: &mut BTreeMap<u64, Digest>,
    number: u64,
    digest: &Digest,
) -> Result<(), AuditFault>
    ensures noted { OnOk result (IsFirst number digest.now installed.old installed.new) }
    ensures fault { IfErr result (IsClash number digest.now installed.old) }
{
    match installed.get(&number) {
        Some(first) if *first == *digest => Ok(()),
        Some(_) => Err(AuditFault::Differ),
        None => {
            installed.insert(number, *digest)?;
            Ok(())
        }
    }
}

/// Notes what a replica did, one after another; `Differ` at the first that says other than the first of its
/// number.
pub(crate) fn note_all(noted: &mut Noted, alloc: Global, done: &[&Done]) -> Result<(), AuditFault>
    ensures noted { OnOk result ((before : List Done) → IsNoted before noted.old → IsNoted (before ++ map (λ d. d.now) done.now) noted.new) }
    ensures fault { IfErr result (λ fault. (before : List Done) → IsNoted before noted.old → IsRefusal (SomeDiffer (before ++ map (λ d. d.now) done.now) (before ++ map (λ d. d.now) done.now)) fault) }
{
    for item in done {
        noted.note(alloc, item)?;
    }
    Ok(())
}
