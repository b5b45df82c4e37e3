//! What the steps print that change nothing, and the text of their lines.

ghost use Rattle.std.specs.Prelude.{◌≡◌, IfOk, flat_map, string_bytes};
ghost use Rattle.world_script.specs.Printing.{Audits, Drains, Shows, Upgrades, digest_line, digest_printed, ids_of, line_printed, no_state_line, state_line, state_printed, status_line, status_printed, upgraded_line};

use crate::auditing::line_of_audit;
use crate::draining::line_of_drained;
use crate::stage::Stage;
use drained_records::{State, StateFault, Status};
use host_types::ReplicaId;
use script_text::Printout;
use std::alloc::{AllocError, Global};
use std::sync::Arc;

/// What is printed of each replica.
#[derive(Clone, Copy)]
enum ReplicaLine {
    /// Where a correct one stands.
    Status,
    /// The number and the digest of a correct one's state.
    Digest,
}

impl Stage {
    /// What a step prints that changes nothing.
    pub(crate) fn printout_text(&self, printout: &Printout) -> Result<String, AllocError>
        ensures { IfOk result (λ text. Shows self.now printout.now (string_bytes text)) }
    {
        match printout {
            Printout::Queue(filter) => self.queue.lines(filter),
            Printout::Show => self.lines_of_replicas(ReplicaLine::Status),
            Printout::Digest => self.lines_of_replicas(ReplicaLine::Digest),
            Printout::State(id) => self.state_text(*id),
            Printout::Upgrade(bytes) => self.upgrade_text(bytes.as_slice()),
            Printout::Audit => self.audit_text(),
            Printout::Drained => self.drained_text(),
        }
    }

    /// The lines of all replicas, ids ascending.
    fn lines_of_replicas(&self, line: ReplicaLine) -> Result<String, AllocError>
        ensures { IfOk result (λ text. string_bytes text ≡ flat_map (line_printed line self.now.world) (ids_of self.now.world.config)) }
    {
        let mut text = String::new(self.alloc);
        for id in 0..self.config.replica_count() {
            text.push_str(&self.line_of_replica(line, ReplicaId(id))?)?;
        }
        Ok(text)
    }

    fn line_of_replica(&self, line: ReplicaLine, id: ReplicaId) -> Result<String, AllocError>
        ensures { IfOk result (λ text. string_bytes text ≡ line_printed line self.now.world id) }
    {
        match line {
            ReplicaLine::Status => self.status_text(id),
            ReplicaLine::Digest => self.digest_text(id),
        }
    }

    fn status_text(&self, id: ReplicaId) -> Result<String, AllocError>
        ensures { IfOk result (λ text. string_bytes text ≡ status_printed self.now.world id) }
    {
        match self.world.status(id) {
            Some(status) => line_of_status(self.alloc, id, &status),
            None => Ok(String::new(self.alloc)),
        }
    }

    fn digest_text(&self, id: ReplicaId) -> Result<String, AllocError>
        ensures { IfOk result (λ text. string_bytes text ≡ digest_printed self.now.world id) }
    {
        match self.world.state(id) {
            Some(state) => line_of_digest(self.alloc, id, state),
            None => Ok(String::new(self.alloc)),
        }
    }

    /// The bytes of a correct replica's state.
    fn state_text(&self, id: ReplicaId) -> Result<String, AllocError>
        ensures { IfOk result (λ text. string_bytes text ≡ state_printed self.now.world id) }
    {
        match self.world.state(id) {
            Some(state) => line_of_state(self.alloc, id, state),
            None => Ok(String::new(self.alloc)),
        }
    }

    /// The canonical encoding of the state that bytes encode, or that they encode none.
    fn upgrade_text(&self, bytes: &[u8]) -> Result<String, AllocError>
        ensures { IfOk result (λ text. Upgrades self.now.world.config bytes.now (string_bytes text)) }
    {
        match State::from_bytes(self.alloc, Arc::try_clone(&self.config)?, bytes) {
            Ok(state) => line_of_upgrade(self.alloc, &state),
            Err(StateFault::BadState) => line_of_no_state(self.alloc),
            Err(StateFault::Memory) => Err(AllocError),
        }
    }

    /// Whether the correct replicas' rows agree so far.
    fn audit_text(&self) -> Result<String, AllocError>
        ensures { IfOk result (λ text. Audits self.now.world (string_bytes text)) }
    {
        line_of_audit(self.alloc, &self.world.audit())
    }

    /// Whether each message has come that a correct replica gave for another one.
    fn drained_text(&self) -> Result<String, AllocError>
        ensures { IfOk result (λ text. Drains self.now.world (string_bytes text)) }
    {
        line_of_drained(self.alloc, &self.world.records()?)
    }
}

/// Where a replica stands.
fn line_of_status(alloc: Global, id: ReplicaId, status: &Status) -> Result<String, AllocError>
    ensures { IfOk result (λ line. string_bytes line ≡ status_line id status.now) }
{
    let id = id.0;
    if let Some(halt) = status.halted {
        let number = halt.number();
        return format!(in alloc; "replica {id} halted {number} {halt}\n");
    }
    let view = status.view.0;
    let active = if status.active { "active" } else { "changing" };
    let low = status.low.0;
    let executed = status.executed.0;
    format!(in alloc; "replica {id} view {view} {active} low {low} executed {executed}\n")
}

/// The number and the digest of a replica's state.
fn line_of_digest(alloc: Global, id: ReplicaId, state: &State) -> Result<String, AllocError>
    ensures { IfOk result (λ line. string_bytes line ≡ digest_line id state.now) }
{
    let id = id.0;
    let number = state.number().0;
    let digest = hex::encode(alloc, state.digest().0)?;
    format!(in alloc; "digest {id} {number} {digest}\n")
}

/// The bytes of a replica's state.
fn line_of_state(alloc: Global, id: ReplicaId, state: &State) -> Result<String, AllocError>
    ensures { IfOk result (λ line. string_bytes line ≡ state_line id state.now) }
{
    let id = id.0;
    let bytes = state.to_bytes()?;
    let digits = hex::encode(alloc, bytes.as_slice())?;
    format!(in alloc; "state {id} {digits}\n")
}

/// The canonical encoding of a state.
fn line_of_upgrade(alloc: Global, state: &State) -> Result<String, AllocError>
    ensures { IfOk result (λ line. string_bytes line ≡ upgraded_line state.now) }
{
    let bytes = state.to_bytes()?;
    let digits = hex::encode(alloc, bytes.as_slice())?;
    format!(in alloc; "upgraded {digits}\n")
}

/// That bytes are no state.
fn line_of_no_state(alloc: Global) -> Result<String, AllocError>
    ensures { IfOk result (λ line. string_bytes line ≡ no_state_line) }
{
    String::from_str(alloc, "refused BadState\n")
}
