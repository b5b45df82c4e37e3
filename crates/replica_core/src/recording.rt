//! What is recorded of a message.

ghost use Rattle.std.specs.Prelude.{◌≡◌, ◌==◌, if◌then◌else◌, Some, None, map, List, IfOk, IfErr, OnOk, IsSome};
ghost use Rattle.pbft_codec.specs.declared.body.Body.TheVariants as bodies;
ghost use Rattle.pbft_model.specs.Words.{Checkpoint, NewView, RequestBody, Signed, Snapshot, ViewChange};
ghost use Rattle.pbft_model.specs.Acts.{add_checkpoint, add_checkpoints, recorded};
ghost use Rattle.pbft_model.specs.Rules.{IsReading, IsReadingOf};
ghost use Rattle.seal.specs.Parts.{as_message};
ghost use Rattle.seal.specs.Votes.{vote_of};
ghost use Rattle.checkpoints.specs.Kept.{checkpoint_of};
ghost use Rattle.replica_stores.specs.Stores.{IsRequest};
ghost use Rattle.replica_core.specs.declared.halt.Halt.TheVariants.{Memory};
ghost use Rattle.pbft_model.specs.Setup.{setup_of};
ghost use Rattle.replica_stores.specs.Messages.{IsNewView, IsViewChange};

use crate::halt::{Halt, unless_memory};
use crate::kept::Core;
use checkpoints::{CheckpointFault, Checkpoints};
use host_types::{SeqNo, View};
use pbft_codec::{Body, Snapshot};
use replica_stores::{valid, valid_new_view};
use seal::{Checked, CheckedList, nested_checkpoints};
use std::sync::Arc;
use tenant_lanes::{State, StateFault};

impl Core {
    /// Records a message. Own messages are recorded as they are sent.
    pub(crate) fn record(&mut self, message: &Checked) -> Result<(), Halt>
        requires config { message.now.config ≡ self.old.config }
        ensures recorded { OnOk result (self.new ≡ record self.old { core = recorded (setup_of self.old.config) self.old.core message.now.message message.now.message.body }) }
        ensures memory { IfErr result (λ halt. halt ≡ Memory) }
    {
        match message.body() {
            Body::Request(_) => self.record_request(message),
            Body::PrePrepare(_) | Body::Prepare(_) | Body::Commit(_) => self.record_vote(message),
            Body::Checkpoint(_) => self.record_checkpoint(message),
            Body::ViewChange(change) => self.record_change(message, change.view),
            Body::NewView(_) => self.record_new_view(message),
            Body::Reply(_) | Body::Fetch(_) | Body::Snapshot(_) => Ok(()),
        }
    }

    /// A request is kept by its digest, in the order of receipt.
    fn record_request(&mut self, message: &Checked) -> Result<(), Halt>
        requires config { message.now.config ≡ self.old.config }
        requires kind { IsRequest message.now.message.body }
        ensures recorded { (b : RequestBody) → message.now.message.body ≡ bodies.Request b
            → OnOk result (self.new ≡ record self.old { core = recorded (setup_of self.old.config) self.old.core message.now.message (bodies.Request b) }) }
        ensures memory { IfErr result (λ halt. halt ≡ Memory) }
    {
        self.requests.add(message)?;
        Ok(())
    }

    /// A vote is recorded if its view is not below the replica's and its number lies between the marks,
    /// and in the active view above the floor: the first of each kind, view, number and signer counts.
    pub(crate) fn record_vote(&mut self, message: &Checked) -> Result<(), Halt>
        requires config { message.now.config ≡ self.old.config }
        requires vote { IsSome (vote_of message.now.message) }
        ensures recorded { OnOk result (self.new ≡ record self.old { core = recorded (setup_of self.old.config) self.old.core message.now.message message.now.message.body }) }
        ensures memory { IfErr result (λ halt. halt ≡ Memory) }
    {
        unless_memory(self.log.accept(message))
    }

    /// A Checkpoint above the low mark is recorded: the first of each number and signer counts.
    pub(crate) fn record_checkpoint(&mut self, message: &Checked) -> Result<(), Halt>
        requires config { message.now.config ≡ self.old.config }
        requires kind { IsSome (checkpoint_of message.now.message) }
        ensures recorded { OnOk result (self.new ≡ record self.old { core = recorded (setup_of self.old.config) self.old.core message.now.message message.now.message.body }) }
        ensures memory { IfErr result (λ halt. halt ≡ Memory) }
    {
        note(&mut self.checkpoints, message)
    }

    /// The Checkpoints inside a valid ViewChange count as received, and the ViewChange itself is
    /// recorded for an awaited view: the first for a view and signer counts.
    fn record_change(&mut self, message: &Checked, view: View) -> Result<(), Halt>
        requires config { message.now.config ≡ self.old.config }
        requires kind { IsViewChange message.now.message.body }
        ensures recorded { (b : ViewChange) → message.now.message.body ≡ bodies.ViewChange b → b.view ≡ view
            → OnOk result (self.new ≡ record self.old { core = recorded (setup_of self.old.config) self.old.core message.now.message (bodies.ViewChange b) }) }
        ensures memory { IfErr result (λ halt. halt ≡ Memory) }
    {
        if valid(&self.config, message).is_err() {
            return Ok(());
        }
        let inside = nested_checkpoints(self.alloc, message)?;
        note_all(&mut self.checkpoints, &inside)?;
        if !self.is_awaited(view) {
            return Ok(());
        }
        self.changes.keep(message)?;
        Ok(())
    }

    /// The Checkpoints inside the ViewChanges of a valid NewView count as received.
    fn record_new_view(&mut self, message: &Checked) -> Result<(), Halt>
        requires config { message.now.config ≡ self.old.config }
        requires kind { IsNewView message.now.message.body }
        ensures recorded { (b : NewView) → message.now.message.body ≡ bodies.NewView b
            → OnOk result (self.new ≡ record self.old { core = recorded (setup_of self.old.config) self.old.core message.now.message (bodies.NewView b) }) }
        ensures memory { IfErr result (λ halt. halt ≡ Memory) }
    {
        if valid_new_view(&self.config, message).is_err() {
            return Ok(());
        }
        let inside = nested_checkpoints(self.alloc, message)?;
        note_all(&mut self.checkpoints, &inside)
    }

    /// The reading of a message as a state: that of a Snapshot is the state that its bytes encode at its
    /// number, if there is one.
    pub(crate) fn reading_of(&self, message: &Checked) -> Result<Option<State>, Halt>
        ensures reading { IfOk result (IsReading (setup_of self.now.config) message.now.message.body) }
        ensures memory { IfErr result (λ halt. halt ≡ Memory) }
    {
        match message.body() {
            Body::Snapshot(snapshot) => self.reading_in(snapshot),
            _ => Ok(None),
        }
    }

    fn reading_in(&self, snapshot: &Snapshot) -> Result<Option<State>, Halt>
        ensures reading { IfOk result (IsReadingOf (setup_of self.now.config) snapshot.now) }
        ensures memory { IfErr result (λ halt. halt ≡ Memory) }
    {
        let config = Arc::try_clone(&self.config)?;
        match State::from_canonical(self.alloc, config, snapshot.state.as_slice()) {
            Ok(state) => Ok(if_at(state, snapshot.number)),
            Err(StateFault::BadState) => Ok(None),
            Err(StateFault::Memory) => Err(Halt::Memory),
        }
    }
}

/// The state, if it is that after this number.
fn if_at(state: State, number: SeqNo) -> Option<State>
    ensures { result ≡ (if state.number == number.0 then Some state else None) }
{
    if state.number() == number {
        Some(state)
    } else {
        None
    }
}

/// Notes a Checkpoint. One that is refused is not recorded; only running out of memory stops the replica.
fn note(table: &mut Checkpoints, message: &Checked) -> Result<(), Halt>
    requires config { message.now.config ≡ table.old.config }
    requires kind { IsSome (checkpoint_of message.now.message) }
    ensures noted { (m : Signed Checkpoint) → message.now.message ≡ as_message bodies.Checkpoint m
        → OnOk result (table.new ≡ record table.old { checkpoints = add_checkpoint table.old.low m table.old.checkpoints }) }
    ensures alone { table.new ≡ record table.old { checkpoints = table.new.checkpoints } }
    ensures memory { IfErr result (λ halt. halt ≡ Memory) }
{
    match table.note(message) {
        Err(CheckpointFault::Memory) => Err(Halt::Memory),
        _ => Ok(()),
    }
}

/// Notes Checkpoints, in order.
fn note_all(table: &mut Checkpoints, list: &CheckedList) -> Result<(), Halt>
    requires config { list.now.config ≡ table.old.config }
    requires kinds { (ms : List (Signed Checkpoint)) × (list.now.messages ≡ map (as_message bodies.Checkpoint) ms) }
    ensures noted { (ms : List (Signed Checkpoint)) → list.now.messages ≡ map (as_message bodies.Checkpoint) ms
        → OnOk result (table.new ≡ record table.old { checkpoints = add_checkpoints table.old.low ms table.old.checkpoints }) }
    ensures alone { table.new ≡ record table.old { checkpoints = table.new.checkpoints } }
    ensures memory { IfErr result (λ halt. halt ≡ Memory) }
{
    for message in list.as_slice() {
        note(table, message)?;
    }
    Ok(())
}
