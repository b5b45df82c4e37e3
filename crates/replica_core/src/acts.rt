//! What a replica does: one method for each act.

ghost use Rattle.std.specs.Prelude.{◌≡◌, ◌+◌, ◌<◌, ◌≤◌, ◌^◌, List, ℕ, length, true, false, Some, None, IsSome, IfSome, IfOk, IfErr, OnOk};
ghost use Rattle.host_types.specs.Configuration.{entry_of};
ghost use Rattle.pbft_codec.specs.declared.body.Body.TheVariants as bodies;
ghost use Rattle.pbft_codec.specs.declared.body.fetch.Fetch.TheVariants as fetches;
ghost use Rattle.pbft_model.specs.Acts.{All, ToClient, ToReplica, Relay, discarded_to};
ghost use Rattle.pbft_model.specs.Core.{held_with, proof_of, request_of};
ghost use Rattle.pbft_model.specs.Certificates.{is_stable};
ghost use Rattle.pbft_model.specs.Duties.{due_install, due_reply, leads, reply_body};
ghost use Rattle.pbft_model.specs.Rows.{result_of};
ghost use Rattle.pbft_model.specs.Rules.{IsStateAt, pre_prepare_of};
ghost use Rattle.pbft_model.specs.Sequential.{IsSound, Service, encoded, last_reply_of};
ghost use Rattle.pbft_model.specs.Tables.{at, number_key};
ghost use Rattle.pbft_model.specs.Words.{Body, Reply, RequestBody, Signed, Snapshot};
ghost use Rattle.seal.specs.Parts.{as_message};
ghost use Rattle.sha2.specs.Sha256.{sha256};
ghost use Rattle.pbft_model.specs.Setup.{setup_of};
ghost use Rattle.replica_core.specs.declared.halt.Halt.TheVariants.{Memory};
ghost use Rattle.replica_core.specs.Doing.{Does, Executes, Fulfilled, IsShortOf, Says, SendsOwed, reported};

use crate::halt::Halt;
use crate::kept::{Core, null_digest};
use crate::row::{Dest, Done};
use host_types::{Bytes, ClientId, Digest, ReplicaId, Reply, Request, SeqNo, View};
use pbft_codec::{
    Body, Checkpoint, Commit, Fetch, PrePrepare, Prepare, ReplyBody, Snapshot, TryClone,
};
use replica_stores::Proposal;
use std::alloc::Global;
use tenant_lanes::Outcome;

impl Core {
    // ---- the normal case (section 4.2)

    pub(crate) fn send_pre_prepare(&mut self, number: SeqNo, digest: Digest) -> Result<(), Halt>
        requires number { number.0 < 2 ^ 48 }
        requires leads { leads (setup_of self.old.config) self.old.me self.old.core ≡ true }
        ensures sent { OnOk result (Says self.old All (bodies.PrePrepare (pre_prepare_of (record { view = self.old.core.view; number = number.0; digest = digest.0 }))) self.new) }
        ensures short { IfErr result (IsShortOf self.old 1) }
    {
        let view = self.view();
        let message = self.send(
            Dest::All,
            Body::PrePrepare(PrePrepare {
                view,
                number,
                digest,
            }),
        )?;
        self.record_vote(&message)?;
        self.note_proposal(Proposal {
            view,
            number,
            digest,
        })
    }

    pub(crate) fn send_prepare(&mut self, number: SeqNo, digest: Digest) -> Result<(), Halt>
        requires number { number.0 < 2 ^ 48 }
        requires follows { leads (setup_of self.old.config) self.old.me self.old.core ≡ false }
        ensures sent { OnOk result (Says self.old All (bodies.Prepare (record { view = record { 0 = self.old.core.view }; number = number; digest = digest })) self.new) }
        ensures short { IfErr result (IsShortOf self.old 1) }
    {
        let view = self.view();
        let message = self.send(
            Dest::All,
            Body::Prepare(Prepare {
                view,
                number,
                digest,
            }),
        )?;
        self.record_vote(&message)?;
        self.note_prepare(number)
    }

    pub(crate) fn send_commit(&mut self, number: SeqNo, digest: Digest) -> Result<(), Halt>
        requires number { number.0 < 2 ^ 48 }
        ensures sent { OnOk result (Says self.old All (bodies.Commit (record { view = record { 0 = self.old.core.view }; number = number; digest = digest })) self.new) }
        ensures short { IfErr result (IsShortOf self.old 1) }
    {
        let view = self.view();
        let message = self.send(
            Dest::All,
            Body::Commit(Commit {
                view,
                number,
                digest,
            }),
        )?;
        self.record_vote(&message)?;
        self.note_commit(number)
    }

    /// Executes the request of this digest at the next number. At a multiple of the interval the state
    /// after it is kept.
    pub(crate) fn execute(&mut self, number: SeqNo, digest: Digest) -> Result<(), Halt>
        requires sound { IsSound self.old.core.service }
        requires next { number.0 ≡ self.old.core.executed + 1 }
        requires number { number.0 < 2 ^ 48 }
        ensures executed { OnOk result (Executes self.old number.0 digest.0 self.new) }
        ensures memory { IfErr result (λ halt. halt ≡ Memory) }
    {
        let _ = &self.service;
        let request = self.request_of(&digest)?;
        let outcome = self.take_next(request.as_ref())?;
        self.report(number, digest, outcome)
    }

    /// Notes what came of the request of this digest at a number, and what that leaves to send. At a
    /// multiple of the interval the state is kept.
    pub(crate) fn report(
        &mut self,
        number: SeqNo,
        digest: Digest,
        outcome: Outcome,
    ) -> Result<(), Halt>
        requires short { IfSome outcome.reply (λ r. (length r.result ≤ 265) × (r.number.0 < 2 ^ 48)) }
        ensures reported { OnOk result (self.new ≡ reported self.old number.0 digest.0 outcome.reply) }
        ensures memory { IfErr result (λ halt. halt ≡ Memory) }
    {
        let result = result_of(self.alloc, &outcome)?;
        self.note_done(Done::Executed {
            number,
            digest,
            result,
        })?;
        let is_multiple = self.keep_if_multiple(number)?;
        let Outcome { reply, .. } = outcome;
        self.owe(reply, is_multiple);
        Ok(())
    }

    /// What a digest stands for: nothing for the null request.
    pub(crate) fn request_of(&self, digest: &Digest) -> Result<Option<Request>, Halt>
        ensures request { IfOk result (λ o. o ≡ request_of (setup_of self.now.config) self.now.core digest.now.0) }
        ensures listed { IfOk result (λ o. IfSome o (λ taken. IsSome (entry_of self.now.config.clients taken.client.0))) }
        ensures in_range { IfOk result (λ o. IfSome o (λ taken. (taken.client.0 < 2 ^ 32) × (taken.time < 2 ^ 64))) }
        ensures memory { IfErr result (λ halt. halt ≡ Memory) }
    {
        if *digest == null_digest() {
            return Ok(None);
        }
        let Some(message) = self.requests.find(digest) else {
            return Ok(None);
        };
        let Body::Request(request) = message.body() else {
            return Ok(None);
        };
        Ok(Some(Request {
            client: ClientId(message.signer().1),
            time: request.time,
            op: request.op.try_clone(self.alloc)?,
        }))
    }

    // ---- replies

    /// Sends the reply of the number just executed.
    pub(crate) fn send_reply(&mut self) -> Result<(), Halt>
        requires due { IsSome self.old.core.reply_due }
        ensures sent { OnOk result (Fulfilled self.old (due_reply self.old.me self.old.core self.old.core.reply_due) self.new) }
        ensures short { IfErr result (IsShortOf self.old 1) }
    {
        self.need_leaves(1)?;
        let Some(reply) = &self.step.owed.reply else {
            unreachable!();
        };
        let client = reply.client;
        let body = reply_body(self.alloc, self.view(), reply)?;
        self.send(Dest::Client(client), body)?;
        self.note_reply();
        Ok(())
    }

    /// Sends the reply that is owed, if one is, and notes that.
    pub(crate) fn send_owed(&mut self) -> Result<(), Halt>
        ensures sent { OnOk result (SendsOwed self.old self.old.core.reply_due self.new) }
        ensures short { IfErr result (λ halt. IsSome self.old.core.reply_due × IsShortOf self.old 1 halt) }
    {
        if self.step.owed.reply.is_none() {
            return Ok(());
        }
        self.send_reply()?;
        self.note_act();
        Ok(())
    }

    /// Sends a client its last reply again.
    pub(crate) fn answer_again(&mut self, client: ClientId) -> Result<(), Halt>
        requires sound { IsSound self.old.core.service }
        requires kept { IsSome (last_reply_of self.old.core.service client.0) }
        ensures sent { (last : Reply) → last_reply_of self.old.core.service client.0 ≡ Some last → OnOk result (Says self.old (ToClient client.0) (reply_body self.old.core.view last) self.new) }
        ensures short { IfErr result (IsShortOf self.old 1) }
    {
        let Some(reply) = self.service.last_reply(client) else {
            unreachable!();
        };
        let body = reply_body(self.alloc, self.view(), reply)?;
        self.send(Dest::Client(client), body)?;
        self.note_reply();
        Ok(())
    }

    // ---- what others lack

    /// Passes on a held request.
    pub(crate) fn relay(&mut self, digest: &Digest, asker: ReplicaId) -> Result<(), Halt>
        requires held { IsSome (held_with (setup_of self.old.config) self.old.core.held digest.now.0) }
        ensures given { (m : Signed RequestBody) → held_with (setup_of self.old.config) self.old.core.held digest.now.0 ≡ Some m
            → OnOk result (Does self.old (Relay (ToReplica asker.0) (as_message bodies.Request m)) self.new) }
        ensures memory { IfErr result (λ halt. halt ≡ Memory) }
    {
        let Some(message) = self.requests.find(digest) else {
            unreachable!();
        };
        let message = message.copy()?;
        self.give(Dest::Replica(asker), &message, false)
    }

    /// Sends the snapshot that is kept at a number.
    pub(crate) fn send_snapshot(&mut self, number: SeqNo, asker: ReplicaId) -> Result<(), Halt>
        requires kept { IfSome (at self.old.core.snapshots (number_key number.0)) (λ bytes. length bytes ≤ 5_788_337) }
        requires some { IsSome (at self.old.core.snapshots (number_key number.0)) }
        requires number { number.0 < 2 ^ 48 }
        ensures sent { (bytes : List ℕ) → at self.old.core.snapshots (number_key number.0) ≡ Some bytes
            → OnOk result (Says self.old (ToReplica asker.0) (bodies.Snapshot (record { number = number; state = bytes })) self.new) }
        ensures short { IfErr result (IsShortOf self.old 1) }
    {
        let Some(bytes) = self.checkpoints.snapshot_of(number) else {
            unreachable!();
        };
        let state = Bytes::from_vec(Vec::from_slice(self.alloc, bytes)?);
        self.send(
            Dest::Replica(asker),
            Body::Snapshot(Snapshot { number, state }),
        )?;
        Ok(())
    }

    pub(crate) fn fetch_state(&mut self, number: SeqNo) -> Result<(), Halt>
        requires number { number.0 < 2 ^ 48 }
        ensures sent { OnOk result (Says self.old All (bodies.Fetch (fetches.State number)) self.new) }
        ensures short { IfErr result (IsShortOf self.old 1) }
    {
        self.send(Dest::All, Body::Fetch(Fetch::State(number)))?;
        self.note_asked_state(number)
    }

    pub(crate) fn fetch_request(&mut self, digest: Digest) -> Result<(), Halt>
        ensures sent { OnOk result (Says self.old All (bodies.Fetch (fetches.Request digest)) self.new) }
        ensures short { IfErr result (IsShortOf self.old 1) }
    {
        self.send(Dest::All, Body::Fetch(Fetch::Request(digest)))?;
        self.note_asked_request(digest)
    }

    // ---- checkpoints (section 4.3)

    /// Sends the Checkpoint of the number just executed, with the digest of the snapshot that is kept
    /// there.
    pub(crate) fn send_checkpoint(&mut self) -> Result<(), Halt>
        requires number { self.old.core.executed < 2 ^ 48 }
        requires kept { at self.old.core.snapshots (number_key self.old.core.executed) ≡ Some (encoded self.old.core.service) }
        ensures sent { OnOk result (Says self.old All (bodies.Checkpoint (record { number = record { 0 = self.old.core.executed }; digest = record { 0 = sha256 (encoded self.old.core.service) } })) self.new) }
        ensures short { IfErr result (IsShortOf self.old 1) }
    {
        let number = self.executed();
        let Some(digest) = self.checkpoints.snapshot_digest(number) else {
            unreachable!();
        };
        let body = Body::Checkpoint(Checkpoint { number, digest });
        let message = self.send(Dest::All, body)?;
        self.record_checkpoint(&message)?;
        self.note_checkpoint();
        Ok(())
    }

    /// Installs the state that the Snapshot just taken reads as. No Checkpoint is sent for it.
    pub(crate) fn install(&mut self) -> Result<(), Halt>
        requires due { IsSome (due_install (setup_of self.old.config) self.old.core) }
        requires reads { (m : Signed Body) (b : Snapshot) (state : Service) → self.old.core.taken ≡ Some m → m.body ≡ bodies.Snapshot b → self.old.core.reading ≡ Some state
            → IsStateAt (setup_of self.old.config) b.number.0 b.state state }
        ensures installed { OnOk result (Fulfilled self.old (due_install (setup_of self.old.config) self.old.core) self.new) }
        ensures memory { IfErr result (λ halt. halt ≡ Memory) }
    {
        let _ = self.signer.leaves_left();
        let Some(message) = &self.step.taken else {
            unreachable!();
        };
        let Body::Snapshot(snapshot) = message.body() else {
            unreachable!();
        };
        let number = snapshot.number;
        let bytes = snapshot.state.try_clone(self.alloc)?;
        let digest = self.keep_snapshot(number, bytes)?;
        self.note_done(Done::Installed { number, digest })?;
        self.go_on_from_reading();
        self.rise(number, digest);
        Ok(())
    }

    /// Raises the low mark to a stable number: all at or below it is discarded but the snapshot there. A
    /// request is forgotten whose time is not above its client's last, unless a PrePrepare that stays
    /// names it.
    pub(crate) fn rise(&mut self, number: SeqNo, digest: Digest)
        requires above { self.old.core.low < number.0 }
        requires reached { number.0 ≤ self.old.core.executed }
        requires stable { is_stable self.old.config self.old.core.checkpoints number.0 digest.0 ≡ true }
        ensures { self.new ≡ record self.old { core = discarded_to (setup_of self.old.config) self.old.core number.0 (proof_of (setup_of self.old.config) self.old.core number.0 digest.0) } }
    {
        self.log.discard_to(number);
        self.checkpoints.discard_to(number);
        self.kept.discard_to(number);
        self.requests.forget(&self.service, &self.log);
        self.sent.discard_to(number);
    }
}

/// The body of a reply in a view.
fn reply_body(alloc: Global, view: View, reply: &Reply) -> Result<Body, Halt>
    ensures body { IfOk result (λ body. body ≡ reply_body view.0 reply.now) }
    ensures memory { IfErr result (λ halt. halt ≡ Memory) }
{
    Ok(Body::Reply(ReplyBody {
        view,
        client: reply.client,
        time: reply.time,
        number: reply.number,
        result: reply.result.try_clone(alloc)?,
    }))
}

/// The result of an execution: empty where there is no reply.
fn result_of(alloc: Global, outcome: &Outcome) -> Result<Bytes, Halt>
    ensures result { IfOk result (λ bytes. bytes ≡ result_of outcome.now.reply) }
    ensures memory { IfErr result (λ halt. halt ≡ Memory) }
{
    match &outcome.reply {
        Some(reply) => Ok(reply.result.try_clone(alloc)?),
        None => Ok(Bytes::from_vec(Vec::new(alloc))),
    }
}
