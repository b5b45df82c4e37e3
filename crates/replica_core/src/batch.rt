//! How committed requests are executed together, those of different tenants at the same time.

ghost use Rattle.std.specs.Prelude.{◌≡◌, ◌+◌, ◌<◌, ◌≤◌, ◌^◌, ℕ, List, [], ◌∷◌, All, IfOk, IfErr, IfSome, IsSome, OnOk, length, map};
ghost use Rattle.host_types.specs.Configuration.{entry_of};
ghost use Rattle.host_types.specs.declared.Digest.{Digest};
ghost use Rattle.pbft_model.specs.Core.{request_of};
ghost use Rattle.service_model.specs.Steps.{Follows};
ghost use Rattle.service_model.specs.declared.outcome.Outcome.{Outcome};
ghost use Rattle.pbft_model.specs.Setup.{setup_of};
ghost use Rattle.replica_core.specs.declared.halt.Halt.TheVariants.{Memory};
ghost use Rattle.replica_core.specs.Batching.{Ends, IsBatch, IsExecuting, IsReporting, ahead};
ghost use Rattle.replica_core.specs.Replicas.{KeptReplica};
ghost use Rattle.replica_core.specs.Settling.{Comes, HaltsAfter, IsReached};

use crate::halt::Halt;
use crate::kept::Core;
use host_types::{Digest, Gate, Request, SeqNo};
use std::thread::Threads;
use tenant_lanes::{Outcome, apply_all};

impl Core {
    /// Executes the requests that are committed at the numbers behind the last executed one, up to the
    /// next multiple of the checkpoint interval, those of different tenants at the same time, in at most
    /// so many lanes as workers. Each is reported and answered before the next, as if they had been
    /// executed one after another; the last one's reply is left to send.
    pub(crate) fn execute_batch<R: Threads + Sync, G: Gate + Sync>(
        self,
        rt: &R,
        workers: u8,
        gate: &G,
    ) -> Result<Core, Halt>
        requires workers { 0 < workers }
        requires due { IsExecuting (setup_of self.config) self.me self.core }
        requires reached { IsReached (setup_of self.config) self.me self.core }
        ensures done { IfOk result (Comes self) }
        ensures halted { IfErr result (HaltsAfter self) }
    {
        self.numbers();
        let digests = self.committed_batch()?;
        let requests = self.requests_of(&digests)?;
        let (mut core, outcomes) = self.apply_requests(rt, &requests, workers, gate)?;
        core.report_batch(&digests, outcomes)?;
        Ok(core)
    }

    /// The digests that are committed at the numbers behind the last executed one, up to the next multiple
    /// of the checkpoint interval.
    fn committed_batch(&self) -> Result<Vec<Digest>, Halt>
        ensures committed { IfOk result (λ digests. IsBatch (setup_of self.now.config) self.now.core self.now.core.executed digests.items) }
        ensures whole { IfOk result (λ digests. Ends (setup_of self.now.config) self.now.core self.now.core.executed digests.items) }
        ensures low { IfOk result (λ digests. self.now.core.executed + length digests.items < 2 ^ 48) }
        ensures memory { IfErr result (λ halt. halt ≡ Memory) }
    {
        self.numbers();
        let interval = u64::from(self.config.k());
        let mut digests = Vec::new(self.alloc);
        let mut number = self.executed().0;
        while let Some(digest) = self.committed_at(SeqNo(number + 1)) {
            digests.push(digest)?;
            number += 1;
            if number % interval == 0 {
                return Ok(digests);
            }
        }
        Ok(digests)
    }

    /// What these digests stand for.
    fn requests_of(&self, digests: &[Digest]) -> Result<Vec<Option<Request>>, Halt>
        ensures requests { IfOk result (λ rs. rs.items ≡ map (λ d. request_of (setup_of self.now.config) self.now.core d.0) digests.now) }
        ensures listed { IfOk result (λ rs. All (λ o. IfSome o (λ taken. IsSome (entry_of self.now.config.clients taken.client.0))) rs.items) }
        ensures in_range { IfOk result (λ rs. All (λ o. IfSome o (λ taken. (taken.client.0 < 2 ^ 32) × (taken.time < 2 ^ 64))) rs.items) }
        ensures memory { IfErr result (λ halt. halt ≡ Memory) }
    {
        let mut requests = Vec::new(self.alloc);
        for digest in digests {
            requests.push(self.request_of(digest)?)?;
        }
        Ok(requests)
    }

    /// Takes requests as the next numbers, in lanes.
    fn apply_requests<R: Threads + Sync, G: Gate + Sync>(
        self,
        rt: &R,
        requests: &[Option<Request>],
        workers: u8,
        gate: &G,
    ) -> Result<(Core, Vec<Outcome>), Halt>
        requires workers { 0 < workers }
        requires listed { All (λ o. IfSome o (λ taken. IsSome (entry_of self.config.clients taken.client.0))) requests.now }
        requires numbers { self.core.executed + length requests.now < 2 ^ 48 }
        ensures followed { IfOk result (λ r. Follows self.core.service requests.now r.0.core.service r.1.items) }
        ensures rest { IfOk result (λ r. r.0 ≡ ahead r.0.core.service self) }
        ensures memory { IfErr result (λ halt. halt ≡ Memory) }
    {
        let Core {
            alloc,
            config,
            id,
            signer,
            log,
            basis,
            checkpoints,
            service,
            requests: held,
            changes,
            kept,
            sent,
            step,
        } = self;
        let (service, outcomes) = apply_all(rt, alloc, service, requests, workers, gate)?;
        let core = Core {
            alloc,
            config,
            id,
            signer,
            log,
            basis,
            checkpoints,
            service,
            requests: held,
            changes,
            kept,
            sent,
            step,
        };
        Ok((core, outcomes))
    }

    /// Reports executions whose state is the replica's already, one after another: each behind the reply
    /// of the one before it.
    fn report_batch(&mut self, digests: &[Digest], outcomes: Vec<Outcome>) -> Result<(), Halt>
        requires lengths { length outcomes.items ≡ length digests.now }
        requires short { All (λ o. IfSome o.reply (λ r. (length r.result ≤ 265) × (r.number.0 < 2 ^ 48))) outcomes.items }
        ensures reported { OnOk result ((k : KeptReplica) → IsReporting k self.old 0 digests.now outcomes.items → IsReporting k self.new (length digests.now) [] []) }
        ensures halted { IfErr result (λ halt. (k : KeptReplica) → IsReporting k self.old 0 digests.now outcomes.items → HaltsAfter k halt) }
    {
        let mut index = 0;
        for outcome in outcomes {
            self.report_next(digests[index], outcome)?;
            index += 1;
        }
        Ok(())
    }

    /// Sends the reply that is owed, and reports an execution.
    fn report_next(&mut self, digest: Digest, outcome: Outcome) -> Result<(), Halt>
        requires short { IfSome outcome.reply (λ r. (length r.result ≤ 265) × (r.number.0 < 2 ^ 48)) }
        ensures reported { OnOk result ((k : KeptReplica) (many : ℕ) (ds : List Digest) (os : List Outcome) → IsReporting k self.old many (digest ∷ ds) (outcome ∷ os) → IsReporting k self.new (many + 1) ds os) }
        ensures halted { IfErr result (λ halt. (k : KeptReplica) (many : ℕ) (ds : List Digest) (os : List Outcome) → IsReporting k self.old many (digest ∷ ds) (outcome ∷ os) → HaltsAfter k halt) }
    {
        self.send_owed()?;
        self.report(outcome.number, digest, outcome)?;
        self.note_act();
        let _ = self.signer.leaves_left();
        Ok(())
    }
}
