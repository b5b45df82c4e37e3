//! What an execution or an installation changes, one part at a time.

ghost use Rattle.std.specs.Prelude.{◌≡◌, ◌∷◌, ◌++◌, ◌+◌, ◌%◌, ◌==◌, ◌<◌, ◌≤◌, ◌^◌, [], None, Some, false, cond, length, IsSome, IfSome, IfOk, IfErr, OnOk};
ghost use Rattle.std.specs.Option.{option_copied};
ghost use Rattle.host_types.specs.Configuration.{entry_of};
ghost use Rattle.pbft_model.specs.Sequential.{IsStep, Service, encoded};
ghost use Rattle.pbft_model.specs.Tables.{number_key, with_entry};
ghost use Rattle.sha2.specs.Sha256.{sha256};
ghost use Rattle.replica_core.specs.Facts.{done_of};
ghost use Rattle.replica_core.specs.declared.halt.Halt.TheVariants.{Memory};

use crate::halt::{Halt, or_out_of_memory};
use crate::kept::Core;
use crate::row::Done;
use host_types::{Bytes, Digest, Reply, Request, SeqNo};
use replica_stores::Owed;
use tenant_lanes::Outcome;

impl Core {
    /// Takes a request, or the null request, as the next number.
    pub(crate) fn take_next(&mut self, request: Option<&Request>) -> Result<Outcome, Halt>
        requires number { self.old.core.executed + 1 < 2 ^ 48 }
        requires listed { IfSome (option_copied request) (λ taken. IsSome (entry_of self.old.config.clients taken.client.0)) }
        ensures step { IfOk result (λ outcome. IsStep self.old.core.service (option_copied request.entry) self.new.core.service outcome) }
        ensures rest { OnOk result (self.new ≡ record self.old { core = record self.old.core { service = self.new.core.service; executed = self.new.core.service.number } }) }
        ensures memory { IfErr result (λ halt. halt ≡ Memory) }
    {
        Ok(self.service.apply(request)?)
    }

    pub(crate) fn note_done(&mut self, done: Done) -> Result<(), Halt>
        ensures noted { OnOk result (self.new ≡ record self.old { done = self.old.done ++ done_of done ∷ [] }) }
        ensures memory { IfErr result (λ halt. halt ≡ Memory) }
    {
        self.step.done.push(done)?;
        Ok(())
    }

    /// Keeps the bytes of a state, and returns their digest.
    pub(crate) fn keep_snapshot(&mut self, number: SeqNo, bytes: Bytes) -> Result<Digest, Halt>
        ensures digest { IfOk result (λ digest. digest.0 ≡ sha256 bytes) }
        ensures kept { OnOk result (self.new ≡ record self.old { core = record self.old.core { snapshots = with_entry self.old.core.snapshots (number_key number.0) bytes } }) }
        ensures memory { IfErr result (λ halt. halt ≡ Memory) }
    {
        or_out_of_memory(self.checkpoints.keep_hashed(number, bytes))
    }

    /// Keeps the state, if the number is a multiple of the interval.
    pub(crate) fn keep_if_multiple(&mut self, number: SeqNo) -> Result<bool, Halt>
        ensures multiple { IfOk result (λ multiple. multiple ≡ (number.0 % self.old.config.k == 0)) }
        ensures kept { OnOk result (self.new ≡ record self.old {
          core = record self.old.core {
            snapshots = cond (number.0 % self.old.config.k == 0) (with_entry self.old.core.snapshots (number_key number.0) (encoded self.old.core.service)) self.old.core.snapshots;
          };
        }) }
        ensures memory { IfErr result (λ halt. halt ≡ Memory) }
    {
        if number.0 % u64::from(self.config.k()) != 0 {
            return Ok(false);
        }
        let bytes = Bytes::from_vec(self.service.to_bytes()?);
        self.keep_snapshot(number, bytes)?;
        Ok(true)
    }

    /// What the execution leaves to send.
    pub(crate) fn owe(&mut self, reply: Option<Reply>, checkpoint: bool)
        requires short { IfSome reply (λ r. (length r.result ≤ 265) × (r.number.0 < 2 ^ 48)) }
        ensures { self.new ≡ record self.old { core = record self.old.core { reply_due = reply; checkpoint_due = checkpoint } } }
    {
        self.step.owed = Owed { reply, checkpoint };
    }

    /// Goes on from the state that the message just taken reads as.
    pub(crate) fn go_on_from_reading(&mut self)
        requires there { IsSome self.old.core.reading }
        requires fits { IfSome self.old.core.reading (λ state. (state.config ≡ self.old.config) × (self.old.core.low ≤ state.number) × (state.number < 2 ^ 48)) }
        ensures { (state : Service) → self.old.core.reading ≡ Some state → self.new ≡ record self.old {
          core = record self.old.core {
            executed = state.number;
            service = state;
            reading = None;
            reply_due = None;
            checkpoint_due = false;
          };
        } }
    {
        let Some(state) = self.step.reading.take() else {
            unreachable!();
        };
        self.service = state;
        self.step.owed = Owed::nothing();
    }
}
