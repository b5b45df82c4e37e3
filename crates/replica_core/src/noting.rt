//! What a replica notes of what it has done.

ghost use Rattle.std.specs.Prelude.{◌≡◌, ◌∷◌, ◌<◌, ◌^◌, None, false, map, IfErr, OnOk};
ghost use Rattle.std.specs.List.{AllByRecursion};
ghost use Rattle.pbft_model.specs.Acts.{acted};
ghost use Rattle.pbft_model.specs.Certificates.{of_pre_prepare};
ghost use Rattle.replica_core.specs.declared.halt.Halt.TheVariants.{Memory};
ghost use Rattle.replica_stores.specs.Sent.{fields_of};

use crate::halt::Halt;
use crate::kept::Core;
use host_types::{Digest, SeqNo};
use pbft_codec::PrePrepare;
use replica_stores::Proposal;

impl Core {
    /// An act was done: what is asked as a message comes is asked no more.
    pub(crate) fn note_act(&mut self)
        ensures { self.new ≡ record self.old { core = acted self.old.core } }
    {
        self.step.is_fresh = false;
        self.step.timed_out = false;
    }

    pub(crate) fn note_proposal(&mut self, proposal: Proposal) -> Result<(), Halt>
        requires { proposal.number.0 < 2 ^ 48 }
        ensures noted { OnOk result (self.new ≡ record self.old { core = record self.old.core { proposed = fields_of proposal ∷ self.old.core.proposed } }) }
        ensures memory { IfErr result (λ halt. halt ≡ Memory) }
    {
        Ok(self.sent.propose(proposal)?)
    }

    /// The proposals of an own NewView count whole.
    pub(crate) fn note_proposals(&mut self, list: &[PrePrepare]) -> Result<(), Halt>
        requires { AllByRecursion (λ p. p.number.0 < 2 ^ 48) list.now }
        ensures noted { OnOk result (self.new ≡ record self.old { core = record self.old.core { proposed = map of_pre_prepare list.now } }) }
        ensures memory { IfErr result (λ halt. halt ≡ Memory) }
    {
        Ok(self.sent.propose_all(list)?)
    }

    pub(crate) fn note_prepare(&mut self, number: SeqNo) -> Result<(), Halt>
        ensures noted { OnOk result (self.new ≡ record self.old { core = record self.old.core { prepared_numbers = number.0 ∷ self.old.core.prepared_numbers } }) }
        ensures memory { IfErr result (λ halt. halt ≡ Memory) }
    {
        Ok(self.sent.prepare(number)?)
    }

    pub(crate) fn note_commit(&mut self, number: SeqNo) -> Result<(), Halt>
        ensures noted { OnOk result (self.new ≡ record self.old { core = record self.old.core { committed_numbers = number.0 ∷ self.old.core.committed_numbers } }) }
        ensures memory { IfErr result (λ halt. halt ≡ Memory) }
    {
        Ok(self.sent.commit(number)?)
    }

    pub(crate) fn note_asked_state(&mut self, number: SeqNo) -> Result<(), Halt>
        ensures noted { OnOk result (self.new ≡ record self.old { core = record self.old.core { asked_states = number.0 ∷ self.old.core.asked_states } }) }
        ensures memory { IfErr result (λ halt. halt ≡ Memory) }
    {
        Ok(self.sent.ask_state(number)?)
    }

    pub(crate) fn note_asked_request(&mut self, digest: Digest) -> Result<(), Halt>
        ensures noted { OnOk result (self.new ≡ record self.old { core = record self.old.core { asked_requests = digest.0 ∷ self.old.core.asked_requests } }) }
        ensures memory { IfErr result (λ halt. halt ≡ Memory) }
    {
        Ok(self.sent.ask_request(digest)?)
    }

    /// The reply of the number just executed is sent.
    pub(crate) fn note_reply(&mut self)
        ensures { self.new ≡ record self.old { core = record self.old.core { reply_due = None } } }
    {
        self.step.owed.reply = None;
    }

    /// The Checkpoint of the number just executed is sent.
    pub(crate) fn note_checkpoint(&mut self)
        ensures { self.new ≡ record self.old { core = record self.old.core { checkpoint_due = false } } }
    {
        self.step.owed.checkpoint = false;
    }
}
