//! One replica, as its users see it.

ghost use Rattle.std.specs.Prelude.{◌≡◌, ◌<◌, List, Some, IfOk, IsSomeAnd};
ghost use Rattle.std.specs.Option.{option_copied, option_map};
ghost use Rattle.host_types.specs.Configuration.{replicas_for};
ghost use Rattle.lms_tree.specs.Keys.{IsKeyOf};
ghost use Rattle.lms_tree.specs.SigningState.{SigningState};
ghost use Rattle.pbft_codec.specs.declared.signed.Role.TheVariants as roles;
ghost use Rattle.pbft_model.specs.Core.{start_of};
ghost use Rattle.seal.specs.Signers.{key_of};
ghost use Rattle.pbft_model.specs.Setup.{setup_of};
ghost use Rattle.replica_core.specs.declared.row.Input.TheVariants as inputs;
ghost use Rattle.replica_core.specs.Facts.{RowFacts};
ghost use Rattle.replica_core.specs.Steps.{IsAllowed, IsLawful, IsRun, ReplicaFacts, Steps, first_with, leaves_left_of, status_of};

use crate::halt::Halt;
use crate::kept::Core;
use crate::row::Row;
use host_types::{Config, Gate, ReplicaId, SeqNo, View};
use lms_tree::Signer;
use seal::Checked;
use std::alloc::{AllocError, Global};
use std::marker::Model;
use std::sync::Arc;
use std::thread::Threads;
use tenant_lanes::State;

/// Where a replica stands after its last row; and whether it has stopped since.
#[derive(Clone, Copy, Debug, PartialEq, Eq)]
pub struct Status {
    pub view: View,
    /// Active in the view, or changing to it.
    pub active: bool,
    /// The low water mark.
    pub low: SeqNo,
    /// The last executed number.
    pub executed: SeqNo,
    /// Why it has stopped; none while it continues.
    pub halted: Option<Halt>,
}

/// One replica (Castro and Liskov 1999, section 4): it takes opened messages and timeouts, and answers
/// what it does for each as a row. Once it has stopped it keeps where it was, and no more.
#[derive(Drop)]
pub struct Replica {
    alloc: Global,
    config: Arc<Config>,
    id: ReplicaId,
    /// None once it has stopped: the signer is dropped with the rest.
    core: Option<Core>,
    status: Status,
}

impl Model for Replica {
    ghost use Rattle.std.specs.Coded.{codes};
    ghost use Rattle.std.specs.Option.{option_map};
    ghost use Rattle.service_model.specs.Equality.{service_code};
    ghost use Rattle.replica_core.specs.Answering.{IsWhole};
    ghost use Rattle.replica_core.specs.Steps.{ReplicaFacts};

    ghost Value = { ReplicaFacts };

    ghost coded = { Prim.hlevel (codes, service_code) };

    ghost view = { λ r. record { config = r.config.value; me = r.id.0; core = option_map (λ k. k.core) r.core; status = r.status } };

    ghost invariant = { λ r. IsWhole r.config.value r.id.0 r.core r.status };
}

impl Replica {
    /// A replica before its first message: active in view 0, with the state that a service begins with.
    /// The signer's key is the one that the configuration lists for the replica, at whatever leaf. It is
    /// refused only where memory ran out, and the signer is then dropped.
    pub fn new(
        alloc: Global,
        config: &Arc<Config>,
        id: ReplicaId,
        signer: Signer,
    ) -> Result<Replica, AllocError>
        requires replica { id.0 < replicas_for config.now.value.f }
        requires key { IsSomeAnd (key_of config.now.value roles.Replica id.0) (λ key. IsKeyOf key signer) }
        ensures { IfOk result (λ r. r ≡ first_with config.now.value id.0 signer) }
    {
        let core = Core::new(alloc, config, id, signer)?;
        let status = status_of(&core);
        Ok(Replica {
            alloc,
            config: Arc::try_clone(config)?,
            id,
            core: Some(core),
            status,
        })
    }

    /// Takes a message that was opened under the replica's configuration, and does what it asks for,
    /// until nothing is due: the row reports all of it. At a halt nothing that was done for the message is
    /// given, and the replica has stopped for good: its signer and its state are dropped, and its status
    /// says where it stood before the message, and the halt. `Exhausted` comes where an own message
    /// wants more leaves than the signer has left, `Worn` where there is no view or no sequence number
    /// above the last, and `Memory` where memory ran out. `AlreadyHalted` comes where it had stopped
    /// before this call; it takes no memory and changes nothing.
    pub fn take(&mut self, message: &Checked) -> Result<Row, Halt>
        requires config { message.now.config ≡ self.old.config }
        ensures { Steps self.old (inputs.Message message.now) result self.new }
    {
        let Some(mut core) = self.core.take() else {
            return Err(Halt::AlreadyHalted);
        };
        match core.answer(message) {
            Ok(row) => {
                self.status = status_of(&core);
                self.core = Some(core);
                Ok(row)
            }
            Err(halt) => {
                self.status.halted = Some(halt);
                Err(halt)
            }
        }
    }

    /// Takes a message as `take` does, with the same row and the same halts, but executes requests of
    /// different tenants at the same time: the committed ones from the next number up to the next multiple
    /// of the checkpoint interval together, in at most so many lanes as workers, of which there has to be
    /// one. Where no thread can be made, lanes run one after another. A lane calls `gate.step` with its
    /// number, below that of the workers, once before its first request of these.
    pub fn take_lanes<R: Threads + Sync, G: Gate + Sync>(
        &mut self,
        rt: &R,
        message: &Checked,
        workers: u8,
        gate: &G,
    ) -> Result<Row, Halt>
        requires config { message.now.config ≡ self.old.config }
        requires workers { 0 < workers }
        ensures { Steps self.old (inputs.Message message.now) result self.new }
    {
        let Some(core) = self.core.take() else {
            return Err(Halt::AlreadyHalted);
        };
        match core.answer_lanes(rt, message, workers, gate) {
            Ok((core, row)) => {
                self.status = status_of(&core);
                self.core = Some(core);
                Ok(row)
            }
            Err(halt) => {
                self.status.halted = Some(halt);
                Err(halt)
            }
        }
    }

    /// Takes a timeout, and does what it asks for, until nothing is due. The halts are those of `take`,
    /// and leave the same.
    pub fn timeout(&mut self) -> Result<Row, Halt>
        ensures { Steps self.old inputs.Timeout result self.new }
    {
        let Some(mut core) = self.core.take() else {
            return Err(Halt::AlreadyHalted);
        };
        match core.answer_timeout() {
            Ok(row) => {
                self.status = status_of(&core);
                self.core = Some(core);
                Ok(row)
            }
            Err(halt) => {
                self.status.halted = Some(halt);
                Err(halt)
            }
        }
    }

    /// Where the replica stands after its last row; and whether it has stopped since. It takes no memory.
    pub fn status(&self) -> Status
        ensures { result ≡ self.now.status }
    {
        self.status
    }

    /// The state of the service, or none once the replica has stopped. It takes no memory.
    pub fn state(&self) -> Option<&State>
        ensures { option_copied result ≡ option_map (λ s. s.service) self.now.core }
    {
        match &self.core {
            Some(core) => Some(core.state()),
            None => None,
        }
    }

    /// How many leaves have not signed: none once the replica has stopped. It takes no memory.
    pub fn leaves_left(&self) -> u32
        ensures { result ≡ leaves_left_of self.now.core }
    {
        match &self.core {
            Some(core) => core.leaves_left(),
            None => 0,
        }
    }
}

/// Where a replica stands that has not stopped.
fn status_of(core: &Core) -> Status
    ensures { result ≡ status_of core.now.core }
{
    Status {
        view: core.view(),
        active: core.is_active(),
        low: core.low(),
        executed: core.executed(),
        halted: None,
    }
}

/// The rows that a replica gives from its first message on are a lawful journal, up to the core that it
/// keeps after them; and this core is what a history comes to, each of whose acts was allowed.
pub fn rows_are_lawful()
    ensures lawful { (r t : ReplicaFacts) (signer : SigningState) (rows : List RowFacts) → r.core ≡ Some (start_of (setup_of r.config) signer) → IsRun r rows t
        → IsLawful r.config r.me signer rows t.core }
    ensures allowed { (r t : ReplicaFacts) (signer : SigningState) (rows : List RowFacts) → r.core ≡ Some (start_of (setup_of r.config) signer) → IsRun r rows t
        → IsAllowed r.config r.me signer t.core }
{}
