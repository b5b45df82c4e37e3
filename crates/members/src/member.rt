//! A replica that is given bytes.

ghost use Rattle.std.specs.Prelude.{◌≡◌, ◌≢◌, ◌⊎◌, IfOk, IfErr, Some, None, Ok, IsErrOf, IsOk};
ghost use Rattle.std.specs.Option.{option_copied};
ghost use Rattle.lms_tree.specs.Keys.{public_key_of_signer};
ghost use Rattle.pbft_codec.specs.declared.signed.Role.TheVariants as roles;
ghost use Rattle.replica_core.specs.Steps.{Steps};
ghost use Rattle.replica_core.specs.declared.row.Input.TheVariants as inputs;
ghost use Rattle.seal.specs.Signers.{key_of};
ghost use Rattle.members.specs.Members.{MemberFacts, Takes, TimesOut, Waits, first_member, is_waited_for};
ghost use Rattle.members.specs.declared.fault.JoinFault.TheVariants.{Memory, NotListed, OtherKey};

use crate::fault::{JoinFault, StepFault};
use host_types::{ClientId, Config, ReplicaId};
use lms_tree::Signer;
use pbft_codec::Body;
use replica_core::{Halt, Replica, Row};
use seal::{Checked, SealFault, open};
use std::alloc::Global;
use std::marker::Model;
use std::sync::Arc;

/// A replica, the configuration under which it opens what it is given, and the row of its last step.
#[derive(Drop)]
pub struct Member {
    alloc: Global,
    config: Arc<Config>,
    replica: Replica,
    row: Option<Row>,
}

impl Model for Member {
    ghost use Rattle.std.specs.Prelude.{◌≡◌};
    ghost use Rattle.std.specs.Coded.{codes};
    ghost use Rattle.service_model.specs.Equality.{service_code};
    ghost use Rattle.members.specs.Members.{MemberFacts};

    ghost Value = { MemberFacts };

    ghost coded = { Prim.hlevel (codes, service_code) };

    ghost view = { λ m. record { replica = m.replica; row = m.row } };

    ghost invariant = { λ m. m.replica.config ≡ m.config.value };
}

impl Member {
    /// A replica before its first message. `NotListed` comes where the configuration lists no replica of this number, then
    /// `OtherKey` where it lists another key than the signer's, then `Memory`. The signer is dropped with each of them.
    pub fn new(
        alloc: Global,
        config: &Arc<Config>,
        id: ReplicaId,
        signer: Signer,
    ) -> Result<Member, JoinFault>
        ensures member { IfOk result (λ m. m ≡ first_member config.now.value id.0 signer) }
        ensures own { IfOk result (λ m. key_of config.now.value roles.Replica id.0 ≡ Some (public_key_of_signer signer)) }
        ensures listed { IsErrOf result NotListed → key_of config.now.value roles.Replica id.0 ≡ None }
        ensures other { IsErrOf result OtherKey → (key_of config.now.value roles.Replica id.0 ≢ None)
            × (key_of config.now.value roles.Replica id.0 ≢ Some (public_key_of_signer signer)) }
        ensures joins { IfErr result (λ fault. (key_of config.now.value roles.Replica id.0 ≡ Some (public_key_of_signer signer)) → fault ≡ Memory) }
    {
        if id.0 >= config.replica_count() {
            return Err(JoinFault::NotListed);
        }
        let Some(key) = config.replica_key(id) else {
            return Err(JoinFault::NotListed);
        };
        if *key != signer.public_key() {
            return Err(JoinFault::OtherKey);
        }
        let replica = Replica::new(alloc, config, id, signer)?;
        Ok(Member {
            alloc,
            config: Arc::try_clone(config)?,
            replica,
            row: None,
        })
    }

    /// Opens bytes, and takes the message that they are: `Replica::take` says what follows. Its row is kept until the next
    /// step. Bytes that aren't opened change nothing. At a halt, and from then on, no row is kept.
    pub fn take(&mut self, bytes: &[u8]) -> Result<(), StepFault>
        ensures { Takes self.old bytes.now result self.new }
    {
        let message = open(self.alloc, &self.config, bytes)?;
        self.row = None;
        match take(&mut self.replica, &message) {
            Ok(row) => {
                self.row = Some(row);
                Ok(())
            }
            Err(halt) => Err(StepFault::Halted(halt)),
        }
    }

    /// Takes a timeout. Its row is kept until the next step. At a halt, and from then on, no row is kept.
    pub fn timeout(&mut self) -> Result<(), Halt>
        ensures { TimesOut self.old result self.new }
    {
        self.row = None;
        self.row = Some(self.replica.timeout()?);
        Ok(())
    }

    /// Opens bytes, and says whether the replica waits for them: whether they are a request that its state hasn't answered. The
    /// error is that they aren't opened, or that memory ran out.
    pub fn waits_for(&self, bytes: &[u8]) -> Result<bool, SealFault>
        ensures { Waits self.now bytes.now result }
    {
        let message = open(self.alloc, &self.config, bytes)?;
        Ok(self.is_unanswered(&message))
    }

    fn is_unanswered(&self, message: &Checked) -> bool
        ensures { result ≡ is_waited_for self.now.replica.core message.now.message }
    {
        let Body::Request(request) = message.body() else {
            return false;
        };
        let Some(state) = self.replica.state() else {
            return false;
        };
        match state.last_time(ClientId(message.signer().1)) {
            Some(time) => time < request.time,
            None => true,
        }
    }

    /// What the last step gave: none before the first one, and once the replica has halted.
    pub fn row(&self) -> Option<&Row>
        ensures { option_copied result ≡ self.now.row }
    {
        self.row.as_ref()
    }

    /// The replica: where it stands, and its state. It takes no memory.
    pub fn replica(&self) -> &Replica
        ensures { result.now ≡ self.now.replica }
    {
        &self.replica
    }
}

/// Has a replica take a message that was opened under its configuration, which it keeps.
fn take(replica: &mut Replica, message: &Checked) -> Result<Row, Halt>
    requires { message.now.config ≡ replica.old.config }
    ensures config { replica.new.config ≡ replica.old.config }
    ensures steps { Steps replica.old (inputs.Message message.now) result replica.new }
{
    replica.take(message)
}
