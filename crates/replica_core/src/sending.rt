//! How a replica signs and gives a message.

ghost use Rattle.std.specs.Prelude.{◌≡◌, ◌∷◌, ◌++◌, ◌+◌, ◌≤◌, [], IsTrue, true, IfOk, IfErr, OnOk};
ghost use Rattle.lms_tree.specs.Keys.{after_signing, leaf_count};
ghost use Rattle.pbft_codec.specs.declared.signed.Role.TheVariants as roles;
ghost use Rattle.seal.specs.Opening.{sealed_message};
ghost use Rattle.seal.specs.Signers.{may_sign};
ghost use Rattle.replica_stores.specs.Sealable.{IsSealable};
ghost use Rattle.replica_core.specs.declared.halt.Halt.TheVariants.{Memory};
ghost use Rattle.replica_core.specs.Doing.{IsShortOf};
ghost use Rattle.replica_core.specs.Facts.{destination_of};

use crate::halt::Halt;
use crate::kept::Core;
use crate::row::{Dest, Output};
use pbft_codec::{Body, Role};
use seal::{Checked, seal};

impl Core {
    /// Whether the signer has so many leaves, or `Exhausted`.
    pub(crate) fn need_leaves(&self, many: u32) -> Result<(), Halt>
        ensures enough { IfOk result (λ _. self.now.core.signer.next_leaf + many ≤ leaf_count self.now.core.signer) }
        ensures short { IfErr result (IsShortOf self.now many) }
    {
        if self.signer.leaves_left() < many {
            Err(Halt::Exhausted)
        } else {
            Ok(())
        }
    }

    /// An own message of this body, signed with the next leaf.
    pub(crate) fn sign(&mut self, body: Body) -> Result<Checked, Halt>
        requires role { IsTrue (may_sign self.old.config roles.Replica self.old.me body) }
        requires sealable { IsSealable self.old.config body }
        ensures signed { IfOk result (λ m. m ≡ record { config = self.old.config; message = sealed_message self.old.core.signer roles.Replica self.old.me body }) }
        ensures after { OnOk result (self.new ≡ record self.old { core = record self.old.core { signer = after_signing self.old.core.signer }; leaves = self.old.leaves + 1 }) }
        ensures short { IfErr result (IsShortOf self.old 1) }
    {
        let id = u32::from(self.id.0);
        let _ = self.signer.leaves_left();
        let message = seal(
            self.alloc,
            &self.config,
            &mut self.signer,
            Role::Replica,
            id,
            body,
        )?;
        self.step.leaves += 1;
        Ok(message)
    }

    /// Gives a message: an own one, or another's that is passed on.
    pub(crate) fn give(&mut self, to: Dest, message: &Checked, own: bool) -> Result<(), Halt>
        ensures given { OnOk result (self.new ≡ record self.old { outputs = self.old.outputs ++ record { to = destination_of to; message = message.now.message; own = own } ∷ [] }) }
        ensures memory { IfErr result (λ halt. halt ≡ Memory) }
    {
        let message = message.copy()?;
        self.step.outputs.push(Output { to, message, own })?;
        Ok(())
    }

    /// Signs a body and gives the message.
    pub(crate) fn send(&mut self, to: Dest, body: Body) -> Result<Checked, Halt>
        requires role { IsTrue (may_sign self.old.config roles.Replica self.old.me body) }
        requires sealable { IsSealable self.old.config body }
        ensures signed { IfOk result (λ m. m ≡ record { config = self.old.config; message = sealed_message self.old.core.signer roles.Replica self.old.me body }) }
        ensures after { OnOk result (self.new ≡ record self.old {
          core = record self.old.core { signer = after_signing self.old.core.signer };
          outputs = self.old.outputs ++ record { to = destination_of to; message = sealed_message self.old.core.signer roles.Replica self.old.me body; own = true } ∷ [];
          leaves = self.old.leaves + 1;
        }) }
        ensures short { IfErr result (IsShortOf self.old 1) }
    {
        let message = self.sign(body)?;
        self.give(to, &message, true)?;
        Ok(message)
    }
}
