//! A client's session that is offered bytes.

ghost use Rattle.std.specs.Prelude.{◌≡◌, ◌≢◌, ◌⊎◌, ◌≤◌, ◌<◌, ◌^◌, ◌↔◌, IfOk, IfErr, IsErrOf, None, Some, OnOk, OnErr, length};
ghost use Rattle.std.specs.Option.{option_copied, option_map};
ghost use Rattle.lms_tree.specs.Keys.{after_signing, leaf_count, public_key_of_signer};
ghost use Rattle.pbft_codec.specs.declared.signed.Role.TheVariants as roles;
ghost use Rattle.seal.specs.Opening.{CheckedMessage};
ghost use Rattle.seal.specs.Signers.{key_of};
ghost use Rattle.client_session.specs.Sessions.{SessionState, accepted_by, asked, session_behind};
ghost use Rattle.client_session.specs.declared.fault.SessionFault.TheVariants as faults;
ghost use Rattle.members.specs.Clients.{Hears};
ghost use Rattle.members.specs.declared.fault.JoinFault.TheVariants.{Memory, NotListed, OtherKey};

use crate::fault::JoinFault;
use client_session::{Session, SessionFault};
use host_types::{Bytes, ClientId, Config};
use lms_tree::Signer;
use seal::{SealFault, open};
use std::alloc::Global;
use std::marker::Model;
use std::sync::Arc;

/// A client's session, and the configuration under which it opens what it is offered.
#[derive(Drop)]
pub struct Client {
    alloc: Global,
    config: Arc<Config>,
    session: Session,
}

impl Model for Client {
    ghost use Rattle.std.specs.Prelude.{◌≡◌};
    ghost use Rattle.client_session.specs.Sessions.{SessionState};

    ghost Value = { SessionState };

    ghost view = { λ c. c.session };

    ghost invariant = { λ c. c.session.config ≡ c.config.value };
}

impl Client {
    /// A session whose first request has the time behind this one: `Session::resume` says which time, and which signer, the
    /// caller owes. `NotListed` comes where the configuration lists no such client, then `OtherKey` where it lists another
    /// key than the signer's, then `Memory`. The signer is dropped with each of them.
    pub fn new(
        alloc: Global,
        config: &Arc<Config>,
        client: ClientId,
        signer: Signer,
        time: u64,
    ) -> Result<Client, JoinFault>
        requires { time ≤ 2 ^ 63 }
        ensures session { IfOk result (λ s. s ≡ session_behind config.now.value client signer time) }
        ensures own { IfOk result (λ s. key_of config.now.value roles.Client client.0 ≡ Some (public_key_of_signer signer)) }
        ensures listed { IsErrOf result NotListed → key_of config.now.value roles.Client client.0 ≡ None }
        ensures other { IsErrOf result OtherKey → (key_of config.now.value roles.Client client.0 ≢ None)
            × (key_of config.now.value roles.Client client.0 ≢ Some (public_key_of_signer signer)) }
        ensures joins { IfErr result (λ fault. (key_of config.now.value roles.Client client.0 ≡ Some (public_key_of_signer signer)) → fault ≡ Memory) }
    {
        let Some(entry) = config.client(client) else {
            return Err(JoinFault::NotListed);
        };
        if entry.key != signer.public_key() {
            return Err(JoinFault::OtherKey);
        }
        let session = Session::resume(alloc, config, client, signer, time)?;
        Ok(Client {
            alloc,
            config: Arc::try_clone(config)?,
            session,
        })
    }

    /// Opens bytes, and offers the message that they are to the session: `Session::offer` says what follows. Bytes that
    /// aren't opened, and memory that runs out, change nothing.
    pub fn hear(&mut self, bytes: &[u8]) -> Result<(), SealFault>
        ensures { Hears self.old bytes.now result self.new }
    {
        let message = open(self.alloc, &self.config, bytes)?;
        match self.session.offer(&message) {
            Ok(()) => Ok(()),
            Err(_) => Err(SealFault::Memory),
        }
    }

    /// Makes the signed request of this operation, which is then the session's last one and open; what was open is given up.
    /// The operation has at most 1,048,576 bytes. `Exhausted` comes exactly where the signer has no leaf left, and changes
    /// nothing. `Memory` may have used a leaf; all else stays as it was.
    pub fn request(&mut self, op: Bytes) -> Result<(), SessionFault>
        requires { length op ≤ 1048576 }
        ensures asked { OnOk result (self.new ≡ asked self.old op (after_signing self.old.signer)) }
        ensures exhausted { IsErrOf result faults.Exhausted ↔ (self.old.signer.next_leaf ≡ leaf_count self.old.signer) }
        ensures unchanged { IsErrOf result faults.Exhausted → self.new ≡ self.old }
        ensures open { OnErr result (self.new ≡ record self.old { signer = self.new.signer }) }
        ensures leaf { IsErrOf result faults.Memory →
            (self.new.signer ≡ self.old.signer) ⊎ (self.new.signer ≡ after_signing self.old.signer) }
        ensures fault { IfErr result (λ fault. (fault ≡ faults.Exhausted) ⊎ (fault ≡ faults.Memory)) }
    {
        match self.session.request(op) {
            Ok(_) => Ok(()),
            Err(fault) => Err(fault),
        }
    }

    /// The session. It takes no memory.
    pub fn session(&self) -> &Session
        ensures { result.now ≡ self.now }
    {
        &self.session
    }
}
