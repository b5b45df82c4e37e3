//! A signature and what it is verified over.

ghost use Rattle.std.specs.Prelude.{◌≡◌, ◌↔◌, None, IsOk};
ghost use Rattle.lms_tree.specs.Signature.{signature_fault};

use anyhow::{Result, anyhow};
use host_types::{ClientId, Config, PublicKey, ReplicaId};
use lms_tree::verify;
use pbft_codec::{Role, signed_bytes};
use seal::Checked;
use std::alloc::Global;

/// A key, a text, and the signature of the text.
#[derive(Drop)]
pub struct Case {
    /// Whose signature it is.
    pub key: PublicKey,
    /// What was signed.
    pub text: Vec<u8>,
    /// The signature, in its encoding.
    pub sig: Vec<u8>,
}

/// The key of who signed a message.
fn key_of(config: &Config, message: &Checked) -> Option<PublicKey> {
    match message.signer() {
        (Role::Replica, id) => {
            let id = u8::try_from(id).ok()?;
            config.replica_key(ReplicaId(id)).copied()
        }
        (Role::Client, id) => Some(config.client(ClientId(id))?.key),
    }
}

impl Case {
    /// That of a message.
    pub fn of(alloc: Global, config: &Config, message: &Checked) -> Result<Case> {
        let Some(key) = key_of(config, message) else {
            return Err(anyhow!("the signer is not listed"));
        };
        Ok(Case {
            key,
            text: signed_bytes(alloc, message.message())?,
            sig: message.message().sig.as_slice().to_vec(alloc)?,
        })
    }

    /// Those of messages.
    pub fn all_of(alloc: Global, config: &Config, messages: &[Checked]) -> Result<Vec<Case>> {
        let mut cases = Vec::new(alloc);
        for message in messages {
            cases.push(Case::of(alloc, config, message)?)?;
        }
        Ok(cases)
    }

    /// Verifies the signature.
    pub fn verify(&self) -> Result<()>
        ensures { IsOk result ↔ (signature_fault self.now.key self.now.text.items self.now.sig.items ≡ None) }
    {
        match verify(&self.key, &self.text, &self.sig) {
            Ok(()) => Ok(()),
            Err(_) => Err(anyhow!("the signature is not valid")),
        }
    }
}
