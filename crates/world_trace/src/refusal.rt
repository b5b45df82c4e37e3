//! Which part of a message has the fault for which it is refused.

use host_types::{ClientId, Config, PublicKey, ReplicaId};
use lms_tree::verify;
use pbft_codec::{
    Body, MessageBody, Role, Sender, Signed, TryClone, ViewChange, decode, signed_bytes,
};
use seal::SealFault;
use std::alloc::{AllocError, Global};

/// The first part of a message that has a fault, counted from 1, a message before those nested in it. None where
/// the bytes are no message.
pub(crate) fn faulty_part(
    alloc: Global,
    config: &Config,
    fault: SealFault,
    bytes: &[u8],
) -> Result<Option<usize>, AllocError> {
    let Ok(message) = decode(alloc, bytes) else {
        return Ok(None);
    };
    let mut search = Search {
        alloc,
        config,
        fault,
        seen: 0,
        found: None,
    };
    search.look_at(&message)?;
    search.look_inside(&message.body)?;
    Ok(search.found)
}

/// A search for the first part that has a fault.
#[derive(Drop)]
struct Search<'a> {
    alloc: Global,
    config: &'a Config,
    fault: SealFault,
    /// How many parts were seen.
    seen: usize,
    found: Option<usize>,
}

impl Search<'_> {
    /// Looks at the parts that a body holds.
    fn look_inside(&mut self, body: &Body) -> Result<(), AllocError> {
        match body {
            Body::ViewChange(change) => self.look_at_change(change),
            Body::NewView(said) => {
                for change in said.changes.as_slice() {
                    self.look_at_nested(change)?;
                    self.look_at_change(&change.body)?;
                }
                self.look_at_all(said.pre_prepares.as_slice())
            }
            _ => Ok(()),
        }
    }

    fn look_at_change(&mut self, change: &ViewChange) -> Result<(), AllocError> {
        self.look_at_all(change.checkpoints.as_slice())?;
        for certificate in change.certificates.as_slice() {
            self.look_at_nested(&certificate.pre_prepare)?;
            self.look_at_all(certificate.prepares.as_slice())?;
        }
        Ok(())
    }

    fn look_at_all<B: MessageBody>(&mut self, messages: &[Signed<B>]) -> Result<(), AllocError> {
        for message in messages {
            self.look_at_nested(message)?;
        }
        Ok(())
    }

    fn look_at_nested<B: MessageBody>(&mut self, message: &Signed<B>) -> Result<(), AllocError> {
        if self.found.is_some() {
            return Ok(());
        }
        let whole = Signed {
            role: message.role,
            id: message.id,
            body: message.body.try_clone(self.alloc)?.into_body(),
            sig: message.sig.try_clone(self.alloc)?,
        };
        self.look_at(&whole)
    }

    fn look_at(&mut self, message: &Signed) -> Result<(), AllocError> {
        self.seen = self.seen.saturating_add(1);
        if has_fault(self.alloc, self.config, self.fault, message)? {
            self.found = Some(self.seen);
        }
        Ok(())
    }
}

/// Whether a part has this fault itself, where those before it have none.
fn has_fault(
    alloc: Global,
    config: &Config,
    fault: SealFault,
    message: &Signed,
) -> Result<bool, AllocError> {
    match fault {
        SealFault::UnknownSigner => Ok(key_of(config, message.role, message.id).is_none()),
        SealFault::WrongRole => Ok(!may_sign(config, message)),
        SealFault::BadSignature => is_unsigned(alloc, config, message),
        SealFault::Codec(_) | SealFault::Memory => Ok(false),
    }
}

fn key_of(config: &Config, role: Role, id: u32) -> Option<&PublicKey> {
    match role {
        Role::Replica => match u8::try_from(id) {
            Ok(id) => config.replica_key(ReplicaId(id)),
            Err(_) => None,
        },
        Role::Client => match config.client(ClientId(id)) {
            Some(entry) => Some(&entry.key),
            None => None,
        },
    }
}

fn may_sign(config: &Config, message: &Signed) -> bool {
    match (message.role, message.body.sender()) {
        (Role::Client, sender) => sender == Sender::Client,
        (Role::Replica, Sender::Client) => false,
        (Role::Replica, Sender::Replica) => true,
        (Role::Replica, Sender::Primary(view)) => u32::from(config.primary(view).0) == message.id,
        (Role::Replica, Sender::Backup(view)) => u32::from(config.primary(view).0) != message.id,
    }
}

/// Whether a part's signature isn't that of its signer.
fn is_unsigned(alloc: Global, config: &Config, message: &Signed) -> Result<bool, AllocError> {
    let Some(key) = key_of(config, message.role, message.id) else {
        return Ok(true);
    };
    let Ok(text) = signed_bytes(alloc, message) else {
        return Err(AllocError);
    };
    Ok(verify(key, &text, message.sig.as_slice()).is_err())
}
