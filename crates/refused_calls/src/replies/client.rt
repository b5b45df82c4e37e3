//! A client's session, and what replicas reply to it.

ghost use Rattle.std.specs.Prelude.{◌≡◌};

use crate::common::members::CLIENT;
use crate::common::signing::message;
use anyhow::{Result, anyhow};
use host_client::{Session, SessionFault};
use host_types::{Bytes, Config, SeqNo, View};
use lms_tree::Signer;
use pbft_codec::{Body, ReplyBody, Role};
use seal::Checked;
use std::alloc::Global;
use std::sync::Arc;

/// The client's session, and the configuration that it runs under.
#[derive(Drop)]
pub(crate) struct Client {
    config: Arc<Config>,
    /// A box is dropped in one step of a proof.
    session: Box<Session>,
    ghost same: { session.value.config ≡ config.value },
}

impl Client {
    /// A client before its first request.
    pub(crate) fn new(alloc: Global, config: &Arc<Config>, signer: Signer) -> Result<Client> {
        match config.client(CLIENT) {
            Some(entry) if entry.key == signer.public_key() => {
                let session = Session::new(alloc, config, CLIENT, signer)?;
                Ok(Client {
                    session: Box::new(alloc, session)?,
                    config: Arc::try_clone(config)?,
                })
            }
            _ => Err(anyhow!("the signer's key is not listed")),
        }
    }

    /// The client's next request.
    pub(crate) fn request(&mut self, op: Bytes) -> Result<Result<Checked, SessionFault>> {
        if op.as_slice().len() > 1_000 {
            return Err(anyhow!("the operation is too long"));
        }
        Ok(self.session.request(op))
    }

    /// Offers a message to the session.
    pub(crate) fn offer(&mut self, message: &Checked) -> Result<Result<(), SessionFault>> {
        if !message.under(&self.config) {
            return Err(anyhow!("another configuration"));
        }
        Ok(self.session.offer(message))
    }

    /// Whether a result is accepted for the request that was made last.
    pub(crate) fn has_accepted(&self) -> bool {
        self.session.accepted().is_some()
    }
}

/// A replica's Reply to the client's first request: the operation is unknown.
pub(crate) fn reply(
    alloc: Global,
    config: &Arc<Config>,
    replicas: &mut [Signer],
    id: u8,
) -> Result<Checked> {
    let Some(signer) = replicas.get_mut(usize::from(id)) else {
        return Err(anyhow!("there is no such replica"));
    };
    let outcome = Bytes::from_vec([1].to_vec(alloc)?);
    let body = Body::Reply(ReplyBody {
        view: View(0),
        client: CLIENT,
        time: 1,
        number: SeqNo(1),
        result: outcome,
    });
    message(alloc, config, signer, Role::Replica, u32::from(id), body)
}
