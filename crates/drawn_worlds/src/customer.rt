//! A client that asks for operations.

ghost use Rattle.std.specs.Prelude.{◌≡◌, IfOk};

use anyhow::{Result, anyhow};
use client_session::Session;
use host_types::{Bytes, ClientId, Config, Reply};
use lms_tree::Signer;
use seal::Checked;
use std::alloc::Global;
use std::sync::Arc;

/// Installs code that returns 7, so that its reply says how many were installed before.
const INSTALL: [u8; 17] = [1, 0xb7, 0, 0, 0, 7, 0, 0, 0, 0x95, 0, 0, 0, 0, 0, 0, 0];

/// The client's session. Its signer has the key that the configuration lists.
fn session_of(
    alloc: Global,
    config: &Arc<Config>,
    client: ClientId,
    signer: Signer,
) -> Result<Session>
    ensures { IfOk result (λ s. s.config ≡ config.now.value) }
{
    match config.client(client) {
        Some(entry) if entry.key == signer.public_key() => {
            Ok(Session::new(alloc, config, client, signer)?)
        }
        _ => Err(anyhow!("another key is listed")),
    }
}

/// A client with a session, and how many requests it has yet to make.
#[derive(Drop)]
pub(crate) struct Customer {
    alloc: Global,
    config: Arc<Config>,
    session: Box<Session>,
    left: u8,
    ghost under: { session.value.config ≡ config.value },
}

impl Customer {
    /// A client that makes so many requests, before its first.
    pub(crate) fn new(
        alloc: Global,
        config: &Arc<Config>,
        client: ClientId,
        signer: Signer,
        requests: u8,
    ) -> Result<Customer> {
        let config = Arc::try_clone(config)?;
        let session = session_of(alloc, &config, client, signer)?;
        let session = Box::new(alloc, session)?;
        Ok(Customer {
            alloc,
            config,
            session,
            left: requests,
        })
    }

    /// Its next request, if it makes another.
    pub(crate) fn request(&mut self) -> Result<Option<Checked>> {
        if self.left == 0 {
            return Ok(None);
        }
        self.left -= 1;
        let op = Bytes::from_vec(Vec::from_slice(self.alloc, &INSTALL)?);
        Ok(Some(self.session.request(op)?))
    }

    /// Hears a message. Whether a reply is accepted by it.
    pub(crate) fn hear(&mut self, message: &Checked) -> Result<bool> {
        if !message.under(&self.config) {
            return Err(anyhow!("a message of another configuration"));
        }
        let had_accepted = self.session.accepted().is_some();
        self.session.offer(message)?;
        Ok(!had_accepted && self.session.accepted().is_some())
    }

    /// The reply to its last request that it has accepted, if it has.
    pub(crate) fn accepted(&self) -> Option<&Reply> {
        self.session.accepted()
    }

    /// Its last request.
    pub(crate) fn last_request(&self) -> Option<&Checked> {
        self.session.last_request()
    }
}
