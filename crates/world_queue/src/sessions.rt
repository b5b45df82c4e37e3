//! The clients' sessions.

ghost use Rattle.std.specs.Prelude.{◌≡◌, ◌≤◌, Some, Ok, IfOk, OnOk, length, map, position, string_bytes};
ghost use Rattle.std.specs.List.{All};
ghost use Rattle.host_types.specs.Configuration.{entry_of};
ghost use Rattle.host_types.specs.declared.config.ClientEntry.{ClientEntry};
ghost use Rattle.client_session.specs.Sessions.{accepted_by, offered};
ghost use Rattle.seal.specs.Opening.{opening};
ghost use Rattle.world_queue.specs.Effects.{Offers, Requests, fresh_session, fresh_sessions};
ghost use Rattle.world_queue.specs.Parties.{accepted_now, is_of, key_of};
ghost use Rattle.world_queue.specs.Waiting.{first_open, open_time};

use crate::lines::line_of_reply;
use client_session::{Session, SessionFault};
use host_types::{Bytes, ClientEntry, ClientId, Config};
use lms_tree::Signer;
use pbft_codec::Body;
use seal::{Checked, SealFault, open};
use std::alloc::{AllocError, Global};
use std::sync::Arc;

/// A session for each client of a configuration.
#[derive(Drop)]
pub struct Sessions {
    alloc: Global,
    /// Who takes part.
    pub config: Arc<Config>,
    /// One for each client, in the order of the configuration.
    pub sessions: Vec<Session>,
    ghost under: { All (λ s. s.config ≡ config.value) sessions.items },
}

impl Sessions {
    /// A session for each client, which signs by the signer beside it.
    pub fn new(
        alloc: Global,
        config: &Arc<Config>,
        signers: Vec<Signer>,
    ) -> Result<Sessions, AllocError>
        requires { map (λ (e : ClientEntry). e.key) config.now.value.clients ≡ map key_of signers.items }
        ensures sessions { IfOk result (λ s. s.sessions.items ≡ fresh_sessions config.now.value config.now.value.clients signers.items) }
        ensures config { IfOk result (λ s. s.config.value ≡ config.now.value) }
    {
        let sessions = open_sessions(alloc, config, signers)?;
        Ok(Sessions {
            alloc,
            config: Arc::try_clone(config)?,
            sessions,
        })
    }

    /// The signed request of a client's operation; none where the client has no leaf left, or is none.
    pub fn request(&mut self, client: ClientId, op: Bytes) -> Result<Option<Checked>, AllocError>
        requires { length op ≤ 1048576 }
        ensures requested { IfOk result (Requests self.old.sessions.items client op self.new.sessions.items) }
        ensures config { self.new.config ≡ self.old.config }
    {
        let Some(index) = self.index_of(client) else {
            return Ok(None);
        };
        match self.sessions[index].request(op) {
            Ok(request) => Ok(Some(request)),
            Err(SessionFault::Exhausted) => Ok(None),
            Err(_) => Err(AllocError),
        }
    }

    /// Hands bytes to a client, and returns the line of the reply that it accepts by them. Bytes that are
    /// no message are passed over.
    pub fn deliver(&mut self, client: ClientId, bytes: &[u8]) -> Result<String, AllocError>
        ensures offered { IfOk result (λ text. Offers self.old.sessions.items client (opening self.old.config.value bytes.now) (string_bytes text) self.new.sessions.items) }
        ensures config { self.new.config ≡ self.old.config }
    {
        match open(self.alloc, &self.config, bytes) {
            Ok(message) => self.offer(client, &message),
            Err(SealFault::Memory) => Err(AllocError),
            Err(_) => Ok(String::new(self.alloc)),
        }
    }

    /// Offers a message to a client, and returns the line of the reply that it accepts by it.
    fn offer(&mut self, client: ClientId, message: &Checked) -> Result<String, AllocError>
        requires { message.now.config ≡ self.old.config.value }
        ensures offered { IfOk result (λ text. Offers self.old.sessions.items client (Ok message.now) (string_bytes text) self.new.sessions.items) }
        ensures config { self.new.config ≡ self.old.config }
    {
        let Some(index) = self.index_of(client) else {
            return Ok(String::new(self.alloc));
        };
        let text = offer_to(self.alloc, &mut self.sessions[index], message)?;
        Ok(text)
    }

    /// The first client, in the order of the configuration, whose request is open, and that request's time: its last one, as long
    /// as no reply to it is accepted.
    pub fn first_open(&self) -> Option<(ClientId, u64)>
        ensures { result ≡ first_open self.now.sessions.items }
    {
        for session in &self.sessions {
            if let Some(time) = open_time(session) {
                return Some((session.client(), time));
            }
        }
        None
    }

    fn index_of(&self, client: ClientId) -> Option<usize>
        ensures { result ≡ position (is_of client) self.now.sessions.items }
    {
        self.sessions
            .iter()
            .position(|session| session.client() == client)
    }
}

/// The time of a client's open request.
fn open_time(session: &Session) -> Option<u64>
    ensures { result ≡ open_time session.now }
{
    if session.accepted().is_some() {
        return None;
    }
    match session.last_request()?.body() {
        Body::Request(request) => Some(request.time),
        _ => None,
    }
}

/// A session for each client of a configuration, which signs by the signer beside it. The error is that
/// memory ran out.
pub fn open_sessions(
    alloc: Global,
    config: &Arc<Config>,
    signers: Vec<Signer>,
) -> Result<Vec<Session>, AllocError>
    requires { map (λ (e : ClientEntry). e.key) config.now.value.clients ≡ map key_of signers.items }
    ensures sessions { IfOk result (λ made. made.items ≡ fresh_sessions config.now.value config.now.value.clients signers.items) }
    ensures under { IfOk result (λ made. All (λ s. s.config ≡ config.now.value) made.items) }
{
    let mut sessions = Vec::new(alloc);
    let mut signers = signers.into_iter();
    for entry in config.clients() {
        let Some(signer) = signers.next() else {
            unreachable!()
        };
        sessions.push(new_session(alloc, config, entry, signer)?)?;
    }
    Ok(sessions)
}

/// Offers a message to a session, and returns the line of the reply that it accepts by it.
fn offer_to(alloc: Global, session: &mut Session, message: &Checked) -> Result<String, AllocError>
    requires { message.now.config ≡ session.old.config }
    ensures text { IfOk result (λ text. string_bytes text ≡ accepted_now (accepted_by session.old) (accepted_by (offered session.old message.now.message))) }
    ensures offered { OnOk result (session.new ≡ offered session.old message.now.message) }
    ensures config { session.new.config ≡ session.old.config }
{
    let had_accepted = session.accepted().is_some();
    if session.offer(message).is_err() {
        return Err(AllocError);
    }
    match session.accepted() {
        Some(reply) if !had_accepted => line_of_reply(alloc, reply),
        _ => Ok(String::new(alloc)),
    }
}

/// The session of a client that is listed with its signer's key.
fn new_session(
    alloc: Global,
    config: &Arc<Config>,
    entry: &ClientEntry,
    signer: Signer,
) -> Result<Session, AllocError>
    requires listed { entry_of config.now.value.clients entry.now.id.0 ≡ Some entry.now }
    requires key { entry.now.key ≡ key_of signer }
    ensures { IfOk result (λ s. s ≡ fresh_session config.now.value entry.now signer) }
{
    Session::new(alloc, config, entry.id, signer)
}
