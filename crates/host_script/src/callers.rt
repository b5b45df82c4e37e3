//! The clients of a run.

ghost use Rattle.std.specs.Prelude.{◌≡◌, ◌<◌, ◌≤◌, IfOk, IfSome, length, map};
ghost use Rattle.std.specs.List.{All};
ghost use Rattle.host_types.specs.declared.config.ClientEntry.{ClientEntry};
ghost use Rattle.world_script.specs.Parties.{key_of};

use host_client::{CallFault, Host, Session, SessionFault, call_or_idle};
use host_types::{Bytes, ClientId, Config, Reply};
use lms_tree::Signer;
use std::alloc::{AllocError, Global};
use std::sync::{Arc, Wait};
use std::time::Clock;
use world_script::open_sessions;

/// A session for each client of a host.
#[derive(Drop)]
pub(crate) struct Callers {
    config: Arc<Config>,
    sessions: Vec<Session>,
    ghost under: { All (λ s. s.config ≡ config.value) sessions.items },
}

impl Callers {
    /// A session for each client, which signs by the signer beside it.
    pub(crate) fn new(
        alloc: Global,
        config: &Arc<Config>,
        signers: Vec<Signer>,
    ) -> Result<Callers, AllocError>
        requires { map (λ (e : ClientEntry). e.key) config.now.value.clients ≡ map key_of signers.items }
        ensures { IfOk result (λ c. c.config.value ≡ config.now.value) }
    {
        let sessions = open_sessions(alloc, config, signers)?;
        let config = Arc::try_clone(config)?;
        Ok(Callers { config, sessions })
    }

    /// Calls for a client, and waits for the reply that it accepts while the replicas may still give one. None
    /// where it has no leaf left.
    pub(crate) fn call<R: Wait + Clock>(
        &mut self,
        rt: &R,
        alloc: Global,
        host: &Host,
        client: ClientId,
        op: Bytes,
    ) -> Result<Option<Reply>, CallFault>
        requires config { self.old.config.value ≡ host.now.config }
        requires op { length op ≤ 1048576 }
        ensures config { self.new.config ≡ self.old.config }
    {
        let Some(index) = self.index_of(client) else {
            return Ok(None);
        };
        match call_or_idle(rt, alloc, host, &mut self.sessions[index], op) {
            Ok(reply) => Ok(Some(reply)),
            Err(CallFault::Session(SessionFault::Exhausted)) => Ok(None),
            Err(fault) => Err(fault),
        }
    }

    fn index_of(&self, client: ClientId) -> Option<usize>
        ensures { IfSome result (λ index. index < length self.now.sessions.items) }
    {
        self.sessions
            .iter()
            .position(|session| session.client() == client)
    }
}
