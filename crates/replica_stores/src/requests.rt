//! The requests that a replica holds.

ghost use Rattle.std.specs.Prelude.{◌≡◌, ◌&&◌, ◌||◌, [], bytes_eq, filter, find, not, IfOk, OnOk, OnErr};
ghost use Rattle.std.specs.Option.{option_copied, option_map};
ghost use Rattle.pbft_codec.specs.declared.body.Body.TheVariants as bodies;
ghost use Rattle.pbft_model.specs.Acts.{add_request, still_held, with_body};
ghost use Rattle.pbft_model.specs.Core.{held_with, is_new, names};
ghost use Rattle.pbft_model.specs.Setup.{digest_of, setup_of};
ghost use Rattle.pbft_model.specs.Tables.{entries_in};
ghost use Rattle.pbft_model.specs.Words.{RequestBody};
ghost use Rattle.seal.specs.Parts.{as_message};
ghost use Rattle.replica_stores.specs.Requests.{as_request};
ghost use Rattle.replica_stores.specs.Stores.{IsRequest, is_proposed_in};

use crate::sent::Sent;
use host_types::{ClientId, Config, Digest, View};
use pbft_codec::Body;
use seal::{Checked, request_digest};
use service_core::State;
use std::alloc::{AllocError, Global};
use std::marker::Model;
use std::sync::Arc;
use view_change::QuorumLog;

/// A request that is held, with its digest.
#[derive(Drop)]
struct Held {
    digest: Digest,
    message: Checked,
}

/// Requests in the order of receipt, each held once. Contracts see them as the protocol's core keeps them.
#[derive(Drop)]
pub struct Requests {
    config: Arc<Config>,
    held: Vec<Held>,
}

impl Model for Requests {
    ghost use Rattle.replica_stores.specs.Requests.{AreHeld, requests_in};
    ghost use Rattle.replica_stores.specs.Stores.{KeptRequests};

    ghost Value = { KeptRequests };

    ghost view = { λ t. record { config = t.config.value; held = requests_in t.held.items } };

    ghost invariant = { λ t. AreHeld t.config.value t.held.items };
}

impl Requests {
    /// No request. It is refused only where the count of the configuration's handles is full.
    pub fn new(alloc: Global, config: &Arc<Config>) -> Result<Requests, AllocError>
        ensures { IfOk result (λ t. t ≡ record { config = config.now.value; held = [] }) }
    {
        Ok(Requests {
            config: Arc::try_clone(config)?,
            held: Vec::new(alloc),
        })
    }

    /// Holds a request, unless one of its digest is held. The caller owes a Request under the same
    /// configuration. Where memory runs out, nothing changes.
    pub fn add(&mut self, message: &Checked) -> Result<(), AllocError>
        requires config { message.now.config ≡ self.old.config }
        requires kind { IsRequest message.now.message.body }
        ensures added { (b : RequestBody) → message.now.message.body ≡ bodies.Request b → OnOk result (self.new ≡ record self.old { held = add_request (setup_of self.old.config) (with_body message.now.message b) self.old.held }) }
        ensures unchanged { OnErr result (self.new ≡ self.old) }
    {
        let digest = request_digest(message);
        if self.find(&digest).is_none() {
            let message = message.copy()?;
            self.held.push(Held { digest, message })?;
        }
        Ok(())
    }

    /// The request of a digest, if it is held. It takes no memory.
    pub fn find(&self, digest: &Digest) -> Option<&Checked>
        ensures { option_copied result ≡ option_map (λ m. record { config = self.now.config; message = as_message bodies.Request m }) (held_with (setup_of self.now.config) self.now.held digest.now.0) }
    {
        match find_held(&self.held, digest) {
            Some(held) => Some(&held.message),
            None => None,
        }
    }

    /// The digest of the first request that is new and not proposed in the view: its time is above that of
    /// its client's last reply, and neither a recorded PrePrepare of the view nor an own proposal names it.
    /// It takes no memory.
    pub fn first_new(
        &self,
        service: &State,
        log: &QuorumLog,
        view: View,
        sent: &Sent,
    ) -> Option<Digest>
        ensures { let c = setup_of self.now.config in
            result ≡ option_map (λ m. record { 0 = digest_of c m }) (find (λ m. is_new service.now m && not (is_proposed_in view.0 (entries_in log.now.log.pre_prepares) sent.now.proposed (digest_of c m))) self.now.held) }
    {
        match find_new(&self.held, service, log, view, sent) {
            Some(held) => Some(held.digest),
            None => None,
        }
    }

    /// Forgets the requests that are not new, but those that a recorded PrePrepare names. It takes no memory.
    pub fn forget(&mut self, service: &State, log: &QuorumLog)
        ensures { self.new ≡ record self.old { held = still_held (setup_of self.old.config) service.now (entries_in log.now.log.pre_prepares) self.old.held } }
    {
        retain(&mut self.held, service, log);
    }
}

impl Held {
    ghost use Rattle.std.specs.Prelude.{◌≡◌, ◌&&◌, ◌||◌, not};
    ghost use Rattle.pbft_model.specs.Core.{is_new, names};
    ghost use Rattle.pbft_model.specs.Tables.{entries_in};
    ghost use Rattle.replica_stores.specs.Requests.{as_request, request_body};
    ghost use Rattle.replica_stores.specs.Stores.{is_proposed_in};

    // The request's time: 0 for a message of another kind, which is never held.
    fn time(&self) -> u64
        ensures { result ≡ (request_body self.now.message.message.body).time }
    {
        match self.message.body() {
            Body::Request(request) => request.time,
            _ => 0,
        }
    }

    // Whether its time is above that of its client's last reply, or its client has none.
    fn is_new(&self, service: &State) -> bool
        ensures { result ≡ is_new service.now (as_request self.now.message) }
    {
        let (_, client) = self.message.signer();
        match service.last_time(ClientId(client)) {
            Some(last) => self.time() > last,
            None => true,
        }
    }

    // Whether it is new, or a recorded PrePrepare names it.
    fn is_to_stay(&self, service: &State, log: &QuorumLog) -> bool
        ensures { result ≡ (is_new service.now (as_request self.now.message) || names (entries_in log.now.log.pre_prepares) self.now.digest.0) }
    {
        self.is_new(service) || log.names(&self.digest)
    }

    // Whether a recorded PrePrepare of the view or an own proposal names it.
    fn is_proposed(&self, log: &QuorumLog, view: View, sent: &Sent) -> bool
        ensures { result ≡ is_proposed_in view.0 (entries_in log.now.log.pre_prepares) sent.now.proposed self.now.digest.0 }
    {
        log.names_in(view, &self.digest) || sent.has_proposed(&self.digest)
    }

    fn is_to_propose(&self, service: &State, log: &QuorumLog, view: View, sent: &Sent) -> bool
        ensures { result ≡ (is_new service.now (as_request self.now.message) && not (is_proposed_in view.0 (entries_in log.now.log.pre_prepares) sent.now.proposed self.now.digest.0)) }
    {
        self.is_new(service) && !self.is_proposed(log, view, sent)
    }
}

fn find_held<'a>(held: &'a [Held], digest: &Digest) -> Option<&'a Held>
    ensures { option_copied result ≡ find (λ h. bytes_eq h.digest.0 digest.now.0) held.now }
{
    held.iter().find(|held| held.digest == *digest)
}

fn find_new<'a>(
    held: &'a [Held],
    service: &State,
    log: &QuorumLog,
    view: View,
    sent: &Sent,
) -> Option<&'a Held>
    ensures { option_copied result ≡ find (λ h. is_new service.now (as_request h.message) && not (is_proposed_in view.0 (entries_in log.now.log.pre_prepares) sent.now.proposed h.digest.0)) held.now }
{
    held.iter()
        .find(|held| held.is_to_propose(service, log, view, sent))
}

fn retain(held: &mut Vec<Held>, service: &State, log: &QuorumLog)
    ensures { held.new.items ≡ filter (λ h. is_new service.now (as_request h.message) || names (entries_in log.now.log.pre_prepares) h.digest.0) held.old.items }
{
    held.retain(|held| held.is_to_stay(service, log));
}
