//! The state of the service, and what the next request makes of it.

mod parts;

ghost use Rattle.std.specs.Prelude.{◌≡◌, ◌+◌, ◌^◌, ◌<◌, ◌≤◌, ◌++◌, flat_map, IfOk, IfErr, IsSome, is_some, OnOk, OnErr, IfSome, length, map};
ghost use Rattle.std.specs.List.{filter_map};
ghost use Rattle.std.specs.Option.{option_copied, option_map};
ghost use Rattle.std.specs.Arc.{arc_value};
ghost use Rattle.sha2.specs.Sha256.{sha256};
ghost use Rattle.host_types.specs.Configuration.{entry_of};
ghost use Rattle.service_model.specs.Words.{u32_bytes};
ghost use Rattle.service_model.specs.declared.version.Version.TheVariants.{Second};
ghost use Rattle.service_model.specs.Decoding.{Encodes, Decodes};
ghost use Rattle.service_core.specs.declared.state_fault.StateFault.TheVariants.{BadState};
ghost use Rattle.service_model.specs.TenantStates.{Service, genesis_of, tenant_index, client_index, last_reply_of};
ghost use Rattle.service_model.specs.Steps.{IsStep};
ghost use Rattle.service_core.specs.Sinks.{Feeds};
ghost use Rattle.service_model.specs.Encoding.{encoded, encoded_reply, encoded_tenant};

use crate::encoding::{put_reply, put_tenant, put_u32, put_u64};
use crate::reader::{read_head, read_replies};
use crate::sink::Sink;
use crate::state_fault::StateFault;
use crate::tenant_reader::read_tenants;
use host_types::{ClientId, Config, Digest, Reply, Request, SeqNo, TenantId};
use service_model::{Outcome, Version};
use sha2::Sha256;
use std::alloc::{AllocError, Global};
use std::marker::Model;
use std::sync::Arc;
use tenant_parts::TenantPart;

/// The state of the service under a configuration: how many requests it has taken, and each tenant's
/// procedures, map and last replies.
#[derive(Drop)]
pub struct State {
    alloc: Global,
    config: Arc<Config>,
    number: u64,
    tenants: Vec<TenantPart>,
}

impl Model for State {
    ghost use Rattle.std.specs.Prelude.{◌≡◌, map};
    ghost use Rattle.std.specs.Arc.{arc_value};
    ghost use Rattle.host_types.specs.Configuration.{tenants_of};
    ghost use Rattle.service_model.specs.TenantStates.{Service};
    ghost use Rattle.service_model.specs.Equality.{service_code};

    ghost Value = { Service };

    ghost coded = { service_code };

    ghost view = { λ s. record { config = arc_value s.config; number = s.number; tenants = s.tenants.items } };

    ghost invariant = { λ s. map (λ part. part.tenant) s.tenants.items ≡ map (λ tenant. tenant.0) (tenants_of (arc_value s.config).clients) };
}

impl State {
    /// The state before the first request: number 0, and each tenant of the configuration has
    /// nothing. The state takes its memory from `alloc`.
    pub fn genesis(alloc: Global, config: Arc<Config>) -> Result<State, AllocError>
        ensures { IfOk result (λ state. state ≡ genesis_of (arc_value config)) }
    {
        let mut tenants = Vec::new(alloc);
        let all = config.tenant_ids();
        let ids = all.as_slice();
        for tenant in ids {
            tenants.push(TenantPart::new(alloc, *tenant))?;
        }
        Ok(State {
            alloc,
            config,
            number: 0,
            tenants,
        })
    }

    /// The state whose encoding under the configuration these bytes are, in version 1 or 2. `BadState`
    /// comes exactly where there is no such state: for another version or encoding, a number of 2^48 or
    /// more, a reply to a client that is not listed, of a number that is 0 or above the state's, or with
    /// a result over 265 bytes, tenants other than the configuration's, a profile that is neither 1 nor
    /// 2, code that the verifier refuses under its profile (in version 1 under the first), or a passed
    /// limit. `Memory` comes where memory ran out. The state takes its memory from `alloc`.
    pub fn from_bytes(alloc: Global, config: Arc<Config>, bytes: &[u8]) -> Result<State, StateFault>
        ensures state { IfOk result (λ state. Decodes (arc_value config) bytes.now state) }
        ensures none { IfErr result (λ fault. fault ≡ BadState → (state : Service) → Decodes (arc_value config) bytes.now state → ⊥) }
    {
        let (version, number, rest) = read_head(bytes)?;
        let (replies, rest) = read_replies(alloc, &config, number, rest)?;
        let (tenants, rest) = read_tenants(alloc, version, &config, &replies, rest)?;
        if !rest.is_empty() {
            return Err(StateFault::BadState);
        }
        Ok(State {
            alloc,
            config,
            number,
            tenants,
        })
    }

    /// The state whose canonical encoding under the configuration these bytes are: the one that
    /// `to_bytes` gives them for. `BadState` comes exactly where there is no such state: where
    /// `from_bytes` gives it, and for version 1. `Memory` comes where memory ran out. The state takes
    /// its memory from `alloc`.
    pub fn from_canonical(
        alloc: Global,
        config: Arc<Config>,
        bytes: &[u8],
    ) -> Result<State, StateFault>
        ensures state { IfOk result (λ state. Encodes (arc_value config) bytes.now state) }
        ensures none { IfErr result (λ fault. fault ≡ BadState → (state : Service) → Encodes (arc_value config) bytes.now state → ⊥) }
    {
        if bytes.first().copied() != Some(Version::Second.number()) {
            return Err(StateFault::BadState);
        }
        State::from_bytes(alloc, config, bytes)
    }

    /// Takes the next request, or the null request, which raises the number and does nothing else. The
    /// client has to be listed, and the number has to stay below 2^48. When it runs out of memory the
    /// state is unusable: it has its configuration and its number, and nothing is promised of its tenants.
    pub fn apply(&mut self, request: Option<&Request>) -> Result<Outcome, AllocError>
        requires number { self.old.number + 1 < 2 ^ 48 }
        requires listed { IfSome (option_copied request) (λ taken. IsSome (entry_of self.old.config.clients taken.client.0)) }
        ensures step { IfOk result (λ outcome. IsStep self.old (option_copied request.entry) self.new outcome) }
        ensures rest { OnErr result (self.new ≡ record self.old { tenants = self.new.tenants }) }
    {
        let number = self.number + 1;
        let Some(request) = request else {
            self.number = number;
            return Ok(Outcome {
                number: SeqNo(number),
                reply: None,
                kept: false,
            });
        };
        let Some(index) = self.client_index(request.client) else {
            unreachable!()
        };
        let tenant = &mut self.tenants[index];
        let outcome = tenant.apply_at(SeqNo(number), request)?;
        self.number = number;
        Ok(outcome)
    }

    /// The index of the client's tenant among the state's parts, or none where the client isn't listed.
    pub fn client_index(&self, client: ClientId) -> Option<usize>
        ensures { result ≡ client_index self.now client.0 }
    {
        match self.config.client(client) {
            Some(entry) => tenant_index(&self.tenants, entry.tenant),
            None => None,
        }
    }

    /// Whether the client is listed, so that its requests can be taken. Takes no memory.
    pub fn is_listed(&self, client: ClientId) -> bool
        ensures { result ≡ is_some (entry_of self.now.config.clients client.0) }
    {
        self.config.client(client).is_some()
    }

    /// How many requests were taken, null ones included.
    pub fn number(&self) -> SeqNo
        ensures { result.0 ≡ self.now.number }
    {
        SeqNo(self.number)
    }

    /// The last reply to a client, if it has one.
    pub fn last_reply(&self, client: ClientId) -> Option<&Reply>
        ensures value { option_copied result ≡ last_reply_of self.now client.0 }
        ensures short { IfSome (option_copied result) (λ reply. length reply.result ≤ 265) }
    {
        match self.client_index(client) {
            Some(index) => self.tenants[index].last_reply(client),
            None => None,
        }
    }

    /// The time of the last reply to a client, if it has one.
    pub fn last_time(&self, client: ClientId) -> Option<u64>
        ensures { result ≡ option_map (λ reply. reply.time) (last_reply_of self.now client.0) }
    {
        match self.last_reply(client) {
            Some(reply) => Some(reply.time),
            None => None,
        }
    }

    /// The canonical encoding of the state, version 2. Its memory is from the state's allocator.
    pub fn to_bytes(&self) -> Result<Vec<u8>, AllocError>
        ensures { IfOk result (λ bytes. bytes.items ≡ encoded self.now) }
    {
        let mut bytes = Vec::new(self.alloc);
        self.put(&mut bytes)?;
        Ok(bytes)
    }

    /// The SHA-256 digest of the state's bytes. It takes no memory.
    pub fn digest(&self) -> Digest
        ensures { result.0 ≡ sha256 (encoded self.now) }
    {
        let mut hasher = <Sha256 as sha2::Digest>::new();
        match self.put(&mut hasher) {
            Ok(()) => Digest(sha2::Digest::finalize(hasher)),
            Err(never) => match never {},
        }
    }

    /// Puts the state's bytes into a sink.
    fn put<S: Sink>(&self, sink: &mut S) -> Result<(), S::Fault>
        ensures { OnOk result (Feeds S.holds sink.old sink.new (encoded self.now)) }
    {
        sink.emit(&[Version::Second.number()])?;
        put_u64(sink, self.number)?;
        let all = self.config.client_ids();
        let ids = all.as_slice();
        put_u32(sink, self.reply_count(ids))?;
        self.put_replies(sink, ids)?;
        put_tenants(sink, &self.tenants)
    }

    /// Puts the last replies of those clients into a sink that have one.
    fn put_replies<S: Sink>(&self, sink: &mut S, ids: &[ClientId]) -> Result<(), S::Fault>
        ensures { OnOk result (Feeds S.holds sink.old sink.new (flat_map encoded_reply (filter_map (λ id. last_reply_of self.now id.0) ids.now))) }
    {
        for id in ids {
            if let Some(reply) = self.last_reply(*id) {
                put_reply(sink, reply)?;
            }
        }
        Ok(())
    }

    /// How many of the clients have a reply.
    fn reply_count(&self, ids: &[ClientId]) -> u32
        requires { length ids.now ≤ 64 }
        ensures { result ≡ length (filter_map (λ id. last_reply_of self.now id.0) ids.now) }
    {
        let mut count = 0;
        for id in ids {
            if self.last_reply(*id).is_some() {
                count += 1;
            }
        }
        count
    }
}

/// The index of a tenant.
fn tenant_index(tenants: &[TenantPart], tenant: TenantId) -> Option<usize>
    ensures { result ≡ tenant_index tenants.now tenant.0 }
{
    tenants.iter().position(|part| part.tenant().0 == tenant.0)
}

/// Puts the tenants' parts into a sink, after their count.
fn put_tenants<S: Sink>(sink: &mut S, tenants: &[TenantPart]) -> Result<(), S::Fault>
    requires { length tenants.now ≤ 8 }
    ensures { OnOk result (Feeds S.holds sink.old sink.new (u32_bytes (length tenants.now) ++ flat_map (encoded_tenant Second) tenants.now)) }
{
    put_u32(sink, tenants.len() as u32)?;
    for tenant in tenants {
        put_tenant(sink, tenant)?;
    }
    Ok(())
}
