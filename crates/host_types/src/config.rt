//! The configuration: who takes part, with what limits.

ghost use Rattle.std.specs.Prelude.{◌≡◌, ◌≢◌, ◌↔◌, IsTrue, ℕ, ◌+◌, ◌*◌, ◌%◌, ◌==◌, ◌<◌, None, Some, MatchResult, MatchOption, MatchBool, length, slice_get, slice_index_or, take_while, nat_lt};
ghost use Rattle.std.specs.List.{list_any};
ghost use Rattle.std.specs.Option.{option_copied};
ghost use Rattle.arrayvec.specs.ArrayVec.{array_vec_len};
ghost use Rattle.host_types.specs.Configuration.{Configuration, IsConfiguration, IsAscending, replicas_for, client_ids_of, tenants_of, too_many, some_client_twice, fault_of, entry_of, number_of};

use crate::ascending::insert_sorted;
use crate::limits::{MAX_CLIENTS, MAX_FAULTY};
use crate::{ClientId, PublicKey, ReplicaId, TenantId, View};
use arrayvec::ArrayVec;
use std::marker::Model;
use thiserror::Error;

/// The greatest interval between checkpoints.
const MAX_CHECKPOINT_INTERVAL: u8 = 8;

/// Client ids below this one are none.
const MIN_CLIENT: u32 = 16;

/// A client: its name, the tenant whose procedures it calls, and the key that its requests verify
/// under.
#[derive(Clone, Copy, Debug, PartialEq, Eq)]
pub struct ClientEntry {
    pub id: ClientId,
    pub tenant: TenantId,
    pub key: PublicKey,
}

/// Why there is no configuration. Of several faults the first is reported, in the order
/// `BadF`, `WrongReplicaCount`, `BadInterval`, `TooMany`, `DuplicateClient`.
#[derive(Clone, Copy, Debug, PartialEq, Eq, Error)]
pub enum ConfigFault {
    /// The number of faulty replicas is not 1 to 3.
    #[error("BadF")]
    BadF = 1,
    /// There are not 3f+1 replica keys.
    #[error("WrongReplicaCount")]
    WrongReplicaCount = 2,
    /// The interval between checkpoints is not 1 to 8.
    #[error("BadInterval")]
    BadInterval = 3,
    /// A client is listed twice.
    #[error("DuplicateClient")]
    DuplicateClient = 4,
    /// There are more than 64 clients or more than 8 tenants, or a client's id is below 16.
    #[error("TooMany")]
    TooMany = 6,
}

impl ConfigFault {
    /// The fault's number.
    pub fn number(&self) -> u8
        ensures { result ≡ number_of self.now }
    {
        *self as u8
    }
}

/// Who takes part: 3f+1 replicas, of which at most f may be faulty (Castro and Liskov 1999, section
/// 2), by their public keys, and the clients. A checkpoint is made at every k-th number. It never
/// changes, and takes no memory but that of the lists it is given.
#[derive(Debug, Drop)]
pub struct Config {
    f: u8,
    k: u8,
    keys: Vec<PublicKey>,
    clients: Vec<ClientEntry>,
}

impl Model for Config {
    ghost use Rattle.host_types.specs.Configuration.{Configuration, IsConfiguration};

    ghost Value = { Configuration };

    ghost view = { λ c. record { f = c.f; k = c.k; keys = c.keys.items; clients = c.clients.items } };

    ghost invariant = { λ c. IsConfiguration (record { f = c.f; k = c.k; keys = c.keys.items; clients = c.clients.items }) };
}

impl Config {
    /// A configuration of these replicas and clients. It is refused exactly where it has a fault, and
    /// then the lists are dropped.
    pub fn new(
        f: u8,
        k: u8,
        keys: Vec<PublicKey>,
        clients: Vec<ClientEntry>,
    ) -> Result<Config, ConfigFault>
        ensures { let given : Configuration = record { f = f; k = k; keys = keys.items; clients = clients.items } in
            MatchResult result (λ config. (fault_of given ≡ None) × (config ≡ given)) (λ fault. fault_of given ≡ Some fault) }
    {
        if f < 1 || f > MAX_FAULTY {
            return Err(ConfigFault::BadF);
        }
        if keys.len() != 3 * usize::from(f) + 1 {
            return Err(ConfigFault::WrongReplicaCount);
        }
        if k < 1 || k > MAX_CHECKPOINT_INTERVAL {
            return Err(ConfigFault::BadInterval);
        }
        if has_too_many(&clients) {
            return Err(ConfigFault::TooMany);
        }
        if has_client_twice(&clients) {
            return Err(ConfigFault::DuplicateClient);
        }
        Ok(Config {
            f,
            k,
            keys,
            clients,
        })
    }

    /// How many replicas may be faulty.
    pub fn f(&self) -> u8
        ensures value { result ≡ self.now.f }
        ensures legal { IsConfiguration self.now }
    {
        self.f
    }

    /// The distance between checkpoints.
    pub fn k(&self) -> u8
        ensures value { result ≡ self.now.k }
        ensures legal { IsConfiguration self.now }
    {
        self.k
    }

    /// How many replicas there are: 3f+1.
    pub fn replica_count(&self) -> u8
        ensures value { result ≡ replicas_for self.now.f }
        ensures legal { IsConfiguration self.now }
    {
        3 * self.f + 1
    }

    /// The primary of a view: the replicas take turns (Castro and Liskov 1999, section 4).
    pub fn primary(&self, view: View) -> ReplicaId
        ensures { result.0 ≡ view.0 % replicas_for self.now.f }
    {
        let count = u32::from(self.replica_count());
        ReplicaId((view.0 % count) as u8)
    }

    /// The key of a replica, or none where there is no replica of that number.
    pub fn replica_key(&self, id: ReplicaId) -> Option<&PublicKey>
        ensures { option_copied result ≡ slice_get self.now.keys id.0 }
    {
        self.keys.get(usize::from(id.0))
    }

    /// The entry of a client, or none where it isn't listed.
    pub fn client(&self, id: ClientId) -> Option<&ClientEntry>
        ensures { option_copied result ≡ entry_of self.now.clients id.0 }
    {
        self.clients.iter().find(|client| client.id.0 == id.0)
    }

    /// The clients, as they were listed.
    pub fn clients(&self) -> &[ClientEntry]
        ensures value { result.now ≡ self.now.clients }
        ensures legal { IsConfiguration self.now }
    {
        &self.clients
    }

    /// Whether the other configuration is equal to this one. It takes no memory.
    pub fn is_same(&self, other: &Config) -> bool
        ensures { IsTrue result ↔ (self.now ≡ other.now) }
    {
        self.f == other.f
            && self.k == other.k
            && same_keys(&self.keys, &other.keys)
            && same_clients(&self.clients, &other.clients)
    }

    /// The different tenants of the clients, ascending. A tenant is there only by a client.
    pub fn tenant_ids(&self) -> ArrayVec<TenantId, 8>
        ensures value { result.items ≡ tenants_of self.now.clients }
        ensures ascending { IsAscending result.items }
        ensures by_client { (q : ℕ) → list_any (λ tenant. tenant.0 == q) result.items ≡ list_any (λ client. client.tenant.0 == q) self.now.clients }
    {
        match tenants(&self.clients) {
            Some(tenants) => tenants,
            None => unreachable!(),
        }
    }

    /// The clients' ids, ascending.
    pub fn client_ids(&self) -> ArrayVec<ClientId, 64>
        ensures value { result.items ≡ client_ids_of self.now.clients }
        ensures legal { IsConfiguration self.now }
    {
        match client_ids(&self.clients) {
            Some(ids) => ids,
            None => unreachable!(),
        }
    }
}

// Whether two lists of keys are equal.
fn same_keys(left: &[PublicKey], right: &[PublicKey]) -> bool
    ensures { IsTrue result ↔ (left.now ≡ right.now) }
{
    left == right
}

// Whether two lists of clients are equal.
fn same_clients(left: &[ClientEntry], right: &[ClientEntry]) -> bool
    ensures { IsTrue result ↔ (left.now ≡ right.now) }
{
    left == right
}

// Whether there are more clients or tenants than may be, or a client's id that is none.
fn has_too_many(clients: &[ClientEntry]) -> bool
    ensures { result ≡ too_many clients.now }
{
    if clients.len() > MAX_CLIENTS {
        return true;
    }
    if tenants(clients).is_none() {
        return true;
    }
    has_small_id(clients)
}

// Whether a client has an id below those of clients.
fn has_small_id(clients: &[ClientEntry]) -> bool
    ensures { result ≡ list_any (λ client. nat_lt client.id.0 16) clients.now }
{
    clients.iter().any(|client| client.id.0 < MIN_CLIENT)
}

// Whether a client is listed again.
fn has_client_twice(clients: &[ClientEntry]) -> bool
    ensures { result ≡ some_client_twice clients.now }
{
    for (i, client) in clients.iter().enumerate() {
        if has_client(&clients[i + 1..], client.id) {
            return true;
        }
    }
    false
}

// Whether a client is listed.
fn has_client(clients: &[ClientEntry], id: ClientId) -> bool
    ensures { result ≡ list_any (λ client. client.id.0 == id.0) clients.now }
{
    clients.iter().any(|client| client.id.0 == id.0)
}

// The different tenants of the clients, ascending, unless there are more than 8.
fn tenants(clients: &[ClientEntry]) -> Option<ArrayVec<TenantId, 8>>
    ensures { MatchOption result (8 < length (tenants_of clients.now)) (λ tenants. tenants.items ≡ tenants_of clients.now) }
{
    let mut tenants = ArrayVec::new();
    for client in clients {
        if !insert_sorted(&mut tenants, client.tenant) {
            return None;
        }
    }
    Some(tenants)
}

// The ids of the clients, ascending, unless there are more than 64.
fn client_ids(clients: &[ClientEntry]) -> Option<ArrayVec<ClientId, MAX_CLIENTS>>
    ensures { MatchOption result (64 < length (client_ids_of clients.now)) (λ ids. ids.items ≡ client_ids_of clients.now) }
{
    let mut ids = ArrayVec::new();
    for client in clients {
        if !insert_sorted(&mut ids, client.id) {
            return None;
        }
    }
    Some(ids)
}
