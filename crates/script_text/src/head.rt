//! The head of a script, and its keys.

ghost use Rattle.std.specs.Prelude.{◌≡◌, ◌≤◌, ◌⊎◌, IfOk, MatchResult, Result, false, is_none, map, replicate};
ghost use Rattle.host_types.specs.Configuration.{fault_of, replicas_for};
ghost use Rattle.toml.specs.Data.{as_array};
ghost use Rattle.toml.specs.View.{table_view, view};
ghost use Rattle.script_text.specs.Dialects.{has_item, head_for, names_faulty};
ghost use Rattle.script_values.specs.declared.fault.TableFault.{TableFault};
ghost use Rattle.script_values.specs.declared.fault.TableFault.TheVariants.{BadConfig, Memory};
ghost use Rattle.script_values.specs.Faults.{IsUnlessMemory};
ghost use Rattle.script_values.specs.Forms.{only_keys};
ghost use Rattle.script_text.specs.Heads.{IsLegal, byte_of, client_heights_in, client_shape, count_of_faulty, head_from, head_in, head_keys, head_of, if_legal, keyless, keyless_configuration, listed_clients, named_count, needed_head, no_key, optional_faulty, optional_head, replica_count};
ghost use Rattle.script_values.specs.KeyShapes.{given_or, leaves_of, shape_at};

use crate::dialect::Dialect;
use host_types::limits::MAX_FAULTY;
use host_types::{ClientEntry, ClientId, Config, PublicKey, ReplicaId, TenantId};
use lms_tree::Height;
use pbft_codec::Sequence;
use script_values::{
    AnyTable, BottomHeight, Client, Form, Integer, KEY_LISTS, KeyHeight, KeyShape, ListOf,
    ReplicaIndex, ReplicaKeys, Secret, SecretDigits, TableFault, Word, needed, optional, pair,
    read_keys, table_of, unknown_where, value_at, with_only, wrong_where,
};
use std::alloc::{AllocError, Global};
use std::marker::Model;
use toml::{Table, Value};

/// The keys of a head, but for the lists of the replicas' keys.
const OWN_KEYS: [&str; 8] = [
    "f",
    "k",
    "secret",
    "client_height",
    "client_bottom",
    "faulty",
    "client",
    "step",
];

/// What the keys of a head take, but for the lists of the replicas' keys. A line for each key: where it stands, the key, a
/// value that it takes, as TOML or as a word for one of the script's own, and what it takes in words.
pub const HEAD_HINTS: &str = r#"head | f | 1 | 1, 2 or 3
head | k | 8 | a number from 1 to 8
head | secret | "0000000000000000000000000000000000000000000000000000000000000000" | 64 hex digits, without blanks
head | client_height | 5 | 5 or 10
head | client_bottom | 0 | 0, 5 or 10
head | faulty | [] | a list of ids of replicas, from 0 to 3f; under run no replica is faulty
head | client | [] | tables, each of a client
head | step | [] | tables, each of a step
"#;

/// The keys of a client.
const CLIENT_KEYS: [&str; 2] = ["id", "tenant"];

/// What the keys of a client take, likewise.
pub const CLIENT_HINTS: &str = r#"client | id | 65536 | a number from 16 to 4,294,967,295
client | tenant | 0 | a number from 0 to 4,294,967,295
"#;

/// A key that no signature verifies under.
const NO_KEY: PublicKey = PublicKey::Lms([0; 56]);

/// The head of a script: who takes part.
#[derive(Drop)]
pub struct Head {
    f: u8,
    k: u8,
    secret: Secret,
    keys: ReplicaKeys,
    client_height: Height,
    client_bottom: Option<Height>,
    faulty: Sequence<ReplicaId>,
    clients: Sequence<Client>,
}

impl Model for Head {
    ghost use Rattle.script_text.specs.Heads.{HeadFacts, IsLegal};

    ghost Value = { HeadFacts };

    ghost view = { λ h. record { f = h.f; k = h.k; secret = h.secret; keys = h.keys; client_height = h.client_height; client_bottom = h.client_bottom; faulty = h.faulty; clients = h.clients } };

    ghost invariant = { λ h. IsLegal h.f h.k h.clients };
}

impl Head {
    /// How many replicas may be faulty.
    pub fn f(&self) -> u8
        ensures value { result ≡ self.now.f }
        ensures legal { IsLegal self.now.f self.now.k self.now.clients }
    {
        self.f
    }

    /// The distance between checkpoints.
    pub fn k(&self) -> u8
        ensures { result ≡ self.now.k }
    {
        self.k
    }

    /// How many replicas there are.
    pub fn replica_count(&self) -> u8
        ensures { result ≡ replicas_for self.now.f }
    {
        3 * self.f + 1
    }

    /// What all keys are made of.
    pub fn secret(&self) -> &Secret
        ensures { result.now ≡ self.now.secret }
    {
        &self.secret
    }

    /// How a replica's key is made. It has the leaves that are used at the start.
    pub fn replica_key(&self, id: ReplicaId) -> KeyShape
        ensures value { result ≡ shape_at self.now.keys id.0 }
        ensures spendable { result.spent ≤ leaves_of result }
    {
        self.keys.shape(id)
    }

    /// How each client's key is made. None of its leaves is used at the start.
    pub fn client_key(&self) -> KeyShape
        ensures { result ≡ client_shape self.now }
    {
        KeyShape::unspent(self.client_height, self.client_bottom)
    }

    /// The faulty replicas, as they are listed.
    pub fn faulty(&self) -> &[ReplicaId]
        ensures { result.now ≡ self.now.faulty }
    {
        self.faulty.as_slice()
    }

    /// The clients, as they are listed.
    pub fn clients(&self) -> &[Client]
        ensures { result.now ≡ self.now.clients }
    {
        self.clients.as_slice()
    }
}

// ---- what its keys say

/// What is needed of a head, as it is written.
#[derive(Drop)]
struct Needed {
    f: i64,
    k: i64,
    secret: Secret,
}

/// What may be left out.
#[derive(Drop)]
struct Optional {
    keys: ReplicaKeys,
    client_height: Height,
    client_bottom: Option<Height>,
    faulty: Option<Sequence<ReplicaId>>,
}

/// The head of a document in a dialect. Its first fault is reported.
pub(crate) fn read_head(alloc: Global, dialect: Dialect, table: &Table) -> Result<Head, TableFault>
    ensures { IsUnlessMemory result (head_for dialect (table_view table.now)) }
{
    match dialect {
        Dialect::World | Dialect::Seeded => read_any_head(alloc, table),
        Dialect::Threads => unknown_where(
            value_at(table, "spent").is_some(),
            wrong_where(names_faulty(table), read_any_head(alloc, table)),
        ),
    }
}

/// Whether a document lists a faulty replica.
fn names_faulty(table: &Table) -> bool
    ensures { result ≡ names_faulty (table_view table.now) }
{
    match value_at(table, "faulty") {
        Some(value) => has_item(value),
        None => false,
    }
}

fn has_item(value: &Value) -> bool
    ensures { result ≡ has_item (as_array (view value.now)) }
{
    match value.as_array() {
        Some(items) => !items.is_empty(),
        None => false,
    }
}

/// The head of a document.
fn read_any_head(alloc: Global, table: &Table) -> Result<Head, TableFault>
    ensures { IsUnlessMemory result (head_in (table_view table.now)) }
{
    let named = pair(
        read_needed(alloc, table),
        pair(read_optional(alloc, table), read_lists(alloc, table)),
    );
    let (needed, (optional, clients)) = with_head_keys(alloc, named, table)?;
    head_from(alloc, needed, optional, clients)
}

/// A reading of a head that has no other keys than those of a head.
fn with_head_keys<A: Drop>(
    alloc: Global,
    reading: Result<A, TableFault>,
    table: &Table,
) -> Result<A, TableFault>
    ensures { (a : Result A TableFault) → IsUnlessMemory reading a → IsUnlessMemory result (only_keys a head_keys (table_view table.now)) }
{
    let keys = head_keys(alloc)?;
    with_only(reading, table, &keys)
}

/// All keys of a head.
fn head_keys(alloc: Global) -> Result<Vec<&'static str>, AllocError>
    ensures { IfOk result (λ keys. map (λ k. k.now) keys.items ≡ head_keys) }
{
    let mut keys = Vec::new(alloc);
    keys.extend_from_slice(&OWN_KEYS)?;
    keys.extend_from_slice(&KEY_LISTS)?;
    Ok(keys)
}

/// The head of these values, or `BadConfig`.
fn head_from(
    alloc: Global,
    needed: Needed,
    optional: Optional,
    clients: Option<Sequence<Client>>,
) -> Result<Head, TableFault>
    ensures { IsUnlessMemory result (head_from (byte_of needed.f) (byte_of needed.k) needed.secret optional clients) }
{
    match (byte_of(needed.f), byte_of(needed.k)) {
        (Some(f), Some(k)) => legal_head(alloc, f, k, needed.secret, optional, clients),
        _ => Err(TableFault::BadConfig),
    }
}

/// An integer that is a byte.
fn byte_of(integer: i64) -> Option<u8>
    ensures { result ≡ byte_of integer }
{
    match u8::try_from(integer) {
        Ok(byte) => Some(byte),
        Err(_) => None,
    }
}

/// The head of these values, if it is that of a configuration.
fn legal_head(
    alloc: Global,
    f: u8,
    k: u8,
    secret: Secret,
    optional: Optional,
    clients: Option<Sequence<Client>>,
) -> Result<Head, TableFault>
    ensures { IsUnlessMemory result (if_legal (head_of f k secret optional clients)) }
{
    let clients = given_or(clients, Sequence::from_vec(Vec::new(alloc)));
    must_be_legal(alloc, f, k, clients.as_slice())?;
    let faulty = given_or(optional.faulty, Sequence::from_vec(Vec::new(alloc)));
    Ok(Head {
        f,
        k,
        secret,
        keys: optional.keys,
        client_height: optional.client_height,
        client_bottom: optional.client_bottom,
        faulty,
        clients,
    })
}

/// Refuses what is the head of no configuration.
fn must_be_legal(alloc: Global, f: u8, k: u8, clients: &[Client]) -> Result<(), TableFault>
    ensures { MatchResult result (λ _. IsLegal f k clients.now) (λ fault. (fault ≡ Memory) ⊎ ((fault ≡ BadConfig) × (is_none (fault_of (keyless_configuration f k clients.now)) ≡ false))) }
{
    let legal = is_legal(alloc, f, k, clients)?;
    if !legal {
        return Err(TableFault::BadConfig);
    }
    Ok(())
}

/// The number of replicas for a legal number of faulty ones.
fn replica_count(f: i64) -> Option<u8>
    ensures { result ≡ replica_count f }
{
    match f {
        1 => Some(4),
        2 => Some(7),
        3 => Some(10),
        _ => None,
    }
}

/// The number of replicas for the number of faulty ones that a table names.
fn named_count(table: &Table) -> Option<u8>
    ensures { result ≡ named_count (table_view table.now) }
{
    let value = value_at(table, "f")?;
    replica_count(value.as_integer()?)
}

fn read_needed(alloc: Global, table: &Table) -> Result<Needed, TableFault>
    ensures { IsUnlessMemory result (needed_head (table_view table.now)) }
{
    let (f, (k, secret)) = pair(
        needed(alloc, table, "f", &Integer),
        pair(
            needed(alloc, table, "k", &Integer),
            needed(alloc, table, "secret", &SecretDigits),
        ),
    )?;
    Ok(Needed { f, k, secret })
}

fn read_optional(alloc: Global, table: &Table) -> Result<Optional, TableFault>
    ensures { IsUnlessMemory result (optional_head (table_view table.now)) }
{
    let (keys, ((client_height, client_bottom), faulty)) = pair(
        read_keys(alloc, named_count(table), table),
        pair(read_client_heights(alloc, table), read_faulty(alloc, table)),
    )?;
    Ok(Optional {
        keys,
        client_height,
        client_bottom,
        faulty,
    })
}

/// The heights of the clients' keys.
fn read_client_heights(alloc: Global, table: &Table) -> Result<(Height, Option<Height>), TableFault>
    ensures { IsUnlessMemory result (client_heights_in (table_view table.now)) }
{
    let (height, bottom) = pair(
        optional(alloc, table, "client_height", &KeyHeight),
        optional(alloc, table, "client_bottom", &BottomHeight),
    )?;
    Ok((given_or(height, Height::H5), given_or(bottom, None)))
}

/// The faulty ones among the replicas.
fn read_faulty(alloc: Global, table: &Table) -> Result<Option<Sequence<ReplicaId>>, TableFault>
    ensures { IsUnlessMemory result (optional_faulty (table_view table.now)) }
{
    let form = ReplicaIndex {
        count: count_of_faulty(table),
    };
    optional(alloc, table, "faulty", &ListOf(form))
}

/// Below which count a faulty replica's index is: any byte's where the number of replicas isn't known.
fn count_of_faulty(table: &Table) -> u8
    ensures { result ≡ count_of_faulty (table_view table.now) }
{
    match named_count(table) {
        Some(count) => count,
        None => u8::MAX,
    }
}

/// The clients, if the steps are a list of tables too.
fn read_lists(alloc: Global, table: &Table) -> Result<Option<Sequence<Client>>, TableFault>
    ensures { IsUnlessMemory result (listed_clients (table_view table.now)) }
{
    let (clients, _) = pair(
        optional(alloc, table, "client", &ListOf(ClientTable)),
        optional(alloc, table, "step", &ListOf(AnyTable)),
    )?;
    Ok(clients)
}

/// A client's table.
#[derive(Clone, Copy)]
struct ClientTable;

impl Form for ClientTable {
    ghost use Rattle.script_text.specs.Heads.{client};

    ghost reads = { λ _ d. client d };

    type Says = Client;

    fn read(&self, alloc: Global, value: &Value) -> Result<Client, TableFault> {
        let table = table_of(value)?;
        let named = pair(
            needed(alloc, table, "id", &Word),
            needed(alloc, table, "tenant", &Word),
        );
        let (id, tenant) = with_only(named, table, &CLIENT_KEYS)?;
        Ok(Client {
            id: ClientId(id),
            tenant: TenantId(tenant),
        })
    }
}

/// Whether this is the head of a configuration, whatever the keys.
fn is_legal(alloc: Global, f: u8, k: u8, clients: &[Client]) -> Result<bool, AllocError>
    ensures { IfOk result (λ legal. legal ≡ is_none (fault_of (keyless_configuration f k clients.now))) }
{
    if f > MAX_FAULTY {
        return Ok(false);
    }
    let keys = no_keys(alloc, 3 * f + 1)?;
    let clients = keyless_entries(alloc, clients)?;
    Ok(Config::new(f, k, keys, clients).is_ok())
}

/// So many keys that no signature verifies under.
fn no_keys(alloc: Global, count: u8) -> Result<Vec<PublicKey>, AllocError>
    ensures { IfOk result (λ keys. keys.items ≡ replicate count no_key) }
{
    let mut keys = Vec::new(alloc);
    for _ in 0..count {
        keys.push(NO_KEY)?;
    }
    Ok(keys)
}

/// Entries of clients whose keys no signature verifies under.
fn keyless_entries(alloc: Global, clients: &[Client]) -> Result<Vec<ClientEntry>, AllocError>
    ensures { IfOk result (λ entries. entries.items ≡ map keyless clients.now) }
{
    clients.iter().map(keyless).collect(alloc)
}

fn keyless(client: &Client) -> ClientEntry
    ensures { result ≡ keyless client.now }
{
    ClientEntry {
        id: client.id,
        tenant: client.tenant,
        key: NO_KEY,
    }
}

/// What is given, or else another.
fn given_or<T: Drop>(given: Option<T>, other: T) -> T
    ensures { result ≡ given_or given other }
{
    match given {
        Some(given) => given,
        None => other,
    }
}
