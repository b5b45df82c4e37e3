//! The keys of a script's replicas and clients, made of its secret.

ghost use Rattle.std.specs.Prelude.{◌≡◌, ◌≤◌, ◌<◌, ◌+◌, IfOk, OnOk, length, map};
ghost use Rattle.host_types.specs.Configuration.{replicas_for};
ghost use Rattle.host_types.specs.declared.config.ClientEntry.{ClientEntry};
ghost use Rattle.lms_tree.specs.Keys.{after_signing, leaf_count, signature_of};
ghost use Rattle.script_text.specs.KeyShapes.{leaves_of};
ghost use Rattle.world_script.specs.Keys.{AreKeys, client_signer, configuration_of, entry_of, key_hash, keys_of, mark_of, number_of, part_number, replica_signers, signer_of, spent_message};
ghost use Rattle.world_queue.specs.Parties.{key_of};

use crate::progress::{Progress, Unwatched};
use host_types::{ClientEntry, ClientId, Config, PublicKey, ReplicaId};
use lms_tree::{KeySource, SignFault, Signer};
use script_text::{Head, KeyShape, Secret};
use sha2::{Digest, Sha256};
use std::alloc::{AllocError, Global};
use std::marker::Model;

/// Whose key is made.
#[derive(Clone, Copy, Debug, PartialEq, Eq)]
enum Owner {
    Replica(ReplicaId),
    Client(ClientId),
}

impl Owner {
    /// What distinguishes the keys of replicas from those of clients.
    fn mark(self) -> u8
        ensures { result ≡ mark_of self }
    {
        match self {
            Owner::Replica(_) => 0x52,
            Owner::Client(_) => 0x43,
        }
    }

    fn number(self) -> u32
        ensures { result ≡ number_of self }
    {
        match self {
            Owner::Replica(id) => u32::from(id.0),
            Owner::Client(id) => id.0,
        }
    }
}

/// Which part of a key is made.
#[derive(Clone, Copy, Debug, PartialEq, Eq)]
enum Part {
    Identity = 0,
    Seed = 1,
}

impl Part {
    fn number(self) -> u8
        ensures { result ≡ part_number self }
    {
        self as u8
    }
}

/// A configuration, and fresh signers of the keys that it lists.
#[derive(Drop)]
pub struct Keys {
    pub config: Config,
    /// One for each replica, ids ascending.
    pub replicas: Vec<Signer>,
    /// One for each client, in the order of the head.
    pub clients: Vec<Signer>,
    ghost are_keys: { AreKeys config replicas.items clients.items },
}

/// The configuration of a head, with fresh signers. The error is that memory ran out.
pub fn make_keys(alloc: Global, head: &Head) -> Result<Keys, AllocError>
    ensures config { IfOk result (λ keys. keys.config ≡ configuration_of head.now) }
    ensures replicas { IfOk result (λ keys. keys.replicas.items ≡ replica_signers head.now) }
    ensures clients { IfOk result (λ keys. keys.clients.items ≡ map (client_signer head.now) head.now.clients) }
{
    let sources = KeySources::new(alloc, head)?;
    sources.keys(alloc, head)
}

/// The sources of a head's keys, which are made once for a script that runs many times. Contracts see the signers that
/// they give.
#[derive(Drop)]
pub struct KeySources {
    // One for each replica, ids ascending.
    replicas: Vec<OwnSource>,
    // One for each client, in the order of the head.
    clients: Vec<OwnSource>,
}

impl Model for KeySources {
    ghost use Rattle.world_script.specs.Keys.{KeyFacts};

    ghost Value = { KeyFacts };

    ghost view = { λ s. record { replicas = s.replicas.items; clients = s.clients.items } };
}

impl KeySources {
    /// The sources of a head's keys. It makes the keys' trees. The error is that memory ran out.
    pub fn new(alloc: Global, head: &Head) -> Result<KeySources, AllocError>
        ensures { IfOk result (λ sources. sources ≡ keys_of head.now) }
    {
        KeySources::watched(alloc, head, &mut Unwatched)
    }

    /// The same, and tells how many are made.
    pub fn watched<P: Progress>(
        alloc: Global,
        head: &Head,
        progress: &mut P,
    ) -> Result<KeySources, AllocError>
        ensures { IfOk result (λ sources. sources ≡ keys_of head.now) }
    {
        Ok(KeySources {
            replicas: replica_sources(alloc, head, progress)?,
            clients: client_sources(alloc, head, progress)?,
        })
    }

    /// The configuration of a head that these sources are of, with fresh signers. It makes no tree; leaves that are used
    /// at the start sign. The error is that memory ran out.
    pub fn keys(&self, alloc: Global, head: &Head) -> Result<Keys, AllocError>
        requires { self.now ≡ keys_of head.now }
        ensures config { IfOk result (λ keys. keys.config ≡ configuration_of head.now) }
        ensures replicas { IfOk result (λ keys. keys.replicas.items ≡ replica_signers head.now) }
        ensures clients { IfOk result (λ keys. keys.clients.items ≡ map (client_signer head.now) head.now.clients) }
    {
        let replicas = signers(alloc, &self.replicas)?;
        let keys = public_keys(alloc, &replicas)?;
        let clients = signers(alloc, &self.clients)?;
        let entries = client_entries(alloc, head, &clients)?;
        let Ok(config) = Config::new(head.f(), head.k(), keys, entries) else {
            unreachable!()
        };
        Ok(Keys {
            config,
            replicas,
            clients,
        })
    }
}

/// A source for each replica, ids ascending.
fn replica_sources<P: Progress>(
    alloc: Global,
    head: &Head,
    progress: &mut P,
) -> Result<Vec<OwnSource>, AllocError>
    ensures { IfOk result (λ sources. sources.items ≡ replica_signers head.now) }
{
    let mut sources = Vec::new(alloc);
    for id in 0..head.replica_count() {
        let id = ReplicaId(id);
        let owner = Owner::Replica(id);
        sources.push(OwnSource::new(alloc, owner, head.replica_key(id), head.secret())?)?;
        progress.keys(sources.len(), key_count(head));
    }
    Ok(sources)
}

/// A source for each client, in the order of the head.
fn client_sources<P: Progress>(
    alloc: Global,
    head: &Head,
    progress: &mut P,
) -> Result<Vec<OwnSource>, AllocError>
    ensures { IfOk result (λ sources. sources.items ≡ map (client_signer head.now) head.now.clients) }
{
    let mut sources = Vec::new(alloc);
    for client in head.clients() {
        let owner = Owner::Client(client.id);
        sources.push(OwnSource::new(alloc, owner, head.client_key(), head.secret())?)?;
        let made = sources
            .len()
            .saturating_add(usize::from(head.replica_count()));
        progress.keys(made, key_count(head));
    }
    Ok(sources)
}

/// How many keys a head has.
fn key_count(head: &Head) -> usize {
    head.clients()
        .len()
        .saturating_add(usize::from(head.replica_count()))
}

/// A signer of each source.
fn signers(alloc: Global, sources: &[OwnSource]) -> Result<Vec<Signer>, AllocError>
    ensures { IfOk result (λ signers. signers.items ≡ sources.now) }
{
    let mut signers = Vec::new(alloc);
    for source in sources {
        signers.push(source.signer(alloc)?)?;
    }
    Ok(signers)
}

/// The public keys of signers.
fn public_keys(alloc: Global, signers: &[Signer]) -> Result<Vec<PublicKey>, AllocError>
    ensures { IfOk result (λ keys. keys.items ≡ map key_of signers.now) }
{
    signers.iter().map(public_key).collect(alloc)
}

fn public_key(signer: &Signer) -> PublicKey
    ensures { result ≡ key_of signer.now }
{
    signer.public_key()
}

/// What is listed of the clients, in the order of the head, given the signer of each.
fn client_entries(
    alloc: Global,
    head: &Head,
    signers: &[Signer],
) -> Result<Vec<ClientEntry>, AllocError>
    requires { signers.now ≡ map (client_signer head.now) head.now.clients }
    ensures { IfOk result (λ entries. entries.items ≡ map (entry_of head.now) head.now.clients) }
{
    let mut entries = Vec::new(alloc);
    for (index, client) in head.clients().iter().enumerate() {
        entries.push(ClientEntry {
            id: client.id,
            tenant: client.tenant,
            key: signers[index].public_key(),
        })?;
    }
    Ok(entries)
}

/// The source of an owner's key, and how many leaves its signers have used at the start. Contracts see such a signer.
#[derive(Drop)]
struct OwnSource {
    source: KeySource,
    spent: u32,
}

impl Model for OwnSource {
    ghost use Rattle.std.specs.Prelude.{◌≡◌, ◌≤◌};
    ghost use Rattle.lms_tree.specs.Keys.{leaf_count};
    ghost use Rattle.lms_tree.specs.SigningState.{SigningState};

    ghost Value = { SigningState };

    ghost view = { λ s. record s.source { next_leaf = s.spent } };

    ghost invariant = { λ s. (s.source.next_leaf ≡ 0) × (s.spent ≤ leaf_count s.source) };
}

impl OwnSource {
    /// The source of a key whose identity and seed are hashes of the secret.
    fn new(
        alloc: Global,
        owner: Owner,
        shape: KeyShape,
        secret: &Secret,
    ) -> Result<OwnSource, AllocError>
        requires { shape.spent ≤ leaves_of shape }
        ensures { IfOk result (λ s. s ≡ signer_of owner shape secret.now) }
    {
        let hash = hash_of(owner, Part::Identity, secret);
        let mut identity = [0; 16];
        identity.copy_from_slice(&hash[..16]);
        let seed = hash_of(owner, Part::Seed, secret);
        Ok(OwnSource {
            source: KeySource::from_seed(alloc, shape.height, shape.bottom, identity, seed)?,
            spent: shape.spent,
        })
    }

    /// A signer that has used the leaves that it is to have used at the start.
    fn signer(&self, alloc: Global) -> Result<Signer, AllocError>
        ensures { IfOk result (λ signer. signer ≡ self.now) }
    {
        let mut signer = self.source.signer(alloc)?;
        spend(&mut signer, self.spent)?;
        Ok(signer)
    }
}

/// Uses so many leaves of a signer, each for a signature of one byte that is no message.
fn spend(signer: &mut Signer, many: u32) -> Result<(), AllocError>
    requires { signer.old.next_leaf + many ≤ leaf_count signer.old }
    ensures { OnOk result (signer.new ≡ record signer.old { next_leaf = signer.old.next_leaf + many }) }
{
    for turn in 0..many {
        spend_leaf(signer)?;
    }
    Ok(())
}

/// Uses the next leaf of a signer, for a signature of one byte that is no message, which it returns.
fn spend_leaf(signer: &mut Signer) -> Result<Vec<u8>, AllocError>
    requires { signer.old.next_leaf < leaf_count signer.old }
    ensures used { signer.new ≡ after_signing signer.old }
    ensures signed { IfOk result (λ signature. signature.items ≡ signature_of signer.old spent_message) }
{
    match signer.sign(&[0]) {
        Ok(signature) => Ok(signature),
        Err(SignFault::Memory) => Err(AllocError),
        Err(SignFault::Exhausted) => unreachable!(),
    }
}

fn hash_of(owner: Owner, part: Part, secret: &Secret) -> [u8; 32]
    ensures { result ≡ key_hash owner (part_number part) secret.now }
{
    let mut hasher = Sha256::new();
    hasher.update([owner.mark()]);
    hasher.update(owner.number().to_be_bytes());
    hasher.update([part.number()]);
    hasher.update(secret.0);
    hasher.finalize()
}
