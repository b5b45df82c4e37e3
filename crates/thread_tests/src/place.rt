//! Four replicas and a client.

ghost use Rattle.std.specs.Prelude.{◌≡◌, ◌≤◌, true, length, IfOk, IsSomeAnd};
ghost use Rattle.lms_tree.specs.Keys.{IsKeyOf};
ghost use Rattle.pbft_codec.specs.declared.signed.Role.TheVariants as roles;
ghost use Rattle.seal.specs.Signers.{key_of};

use host_script::Session;
use host_types::{Bytes, ClientEntry, ClientId, Config, ReplicaId, TenantId};
use lms_tree::{Height, Signer};
use std::alloc::{AllocError, Global};
use std::sync::Arc;
use std::test::Fail;

/// The one client.
pub const CLIENT: ClientId = ClientId(16);

/// The replicas' signers, and the client's. A box is dropped in one step of a proof.
#[derive(Drop)]
pub struct Place {
    pub config: Arc<Config>,
    pub signers: Vec<Signer>,
    pub client: Box<Signer>,
}

/// A fresh signer of this number, whose key is of one tree.
pub fn signer(alloc: Global, number: u8) -> Result<Signer, AllocError> {
    Signer::from_seed(alloc, Height::H5, [number; 16], [7; 32])
}

/// Four replicas and a client, with fresh signers, whose keys are of one tree.
pub fn four_replicas(alloc: Global) -> Result<Place, Fail> {
    let mut signers = Vec::new(alloc);
    for number in 0..4u8 {
        signers.push(signer(alloc, number)?)?;
    }
    place_of(alloc, signers)
}

/// The configuration of four replicas, and the fresh signer of the first.
pub fn first_replica(alloc: Global) -> Result<(Arc<Config>, Signer), Fail> {
    let Place {
        config,
        mut signers,
        ..
    } = four_replicas(alloc)?;
    signers.truncate(1);
    match signers.pop() {
        Some(signer) => Ok((config, signer)),
        None => Err(Fail::new("no signer")),
    }
}

fn signer_of_levels(alloc: Global, number: u8) -> Result<Signer, AllocError> {
    Signer::from_seed2(alloc, Height::H5, Height::H5, [number; 16], [7; 32])
}

/// Four replicas whose keys are of two levels, and a client whose key is of one tree, with fresh signers.
pub fn four_of_two_levels(alloc: Global) -> Result<Place, Fail> {
    let mut signers = Vec::new(alloc);
    for number in 0..4u8 {
        signers.push(signer_of_levels(alloc, number)?)?;
    }
    place_of(alloc, signers)
}

/// The replicas with these signers, and a client.
fn place_of(alloc: Global, signers: Vec<Signer>) -> Result<Place, Fail> {
    let clients = client_signers(alloc, 1)?;
    let config = configured(alloc, 8, &signers, &clients)?;
    let mut clients = clients;
    let Some(client) = clients.pop() else {
        return Err(Fail::new("no client"));
    };
    Ok(Place {
        config,
        signers,
        client: Box::new(alloc, client)?,
    })
}

/// The replicas' signers, and those of clients of as many tenants.
#[derive(Drop)]
pub struct Group {
    pub config: Arc<Config>,
    pub signers: Vec<Signer>,
    pub clients: Vec<Signer>,
}

/// Four replicas whose keys are of two levels, with Checkpoints so far apart, and clients of as many tenants.
pub fn group_of(alloc: Global, interval: u8, clients: u8) -> Result<Group, Fail> {
    let mut signers = Vec::new(alloc);
    for number in 0..4u8 {
        signers.push(signer_of_levels(alloc, number)?)?;
    }
    let clients = client_signers(alloc, clients)?;
    let config = configured(alloc, interval, &signers, &clients)?;
    Ok(Group {
        config,
        signers,
        clients,
    })
}

fn client_signers(alloc: Global, many: u8) -> Result<Vec<Signer>, AllocError> {
    let mut clients = Vec::new(alloc);
    for index in 0..many {
        clients.push(signer(alloc, index.saturating_add(9))?)?;
    }
    Ok(clients)
}

/// The configuration of these replicas and clients, whose ids begin with that of the one client.
fn configured(
    alloc: Global,
    interval: u8,
    signers: &[Signer],
    clients: &[Signer],
) -> Result<Arc<Config>, Fail> {
    let mut keys = Vec::new(alloc);
    for signer in signers {
        keys.push(signer.public_key())?;
    }
    let mut entries = Vec::new(alloc);
    let mut index: u32 = 0;
    for client in clients {
        entries.push(ClientEntry {
            id: ClientId(CLIENT.0.saturating_add(index)),
            tenant: TenantId(index.saturating_add(1)),
            key: client.public_key(),
        })?;
        index = index.saturating_add(1);
    }
    Ok(Arc::new(alloc, Config::new(1, interval, keys, entries)?)?)
}

/// Whether the signer has the key that is listed for a replica.
pub fn is_listed(config: &Arc<Config>, id: ReplicaId, signer: &Signer) -> bool
    ensures { result ≡ true → IsSomeAnd (key_of config.now.value roles.Replica id.0) (λ key. IsKeyOf key signer.now) }
{
    match config.replica_key(id) {
        Some(key) => *key == signer.public_key(),
        None => false,
    }
}

/// The client's session.
pub fn session(alloc: Global, config: &Arc<Config>, signer: Signer) -> Result<Session, Fail>
    ensures { IfOk result (λ s. s.config ≡ config.now.value) }
{
    session_of(alloc, config, CLIENT, signer)
}

/// A client's session.
pub fn session_of(
    alloc: Global,
    config: &Arc<Config>,
    client: ClientId,
    signer: Signer,
) -> Result<Session, Fail>
    ensures { IfOk result (λ s. s.config ≡ config.now.value) }
{
    let listed = match config.client(client) {
        Some(entry) => entry.key == signer.public_key(),
        None => false,
    };
    if !listed {
        return Err(Fail::new("another key is listed"));
    }
    let session = Session::new(alloc, config, client, signer)?;
    Ok(session)
}

/// A signer that has signed so often.
pub fn spend(signer: &mut Signer, times: u8) -> Result<(), Fail> {
    for _ in 0..times {
        signer.sign(&[0])?;
    }
    Ok(())
}

/// The operation that calls the procedure 0.
pub fn call_it(alloc: Global) -> Result<Bytes, AllocError> {
    Ok(Bytes::from_vec(Vec::from_slice(alloc, &[2, 0, 0, 0, 0])?))
}

/// The operation that installs a procedure of two instructions: `mov64 r0, 7` and `exit`.
pub fn install(alloc: Global) -> Result<Bytes, AllocError>
    ensures { IfOk result (λ op. length op ≤ 1048576) }
{
    let code = [1, 0xb7, 0, 0, 0, 7, 0, 0, 0, 0x95, 0, 0, 0, 0, 0, 0, 0];
    Ok(Bytes::from_vec(Vec::from_slice(alloc, &code)?))
}
