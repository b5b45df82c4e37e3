//! Four replicas, of which one may be faulty, and a client.

use host_types::{Bytes, ClientEntry, ClientId, Config, Digest, ReplicaId, ReplicaSet, TenantId};
use lms_tree::{Height, Signer};
use pbft_codec::{Body, CodecFault, RequestBody, Role, Signed, signed_bytes};
use seal::{open, request_digest};
use std::alloc::{AllocError, Global};
use std::sync::Arc;
use std::test::Fail;
use world_script::{Event, Report, World, WorldFault, are_listed, run_world};

/// The one client.
pub const CLIENT: u32 = 16;

/// The configuration, and the signers of the faulty replicas, which say what a test has them say.
#[derive(Drop)]
pub struct Group {
    pub alloc: Global,
    pub config: Arc<Config>,
    replicas: Vec<Signer>,
    // The client's requests, by name.
    requests: Vec<(&'static str, Vec<u8>)>,
}

// The signer of this number: 0 to 3 are the replicas.
fn signer(alloc: Global, number: u8) -> Result<Signer, Fail> {
    Ok(Signer::from_seed(alloc, Height::H5, [number; 16], [5; 32])?)
}

// The configuration of these replicas and this client: a checkpoint at each second number.
fn config_of(alloc: Global, replicas: &[Signer], client: &Signer) -> Result<Arc<Config>, Fail> {
    let mut keys = Vec::new(alloc);
    for signer in replicas {
        keys.push(signer.public_key())?;
    }
    let mut clients = Vec::new(alloc);
    clients.push(ClientEntry {
        id: ClientId(CLIENT),
        tenant: TenantId(1),
        key: client.public_key(),
    })?;
    Ok(Arc::new(alloc, Config::new(1, 2, keys, clients)?)?)
}

/// The set of these replicas.
pub fn set_of(ids: &[u8]) -> ReplicaSet {
    let mut set = ReplicaSet::new();
    for id in ids {
        set.insert(ReplicaId(*id));
    }
    set
}

// The signers of these numbers.
fn signers(alloc: Global, numbers: &[u8]) -> Result<Vec<Signer>, Fail> {
    let mut signers = Vec::new(alloc);
    for number in numbers {
        signers.push(signer(alloc, *number)?)?;
    }
    Ok(signers)
}

// The client's requests, by name.
fn requests(alloc: Global, client: &mut Signer) -> Result<Vec<(&'static str, Vec<u8>)>, Fail> {
    let mut requests = Vec::new(alloc);
    for (name, time) in [("a", 1), ("b", 2)] {
        requests.push((name, request_at(alloc, client, time)?))?;
    }
    Ok(requests)
}

impl Group {
    pub fn new(alloc: Global) -> Result<Group, Fail> {
        let replicas = signers(alloc, &[0, 1, 2, 3])?;
        let mut client = signer(alloc, 9)?;
        let config = config_of(alloc, &replicas, &client)?;
        let requests = requests(alloc, &mut client)?;
        Ok(Group {
            alloc,
            config,
            replicas,
            requests,
        })
    }

    // The signers of the correct replicas, before their first signatures.
    fn correct(&self, faulty: &ReplicaSet) -> Result<Vec<Signer>, Fail> {
        let mut signers = Vec::new(self.alloc);
        for number in 0..4u8 {
            if !faulty.contains(ReplicaId(number)) {
                signers.push(signer(self.alloc, number)?)?;
            }
        }
        Ok(signers)
    }

    /// The world of these replicas before its first event.
    pub fn world(&self, faulty: &ReplicaSet) -> Result<World, Fail> {
        let signers = self.correct(faulty)?;
        if !are_listed(&self.config, faulty, &signers) {
            return Err(Fail::new("another key is listed"));
        }
        Ok(World::new(self.alloc, &self.config, faulty, signers)?)
    }

    /// What the correct replicas do under these events.
    pub fn run(
        &self,
        faulty: &ReplicaSet,
        events: &[Event],
    ) -> Result<Result<Report, WorldFault>, Fail> {
        let signers = self.correct(faulty)?;
        if !are_listed(&self.config, faulty, &signers) {
            return Err(Fail::new("another key is listed"));
        }
        let config = &self.config;
        Ok(run_world(self.alloc, config, faulty, signers, events))
    }

    /// The bytes of a replica's message.
    pub fn say(&mut self, id: u8, body: Body) -> Result<Bytes, Fail> {
        match self.replicas.get_mut(usize::from(id)) {
            Some(signer) => {
                let bytes = signed(self.alloc, signer, Role::Replica, u32::from(id), body)?;
                Ok(Bytes::from_vec(bytes))
            }
            None => Err(Fail::new("no such signer")),
        }
    }

    /// The bytes of the client's request of this name.
    pub fn request(&self, name: &str) -> Result<Bytes, Fail> {
        match self.requests.iter().find(|request| request.0 == name) {
            Some(request) => Ok(Bytes::from_vec(Vec::from_slice(self.alloc, &request.1)?)),
            None => Err(Fail::new("no such request")),
        }
    }

    /// The digest of the client's request of this name.
    pub fn digest(&self, name: &str) -> Result<Digest, Fail> {
        let bytes = self.request(name)?;
        let opened = open(self.alloc, &self.config, bytes.as_slice())?;
        Ok(request_digest(&opened))
    }
}

// The bytes of the client's request at a time. An empty operation is none that the service knows: its
// result is the one byte 1.
fn request_at(alloc: Global, client: &mut Signer, time: u64) -> Result<Vec<u8>, Fail> {
    let body = Body::Request(RequestBody {
        time,
        op: Bytes::from_vec(Vec::new(alloc)),
    });
    signed(alloc, client, Role::Client, CLIENT, body)
}

fn put_length_prefixed(out: &mut Vec<u8>, bytes: &[u8]) -> Result<(), AllocError> {
    out.extend_from_slice(&((bytes.len() % (1 << 32)) as u32).to_be_bytes())?;
    out.extend_from_slice(bytes)
}

// What is signed of a message of this body, whatever it says.
fn text_of(alloc: Global, role: Role, id: u32, body: Body) -> Result<Vec<u8>, CodecFault> {
    let unsigned = Signed {
        role,
        id,
        body,
        sig: Bytes::from_vec(Vec::new(alloc)),
    };
    signed_bytes(alloc, &unsigned)
}

// The bytes of a message of this body: its head, what it says, and the signature.
fn signed(
    alloc: Global,
    signer: &mut Signer,
    role: Role,
    id: u32,
    body: Body,
) -> Result<Vec<u8>, Fail> {
    let text = text_of(alloc, role, id, body)?;
    let (head, said) = text.split_at(text.len().min(5));
    let mut bytes = Vec::from_slice(alloc, head)?;
    put_length_prefixed(&mut bytes, said)?;
    put_length_prefixed(&mut bytes, &signer.sign(&text)?)?;
    Ok(bytes)
}
