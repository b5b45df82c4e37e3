//! A station that executes requests of two tenants at the same time.

ghost use Rattle.std.specs.Prelude.{◌≡◌, ◌<◌, IsSomeAnd};
ghost use Rattle.host_types.specs.Configuration.{replicas_for};
ghost use Rattle.lms_tree.specs.Keys.{IsKeyOf};
ghost use Rattle.pbft_codec.specs.declared.signed.Role.TheVariants as roles;
ghost use Rattle.seal.specs.Signers.{key_of};

use crate::gates::{FIRST_LANE, Held, Watch};
use crate::place::{is_listed, signer};
use host_script::{Named, Station};
use host_types::{Bytes, ClientEntry, ClientId, Config, Digest, ReplicaId, SeqNo, TenantId, View};
use lms_tree::Signer;
use pbft_codec::{
    Body, CodecFault, Commit, PrePrepare, Prepare, RequestBody, Role, Signed, signed_bytes,
};
use seal::{Checked, open, request_digest};
use std::alloc::Global;
use std::marker::Brand;
use std::sync::ledger::Blank;
use std::sync::{Arc, Wait};
use std::test::Fail;
use std::thread::Threads;
use std::time::Clock;

/// The station's replica: a backup in view 0.
const ID: u8 = 1;

/// The first client; the second's id is one more. Each is of a tenant of its own.
const FIRST_CLIENT: u32 = 16;

/// What others say to the station's replica.
#[derive(Drop)]
struct Others {
    alloc: Global,
    config: Arc<Config>,
    replicas: Vec<Signer>,
    clients: Vec<Signer>,
    /// What they said, as bytes, the oldest first.
    said: Vec<Vec<u8>>,
}

/// Fresh signers of the numbers from `first` on.
fn signers(alloc: Global, first: u8, many: u8) -> Result<Vec<Signer>, Fail> {
    let mut signers = Vec::new(alloc);
    for index in 0..many {
        signers.push(signer(alloc, first.saturating_add(index))?)?;
    }
    Ok(signers)
}

/// The configuration of these replicas and clients, each client of a tenant of its own.
fn config(alloc: Global, replicas: &[Signer], clients: &[Signer]) -> Result<Arc<Config>, Fail> {
    let mut keys = Vec::new(alloc);
    for signer in replicas {
        keys.push(signer.public_key())?;
    }
    let mut entries = Vec::new(alloc);
    for (id, signer) in (FIRST_CLIENT..u32::MAX).zip(clients) {
        entries.push(ClientEntry {
            id: ClientId(id),
            tenant: TenantId(id),
            key: signer.public_key(),
        })?;
    }
    Ok(Arc::new(alloc, Config::new(1, 8, keys, entries)?)?)
}

impl Others {
    fn new(alloc: Global) -> Result<Others, Fail> {
        let replicas = signers(alloc, 0, 4)?;
        let clients = signers(alloc, 8, 2)?;
        let config = config(alloc, &replicas, &clients)?;
        Ok(Others {
            alloc,
            config,
            replicas,
            clients,
            said: Vec::new(alloc),
        })
    }

    /// A client's first request, whose operation is none that the service knows.
    fn ask(&mut self, index: u8) -> Result<Digest, Fail> {
        let Some(signer) = self.clients.get_mut(usize::from(index)) else {
            return Err(Fail::new("no such client"));
        };
        let body = Body::Request(RequestBody {
            time: 1,
            op: Bytes::from_vec(Vec::new(self.alloc)),
        });
        let id = FIRST_CLIENT + u32::from(index);
        let message = sign(self.alloc, &self.config, signer, Role::Client, id, body)?;
        self.keep(&message)?;
        Ok(request_digest(&message))
    }

    fn say(&mut self, id: u8, body: Body) -> Result<(), Fail> {
        let Some(signer) = self.replicas.get_mut(usize::from(id)) else {
            return Err(Fail::new("no such replica"));
        };
        let role = Role::Replica;
        let message = sign(self.alloc, &self.config, signer, role, u32::from(id), body)?;
        self.keep(&message)
    }

    fn keep(&mut self, message: &Checked) -> Result<(), Fail> {
        self.said
            .push(Vec::from_slice(self.alloc, message.bytes())?)?;
        Ok(())
    }

    /// The primary proposes a request, and another backup prepares it.
    fn prepare(&mut self, number: SeqNo, digest: Digest) -> Result<(), Fail> {
        let view = View(0);
        let proposal = PrePrepare {
            view,
            number,
            digest,
        };
        self.say(0, Body::PrePrepare(proposal))?;
        let vote = Prepare {
            view,
            number,
            digest,
        };
        self.say(2, Body::Prepare(vote))
    }

    fn commit(&mut self, number: SeqNo, digest: Digest) -> Result<(), Fail> {
        for id in [0, 2] {
            let vote = Commit {
                view: View(0),
                number,
                digest,
            };
            self.say(id, Body::Commit(vote))?;
        }
        Ok(())
    }

    /// Both clients' requests, the second committed before the first, so that both are executed at once.
    fn talk(&mut self) -> Result<(), Fail> {
        let (first, second) = (self.ask(0)?, self.ask(1)?);
        self.prepare(SeqNo(1), first)?;
        self.prepare(SeqNo(2), second)?;
        self.commit(SeqNo(2), second)?;
        self.commit(SeqNo(1), first)
    }
}

/// What is signed of a message of this body.
fn text_of(alloc: Global, role: Role, id: u32, body: Body) -> Result<Vec<u8>, CodecFault> {
    let unsigned = Signed {
        role,
        id,
        body,
        sig: Bytes::from_vec(Vec::new(alloc)),
    };
    signed_bytes(alloc, &unsigned)
}

/// The bytes of the message of which this is signed, with this signature.
fn message_bytes(alloc: Global, text: &[u8], signature: &[u8]) -> Result<Vec<u8>, Fail> {
    let (head, said) = text.split_at(text.len().min(5));
    let mut bytes = Vec::from_slice(alloc, head)?;
    for part in [said, signature] {
        let length = (part.len() % (1 << 32)) as u32;
        bytes.extend_from_slice(&length.to_be_bytes())?;
        bytes.extend_from_slice(part)?;
    }
    Ok(bytes)
}

/// The message of this body, signed.
pub(crate) fn sign(
    alloc: Global,
    config: &Arc<Config>,
    signer: &mut Signer,
    role: Role,
    id: u32,
    body: Body,
) -> Result<Checked, Fail> {
    let text = text_of(alloc, role, id, body)?;
    let bytes = message_bytes(alloc, &text, &signer.sign(&text)?)?;
    Ok(open(alloc, config, &bytes)?)
}

/// A station takes what was said; both lanes begin, the first waiting for the second.
fn takes_in_lanes<K: Named, R: Threads + Wait + Sync, C: Clock + Drop + Sync>(
    rt: &R,
    alloc: Global,
    config: &Arc<Config>,
    signer: Signer,
    said: &[Vec<u8>],
    gate: &Watch<C>,
    blank: Blank,
) -> Result<(), Fail>
    requires name { blank.name ≡ K.name }
    requires parts { (blank.parts ≡ K.parts) × (blank.parts ≡ 65536) }
    requires config { config.now.value ≡ K.config }
    requires id { 1 ≡ K.id }
    requires replica { 1 < replicas_for config.now.value.f }
    requires key { IsSomeAnd (key_of config.now.value roles.Replica 1) (λ key. IsKeyOf key signer) }
    requires signer { signer ≡ K.signer }
    requires limit { 65536 ≡ K.limit }
{
    let (station, seat) = Station::<K>::new(alloc, blank, config, ReplicaId(ID), signer, 65_536)?;
    let mut seat = seat;
    for bytes in said {
        let message = open(alloc, config, bytes)?;
        if station.take(rt, &mut seat, &message, gate).is_err() {
            return Err(Fail::new("the station halts"));
        }
    }
    if gate.gave_up() || gate.steps(FIRST_LANE) != 1 || gate.steps(FIRST_LANE + 1) != 1 {
        return Err(Fail::new("the lanes don't run at the same time"));
    }
    if station.report(rt, &mut seat).executed.0 != 2 {
        return Err(Fail::new("not both requests were executed"));
    }
    Ok(())
}

#[test]
fn two_lanes_of_a_station_run_at_the_same_time(rt: HostRuntime) -> Result<(), Fail> {
    let alloc = rt.alloc();
    let mut others = Others::new(alloc)?;
    others.talk()?;
    let signer = signer(alloc, ID)?;
    if !is_listed(&others.config, ReplicaId(ID), &signer) || others.config.replica_count() <= 1 {
        return Err(Fail::new("another key is listed"));
    }
    let gate = Watch::new(rt, Held::LaneUntilTheOther);
    takes_in_lanes::<Brand, HostRuntime, HostRuntime>(
        &rt,
        alloc,
        &others.config,
        signer,
        &others.said,
        &gate,
        Blank::new(65_536),
    )
}
