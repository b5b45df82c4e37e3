//! A faulty replica and a faulty client, and the correct replica to which they lie.

use crate::lie::Lie;
use crate::members::{CLIENT, Group, Keys, taken};
use crate::node::Node;
use anyhow::Result;
use bench_common::signing::{message_bytes, sign};
use host_types::{Bytes, ReplicaId};
use lms_tree::Signer;
use pbft_codec::{Body, Role, Signed, ViewChange};
use script_values::Kind;
use std::alloc::Global;

/// The correct replica.
const CORRECT: ReplicaId = ReplicaId(1);

/// The faulty one's id.
const LIAR: ReplicaId = ReplicaId(3);

/// The signers of a faulty replica and a faulty client.
#[derive(Drop)]
struct Liars {
    alloc: Global,
    replica: Signer,
    client: Signer,
}

impl Liars {
    /// The last replica of a group, and its client.
    fn new(alloc: Global, group: &mut Group) -> Result<Liars> {
        let replica = taken(&mut group.replicas, usize::from(LIAR.0))?;
        let client = taken(&mut group.clients, 0)?;
        Ok(Liars {
            alloc,
            replica,
            client,
        })
    }

    /// The bytes of a message that says this.
    fn sign(&mut self, lie: &Lie) -> Result<Vec<u8>> {
        match lie.kind() {
            Kind::Request => self.sign_as_client(lie.body(self.alloc)?),
            Kind::NewView => self.sign_new_view(lie),
            _ => self.sign_as_replica(lie.body(self.alloc)?),
        }
    }

    fn sign_new_view(&mut self, lie: &Lie) -> Result<Vec<u8>> {
        let changes = self.own_change(lie)?;
        self.sign_as_replica(Body::NewView(lie.new_view(self.alloc, changes)))
    }

    fn sign_as_client(&mut self, body: Body) -> Result<Vec<u8>> {
        message_bytes(self.alloc, &mut self.client, Role::Client, CLIENT.0, body)
    }

    fn sign_as_replica(&mut self, body: Body) -> Result<Vec<u8>> {
        let id = u32::from(LIAR.0);
        message_bytes(self.alloc, &mut self.replica, Role::Replica, id, body)
    }

    /// The faulty replica's own ViewChange for the view of a NewView: it has no others to put into it.
    fn own_change(&mut self, lie: &Lie) -> Result<Vec<Signed<ViewChange>>> {
        let body = Body::ViewChange(lie.change(self.alloc));
        let id = u32::from(LIAR.0);
        let (_text, sig) = sign(self.alloc, &mut self.replica, Role::Replica, id, body)?;
        let mut changes = Vec::new(self.alloc);
        changes.push(Signed {
            role: Role::Replica,
            id,
            body: lie.change(self.alloc),
            sig: Bytes::from_vec(sig),
        })?;
        Ok(changes)
    }
}

/// The correct replica of a group.
fn correct_of(alloc: Global, group: &mut Group) -> Result<Node> {
    let signer = taken(&mut group.replicas, usize::from(CORRECT.0))?;
    Node::new(alloc, &group.config, CORRECT, signer)
}

/// Those who lie, and who takes it. A box is dropped in one step of a proof.
#[derive(Drop)]
pub(crate) struct Pair {
    liars: Box<Liars>,
    correct: Box<Node>,
}

impl Pair {
    /// A pair before the first lie.
    pub(crate) fn new(alloc: Global, keys: Keys) -> Result<Pair> {
        let mut group = Group::new(alloc, keys)?;
        Ok(Pair {
            liars: Box::new(alloc, Liars::new(alloc, &mut group)?)?,
            correct: Box::new(alloc, correct_of(alloc, &mut group)?)?,
        })
    }

    /// The message of a kind with this index is signed, and the correct replica takes it. How many messages it
    /// gives for that.
    pub(crate) fn lie(&mut self, kind: Kind, index: u64) -> Result<u64> {
        let bytes = self.liars.sign(&Lie::new(kind, index))?;
        self.correct.take(&bytes)
    }
}
