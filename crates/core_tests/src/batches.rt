//! A backup to which all is ready to be executed before the first number is: it executes in lanes what it can at
//! once, and answers each message as a replica that executes one request after another.

use crate::node::Node;
use crate::scene::key;
use crate::signing::checked;
use host_types::{
    Bytes, ClientEntry, ClientId, Config, Digest, Gate, ReplicaId, SeqNo, TenantId, View,
};
use lms_tree::Signer;
use pbft_codec::{Body, Commit, PrePrepare, Prepare, RequestBody, Role};
use replica_core::{Halt, Row};
use seal::{Checked, request_digest};
use std::alloc::Global;
use std::sync::Arc;
use std::sync::atomic::{AtomicU64, Ordering};
use std::test::Fail;
use std::thread::Threads;
use view_change::null_digest;

/// The first client: 17 is the second, and so on, each of a tenant of its own.
const FIRST_CLIENT: u32 = 16;

/// How many clients there are.
const CLIENTS: u8 = 4;

/// The backup.
const ID: u8 = 1;

/// Counts how often a lane begins.
#[derive(Drop)]
struct Count {
    steps: AtomicU64,
}

impl Gate for Count {
    fn step(&self, who: u32) {
        let _ = who;
        self.steps.fetch_add(1, Ordering::SeqCst);
    }
}

/// What is ordered, and how the backup executes it.
#[derive(Drop)]
struct Batch {
    interval: u8,
    workers: u8,
    /// How many leaves the backup's signer has left.
    leaves: u32,
    /// Which client asks at each number, 0 to 3, or nobody: `-`.
    asked: &'static str,
    /// How many lanes begin.
    lanes: u64,
    /// What the backup answers to the last message, its halt or nothing.
    halt: Option<Halt>,
}

/// The backup's signer with so many leaves left.
fn signer_with(alloc: Global, leaves: u32) -> Result<Signer, Fail> {
    let mut own = key(alloc, 7, ID)?;
    for _ in leaves..own.leaves_left() {
        own.sign(&[])?;
    }
    Ok(own)
}

/// A backup whose signer has so many leaves left.
fn backup(alloc: Global, config: &Arc<Config>, leaves: u32) -> Result<Node, Fail> {
    let own = signer_with(alloc, leaves)?;
    Node::new(alloc, config, ReplicaId(ID), own)
}

/// Two of them.
fn backups(alloc: Global, config: &Arc<Config>, leaves: u32) -> Result<Vec<Node>, Fail> {
    let mut backups = Vec::new(alloc);
    for _ in 0..2 {
        backups.push(backup(alloc, config, leaves)?)?;
    }
    Ok(backups)
}

/// What the replicas and clients say.
#[derive(Drop)]
struct Group {
    alloc: Global,
    config: Arc<Config>,
    replicas: Vec<Signer>,
    clients: Vec<Signer>,
    times: u64,
}

/// Fresh signers of a secret, of the ids from 0 on.
fn signers(alloc: Global, secret: u8, many: u8) -> Result<Vec<Signer>, Fail> {
    let mut signers = Vec::new(alloc);
    for id in 0..many {
        signers.push(key(alloc, secret, id)?)?;
    }
    Ok(signers)
}

/// The configuration of these replicas and clients, each client of a tenant of its own.
fn config(
    alloc: Global,
    interval: u8,
    replicas: &[Signer],
    clients: &[Signer],
) -> Result<Arc<Config>, Fail> {
    let mut keys = Vec::new(alloc);
    for signer in replicas {
        keys.push(signer.public_key())?;
    }
    let mut entries = Vec::new(alloc);
    for (id, signer) in (FIRST_CLIENT..u32::MAX).zip(clients) {
        entries.push(ClientEntry {
            id: ClientId(id),
            tenant: TenantId(id),
            key: signer.public_key(),
        })?;
    }
    Ok(Arc::new(alloc, Config::new(1, interval, keys, entries)?)?)
}

impl Group {
    fn new(alloc: Global, interval: u8) -> Result<Group, Fail> {
        let replicas = signers(alloc, 7, 4)?;
        let clients = signers(alloc, 9, CLIENTS)?;
        let config = config(alloc, interval, &replicas, &clients)?;
        Ok(Group {
            alloc,
            config,
            replicas,
            clients,
            times: 0,
        })
    }

    fn say(&mut self, id: u8, body: Body) -> Result<Checked, Fail> {
        let Some(signer) = self.replicas.get_mut(usize::from(id)) else {
            return Err(Fail::new("no such replica"));
        };
        let id = u32::from(id);
        checked(self.alloc, &self.config, signer, Role::Replica, id, body)
    }

    /// A client's next request: its operation is none that the service knows.
    fn ask(&mut self, index: u8) -> Result<Checked, Fail> {
        self.times = self.times.wrapping_add(1);
        let Some(signer) = self.clients.get_mut(usize::from(index)) else {
            return Err(Fail::new("no such client"));
        };
        let body = Body::Request(RequestBody {
            time: self.times,
            op: Bytes::from_vec(Vec::new(self.alloc)),
        });
        let id = FIRST_CLIENT + u32::from(index);
        checked(self.alloc, &self.config, signer, Role::Client, id, body)
    }

    /// All that the backup takes before it can execute: requests and what is prepared, then Commits from
    /// the last number down.
    fn messages(&mut self, asked: &str) -> Result<Vec<Checked>, Fail> {
        let mut messages = Vec::new(self.alloc);
        let mut digests = Vec::new(self.alloc);
        let mut number = 0u64;
        for word in asked.split(' ') {
            number = number.saturating_add(1);
            let digest = self.order(&mut messages, word)?;
            self.prepare(&mut messages, SeqNo(number), digest)?;
            digests.push((SeqNo(number), digest))?;
        }
        for (number, digest) in digests.iter().rev() {
            self.commit(&mut messages, *number, *digest)?;
        }
        Ok(messages)
    }

    /// The digest of what is asked, behind the request.
    fn order(&mut self, messages: &mut Vec<Checked>, word: &str) -> Result<Digest, Fail> {
        if word == "-" {
            return Ok(null_digest());
        }
        let request = self.ask(word.parse()?)?;
        let digest = request_digest(&request);
        messages.push(request)?;
        Ok(digest)
    }

    fn prepare(
        &mut self,
        messages: &mut Vec<Checked>,
        number: SeqNo,
        digest: Digest,
    ) -> Result<(), Fail> {
        let view = View(0);
        let proposal = Body::PrePrepare(PrePrepare {
            view,
            number,
            digest,
        });
        messages.push(self.say(0, proposal)?)?;
        let vote = Body::Prepare(Prepare {
            view,
            number,
            digest,
        });
        messages.push(self.say(2, vote)?)?;
        Ok(())
    }

    fn commit(
        &mut self,
        messages: &mut Vec<Checked>,
        number: SeqNo,
        digest: Digest,
    ) -> Result<(), Fail> {
        for id in [0, 2] {
            let vote = Body::Commit(Commit {
                view: View(0),
                number,
                digest,
            });
            messages.push(self.say(id, vote)?)?;
        }
        Ok(())
    }
}

/// Whether two rows have the same outputs, byte for byte, and the same of all else.
fn are_same_rows(alloc: Global, one: &Row, other: &Row) -> Result<bool, Fail> {
    let outputs = one.outputs().len() == other.outputs().len()
        && one.outputs().iter().zip(other.outputs()).all(|(a, b)| {
            a.to == b.to && a.own == b.own && a.message.bytes() == b.message.bytes()
        });
    let done = format!(in alloc; "{:?}", one.done())?;
    let others = format!(in alloc; "{:?}", other.done())?;
    Ok(outputs && done.as_str() == others.as_str() && one.leaves() == other.leaves())
}

/// Whether two replicas answer alike.
fn are_same(
    alloc: Global,
    one: &Result<Row, Halt>,
    other: &Result<Row, Halt>,
) -> Result<bool, Fail> {
    match (one, other) {
        (Ok(row), Ok(other)) => are_same_rows(alloc, row, other),
        (Err(halt), Err(other)) => Ok(halt == other),
        _ => Ok(false),
    }
}

/// Whether two replicas stand alike, with the same state.
fn stand_alike(one: &Node, other: &Node) -> Result<bool, Fail> {
    let states = match (one.replica().state(), other.replica().state()) {
        (Some(state), Some(other)) => {
            state.to_bytes()?.as_slice() == other.to_bytes()?.as_slice()
        }
        (None, None) => true,
        _ => false,
    };
    Ok(states && one.replica().status() == other.replica().status())
}

/// Whether two backups answer alike, and stand alike then.
fn are_alike(
    alloc: Global,
    (one, answer): (&Node, &Result<Row, Halt>),
    (other, answered): (&Node, &Result<Row, Halt>),
) -> Result<bool, Fail> {
    Ok(are_same(alloc, answer, answered)? && stand_alike(one, other)?)
}

/// Both backups take a message, the first in turn and the second in lanes; they answer alike and stand alike. Why they
/// halt, if they do.
fn take<R: Threads + Sync>(
    rt: &R,
    alloc: Global,
    backups: &mut [Node],
    bytes: &[u8],
    workers: u8,
    gate: &Count,
) -> Result<Option<Halt>, Fail> {
    let (first, rest) = backups.split_at_mut(backups.len().min(1));
    let (Some(in_turn), Some(in_lanes)) = (first.first_mut(), rest.first_mut()) else {
        return Err(Fail::new("not two backups"));
    };
    let one = in_turn.take(bytes)?;
    let other = in_lanes.take_lanes(rt, bytes, workers.max(1), gate)?;
    if are_alike(alloc, (in_turn, &one), (in_lanes, &other))? {
        Ok(other.err())
    } else {
        Err(Fail::new("another row"))
    }
}

/// Both take messages until they halt.
fn take_all<R: Threads + Sync>(
    rt: &R,
    alloc: Global,
    backups: &mut [Node],
    messages: &[Checked],
    workers: u8,
    gate: &Count,
) -> Result<Option<Halt>, Fail> {
    for message in messages {
        let halt = take(rt, alloc, backups, message.bytes(), workers, gate)?;
        if halt.is_some() {
            return Ok(halt);
        }
    }
    Ok(None)
}

/// The configuration, and what both backups of a batch take.
fn said(alloc: Global, batch: &Batch) -> Result<(Arc<Config>, Vec<Checked>), Fail> {
    let mut group = Group::new(alloc, batch.interval)?;
    let messages = group.messages(batch.asked)?;
    let config = Arc::try_clone(&group.config)?;
    Ok((config, messages))
}

/// Both backups take what the batch says.
fn run<R: Threads + Sync>(rt: &R, alloc: Global, batch: &Batch) -> Result<(), Fail> {
    let (config, messages) = said(alloc, batch)?;
    let mut backups = backups(alloc, &config, batch.leaves)?;
    let gate = Count {
        steps: AtomicU64::new(0),
    };
    let halt = take_all(rt, alloc, &mut backups, &messages, batch.workers, &gate)?;
    let lanes = gate.steps.load(Ordering::SeqCst);
    if halt == batch.halt && lanes == batch.lanes {
        Ok(())
    } else {
        Err(format!(in alloc; "{}: {lanes} lanes", batch.asked)?.into())
    }
}

/// A batch whose backup has all its leaves.
fn batch_of(interval: u8, workers: u8, asked: &'static str, lanes: u64) -> Batch {
    Batch {
        interval,
        workers,
        leaves: 32,
        asked,
        lanes,
        halt: None,
    }
}

#[test]
fn batches_give_the_rows_of_turns(rt: HostRuntime) -> Result<(), Fail> {
    let batches = [
        // tenants share lanes, or have one each
        batch_of(8, 2, "0 1 2 3 - 1", 2),
        batch_of(8, 4, "3 1 0 2", 4),
        // one tenant, and nobody
        batch_of(8, 2, "- 1 1", 1),
        batch_of(8, 2, "- -", 0),
        // a batch ends at a multiple of the interval
        batch_of(2, 2, "0 - 1 1", 2),
        batch_of(1, 2, "0 1", 2),
    ];
    for batch in &batches {
        run(&rt, rt.alloc(), batch)?;
    }
    Ok(())
}

#[test]
fn batches_halt_where_turns_do(rt: HostRuntime) -> Result<(), Fail> {
    // A Prepare and a Commit take a leaf at each of four numbers, and then each reply one.
    for leaves in [8, 10] {
        let batch = Batch {
            interval: 8,
            workers: 2,
            leaves,
            asked: "0 1 2 3",
            lanes: 2,
            halt: Some(Halt::Exhausted),
        };
        run(&rt, rt.alloc(), &batch)?;
    }
    Ok(())
}
