//! Four replicas, their clients, and the messages on their way.

use crate::replica::node::Node;
use crate::replica::traffic::Traffic;
use anyhow::{Result, anyhow};
use bench_common::members::{FIRST_CLIENT, config, signers};
use bench_common::signing;
use host_types::{Bytes, Config, ReplicaId};
use lms_tree::{Height, Signer};
use pbft_codec::{Body, RequestBody, Role};
use replica_core::{Dest, Row};
use seal::Checked;
use std::alloc::Global;
use std::collections::VecDeque;
use std::sync::Arc;

/// The replicas where one may be faulty.
pub(crate) const REPLICAS: u8 = 4;

/// More messages than a round of requests makes.
const MAX_MESSAGES: u32 = 100_000;

/// The kind of a group: how many leaves each key has, a checkpoint's interval, how many clients, and how
/// many procedures are installed that are never called.
#[derive(Clone, Copy)]
pub(crate) struct Setup {
    pub(crate) height: Height,
    pub(crate) interval: u8,
    pub(crate) clients: u8,
    pub(crate) procedures: u8,
}

/// A message on its way to a replica.
#[derive(Drop)]
struct Letter {
    to: u8,
    message: Checked,
}

/// Four replicas that are run in turn, the signers of their clients, and a queue of messages.
#[derive(Drop)]
pub(crate) struct Group {
    alloc: Global,
    config: Arc<Config>,
    nodes: Vec<Node>,
    clients: Vec<Signer>,
    queue: VecDeque<Letter>,
}

/// The replicas of a configuration, with these signers.
fn nodes_of(alloc: Global, config: &Arc<Config>, signers: Vec<Signer>) -> Result<Vec<Node>> {
    let mut nodes = Vec::new(alloc);
    let mut id = 0u8;
    for signer in signers {
        nodes.push(Node::new(alloc, config, ReplicaId(id), signer)?)?;
        id = id.saturating_add(1);
    }
    Ok(nodes)
}

impl Group {
    /// A group before its first request.
    pub(crate) fn new(alloc: Global, setup: Setup) -> Result<Group> {
        let clients = signers(alloc, setup.height, FIRST_CLIENT, setup.clients)?;
        let replicas = signers(alloc, setup.height, 0, REPLICAS)?;
        let config = config(alloc, 1, setup.interval, &replicas, &clients, 1)?;
        let nodes = nodes_of(alloc, &config, replicas)?;
        Ok(Group {
            alloc,
            config,
            nodes,
            clients,
            queue: VecDeque::new(alloc),
        })
    }

    /// Who takes part.
    pub(crate) fn config(&self) -> &Config {
        &self.config
    }

    /// The replicas; the first one is the primary.
    pub(crate) fn nodes(&self) -> &[Node] {
        &self.nodes
    }

    /// Puts a client's request on its way to all replicas. The clients count from 0.
    pub(crate) fn ask(&mut self, client: u8, time: u64, op: Vec<u8>) -> Result<()> {
        let request = self.request(client, time, op)?;
        self.post_all(None, &request)
    }

    fn request(&mut self, client: u8, time: u64, op: Vec<u8>) -> Result<Checked> {
        let Some(signer) = self.clients.get_mut(usize::from(client)) else {
            return Err(anyhow!("there is no such client"));
        };
        let id = u32::from(FIRST_CLIENT).saturating_add(u32::from(client));
        let body = Body::Request(RequestBody {
            time,
            op: Bytes::from_vec(op),
        });
        signing::message(self.alloc, &self.config, signer, Role::Client, id, body)
    }

    /// Delivers what is on its way and what comes of it, in order, until nothing is. Each replica opens
    /// the bytes of each message that it is sent.
    pub(crate) fn run(&mut self) -> Result<Traffic> {
        let mut traffic = Traffic::new(self.alloc);
        self.deliver_all(&mut traffic)?;
        Ok(traffic)
    }

    fn deliver_all(&mut self, traffic: &mut Traffic) -> Result<()> {
        for _ in 0..MAX_MESSAGES {
            let Some(letter) = self.queue.pop_front() else {
                return Ok(());
            };
            self.deliver(&letter, traffic)?;
            traffic.delivered.push(letter.message)?;
        }
        Err(anyhow!("the messages do not end"))
    }

    fn deliver(&mut self, letter: &Letter, traffic: &mut Traffic) -> Result<()> {
        let Some(node) = self.nodes.get_mut(usize::from(letter.to)) else {
            return Err(anyhow!("there is no such replica"));
        };
        let row = node.deliver(letter.message.bytes())?;
        self.spread(letter.to, &row, traffic)
    }

    fn spread(&mut self, from: u8, row: &Row, traffic: &mut Traffic) -> Result<()> {
        traffic.leaves = traffic.leaves.saturating_add(row.leaves());
        for output in row.outputs() {
            if output.own {
                traffic.signed.push(output.message.copy()?)?;
            }
            match output.to {
                Dest::All => self.post_all(Some(from), &output.message)?,
                Dest::Replica(to) => self.post(to.0, &output.message)?,
                Dest::Client(_) => traffic.replies.push(output.message.copy()?)?,
            }
        }
        Ok(())
    }

    fn post(&mut self, to: u8, message: &Checked) -> Result<()> {
        let message = message.copy()?;
        self.queue.push_back(Letter { to, message })?;
        Ok(())
    }

    fn post_all(&mut self, but: Option<u8>, message: &Checked) -> Result<()> {
        for to in 0..REPLICAS {
            if but != Some(to) {
                self.post(to, message)?;
            }
        }
        Ok(())
    }
}
