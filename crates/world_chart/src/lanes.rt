//! The lanes of a chart.

ghost use Rattle.std.specs.Prelude.{◌≡◌};

use host_types::{ClientId, Config, ReplicaId};
use std::alloc::{AllocError, Global};
use world_lines::Node;

/// The lanes of a chart: the clients in the order of their configuration, and then the replicas, ids ascending.
#[derive(Drop)]
pub struct Lanes {
    nodes: Vec<Node>,
    names: Vec<String>,
}

impl Lanes {
    /// The lanes of a configuration, of whose replicas these are faulty.
    pub fn new(alloc: Global, config: &Config, faulty: &[ReplicaId]) -> Result<Lanes, AllocError> {
        let mut lanes = Lanes {
            nodes: Vec::new(alloc),
            names: Vec::new(alloc),
        };
        for client in config.clients() {
            lanes.add_client(alloc, client.id)?;
        }
        for id in 0..config.replica_count() {
            let id = ReplicaId(id);
            lanes.add_replica(alloc, id, faulty.contains(&id))?;
        }
        Ok(lanes)
    }

    fn add_client(&mut self, alloc: Global, client: ClientId) -> Result<(), AllocError> {
        self.nodes.push(Node::Client(client))?;
        let id = client.0;
        self.names.push(format!(in alloc; "client {id}")?)?;
        Ok(())
    }

    fn add_replica(
        &mut self,
        alloc: Global,
        replica: ReplicaId,
        is_faulty: bool,
    ) -> Result<(), AllocError> {
        self.nodes.push(Node::Replica(replica))?;
        let id = replica.0;
        let mark = if is_faulty { ", faulty" } else { "" };
        self.names.push(format!(in alloc; "replica {id}{mark}")?)?;
        Ok(())
    }

    /// What stands above each lane.
    pub(crate) fn names(&self) -> &[String]
        ensures { result.now ≡ self.now.names.items }
    {
        &self.names
    }

    /// The lane of a node; the first for one that has none.
    pub(crate) fn lane_of(&self, node: Node) -> usize {
        self.nodes.iter().position(|one| *one == node).unwrap_or(0)
    }

    /// The lane of the replica of this index or the client of this id, of which no two are equal.
    pub(crate) fn lane_of_id(&self, id: u32) -> usize {
        self.nodes
            .iter()
            .position(|one| id_of(*one) == id)
            .unwrap_or(0)
    }

    /// The lane of a replica.
    pub(crate) fn lane_of_replica(&self, id: ReplicaId) -> usize {
        self.lane_of(Node::Replica(id))
    }
}

fn id_of(node: Node) -> u32 {
    match node {
        Node::Client(client) => client.0,
        Node::Replica(replica) => u32::from(replica.0),
    }
}
