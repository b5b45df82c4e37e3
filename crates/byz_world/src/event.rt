//! What happens in a world.

use host_types::{Bytes, ReplicaId};

/// What happens to one replica.
#[derive(Debug, Drop)]
pub enum Event {
    /// These bytes come to it, whoever sent them.
    Deliver {
        to: ReplicaId,
        bytes: Bytes,
    },
    /// It gets an output of another: the outputs of a replica are counted over all its rows, from 0.
    Forward {
        to: ReplicaId,
        from: ReplicaId,
        output: u64,
    },
    /// Its timer expires.
    Timeout {
        at: ReplicaId,
    },
}
