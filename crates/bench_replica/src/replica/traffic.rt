//! What went between the replicas.

use seal::Checked;
use std::alloc::Global;

/// What was delivered to a replica, and what the replicas signed and answered the clients, in order.
#[derive(Drop)]
pub(crate) struct Traffic {
    /// One for each message and each replica that opened it.
    pub(crate) delivered: Vec<Checked>,
    /// The messages that took a leaf.
    pub(crate) signed: Vec<Checked>,
    pub(crate) replies: Vec<Checked>,
    /// The leaves that the rows count.
    pub(crate) leaves: u32,
}

impl Traffic {
    pub(crate) fn new(alloc: Global) -> Traffic {
        Traffic {
            delivered: Vec::new(alloc),
            signed: Vec::new(alloc),
            replies: Vec::new(alloc),
            leaves: 0,
        }
    }
}
