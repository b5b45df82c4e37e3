//! Messages on their way.

use host_types::ReplicaId;
use seal::Checked;
use std::alloc::AllocError;

/// Where a message goes.
#[derive(Clone, Copy)]
pub(crate) enum Place {
    Replica(ReplicaId),
    /// The client with this index.
    Client(usize),
}

/// A message on its way.
#[derive(Drop)]
pub(crate) struct Letter {
    /// The replica that gave it; none of a client's request.
    pub from: Option<ReplicaId>,
    pub to: Place,
    pub message: Checked,
}

impl Letter {
    /// The same letter once more.
    pub(crate) fn copy(&self) -> Result<Letter, AllocError> {
        Ok(Letter {
            from: self.from,
            to: self.to,
            message: self.message.copy()?,
        })
    }
}
