//! What is noted while a world is played, for the premises of the laws.

use crate::facts::has_received;
use crate::letter::Place;
use drained_records::Row;
use host_types::ReplicaId;
use seal::Checked;
use std::alloc::{AllocError, Global};

/// A message that was lost on the way from one correct replica to another, or came to one that had stopped.
#[derive(Drop)]
pub(crate) struct Lost {
    pub to: ReplicaId,
    pub message: Checked,
}

/// What is noted while a world is played.
#[derive(Drop)]
pub(crate) struct Notes {
    /// The requests that clients made.
    pub requests: Vec<Checked>,
    /// What of correct replicas did not come to another one, at that time.
    pub lost: Vec<Lost>,
    /// The clients to which a correct replica's message was lost, by their indices.
    pub deaf: Vec<usize>,
    /// A vote of a correct replica came to one above its high water mark.
    pub is_early: bool,
}

impl Notes {
    pub(crate) fn new(alloc: Global) -> Notes {
        Notes {
            requests: Vec::new(alloc),
            lost: Vec::new(alloc),
            deaf: Vec::new(alloc),
            is_early: false,
        }
    }

    /// A message of a correct replica was lost on its way to a correct replica or a client.
    pub(crate) fn lose(&mut self, to: Place, message: Checked) -> Result<(), AllocError> {
        match to {
            Place::Replica(to) => self.lost.push(Lost { to, message })?,
            Place::Client(index) => self.deaf.push(index)?,
        }
        Ok(())
    }

    /// Whether each message that was lost came later, from whomever.
    pub(crate) fn all_came(&self, records: &[(ReplicaId, Vec<Row>)]) -> bool {
        self.lost.iter().all(|lost| has_come(records, lost))
    }
}

fn has_come(records: &[(ReplicaId, Vec<Row>)], lost: &Lost) -> bool {
    records.iter().any(|record| record.0 == lost.to && has_received(&record.1, &lost.message))
}
