//! What the correct replicas of a world did.

ghost use Rattle.std.specs.Prelude.{◌≡◌, map};
ghost use Rattle.byz_world.specs.Worlds.{facts_of};

use host_types::ReplicaId;
use replica_journal::{Halt, Row};
use std::marker::Model;

/// What a correct replica did: its rows in order, and why it has stopped, if it has.
#[derive(Drop)]
pub struct Outcome {
    pub id: ReplicaId,
    pub rows: Vec<Row>,
    pub halted: Option<Halt>,
}

/// What the correct replicas of a world did, ids ascending.
#[derive(Drop)]
pub struct Report {
    outcomes: Vec<Outcome>,
}

impl Model for Report {
    ghost use Rattle.std.specs.Prelude.{List, map};
    ghost use Rattle.byz_world.specs.Worlds.{OutcomeFacts, facts_of};

    ghost Value = { List OutcomeFacts };

    ghost view = { λ r. map facts_of r.outcomes.items };
}

impl Report {
    pub(crate) fn new(outcomes: Vec<Outcome>) -> Report
        ensures { result ≡ map facts_of outcomes.items }
    {
        Report { outcomes }
    }

    /// What each correct replica did, ids ascending. It takes no memory.
    pub fn outcomes(&self) -> &[Outcome]
        ensures { map facts_of result.now ≡ self.now }
    {
        &self.outcomes
    }
}
