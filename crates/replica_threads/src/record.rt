//! The journal that a closed station leaves.

ghost use Rattle.std.specs.Prelude.{◌≡◌, true};
ghost use Rattle.replica_threads.specs.Hosts.{IsRecord};

use byz_world::{Halt, Row};
use host_types::{Config, ReplicaId};
use std::marker::Model;
use std::sync::Arc;

/// A lawful journal, and the replica and configuration that it is of.
#[derive(Drop)]
pub(crate) struct JournalRecord {
    config: Arc<Config>,
    id: ReplicaId,
    /// The leaf that the replica's signer would have used next as it began.
    first_leaf: u32,
    rows: Vec<Row>,
    halted: Option<Halt>,
}

impl Model for JournalRecord {
    ghost use Rattle.replica_threads.specs.Hosts.{IsRecord, RecordFacts};

    ghost Value = { RecordFacts };

    ghost view = { λ r. record { config = r.config.value; id = r.id.0; leaf = r.first_leaf; rows = r.rows.items; halted = r.halted } };

    ghost invariant = { λ r. IsRecord r.config.value r.id.0 r.first_leaf r.rows.items };
}

impl JournalRecord {
    pub(crate) fn new(
        config: Arc<Config>,
        id: ReplicaId,
        first_leaf: u32,
        rows: Vec<Row>,
        halted: Option<Halt>,
    ) -> JournalRecord
        requires lawful { IsRecord config.value id.0 first_leaf rows.items }
        ensures { result ≡ record { config = config.value; id = id.0; leaf = first_leaf; rows = rows.items; halted = halted } }
    {
        JournalRecord {
            config,
            id,
            first_leaf,
            rows,
            halted,
        }
    }

    /// Whether the journal is of this replica under this configuration, and its signer began with this leaf.
    pub(crate) fn is_of(&self, config: &Config, id: u8, first_leaf: u32) -> bool
        ensures { result ≡ true → (self.now.config ≡ config.now) × (self.now.id ≡ id) × (self.now.leaf ≡ first_leaf) }
    {
        self.id.0 == id && self.first_leaf == first_leaf && self.config.is_same(config)
    }

    /// Why the station has halted, if it has.
    pub(crate) fn halted(&self) -> Option<Halt>
        ensures { result ≡ self.now.halted }
    {
        self.halted
    }

    pub(crate) fn into_rows(self) -> Vec<Row>
        ensures rows { result.items ≡ self.rows }
        ensures lawful { IsRecord self.config self.id self.leaf result.items }
    {
        self.rows
    }
}
