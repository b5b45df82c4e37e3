//! Where a replica stands, as its thread last told.

ghost use Rattle.std.specs.Prelude.{◌≡◌, true};
ghost use Rattle.replica_threads.specs.Hosts.{Stands};

use byz_world::Status;
use host_types::{Config, ReplicaId};
use std::marker::Model;
use std::sync::Arc;

/// Where a replica stands after a lawful journal, and which replica under which configuration that is.
#[derive(Drop)]
pub(crate) struct Standing {
    config: Arc<Config>,
    id: ReplicaId,
    /// The leaf that the replica's signer would have used next as it began.
    first_leaf: u32,
    status: Status,
}

impl Model for Standing {
    ghost use Rattle.replica_threads.specs.Hosts.{StandingFacts, Stands};

    ghost Value = { StandingFacts };

    ghost view = { λ s. record { config = s.config.value; id = s.id.0; leaf = s.first_leaf; status = s.status } };

    ghost invariant = { λ s. Stands s.config.value s.id.0 s.first_leaf s.status };
}

impl Standing {
    pub(crate) fn new(
        config: Arc<Config>,
        id: ReplicaId,
        first_leaf: u32,
        status: Status,
    ) -> Standing
        requires stands { Stands config.value id.0 first_leaf status }
        ensures { result ≡ record { config = config.value; id = id.0; leaf = first_leaf; status = status } }
    {
        Standing {
            config,
            id,
            first_leaf,
            status,
        }
    }

    /// Whether this is of the replica under the configuration, and its signer began with this leaf.
    pub(crate) fn is_of(&self, config: &Config, id: u8, first_leaf: u32) -> bool
        ensures { result ≡ true → (self.now.config ≡ config.now) × (self.now.id ≡ id) × (self.now.leaf ≡ first_leaf) }
    {
        self.id.0 == id && self.first_leaf == first_leaf && self.config.is_same(config)
    }

    pub(crate) fn status(&self) -> Status
        ensures value { result ≡ self.now.status }
        ensures stands { Stands self.now.config self.now.id self.now.leaf result }
    {
        self.status
    }
}
