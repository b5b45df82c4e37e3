//! A replica, and how it takes bytes.

ghost use Rattle.std.specs.Prelude.{◌≡◌};

use anyhow::{Result, anyhow};
use host_types::{Config, ReplicaId};
use lms_tree::Signer;
use replica_core::{Halt, Replica, Row};
use seal::{Checked, open};
use std::alloc::Global;
use std::marker::Model;
use std::sync::Arc;

/// A replica, with the configuration under which it opens what it is sent.
#[derive(Drop)]
pub(crate) struct Node {
    alloc: Global,
    config: Arc<Config>,
    replica: Replica,
}

impl Model for Node {
    ghost use Rattle.std.specs.Prelude.{◌≡◌};
    ghost use Rattle.host_types.specs.Configuration.{Configuration};

    ghost Value = { Configuration };

    ghost view = { λ n. n.config.value };

    ghost invariant = { λ n. n.replica.config ≡ n.config.value };
}

impl Node {
    /// A replica before its first message. The signer has the key that the configuration lists.
    pub(crate) fn new(
        alloc: Global,
        config: &Arc<Config>,
        id: ReplicaId,
        signer: Signer,
    ) -> Result<Node> {
        let Some(key) = config.replica_key(id) else {
            return Err(anyhow!("there is no such replica"));
        };
        if id.0 >= config.replica_count() || *key != signer.public_key() {
            return Err(anyhow!("the signer's key is not listed"));
        }
        let replica = Replica::new(alloc, config, id, signer)?;
        Ok(Node {
            alloc,
            config: Arc::try_clone(config)?,
            replica,
        })
    }

    /// Opens the bytes of a message and takes it.
    pub(crate) fn deliver(&mut self, bytes: &[u8]) -> Result<Row> {
        let message = open(self.alloc, &self.config, bytes)?;
        Ok(take(&mut self.replica, &message)?)
    }

    /// How many leaves its signer has left.
    pub(crate) fn leaves_left(&self) -> u32 {
        self.replica.leaves_left()
    }

    /// The bytes of its state.
    pub(crate) fn state(&self) -> Result<Vec<u8>> {
        match self.replica.state() {
            Some(state) => Ok(state.to_bytes()?),
            None => Err(anyhow!("a replica has halted")),
        }
    }

    /// The number that it executed last.
    pub(crate) fn executed(&self) -> u64 {
        self.replica.status().executed.0
    }
}

/// Has a replica take a message that was opened under its configuration, which it keeps.
fn take(replica: &mut Replica, message: &Checked) -> Result<Row, Halt>
    requires { message.now.config ≡ replica.old.config }
    ensures { replica.new.config ≡ replica.old.config }
{
    replica.take(message)
}
