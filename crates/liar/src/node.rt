//! A correct replica that takes messages as the bytes that come to it.

ghost use Rattle.std.specs.Prelude.{◌≡◌, ◌<◌, true, IsSomeAnd};
ghost use Rattle.host_types.specs.Configuration.{replicas_for};
ghost use Rattle.lms_tree.specs.Keys.{IsKeyOf};
ghost use Rattle.pbft_codec.specs.declared.signed.Role.TheVariants as roles;
ghost use Rattle.seal.specs.Signers.{key_of};

use anyhow::{Result, anyhow};
use host_types::{Config, ReplicaId};
use lms_tree::Signer;
use replica_core::{Halt, Replica, Row};
use seal::open;
use std::alloc::Global;
use std::sync::Arc;

/// Whether the signer has the key that is listed for a replica, which there is.
fn is_listed(config: &Arc<Config>, id: ReplicaId, signer: &Signer) -> bool
    ensures { result ≡ true → (id.0 < replicas_for config.now.value.f)
        × IsSomeAnd (key_of config.now.value roles.Replica id.0) (λ key. IsKeyOf key signer.now) }
{
    match config.replica_key(id) {
        Some(key) => id.0 < config.replica_count() && *key == signer.public_key(),
        None => false,
    }
}

/// A replica, and the configuration under which it opens what it is sent.
#[derive(Drop)]
pub(crate) struct Node {
    alloc: Global,
    config: Arc<Config>,
    /// A box is dropped in one step of a proof.
    replica: Box<Replica>,
    ghost under: { replica.value.config ≡ config.value },
}

impl Node {
    /// A replica before its first message. The signer has the key that the configuration lists.
    pub(crate) fn new(
        alloc: Global,
        config: &Arc<Config>,
        id: ReplicaId,
        signer: Signer,
    ) -> Result<Node> {
        if !is_listed(config, id, &signer) {
            return Err(anyhow!("the signer's key is not listed"));
        }
        let config = Arc::try_clone(config)?;
        let replica = Replica::new(alloc, &config, id, signer)?;
        let replica = Box::new(alloc, replica)?;
        Ok(Node {
            alloc,
            config,
            replica,
        })
    }

    /// Opens the bytes of a message and takes it. How many messages it gives for that.
    pub(crate) fn take(&mut self, bytes: &[u8]) -> Result<u64> {
        let message = open(self.alloc, &self.config, bytes)?;
        outputs_of(self.replica.take(&message))
    }
}

/// How many messages a replica gave.
fn outputs_of(taken: Result<Row, Halt>) -> Result<u64> {
    match taken {
        Ok(row) => Ok(row.outputs().len() as u64),
        Err(halt) => Err(halt.into()),
    }
}
