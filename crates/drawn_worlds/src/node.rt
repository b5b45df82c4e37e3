//! A replica and its rows.

ghost use Rattle.std.specs.Prelude.{◌≡◌, ◌<◌, true, IsSomeAnd};
ghost use Rattle.host_types.specs.Configuration.{replicas_for};
ghost use Rattle.lms_tree.specs.Keys.{IsKeyOf};
ghost use Rattle.pbft_codec.specs.declared.signed.Role.TheVariants as roles;
ghost use Rattle.seal.specs.Signers.{key_of};

use anyhow::{Result, anyhow};
use drained_records::{Halt, Replica, Row, Status};
use host_types::{Config, ReplicaId};
use lms_tree::Signer;
use seal::Checked;
use std::alloc::{AllocError, Global};
use std::sync::Arc;

/// Whether the signer has the key that is listed for a replica, which there is.
fn is_listed(config: &Arc<Config>, id: ReplicaId, signer: &Signer) -> bool
    ensures { result ≡ true → (id.0 < replicas_for config.now.value.f)
        × IsSomeAnd (key_of config.now.value roles.Replica id.0) (λ key. IsKeyOf key signer.now) }
{
    match config.replica_key(id) {
        Some(key) => id.0 < config.replica_count() && *key == signer.public_key(),
        None => false,
    }
}

/// A replica, the configuration of what it takes, and the rows that it gave.
#[derive(Drop)]
pub(crate) struct Node {
    alloc: Global,
    config: Arc<Config>,
    /// A box is dropped in one step of a proof.
    replica: Box<Replica>,
    rows: Vec<Row>,
    ghost under: { replica.value.config ≡ config.value },
}

impl Node {
    /// A replica before its first message. The signer has the key that the configuration lists.
    pub(crate) fn new(
        alloc: Global,
        config: &Arc<Config>,
        id: ReplicaId,
        signer: Signer,
    ) -> Result<Node> {
        if !is_listed(config, id, &signer) {
            return Err(anyhow!("the signer's key is not listed"));
        }
        let config = Arc::try_clone(config)?;
        let replica = Replica::new(alloc, &config, id, signer)?;
        let replica = Box::new(alloc, replica)?;
        Ok(Node {
            alloc,
            config,
            replica,
            rows: Vec::new(alloc),
        })
    }

    /// Takes a message. The row; none where the replica has stopped.
    pub(crate) fn take(&mut self, message: &Checked) -> Result<Option<Row>> {
        if !message.under(&self.config) {
            return Err(anyhow!("a message of another configuration"));
        }
        let stepped = self.replica.take(message);
        kept(&mut self.rows, stepped)
    }

    /// Takes a timeout. The row; none where the replica has stopped.
    pub(crate) fn timeout(&mut self) -> Result<Option<Row>> {
        let stepped = self.replica.timeout();
        kept(&mut self.rows, stepped)
    }

    pub(crate) fn status(&self) -> Status {
        self.replica.status()
    }

    /// Handles of the rows.
    pub(crate) fn rows(&self) -> Result<Vec<Row>, AllocError> {
        let mut rows = Vec::new(self.alloc);
        for row in &self.rows {
            rows.push(row.copy()?)?;
        }
        Ok(rows)
    }
}

/// Keeps the row of a step, and gives a handle of it.
fn kept(rows: &mut Vec<Row>, stepped: Result<Row, Halt>) -> Result<Option<Row>> {
    match stepped {
        Ok(row) => {
            let handle = row.copy()?;
            rows.push(row)?;
            Ok(Some(handle))
        }
        Err(Halt::Memory) => Err(anyhow!("memory ran out")),
        Err(_) => Ok(None),
    }
}
