//! A replica that takes messages as the bytes that come to it.

ghost use Rattle.std.specs.Prelude.{◌≡◌, ◌<◌, true, IsSomeAnd};
ghost use Rattle.host_types.specs.Configuration.{replicas_for};
ghost use Rattle.lms_tree.specs.Keys.{IsKeyOf};
ghost use Rattle.pbft_codec.specs.declared.signed.Role.TheVariants as roles;
ghost use Rattle.seal.specs.Signers.{key_of};

use host_types::{Config, Gate, ReplicaId};
use lms_tree::Signer;
use replica_core::{Halt, Replica, Row};
use seal::open;
use std::alloc::Global;
use std::sync::Arc;
use std::test::Fail;
use std::thread::Threads;

/// Whether the signer has the key that is listed for a replica, which there is.
fn is_listed(config: &Arc<Config>, id: ReplicaId, signer: &Signer) -> bool
    ensures { result ≡ true → (id.0 < replicas_for config.now.value.f)
        × IsSomeAnd (key_of config.now.value roles.Replica id.0) (λ key. IsKeyOf key signer.now) }
{
    match config.replica_key(id) {
        Some(key) => id.0 < config.replica_count() && *key == signer.public_key(),
        None => false,
    }
}

/// A replica, and the configuration that it runs under.
#[derive(Drop)]
pub struct Node {
    alloc: Global,
    config: Arc<Config>,
    /// A box is dropped in one step of a proof.
    replica: Box<Replica>,
    ghost under: { replica.value.config ≡ config.value },
}

impl Node {
    /// A replica whose signer has the key that is listed for it.
    pub fn new(
        alloc: Global,
        config: &Arc<Config>,
        id: ReplicaId,
        signer: Signer,
    ) -> Result<Node, Fail> {
        if !is_listed(config, id, &signer) {
            return Err(Fail::new("another key is listed"));
        }
        let config = Arc::try_clone(config)?;
        let replica = Replica::new(alloc, &config, id, signer)?;
        let replica = Box::new(alloc, replica)?;
        Ok(Node {
            alloc,
            config,
            replica,
        })
    }

    /// Opens a message, and takes it.
    pub fn take(&mut self, bytes: &[u8]) -> Result<Result<Row, Halt>, Fail> {
        let message = open(self.alloc, &self.config, bytes)?;
        Ok(self.replica.take(&message))
    }

    /// Opens a message, and takes it in lanes.
    pub fn take_lanes<R: Threads + Sync, G: Gate + Sync>(
        &mut self,
        rt: &R,
        bytes: &[u8],
        workers: u8,
        gate: &G,
    ) -> Result<Result<Row, Halt>, Fail>
        requires { 0 < workers }
    {
        let message = open(self.alloc, &self.config, bytes)?;
        Ok(self.replica.take_lanes(rt, &message, workers, gate))
    }

    pub fn timeout(&mut self) -> Result<Row, Halt> {
        self.replica.timeout()
    }

    pub fn replica(&self) -> &Replica {
        &self.replica
    }
}
