//! A replica before its thread runs.

ghost use Rattle.std.specs.Prelude.{◌≡◌, ◌≤◌, ◌<◌, IfOk, IsSomeAnd};
ghost use Rattle.host_types.specs.Configuration.{replicas_for};
ghost use Rattle.lms_tree.specs.Keys.{IsKeyOf};
ghost use Rattle.pbft_codec.specs.declared.signed.Role.TheVariants as roles;
ghost use Rattle.seal.specs.Signers.{key_of};
ghost use Rattle.byz_world.specs.Keeping.{first_journal};
ghost use Rattle.replica_threads.specs.Stations.{signer_of};

use crate::furnishing::Inbox;
use crate::links::{Letter, Parcel};
use byz_world::Journal;
use crossbeam_channel::Receiver;
use early_votes::Held;
use host_types::{Config, ReplicaId};
use lms_tree::Signer;
use std::alloc::{AllocError, Global};
use std::sync::Arc;

/// A replica that has made no step, and the queues that its openers and its thread read.
#[derive(Drop)]
pub(crate) struct Desk {
    pub(crate) config: Arc<Config>,
    pub(crate) id: ReplicaId,
    pub(crate) journal: Box<Journal>,
    pub(crate) parcels: Receiver<Parcel>,
    pub(crate) letters: Receiver<Letter>,
    /// The leaf that the replica's signer uses next.
    pub(crate) first_leaf: u32,
    ghost fresh: { journal.value ≡ first_journal config.value id.0 (signer_of journal.value.replica.core) journal.value.limit },
    ghost leaf_is: { (signer_of journal.value.replica.core).next_leaf ≡ first_leaf },
    ghost limited: { journal.value.limit ≤ 65536 },
    pub(crate) held: Held,
    ghost held_for: { held.config ≡ config.value },
}

impl Desk {
    /// The desk of a replica with this signer, whose journal takes so many rows. It is refused only where memory ran out.
    pub(crate) fn new(
        alloc: Global,
        config: &Arc<Config>,
        id: ReplicaId,
        signer: Signer,
        limit: u32,
        inbox: Inbox,
    ) -> Result<Desk, AllocError>
        requires replica { id.0 < replicas_for config.now.value.f }
        requires key { IsSomeAnd (key_of config.now.value roles.Replica id.0) (λ key. IsKeyOf key signer) }
        requires limit { limit ≤ 65536 }
        ensures journal { IfOk result (λ desk. desk.journal.value ≡ first_journal config.now.value id.0 signer limit) }
        ensures leaf { IfOk result (λ desk. desk.first_leaf ≡ signer.next_leaf) }
    {
        let first_leaf = signer.next_leaf();
        let journal = empty_journal(alloc, config, id, signer, limit)?;
        let held = Held::new(alloc, config)?;
        let config = Arc::try_clone(config)?;
        Ok(Desk {
            config,
            id,
            journal,
            parcels: inbox.parcels,
            letters: inbox.letters,
            first_leaf,
            held,
        })
    }
}

// The journal of a replica that has made no step.
fn empty_journal(
    alloc: Global,
    config: &Arc<Config>,
    id: ReplicaId,
    signer: Signer,
    limit: u32,
) -> Result<Box<Journal>, AllocError>
    requires replica { id.0 < replicas_for config.now.value.f }
    requires key { IsSomeAnd (key_of config.now.value roles.Replica id.0) (λ key. IsKeyOf key signer) }
    ensures { IfOk result (λ journal. journal.value ≡ first_journal config.now.value id.0 signer limit) }
{
    let journal = Journal::new(alloc, config, id, signer, limit as usize)?;
    Ok(Box::new(alloc, journal)?)
}
