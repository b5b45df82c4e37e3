//! Whether signers have the keys that are listed for them.

ghost use Rattle.std.specs.Prelude.{◌≡◌, true, length, IsSomeAnd};
ghost use Rattle.std.specs.FinSet as set;
ghost use Rattle.lms_tree.specs.Keys.{IsKeyOf};
ghost use Rattle.pbft_codec.specs.declared.signed.Role.TheVariants as roles;
ghost use Rattle.seal.specs.Signers.{key_of};
ghost use Rattle.drained_records.specs.Worlds.{AreListed, correct_ids};

use host_types::{Config, ReplicaId, ReplicaSet};
use lms_tree::Signer;
use std::sync::Arc;

// Whether the signer has the key that is listed for a replica.
fn is_listed(config: &Arc<Config>, id: u8, signer: &Signer) -> bool
    ensures { result ≡ true → IsSomeAnd (key_of config.now.value roles.Replica id) (λ key. IsKeyOf key signer.now) }
{
    match config.replica_key(ReplicaId(id)) {
        Some(key) => *key == signer.public_key(),
        None => false,
    }
}

/// Whether there is one signer for each correct replica, ids ascending, each with the key that is listed.
pub fn are_listed(config: &Arc<Config>, faulty: &ReplicaSet, signers: &[Signer]) -> bool
    ensures many { result ≡ true → length signers.now ≡ length (correct_ids config.now.value (λ i. set.contains faulty.now i)) }
    ensures keys { result ≡ true → AreListed config.now.value (correct_ids config.now.value (λ i. set.contains faulty.now i)) signers.now }
{
    let count = config.replica_count();
    let mut rest = signers;
    for id in 0..count {
        if !faulty.contains(ReplicaId(id)) {
            let Some((signer, later)) = rest.split_first() else {
                return false;
            };
            if !is_listed(config, id, signer) {
                return false;
            }
            rest = later;
        }
    }
    rest.is_empty()
}
