//! Laws of what a replica's parts give each other.

ghost use Rattle.std.specs.Prelude.{◌≡◌, ◌<◌, ℕ, Some};
ghost use Rattle.checkpoints.specs.Kept.{KeptCheckpoints, discarded, proof_list, stable_at};
ghost use Rattle.host_types.specs.declared.Digest.{Digest};
ghost use Rattle.replica_stores.specs.Made.{IsStableBy};

/// What `Checkpoints::proof` gives at a stable number above the low mark proves it: Checkpoints of 2f + 1
/// replicas at the number with one digest, ids ascending, as `make` wants of a ViewChange's valid parts. Once
/// the mark is raised to the number it gives the same there.
pub fn checkpoints_give_valid_proofs()
    ensures proof { (k : KeptCheckpoints) (number : ℕ) (digest : Digest) → k.low < number → stable_at k number ≡ Some digest
        → IsStableBy k.config number (proof_list k number).messages }
    ensures kept { (k : KeptCheckpoints) (number : ℕ) → k.low < number → proof_list (discarded number k) number ≡ proof_list k number }
{}
