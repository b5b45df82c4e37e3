//! Why a Checkpoint or a snapshot is refused.

use std::alloc::AllocError;
use thiserror::Error;

/// Why a Checkpoint or a snapshot is refused. Of several faults the first is reported.
#[derive(Clone, Copy, Debug, PartialEq, Eq, Error)]
pub enum CheckpointFault {
    /// The number is not above the low water mark.
    #[error("Old")]
    Old = 1,
    /// The signer's Checkpoint at this number has another digest, or the bytes of a snapshot have a digest
    /// that is not stable at its number.
    #[error("DigestDiffers")]
    DigestDiffers = 2,
    /// Memory ran out.
    #[error("Memory")]
    Memory = 3,
}

impl CheckpointFault {
    ghost use Rattle.std.specs.Prelude.{◌≡◌};
    ghost use Rattle.checkpoints.specs.Faults.{number_of};

    /// The fault's number.
    pub fn number(&self) -> u8
        ensures { result ≡ number_of self.now }
    {
        *self as u8
    }
}

impl From<AllocError> for CheckpointFault {
    ghost use Rattle.std.specs.Prelude.{◌≡◌};
    ghost use Rattle.checkpoints.specs.declared.fault.CheckpointFault.TheVariants.{Memory};

    ghost from_gives = { λ _ gives. gives ≡ Memory };

    fn from(_: AllocError) -> CheckpointFault {
        CheckpointFault::Memory
    }
}
