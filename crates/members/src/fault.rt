//! Why nobody joins, and why bytes make no step.

use replica_core::Halt;
use seal::SealFault;
use std::alloc::AllocError;
use thiserror::Error;

/// Why a signer makes no member of a group.
#[derive(Clone, Copy, Debug, PartialEq, Eq, Error)]
pub enum JoinFault {
    /// No such replica or client is listed.
    #[error("NotListed")]
    NotListed,
    /// Another key is listed for it than the signer's.
    #[error("OtherKey")]
    OtherKey,
    /// Memory ran out.
    #[error("Memory")]
    Memory,
}

impl From<AllocError> for JoinFault {
    ghost use Rattle.std.specs.Prelude.{◌≡◌};
    ghost use Rattle.members.specs.declared.fault.JoinFault.TheVariants.{Memory};

    ghost from_gives = { λ _ gives. gives ≡ Memory };

    fn from(_: AllocError) -> JoinFault {
        JoinFault::Memory
    }
}

/// Why bytes gave no row.
#[derive(Clone, Copy, Debug, PartialEq, Eq, Error)]
pub enum StepFault {
    /// They are no message that the configuration takes, or memory ran out as they were opened: the replica is as it was.
    #[error("{0}")]
    Unopened(SealFault),
    /// The replica has halted.
    #[error("{0}")]
    Halted(Halt),
}

impl From<SealFault> for StepFault {
    ghost use Rattle.std.specs.Prelude.{◌≡◌};
    ghost use Rattle.members.specs.declared.fault.StepFault.TheVariants.{Unopened};

    ghost from_gives = { λ fault gives. gives ≡ Unopened fault };

    fn from(fault: SealFault) -> StepFault {
        StepFault::Unopened(fault)
    }
}
