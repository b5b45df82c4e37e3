//! Why a vote is not recorded.

use std::alloc::AllocError;
use thiserror::Error;

/// Why a vote is not recorded. Of several faults the first is reported, in the order `WrongView`,
/// `OutsideMarks`, `OtherDigest`, `Memory`.
#[derive(Clone, Copy, Debug, PartialEq, Eq, Error)]
pub enum LogFault {
    /// The number is not between the water marks, or not above the floor of the entered view.
    #[error("OutsideMarks")]
    OutsideMarks = 1,
    /// The signer has voted for another digest.
    #[error("OtherDigest")]
    OtherDigest = 2,
    /// The view is below the log's.
    #[error("WrongView")]
    WrongView = 3,
    /// Memory ran out.
    #[error("Memory")]
    Memory = 4,
}

impl LogFault {
    ghost use Rattle.std.specs.Prelude.{◌≡◌};
    ghost use Rattle.quorum_log.specs.Faults.{number_of};

    /// The fault's number.
    pub fn number(&self) -> u8
        ensures { result ≡ number_of self.now }
    {
        *self as u8
    }
}

impl From<AllocError> for LogFault {
    ghost use Rattle.std.specs.Prelude.{◌≡◌};
    ghost use Rattle.quorum_log.specs.declared.fault.LogFault.TheVariants.{Memory};

    ghost from_gives = { λ _ gives. gives ≡ Memory };

    fn from(_: AllocError) -> LogFault {
        LogFault::Memory
    }
}
