//! Why a ViewChange or a NewView is not valid.

use std::alloc::AllocError;
use thiserror::Error;

/// Why a `ViewChange` or a `NewView` is not valid. Of several faults the first is reported, in the order
/// `View`, `Proof`, `Certificate`, `Order`.
#[derive(Clone, Copy, Debug, PartialEq, Eq, Error)]
pub enum ViewFault {
    /// A low mark is not shown to be stable, or a `NewView` does not hold a quorum of `ViewChange`s.
    #[error("Proof")]
    Proof = 1,
    /// A certificate has not the Prepares of 2f backups that match its `PrePrepare`.
    #[error("Certificate")]
    Certificate = 2,
    /// The view is 0, a certificate's view is not lower, or a `ViewChange` is for another view.
    #[error("View")]
    View = 3,
    /// The numbers of certificates do not ascend between the marks, or a `NewView`'s proposals are not
    /// those that its `ViewChange`s give.
    #[error("Order")]
    Order = 4,
    /// Memory ran out.
    #[error("Memory")]
    Memory = 5,
}

impl ViewFault {
    ghost use Rattle.std.specs.Prelude.{◌≡◌};
    ghost use Rattle.view_change.specs.Faults.{number_of};

    /// The fault's number.
    pub fn number(&self) -> u8
        ensures { result ≡ number_of self.now }
    {
        *self as u8
    }
}

impl From<AllocError> for ViewFault {
    ghost use Rattle.std.specs.Prelude.{◌≡◌};
    ghost use Rattle.view_change.specs.declared.fault.ViewFault.TheVariants.{Memory};

    ghost from_gives = { λ _ gives. gives ≡ Memory };

    fn from(_: AllocError) -> ViewFault {
        ViewFault::Memory
    }
}
