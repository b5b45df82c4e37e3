//! Why a signer gives no signature.

ghost use Rattle.std.specs.Prelude.{◌≡◌};

use thiserror::Error;

/// Why a signer gave no signature.
#[derive(Clone, Copy, Debug, PartialEq, Eq, Error)]
pub enum SignFault {
    /// Every leaf has signed. The signer is as it was, and no memory was asked for.
    #[error("Exhausted")]
    Exhausted = 1,
    /// Memory ran out. After `sign` the leaf counts as used: the next one signs next.
    #[error("Memory")]
    Memory = 2,
}

impl SignFault {
    ghost use Rattle.lms_tree.specs.Faults.{sign_fault_number};

    /// The fault's number.
    pub fn number(&self) -> u8
        ensures { result ≡ sign_fault_number self.now }
    {
        *self as u8
    }
}
