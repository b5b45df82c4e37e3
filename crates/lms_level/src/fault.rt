//! Why a signature is not valid.

ghost use Rattle.std.specs.Prelude.{◌≡◌};

use thiserror::Error;

/// Why a signature is not valid: the first of the faults, in the order that `verify` names.
#[derive(Clone, Copy, Debug, PartialEq, Eq, Error)]
pub enum SigFault {
    /// The signature's length is not that of the key's height.
    #[error("Length")]
    Length = 1,
    /// The key's or the signature's typecodes are unknown or don't agree.
    #[error("WrongType")]
    WrongType = 2,
    /// The tree has no such leaf.
    #[error("Leaf")]
    Leaf = 3,
    /// The signature leads to another root.
    #[error("Mismatch")]
    Mismatch = 4,
}

impl SigFault {
    ghost use Rattle.lms_level.specs.Faults.{sig_fault_number};

    /// The fault's number.
    pub fn number(&self) -> u8
        ensures { result ≡ sig_fault_number self.now }
    {
        *self as u8
    }
}
