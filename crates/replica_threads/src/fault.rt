//! Why a host refuses.

use std::alloc::{AllocError, AllocFailed};
use thiserror::Error;

/// Why a host doesn't start, take a post, or give what was asked for.
#[derive(Clone, Copy, Debug, PartialEq, Eq, Error)]
pub enum HostFault {
    /// The signers aren't those of the listed keys, one for each replica.
    #[error("WrongSigners")]
    WrongSigners = 1,
    /// The host was closed.
    #[error("Closed")]
    Closed = 2,
    /// Memory ran out, or a thread could not be made.
    #[error("Memory")]
    Memory = 3,
}

impl HostFault {
    ghost use Rattle.std.specs.Prelude.{◌≡◌};
    ghost use Rattle.replica_threads.specs.HostFaults.{number_of};

    /// The fault's number.
    pub fn number(&self) -> u8
        ensures { result ≡ number_of self.now }
    {
        *self as u8
    }
}

impl From<AllocError> for HostFault {
    ghost use Rattle.std.specs.Prelude.{◌≡◌};
    ghost use Rattle.replica_threads.specs.declared.fault.HostFault.TheVariants.{Memory};

    ghost from_gives = { λ _ gives. gives ≡ Memory };

    fn from(_: AllocError) -> HostFault {
        HostFault::Memory
    }
}

impl<T: Drop> From<AllocFailed<T>> for HostFault {
    ghost use Rattle.std.specs.Prelude.{◌≡◌};
    ghost use Rattle.replica_threads.specs.declared.fault.HostFault.TheVariants.{Memory};

    ghost from_gives = { λ _ gives. gives ≡ Memory };

    fn from(_: AllocFailed<T>) -> HostFault {
        HostFault::Memory
    }
}
