//! Why bytes are not read as a state.

ghost use Rattle.std.specs.Prelude.{◌≡◌};
ghost use Rattle.service_core.specs.StateFaults.{number_of};

use std::alloc::{AllocError, AllocFailed};
use thiserror::Error;

/// Why bytes are not read as a state.
#[derive(Clone, Copy, Debug, PartialEq, Eq, Error)]
pub enum StateFault {
    /// The bytes are not the encoding of a state under the configuration.
    #[error("BadState")]
    BadState = 1,
    /// Memory ran out.
    #[error("Memory")]
    Memory = 2,
}

impl StateFault {
    /// The fault's number.
    pub fn number(&self) -> u8
        ensures { result ≡ number_of self.now }
    {
        *self as u8
    }
}

impl From<AllocError> for StateFault {
    ghost use Rattle.std.specs.Prelude.{◌≡◌};
    ghost use Rattle.service_core.specs.declared.state_fault.StateFault.TheVariants.{Memory};

    ghost from_gives = { λ _ fault. fault ≡ Memory };

    fn from(_: AllocError) -> StateFault {
        StateFault::Memory
    }
}

impl<T: Drop> From<AllocFailed<T>> for StateFault {
    ghost use Rattle.std.specs.Prelude.{◌≡◌};
    ghost use Rattle.service_core.specs.declared.state_fault.StateFault.TheVariants.{Memory};

    ghost from_gives = { λ _ fault. fault ≡ Memory };

    fn from(_: AllocFailed<T>) -> StateFault {
        StateFault::Memory
    }
}
