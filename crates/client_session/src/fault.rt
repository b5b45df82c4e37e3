//! Why a session refuses.

use lms_tree::SignFault;
use std::alloc::AllocError;
use thiserror::Error;

/// Why there is no request, or no result. A session alone gives `Exhausted` and `Memory`; the other two
/// are of a call through a host.
#[derive(Clone, Copy, Debug, PartialEq, Eq, Error)]
pub enum SessionFault {
    /// The session's signer has no leaf left.
    #[error("Exhausted")]
    Exhausted = 1,
    /// The host was closed after the request was posted and before a result was accepted.
    #[error("NoQuorum")]
    NoQuorum = 2,
    /// The host is closed.
    #[error("Closed")]
    Closed = 3,
    /// Memory ran out.
    #[error("Memory")]
    Memory = 4,
}

impl SessionFault {
    ghost use Rattle.std.specs.Prelude.{◌≡◌};
    ghost use Rattle.client_session.specs.Faults.{number_of};

    /// The fault's number.
    pub fn number(&self) -> u8
        ensures { result ≡ number_of self.now }
    {
        *self as u8
    }
}

impl From<AllocError> for SessionFault {
    ghost use Rattle.std.specs.Prelude.{◌≡◌};
    ghost use Rattle.client_session.specs.declared.fault.SessionFault.TheVariants.{Memory};

    ghost from_gives = { λ _ gives. gives ≡ Memory };

    fn from(_: AllocError) -> SessionFault {
        SessionFault::Memory
    }
}

impl From<SignFault> for SessionFault {
    ghost use Rattle.std.specs.Prelude.{◌≡◌};
    ghost use Rattle.client_session.specs.Faults.{of_signing};

    ghost from_gives = { λ fault gives. gives ≡ of_signing fault };

    fn from(fault: SignFault) -> SessionFault {
        match fault {
            SignFault::Exhausted => SessionFault::Exhausted,
            SignFault::Memory => SessionFault::Memory,
        }
    }
}
