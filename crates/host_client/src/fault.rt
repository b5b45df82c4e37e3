//! Why a call ends that doesn't wait for ever.

use client_session::SessionFault;
use std::alloc::AllocError;
use thiserror::Error;

/// Why a call has no reply.
#[derive(Clone, Copy, Debug, PartialEq, Eq, Error)]
pub enum CallFault {
    /// As a call that waits for ever.
    #[error("{0}")]
    Session(SessionFault),
    /// More than f replicas have halted: no further request can be executed.
    #[error("Stuck")]
    Stuck,
    /// Nothing is under way: no reply comes by itself.
    #[error("Idle")]
    Idle,
}

impl From<SessionFault> for CallFault {
    ghost use Rattle.std.specs.Prelude.{◌≡◌};
    ghost use Rattle.host_client.specs.declared.fault.CallFault.TheVariants.{Session};

    ghost from_gives = { λ fault gives. gives ≡ Session fault };

    fn from(fault: SessionFault) -> CallFault {
        CallFault::Session(fault)
    }
}

impl From<AllocError> for CallFault {
    ghost use Rattle.std.specs.Prelude.{◌≡◌};
    ghost use Rattle.client_session.specs.declared.fault.SessionFault.TheVariants as faults;
    ghost use Rattle.host_client.specs.declared.fault.CallFault.TheVariants.{Session};

    ghost from_gives = { λ _ gives. gives ≡ Session faults.Memory };

    fn from(_: AllocError) -> CallFault {
        CallFault::Session(SessionFault::Memory)
    }
}
