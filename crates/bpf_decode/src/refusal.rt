//! The decoder's faults, and a fault with its slot.

ghost use Rattle.std.specs.Prelude.{◌≡◌};
ghost use Rattle.bpf_decode.specs.Faults.{number_of};
ghost use Rattle.bpf_decode.specs.declared.refusal.DecodeFault.TheVariants.{Memory};

use std::alloc::{AllocError, AllocFailed};
use thiserror::Error;

/// Why bytes are no code. Of several faults the first one is reported: first those of the
/// whole, then slot by slot, at a slot in the order `BadOpcode`, `BadRegister`, `TruncatedWide`,
/// `BadWidth`, `BadOffset`, `FieldNotZero`.
#[derive(Clone, Copy, Debug, PartialEq, Eq, Error)]
pub enum DecodeFault {
    /// There are no bytes.
    #[error("Empty")]
    Empty = 1,
    /// The number of bytes is no multiple of 8.
    #[error("NotSlots")]
    NotSlots = 2,
    /// There are more than 1,024 slots.
    #[error("TooLong")]
    TooLong = 3,
    /// The opcode is none of this host's.
    #[error("BadOpcode")]
    BadOpcode = 4,
    /// A register number is above 10.
    #[error("BadRegister")]
    BadRegister = 5,
    /// A field without a use is not zero. For the second slot of a wide instruction it is reported
    /// at the first.
    #[error("FieldNotZero")]
    FieldNotZero = 6,
    /// A wide instruction begins in the last slot.
    #[error("TruncatedWide")]
    TruncatedWide = 7,
    /// The immediate of a byte swap is no width of it.
    #[error("BadWidth")]
    BadWidth = 8,
    /// The offset is none that the operation has.
    #[error("BadOffset")]
    BadOffset = 9,
    /// Memory ran out.
    #[error("Memory")]
    Memory = 10,
}

impl DecodeFault {
    /// The fault's number.
    pub fn number(&self) -> u8
        ensures { result ≡ number_of self.now }
    {
        *self as u8
    }
}

/// A fault and its slot, counted from 0. Where memory ran out the slot says nothing.
#[derive(Clone, Copy, Debug, PartialEq, Eq, Error)]
#[error("{fault} at {slot}")]
pub struct Refusal {
    pub fault: DecodeFault,
    pub slot: u32,
}

impl<T: Drop> From<AllocFailed<T>> for Refusal {
    ghost use Rattle.std.specs.Prelude.{◌≡◌};
    ghost use Rattle.bpf_decode.specs.declared.refusal.DecodeFault.TheVariants.{Memory};

    ghost from_gives = { λ _ refusal. refusal.fault ≡ Memory };

    fn from(_: AllocFailed<T>) -> Refusal {
        memory()
    }
}

impl From<AllocError> for Refusal {
    ghost use Rattle.std.specs.Prelude.{◌≡◌};
    ghost use Rattle.bpf_decode.specs.declared.refusal.DecodeFault.TheVariants.{Memory};

    ghost from_gives = { λ _ refusal. refusal.fault ≡ Memory };

    fn from(_: AllocError) -> Refusal {
        memory()
    }
}

/// The refusal where memory ran out.
fn memory() -> Refusal
    ensures { result.fault ≡ Memory }
{
    Refusal {
        fault: DecodeFault::Memory,
        slot: 0,
    }
}
