//! The verifier's faults, and a fault with its slot.

ghost use Rattle.std.specs.Prelude.{◌≡◌};
ghost use Rattle.bpf_model.specs.Faults.{number_of, verify_fault_of};

use bpf_decode::DecodeFault;
use std::alloc::AllocError;
use thiserror::Error;

/// Why code is refused. Of several faults the first one is reported: the decoder's; then those of the
/// structure, slot by slot, in the order in which they are listed here; then that of the first visit of a
/// slot that has one: `TooComplex` before the others, and these in that order too.
#[derive(Clone, Copy, Debug, PartialEq, Eq, Error)]
pub enum VerifyFault {
    /// The bytes are no code.
    #[error("{0}")]
    Decode(DecodeFault),
    /// A jump or a test leads to its own slot or an earlier one.
    #[error("JumpBackward")]
    JumpBackward,
    /// A jump, a test or a local call leads out of the code, or into the second half of an instruction.
    #[error("JumpOutside")]
    JumpOutside,
    /// An instruction that falls through to the next slot ends the code.
    #[error("FallsOffEnd")]
    FallsOffEnd,
    /// A helper is called that this host doesn't have.
    #[error("UnknownHelper")]
    UnknownHelper,
    /// r10, the frame pointer, would be written.
    #[error("WritesFramePointer")]
    WritesFramePointer,
    /// A register that is read may hold nothing.
    #[error("UninitRegister")]
    UninitRegister,
    /// Memory is accessed that may not lie wholly inside the frames in use, or wholly inside the arguments.
    #[error("BadAccess")]
    BadAccess,
    /// A byte of the stack is read that may never have been written.
    #[error("UninitBytes")]
    UninitBytes,
    /// A function of the code would be called, for which there is no frame.
    #[error("CallDepth")]
    CallDepth,
    /// The code is visited more than 65,536 times: once for each slot that is reached, and of a function
    /// anew at each call of it.
    #[error("TooComplex")]
    TooComplex,
    /// Memory ran out.
    #[error("Memory")]
    Memory,
}

impl VerifyFault {
    /// The fault's number.
    pub fn number(&self) -> u8
        ensures { result ≡ number_of self.now }
    {
        match self {
            VerifyFault::Decode(fault) => fault.number(),
            VerifyFault::JumpBackward => 11,
            VerifyFault::JumpOutside => 12,
            VerifyFault::FallsOffEnd => 13,
            VerifyFault::UnknownHelper => 14,
            VerifyFault::WritesFramePointer => 15,
            VerifyFault::UninitRegister => 16,
            VerifyFault::BadAccess => 17,
            VerifyFault::UninitBytes => 18,
            VerifyFault::CallDepth => 19,
            VerifyFault::TooComplex => 20,
            VerifyFault::Memory => 21,
        }
    }
}

impl From<DecodeFault> for VerifyFault {
    ghost from_gives = { λ fault gives. gives ≡ verify_fault_of fault };

    fn from(fault: DecodeFault) -> VerifyFault {
        match fault {
            DecodeFault::Memory => VerifyFault::Memory,
            _ => VerifyFault::Decode(fault),
        }
    }
}

/// A fault and its slot, counted from 0. Where memory ran out the slot says nothing.
#[derive(Clone, Copy, Debug, PartialEq, Eq, Error)]
#[error("{fault} at {slot}")]
pub struct Refusal {
    pub fault: VerifyFault,
    pub slot: u32,
}

impl From<bpf_decode::Refusal> for Refusal {
    ghost use Rattle.std.specs.Prelude.{◌≡◌};
    ghost use Rattle.bpf_model.specs.Faults.{verify_fault_of};

    ghost from_gives = { λ refusal gives.
        (gives.fault ≡ verify_fault_of refusal.fault) × (gives.slot ≡ refusal.slot) };

    fn from(refusal: bpf_decode::Refusal) -> Refusal {
        Refusal {
            fault: refusal.fault.into(),
            slot: refusal.slot,
        }
    }
}

impl From<AllocError> for Refusal {
    ghost use Rattle.std.specs.Prelude.{◌≡◌};
    ghost use Rattle.bpf_model.specs.declared.fault.VerifyFault.TheVariants.{Memory};

    ghost from_gives = { λ _ gives. gives.fault ≡ Memory };

    fn from(_: AllocError) -> Refusal {
        Refusal {
            fault: VerifyFault::Memory,
            slot: 0,
        }
    }
}
