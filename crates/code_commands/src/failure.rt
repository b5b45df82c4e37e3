//! Why a command over code ends early, and with which status.

use crate::call_text::{CallFault, CallKind};
use crate::decimal::{NumberFault, NumberKind};
use crate::input::HexSlip;
use crate::map_text::{MapFault, MapKind};
use bpf_asm::{AsmFault, AsmKind};
use bpf_decode::DecodeFault;
use bpf_verifier::{Refusal, VerifyFault};
use elf_object::ObjectFault;
use std::alloc::{AllocError, AllocFailed};
use std::io;
use thiserror::Error;

/// Why a command over code ended early. Its text is the line to write, where one is to be written
/// (`is_reported`).
#[derive(Debug, Drop, Error)]
pub enum CodeFailure {
    /// The input is longer than the commands read.
    #[error("input too long")]
    InputTooLong,
    /// The input is no hex.
    #[error("input not hex")]
    NotHex,
    /// The argument bytes are no hex.
    #[error("input not hex")]
    ArgsNotHex(HexSlip),
    /// There are more argument bytes than a call has.
    #[error("args too long")]
    ArgsTooLong,
    /// A text of numbers has a fault.
    #[error("{0}")]
    Number(NumberFault),
    /// A text of calls has a fault.
    #[error("{0}")]
    Call(CallFault),
    /// A map's text has a fault.
    #[error("{0}")]
    Map(MapFault),
    /// An ELF object isn't taken.
    #[error("object fault {} {}", .0.number(), .0)]
    Object(ObjectFault),
    /// The code was refused.
    #[error("refused {} {} at {}", .0.fault.number(), .0.fault, .0.slot)]
    Refused(Refusal),
    /// The code was refused; the line that says so is written already.
    #[error("{0}")]
    Explained(Refusal),
    /// The bytes are no code.
    #[error("refused {} {} at {}", .0.fault.number(), .0.fault, .0.slot)]
    NoCode(bpf_decode::Refusal),
    /// The assembler text has a fault.
    #[error("{0}")]
    Assembler(AsmFault),
    /// Memory ran out.
    #[error("out of memory")]
    Memory,
    /// A read or a write failed.
    #[error("{0}")]
    Stream(io::Error),
}

impl CodeFailure {
    ghost use Rattle.std.specs.Prelude.{◌≡◌, ◌≤◌};
    ghost use Rattle.code_commands.specs.Statuses.{is_reported, status_of};

    /// The status with which a program ends: 1 for a refusal, 3 where memory ran out, 4 where a stream failed.
    pub fn status(&self) -> u8
        ensures value { result ≡ status_of self.now }
        ensures range { (1 ≤ result) × (result ≤ 4) }
    {
        match self {
            CodeFailure::Memory => 3,
            CodeFailure::Stream(_) => 4,
            _ => 1,
        }
    }

    /// Whether its text is still to be written: nothing is said where memory ran out or a stream failed, and an
    /// explanation says it itself.
    pub fn is_reported(&self) -> bool
        ensures { result ≡ is_reported self.now }
    {
        !matches!(
            self,
            CodeFailure::Explained(_) | CodeFailure::Memory | CodeFailure::Stream(_)
        )
    }
}

impl From<AllocError> for CodeFailure {
    fn from(_: AllocError) -> CodeFailure {
        CodeFailure::Memory
    }
}

impl<T: Drop> From<AllocFailed<T>> for CodeFailure {
    fn from(_: AllocFailed<T>) -> CodeFailure {
        CodeFailure::Memory
    }
}

impl From<io::Error> for CodeFailure {
    fn from(error: io::Error) -> CodeFailure {
        CodeFailure::Stream(error)
    }
}

impl From<Refusal> for CodeFailure {
    fn from(refusal: Refusal) -> CodeFailure {
        match refusal.fault {
            VerifyFault::Memory => CodeFailure::Memory,
            _ => CodeFailure::Refused(refusal),
        }
    }
}

impl From<bpf_decode::Refusal> for CodeFailure {
    fn from(refusal: bpf_decode::Refusal) -> CodeFailure {
        match refusal.fault {
            DecodeFault::Memory => CodeFailure::Memory,
            _ => CodeFailure::NoCode(refusal),
        }
    }
}

impl From<AsmFault> for CodeFailure {
    fn from(fault: AsmFault) -> CodeFailure {
        match fault.kind {
            AsmKind::Memory => CodeFailure::Memory,
            _ => CodeFailure::Assembler(fault),
        }
    }
}

impl From<NumberFault> for CodeFailure {
    fn from(fault: NumberFault) -> CodeFailure {
        match fault.kind {
            NumberKind::Memory => CodeFailure::Memory,
            _ => CodeFailure::Number(fault),
        }
    }
}

impl From<CallFault> for CodeFailure {
    fn from(fault: CallFault) -> CodeFailure {
        match fault.kind {
            CallKind::Memory => CodeFailure::Memory,
            _ => CodeFailure::Call(fault),
        }
    }
}

impl From<MapFault> for CodeFailure {
    fn from(fault: MapFault) -> CodeFailure {
        match fault.kind {
            MapKind::Memory => CodeFailure::Memory,
            _ => CodeFailure::Map(fault),
        }
    }
}

impl From<hex::FromHexError> for CodeFailure {
    fn from(error: hex::FromHexError) -> CodeFailure {
        match error {
            hex::FromHexError::OutOfMemory => CodeFailure::Memory,
            _ => CodeFailure::NotHex,
        }
    }
}
