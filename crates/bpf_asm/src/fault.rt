//! The faults of an assembler text.

ghost use Rattle.std.specs.Prelude.{◌≡◌};
ghost use Rattle.bpf_asm.specs.Faults.{number_of};

use std::alloc::{AllocError, AllocFailed};
use thiserror::Error;

/// What is wrong with a line.
#[derive(Clone, Copy, Debug, PartialEq, Eq, Error)]
pub enum AsmKind {
    /// The line begins with no word of the assembler and is no label, or has a byte past 127.
    #[error("Word")]
    Word = 1,
    /// The operands are too few or too many, or one hasn't the form that the word wants.
    #[error("Operand")]
    Operand = 2,
    /// A number is malformed or out of range.
    #[error("Number")]
    Number = 3,
    /// A label is defined twice, or isn't defined, or stands too far away.
    #[error("Label")]
    Label = 4,
    /// Memory ran out. It says nothing of the text.
    #[error("Memory")]
    Memory = 5,
}

impl AsmKind {
    /// The fault's number.
    pub fn number(&self) -> u8
        ensures { result ≡ number_of self.now }
    {
        *self as u8
    }
}

/// A fault and its line, counted from 1; lines past 4,294,967,295 are reported as that number. Where
/// memory ran out the line says nothing.
#[derive(Clone, Copy, Debug, PartialEq, Eq, Error)]
#[error("line {line} fault {} {kind}", .kind.number())]
pub struct AsmFault {
    pub kind: AsmKind,
    pub line: u32,
}

impl<T: Drop> From<AllocFailed<T>> for AsmFault {
    ghost use Rattle.std.specs.Prelude.{◌≡◌};
    ghost use Rattle.bpf_asm.specs.declared.fault.AsmKind.TheVariants.{Memory};

    ghost from_gives = { λ _ fault. fault.kind ≡ Memory };

    fn from(_: AllocFailed<T>) -> AsmFault {
        AsmFault {
            kind: AsmKind::Memory,
            line: 0,
        }
    }
}

impl From<AllocError> for AsmFault {
    ghost use Rattle.std.specs.Prelude.{◌≡◌};
    ghost use Rattle.bpf_asm.specs.declared.fault.AsmKind.TheVariants.{Memory};

    ghost from_gives = { λ _ fault. fault.kind ≡ Memory };

    fn from(_: AllocError) -> AsmFault {
        AsmFault {
            kind: AsmKind::Memory,
            line: 0,
        }
    }
}
