//! What an export answers, as a number.

ghost use Rattle.std.specs.Prelude.{◌≡◌};
ghost use Rattle.sandbox_c.specs.Statuses.{number_of};

use bpf_asm::AsmKind;
use bpf_verifier::VerifyFault;

/// What became of a call.
#[derive(Clone, Copy, Debug, PartialEq, Eq)]
pub enum Status {
    /// It did what it says.
    Done,
    /// The code was refused, or memory ran out.
    Fault(VerifyFault),
    /// There is no profile of this number.
    NoProfile,
    /// A handle holds no procedure.
    NoProcedure,
    /// A handle holds no map.
    NoMap,
    /// There are more argument bytes than a call has.
    ArgumentsTooLong,
    /// A buffer has fewer bytes than are to be written.
    BufferTooShort,
    /// A key hasn't 16 bytes.
    NoKey,
    /// A value hasn't 32 bytes.
    NoValue,
    /// There is no such entry.
    NoEntry,
    /// The key is new, and the map has as many entries as one can have.
    MapFull,
    /// A line of an assembler text has a fault.
    Line(AsmKind),
}

impl Status {
    /// The status by its number.
    pub fn number(self) -> u32
        ensures { result ≡ number_of self }
    {
        match self {
            Status::Done => 0,
            Status::Fault(fault) => u32::from(fault.number()),
            Status::NoProfile => 31,
            Status::NoProcedure => 32,
            Status::NoMap => 33,
            Status::ArgumentsTooLong => 34,
            Status::BufferTooShort => 35,
            Status::NoKey => 36,
            Status::NoValue => 37,
            Status::NoEntry => 38,
            Status::MapFull => 39,
            Status::Line(kind) => 40 + u32::from(kind.number()),
        }
    }
}
