//! Why bytes are no message, and why a field was not read.

ghost use Rattle.std.specs.Prelude.{◌≡◌};

use std::alloc::{AllocError, AllocFailed};
use std::error::Error;
use std::fmt::{self, Display, Formatter};

/// Why bytes are no message, or why a message has no bytes. Of several faults in bytes the first
/// from the left is reported, `TooLong` before all others.
#[derive(Clone, Copy, Debug, PartialEq, Eq)]
pub enum CodecFault {
    /// A field reaches past the end of what holds it.
    Truncated = 1,
    /// Bytes are left at the end of a body, or behind the message.
    Trailing = 2,
    /// The byte of a kind is none of the ten.
    BadKind = 3,
    /// A field has a value that it can't have: a role, a number of 2^48 or more, a count, a selector,
    /// or a nested message of another kind than is wanted there.
    BadField = 4,
    /// The message has more than 8,388,608 bytes.
    TooLong = 5,
    /// An id in a list is not above the one before it.
    NotAscending = 6,
    /// Memory ran out.
    Memory = 7,
}

impl CodecFault {
    ghost use Rattle.codec_fields.specs.Faults.{name_of, number_of};

    /// The fault's number.
    pub fn number(&self) -> u8
        ensures { result ≡ number_of self.now }
    {
        *self as u8
    }

    /// The fault's name.
    pub fn name(&self) -> &'static str
        ensures { result.now ≡ name_of self.now }
    {
        match self {
            CodecFault::Truncated => "Truncated",
            CodecFault::Trailing => "Trailing",
            CodecFault::BadKind => "BadKind",
            CodecFault::BadField => "BadField",
            CodecFault::TooLong => "TooLong",
            CodecFault::NotAscending => "NotAscending",
            CodecFault::Memory => "Memory",
        }
    }
}

impl Display for CodecFault {
    ghost use Rattle.std.specs.Prelude.{Some};
    ghost use Rattle.codec_fields.specs.Faults.{name_of};

    ghost output = { λ fault. Some (name_of fault) };

    fn fmt<W: fmt::Write>(&self, f: &mut Formatter<W>) -> fmt::Result {
        f.write_str(self.name())
    }
}

impl Error for CodecFault {}

impl From<AllocError> for CodecFault {
    ghost use Rattle.std.specs.Prelude.{◌≡◌};
    ghost use Rattle.codec_fields.specs.declared.fault.CodecFault.TheVariants.{Memory};

    ghost from_gives = { λ _ fault. fault ≡ Memory };

    fn from(_: AllocError) -> CodecFault {
        Self::Memory
    }
}

/// Why a field was not read.
#[derive(Clone, Copy, Debug)]
pub enum ReadError {
    Memory,
    Fault(CodecFault),
}

impl From<AllocError> for ReadError {
    ghost use Rattle.std.specs.Prelude.{◌≡◌};
    ghost use Rattle.codec_fields.specs.declared.fault.ReadError.TheVariants.{Memory};

    ghost from_gives = { λ _ error. error ≡ Memory };

    fn from(_: AllocError) -> ReadError {
        ReadError::Memory
    }
}

impl<T: Drop> From<AllocFailed<T>> for ReadError {
    ghost use Rattle.std.specs.Prelude.{◌≡◌};
    ghost use Rattle.codec_fields.specs.declared.fault.ReadError.TheVariants.{Memory};

    ghost from_gives = { λ _ error. error ≡ Memory };

    fn from(_: AllocFailed<T>) -> ReadError {
        ReadError::Memory
    }
}
