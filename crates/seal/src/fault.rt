//! Why bytes are no message that a configuration takes.

ghost use Rattle.std.specs.Prelude.{◌≡◌};

use pbft_codec::CodecFault;
use std::alloc::{AllocError, AllocFailed};
use std::error::Error;
use std::fmt::{self, Display, Formatter};

/// Why bytes are no message that a configuration takes. Of several faults the codec's is reported, else
/// that of the first part that has one; of those of one part `UnknownSigner` before `WrongRole`, and
/// `WrongRole` before `BadSignature`.
#[derive(Clone, Copy, Debug, PartialEq, Eq)]
pub enum SealFault {
    /// The bytes are no message. The fault is never the codec's `Memory`.
    Codec(CodecFault),
    /// No such replica or client is listed.
    UnknownSigner,
    /// The signature is not valid under the listed key.
    BadSignature,
    /// The signer doesn't send messages of this kind, or not in this view.
    WrongRole,
    /// Memory ran out.
    Memory,
}

impl SealFault {
    ghost use Rattle.seal.specs.Faults.{name_of, number_of};

    /// The fault's number.
    pub fn number(&self) -> u8
        ensures { result ≡ number_of self.now }
    {
        match self {
            SealFault::Codec(_) => 1,
            SealFault::UnknownSigner => 2,
            SealFault::BadSignature => 3,
            SealFault::WrongRole => 4,
            SealFault::Memory => 5,
        }
    }

    /// The fault's name; of a codec's fault, that one's.
    pub fn name(&self) -> &'static str
        ensures { result.now ≡ name_of self.now }
    {
        match self {
            SealFault::Codec(fault) => fault.name(),
            SealFault::UnknownSigner => "UnknownSigner",
            SealFault::BadSignature => "BadSignature",
            SealFault::WrongRole => "WrongRole",
            SealFault::Memory => "Memory",
        }
    }
}

impl Display for SealFault {
    ghost use Rattle.std.specs.Prelude.{Some};
    ghost use Rattle.seal.specs.Faults.{name_of};

    ghost output = { λ fault. Some (name_of fault) };

    fn fmt<W: fmt::Write>(&self, f: &mut Formatter<W>) -> fmt::Result {
        f.write_str(self.name())
    }
}

impl Error for SealFault {}

impl From<CodecFault> for SealFault {
    ghost use Rattle.std.specs.Prelude.{◌≡◌};
    ghost use Rattle.seal.specs.Faults.{from_codec};

    ghost from_gives = { λ fault gives. gives ≡ from_codec fault };

    fn from(fault: CodecFault) -> SealFault {
        match fault {
            CodecFault::Memory => SealFault::Memory,
            fault => SealFault::Codec(fault),
        }
    }
}

impl From<AllocError> for SealFault {
    ghost use Rattle.std.specs.Prelude.{◌≡◌};
    ghost use Rattle.seal.specs.declared.fault.SealFault.TheVariants.{Memory};

    ghost from_gives = { λ _ gives. gives ≡ Memory };

    fn from(_: AllocError) -> SealFault {
        SealFault::Memory
    }
}

impl<T: Drop> From<AllocFailed<T>> for SealFault {
    ghost use Rattle.std.specs.Prelude.{◌≡◌};
    ghost use Rattle.seal.specs.declared.fault.SealFault.TheVariants.{Memory};

    ghost from_gives = { λ _ gives. gives ≡ Memory };

    fn from(_: AllocFailed<T>) -> SealFault {
        SealFault::Memory
    }
}
