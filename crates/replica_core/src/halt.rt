//! Why a replica has stopped.

ghost use Rattle.std.specs.Prelude.{◌≡◌, Ok, IfErr, IfOk};
ghost use Rattle.replica_core.specs.Halts.{unless_memory};
ghost use Rattle.replica_core.specs.declared.halt.Halt.TheVariants.{Memory};

use lms_tree::SignFault;
use replica_stores::LogFault;
use std::alloc::{AllocError, AllocFailed};
use std::error::Error;
use std::fmt::{self, Display, Formatter};

/// Why a replica has stopped for good. What it did for the message or the timeout by which it stopped is
/// not given.
#[derive(Clone, Copy, Debug, PartialEq, Eq)]
pub enum Halt {
    /// The signer has fewer leaves than the next own message takes.
    Exhausted = 1,
    /// Memory ran out.
    Memory = 2,
    /// The last view or the last sequence number was reached.
    Worn = 3,
    /// A journal has no room for a row more. It comes from stations alone.
    JournalFull = 4,
    /// The replica had stopped before this call.
    AlreadyHalted = 5,
}

impl Halt {
    ghost use Rattle.std.specs.Prelude.{◌≡◌};
    ghost use Rattle.replica_core.specs.Halts.{name_of, number_of};

    /// The halt's number.
    pub fn number(&self) -> u8
        ensures { result ≡ number_of self.now }
    {
        *self as u8
    }

    /// The halt's name.
    pub fn name(&self) -> &'static str
        ensures { result.now ≡ name_of self.now }
    {
        match self {
            Halt::Exhausted => "Exhausted",
            Halt::Memory => "Memory",
            Halt::Worn => "Worn",
            Halt::JournalFull => "JournalFull",
            Halt::AlreadyHalted => "AlreadyHalted",
        }
    }
}

impl Display for Halt {
    ghost use Rattle.std.specs.Prelude.{Some};
    ghost use Rattle.replica_core.specs.Halts.{name_of};

    ghost output = { λ halt. Some (name_of halt) };

    fn fmt<W: fmt::Write>(&self, f: &mut Formatter<W>) -> fmt::Result {
        f.write_str(self.name())
    }
}

impl Error for Halt {}

impl From<AllocError> for Halt {
    ghost use Rattle.std.specs.Prelude.{◌≡◌};
    ghost use Rattle.replica_core.specs.declared.halt.Halt.TheVariants.{Memory};

    ghost from_gives = { λ _ gives. gives ≡ Memory };

    fn from(_: AllocError) -> Halt {
        Halt::Memory
    }
}

impl<T: Drop> From<AllocFailed<T>> for Halt {
    ghost use Rattle.std.specs.Prelude.{◌≡◌};
    ghost use Rattle.replica_core.specs.declared.halt.Halt.TheVariants.{Memory};

    ghost from_gives = { λ _ gives. gives ≡ Memory };

    fn from(_: AllocFailed<T>) -> Halt {
        Halt::Memory
    }
}

impl From<SignFault> for Halt {
    ghost use Rattle.std.specs.Prelude.{◌≡◌};
    ghost use Rattle.replica_core.specs.Halts.{of_signing};

    ghost from_gives = { λ fault gives. gives ≡ of_signing fault };

    fn from(fault: SignFault) -> Halt {
        match fault {
            SignFault::Exhausted => Halt::Exhausted,
            SignFault::Memory => Halt::Memory,
        }
    }
}

/// What a call gave that nothing refuses but want of memory, which stops the replica.
pub(crate) fn or_out_of_memory<T, E: Drop>(answer: Result<T, E>) -> Result<T, Halt>
    ensures given { IfOk result (λ given. answer ≡ Ok given) }
    ensures memory { IfErr result (λ halt. halt ≡ Memory) }
{
    match answer {
        Ok(given) => Ok(given),
        Err(_) => Err(Halt::Memory),
    }
}

/// A vote that is refused is not recorded; only running out of memory stops the replica.
pub(crate) fn unless_memory(refusal: Result<(), LogFault>) -> Result<(), Halt>
    ensures { result ≡ unless_memory refusal }
{
    match refusal {
        Err(LogFault::Memory) => Err(Halt::Memory),
        _ => Ok(()),
    }
}
