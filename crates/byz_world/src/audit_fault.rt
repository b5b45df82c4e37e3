//! Why records have no history.

use std::alloc::{AllocError, AllocFailed};
use std::error::Error;
use std::fmt::{self, Display, Formatter};

/// Why records have no history. Of several faults the first is reported.
#[derive(Clone, Copy, Debug, PartialEq, Eq)]
pub enum AuditFault {
    /// One number was executed, or one was installed, with different digests or results.
    Differ = 1,
    /// A record's executions do not rise by one, from 0 or from the number last installed.
    Gap = 2,
    /// No record has executed a number up to the greatest.
    Unrecorded = 3,
    /// Memory ran out.
    Memory = 4,
}

impl AuditFault {
    ghost use Rattle.std.specs.Prelude.{◌≡◌};
    ghost use Rattle.byz_world.specs.Faults.{audit_name_of, audit_number_of};

    /// The fault's number.
    pub fn number(&self) -> u8
        ensures { result ≡ audit_number_of self.now }
    {
        *self as u8
    }

    /// The fault's name.
    pub fn name(&self) -> &'static str
        ensures { result.now ≡ audit_name_of self.now }
    {
        match self {
            AuditFault::Differ => "Differ",
            AuditFault::Gap => "Gap",
            AuditFault::Unrecorded => "Unrecorded",
            AuditFault::Memory => "Memory",
        }
    }
}

impl Display for AuditFault {
    ghost use Rattle.std.specs.Prelude.{Some};
    ghost use Rattle.byz_world.specs.Faults.{audit_name_of};

    ghost output = { λ fault. Some (audit_name_of fault) };

    fn fmt<W: fmt::Write>(&self, f: &mut Formatter<W>) -> fmt::Result {
        f.write_str(self.name())
    }
}

impl Error for AuditFault {}

impl From<AllocError> for AuditFault {
    ghost use Rattle.std.specs.Prelude.{◌≡◌};
    ghost use Rattle.byz_world.specs.declared.audit_fault.AuditFault.TheVariants.{Memory};

    ghost from_gives = { λ _ gives. gives ≡ Memory };

    fn from(_: AllocError) -> AuditFault {
        AuditFault::Memory
    }
}

impl<T: Drop> From<AllocFailed<T>> for AuditFault {
    ghost use Rattle.std.specs.Prelude.{◌≡◌};
    ghost use Rattle.byz_world.specs.declared.audit_fault.AuditFault.TheVariants.{Memory};

    ghost from_gives = { λ _ gives. gives ≡ Memory };

    fn from(_: AllocFailed<T>) -> AuditFault {
        AuditFault::Memory
    }
}
