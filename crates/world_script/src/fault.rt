//! Why a step ends a script.

use script_text::ScriptKind;
use std::alloc::AllocError;

/// Why a step ends a script.
#[derive(Clone, Copy, Debug, PartialEq, Eq)]
pub enum RunFault {
    TooManyDeliveries,
    Write,
    Memory,
}

impl From<AllocError> for RunFault {
    ghost use Rattle.std.specs.Prelude.{◌≡◌};
    ghost use Rattle.world_script.specs.declared.fault.RunFault.TheVariants.{Memory};

    ghost from_gives = { λ _ gives. gives ≡ Memory };

    fn from(_: AllocError) -> RunFault {
        RunFault::Memory
    }
}

impl From<RunFault> for ScriptKind {
    ghost use Rattle.std.specs.Prelude.{◌≡◌};
    ghost use Rattle.world_script.specs.Faults.{kind_of};

    ghost from_gives = { λ fault gives. gives ≡ kind_of fault };

    fn from(fault: RunFault) -> ScriptKind {
        match fault {
            RunFault::TooManyDeliveries => ScriptKind::TooManyDeliveries,
            RunFault::Write => ScriptKind::Write,
            RunFault::Memory => ScriptKind::Memory,
        }
    }
}
