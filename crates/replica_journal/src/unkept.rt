//! Why a step left no row.

use replica_core::Halt;
use std::alloc::{AllocError, AllocFailed};

/// Why a step left no row.
#[derive(Clone, Copy, Debug, PartialEq, Eq)]
pub enum Unkept {
    /// The replica gave none.
    Halted(Halt),
    /// Memory ran out for the row that it gave.
    Memory,
}

impl From<AllocError> for Unkept {
    ghost use Rattle.std.specs.Prelude.{◌≡◌};
    ghost use Rattle.replica_journal.specs.declared.unkept.Unkept.TheVariants.{Memory};

    ghost from_gives = { λ _ gives. gives ≡ Memory };

    fn from(_: AllocError) -> Unkept {
        Unkept::Memory
    }
}

impl<T: Drop> From<AllocFailed<T>> for Unkept {
    ghost use Rattle.std.specs.Prelude.{◌≡◌};
    ghost use Rattle.replica_journal.specs.declared.unkept.Unkept.TheVariants.{Memory};

    ghost from_gives = { λ _ gives. gives ≡ Memory };

    fn from(_: AllocFailed<T>) -> Unkept {
        Unkept::Memory
    }
}
