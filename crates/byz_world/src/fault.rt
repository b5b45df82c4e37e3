//! Why an event is refused.

use std::alloc::{AllocError, AllocFailed};
use thiserror::Error;

/// Why an event is refused. After `Memory` the world is not to be used further.
#[derive(Clone, Copy, Debug, PartialEq, Eq, Error)]
pub enum WorldFault {
    /// The event names a replica that the configuration has not.
    #[error("NoSuchReplica")]
    NoSuchReplica = 1,
    /// The replica has not given this output, or is faulty.
    #[error("NoSuchOutput")]
    NoSuchOutput = 2,
    /// Memory ran out.
    #[error("Memory")]
    Memory = 3,
}

impl WorldFault {
    ghost use Rattle.std.specs.Prelude.{◌≡◌};
    ghost use Rattle.byz_world.specs.WorldFaults.{world_number_of};

    /// The fault's number.
    pub fn number(&self) -> u8
        ensures { result ≡ world_number_of self.now }
    {
        *self as u8
    }
}

impl From<AllocError> for WorldFault {
    ghost use Rattle.std.specs.Prelude.{◌≡◌};
    ghost use Rattle.byz_world.specs.declared.fault.WorldFault.TheVariants.{Memory};

    ghost from_gives = { λ _ gives. gives ≡ Memory };

    fn from(_: AllocError) -> WorldFault {
        WorldFault::Memory
    }
}

impl<T: Drop> From<AllocFailed<T>> for WorldFault {
    ghost use Rattle.std.specs.Prelude.{◌≡◌};
    ghost use Rattle.byz_world.specs.declared.fault.WorldFault.TheVariants.{Memory};

    ghost from_gives = { λ _ gives. gives ≡ Memory };

    fn from(_: AllocFailed<T>) -> WorldFault {
        WorldFault::Memory
    }
}
