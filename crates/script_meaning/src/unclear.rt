//! Why no meaning is told.

use std::alloc::{AllocError, AllocFailed};

/// Why no meaning is told.
#[derive(Clone, Copy, Debug, PartialEq, Eq)]
pub(crate) enum Unclear {
    /// Memory ran out.
    Memory,
    /// The line is of another kind.
    Other,
}

impl From<AllocError> for Unclear {
    fn from(_: AllocError) -> Unclear {
        Unclear::Memory
    }
}

impl<T: Drop> From<AllocFailed<T>> for Unclear {
    fn from(_: AllocFailed<T>) -> Unclear {
        Unclear::Memory
    }
}
