//! Copies of messages and of what is in them, into fresh memory.

ghost use Rattle.std.specs.Prelude.{◌≡◌, IfOk};

use crate::sequence::Sequence;
use crate::signed::Signed;
use host_types::Bytes;
use std::alloc::{AllocError, Global};

/// What can be copied into fresh memory.
pub trait TryClone: Sized + Drop {
    /// An equal value; out of memory otherwise.
    fn try_clone(&self, alloc: Global) -> Result<Self, AllocError>
        ensures { IfOk result (λ copy. copy ≡ self.now) };
}

impl TryClone for Bytes {
    fn try_clone(&self, alloc: Global) -> Result<Bytes, AllocError> {
        let copy = Vec::from_slice(alloc, self.as_slice())?;
        Ok(Bytes::from_vec(copy))
    }
}

impl<T: TryClone> TryClone for Sequence<T> {
    fn try_clone(&self, alloc: Global) -> Result<Sequence<T>, AllocError> {
        let values = try_clone_slice(alloc, self.as_slice())?;
        Ok(Sequence::from_vec(values))
    }
}

fn try_clone_slice<T: TryClone>(alloc: Global, values: &[T]) -> Result<Vec<T>, AllocError>
    ensures { IfOk result (λ copy. copy.items ≡ values.now) }
{
    let mut copies = Vec::with_capacity(alloc, values.len())?;
    for value in values {
        copies.push(value.try_clone(alloc)?)?;
    }
    Ok(copies)
}

impl<B: TryClone> TryClone for Signed<B> {
    fn try_clone(&self, alloc: Global) -> Result<Signed<B>, AllocError> {
        let body = self.body.try_clone(alloc)?;
        let sig = self.sig.try_clone(alloc)?;
        Ok(Signed {
            role: self.role,
            id: self.id,
            body,
            sig,
        })
    }
}
