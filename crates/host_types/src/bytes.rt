//! Bytes that contracts compare.

ghost use Rattle.std.specs.Prelude.{◌≡◌, ◌≤◌, ℕ, List, length, IfOk};
ghost use Rattle.std.specs.List.{slice_range};

use std::alloc::{AllocError, Global};
use std::marker::Model;
use std::sync::Arc;

/// A part of a buffer that others hold too: its bytes from one index on and before another.
#[derive(Debug, Drop)]
struct Part {
    buffer: Arc<Vec<u8>>,
    from: usize,
    to: usize,
    ghost ordered: { from ≤ to },
    ghost within: { to ≤ length buffer.value.items },
}

impl Part {
    fn as_slice(&self) -> &[u8]
        ensures { result.now ≡ slice_range self.now.buffer.value.items self.now.from self.now.to }
    {
        &self.buffer[self.from..self.to]
    }
}

/// How bytes are held: in a vector of their own, or in a shared buffer.
#[derive(Debug, Drop)]
enum Held {
    Own(Vec<u8>),
    Shared(Part),
}

/// Bytes in a type that contracts compare: an operation, a result, a signature, a message. They stand in
/// a vector of their own, or are a part of a buffer that is shared. Contracts see a `Bytes` as the list
/// of its bytes.
#[derive(Debug, Drop)]
pub struct Bytes {
    held: Held,
}

impl Model for Bytes {
    ghost use Rattle.std.specs.Prelude.{ℕ, List};
    ghost use Rattle.host_types.specs.Held.{bytes_in};

    ghost Value = { List ℕ };

    ghost view = { λ b. bytes_in b.held };
}

impl Bytes {
    /// The bytes of the vector, which is moved and not copied.
    pub fn from_vec(bytes: Vec<u8>) -> Bytes
        ensures { result ≡ bytes.items }
    {
        Bytes {
            held: Held::Own(bytes),
        }
    }

    /// The bytes of the buffer from one index on and before another. They are not copied: this is a handle
    /// of the buffer, all of which stays while the handle does. It is refused only where the count of
    /// handles is full; the buffer stays as it was.
    pub fn part(buffer: &Arc<Vec<u8>>, from: usize, to: usize) -> Result<Bytes, AllocError>
        requires ordered { from ≤ to }
        requires within { to ≤ length buffer.now.value.items }
        ensures { IfOk result (λ part. part ≡ slice_range buffer.now.value.items from to) }
    {
        let buffer = Arc::try_clone(buffer)?;
        let part = Part { buffer, from, to };
        Ok(Bytes {
            held: Held::Shared(part),
        })
    }

    /// The bytes in a vector: the one that holds them, without memory, or a copy of them where they are a part
    /// of a shared buffer. It is refused only where memory ran out, and the bytes are lost then.
    pub fn into_vec(self, alloc: Global) -> Result<Vec<u8>, AllocError>
        ensures { IfOk result (λ bytes. bytes.items ≡ self) }
    {
        match self.held {
            Held::Own(bytes) => Ok(bytes),
            Held::Shared(part) => Vec::from_slice(alloc, part.as_slice()),
        }
    }

    /// The bytes as a slice.
    pub fn as_slice(&self) -> &[u8]
        ensures { result.now ≡ self.now }
    {
        match &self.held {
            Held::Own(bytes) => bytes,
            Held::Shared(part) => part.as_slice(),
        }
    }
}
