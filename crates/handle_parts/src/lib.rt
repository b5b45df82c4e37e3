//! What libraries for C share: a box as what C can hold of it, its pointer and its allocator (`Parts::of(boxed)` takes a box apart, and
//! `parts.into_box()` puts it together again; nothing is copied, and no memory is taken or freed), and bytes that are handed to a
//! caller's buffer (`tell`).
#![tactic(auto)]

mod front;

ghost use Rattle.std.specs.Prelude.{◌≡◌};
ghost use Rattle.std.specs.Box.Ownership.{box_owns};

pub use front::{BUFFER_TOO_SHORT, DONE, put_front, tell};
use std::alloc::Allocator;
use std::marker::Model;

/// The pointer and the allocator of a box. They own what the box owned: the memory, the value in it, which
/// contracts see, and the right to free it. Parts that are never put together again keep their memory.
pub struct Parts<T, A: Allocator> {
    pub at: *mut T,
    pub alloc: A,
    pub ghost value: { T },
}

impl<T, A: Allocator> Model for Parts<T, A> {
    ghost also_owns = { λ parts. box_owns (A.dealloc_token parts.alloc) T.row parts.at parts.value };
}

impl<T, A: Allocator> Parts<T, A> {
    /// The parts of a box.
    pub fn of(boxed: Box<T, A>) -> Parts<T, A>
    where
        T: Drop,
        ensures { result.value ≡ boxed.value }
    {
        let (at, alloc) = Box::into_raw_with_allocator(boxed);
        Parts { at, alloc }
    }

    /// The box of these parts.
    pub fn into_box(self) -> Box<T, A>
        ensures { result.value ≡ self.value }
    {
        let Parts { at, alloc } = self;
        unsafe { Box::from_raw(alloc, at) }
    }
}
