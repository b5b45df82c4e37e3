//! A handle: what C keeps for the library.

ghost use Rattle.std.specs.Prelude.{◌≡◌, ◌<◌, Option, Some, None, IfSome};
ghost use Rattle.std.specs.Option.{is_some, option_map};

use crate::held::Held;
use crate::slot::Slot;
use handle_parts::Parts;
use std::alloc::Global;
use std::mem;

/// One thing that the library hands out, or nothing. C declares one as a pointer and a flag, all zero at first, and never reads or
/// changes either.
#[repr(C)]
pub struct Handle {
    pub slot: Slot,
    pub is_full: bool,
    pub ghost agrees: { is_full ≡ is_some slot.inside },
}

impl Handle {
    /// Takes out what is inside.
    pub fn take(&mut self, alloc: Global) -> Option<Box<Held>>
        ensures inside { option_map (λ boxed. boxed.value) result ≡ self.old.slot.inside }
        ensures empty { self.new.slot.inside ≡ None }
    {
        let empty = Handle {
            slot: Slot::empty(alloc),
            is_full: false,
        };
        let Handle { slot, is_full } = mem::replace(self, empty);
        if is_full {
            Some(slot.into_parts().into_box())
        } else {
            None
        }
    }

    /// Puts a box into an empty handle.
    pub fn put(&mut self, boxed: Box<Held>)
        requires { self.old.slot.inside ≡ None }
        ensures { self.new.slot.inside ≡ Some boxed.value }
    {
        let full = Handle {
            slot: Slot::of_parts(Parts::of(boxed)),
            is_full: true,
        };
        let Handle {
            slot: empty,
            is_full: _,
        } = mem::replace(self, full);
        drop(empty);
    }

    /// Frees what is inside.
    pub fn clear(&mut self, alloc: Global)
        ensures { self.new.slot.inside ≡ None }
    {
        drop(self.take(alloc));
    }
}
