//! A box of which C sees a pointer, or none.

ghost use Rattle.std.specs.Prelude.{◌≡◌, Option, Some, None, IsSome};
ghost use Rattle.sandbox_c.specs.declared.held.Held.{Held};
ghost use Rattle.sandbox_c.specs.Slots.{slot_owns, inside_coded};

use crate::held::Held;
use handle_parts::Parts;
use std::alloc::Global;
use std::marker::Model;
use std::ptr::null_mut;

/// A box, or none. What is inside it stands in no field, but the slot owns it; nothing is freed where a slot is
/// dropped.
#[repr(C)]
#[derive(Drop)]
pub struct Slot {
    at: *mut u8,
    alloc: Global,
    pub ghost inside: { Option Held } by { inside_coded },
}

impl Model for Slot {
    ghost also_owns = { λ slot. slot_owns slot.alloc slot.at slot.inside };
}

impl Slot {
    /// The slot with nothing inside, at the null pointer.
    pub fn empty(alloc: Global) -> Slot
        ensures { result.inside ≡ None }
    {
        Slot {
            at: null_mut(),
            alloc,
        }
    }

    /// The slot of a box.
    pub fn of_parts(parts: Parts<Held, Global>) -> Slot
        ensures { result.inside ≡ Some parts.value }
    {
        let Parts { at, alloc } = parts;
        Slot {
            at: at as *mut u8,
            alloc,
        }
    }

    /// The box.
    pub fn into_parts(self) -> Parts<Held, Global>
        requires { IsSome self.inside }
        ensures { self.inside ≡ Some result.value }
    {
        let Slot { at, alloc } = self;
        Parts {
            at: at as *mut Held,
            alloc,
        }
    }
}

unsafe impl Send for Slot {}
