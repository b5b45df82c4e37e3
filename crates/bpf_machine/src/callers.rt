//! The functions that wait for one that they called, in slots lent by their caller.

ghost use Rattle.bpf_machine.specs.Represents.{waiting};

/// What is kept of a function while one that it called runs: the slot behind the call, and r6 to r10.
#[derive(Clone, Copy, Default)]
pub struct Caller {
    pub pc: usize,
    pub registers: [u64; KEPT],
}

/// The registers that a function keeps over a call: r6 to r10.
const KEPT: usize = 5;

/// The functions that wait, the nearest last: so many of the slots.
#[derive(Drop)]
pub struct Callers<'a> {
    slots: &'a mut [Caller],
    depth: usize,
}

impl<'a> Callers<'a> {
    ghost use Rattle.std.specs.Prelude.{◌≡◌, ◌+◌, ◌∷◌, ◌++◌, ◌<◌, ◌≤◌, [], length, None, IfSome, Option};
    ghost use Rattle.bpf_machine.specs.Represents.{waiting};

    /// None, with these slots for those to come.
    pub fn new(slots: &'a mut [Caller]) -> Callers<'a>
        ensures depth { result.depth ≡ 0 }
        ensures long { length result.slots.now ≡ length slots.entry.now }
    {
        Callers { slots, depth: 0 }
    }

    /// How many wait.
    pub fn len(&self) -> usize
        ensures { result ≡ self.now.depth }
    {
        self.depth
    }

    /// One more waits, in the next slot.
    pub fn push(&mut self, caller: Caller)
        requires { self.old.depth < length self.old.slots.now }
        ensures waiting { waiting self.new.slots.now self.new.depth ≡
            waiting self.old.slots.now self.old.depth ++ caller ∷ [] }
        ensures depth { self.new.depth ≡ self.old.depth + 1 }
        ensures long { length self.new.slots.now ≡ length self.old.slots.now }
    {
        self.slots[self.depth] = caller;
        self.depth += 1;
    }

    /// The nearest one, which waits no longer; none where none waits.
    pub fn pop(&mut self) -> Option<Caller>
        requires { self.old.depth ≤ length self.old.slots.now }
        ensures none { result ≡ None → self.old.depth ≡ 0 }
        ensures waiting { IfSome result (λ caller. waiting self.old.slots.now self.old.depth ≡
            waiting self.new.slots.now self.new.depth ++ caller ∷ []) }
        ensures depth { self.new.depth ≤ self.old.depth }
        ensures long { length self.new.slots.now ≡ length self.old.slots.now }
    {
        if self.depth == 0 {
            return None;
        }
        self.depth -= 1;
        Some(self.slots[self.depth])
    }
}
