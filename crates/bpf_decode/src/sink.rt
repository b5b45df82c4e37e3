//! Who takes the instructions of code as they are read.

ghost use Rattle.std.specs.Prelude.{◌≡◌, OnOk, [], ◌∷◌, ◌++◌};

use crate::insn::Insn;
use std::alloc::AllocError;

/// Takes the instructions of code, one by one in their order. The reader knows the kind of an instruction
/// where it gives it, so a `take` that is inlined there branches on the kind no more.
pub trait Sink {
    ghost use Rattle.bpf_decode.specs.declared.insn.Insn.{Insn};

    /// What taking an instruction makes of the sink.
    ghost takes: { Self → Insn → Self → Type 0 };

    /// Takes the next instruction. Where memory runs out the sink may have taken a part of it.
    fn take(&mut self, insn: Insn) -> Result<(), AllocError>
        ensures { OnOk result (takes self.old insn self.new) };
}

impl Sink for Vec<Insn> {
    ghost takes = { λ before insn after. after.items ≡ before.items ++ insn ∷ [] };

    #[inline(always)]
    fn take(&mut self, insn: Insn) -> Result<(), AllocError> {
        Ok(self.push(insn)?)
    }
}
