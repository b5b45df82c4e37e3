//! To whom the verifier reports its visits.

ghost use Rattle.bpf_verifier.specs.Observed.{IsVisit};

use crate::abstract_state::AbstractState;
use crate::slots::Slots;
use bpf_decode::Insn;

/// Receives each visit of the verifier as it begins, before anything is checked there. So many words of the stack
/// are followed, as the profile says.
pub trait Observer<const WORDS: usize> {
    /// A visit of an instruction at a slot of the code, in the frame of a depth from 0 on, with what
    /// holds for certain before it runs. It is what the data flow's definition says of this visit. The
    /// visits come in order: behind that of a local call those of its callee, one deeper, follow.
    fn visit(
        &mut self,
        code: &Slots,
        depth: u32,
        slot: usize,
        insn: &Insn,
        state: &AbstractState<WORDS>,
    )
        requires { IsVisit code.now depth slot insn.now state.now };
}

/// Takes no notice of any visit.
#[derive(Clone, Copy, Debug)]
pub struct Unobserved;

impl<const WORDS: usize> Observer<WORDS> for Unobserved {
    #[inline(always)]
    fn visit(
        &mut self,
        _code: &Slots,
        _depth: u32,
        _slot: usize,
        _insn: &Insn,
        _state: &AbstractState<WORDS>,
    ) {}
}
