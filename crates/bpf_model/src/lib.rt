//! What BPF code means, and which code is accepted: definitions (`specs/`), laws about them, each the
//! contract of a function with an empty body, and what verifier and interpreter share: the layout of
//! memory, and the verifier's faults.
#![tactic(auto)]

mod fault;
pub mod layout;
mod profile;

ghost use Rattle.std.specs.Prelude.{◌≡◌, ◌⊎◌, ℕ, ◌≤◌, ◌<◌, List};
ghost use Rattle.bpf_decode.specs.declared.insn.Insn.{Insn};
ghost use Rattle.bpf_decode.specs.Faults.{IsCode};
ghost use Rattle.bpf_model.specs.Machine.{Machine, Call, start};
ghost use Rattle.bpf_model.specs.Run.{Run, Ending, EndsSo, IsSafe};
ghost use Rattle.bpf_model.specs.Verdict.{IsAccepted, IsRejected};
ghost use Rattle.bpf_model.specs.declared.fault.VerifyFault.{VerifyFault as Fault};
ghost use Rattle.bpf_model.specs.declared.profile.Profile.{Profile as Following};

pub use fault::{Refusal, VerifyFault};
pub use profile::Profile;

/// Accepted code cannot go wrong: whatever it is called with, no machine that is reached is stuck,
/// and the run ends within the bound.
pub fn accepted_is_safe()
    ensures { (profile : Following) (bytes : List ℕ) (code : List Insn) (bound : ℕ) →
        IsCode bytes code → IsAccepted profile code bound → IsSafe code bound }
{}

/// The bound of accepted code is at most 65,536.
pub fn accepted_is_bounded()
    ensures { (profile : Following) (bytes : List ℕ) (code : List Insn) (bound : ℕ) →
        IsCode bytes code → IsAccepted profile code bound → bound ≤ 65536 }
{}

/// All code is accepted with some bound, or rejected for a first fault at some slot.
pub fn code_is_decided()
    ensures { (profile : Following) (bytes : List ℕ) (code : List Insn) → IsCode bytes code →
        ((bound : ℕ) × IsAccepted profile code bound)
        ⊎ ((fault : Fault) × (slot : ℕ) × IsRejected profile code fault slot) }
{}

/// Code has at most one verdict: one bound, or one fault at one slot, and not both.
pub fn verdict_is_one()
    ensures bound { (profile : Following) (code : List Insn) (a b : ℕ) →
        IsAccepted profile code a → IsAccepted profile code b → a ≡ b }
    ensures fault { (profile : Following) (code : List Insn) (a b : Fault) (s t : ℕ) →
        IsRejected profile code a s → IsRejected profile code b t → (a ≡ b) × (s ≡ t) }
    ensures either { (profile : Following) (code : List Insn) (bound : ℕ) (fault : Fault) (slot : ℕ) →
        IsAccepted profile code bound → IsRejected profile code fault slot → ⊥ }
{}

/// A call has at most one ending.
pub fn ending_is_one()
    ensures { (code : List Insn) (call : Call) (a b : Ending) →
        EndsSo code call a → EndsSo code call b → a ≡ b }
{}

/// A call that ends takes no further step: each machine that it reaches comes before its last step.
pub fn ending_is_last()
    ensures { (code : List Insn) (call : Call) (ending : Ending) (n : ℕ) (m : Machine) →
        EndsSo code call ending → Run code (start call) n m → n < ending.steps }
{}
