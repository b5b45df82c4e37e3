//! Laws of code as bytes, each on a function with an empty body.

ghost use Rattle.std.specs.Prelude.{◌≡◌, ◌⊎◌, ◌<◌, ℕ, List, slice_index};
ghost use Rattle.bpf_decode.specs.declared.insn.Insn.{Insn};
ghost use Rattle.bpf_decode.specs.declared.refusal.DecodeFault.{DecodeFault as Fault};
ghost use Rattle.bpf_decode.specs.Faults.{IsCode, IsRefused};

/// All bytes encode instructions within the limits, or are refused for a first fault at some slot.
pub fn bytes_are_decided()
    ensures { (bytes : List ℕ) → ((i : ℕ) → slice_index bytes i < 256) →
        ((code : List Insn) × IsCode bytes code)
        ⊎ ((fault : Fault) × (slot : ℕ) × IsRefused bytes fault slot) }
{}

/// Bytes encode at most one list of instructions, and none where they are refused.
pub fn code_is_one()
    ensures one { (bytes : List ℕ) (a b : List Insn) → IsCode bytes a → IsCode bytes b → a ≡ b }
    ensures either { (bytes : List ℕ) (code : List Insn) (fault : Fault) (slot : ℕ) →
        IsRefused bytes fault slot → IsCode bytes code → ⊥ }
{}
