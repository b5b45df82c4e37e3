//! What acceptance means, as a law on a function with an empty body.

ghost use Rattle.std.specs.Prelude.{◌≡◌, ℕ, ◌≤◌, List};
ghost use Rattle.bpf_decode.specs.declared.insn.Insn.{Insn};
ghost use Rattle.bpf_decode.specs.Faults.{IsCode};
ghost use Rattle.bpf_model.specs.Run.{IsSafe};
ghost use Rattle.bpf_model.specs.Verdict.{AcceptsUnder};
ghost use Rattle.bpf_model.specs.declared.profile.Profile.{Profile};

/// Verified code cannot go wrong. Bytes that the verifier accepts with a bound, under either profile,
/// as each `Procedure` has them, encode one list of instructions. Whatever that is called with (at most 256 argument bytes, any
/// client, any map of at most 4,096 entries), no machine that it reaches is stuck: each access lies in
/// the frames, the arguments or the tenant's map, since the machine has a step for no other. And it
/// ends, after at most the bound's steps.
pub fn verified_code_cannot_go_wrong()
    ensures encoded { (profile : Profile) (bytes : List ℕ) (bound : ℕ) →
        AcceptsUnder profile bytes bound → (code : List Insn) × IsCode bytes code }
    ensures safe { (profile : Profile) (bytes : List ℕ) (bound : ℕ) →
        AcceptsUnder profile bytes bound →
        (code : List Insn) → IsCode bytes code → IsSafe code bound }
    ensures bounded { (profile : Profile) (bytes : List ℕ) (bound : ℕ) →
        AcceptsUnder profile bytes bound → bound ≤ 65536 }
    ensures one { (profile : Profile) (bytes : List ℕ) (a b : ℕ) →
        AcceptsUnder profile bytes a → AcceptsUnder profile bytes b → a ≡ b }
{}
