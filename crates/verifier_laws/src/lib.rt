//! A law of the verifier's two profiles, on a function with an empty body, over [`bpf_model`]'s definition of the verdict, which
//! `verify` and `verify2` answer unless memory ran out.
#![tactic(auto)]

ghost use Rattle.std.specs.Prelude.{ℕ, List};
ghost use Rattle.bpf_model.specs.Verdict.{AcceptsUnder};
ghost use Rattle.bpf_model.specs.declared.profile.Profile.TheVariants.{One, Two};
ghost use Rattle.verifier_laws.specs.Compared.{AcceptsWithin, IsRefusedUnder};

/// What the first profile accepts the second one accepts, too, with a bound that is no greater. So what the second one refuses the
/// first one refuses.
pub fn the_second_profile_accepts_no_less()
    ensures accepted { (bytes : List ℕ) (bound : ℕ) → AcceptsUnder One bytes bound → AcceptsWithin Two bytes bound }
    ensures refused { (bytes : List ℕ) → IsRefusedUnder Two bytes → IsRefusedUnder One bytes }
{}
