//! Laws of scripts (`world_script`) that rest on those of rows. There is no code here; each law is the contract of a function with
//! an empty body.
#![tactic(auto)]

ghost use Rattle.std.specs.Prelude.{◌≡◌, ℕ, List};
ghost use Rattle.script_laws.specs.Ends.{End, EndsBy};

/// Whatever bytes a script is, it ends in one way, with one text. Nothing is said of runs in which memory runs out or a stream fails:
/// how much they print is left open.
pub fn a_script_ends_in_one_way()
    ensures { (input : List ℕ) (one other : End) (text printed : List ℕ) → EndsBy input one text → EndsBy input other printed → (one ≡ other) × (text ≡ printed) }
{}
