//! The replicated protocol (Castro and Liskov, OSDI 1999, section 4): what a replica may do and must do (`specs/`), what its
//! history shows, and that replicas whose histories keep the rules agree by view. There is no code here; each law is the
//! contract of a function with an empty body. Agreement by number and over journals is `pbft_agreement`'s.
#![tactic(auto)]

mod together;

ghost use Rattle.pbft_model.specs.Setup.{Setup, number_limit, view_limit};
ghost use Rattle.pbft_model.specs.Ending.{left_to_do};
ghost use Rattle.std.specs.Prelude.{◌≡◌, ◌≤◌, ◌<◌, ◌⊎◌, ℕ, List, [], ◌∷◌, ◌++◌, Some, None, true};
ghost use Rattle.seal.specs.SigningState.{SigningState};
ghost use Rattle.pbft_model.specs.Acts.{Act, Execute, after};
ghost use Rattle.pbft_model.specs.Core.{Core, start_of};
ghost use Rattle.pbft_model.specs.Duties.{due, NothingBefore};
ghost use Rattle.pbft_model.specs.Rows.{HasLeaves, Row, Input, Halt, HaltsBy, Begins, Follows, Fulfils, Continues, IsLawfulFrom, IsNext, FollowsWithout, RepliesAlone};
ghost use Rattle.pbft_model.specs.Rules.{Allowed};
ghost use Rattle.pbft_model.specs.Sequential.{Service, Outcome};
ghost use Rattle.host_types.specs.declared.request.Reply.{Reply};
ghost use Rattle.pbft_model.specs.Histories.{IsHistory, core_after};
ghost use Rattle.pbft_model.specs.Families.{Family, IsCorrect, IsUnforged, IsSteady, HasCommitted, AgreesByView, ExecutesAlike};
ghost use Rattle.std.specs.List.{AllByRecursion};

pub use pbft_codec::Body;
pub use seal::{Checked, CheckedList};
pub use together::executions_are_done_together;

/// Agreement by view: where nobody forges, no two digests are committed at one number, whatever
/// their views.
pub fn agreement_by_view()
    ensures { (c : Setup) (family : Family) → IsUnforged c family → AgreesByView c family }
{}

/// Where nobody forges, no two correct replicas execute different digests at one number.
pub fn executions_agree()
    ensures { (c : Setup) (family : Family) → IsUnforged c family → ExecutesAlike c family }
{}

/// A run without a view change, a new view or an installed snapshot needs view 0 alone: each replica
/// stays active in it, and nothing is committed in another.
pub fn a_steady_run_stays_in_view_0()
    ensures stays { (c : Setup) (me : ℕ) (signer : SigningState) (acts : List Act) → IsHistory c me signer acts → AllByRecursion IsSteady acts
        → ((core_after c signer acts).view ≡ 0) × ((core_after c signer acts).active ≡ true) }
    ensures commits { (c : Setup) (family : Family) → IsUnforged c family → ((i : ℕ) → IsCorrect c family.faulty i → AllByRecursion IsSteady (family.acts i))
        → (i view number : ℕ) (digest : List ℕ) → HasCommitted c family i view number digest → view ≡ 0 }
{}

/// What is due is allowed: whatever act does the duty, at each point of a history.
pub fn what_is_due_is_allowed()
    ensures { (c : Setup) (me : ℕ) (signer : SigningState) (acts : List Act) → IsHistory c me signer acts
        → (a : Act) → Fulfils c (core_after c signer acts) (due c me (core_after c signer acts)) a → Allowed c me (core_after c signer acts) a }
{}

/// What is due comes to an end: whatever act does it, less is left to do.
pub fn what_is_due_comes_to_an_end()
    ensures { (c : Setup) (me : ℕ) (s : Core) (a : Act) → s.low ≤ s.executed → s.executed < number_limit → s.view < view_limit
        → Allowed c me s a → Fulfils c s (due c me s) a → HasLeaves s a → left_to_do (after c s a) < left_to_do s }
{}

/// The rows of a lawful journal are a history of acts, each of which was allowed, with the same core.
pub fn a_journal_is_a_history()
    ensures { (c : Setup) (me : ℕ) (signer : SigningState) (rows : List Row) (last : Core) → IsLawfulFrom c me (start_of c signer) rows last
        → (acts : List Act) × IsHistory c me signer acts × (core_after c signer acts ≡ last) }
{}

/// To execute a number that is no multiple of the checkpoint interval makes nothing due before the
/// next execution but its own reply: so the numbers up to the next multiple can be executed together.
pub fn executions_follow_each_other()
    ensures alone { (c : Setup) (me : ℕ) (signer : SigningState) (acts : List Act) → IsHistory c me signer acts
        → (number : ℕ) (digest : List ℕ) (service : Service) (outcome : Outcome)
        → FollowsWithout c me (core_after c signer acts) number digest service outcome
        → outcome.reply ≡ None → NothingBefore c me (after c (core_after c signer acts) (Execute number digest service outcome)) }
    ensures replied { (c : Setup) (me : ℕ) (signer : SigningState) (acts : List Act) → IsHistory c me signer acts
        → (number : ℕ) (digest : List ℕ) (service : Service) (outcome : Outcome)
        → FollowsWithout c me (core_after c signer acts) number digest service outcome → (reply : Reply) → outcome.reply ≡ Some reply
        → RepliesAlone c me (after c (core_after c signer acts) (Execute number digest service outcome)) reply }
{}

/// A row is determined by the core before it and its input, and so is the core after it.
pub fn a_row_is_unique()
    ensures { (c : Setup) (me : ℕ) (s t t' : Core) (row row' : Row) → row.input ≡ row'.input → IsNext c me s row t → IsNext c me s row' t'
        → (row ≡ row') × (t ≡ t') }
{}

/// Where an input leads to from which a replica continues, there is the input's row, or one act more, or the
/// input halts the replica.
pub fn an_input_gives_a_row_or_a_halt()
    ensures { (c : Setup) (me : ℕ) (s : Core) (input : Input) (first : Act) (acts : List Act) (t : Core) → Begins c input first → Follows c me (after c s first) acts t → Continues c me t
        → ((row : Row) × (row.input ≡ input) × IsNext c me s row t)
        ⊎ (((a : Act) × Follows c me (after c s first) (acts ++ a ∷ []) (after c t a))
        ⊎ ((halt : Halt) × HaltsBy c me s input halt)) }
{}

/// An input that gives a row halts no replica, and one that halts it does so for one reason.
pub fn a_row_is_no_halt()
    ensures apart { (c : Setup) (me : ℕ) (s t : Core) (row : Row) (halt : Halt) → IsNext c me s row t → HaltsBy c me s row.input halt → ⊥ }
    ensures one { (c : Setup) (me : ℕ) (s : Core) (input : Input) (halt halt' : Halt) → HaltsBy c me s input halt → HaltsBy c me s input halt' → halt ≡ halt' }
{}
