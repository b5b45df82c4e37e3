//! Answers (Castro and Liskov, OSDI 1999, section 4.2) over journals: in view 0 under a correct primary, what it gives out is
//! executed once the messages of correct replicas have come. There is no code here; each law is the contract of a function with
//! an empty body.
#![tactic(auto)]

ghost use Rattle.std.specs.Prelude.{◌≡◌, ◌<◌, ◌≤◌, ◌⊎◌, ◌+◌, ℕ, List, [], ◌∷◌, false};
ghost use Rattle.sha2.specs.Sha256.{sha256};
ghost use Rattle.pbft_codec.specs.declared.body.Body.TheVariants as bodies;
ghost use Rattle.pbft_model.specs.Words.{Signed, RequestBody, as_message};
ghost use Rattle.pbft_model.specs.Setup.{Setup, replicas, span, digest_of};
ghost use Rattle.pbft_model.specs.Core.{is_new, next_number};
ghost use Rattle.pbft_model.specs.Certificates.{Fields};
ghost use Rattle.pbft_model.specs.Rows.{Executed};
ghost use Rattle.pbft_model.specs.Families.{IsCorrect};
ghost use Rattle.pbft_agreement.specs.Journals.{Journals, HasReceived, HasDone, IsHonestFamily};
ghost use Rattle.pbft_agreement.specs.Example.{the_setup, the_digest};
ghost use Rattle.pbft_progress.specs.Progress.{IsDrained, Ends, EachEnds, Enough};
ghost use Rattle.pbft_progress.specs.Votes.{HasProposed};
ghost use Rattle.pbft_answers.specs.Window.{leader_of, SpreadsRequests, IsFirstWindow, InstallsNothing};
ghost use Rattle.pbft_answers.specs.Early.{IsTimely};
ghost use Rattle.pbft_answers.specs.Answered.{the_answered};

/// Until a low mark rises all is executed by all: in an honest drained family whose correct replicas all stand in view 0 with the
/// low mark 0, where its primary is correct and what one correct replica received of requests all did, each correct replica has
/// executed whatever the primary gave out, with one result. Whatever the faulty ones said, and whatever else was lost.
pub fn until_a_mark_rises_all_execute_all()
    ensures { (c : Setup) (journals : Journals) → IsHonestFamily c journals → IsDrained c journals
        → EachEnds c journals (λ i s. s.view ≡ 0) → EachEnds c journals (λ i s. s.low ≡ 0) → IsCorrect c journals.faulty (leader_of c) → SpreadsRequests c journals
        → (x : Fields) → HasProposed x (journals.rows (leader_of c))
        → (result : List ℕ) × ((i : ℕ) → IsCorrect c journals.faulty i → HasDone (Executed x.number x.digest result) (journals.rows i)) }
{}

/// The first window is answered: in an honest drained family whose correct replicas all stand in view 0, whose primary is correct and
/// gave out no number above 2k, and where each client's requests came to the primary with rising times and to all (`IsFirstWindow`),
/// whatever the primary gave out is executed by more correct replicas than may be faulty, with one result (`enough`), so that its
/// client has enough replies; by all, where none of them installed a snapshot (`all`) or nobody is faulty (`honest`); and where the primary has room, what it
/// received of requests it gave out, or it is new to its service no more (`asked`). **It speaks of the first 2k numbers alone.**
/// Whatever the faulty ones said, and whatever else was lost.
pub fn the_first_window_is_answered()
    ensures enough { (c : Setup) (journals : Journals) → IsHonestFamily c journals → IsDrained c journals → IsFirstWindow c journals
        → (x : Fields) → HasProposed x (journals.rows (leader_of c))
        → (result : List ℕ) × Enough c journals (λ i. HasDone (Executed x.number x.digest result) (journals.rows i)) }
    ensures all { (c : Setup) (journals : Journals) → IsHonestFamily c journals → IsDrained c journals → IsFirstWindow c journals → InstallsNothing c journals
        → (x : Fields) → HasProposed x (journals.rows (leader_of c)) → EachEnds c journals (λ i s. x.number ≤ s.executed) }
    ensures honest { (c : Setup) (journals : Journals) → IsHonestFamily c journals → IsDrained c journals → IsFirstWindow c journals
        → ((i : ℕ) → i < replicas c.config → journals.faulty i ≡ false)
        → (x : Fields) → HasProposed x (journals.rows (leader_of c)) → EachEnds c journals (λ i s. x.number ≤ s.executed) }
    ensures asked { (c : Setup) (journals : Journals) → IsHonestFamily c journals → IsDrained c journals → IsFirstWindow c journals
        → (m : Signed RequestBody) → HasReceived (as_message bodies.Request m) (journals.rows (leader_of c))
        → Ends c journals (leader_of c) (λ s. next_number s ≤ s.low + span c.config
        → (is_new s.service m ≡ false) ⊎ ((x : Fields) × (x.digest ≡ digest_of c m) × HasProposed x (journals.rows (leader_of c)))) }
{}

/// A timely first view is answered, **for any number**: in an honest drained family whose correct replicas all stand in view 0, whose
/// primary is correct, where no vote of a correct replica came early to one, that is, above its high water mark, so that it dropped it,
/// and where each client's requests came to the primary with rising times and to all (`IsTimely`; each first window is timely:
/// `window`), whatever the primary gave out is executed by more correct replicas than may be faulty, with one result (`enough`), so
/// that its client has enough replies; by all, with one result, where none of them installed a snapshot (`all`); all have reached it
/// where nobody is faulty, whatever was installed (`honest`); and where the primary has room, what it received of requests it gave out,
/// or it is new to its service no more (`asked`). A driver may keep early votes back (`early_votes`): they come once the mark has
/// risen. Whatever the faulty ones said, and whatever else was lost.
pub fn a_timely_view_is_answered()
    ensures window { (c : Setup) (journals : Journals) → IsHonestFamily c journals → IsFirstWindow c journals → IsTimely c journals }
    ensures enough { (c : Setup) (journals : Journals) → IsHonestFamily c journals → IsDrained c journals → IsTimely c journals
        → (x : Fields) → HasProposed x (journals.rows (leader_of c))
        → (result : List ℕ) × Enough c journals (λ i. HasDone (Executed x.number x.digest result) (journals.rows i)) }
    ensures all { (c : Setup) (journals : Journals) → IsHonestFamily c journals → IsDrained c journals → IsTimely c journals → InstallsNothing c journals
        → (x : Fields) → HasProposed x (journals.rows (leader_of c))
        → (result : List ℕ) × ((i : ℕ) → IsCorrect c journals.faulty i → HasDone (Executed x.number x.digest result) (journals.rows i)) }
    ensures honest { (c : Setup) (journals : Journals) → IsHonestFamily c journals → IsDrained c journals → IsTimely c journals
        → ((i : ℕ) → i < replicas c.config → journals.faulty i ≡ false)
        → (x : Fields) → HasProposed x (journals.rows (leader_of c)) → EachEnds c journals (λ i s. x.number ≤ s.executed) }
    ensures asked { (c : Setup) (journals : Journals) → IsHonestFamily c journals → IsDrained c journals → IsTimely c journals
        → (m : Signed RequestBody) → HasReceived (as_message bodies.Request m) (journals.rows (leader_of c))
        → Ends c journals (leader_of c) (λ s. next_number s ≤ s.low + span c.config
        → (is_new s.service m ≡ false) ⊎ ((x : Fields) × (x.digest ≡ digest_of c m) × HasProposed x (journals.rows (leader_of c)))) }
{}

/// An honest drained family under SHA-256, whatever the signers' secrets are, in which each correct replica executes a client's request,
/// while the fourth is faulty and silent: the premises of these laws can hold.
pub fn a_drained_family_executes()
    ensures honest { (secrets : ℕ → List ℕ) → IsHonestFamily (the_setup sha256 secrets) (the_answered sha256 secrets) }
    ensures drained { (secrets : ℕ → List ℕ) → IsDrained (the_setup sha256 secrets) (the_answered sha256 secrets) }
    ensures window { (secrets : ℕ → List ℕ) → IsFirstWindow (the_setup sha256 secrets) (the_answered sha256 secrets) }
    ensures timely { (secrets : ℕ → List ℕ) → IsTimely (the_setup sha256 secrets) (the_answered sha256 secrets) }
    ensures unmoved { (secrets : ℕ → List ℕ) → EachEnds (the_setup sha256 secrets) (the_answered sha256 secrets) (λ i s. s.low ≡ 0) }
    ensures installs { (secrets : ℕ → List ℕ) → InstallsNothing (the_setup sha256 secrets) (the_answered sha256 secrets) }
    ensures proposes { (secrets : ℕ → List ℕ) → HasProposed (record { view = 0; number = 1; digest = the_digest }) ((the_answered sha256 secrets).rows 0) }
    ensures executes { (secrets : ℕ → List ℕ) → (i : ℕ) → IsCorrect (the_setup sha256 secrets) (the_answered sha256 secrets).faulty i
        → HasDone (Executed 1 the_digest (1 ∷ [])) ((the_answered sha256 secrets).rows i) }
{}
