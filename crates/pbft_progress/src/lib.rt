//! Progress of replicas (Castro and Liskov, OSDI 1999, section 4.4) over journals (`specs/`): where replicas have come to once
//! the messages of correct ones have come. There is no code here; each law is the contract of a function with an empty body.
#![tactic(auto)]

ghost use Rattle.std.specs.Prelude.{◌≡◌, ◌<◌, ◌≤◌, ◌+◌, ℕ, List, Some, true, false};
ghost use Rattle.pbft_model.specs.Setup.{Setup, primary};
ghost use Rattle.seal.specs.SigningState.{SigningState};
ghost use Rattle.pbft_model.specs.Core.{Core, start_of, inside, is_known, is_prepared, is_committed, pre_prepare_at};
ghost use Rattle.pbft_model.specs.Rules.{IsInside};
ghost use Rattle.pbft_model.specs.Duties.{among, leads};
ghost use Rattle.pbft_model.specs.Histories.{IsIn};
ghost use Rattle.pbft_model.specs.Certificates.{Fields, of_pre_prepare};
ghost use Rattle.pbft_codec.specs.declared.body.Body.TheVariants as bodies;
ghost use Rattle.pbft_model.specs.Acts.{All, ToReplica, ToClient};
ghost use Rattle.pbft_model.specs.Rows.{Row, IsLawfulFrom};
ghost use Rattle.pbft_model.specs.Families.{IsCorrect};
ghost use Rattle.pbft_model.specs.Words.{Body, Signed, PrePrepare, Prepare, Commit, part_of};
ghost use Rattle.pbft_agreement.specs.Journals.{Journals, HasReceived, HasGiven, IsHonestFamily};
ghost use Rattle.pbft_agreement.specs.Example.{the_setup, the_journals};
ghost use Rattle.pbft_progress.specs.Progress.{IsFor, IsDrained, Ends, EachEnds, Enough, IsAtRest};
ghost use Rattle.pbft_progress.specs.Votes.{Came, IsRecorded, HasProposed, HasPrepared, HasCommitted};
ghost use Rattle.pbft_progress.specs.Drained.{the_drained, view_change, new_view};

/// Behind the rows of a lawful journal nothing is due: none of the duties. So it is of each correct replica of a family.
pub fn nothing_is_due_at_the_end()
    ensures journal { (c : Setup) (me : ℕ) (signer : SigningState) (rows : List Row) (last : Core) → IsLawfulFrom c me (start_of c signer) rows last
        → IsAtRest c me last }
    ensures family { (c : Setup) (journals : Journals) → EachEnds c journals (IsAtRest c) }
{}

/// What comes to a replica within its marks, of the view that it is active in and above that view's floor, is recorded, and stays
/// so while the view lasts and its low mark is below it: behind all rows a vote of this signer stands there, the first that came.
/// What lies above the high mark as it comes is lost (Castro and Liskov, section 4.2).
pub fn a_vote_within_the_marks_is_recorded()
    ensures pre_prepare { (c : Setup) (me : ℕ) (signer : SigningState) (m : Signed Body) (t s : Core) (b : PrePrepare) → Came c me signer m t s → m.body ≡ bodies.PrePrepare b
        → IsInside c t b.view.0 b.number.0 → s.view ≡ b.view.0 → s.low < b.number.0 → IsRecorded s.pre_prepares b.number.0 b.view.0 m.id }
    ensures prepare { (c : Setup) (me : ℕ) (signer : SigningState) (m : Signed Body) (t s : Core) (b : Prepare) → Came c me signer m t s → m.body ≡ bodies.Prepare b
        → IsInside c t b.view.0 b.number.0 → s.view ≡ b.view.0 → s.low < b.number.0 → IsRecorded s.prepares b.number.0 b.view.0 m.id }
    ensures commit { (c : Setup) (me : ℕ) (signer : SigningState) (m : Signed Body) (t s : Core) (b : Commit) → Came c me signer m t s → m.body ≡ bodies.Commit b
        → IsInside c t b.view.0 b.number.0 → s.view ≡ b.view.0 → s.low < b.number.0 → IsRecorded s.commits b.number.0 b.view.0 m.id }
{}

/// What a replica notes as done it has said: behind the rows of a lawful journal each number that is noted as prepared or as
/// committed has an own Prepare or Commit of the view, and what is noted as proposed an own PrePrepare, alone or in a NewView.
pub fn what_is_noted_was_said()
    ensures prepares { (c : Setup) (me : ℕ) (signer : SigningState) (rows : List Row) (s : Core) → IsLawfulFrom c me (start_of c signer) rows s
        → (n : ℕ) → among s.prepared_numbers n ≡ true → (x : Fields) × (x.view ≡ s.view) × (x.number ≡ n) × HasPrepared x rows }
    ensures commits { (c : Setup) (me : ℕ) (signer : SigningState) (rows : List Row) (s : Core) → IsLawfulFrom c me (start_of c signer) rows s
        → (n : ℕ) → among s.committed_numbers n ≡ true → (x : Fields) × (x.view ≡ s.view) × (x.number ≡ n) × HasCommitted x rows }
    ensures proposals { (c : Setup) (me : ℕ) (signer : SigningState) (rows : List Row) (s : Core) → IsLawfulFrom c me (start_of c signer) rows s
        → (x : Fields) → IsIn x s.proposed → HasProposed x rows }
{}

/// What is recorded between the marks is answered, behind the rows of a lawful journal whose replica is active: a PrePrepare of the
/// view's primary whose request is held, or null, by a backup's Prepare with its fields; one that is prepared by a Commit with its
/// fields; and the number after the last executed is not committed-local there (sections 4.2 and 4.3).
pub fn what_is_recorded_is_answered()
    ensures prepare { (c : Setup) (me : ℕ) (signer : SigningState) (rows : List Row) (s : Core) → IsLawfulFrom c me (start_of c signer) rows s
        → (n : ℕ) (m : Signed PrePrepare) → s.active ≡ true → leads c me s ≡ false → IsIn n (inside c s) → pre_prepare_at c s s.view n ≡ Some m
        → is_known c s m.body.digest.0 ≡ true → HasPrepared (of_pre_prepare m.body) rows }
    ensures commit { (c : Setup) (me : ℕ) (signer : SigningState) (rows : List Row) (s : Core) → IsLawfulFrom c me (start_of c signer) rows s
        → (n : ℕ) (m : Signed PrePrepare) → s.active ≡ true → IsIn n (inside c s) → pre_prepare_at c s s.view n ≡ Some m
        → is_prepared c s (of_pre_prepare m.body) ≡ true → HasCommitted (of_pre_prepare m.body) rows }
    ensures execute { (c : Setup) (me : ℕ) (signer : SigningState) (rows : List Row) (s : Core) → IsLawfulFrom c me (start_of c signer) rows s
        → (m : Signed PrePrepare) → s.active ≡ true → pre_prepare_at c s s.view (s.executed + 1) ≡ Some m → is_committed c s (of_pre_prepare m.body) ≡ false }
{}

/// Views spread, in an honest family in which each message that a correct replica gave was received by each other correct
/// replica that it is for: if more correct replicas than may be faulty have come to a view or a higher one, every correct
/// replica has come to it or a higher one. Whatever the faulty ones said, whatever else was lost, and wherever the marks are.
pub fn a_view_spreads()
    ensures { (c : Setup) (journals : Journals) → IsHonestFamily c journals → IsDrained c journals
        → (view : ℕ) → Enough c journals (λ i. Ends c journals i (λ s. view ≤ s.view)) → EachEnds c journals (λ i s. view ≤ s.view) }
{}

/// A view opens, under the same premises: if all correct replicas stand in one view behind their rows, and its primary is
/// correct, all of them are active in it.
pub fn a_view_with_a_correct_primary_opens()
    ensures { (c : Setup) (journals : Journals) → IsHonestFamily c journals → IsDrained c journals
        → (view : ℕ) → EachEnds c journals (λ i s. s.view ≡ view) → IsCorrect c journals.faulty (primary c.config view)
        → EachEnds c journals (λ i s. s.active ≡ true) }
{}

/// What goes to all is for each replica; what goes to one is for that one alone, and what goes to a client for none.
pub fn a_message_is_for_whom_it_names()
    ensures all { (i : ℕ) → IsFor i All }
    ensures one { (i : ℕ) → IsFor i (ToReplica i) }
    ensures alone { (i to : ℕ) → IsFor i (ToReplica to) → i ≡ to }
    ensures client { (i to : ℕ) → IsFor i (ToClient to) → ⊥ }
{}

/// An honest drained family exists, under whatever hash and whatever the signers' secrets are, in which enough correct
/// replicas have come to view 1, all of them stand in it and its primary is correct: the premises of both laws can hold. It
/// has messages, and nobody received an own one. The journals of `pbft_agreement` in which a request is executed, of which
/// replica 2 received nothing, are not drained.
pub fn a_drained_family_changes_views()
    ensures honest { (hash : List ℕ → List ℕ) (secrets : ℕ → List ℕ) → IsHonestFamily (the_setup hash secrets) (the_drained hash secrets) }
    ensures drained { (hash : List ℕ → List ℕ) (secrets : ℕ → List ℕ) → IsDrained (the_setup hash secrets) (the_drained hash secrets) }
    ensures gives { (hash : List ℕ → List ℕ) (secrets : ℕ → List ℕ) → HasGiven (part_of (view_change secrets 0)) ((the_drained hash secrets).rows 0)
        × HasGiven (part_of (new_view secrets)) ((the_drained hash secrets).rows 1) }
    ensures not_itself { (hash : List ℕ → List ℕ) (secrets : ℕ → List ℕ) → (i : ℕ) (m : Signed Body) → HasReceived m ((the_drained hash secrets).rows i) → m.id ≡ i → ⊥ }
    ensures enough { (hash : List ℕ → List ℕ) (secrets : ℕ → List ℕ) → Enough (the_setup hash secrets) (the_drained hash secrets)
        (λ i. Ends (the_setup hash secrets) (the_drained hash secrets) i (λ s. 1 ≤ s.view)) }
    ensures stand { (hash : List ℕ → List ℕ) (secrets : ℕ → List ℕ) → EachEnds (the_setup hash secrets) (the_drained hash secrets) (λ i s. s.view ≡ 1) }
    ensures leader { (hash : List ℕ → List ℕ) (secrets : ℕ → List ℕ) → IsCorrect (the_setup hash secrets) (the_drained hash secrets).faulty (primary (the_setup hash secrets).config 1) }
    ensures lost { (hash : List ℕ → List ℕ) (secrets : ℕ → List ℕ) → IsDrained (the_setup hash secrets) (the_journals hash secrets) → ⊥ }
{}
