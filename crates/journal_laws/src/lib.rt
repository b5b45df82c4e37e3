//! Laws of lawful journals (`pbft_model`), which correct replicas keep. A replica that takes again what its journal says that it
//! took comes to the same rows, the same state and the same signatures, and no leaf signs a second message. A replica never
//! contradicts itself, signs no two messages with one leaf and changes views by the rules, so who is blamed for one of these is
//! faulty. There is no code here; each law is the contract of a function with an empty body.
#![tactic(auto)]

ghost use Rattle.std.specs.Prelude.{◌≡◌, ◌<◌, ◌≤◌, ◌+◌, ◌++◌, ℕ, true, List, Some};
ghost use Rattle.conflicts.specs.Claims.{Contradict, claim_in};
ghost use Rattle.conflicts.specs.Leaves.{leaf_named};
ghost use Rattle.conflicts.specs.declared.claim.Claim.{Claim};
ghost use Rattle.pbft_agreement.specs.Journals.{IsHonestFamily, Journals};
ghost use Rattle.pbft_model.specs.Core.{Core, start_of};
ghost use Rattle.pbft_model.specs.Families.{IsCorrect};
ghost use Rattle.pbft_model.specs.Rows.{Input, IsLawfulFrom, Row, leaves_in};
ghost use Rattle.pbft_model.specs.Setup.{Setup};
ghost use Rattle.pbft_model.specs.Validity.{is_valid, is_valid_new_view};
ghost use Rattle.pbft_model.specs.Words.{Body, Commit, NewView, Signed, SigningState, ViewChange};
ghost use Rattle.journal_laws.specs.Blame.{HasSigned, IsBlamed, IsBlamedByLeaf, IsRealFamily, IsSentFamily};
ghost use Rattle.journal_laws.specs.Replay.{GoesOn, WasSigned, inputs_of, leaf_of};
ghost use Rattle.journal_laws.specs.Views.{Differ, HasHidden, HasInvalid, HasTwo, Reports, view_claim_of};
ghost use Rattle.seal.specs.Keys.{public_key_of_signer, signature_number, signature_of};

/// A replica that takes again what it took, in the same order, gives the same rows: outputs, their signatures and leaves
/// among them, and comes to the same core; and where it then takes more, it goes on from there. So a replica that notes each
/// message and timeout before it takes it, and sends nothing of a row before it has taken it, may be ended at any instant and
/// started again: to the others it was slow.
pub fn what_is_taken_again_gives_the_same_rows()
    ensures more { (c : Setup) (me : ℕ) (s t last : Core) (rows all : List Row) (more : List Input) → IsLawfulFrom c me s rows t
        → IsLawfulFrom c me s all last → inputs_of all ≡ inputs_of rows ++ more → GoesOn c me rows t all last more }
    ensures same { (c : Setup) (me : ℕ) (s t u : Core) (rows again : List Row) → IsLawfulFrom c me s rows t → IsLawfulFrom c me s again u
        → inputs_of again ≡ inputs_of rows → (again ≡ rows) × (u ≡ t) }
{}

/// A leaf signs one message: in a lawful journal, two messages that the replica signed and whose signatures name one leaf are
/// one message, PrePrepares inside own NewViews among them. The leaves are those from the signer's next one on that the rows
/// report.
pub fn a_leaf_signs_one_message()
    ensures once { (c : Setup) (me : ℕ) (signer : SigningState) (rows : List Row) (last : Core) → IsLawfulFrom c me (start_of c signer) rows last
        → (m n : Signed Body) → WasSigned m rows → WasSigned n rows → leaf_of signer m ≡ leaf_of signer n → m ≡ n }
    ensures within { (c : Setup) (me : ℕ) (signer : SigningState) (rows : List Row) (last : Core) → IsLawfulFrom c me (start_of c signer) rows last
        → (m : Signed Body) → WasSigned m rows
        → (signer.next_leaf ≤ leaf_of signer m) × (leaf_of signer m < signer.next_leaf + leaves_in rows) }
{}

/// A correct replica never contradicts itself: in a lawful journal, two votes of one kind, view and number that it signed have
/// one digest, and so have two Checkpoints of one number.
pub fn own_claims_have_one_digest()
    ensures { (c : Setup) (me : ℕ) (signer : SigningState) (rows : List Row) (last : Core) → IsLawfulFrom c me (start_of c signer) rows last
        → (x y : Body) (one other : Claim) → HasSigned me x rows → HasSigned me y rows → claim_in me x ≡ Some one → claim_in me y ≡ Some other
        → one.topic ≡ other.topic → one.digest ≡ other.digest }
{}

/// **Who is blamed is faulty**: where two messages were heard in which a replica says two things of one topic, that replica is
/// faulty, as long as nobody forged. It holds however many are faulty.
pub fn who_contradicts_is_faulty()
    ensures { (c : Setup) (journals : Journals) → IsRealFamily c journals → (id : ℕ) → IsBlamed c journals id → IsCorrect c journals.faulty id → ⊥ }
{}

/// Who signs two messages with one leaf is faulty: where two messages of a replica were heard that differ and whose signatures
/// name one leaf, that replica is faulty, as long as what was received of correct replicas is what they sent, signatures
/// included. It holds however many are faulty.
pub fn who_signs_twice_with_a_leaf_is_faulty()
    ensures { (c : Setup) (journals : Journals) → IsSentFamily c journals → (id : ℕ) → IsBlamedByLeaf c journals id → IsCorrect c journals.faulty id → ⊥ }
{}

/// An honest family is one of those of which [`who_contradicts_is_faulty`] speaks.
pub fn an_honest_family_is_real()
    ensures { (c : Setup) (journals : Journals) → IsHonestFamily c journals → IsRealFamily c journals }
{}

/// A correct replica signs one ViewChange and one NewView for each view: in a lawful journal two of one view are one.
pub fn own_view_messages_are_one()
    ensures changes { (c : Setup) (me : ℕ) (signer : SigningState) (rows : List Row) (last : Core) → IsLawfulFrom c me (start_of c signer) rows last
        → (v w : ViewChange) → HasSigned me (Body.ViewChange v) rows → HasSigned me (Body.ViewChange w) rows → v.view ≡ w.view → v ≡ w }
    ensures openings { (c : Setup) (me : ℕ) (signer : SigningState) (rows : List Row) (last : Core) → IsLawfulFrom c me (start_of c signer) rows last
        → (m n : NewView) → HasSigned me (Body.NewView m) rows → HasSigned me (Body.NewView n) rows → m.view ≡ n.view → m ≡ n }
{}

/// A correct replica's ViewChange is valid, and so is its NewView: V is, and O is what V gives.
pub fn own_view_messages_are_valid()
    ensures changes { (c : Setup) (me : ℕ) (signer : SigningState) (rows : List Row) (last : Core) → IsLawfulFrom c me (start_of c signer) rows last
        → (v : ViewChange) → HasSigned me (Body.ViewChange v) rows → is_valid c v ≡ true }
    ensures openings { (c : Setup) (me : ℕ) (signer : SigningState) (rows : List Row) (last : Core) → IsLawfulFrom c me (start_of c signer) rows last
        → (n : NewView) → HasSigned me (Body.NewView n) rows → is_valid_new_view c n ≡ true }
{}

/// A correct replica's ViewChange hides no Commit (Castro and Liskov 1999, section 4.4): for each Commit that it signed, of a
/// lower view and above the ViewChange's low mark, the ViewChange carries a certificate for its number, of its view or a later
/// one. It is so whichever of the two was signed first.
pub fn an_own_view_change_hides_no_commit()
    ensures { (c : Setup) (me : ℕ) (signer : SigningState) (rows : List Row) (last : Core) → IsLawfulFrom c me (start_of c signer) rows last
        → (v : ViewChange) (b : Commit) → HasSigned me (Body.ViewChange v) rows → HasSigned me (Body.Commit b) rows
        → b.view.0 < v.view.0 → v.low.0 < b.number.0 → Reports v b }
{}

/// Who changes views wrongly is faulty: where two ViewChanges or two NewViews of one view were heard of a replica that differ, or
/// a Commit and a ViewChange that hides it, or a ViewChange or a NewView that isn't valid, that replica is faulty, as long as
/// nobody forged. It holds however many are faulty.
pub fn who_changes_views_wrongly_is_faulty()
    ensures two { (c : Setup) (journals : Journals) → IsRealFamily c journals → (id : ℕ) → HasTwo c journals id → IsCorrect c journals.faulty id → ⊥ }
    ensures hidden { (c : Setup) (journals : Journals) → IsRealFamily c journals → (id : ℕ) → HasHidden c journals id → IsCorrect c journals.faulty id → ⊥ }
    ensures invalid { (c : Setup) (journals : Journals) → IsRealFamily c journals → (id : ℕ) → HasInvalid c journals id → IsCorrect c journals.faulty id → ⊥ }
{}

/// Two messages of one role whose claims of a view contradict each other (`conflicts::view_claim_of`) are two ViewChanges, or two
/// NewViews, of one view that differ.
pub fn claims_of_a_view_that_contradict_differ()
    ensures { (m n : Signed Body) (one other : Claim) → m.role ≡ n.role → view_claim_of m ≡ Some one → view_claim_of n ≡ Some other
        → Contradict one other → Differ m.body n.body }
{}

/// The leaf that is read of a signature by the signer's public key (`conflicts::leaf_claim_of`) is the one that it names, by
/// the heights of the signer's trees, where the signer made it.
pub fn a_leaf_is_read_by_the_public_key()
    ensures { (s : SigningState) (text : List ℕ)
        → leaf_named (public_key_of_signer s) (signature_of s text) ≡ Some (signature_number s (signature_of s text)) }
{}
