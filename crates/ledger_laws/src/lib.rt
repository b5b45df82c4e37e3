//! Laws of what a ledger of deeds (`driver_notes`) remarks: it is what an audit asks of what replicas did, and of correct ones nothing is
//! remarked. There is no code here; each law is the contract of a function with an empty body.
#![tactic(auto)]

ghost use Rattle.std.specs.Prelude.{◌≡◌, ◌↔◌, ℕ, List, IsTrue};
ghost use Rattle.pbft_model.specs.Setup.{Setup};
ghost use Rattle.pbft_agreement.specs.Journals.{IsHonestFamily, Journals};
ghost use Rattle.driver_notes.specs.Accounts.{none_noted};
ghost use Rattle.driver_notes.specs.declared.ledger.Deed.{Deed};
ghost use Rattle.driver_notes.specs.declared.ledger.Remark.{Remark};
ghost use Rattle.ledger_laws.specs.Audits.{Agree, AreAllRemarks, all_deeds, all_follow, all_rise, none_differs};
ghost use Rattle.ledger_laws.specs.Telling.{AreTold};

/// Ledgers remark what an audit asks. The deeds of replicas are noted, one replica's after another's, each in the ledger of its number's
/// window, which is told the replica's last number first; with one window, that is one ledger. Then no deed is told to differ exactly where
/// all agree (`agree`), and all follow exactly where each replica's executions rise by one (`rise`).
pub fn ledgers_remark_what_an_audit_asks()
    ensures agree { (window : ℕ → ℕ) (records : List (List Deed)) (remarks : List (List Remark)) → AreAllRemarks window (λ n. none_noted) records remarks
        → (IsTrue (none_differs remarks) ↔ Agree (all_deeds records)) }
    ensures rise { (window : ℕ → ℕ) (records : List (List Deed)) (remarks : List (List Remark)) → AreAllRemarks window (λ n. none_noted) records remarks
        → all_follow remarks ≡ all_rise records }
{}

/// Of what correct replicas tell of an honest family's journals, each as far as it was read, nothing is remarked: none differs, and all
/// follow. So where something is remarked, one of the records isn't a correct replica's, or a premise of agreement failed.
pub fn nothing_is_remarked_of_correct_replicas()
    ensures agree { (c : Setup) (j : Journals) (records : List (List Deed)) → IsHonestFamily c j → AreTold c j records → Agree (all_deeds records) }
    ensures rise { (c : Setup) (j : Journals) (records : List (List Deed)) → IsHonestFamily c j → AreTold c j records → IsTrue (all_rise records) }
    ensures unremarked { (c : Setup) (j : Journals) (window : ℕ → ℕ) (records : List (List Deed)) (remarks : List (List Remark)) → IsHonestFamily c j → AreTold c j records
        → AreAllRemarks window (λ n. none_noted) records remarks → IsTrue (none_differs remarks) × IsTrue (all_follow remarks) }
{}
