//! What holds of every script. Each law is the contract of a function with an empty body.

ghost use Rattle.std.specs.Prelude.{◌≡◌, ℕ, List, Ok, Some};
ghost use Rattle.drained_records.specs.Execution.{Execution};
ghost use Rattle.drained_records.specs.Journals.{Journals};
ghost use Rattle.drained_records.specs.Leading.{AreJournalsOf};
ghost use Rattle.drained_records.specs.Setup.{setup_of};
ghost use Rattle.drained_records.specs.Worlds.{IsHonestReport, member_of};
ghost use Rattle.pbft_codec.specs.Encoding.{signed_text};
ghost use Rattle.pbft_codec.specs.declared.body.Body.{Body};
ghost use Rattle.pbft_codec.specs.declared.signed.Signed.{Signed};
ghost use Rattle.script_text.specs.Heads.{HeadFacts};
ghost use Rattle.script_text.specs.Scripts.{script_for};
ghost use Rattle.script_text.specs.Orders.{ordered};
ghost use Rattle.script_text.specs.declared.dialect.Dialect.{Dialect};
ghost use Rattle.script_text.specs.declared.files.NamedFile.{NamedFile};
ghost use Rattle.script_text.specs.declared.script.Script.{Script};
ghost use Rattle.service_model.specs.TenantStates.{Service};
ghost use Rattle.world_script.specs.Facts.{StageFacts};
ghost use Rattle.world_script.specs.Keys.{configuration_of, spent_message};
ghost use Rattle.world_script.specs.Passing.{IsOnRun, Passes, correct_signers};
ghost use Rattle.world_script.specs.Printing.{Audits, agreed_line, service_in};
ghost use Rattle.world_script.specs.Starts.{is_faulty};

/// Each stage that a script passes, whatever files it names, during its steps and behind them, has a world that its events led to:
/// so the correct replicas agree there, unless somebody forged, and what `show`, `digest` and `state`
/// print and the Replies that clients are handed are of their journals. So it is under each seed.
pub fn scripts_run_sound_worlds()
    ensures own { (dialect : Dialect) (files : List NamedFile) (input : List ℕ) (script : Script) (t : StageFacts) → script_for dialect files input ≡ Ok script → Passes script t
        → IsOnRun script.head t }
    ensures seeded { (dialect : Dialect) (files : List NamedFile) (input : List ℕ) (script : Script) (seed : ℕ) (t : StageFacts) → script_for dialect files input ≡ Ok script
        → Passes (ordered seed script) t → IsOnRun script.head t }
{}

/// Where at most f replicas are faulty, nobody forged and no digests collided, `audit` prints `audit agreed`, wherever it stands in a
/// script, and two replicas whose states have one number have one state, so that `digest` prints one digest of both.
pub fn honest_scripts_agree()
    ensures audited { (h : HeadFacts) (t : StageFacts) (j : Journals) (text : List ℕ) → IsOnRun h t → AreJournalsOf (configuration_of h) (is_faulty h) (correct_signers h) t.world j
        → IsHonestReport (setup_of (configuration_of h)) j → Audits t.world text → (history : List Execution) × (text ≡ agreed_line history) }
    ensures digests { (h : HeadFacts) (t : StageFacts) (j : Journals) (a b : ℕ) (s u : Service) → IsOnRun h t → AreJournalsOf (configuration_of h) (is_faulty h) (correct_signers h) t.world j
        → IsHonestReport (setup_of (configuration_of h)) j → service_in (member_of t.world a) ≡ Some s → service_in (member_of t.world b) ≡ Some u
        → s.number ≡ u.number → s ≡ u }
{}

/// What a leaf signs that is spent before the first step is no message's text, so that nothing opens by such a signature.
pub fn spent_leaves_sign_no_message()
    ensures { (m : Signed Body) → signed_text m ≡ spent_message → ⊥ }
{}
