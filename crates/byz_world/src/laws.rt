//! What holds of every world. Each law is the contract of a function with an empty body.

ghost use Rattle.std.specs.Prelude.{◌≡◌, ◌≢◌, ◌++◌, ◌∷◌, [], ℕ, Bool, List, Option, Some, Result, Err, length};
ghost use Rattle.host_types.specs.Configuration.{Configuration, IsConfiguration, replicas_for};
ghost use Rattle.pbft_agreement.specs.Agreement.{HoldsState};
ghost use Rattle.pbft_model.specs.Core.{Core};
ghost use Rattle.pbft_model.specs.Families.{IsCorrect};
ghost use Rattle.pbft_agreement.specs.Journals.{AgreesOver, IsHonestFamily, Journals};
ghost use Rattle.pbft_model.specs.Setup.{Setup, setup_of};
ghost use Rattle.pbft_model.specs.Words.{RequestBody, Signed, SigningState};
ghost use Rattle.replica_journal.specs.Facts.{RowFacts};
ghost use Rattle.byz_world.specs.Audits.{IsAudit};
ghost use Rattle.byz_world.specs.Leading.{IsToldOf, LeadsTo, LeadsToSoundWorlds};
ghost use Rattle.byz_world.specs.Records.{AgreeUnlessForged, AreJournals, AreRecords, FindsNoFault};
ghost use Rattle.byz_world.specs.Worlds.{Answer, AreListed, Happens, IsHonestReport, MemberFacts, Runs, WorldFacts, correct_ids};
ghost use Rattle.byz_world.specs.declared.audit_fault.AuditFault.{AuditFault};
ghost use Rattle.byz_world.specs.declared.event.Event.{Event};
ghost use Rattle.byz_world.specs.declared.fault.WorldFault.{WorldFault};
ghost use Rattle.byz_world.specs.declared.fault.WorldFault.TheVariants as faults;
ghost use Rattle.byz_world.specs.declared.history.Execution.{Execution};

/// Each world that events lead to, from a legal configuration and signers with the listed keys on, is
/// sound: its correct replicas agree unless somebody forged, no procedure of theirs can go wrong, and
/// what the world tells is of their journals.
pub fn worlds_are_sound()
    ensures { (c : Configuration) (faulty : ℕ → Bool) (signers : List SigningState) → IsConfiguration c → AreListed c (correct_ids c faulty) signers
        → LeadsToSoundWorlds c faulty signers }
{}

/// The core that a world tells of a correct replica holds the sequential service's state: on the requests
/// of each list that accounts for the journals, up to the number that it has executed.
pub fn told_states_agree()
    ensures { (c : Configuration) (j : Journals) (id : ℕ) (m : MemberFacts) (s : Core) (entries : List (Option (Signed RequestBody))) → IsToldOf c j id m
        → m.replica.core ≡ Some s → IsCorrect (setup_of c) j.faulty id → AgreesOver (setup_of c) j entries → HoldsState (setup_of c) entries s }
{}

/// Events lead on. An event that `World::event` answers, or refuses because its replica or its output is
/// not there, leads to the world behind it; the refused one leaves the world as it was. So the events of
/// a run lead to its world.
pub fn events_lead_on()
    ensures event { (w u t : WorldFacts) (events : List Event) (event : Event) (answer : Answer) → LeadsTo w events u
        → answer ≢ Err faults.Memory → Happens u event answer t → LeadsTo w (events ++ event ∷ []) t }
    ensures refused { (u t : WorldFacts) (event : Event) (fault : WorldFault) → fault ≢ faults.Memory → Happens u event (Err fault) t → t ≡ u }
    ensures run { (w t : WorldFacts) (events : List Event) → Runs w events t → LeadsTo w events t }
{}

/// The premises of an honest family are those of an honest report and more: so `run_world`'s clause on
/// agreement holds of it.
pub fn an_honest_family_reports()
    ensures { (c : Setup) (j : Journals) → IsHonestFamily c j → IsHonestReport c j }
{}

/// The records of an honest family's correct replicas pass an audit: it answers none of `Differ`, `Gap`
/// and `Unrecorded`.
pub fn honest_records_pass()
    ensures { (c : Setup) (j : Journals) (records : List (List RowFacts)) (answer : Result (List Execution) AuditFault)
        → IsHonestFamily c j → AreRecords c j records → IsAudit records answer → FindsNoFault answer }
{}

/// Lawful journals of all replicas of a configuration, from whatever signers on, agree unless somebody
/// forged, whoever is faulty; where nobody is, an audit of them finds no fault.
pub fn journals_of_all_replicas_agree()
    ensures { (c : Configuration) (signer : ℕ → SigningState) (records : List (List RowFacts)) → AreJournals c signer records → IsConfiguration c
        → length records ≡ replicas_for c.f → AgreeUnlessForged c signer records }
{}
