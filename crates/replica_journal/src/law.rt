//! What a kept journal is.

ghost use Rattle.std.specs.Prelude.{◌≡◌, None};
ghost use Rattle.replica_journal.specs.Keeping.{IsKept, IsReplayed, JournalFacts};

/// Until a replica halts, its core is the one that its journal comes to, and its signer has used as many
/// leaves since it began as the journal's rows report.
pub fn a_core_is_the_journals_replay()
    ensures { (j : JournalFacts) → IsKept j → j.status.halted ≡ None → IsReplayed j }
{}
