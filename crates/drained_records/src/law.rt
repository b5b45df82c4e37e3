//! What it says of a family's journals that no message is missing.

ghost use Rattle.std.specs.Prelude.{List, None, Some};
ghost use Rattle.byz_world.specs.Journals.{Journals};
ghost use Rattle.byz_world.specs.Setup.{Setup};
ghost use Rattle.pbft_progress.specs.Progress.{IsDrained};
ghost use Rattle.drained_records.specs.Coming.{AreRecordsOf, IsFirstMissing, Record};
ghost use Rattle.drained_records.specs.declared.missing.Missing.{Missing};

/// The records of exactly the correct replicas of journals: where no message is missing in them, the journals are drained, and the laws
/// of progress speak of them; where one is missing, they aren't.
pub fn drained_families_miss_nothing()
    ensures drained { (c : Setup) (j : Journals) (records : List Record) → AreRecordsOf c j records → IsFirstMissing records None → IsDrained c j }
    ensures not_drained { (c : Setup) (j : Journals) (records : List Record) (m : Missing) → AreRecordsOf c j records → IsFirstMissing records (Some m) → IsDrained c j → ⊥ }
{}
