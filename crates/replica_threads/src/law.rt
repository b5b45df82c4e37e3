//! What holds whenever a station's lock is free.

ghost use Rattle.std.specs.Prelude.{ℕ};
ghost use Rattle.host_types.specs.Configuration.{Configuration};
ghost use Rattle.lms_tree.specs.SigningState.{SigningState};
ghost use Rattle.byz_world.specs.Keeping.{JournalFacts};
ghost use Rattle.replica_threads.specs.Stations.{HasUsedItsLeaves, IsKeptBy};

/// Until a station halts, its replica's core is the one that its journal comes to, and its signer has used as many leaves
/// since `Station::new` as the journal's rows report.
pub fn a_stations_signer_has_used_its_rows_leaves()
    ensures { (c : Configuration) (me : ℕ) (signer : SigningState) (j : JournalFacts) → IsKeptBy c me signer j → HasUsedItsLeaves signer j }
{}
