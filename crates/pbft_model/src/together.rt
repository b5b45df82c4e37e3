//! Several numbers executed in one row.

ghost use Rattle.std.specs.Prelude.{◌≡◌, ◌+◌, ◌≤◌, ℕ, List, Some};
ghost use Rattle.seal.specs.SigningState.{SigningState};
ghost use Rattle.pbft_model.specs.Setup.{Setup};
ghost use Rattle.pbft_model.specs.Words.{leaf_count};
ghost use Rattle.pbft_model.specs.Acts.{Act, after};
ghost use Rattle.pbft_model.specs.Duties.{Executing, due};
ghost use Rattle.pbft_model.specs.Rows.{Follows};
ghost use Rattle.pbft_model.specs.Histories.{IsHistory, core_after};
ghost use Rattle.pbft_model.specs.Together.{Execution, AreExecutions, act_of, last_of, acts_together, leaves_together, signer_together};

/// Where to execute is due, the numbers from there on that are committed can be executed together, up to the next
/// multiple of the checkpoint interval: to execute each and to answer it is what is due, one act after another, and
/// nothing else comes between. What is kept then is what the last execution leaves, with the signer that has signed
/// the answers before it.
pub fn executions_are_done_together()
    ensures { (c : Setup) (me : ℕ) (signer : SigningState) (acts : List Act) → IsHistory c me signer acts
        → (x : Execution) (xs : List Execution) → due c me (core_after c signer acts) ≡ Some (Executing x.number x.digest)
        → AreExecutions c (core_after c signer acts) (core_after c signer acts).service (core_after c signer acts).executed x xs
        → (core_after c signer acts).signer.next_leaf + leaves_together x xs ≤ leaf_count (core_after c signer acts).signer
        → Follows c me (core_after c signer acts) (acts_together me (core_after c signer acts).view (core_after c signer acts).signer x xs)
        (after c (record (core_after c signer acts) { signer = signer_together (core_after c signer acts).signer x xs }) (act_of (last_of x xs))) }
{}
