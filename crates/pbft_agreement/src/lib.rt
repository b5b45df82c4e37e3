//! Agreement of replicas (Castro and Liskov, OSDI 1999, section 4) by number and over journals (`specs/`): one list of
//! requests accounts for all that correct replicas did. What a journal reports, that each input gives a row or a halt, and
//! worked runs. There is no code here; each law is the contract of a function with an empty body.
#![tactic(auto)]

ghost use Rattle.pbft_model.specs.Setup.{Setup, signer_after};
ghost use Rattle.std.specs.Prelude.{◌≡◌, ◌≤◌, ◌⊎◌, ℕ, List, [], ◌∷◌, ◌++◌, Option, Some};
ghost use Rattle.std.specs.List.{flat_map};
ghost use Rattle.seal.specs.SigningState.{SigningState};
ghost use Rattle.pbft_model.specs.Acts.{Act, after};
ghost use Rattle.pbft_agreement.specs.Agreement.{IsHonest, AgreesByNumber};
ghost use Rattle.pbft_agreement.specs.Example.{the_setup, the_family, the_journals, the_digest, message_of};
ghost use Rattle.pbft_agreement.specs.Episode.{episode_setup, the_episode, the_state_digest, new_view_by_1, IsStableAfter};
ghost use Rattle.pbft_codec.specs.declared.body.Body.TheVariants as bodies;
ghost use Rattle.pbft_agreement.specs.Journals.{Journals, HasDone, HasGiven, IsHonestFamily, ExecutesEach, rises_to, Agrees};
ghost use Rattle.pbft_model.specs.Core.{Core, request_of, start_of};
ghost use Rattle.pbft_model.specs.Duties.{Executing, due, reply_body};
ghost use Rattle.pbft_agreement.specs.Received.{TakesBytes, ReceivesBytes, ComesBehind, IsOpened, HasReading, IsSnapshot, GivesRowOrHalt};
ghost use Rattle.pbft_model.specs.Rows.{Row, Input, TimedOut, Exhausted, Worn, HaltsBy, Begins, Follows, Executed, Installed, Fulfils, Continues, IsLawfulFrom, IsNext, leaves_in};
ghost use Rattle.pbft_agreement.specs.RowRules.{HasOneVoice, KeepsViews, ChecksWhereExecuted};
ghost use Rattle.pbft_model.specs.Rules.{IsReadingOf};
ghost use Rattle.pbft_model.specs.Sequential.{Service, Outcome, IsStep};
ghost use Rattle.sha2.specs.Sha256.{sha256};
ghost use Rattle.host_types.specs.Configuration.{IsConfiguration};
ghost use Rattle.pbft_model.specs.Words.{Snapshot, leaf_count, part_of, as_message};
ghost use Rattle.pbft_agreement.specs.Worked.{Works, reply_in_view_0, the_reply, toy, serving, through_backup, through_primary, timing_out, changing_view, joining_view, reaching_a_checkpoint, installing, through_all, IsDiscarded};
ghost use Rattle.pbft_model.specs.Setup.{fresh};
ghost use Rattle.pbft_model.specs.Histories.{IsHistory, core_after};
ghost use Rattle.pbft_model.specs.Families.{Family, IsCorrect, HasExecuted};

/// Agreement by number: where nobody forges and no two of the strings that were hashed have one
/// digest, one list of requests accounts for every state, execution and reply of a correct replica.
pub fn agreement_by_number()
    ensures { (c : Setup) (family : Family) → IsHonest c family → AgreesByNumber c family }
{}

/// Agreement over journals: one list of requests accounts for all that the rows of an honest family
/// report, with no other premise.
pub fn agreement()
    ensures { (c : Setup) (journals : Journals) → IsHonestFamily c journals → Agrees c journals }
{}

/// Each number up to the greatest reached was executed by a correct replica, in an honest family of journals.
pub fn each_number_was_executed()
    ensures { (c : Setup) (journals : Journals) → IsHonestFamily c journals → ExecutesEach c journals }
{}

/// What a lawful journal's rows did rises by one from 0, or from the number installed last, up to the number that its
/// core has executed.
pub fn executions_rise_by_one()
    ensures { (c : Setup) (me : ℕ) (signer : SigningState) (rows : List Row) (last : Core) → IsLawfulFrom c me (start_of c signer) rows last
        → rises_to 0 (flat_map (λ row. row.done) rows) ≡ Some last.executed }
{}

/// Rules that the rows of a lawful journal show, each by itself: own PrePrepares, those inside own NewViews among them,
/// and own Prepares have one digest for each view and number; the view never falls, and nothing of a view is signed
/// after it was left; a Checkpoint is signed in the row alone that executed its number.
pub fn rows_keep_the_rules()
    ensures voice { (c : Setup) (me : ℕ) (signer : SigningState) (rows : List Row) (last : Core) → IsLawfulFrom c me (start_of c signer) rows last → HasOneVoice rows }
    ensures views { (c : Setup) (me : ℕ) (signer : SigningState) (rows : List Row) (last : Core) → IsLawfulFrom c me (start_of c signer) rows last → KeepsViews c me last }
    ensures checkpoints { (c : Setup) (me : ℕ) (signer : SigningState) (rows : List Row) (last : Core) → IsLawfulFrom c me (start_of c signer) rows last → ChecksWhereExecuted rows }
{}

/// An honest family of histories under SHA-256 exists in which a correct replica executes a client's
/// request, whatever the signers' secrets are.
pub fn an_honest_family_executes()
    ensures honest { (secrets : ℕ → List ℕ) → IsHonest (the_setup sha256 secrets) (the_family secrets) }
    ensures executes { (secrets : ℕ → List ℕ) → HasExecuted (the_setup sha256 secrets) (the_family secrets) 1 1 the_digest }
{}

/// An honest family of journals under SHA-256 exists in which a correct replica executes a client's
/// request and replies to it, whatever the signers' secrets are: agreement's one premise can hold.
pub fn honest_journals_execute()
    ensures honest { (secrets : ℕ → List ℕ) → IsHonestFamily (the_setup sha256 secrets) (the_journals sha256 secrets) }
    ensures executes { (secrets : ℕ → List ℕ) → IsCorrect (the_setup sha256 secrets) (the_journals sha256 secrets).faulty 1
        × HasDone (Executed 1 the_digest (1 ∷ [])) ((the_journals sha256 secrets).rows 1) }
    ensures replies { (secrets : ℕ → List ℕ) → HasGiven (part_of (message_of secrets 1 2 reply_in_view_0)) ((the_journals sha256 secrets).rows 1) }
{}

/// An honest family of journals under SHA-256 in which a request is executed in view 0 by one correct
/// replica and in view 1 by another, where the NewView carries the request's certificate; number 1
/// becomes stable at both, and the third correct replica fetches the snapshot and installs it. Whatever the
/// signers' secrets are: valid signatures and digests that don't collide are computed.
pub fn honest_journals_change_views()
    ensures honest { (secrets : ℕ → List ℕ) → IsHonestFamily (episode_setup sha256 secrets) (the_episode sha256 secrets) }
    ensures executes { (secrets : ℕ → List ℕ) → HasDone (Executed 1 the_digest (1 ∷ [])) ((the_episode sha256 secrets).rows 0)
        × HasDone (Executed 1 the_digest (1 ∷ [])) ((the_episode sha256 secrets).rows 1) }
    ensures replies { (secrets : ℕ → List ℕ) → HasGiven (part_of (message_of secrets 0 2 reply_in_view_0)) ((the_episode sha256 secrets).rows 0)
        × HasGiven (part_of (message_of secrets 1 6 (reply_body 1 the_reply))) ((the_episode sha256 secrets).rows 1) }
    ensures changes { (secrets : ℕ → List ℕ) → HasGiven (part_of (as_message bodies.NewView (new_view_by_1 secrets))) ((the_episode sha256 secrets).rows 1) }
    ensures stable { (secrets : ℕ → List ℕ) → (i : ℕ) → (i ≡ 0) ⊎ ((i ≡ 1) ⊎ (i ≡ 2))
        → IsStableAfter (episode_setup sha256 secrets) (the_episode sha256 secrets) i 1 (0 ∷ 1 ∷ 3 ∷ []) }
    ensures installs { (secrets : ℕ → List ℕ) → HasDone (Installed 1 the_state_digest) ((the_episode sha256 secrets).rows 2) }
{}

/// A history never stops for want of a step of the service, where each message that was taken came as a
/// list of bytes: at each of its points there is one for whatever a digest stands for. So where to
/// execute is due, an act does it.
pub fn an_execution_has_a_step()
    ensures step { (c : Setup) (me : ℕ) (signer : SigningState) → IsConfiguration c.config → (acts : List Act) → IsHistory c me signer acts → TakesBytes acts
        → (digest : List ℕ) → (service : Service) × (outcome : Outcome)
        × IsStep (core_after c signer acts).service (request_of c (core_after c signer acts) digest) service outcome }
    ensures act { (c : Setup) (me : ℕ) (signer : SigningState) → IsConfiguration c.config → (acts : List Act) → IsHistory c me signer acts → TakesBytes acts
        → (number : ℕ) (digest : List ℕ) → due c me (core_after c signer acts) ≡ Some (Executing number digest)
        → (a : Act) × Fulfils c (core_after c signer acts) (due c me (core_after c signer acts)) a }
{}

/// No duty is stuck: at each point of a history in which messages came as lists of bytes, and whose signer
/// has used no more leaves than it has, nothing is due, or an act does what is due and has its leaves, or
/// what is due halts the replica. So it is at each point of what an input leads to behind the rows of a
/// journal, if the rows' messages and the input's came so.
pub fn a_duty_is_done_or_halts()
    ensures acts { (c : Setup) (me : ℕ) (signer : SigningState) → IsConfiguration c.config → (acts : List Act) → IsHistory c me signer acts → TakesBytes acts
        → (core_after c signer acts).signer.next_leaf ≤ leaf_count (core_after c signer acts).signer → Continues c me (core_after c signer acts) }
    ensures rows { (c : Setup) (me : ℕ) (signer : SigningState) → IsConfiguration c.config → signer.next_leaf ≤ leaf_count signer
        → (rows : List Row) (s : Core) → IsLawfulFrom c me (start_of c signer) rows s → (input : Input) → ReceivesBytes rows input
        → (first : Act) → Begins c input first → (acts : List Act) (t : Core) → Follows c me (after c s first) acts t → Continues c me t }
{}

/// A lawful journal with the next row of its core is lawful. The core that it comes to is one, and its
/// signer has used as many leaves as the rows report.
pub fn a_journal_grows()
    ensures row { (c : Setup) (me : ℕ) (s t u : Core) (rows : List Row) (row : Row) → IsLawfulFrom c me s rows t → IsNext c me t row u
        → IsLawfulFrom c me s (rows ++ row ∷ []) u }
    ensures core { (c : Setup) (me : ℕ) (s t u : Core) (rows : List Row) → IsLawfulFrom c me s rows t → IsLawfulFrom c me s rows u → t ≡ u }
    ensures leaves { (c : Setup) (me : ℕ) (s t : Core) (rows : List Row) → IsLawfulFrom c me s rows t → t.signer ≡ signer_after s.signer (leaves_in rows) }
{}

/// A Snapshot has a reading: its bytes encode a state at its number, or none.
pub fn a_snapshot_has_a_reading()
    ensures { (c : Setup) (b : Snapshot) → (reading : Option Service) × IsReadingOf c b reading }
{}

/// Behind the rows of a journal every input gives its row or halts the replica: a timeout, and every message that was
/// opened (`all`). So it is as soon as an input begins, for a Snapshot with its reading and for other messages by
/// themselves; and for no input both are impossible.
pub fn every_input_gives_a_row_or_a_halt()
    ensures all { (c : Setup) (me : ℕ) (s : Core) (input : Input) → ComesBehind c me s input → IsOpened c input → GivesRowOrHalt c me s input }
    ensures begun { (c : Setup) (me : ℕ) (s : Core) (input : Input) → ComesBehind c me s input → (first : Act) → Begins c input first → GivesRowOrHalt c me s input }
    ensures read { (c : Setup) (me : ℕ) (s : Core) (input : Input) → ComesBehind c me s input → IsOpened c input → HasReading c input → GivesRowOrHalt c me s input }
    ensures others { (c : Setup) (me : ℕ) (s : Core) (input : Input) → ComesBehind c me s input → IsOpened c input → (IsSnapshot input → ⊥) → GivesRowOrHalt c me s input }
    ensures never_neither { (c : Setup) (me : ℕ) (s : Core) (input : Input) → ComesBehind c me s input → IsOpened c input → (GivesRowOrHalt c me s input → ⊥) → ⊥ }
{}

/// Worked halts: a timeout wants a leaf of a signer that has used all 32, and a view above the last one;
/// with one leaf left it gives a row.
pub fn timeouts_halt_a_replica()
    ensures exhausted { (id secret : List ℕ) → HaltsBy toy 1 (start_of toy (record (fresh id secret) { next_leaf = 32 })) TimedOut Exhausted }
    ensures worn { (id secret : List ℕ) → HaltsBy toy 1 (record (start_of toy (record (fresh id secret) { next_leaf = 32 })) { view = 4_294_967_295 }) TimedOut Worn }
    ensures continues { (id secret : List ℕ) → Works toy 1 (start_of toy (record (fresh id secret) { next_leaf = 31 })) (timing_out id secret) }
{}

/// A worked history: a request through a backup up to its reply.
pub fn a_request_through_a_backup()
    ensures { (id secret : List ℕ) → Works serving 1 (start_of serving (fresh id secret)) (through_backup id secret) }
{}

/// A worked history: the same request through the primary, which proposes it.
pub fn a_request_through_the_primary()
    ensures { (id secret : List ℕ) → Works serving 0 (start_of serving (fresh id secret)) (through_primary id secret) }
{}

/// A worked history: a timeout, a view change whose certificate is carried into the new view, and a
/// null request in the gap.
pub fn a_view_change_at_the_next_primary()
    ensures { (id secret : List ℕ) → Works toy 1 (start_of toy (fresh id secret)) (changing_view id secret) }
{}

/// A worked history: a backup that lagged joins a view change, enters the view, prepares the null
/// request and asks for the other.
pub fn a_view_change_at_a_backup()
    ensures { (id secret : List ℕ) → Works toy 3 (start_of toy (fresh id secret)) (joining_view id secret) }
{}

/// A worked history: two null requests are executed, the number 2 becomes stable, and what it
/// discards.
pub fn a_checkpoint_at_a_backup()
    ensures works { (id secret : List ℕ) → Works toy 3 (start_of toy (fresh id secret)) (reaching_a_checkpoint id secret) }
    ensures discards { (id secret : List ℕ) → IsDiscarded (through_all toy (start_of toy (fresh id secret)) (reaching_a_checkpoint id secret)) }
{}

/// A worked history: a replica that lagged fetches a snapshot and installs it, and signs no
/// Checkpoint for it.
pub fn a_snapshot_is_installed()
    ensures { (id secret : List ℕ) (state : Service) → Works toy 3 (start_of toy (fresh id secret)) (installing id secret state) }
{}
