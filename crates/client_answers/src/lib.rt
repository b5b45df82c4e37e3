//! Clients' answers (Castro and Liskov, OSDI 1999, section 4.1) over journals: who executes a request replies to it, Replies of more
//! replicas than may be faulty make a session accept, and so a timely first view answers its clients. There is no code here; each law
//! is the contract of a function with an empty body, or of one that calls another law.
#![tactic(auto)]

ghost use Rattle.std.specs.Prelude.{◌≡◌, ◌⊎◌, ℕ, List, [], Some, None, true, false, is_some};
ghost use Rattle.sha2.specs.Sha256.{sha256};
ghost use Rattle.service_model.specs.Steps.{reply_to};
ghost use Rattle.pbft_answers.specs.Words.{Signed, Body, RequestBody, Reply, SigningState};
ghost use Rattle.pbft_answers.specs.Sequential.{last_reply_of};
ghost use Rattle.pbft_answers.specs.Setup.{Setup, request_in};
ghost use Rattle.pbft_answers.specs.Certificates.{Fields};
ghost use Rattle.pbft_answers.specs.Core.{Core, start_of, request_of, is_new};
ghost use Rattle.pbft_answers.specs.Rows.{Row, Executed, IsNext, IsLawfulFrom};
ghost use Rattle.pbft_answers.specs.Histories.{IsIn};
ghost use Rattle.pbft_answers.specs.Families.{IsCorrect};
ghost use Rattle.pbft_answers.specs.Example.{the_setup, the_digest, a_request};
ghost use Rattle.pbft_answers.specs.Worked.{the_reply};
ghost use Rattle.pbft_answers.specs.Progress.{IsDrained, Enough};
ghost use Rattle.pbft_answers.specs.Early.{IsTimely};
ghost use Rattle.pbft_answers.specs.Answered.{the_answered};
ghost use Rattle.client_session.specs.Accepted.{AreReal, IsReplyTo, after_offers};
ghost use Rattle.client_session.specs.Journals.{Journals, HasDone, IsHonestFamily};
ghost use Rattle.client_session.specs.Sessions.{SessionState, accepted_by};
ghost use Rattle.client_answers.specs.Replies.{IsExecuted, GivesReply, EnoughSay, HasAsked, HearsAll, IsGivenOut, IsNewest, answer_at};
ghost use Rattle.client_answers.specs.Heard.{the_session, the_messages};

use client_session::accepted_replies_are_answers;

/// Who executes a request replies to it: each execution that a row reports is an act's within it (`executed`); where the service's
/// outcome has a reply, the row gives it, in the view that the replica is in then, to the client whom it names (`given`). In a lawful
/// journal, where the request is new to the service, that is a Reply with this number, the request's time and this result (`new`);
/// the outcome of one that is not new has the client's last reply, or none (`old`).
pub fn an_execution_gives_its_reply()
    ensures executed { (c : Setup) (me : ℕ) (s : Core) (row : Row) (t : Core) → IsNext c me s row t → (number : ℕ) (digest result : List ℕ) → IsIn (Executed number digest result) row.done
        → IsExecuted c me s row number digest result }
    ensures given { (c : Setup) (me : ℕ) (s : Core) (row : Row) (number : ℕ) (digest result : List ℕ) (execution : IsExecuted c me s row number digest result)
        → (reply : Reply) → execution.outcome.reply ≡ Some reply → GivesReply me execution.from.view reply row.outputs }
    ensures new { (c : Setup) (me : ℕ) (signer : SigningState) (rows : List Row) (s : Core) → IsLawfulFrom c me (start_of c signer) rows s
        → (row : Row) (number : ℕ) (digest result : List ℕ) (execution : IsExecuted c me s row number digest result)
        → (m : Signed RequestBody) → request_of c execution.from digest ≡ Some (request_in m) → is_new execution.from.service m ≡ true
        → GivesReply me execution.from.view (reply_to (request_in m) number result) row.outputs }
    ensures old { (c : Setup) (me : ℕ) (signer : SigningState) (rows : List Row) (s : Core) → IsLawfulFrom c me (start_of c signer) rows s
        → (row : Row) (number : ℕ) (digest result : List ℕ) (execution : IsExecuted c me s row number digest result)
        → (m : Signed RequestBody) → request_of c execution.from digest ≡ Some (request_in m) → is_new execution.from.service m ≡ false
        → (execution.outcome.reply ≡ None) ⊎ (execution.outcome.reply ≡ last_reply_of execution.from.service m.id) }
{}

/// A session with an open request that was offered, among whatever else and in whatever order, Replies to it with one number and one
/// result of more replicas than may be faulty accepts a reply (`accepts`); and it accepts once: what is offered later changes nothing
/// (`once`). Where nobody forged, what it accepts is what the service answered (`client_session::accepted_replies_are_answers`).
pub fn enough_replies_are_accepted()
    ensures accepts { (s : SessionState) (ms : List (Signed Body)) (reply : Reply) → is_some s.request ≡ true → IsReplyTo s reply → EnoughSay s ms reply
        → (accepted : Reply) × (accepted_by (after_offers s ms) ≡ Some accepted) }
    ensures once { (s : SessionState) (ms : List (Signed Body)) (accepted : Reply) → accepted_by s ≡ Some accepted → after_offers s ms ≡ s }
{}

/// A timely first view answers its clients, **for any number**. The premises are those of `a_timely_view_is_answered`: at most f
/// replicas are faulty, nobody forged a correct one's message and no digests collided; what correct replicas gave each other has
/// come; they all stand in view 0, whose primary is correct, none of their votes came early to one, as none does where no number is
/// above 2k, and clients asked it with rising times, and all. A request that it gave out (`IsGivenOut`) is new wherever it is
/// executed, so that each correct replica that executes it replies to it (`replies`). Where it is a session's open request
/// (`HasAsked`), and the session was offered what correct replicas gave for its client (`HearsAll`: its links are intact), among
/// whatever else and in whatever order, the session accepts a reply (`accepts`). If it began with no answers, and nobody forged a
/// Reply either, it accepts the number at which more correct replicas than may be faulty executed the request, and their result
/// (`answer`). The primary gave out a client's newest request that it received, where it has room (`newest`). Whatever the faulty
/// ones said, and whatever else was lost.
pub fn a_timely_view_answers_its_clients()
    ensures replies { (c : Setup) (journals : Journals) → IsHonestFamily c journals → IsTimely c journals
        → (x : Fields) (m : Signed RequestBody) → IsGivenOut c journals x m
        → (i : ℕ) → IsCorrect c journals.faulty i → (result : List ℕ) → HasDone (Executed x.number x.digest result) (journals.rows i)
        → (row : Row) × (view : ℕ) × IsIn row (journals.rows i) × GivesReply i view (reply_to (request_in m) x.number result) row.outputs }
    ensures accepts { (c : Setup) (journals : Journals) → IsHonestFamily c journals → IsDrained c journals → IsTimely c journals
        → (x : Fields) (m : Signed RequestBody) → IsGivenOut c journals x m
        → (s : SessionState) (ms : List (Signed Body)) → HasAsked c s m → HearsAll c journals s.client.0 ms
        → (accepted : Reply) × (accepted_by (after_offers s ms) ≡ Some accepted) }
    ensures answer { (c : Setup) (journals : Journals) → IsHonestFamily c journals → IsDrained c journals → IsTimely c journals
        → (x : Fields) (m : Signed RequestBody) → IsGivenOut c journals x m
        → (s : SessionState) (ms : List (Signed Body)) → HasAsked c s m → HearsAll c journals s.client.0 ms → s.answers ≡ [] → AreReal c journals ms
        → (result : List ℕ) × Enough c journals (λ i. HasDone (Executed x.number x.digest result) (journals.rows i))
        × (accepted_by (after_offers s ms) ≡ Some (answer_at s x.number result)) }
    ensures newest { (c : Setup) (journals : Journals) → IsHonestFamily c journals → IsTimely c journals
        → (m : Signed RequestBody) → IsNewest c journals m → (x : Fields) × IsGivenOut c journals x m }
{
    accepted_replies_are_answers();
}

/// The session of the client in the worked family (`a_drained_family_executes`) under SHA-256, whatever the signers' secrets are: the primary
/// gave out its request, it hears a lie of the faulty replica and then the Replies of the three correct ones, nobody forged, and it
/// accepts their reply. So the premises of these laws can hold.
pub fn a_client_is_answered()
    ensures given_out { (secrets : ℕ → List ℕ) → IsGivenOut (the_setup sha256 secrets) (the_answered sha256 secrets) (record { view = 0; number = 1; digest = the_digest }) (a_request secrets) }
    ensures newest { (secrets : ℕ → List ℕ) → IsNewest (the_setup sha256 secrets) (the_answered sha256 secrets) (a_request secrets) }
    ensures asks { (secrets : ℕ → List ℕ) → HasAsked (the_setup sha256 secrets) (the_session secrets) (a_request secrets) }
    ensures hears { (secrets : ℕ → List ℕ) → HearsAll (the_setup sha256 secrets) (the_answered sha256 secrets) 100 (the_messages secrets) }
    ensures fresh { (secrets : ℕ → List ℕ) → (the_session secrets).answers ≡ [] }
    ensures real { (secrets : ℕ → List ℕ) → AreReal (the_setup sha256 secrets) (the_answered sha256 secrets) (the_messages secrets) }
    ensures accepts { (secrets : ℕ → List ℕ) → accepted_by (after_offers (the_session secrets) (the_messages secrets)) ≡ Some the_reply }
{}
