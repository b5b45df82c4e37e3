//! What a client accepts. Each law is the contract of a function with an empty body.

ghost use Rattle.std.specs.Prelude.{◌≡◌, ◌<◌, ℕ, [], List, Option, Some};
ghost use Rattle.host_types.specs.declared.request.Reply.{Reply};
ghost use Rattle.pbft_codec.specs.declared.body.Body.{Body};
ghost use Rattle.pbft_codec.specs.declared.body.request.RequestBody.{RequestBody};
ghost use Rattle.pbft_codec.specs.declared.signed.Signed.{Signed};
ghost use Rattle.pbft_agreement.specs.Journals.{AgreesOver, IsHonestFamily, Journals};
ghost use Rattle.pbft_model.specs.Setup.{Setup};
ghost use Rattle.client_session.specs.Accepted.{AreReal, IsAnswered, IsReplyTo, SignsAlone, after_offers};
ghost use Rattle.client_session.specs.Sessions.{SessionState, accepted_by};

/// What a client accepts is what the service answered to its request: where at most f replicas are faulty,
/// nobody forged a correct replica's message, Replies included, and no digests collided, each list of
/// requests that accounts for what the correct replicas did has at the accepted number a request of the
/// session's client and time, and the reply is the service's there.
pub fn accepted_replies_are_answers()
    ensures { (c : Setup) (j : Journals) (s : SessionState) (ms : List (Signed Body)) (reply : Reply) → IsHonestFamily c j → s.config ≡ c.config → s.answers ≡ []
        → AreReal c j ms → accepted_by (after_offers s ms) ≡ Some reply
        → IsReplyTo s reply × ((entries : List (Option (Signed RequestBody))) → AgreesOver c j entries → IsAnswered c entries reply) }
{}

/// The numbers at which a client's requests were answered rise strictly with their times.
pub fn numbers_rise_with_times()
    ensures { (c : Setup) (entries : List (Option (Signed RequestBody))) (earlier later : Reply) → IsAnswered c entries earlier → IsAnswered c entries later
        → earlier.client.0 ≡ later.client.0 → earlier.time < later.time → earlier.number.0 < later.number.0 }
{}

/// An answered request is the client's own if it alone signs under its key: its operation is what the client
/// asked for at that time.
pub fn answered_requests_are_the_clients()
    ensures { (c : Setup) (j : Journals) (entries : List (Option (Signed RequestBody))) (reply : Reply) (operation : ℕ → List ℕ)
        → AgreesOver c j entries → SignsAlone c j reply.client.0 operation → (w : IsAnswered c entries reply) → w.request.body.op ≡ operation reply.time }
{}
