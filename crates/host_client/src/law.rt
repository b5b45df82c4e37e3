//! What a host's clients accept. The law is the contract of a function that calls another law.

ghost use Rattle.std.specs.Prelude.{List};
ghost use Rattle.host_client.specs.Calls.{CallsAreAnswered};
ghost use Rattle.replica_threads.specs.Facts.{RowFacts};
ghost use Rattle.replica_threads.specs.Hosts.{HostFacts};

use client_session::accepted_replies_are_answers;

/// What a call of a host accepts is what the service answered, on the requests which the host's journals account for, to a
/// request of the session's client and time: where at most f replicas are faulty, nobody forged a correct one's message,
/// Replies included, and no digests collided. That the request is the call's own, with its operation,
/// `answered_requests_are_the_clients` says where the client alone signs under its key.
pub fn calls_are_answered()
    ensures { (h : HostFacts) (records : List (List RowFacts)) → CallsAreAnswered h records }
{
    accepted_replies_are_answers();
}
