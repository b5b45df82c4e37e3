//! Why a step queued nothing.

ghost use Rattle.std.specs.Prelude.{◌≡◌};
ghost use Rattle.world_trace.specs.Happenings.{cause_of, cause_of_forgery, cause_of_vote};

use host_types::{ClientId, ReplicaId};
use script_text::{ForgedMessage, Forgery, Node, QueueEdit, Step};
use world_chart::Cause;
use world_script::Stage;

/// Why a step that queues messages printed that there are none; none where it queues no messages.
pub(crate) fn cause_in(stage: &Stage, step: &Step) -> Option<Cause>
    ensures { result ≡ cause_of stage.now step.now }
{
    match step {
        Step::Request(order) => Some(Cause::Exhausted(Node::Client(order.client))),
        Step::Forge(forgery) => Some(cause_in_forgery(stage, forgery)),
        Step::Edit(QueueEdit::Raw { .. }) => Some(Cause::NoMessage),
        _ => None,
    }
}

fn cause_in_forgery(stage: &Stage, forgery: &Forgery) -> Cause
    ensures { result ≡ cause_of_forgery stage.now forgery.now.from forgery.now.message }
{
    match &forgery.message {
        ForgedMessage::Vote(vote) => cause_in_vote(stage, forgery.from, &vote.request),
        _ => Cause::Exhausted(Node::Replica(forgery.from)),
    }
}

/// Why a vote of this replica was not signed that is to name this request.
fn cause_in_vote(stage: &Stage, from: ReplicaId, request: &Option<(ClientId, u64)>) -> Cause
    ensures { result ≡ cause_of_vote stage.now from request.now }
{
    match *request {
        Some((client, time)) if !stage.has_made(client, time) => {
            Cause::NeverMade { client, time }
        }
        _ => Cause::Exhausted(Node::Replica(from)),
    }
}
