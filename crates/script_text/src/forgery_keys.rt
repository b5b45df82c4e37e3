//! The keys of a message that a faulty replica signs.

ghost use Rattle.std.specs.Prelude.{◌≡◌, ℕ, List, Option, Result, map};
ghost use Rattle.host_types.specs.declared.ClientId.{ClientId};
ghost use Rattle.host_types.specs.declared.SeqNo.{SeqNo};
ghost use Rattle.toml.specs.View.{table_view};
ghost use Rattle.script_values.specs.declared.fault.TableFault.{TableFault};
ghost use Rattle.script_text.specs.declared.script.ForgedMessage.{ForgedMessage as ForgedMessageSaid};
ghost use Rattle.script_values.specs.Faults.{IsUnlessMemory};
ghost use Rattle.script_text.specs.Steps.{Route as RouteSaid, checkpoint_in, forged_vote_in, forgery_from, forgery_in, forgery_with, named_in, null_in, route_in, view_change_in, vote_for, vote_from, vote_of};

use crate::script::{ForgedMessage, ForgedVote, Forgery};
use crate::step_keys::Names;
use host_types::{ClientId, ReplicaId, View};
use pbft_codec::Sequence;
use script_values::{
    ClientName, DigestDigits, FaultyIndex, ForgedKind, ForgedKindName, ListOf, MAX_INTEGER, Node,
    NodeName, Number, SequenceNumber, TableFault, True, UpTo, Word, needed, pair, value_at,
    with_only,
};
use seal::VoteKind;
use std::alloc::Global;
use toml::Table;

const VOTE_KEYS: [&str; 9] = [
    "do", "from", "to", "kind", "view", "number", "client", "time", "as",
];

const NULL_VOTE_KEYS: [&str; 8] = ["do", "from", "to", "kind", "view", "number", "null", "as"];

const CHECKPOINT_KEYS: [&str; 7] = ["do", "from", "to", "kind", "number", "digest", "as"];

const VIEW_CHANGE_KEYS: [&str; 6] = ["do", "from", "to", "kind", "view", "as"];

/// Who signs a message, and for whom it is queued.
type Route = (ReplicaId, Sequence<Node>);

/// A message of a faulty replica. Where its kind isn't known, whose it is and for whom is judged, and none
/// of its other keys.
pub(crate) fn read_forgery(
    alloc: Global,
    names: &Names<'_>,
    table: &Table,
) -> Result<Forgery, TableFault>
    ensures { IsUnlessMemory result (forgery_in names.now.count names.now.faulty.now names.now.clients.now (table_view table.now)) }
{
    match needed(alloc, table, "kind", &ForgedKindName) {
        Ok(ForgedKind::Vote(kind)) => read_vote(alloc, names, table, kind),
        Ok(ForgedKind::Checkpoint) => {
            let message = read_checkpoint(alloc, table);
            read_message(alloc, names, table, message, &CHECKPOINT_KEYS)
        }
        Ok(ForgedKind::ViewChange) => {
            let message = read_view_change(alloc, table);
            read_message(alloc, names, table, message, &VIEW_CHANGE_KEYS)
        }
        Err(fault) => as_forgery(pair(Err(fault), read_route(alloc, names, table))),
    }
}

/// What is forged, in a table of these keys.
fn read_message(
    alloc: Global,
    names: &Names<'_>,
    table: &Table,
    message: Result<ForgedMessage, TableFault>,
    keys: &[&str],
) -> Result<Forgery, TableFault>
    ensures { (m : Result ForgedMessageSaid TableFault) → IsUnlessMemory message m → IsUnlessMemory result (forgery_with m (map (λ k. k.now) keys.now) names.now.count names.now.faulty.now names.now.clients.now (table_view table.now)) }
{
    let named = pair(message, read_route(alloc, names, table));
    as_forgery(with_only(named, table, keys))
}

/// What was read of a forged message, as one.
fn as_forgery(read: Result<(ForgedMessage, Route), TableFault>) -> Result<Forgery, TableFault>
    ensures { (r : Result (ForgedMessageSaid × RouteSaid) TableFault) → IsUnlessMemory read r → IsUnlessMemory result (forgery_from r) }
{
    match read {
        Ok((message, (from, to))) => Ok(Forgery { from, to, message }),
        Err(fault) => Err(fault),
    }
}

/// A vote, for the null request or for a client's request.
fn read_vote(
    alloc: Global,
    names: &Names<'_>,
    table: &Table,
    kind: VoteKind,
) -> Result<Forgery, TableFault>
    ensures { IsUnlessMemory result (forged_vote_in kind names.now.count names.now.faulty.now names.now.clients.now (table_view table.now)) }
{
    if value_at(table, "null").is_some() {
        let vote = read_vote_for(alloc, table, kind, read_null(alloc, table));
        read_message(alloc, names, table, vote, &NULL_VOTE_KEYS)
    } else {
        let vote = read_vote_for(alloc, table, kind, read_named(alloc, names, table));
        read_message(alloc, names, table, vote, &VOTE_KEYS)
    }
}

/// A vote for this request.
fn read_vote_for(
    alloc: Global,
    table: &Table,
    kind: VoteKind,
    request: Result<Option<(ClientId, u64)>, TableFault>,
) -> Result<ForgedMessage, TableFault>
    ensures { (r : Result (Option (ClientId × ℕ)) TableFault) → IsUnlessMemory request r → IsUnlessMemory result (vote_for kind r (table_view table.now)) }
{
    let named = pair(
        request,
        pair(
            needed(alloc, table, "view", &Word),
            needed(alloc, table, "number", &SequenceNumber),
        ),
    );
    as_vote(kind, named)
}

/// What was read of a vote, as one.
fn as_vote(
    kind: VoteKind,
    read: Result<(Option<(ClientId, u64)>, (u32, Number)), TableFault>,
) -> Result<ForgedMessage, TableFault>
    ensures { (r : Result (Option (ClientId × ℕ) × (ℕ × SeqNo)) TableFault) → IsUnlessMemory read r → IsUnlessMemory result (vote_from kind r) }
{
    match read {
        Ok((request, (view, number))) => Ok(ForgedMessage::Vote(ForgedVote {
            kind,
            view: View(view),
            number,
            request,
        })),
        Err(fault) => Err(fault),
    }
}

/// A Checkpoint of a number and a digest.
fn read_checkpoint(alloc: Global, table: &Table) -> Result<ForgedMessage, TableFault>
    ensures { IsUnlessMemory result (checkpoint_in (table_view table.now)) }
{
    let (number, digest) = pair(
        needed(alloc, table, "number", &SequenceNumber),
        needed(alloc, table, "digest", &DigestDigits),
    )?;
    Ok(ForgedMessage::Checkpoint { number, digest })
}

/// A ViewChange for a view.
fn read_view_change(alloc: Global, table: &Table) -> Result<ForgedMessage, TableFault>
    ensures { IsUnlessMemory result (view_change_in (table_view table.now)) }
{
    let view = needed(alloc, table, "view", &Word)?;
    Ok(ForgedMessage::ViewChange(View(view)))
}

/// The null request.
fn read_null(alloc: Global, table: &Table) -> Result<Option<(ClientId, u64)>, TableFault>
    ensures { IsUnlessMemory result (null_in (table_view table.now)) }
{
    needed(alloc, table, "null", &True)?;
    Ok(None)
}

/// A client's request, by its time.
fn read_named(
    alloc: Global,
    names: &Names<'_>,
    table: &Table,
) -> Result<Option<(ClientId, u64)>, TableFault>
    ensures { IsUnlessMemory result (named_in names.now.clients.now (table_view table.now)) }
{
    let client = ClientName {
        clients: names.clients,
    };
    let request = pair(
        needed(alloc, table, "client", &client),
        needed(alloc, table, "time", &UpTo(MAX_INTEGER)),
    )?;
    Ok(Some(request))
}

/// Who signs, and for whom it is queued.
fn read_route(alloc: Global, names: &Names<'_>, table: &Table) -> Result<Route, TableFault>
    ensures { IsUnlessMemory result (route_in names.now.count names.now.faulty.now names.now.clients.now (table_view table.now)) }
{
    let nodes = ListOf(NodeName {
        count: names.count,
        clients: names.clients,
    });
    let signer = FaultyIndex {
        faulty: names.faulty,
    };
    pair(
        needed(alloc, table, "from", &signer),
        needed(alloc, table, "to", &nodes),
    )
}
