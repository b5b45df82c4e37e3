//! What rows say.

use drained_records::{Dest, Done, Input, Output, Row};
use host_types::{Digest, SeqNo};
use pbft_codec::{Body, ReplyBody};
use seal::Checked;
use std::alloc::{AllocError, Global};

/// What a primary gave out: a number, and the digest of the request that it is for.
#[derive(Clone, Copy)]
pub(crate) struct Proposal {
    pub number: SeqNo,
    pub digest: Digest,
}

/// The message that a row took, if it took one.
fn message_of(row: &Row) -> Option<&Checked> {
    match row.input() {
        Input::Message(message) => Some(message),
        Input::Timeout => None,
    }
}

/// Whether a row took this message. Bytes encode one message.
pub(crate) fn has_received(rows: &[Row], message: &Checked) -> bool {
    rows.iter().any(|row| has_taken(row, message))
}

fn has_taken(row: &Row, message: &Checked) -> bool {
    match message_of(row) {
        Some(taken) => taken.bytes() == message.bytes(),
        None => false,
    }
}

/// The requests that came, in order.
pub(crate) fn requests_in(alloc: Global, rows: &[Row]) -> Result<Vec<&Checked>, AllocError> {
    let mut requests = Vec::new(alloc);
    for row in rows {
        if let Some(request) = request_of(row) {
            requests.push(request)?;
        }
    }
    Ok(requests)
}

fn request_of(row: &Row) -> Option<&Checked> {
    let message = message_of(row)?;
    match message.body() {
        Body::Request(_) => Some(message),
        _ => None,
    }
}

/// The time of a request; 0 of anything else.
pub(crate) fn time_of(request: &Checked) -> u64 {
    match request.body() {
        Body::Request(said) => said.time,
        _ => 0,
    }
}

/// The own PrePrepares that were given.
pub(crate) fn proposals_in(alloc: Global, rows: &[Row]) -> Result<Vec<Proposal>, AllocError> {
    let mut proposals = Vec::new(alloc);
    for row in rows {
        push_proposals(&mut proposals, row.outputs())?;
    }
    Ok(proposals)
}

fn push_proposals(proposals: &mut Vec<Proposal>, outputs: &[Output]) -> Result<(), AllocError> {
    for output in outputs {
        if let Some(proposal) = proposal_in(output) {
            proposals.push(proposal)?;
        }
    }
    Ok(())
}

fn proposal_in(output: &Output) -> Option<Proposal> {
    match output.message.body() {
        Body::PrePrepare(said) if output.own => Some(Proposal {
            number: said.number,
            digest: said.digest,
        }),
        _ => None,
    }
}

/// The result with which a proposal was executed, if it was.
pub(crate) fn result_of<'a>(rows: &'a [Row], proposal: &Proposal) -> Option<&'a [u8]> {
    for row in rows {
        if let Some(result) = result_in(row.done(), proposal) {
            return Some(result);
        }
    }
    None
}

fn result_in<'a>(done: &'a [Done], proposal: &Proposal) -> Option<&'a [u8]> {
    for deed in done {
        if let Some(result) = result_by(deed, proposal) {
            return Some(result);
        }
    }
    None
}

fn result_by<'a>(deed: &'a Done, proposal: &Proposal) -> Option<&'a [u8]> {
    match deed {
        Done::Executed {
            number,
            digest,
            result,
        } if *number == proposal.number && *digest == proposal.digest => Some(result.as_slice()),
        _ => None,
    }
}

/// Whether the request of this digest was executed at a number up to this one.
pub(crate) fn has_executed(rows: &[Row], last: SeqNo, digest: &Digest) -> bool {
    rows.iter().any(|row| row.done().iter().any(|deed| executes(deed, last, digest)))
}

fn executes(deed: &Done, last: SeqNo, wanted: &Digest) -> bool {
    match deed {
        Done::Executed { number, digest, .. } => number.0 <= last.0 && digest == wanted,
        Done::Installed { .. } => false,
    }
}

/// Whether a snapshot was installed.
pub(crate) fn installs(rows: &[Row]) -> bool {
    rows.iter()
        .any(|row| row.done().iter().any(|deed| is_installation(deed)))
}

fn is_installation(deed: &Done) -> bool {
    match deed {
        Done::Installed { .. } => true,
        Done::Executed { .. } => false,
    }
}

/// Whether an own Reply to this request was given, with this number and outcome.
pub(crate) fn has_replied(rows: &[Row], request: &Checked, number: SeqNo, outcome: &[u8]) -> bool {
    rows.iter().any(|row| {
        row.outputs()
            .iter()
            .any(|output| replies(output, request, number, outcome))
    })
}

fn replies(output: &Output, request: &Checked, number: SeqNo, outcome: &[u8]) -> bool {
    match (output.to, output.message.body()) {
        (Dest::Client(to), Body::Reply(said)) => {
            output.own
                && to.0 == request.signer().1
                && is_reply_to(said, request)
                && said.number == number
                && said.result.as_slice() == outcome
        }
        _ => false,
    }
}

fn is_reply_to(said: &ReplyBody, request: &Checked) -> bool {
    said.client.0 == request.signer().1 && said.time == time_of(request)
}
