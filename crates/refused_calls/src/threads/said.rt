//! What brings replica 1 to execute two requests of different tenants together: the messages that come to it.

use crate::common::members::{CLIENT, Group};
use crate::common::signing::{sign_text, text_of};
use anyhow::{Result, anyhow};
use host_types::{Bytes, Config, Digest, SeqNo, View};
use lms_tree::Signer;
use pbft_codec::{Body, Commit, PrePrepare, Prepare, RequestBody, Role};
use seal::{VoteKind, open, request_digest};
use std::alloc::Global;
use std::sync::Arc;

/// The votes for a request, each behind the replica that gives it: it is committed at the last.
const VOTES: [(u8, VoteKind); 4] = [
    (0, VoteKind::PrePrepare),
    (2, VoteKind::Prepare),
    (0, VoteKind::Commit),
    (2, VoteKind::Commit),
];

/// The operation that installs two instructions: `mov64 r0, 7` and `exit`.
const INSTALLATION: [u8; 17] = [1, 0xb7, 0, 0, 0, 7, 0, 0, 0, 0x95, 0, 0, 0, 0, 0, 0, 0];

/// The bytes of the second client's request, at number 2, and of the first client's, at number 1, each with the
/// votes for it behind it. With the last of them both numbers are committed.
pub(crate) fn messages(alloc: Global, group: &mut Group) -> Result<Vec<Vec<u8>>> {
    let mut messages = Vec::new(alloc);
    for (index, number) in [(1, SeqNo(2)), (0, SeqNo(1))] {
        put_request(alloc, group, &mut messages, index, number)?;
    }
    Ok(messages)
}

/// Puts the request of the client with this index at the end, and the votes for it.
fn put_request(
    alloc: Global,
    group: &mut Group,
    messages: &mut Vec<Vec<u8>>,
    index: u8,
    number: SeqNo,
) -> Result<()> {
    let request = request(alloc, &mut group.clients, index)?;
    let digest = digest_of(alloc, &group.config, &request)?;
    messages.push(request)?;
    for (id, kind) in VOTES {
        let body = vote(kind, number, digest);
        messages.push(say(alloc, &mut group.replicas, id, body)?)?;
    }
    Ok(())
}

fn request(alloc: Global, clients: &mut [Signer], index: u8) -> Result<Vec<u8>> {
    let Some(signer) = clients.get_mut(usize::from(index)) else {
        return Err(anyhow!("there is no such client"));
    };
    let text = request_text(alloc, CLIENT.0.saturating_add(u32::from(index)))?;
    sign_text(alloc, signer, &text)
}

/// What a client signs that installs.
fn request_text(alloc: Global, id: u32) -> Result<Vec<u8>> {
    let op = Bytes::from_vec(INSTALLATION.to_vec(alloc)?);
    let body = Body::Request(RequestBody { time: 1, op });
    Ok(text_of(alloc, Role::Client, id, body)?)
}

fn digest_of(alloc: Global, config: &Arc<Config>, request: &[u8]) -> Result<Digest> {
    let opened = open(alloc, config, request)?;
    Ok(request_digest(&opened))
}

/// The bytes of a replica's message with this body.
fn say(alloc: Global, replicas: &mut [Signer], id: u8, body: Body) -> Result<Vec<u8>> {
    let text = text_of(alloc, Role::Replica, u32::from(id), body)?;
    let Some(signer) = replicas.get_mut(usize::from(id)) else {
        return Err(anyhow!("there is no such replica"));
    };
    sign_text(alloc, signer, &text)
}

/// A vote in view 0.
fn vote(kind: VoteKind, number: SeqNo, digest: Digest) -> Body {
    let view = View(0);
    match kind {
        VoteKind::PrePrepare => Body::PrePrepare(PrePrepare {
            view,
            number,
            digest,
        }),
        VoteKind::Prepare => Body::Prepare(Prepare {
            view,
            number,
            digest,
        }),
        VoteKind::Commit => Body::Commit(Commit {
            view,
            number,
            digest,
        }),
    }
}
