//! The layout of each kind: a body in hex whose fields all differ, and what is read from it.

use hex::decode as bytes_of;
use host_types::{ClientId, Digest, SeqNo, View};
use pbft_codec::{
    Body, Certificate, Checkpoint, Commit, Fetch, NewView, PrePrepare, Prepare, ReplyBody,
    RequestBody, Role, Signed, Snapshot, ViewChange, decode,
};
use std::alloc::Global;
use std::test::Fail;

const VIEW: View = View(0x01020304);

const NUMBER: SeqNo = SeqNo(0x060708090a0b);

const DIGEST: Digest = Digest([
    0, 1, 2, 3, 4, 5, 6, 7, 8, 9, 10, 11, 12, 13, 14, 15, 16, 17, 18, 19, 20, 21, 22, 23, 24, 25,
    26, 27, 28, 29, 30, 31,
]);

const PRE_PREPARE: PrePrepare = PrePrepare {
    view: VIEW,
    number: NUMBER,
    digest: DIGEST,
};

const PREPARE: Prepare = Prepare {
    view: VIEW,
    number: NUMBER,
    digest: DIGEST,
};

const COMMIT: Commit = Commit {
    view: VIEW,
    number: NUMBER,
    digest: DIGEST,
};

const CHECKPOINT: Checkpoint = Checkpoint {
    number: NUMBER,
    digest: DIGEST,
};

fn is_proposal(message: &Signed<PrePrepare>, id: u32) -> bool {
    message.id == id && message.body == PRE_PREPARE
}

fn is_certificate(certificate: &Certificate) -> bool {
    match certificate.prepares.as_slice() {
        [prepare] => {
            is_proposal(&certificate.pre_prepare, 6) && prepare.id == 7 && prepare.body == PREPARE
        }
        _ => false,
    }
}

fn is_signed_checkpoint(message: &Signed<Checkpoint>) -> bool {
    message.id == 5 && message.body == CHECKPOINT && message.sig.as_slice() == [0xcc].as_slice()
}

fn is_view_change(change: &ViewChange) -> bool {
    match (
        change.checkpoints.as_slice(),
        change.certificates.as_slice(),
    ) {
        ([checkpoint], [certificate]) => {
            change.view == VIEW
                && change.low == NUMBER
                && is_signed_checkpoint(checkpoint)
                && is_certificate(certificate)
        }
        _ => false,
    }
}

fn is_new_view(entry: &NewView) -> bool {
    match (entry.changes.as_slice(), entry.pre_prepares.as_slice()) {
        ([change], [proposal]) => {
            entry.view == VIEW
                && change.id == 8
                && is_view_change(&change.body)
                && is_proposal(proposal, 9)
                && proposal.sig.as_slice() == [0xee].as_slice()
        }
        _ => false,
    }
}

/// A body of each layout in hex, whose fields all differ; the new view holds the view change, and that the other
/// two kinds of body.
const BODIES: &str = "\
010102030405060708000000026162\n\
02010203040000060708090a0b000102030405060708090a0b0c0d0e0f101112131415161718191a1b1c1d1e1f\n\
03010203040000060708090a0b000102030405060708090a0b0c0d0e0f101112131415161718191a1b1c1d1e1f\n\
04010203040000060708090a0b000102030405060708090a0b0c0d0e0f101112131415161718191a1b1c1d1e1f\n\
0501020304111213142122232425262728000031323334353600000001ff\n\
060000060708090a0b000102030405060708090a0b0c0d0e0f101112131415161718191a1b1c1d1e1f\n\
0a0000060708090a0b00000002abcd\n\
0801020304000000010100000008000000c407010203040000060708090a0b0000000101000000050000002906000006\
0708090a0b000102030405060708090a0b0c0d0e0f101112131415161718191a1b1c1d1e1f00000001cc000000010100\
0000060000002d02010203040000060708090a0b000102030405060708090a0b0c0d0e0f101112131415161718191a1b\
1c1d1e1f000000000000000101000000070000002d03010203040000060708090a0b000102030405060708090a0b0c0d\
0e0f101112131415161718191a1b1c1d1e1f0000000000000001dd0000000101000000090000002d0201020304000006\
0708090a0b000102030405060708090a0b0c0d0e0f101112131415161718191a1b1c1d1e1f00000001ee\n\
0901000102030405060708090a0b0c0d0e0f101112131415161718191a1b1c1d1e1f\n\
09020000060708090a0b\n\
";

/// The body in a message of replica 0x01020304 with the signature aa.
fn message_of(alloc: Global, hex: &str) -> Result<Signed, Fail> {
    let body = bytes_of(alloc, hex)?;
    let length = u32::try_from(body.len())?;
    let mut bytes = Vec::new(alloc);
    bytes.extend_from_slice(&[1, 1, 2, 3, 4])?;
    bytes.extend_from_slice(&length.to_be_bytes())?;
    bytes.extend_from_slice(&body)?;
    bytes.extend_from_slice(&[0, 0, 0, 1, 0xaa])?;
    Ok(decode(alloc, &bytes)?)
}

fn is_signed(message: &Signed) -> bool {
    message.role == Role::Replica
        && message.id == 0x01020304
        && message.sig.as_slice() == [0xaa].as_slice()
}

fn is_request(request: &RequestBody) -> bool {
    request.time == 0x0102030405060708 && request.op.as_slice() == b"ab".as_slice()
}

fn is_reply(reply: &ReplyBody) -> bool {
    reply.view == VIEW
        && reply.client == ClientId(0x11121314)
        && reply.time == 0x2122232425262728
        && reply.number == SeqNo(0x313233343536)
        && reply.result.as_slice() == [0xff].as_slice()
}

fn is_snapshot(snapshot: &Snapshot) -> bool {
    snapshot.number == NUMBER && snapshot.state.as_slice() == [0xab, 0xcd].as_slice()
}

/// Whether a body has the fields of its layout.
fn is_laid_out(body: &Body) -> bool {
    match body {
        Body::Request(request) => is_request(request),
        Body::PrePrepare(vote) => *vote == PRE_PREPARE,
        Body::Prepare(vote) => *vote == PREPARE,
        Body::Commit(vote) => *vote == COMMIT,
        Body::Reply(reply) => is_reply(reply),
        Body::Checkpoint(vote) => *vote == CHECKPOINT,
        Body::ViewChange(_) => false,
        Body::NewView(entry) => is_new_view(entry),
        Body::Fetch(fetch) => *fetch == Fetch::Request(DIGEST) || *fetch == Fetch::State(NUMBER),
        Body::Snapshot(snapshot) => is_snapshot(snapshot),
    }
}

/// The kind of a body.
pub(crate) fn kind(body: &Body) -> u8 {
    match body {
        Body::Request(_) => 1,
        Body::PrePrepare(_) => 2,
        Body::Prepare(_) => 3,
        Body::Commit(_) => 4,
        Body::Reply(_) => 5,
        Body::Checkpoint(_) => 6,
        Body::ViewChange(_) => 7,
        Body::NewView(_) => 8,
        Body::Fetch(_) => 9,
        Body::Snapshot(_) => 10,
    }
}

/// Whether the message of a line has each field at its place.
fn has_its_places(alloc: Global, line: &str) -> Result<bool, Fail> {
    let first = bytes_of(alloc, line)?.first().copied().unwrap_or(0);
    let message = message_of(alloc, line)?;
    Ok(is_signed(&message) && is_laid_out(&message.body) && kind(&message.body) == first)
}

#[test]
fn each_field_has_its_place(rt: HostRuntime) -> Result<(), Fail> {
    for line in BODIES.lines() {
        assert!(rt; has_its_places(rt.alloc(), line)?, "{line}");
    }
    Ok(())
}
