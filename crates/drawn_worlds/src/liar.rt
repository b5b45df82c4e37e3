//! A faulty replica's lies.

use anyhow::Result;
use host_types::{Bytes, Config, Digest, ReplicaId, SeqNo};
use lms_tree::Signer;
use pbft_codec::{
    Body, Checkpoint, Commit, PrePrepare, Prepare, ReplyBody, Role, Signed, signed_bytes,
};
use seal::{Checked, open};
use std::alloc::{AllocError, Global};
use std::sync::Arc;

/// The bytes of what is signed before the body: role and id.
const SENDER: usize = 5;

/// In what a lie differs from the message that it stands in for.
#[derive(Clone, Copy)]
pub(crate) enum Twist {
    /// It names this digest. A Reply then has this result.
    Digest(Digest),
    /// It speaks of the next number.
    Number,
}

impl Twist {
    /// The number and the digest in place of these.
    fn applied(self, number: SeqNo, digest: Digest) -> (SeqNo, Digest) {
        match self {
            Twist::Digest(other) => (number, other),
            Twist::Number => (SeqNo(number.0.saturating_add(1)), digest),
        }
    }

    /// The result in place of another.
    fn result(self, alloc: Global) -> Result<Bytes, AllocError> {
        let bytes = match self {
            Twist::Digest(other) => other.0,
            Twist::Number => [0; 32],
        };
        Ok(Bytes::from_vec(bytes.to_vec(alloc)?))
    }
}

/// A second signer of a faulty replica's key.
#[derive(Drop)]
pub(crate) struct Liar {
    alloc: Global,
    config: Arc<Config>,
    id: ReplicaId,
    signer: Signer,
}

impl Liar {
    /// One that signs by this signer, whose key the configuration lists for the replica.
    pub(crate) fn new(
        alloc: Global,
        config: &Arc<Config>,
        id: ReplicaId,
        signer: Signer,
    ) -> Result<Liar> {
        let config = Arc::try_clone(config)?;
        Ok(Liar {
            alloc,
            config,
            id,
            signer,
        })
    }

    /// The replica that it is.
    pub(crate) fn id(&self) -> ReplicaId {
        self.id
    }

    /// What it says in place of a message; none where it knows no lie, can't sign it or has no leaf left.
    pub(crate) fn lie(&mut self, message: &Checked, twist: Twist) -> Result<Option<Checked>> {
        let own = (Role::Replica, u32::from(self.id.0));
        if message.signer() != own || self.signer.leaves_left() == 0 {
            return Ok(None);
        }
        let Some(body) = twisted(self.alloc, message.body(), twist)? else {
            return Ok(None);
        };
        Ok(Some(self.signed(body)?))
    }

    fn signed(&mut self, body: Body) -> Result<Checked> {
        let text = text_of(self.alloc, self.id, body)?;
        let sig = self.signer.sign(&text)?;
        let bytes = bytes_of(self.alloc, &text, &sig)?;
        Ok(open(self.alloc, &self.config, &bytes)?)
    }
}

/// What is signed of a message with this body.
fn text_of(alloc: Global, id: ReplicaId, body: Body) -> Result<Vec<u8>> {
    let unsigned = Signed {
        role: Role::Replica,
        id: u32::from(id.0),
        body,
        sig: Bytes::from_vec(Vec::new(alloc)),
    };
    Ok(signed_bytes(alloc, &unsigned)?)
}

/// The encoding of the message of which this is signed, with this signature.
fn bytes_of(alloc: Global, text: &[u8], sig: &[u8]) -> Result<Vec<u8>> {
    let (sender, body) = text.split_at(text.len().min(SENDER));
    let mut bytes = sender.to_vec(alloc)?;
    put_length_prefixed(&mut bytes, body)?;
    put_length_prefixed(&mut bytes, sig)?;
    Ok(bytes)
}

fn put_length_prefixed(out: &mut Vec<u8>, bytes: &[u8]) -> Result<()> {
    let length = u32::try_from(bytes.len())?;
    out.extend_from_slice(&length.to_be_bytes())?;
    out.extend_from_slice(bytes)?;
    Ok(())
}

/// A body that differs from this one, if it is of a kind that is lied about.
fn twisted(alloc: Global, body: &Body, twist: Twist) -> Result<Option<Body>, AllocError> {
    Ok(match body {
        Body::PrePrepare(said) => Some(Body::PrePrepare(twisted_pre_prepare(said, twist))),
        Body::Prepare(said) => Some(Body::Prepare(twisted_prepare(said, twist))),
        Body::Commit(said) => Some(Body::Commit(twisted_commit(said, twist))),
        Body::Checkpoint(said) => Some(Body::Checkpoint(twisted_checkpoint(said, twist))),
        Body::Reply(said) => Some(Body::Reply(twisted_reply(alloc, said, twist)?)),
        _ => None,
    })
}

fn twisted_pre_prepare(said: &PrePrepare, twist: Twist) -> PrePrepare {
    let (number, digest) = twist.applied(said.number, said.digest);
    let view = said.view;
    PrePrepare {
        view,
        number,
        digest,
    }
}

fn twisted_prepare(said: &Prepare, twist: Twist) -> Prepare {
    let (number, digest) = twist.applied(said.number, said.digest);
    let view = said.view;
    Prepare {
        view,
        number,
        digest,
    }
}

fn twisted_commit(said: &Commit, twist: Twist) -> Commit {
    let (number, digest) = twist.applied(said.number, said.digest);
    let view = said.view;
    Commit {
        view,
        number,
        digest,
    }
}

fn twisted_checkpoint(said: &Checkpoint, twist: Twist) -> Checkpoint {
    let (number, digest) = twist.applied(said.number, said.digest);
    Checkpoint { number, digest }
}

fn twisted_reply(alloc: Global, said: &ReplyBody, twist: Twist) -> Result<ReplyBody, AllocError> {
    Ok(ReplyBody {
        view: said.view,
        client: said.client,
        time: said.time,
        number: said.number,
        result: twist.result(alloc)?,
    })
}
