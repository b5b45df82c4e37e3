//! A replica commits to a prepared proposal.

use crate::body::Body;
use crate::kind::Kind;
use crate::message_body::MessageBody;
use crate::sender::Sender;
use crate::try_clone::TryClone;
use crate::writing::put_proposal;
use codec_fields::{ReadError, read_digest, read_sequence_number, read_view};
use host_types::{Digest, SeqNo, View};
use std::alloc::{AllocError, Global};

/// A replica has seen enough Prepares for a proposal.
#[derive(Clone, Copy, Debug, PartialEq, Eq)]
pub struct Commit {
    pub view: View,
    pub number: SeqNo,
    pub digest: Digest,
}

impl MessageBody for Commit {
    ghost use Rattle.pbft_codec.specs.declared.body.Body.TheVariants as bodies;
    ghost use Rattle.pbft_codec.specs.declared.kind.Kind.TheVariants as kinds;
    ghost use Rattle.pbft_codec.specs.declared.sender.Sender.TheVariants as senders;
    ghost use Rattle.pbft_codec.specs.Limits.{CommitFieldsInRange};
    ghost use Rattle.pbft_codec.specs.Layouts.{commit};
    ghost use Rattle.pbft_codec.specs.Reading.{commit_at};

    ghost kind = { kinds.Commit };

    ghost fields_at = { commit_at };

    ghost fields = { commit };

    ghost fields_in_range = { CommitFieldsInRange };

    ghost sender = { λ _. senders.Replica };

    ghost as_body = { bodies.Commit };

    fn kind() -> Kind {
        Kind::Commit
    }

    fn sender(&self) -> Sender {
        Sender::Replica
    }

    fn into_body(self) -> Body {
        Body::Commit(self)
    }

    #[tactic(auto, unfolding(crate::specs::Reading::commit_at))]
    fn read_fields(_: Global, bytes: &[u8]) -> Result<(Commit, &[u8]), ReadError> {
        let (view, rest) = read_view(bytes)?;
        let (number, rest) = read_sequence_number(rest)?;
        let (digest, rest) = read_digest(rest)?;
        Ok((
            Commit {
                view,
                number,
                digest,
            },
            rest,
        ))
    }

    fn put_fields(&self, _: Global, out: &mut Vec<u8>) -> Result<(), AllocError> {
        put_proposal(out, self.view, self.number, self.digest)
    }
}

impl TryClone for Commit {
    fn try_clone(&self, _: Global) -> Result<Commit, AllocError> {
        Ok(*self)
    }
}
