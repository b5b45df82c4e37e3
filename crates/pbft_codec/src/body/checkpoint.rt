//! A replica's state after a sequence number, by its digest.

use crate::body::Body;
use crate::codec::Codec;
use crate::kind::Kind;
use crate::message_body::{MessageBody, put_body, read_body};
use crate::sender::Sender;
use crate::try_clone::TryClone;
use crate::writing::{put_digest, put_u64};
use codec_fields::{ReadError, read_digest, read_sequence_number};
use host_types::{Digest, SeqNo};
use std::alloc::{AllocError, Global};

/// The digest of a replica's state after a number.
#[derive(Clone, Copy, Debug, PartialEq, Eq)]
pub struct Checkpoint {
    pub number: SeqNo,
    pub digest: Digest,
}

impl MessageBody for Checkpoint {
    ghost use Rattle.pbft_codec.specs.declared.body.Body.TheVariants as bodies;
    ghost use Rattle.pbft_codec.specs.declared.kind.Kind.TheVariants as kinds;
    ghost use Rattle.pbft_codec.specs.declared.sender.Sender.TheVariants as senders;
    ghost use Rattle.pbft_codec.specs.Limits.{CheckpointFieldsInRange};
    ghost use Rattle.pbft_codec.specs.Layouts.{checkpoint};
    ghost use Rattle.pbft_codec.specs.Reading.{checkpoint_at};

    ghost kind = { kinds.Checkpoint };

    ghost fields_at = { checkpoint_at };

    ghost fields = { checkpoint };

    ghost fields_in_range = { CheckpointFieldsInRange };

    ghost sender = { λ _. senders.Replica };

    ghost as_body = { bodies.Checkpoint };

    fn kind() -> Kind {
        Kind::Checkpoint
    }

    fn sender(&self) -> Sender {
        Sender::Replica
    }

    fn into_body(self) -> Body {
        Body::Checkpoint(self)
    }

    #[tactic(auto, unfolding(crate::specs::Reading::checkpoint_at))]
    fn read_fields(_: Global, bytes: &[u8]) -> Result<(Checkpoint, &[u8]), ReadError> {
        let (number, rest) = read_sequence_number(bytes)?;
        let (digest, rest) = read_digest(rest)?;
        Ok((Checkpoint { number, digest }, rest))
    }

    #[tactic(auto, unfolding(crate::specs::Layouts::checkpoint))]
    fn put_fields(&self, _: Global, out: &mut Vec<u8>) -> Result<(), AllocError> {
        put_u64(out, self.number.0)?;
        put_digest(out, self.digest)
    }
}

impl TryClone for Checkpoint {
    fn try_clone(&self, _: Global) -> Result<Checkpoint, AllocError> {
        Ok(*self)
    }
}

impl Codec for Checkpoint {
    ghost use Rattle.pbft_codec.specs.declared.kind.Kind.TheVariants as kinds;
    ghost use Rattle.pbft_codec.specs.Layouts.{of_kind, checkpoint};
    ghost use Rattle.pbft_codec.specs.Limits.{CheckpointFieldsInRange};
    ghost use Rattle.pbft_codec.specs.Reading.{kind_at, checkpoint_at};

    ghost reading = { kind_at kinds.Checkpoint checkpoint_at };

    ghost encoded = { of_kind kinds.Checkpoint checkpoint };

    ghost fields_in_range = { CheckpointFieldsInRange };

    fn read(alloc: Global, bytes: &[u8]) -> Result<(Checkpoint, &[u8]), ReadError> {
        read_body(alloc, bytes)
    }

    fn put(&self, alloc: Global, out: &mut Vec<u8>) -> Result<(), AllocError> {
        put_body(alloc, out, self)
    }
}
