//! A backup agrees with a proposal.

use crate::body::Body;
use crate::codec::Codec;
use crate::kind::Kind;
use crate::message_body::{MessageBody, put_body, read_body};
use crate::sender::Sender;
use crate::try_clone::TryClone;
use crate::writing::put_proposal;
use codec_fields::{ReadError, read_digest, read_sequence_number, read_view};
use host_types::{Digest, SeqNo, View};
use std::alloc::{AllocError, Global};

/// A backup agrees with a proposal.
#[derive(Clone, Copy, Debug, PartialEq, Eq)]
pub struct Prepare {
    pub view: View,
    pub number: SeqNo,
    pub digest: Digest,
}

impl MessageBody for Prepare {
    ghost use Rattle.pbft_codec.specs.declared.body.Body.TheVariants as bodies;
    ghost use Rattle.pbft_codec.specs.declared.kind.Kind.TheVariants as kinds;
    ghost use Rattle.pbft_codec.specs.declared.sender.Sender.TheVariants as senders;
    ghost use Rattle.pbft_codec.specs.Limits.{PrepareFieldsInRange};
    ghost use Rattle.pbft_codec.specs.Layouts.{prepare};
    ghost use Rattle.pbft_codec.specs.Reading.{prepare_at};

    ghost kind = { kinds.Prepare };

    ghost fields_at = { prepare_at };

    ghost fields = { prepare };

    ghost fields_in_range = { PrepareFieldsInRange };

    ghost sender = { λ b. senders.Backup b.view };

    ghost as_body = { bodies.Prepare };

    fn kind() -> Kind {
        Kind::Prepare
    }

    fn sender(&self) -> Sender {
        Sender::Backup(self.view)
    }

    fn into_body(self) -> Body {
        Body::Prepare(self)
    }

    #[tactic(auto, unfolding(crate::specs::Reading::prepare_at))]
    fn read_fields(_: Global, bytes: &[u8]) -> Result<(Prepare, &[u8]), ReadError> {
        let (view, rest) = read_view(bytes)?;
        let (number, rest) = read_sequence_number(rest)?;
        let (digest, rest) = read_digest(rest)?;
        Ok((
            Prepare {
                view,
                number,
                digest,
            },
            rest,
        ))
    }

    fn put_fields(&self, _: Global, out: &mut Vec<u8>) -> Result<(), AllocError> {
        put_proposal(out, self.view, self.number, self.digest)
    }
}

impl TryClone for Prepare {
    fn try_clone(&self, _: Global) -> Result<Prepare, AllocError> {
        Ok(*self)
    }
}

impl Codec for Prepare {
    ghost use Rattle.pbft_codec.specs.declared.kind.Kind.TheVariants as kinds;
    ghost use Rattle.pbft_codec.specs.Layouts.{of_kind, prepare};
    ghost use Rattle.pbft_codec.specs.Limits.{PrepareFieldsInRange};
    ghost use Rattle.pbft_codec.specs.Reading.{kind_at, prepare_at};

    ghost reading = { kind_at kinds.Prepare prepare_at };

    ghost encoded = { of_kind kinds.Prepare prepare };

    ghost fields_in_range = { PrepareFieldsInRange };

    fn read(alloc: Global, bytes: &[u8]) -> Result<(Prepare, &[u8]), ReadError> {
        read_body(alloc, bytes)
    }

    fn put(&self, alloc: Global, out: &mut Vec<u8>) -> Result<(), AllocError> {
        put_body(alloc, out, self)
    }
}
