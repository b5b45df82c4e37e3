//! The primary of a view proposes a request.

use crate::body::Body;
use crate::codec::Codec;
use crate::kind::Kind;
use crate::message_body::{MessageBody, put_body, read_body};
use crate::sender::Sender;
use crate::try_clone::TryClone;
use crate::writing::put_proposal;
use codec_fields::{ReadError, read_digest, read_sequence_number, read_view};
use host_types::{Digest, SeqNo, View};
use std::alloc::{AllocError, Global};

/// The primary of a view proposes a request, named by its digest, for a number.
#[derive(Clone, Copy, Debug, PartialEq, Eq)]
pub struct PrePrepare {
    pub view: View,
    pub number: SeqNo,
    pub digest: Digest,
}

impl MessageBody for PrePrepare {
    ghost use Rattle.pbft_codec.specs.declared.body.Body.TheVariants as bodies;
    ghost use Rattle.pbft_codec.specs.declared.kind.Kind.TheVariants as kinds;
    ghost use Rattle.pbft_codec.specs.declared.sender.Sender.TheVariants as senders;
    ghost use Rattle.pbft_codec.specs.Limits.{PrePrepareFieldsInRange};
    ghost use Rattle.pbft_codec.specs.Layouts.{pre_prepare};
    ghost use Rattle.pbft_codec.specs.Reading.{pre_prepare_at};

    ghost kind = { kinds.PrePrepare };

    ghost fields_at = { pre_prepare_at };

    ghost fields = { pre_prepare };

    ghost fields_in_range = { PrePrepareFieldsInRange };

    ghost sender = { λ b. senders.Primary b.view };

    ghost as_body = { bodies.PrePrepare };

    fn kind() -> Kind {
        Kind::PrePrepare
    }

    fn sender(&self) -> Sender {
        Sender::Primary(self.view)
    }

    fn into_body(self) -> Body {
        Body::PrePrepare(self)
    }

    #[tactic(auto, unfolding(crate::specs::Reading::pre_prepare_at))]
    fn read_fields(_: Global, bytes: &[u8]) -> Result<(PrePrepare, &[u8]), ReadError> {
        let (view, rest) = read_view(bytes)?;
        let (number, rest) = read_sequence_number(rest)?;
        let (digest, rest) = read_digest(rest)?;
        Ok((
            PrePrepare {
                view,
                number,
                digest,
            },
            rest,
        ))
    }

    fn put_fields(&self, _: Global, out: &mut Vec<u8>) -> Result<(), AllocError> {
        put_proposal(out, self.view, self.number, self.digest)
    }
}

impl TryClone for PrePrepare {
    fn try_clone(&self, _: Global) -> Result<PrePrepare, AllocError> {
        Ok(*self)
    }
}

impl Codec for PrePrepare {
    ghost use Rattle.pbft_codec.specs.declared.kind.Kind.TheVariants as kinds;
    ghost use Rattle.pbft_codec.specs.Layouts.{of_kind, pre_prepare};
    ghost use Rattle.pbft_codec.specs.Limits.{PrePrepareFieldsInRange};
    ghost use Rattle.pbft_codec.specs.Reading.{kind_at, pre_prepare_at};

    ghost reading = { kind_at kinds.PrePrepare pre_prepare_at };

    ghost encoded = { of_kind kinds.PrePrepare pre_prepare };

    ghost fields_in_range = { PrePrepareFieldsInRange };

    fn read(alloc: Global, bytes: &[u8]) -> Result<(PrePrepare, &[u8]), ReadError> {
        read_body(alloc, bytes)
    }

    fn put(&self, alloc: Global, out: &mut Vec<u8>) -> Result<(), AllocError> {
        put_body(alloc, out, self)
    }
}
