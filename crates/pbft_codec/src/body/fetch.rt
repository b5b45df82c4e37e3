//! A replica asks for what it lacks.

use crate::body::Body;
use crate::kind::Kind;
use crate::message_body::MessageBody;
use crate::sender::Sender;
use crate::try_clone::TryClone;
use crate::writing::{put_digest, put_u64};
use codec_fields::{CodecFault, ReadError, read_digest, read_sequence_number};
use host_types::{Digest, SeqNo};
use std::alloc::{AllocError, Global};

/// A replica asks for what it lacks.
#[derive(Clone, Copy, Debug, PartialEq, Eq)]
pub enum Fetch {
    /// The request with this digest.
    Request(Digest),
    /// The state after this number.
    State(SeqNo),
}

impl MessageBody for Fetch {
    ghost use Rattle.pbft_codec.specs.declared.body.Body.TheVariants as bodies;
    ghost use Rattle.pbft_codec.specs.declared.kind.Kind.TheVariants as kinds;
    ghost use Rattle.pbft_codec.specs.declared.sender.Sender.TheVariants as senders;
    ghost use Rattle.pbft_codec.specs.Limits.{FetchFieldsInRange};
    ghost use Rattle.pbft_codec.specs.Layouts.{fetch};
    ghost use Rattle.pbft_codec.specs.Reading.{fetch_at};

    ghost kind = { kinds.Fetch };

    ghost fields_at = { fetch_at };

    ghost fields = { fetch };

    ghost fields_in_range = { FetchFieldsInRange };

    ghost sender = { λ _. senders.Replica };

    ghost as_body = { bodies.Fetch };

    fn kind() -> Kind {
        Kind::Fetch
    }

    fn sender(&self) -> Sender {
        Sender::Replica
    }

    fn into_body(self) -> Body {
        Body::Fetch(self)
    }

    #[tactic(auto, unfolding(crate::specs::Reading::fetch_at))]
    fn read_fields(_: Global, bytes: &[u8]) -> Result<(Fetch, &[u8]), ReadError> {
        match bytes {
            [] => Err(ReadError::Fault(CodecFault::Truncated)),
            [1, rest @ ..] => {
                let (digest, rest) = read_digest(rest)?;
                Ok((Fetch::Request(digest), rest))
            }
            [2, rest @ ..] => {
                let (number, rest) = read_sequence_number(rest)?;
                Ok((Fetch::State(number), rest))
            }
            [_, ..] => Err(ReadError::Fault(CodecFault::BadField)),
        }
    }

    #[tactic(auto, unfolding(crate::specs::Layouts::fetch))]
    fn put_fields(&self, _: Global, out: &mut Vec<u8>) -> Result<(), AllocError> {
        match self {
            Fetch::Request(digest) => {
                out.push(1)?;
                put_digest(out, *digest)
            }
            Fetch::State(number) => {
                out.push(2)?;
                put_u64(out, number.0)
            }
        }
    }
}

impl TryClone for Fetch {
    fn try_clone(&self, _: Global) -> Result<Fetch, AllocError> {
        Ok(*self)
    }
}
