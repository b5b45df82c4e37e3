//! A client asks for an operation.

use crate::body::Body;
use crate::kind::Kind;
use crate::message_body::MessageBody;
use crate::sender::Sender;
use crate::try_clone::TryClone;
use crate::writing::{put_length_prefixed, put_u64};
use codec_fields::{ReadError, read_bytes, read_u64};
use host_types::Bytes;
use std::alloc::{AllocError, Global};

/// A client asks for an operation.
#[derive(Debug, Drop)]
pub struct RequestBody {
    /// Greater for each request of the client.
    pub time: u64,
    pub op: Bytes,
}

impl MessageBody for RequestBody {
    ghost use Rattle.std.specs.Prelude.{◌<◌, ◌^◌};
    ghost use Rattle.pbft_codec.specs.declared.body.Body.TheVariants as bodies;
    ghost use Rattle.pbft_codec.specs.declared.kind.Kind.TheVariants as kinds;
    ghost use Rattle.pbft_codec.specs.declared.sender.Sender.TheVariants as senders;
    ghost use Rattle.pbft_codec.specs.Layouts.{request};
    ghost use Rattle.pbft_codec.specs.Reading.{request_at};

    ghost kind = { kinds.Request };

    ghost fields_at = { request_at };

    ghost fields = { request };

    ghost fields_in_range = { λ r. r.time < 2 ^ 64 };

    ghost sender = { λ _. senders.Client };

    ghost as_body = { bodies.Request };

    fn kind() -> Kind {
        Kind::Request
    }

    fn sender(&self) -> Sender {
        Sender::Client
    }

    fn into_body(self) -> Body {
        Body::Request(self)
    }

    #[tactic(auto, unfolding(crate::specs::Reading::request_at))]
    fn read_fields(alloc: Global, bytes: &[u8]) -> Result<(RequestBody, &[u8]), ReadError> {
        let (time, rest) = read_u64(bytes)?;
        let (op, rest) = read_bytes(alloc, rest)?;
        Ok((RequestBody { time, op }, rest))
    }

    #[tactic(auto, unfolding(crate::specs::Layouts::request))]
    fn put_fields(&self, _: Global, out: &mut Vec<u8>) -> Result<(), AllocError> {
        put_u64(out, self.time)?;
        put_length_prefixed(out, self.op.as_slice())
    }
}

impl TryClone for RequestBody {
    fn try_clone(&self, alloc: Global) -> Result<RequestBody, AllocError> {
        let op = self.op.try_clone(alloc)?;
        Ok(RequestBody {
            time: self.time,
            op,
        })
    }
}
