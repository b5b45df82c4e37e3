//! A replica answers a client.

use crate::body::Body;
use crate::kind::Kind;
use crate::message_body::MessageBody;
use crate::sender::Sender;
use crate::try_clone::TryClone;
use crate::writing::{put_length_prefixed, put_u32, put_u64};
use codec_fields::{ReadError, read_bytes, read_client, read_sequence_number, read_u64, read_view};
use host_types::{Bytes, ClientId, SeqNo, View};
use std::alloc::{AllocError, Global};

/// A replica answers a client's request.
#[derive(Debug, Drop)]
pub struct ReplyBody {
    pub view: View,
    pub client: ClientId,
    /// The time of the request.
    pub time: u64,
    /// The number at which the request was executed.
    pub number: SeqNo,
    pub result: Bytes,
}

impl MessageBody for ReplyBody {
    ghost use Rattle.pbft_codec.specs.declared.body.Body.TheVariants as bodies;
    ghost use Rattle.pbft_codec.specs.declared.kind.Kind.TheVariants as kinds;
    ghost use Rattle.pbft_codec.specs.declared.sender.Sender.TheVariants as senders;
    ghost use Rattle.pbft_codec.specs.Limits.{ReplyFieldsInRange};
    ghost use Rattle.pbft_codec.specs.Layouts.{reply};
    ghost use Rattle.pbft_codec.specs.Reading.{reply_at};

    ghost kind = { kinds.Reply };

    ghost fields_at = { reply_at };

    ghost fields = { reply };

    ghost fields_in_range = { ReplyFieldsInRange };

    ghost sender = { λ _. senders.Replica };

    ghost as_body = { bodies.Reply };

    fn kind() -> Kind {
        Kind::Reply
    }

    fn sender(&self) -> Sender {
        Sender::Replica
    }

    fn into_body(self) -> Body {
        Body::Reply(self)
    }

    #[tactic(auto, unfolding(crate::specs::Reading::reply_at))]
    fn read_fields(alloc: Global, bytes: &[u8]) -> Result<(ReplyBody, &[u8]), ReadError> {
        let (view, rest) = read_view(bytes)?;
        let (client, rest) = read_client(rest)?;
        let (time, rest) = read_u64(rest)?;
        let (number, rest) = read_sequence_number(rest)?;
        let (outcome, rest) = read_bytes(alloc, rest)?;
        Ok((
            ReplyBody {
                view,
                client,
                time,
                number,
                result: outcome,
            },
            rest,
        ))
    }

    #[tactic(auto, unfolding(crate::specs::Layouts::reply))]
    fn put_fields(&self, _: Global, out: &mut Vec<u8>) -> Result<(), AllocError> {
        put_u32(out, self.view.0)?;
        put_u32(out, self.client.0)?;
        put_u64(out, self.time)?;
        put_u64(out, self.number.0)?;
        put_length_prefixed(out, self.result.as_slice())
    }
}

impl TryClone for ReplyBody {
    fn try_clone(&self, alloc: Global) -> Result<ReplyBody, AllocError> {
        let answer = self.result.try_clone(alloc)?;
        Ok(ReplyBody {
            view: self.view,
            client: self.client,
            time: self.time,
            number: self.number,
            result: answer,
        })
    }
}
