//! A replica sends its state after a sequence number.

use crate::body::Body;
use crate::kind::Kind;
use crate::message_body::MessageBody;
use crate::sender::Sender;
use crate::try_clone::TryClone;
use crate::writing::{put_length_prefixed, put_u64};
use codec_fields::{ReadError, read_bytes, read_sequence_number};
use host_types::{Bytes, SeqNo};
use std::alloc::{AllocError, Global};

/// The bytes of a state, and the number after which it stood.
#[derive(Debug, Drop)]
pub struct Snapshot {
    pub number: SeqNo,
    pub state: Bytes,
}

impl MessageBody for Snapshot {
    ghost use Rattle.pbft_codec.specs.declared.body.Body.TheVariants as bodies;
    ghost use Rattle.pbft_codec.specs.declared.kind.Kind.TheVariants as kinds;
    ghost use Rattle.pbft_codec.specs.declared.sender.Sender.TheVariants as senders;
    ghost use Rattle.pbft_codec.specs.Layouts.{snapshot};
    ghost use Rattle.pbft_codec.specs.Reading.{snapshot_at};

    ghost kind = { kinds.Snapshot };

    ghost fields_at = { snapshot_at };

    ghost fields = { snapshot };

    ghost fields_in_range = { λ _. Unit {0} };

    ghost sender = { λ _. senders.Replica };

    ghost as_body = { bodies.Snapshot };

    fn kind() -> Kind {
        Kind::Snapshot
    }

    fn sender(&self) -> Sender {
        Sender::Replica
    }

    fn into_body(self) -> Body {
        Body::Snapshot(self)
    }

    #[tactic(auto, unfolding(crate::specs::Reading::snapshot_at))]
    fn read_fields(alloc: Global, bytes: &[u8]) -> Result<(Snapshot, &[u8]), ReadError> {
        let (number, rest) = read_sequence_number(bytes)?;
        let (state, rest) = read_bytes(alloc, rest)?;
        Ok((Snapshot { number, state }, rest))
    }

    #[tactic(auto, unfolding(crate::specs::Layouts::snapshot))]
    fn put_fields(&self, _: Global, out: &mut Vec<u8>) -> Result<(), AllocError> {
        put_u64(out, self.number.0)?;
        put_length_prefixed(out, self.state.as_slice())
    }
}

impl TryClone for Snapshot {
    fn try_clone(&self, alloc: Global) -> Result<Snapshot, AllocError> {
        let state = self.state.try_clone(alloc)?;
        Ok(Snapshot {
            number: self.number,
            state,
        })
    }
}
