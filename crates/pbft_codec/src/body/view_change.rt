//! A replica asks for a view.

use crate::body::Body;
use crate::body::certificate::Certificate;
use crate::body::checkpoint::Checkpoint;
use crate::codec::Codec;
use crate::kind::Kind;
use crate::lists::{MAX_SEQUENCE_NUMBERS, MAX_SIGNERS, put_list, read_ascending, read_list};
use crate::message_body::{MessageBody, put_body, read_body};
use crate::sender::Sender;
use crate::sequence::Sequence;
use crate::signed::Signed;
use crate::try_clone::TryClone;
use crate::writing::{put_u32, put_u64};
use codec_fields::{ReadError, read_sequence_number, read_view};
use host_types::{SeqNo, View};
use std::alloc::{AllocError, Global};

/// At most 10, ids strictly ascending.
pub type CheckpointList = Sequence<Signed<Checkpoint>>;

/// At most 16.
pub type Certificates = Sequence<Certificate>;

/// A replica asks for a view, and says what it has prepared.
#[derive(Debug, Drop)]
pub struct ViewChange {
    pub view: View,
    /// The number of the replica's last stable checkpoint.
    pub low: SeqNo,
    pub checkpoints: CheckpointList,
    pub certificates: Certificates,
}

impl MessageBody for ViewChange {
    ghost use Rattle.pbft_codec.specs.declared.body.Body.TheVariants as bodies;
    ghost use Rattle.pbft_codec.specs.declared.kind.Kind.TheVariants as kinds;
    ghost use Rattle.pbft_codec.specs.declared.sender.Sender.TheVariants as senders;
    ghost use Rattle.pbft_codec.specs.Limits.{ViewChangeFieldsInRange};
    ghost use Rattle.pbft_codec.specs.Layouts.{view_change};
    ghost use Rattle.pbft_codec.specs.Reading.{view_change_at};

    ghost kind = { kinds.ViewChange };

    ghost fields_at = { view_change_at };

    ghost fields = { view_change };

    ghost fields_in_range = { ViewChangeFieldsInRange };

    ghost sender = { λ _. senders.Replica };

    ghost as_body = { bodies.ViewChange };

    fn kind() -> Kind {
        Kind::ViewChange
    }

    fn sender(&self) -> Sender {
        Sender::Replica
    }

    fn into_body(self) -> Body {
        Body::ViewChange(self)
    }

    #[tactic(auto, unfolding(crate::specs::Reading::view_change_at))]
    fn read_fields(alloc: Global, bytes: &[u8]) -> Result<(ViewChange, &[u8]), ReadError> {
        let (view, rest) = read_view(bytes)?;
        let (low, rest) = read_sequence_number(rest)?;
        let (checkpoints, rest) = read_ascending(alloc, MAX_SIGNERS, rest)?;
        let (certificates, rest) = read_list(alloc, MAX_SEQUENCE_NUMBERS, rest)?;
        Ok((
            ViewChange {
                view,
                low,
                checkpoints,
                certificates,
            },
            rest,
        ))
    }

    #[tactic(auto, unfolding(crate::specs::Layouts::view_change))]
    fn put_fields(&self, alloc: Global, out: &mut Vec<u8>) -> Result<(), AllocError> {
        put_u32(out, self.view.0)?;
        put_u64(out, self.low.0)?;
        put_list(alloc, out, self.checkpoints.as_slice())?;
        put_list(alloc, out, self.certificates.as_slice())
    }
}

impl TryClone for ViewChange {
    fn try_clone(&self, alloc: Global) -> Result<ViewChange, AllocError> {
        let checkpoints = self.checkpoints.try_clone(alloc)?;
        let certificates = self.certificates.try_clone(alloc)?;
        Ok(ViewChange {
            view: self.view,
            low: self.low,
            checkpoints,
            certificates,
        })
    }
}

impl Codec for ViewChange {
    ghost use Rattle.pbft_codec.specs.declared.kind.Kind.TheVariants as kinds;
    ghost use Rattle.pbft_codec.specs.Layouts.{of_kind, view_change};
    ghost use Rattle.pbft_codec.specs.Limits.{ViewChangeFieldsInRange};
    ghost use Rattle.pbft_codec.specs.Reading.{kind_at, view_change_at};

    ghost reading = { kind_at kinds.ViewChange view_change_at };

    ghost encoded = { of_kind kinds.ViewChange view_change };

    ghost fields_in_range = { ViewChangeFieldsInRange };

    fn read(alloc: Global, bytes: &[u8]) -> Result<(ViewChange, &[u8]), ReadError> {
        read_body(alloc, bytes)
    }

    fn put(&self, alloc: Global, out: &mut Vec<u8>) -> Result<(), AllocError> {
        put_body(alloc, out, self)
    }
}
