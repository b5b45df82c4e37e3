//! The ten bodies of messages (Castro and Liskov 1999, sections 4.1 to 4.4), as plain data.
//!
//! Sequence numbers in messages are below 2^48. Times are a client's own.

ghost use Rattle.std.specs.Prelude.{◌≡◌, List};
ghost use Rattle.codec_fields.specs.Fields.{Gives};
ghost use Rattle.pbft_codec.specs.Reading.{fields_at, body_at};
ghost use Rattle.pbft_codec.specs.Bodies.{kind_in, sender_of, BodyFieldsInRange};
ghost use Rattle.pbft_codec.specs.Encoding.{body};

use crate::codec::Codec;
use crate::kind::Kind;
use crate::message_body::{MessageBody, kind_of, read_any};
use crate::sender::Sender;
use crate::try_clone::TryClone;
use crate::writing::put_kind;
use codec_fields::{CodecFault, ReadError};
use std::alloc::{AllocError, Global};

mod certificate;
mod checkpoint;
mod commit;
mod fetch;
mod new_view;
mod pre_prepare;
mod prepare;
mod reply;
mod request;
mod snapshot;
mod view_change;

pub use certificate::{Certificate, Prepares};
pub use checkpoint::Checkpoint;
pub use commit::Commit;
pub use fetch::Fetch;
pub use new_view::{NewView, PrePrepares, ViewChanges};
pub use pre_prepare::PrePrepare;
pub use prepare::Prepare;
pub use reply::ReplyBody;
pub use request::RequestBody;
pub use snapshot::Snapshot;
pub use view_change::{Certificates, CheckpointList, ViewChange};

/// A body of any kind. Bodies of different kinds are different, whatever their fields.
#[derive(Debug, Drop)]
pub enum Body {
    Request(RequestBody),
    PrePrepare(PrePrepare),
    Prepare(Prepare),
    Commit(Commit),
    Reply(ReplyBody),
    Checkpoint(Checkpoint),
    ViewChange(ViewChange),
    NewView(NewView),
    Fetch(Fetch),
    Snapshot(Snapshot),
}

/// What is done alike with the fields of a body, whatever its kind.
macro_rules! on_body {
    ($body:expr, $fields:ident => $done:expr) => {
        match $body {
            Body::Request($fields) => $done,
            Body::PrePrepare($fields) => $done,
            Body::Prepare($fields) => $done,
            Body::Commit($fields) => $done,
            Body::Reply($fields) => $done,
            Body::Checkpoint($fields) => $done,
            Body::ViewChange($fields) => $done,
            Body::NewView($fields) => $done,
            Body::Fetch($fields) => $done,
            Body::Snapshot($fields) => $done,
        }
    };
}

impl Body {
    /// Who may send it.
    pub fn sender(&self) -> Sender
        ensures { result ≡ sender_of self.now }
    {
        on_body!(self, fields => fields.sender())
    }

    fn kind(&self) -> Kind
        ensures { result ≡ kind_in self.now }
    {
        on_body!(self, fields => kind_of(fields))
    }
}

/// The fields of a body of this kind.
#[tactic(auto, unfolding(crate::specs::Reading::fields_at))]
fn read_fields(alloc: Global, kind: Kind, bytes: &[u8]) -> Result<(Body, &[u8]), ReadError>
    ensures { Gives (λ x. (x.0, x.1.now)) result (fields_at kind bytes.now) }
{
    match kind {
        Kind::Request => read_any::<RequestBody>(alloc, bytes),
        Kind::PrePrepare => read_any::<PrePrepare>(alloc, bytes),
        Kind::Prepare => read_any::<Prepare>(alloc, bytes),
        Kind::Commit => read_any::<Commit>(alloc, bytes),
        Kind::Reply => read_any::<ReplyBody>(alloc, bytes),
        Kind::Checkpoint => read_any::<Checkpoint>(alloc, bytes),
        Kind::ViewChange => read_any::<ViewChange>(alloc, bytes),
        Kind::NewView => read_any::<NewView>(alloc, bytes),
        Kind::Fetch => read_any::<Fetch>(alloc, bytes),
        Kind::Snapshot => read_any::<Snapshot>(alloc, bytes),
    }
}

impl Codec for Body {
    ghost reading = { body_at };

    ghost encoded = { body };

    ghost fields_in_range = { BodyFieldsInRange };

    #[tactic(auto, unfolding(crate::specs::Reading::body_at))]
    fn read(alloc: Global, bytes: &[u8]) -> Result<(Body, &[u8]), ReadError> {
        match bytes {
            [] => Err(ReadError::Fault(CodecFault::Truncated)),
            [byte, rest @ ..] => match Kind::of(*byte) {
                None => Err(ReadError::Fault(CodecFault::BadKind)),
                Some(kind) => read_fields(alloc, kind, rest),
            },
        }
    }

    #[tactic(auto, unfolding(crate::specs::Encoding::body))]
    fn put(&self, alloc: Global, out: &mut Vec<u8>) -> Result<(), AllocError> {
        put_kind(out, self.kind())?;
        on_body!(self, fields => fields.put_fields(alloc, out))
    }
}

impl TryClone for Body {
    fn try_clone(&self, alloc: Global) -> Result<Body, AllocError> {
        on_body!(self, fields => Ok(fields.try_clone(alloc)?.into_body()))
    }
}
