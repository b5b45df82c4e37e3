//! The primary of a view opens it.

use crate::body::Body;
use crate::body::pre_prepare::PrePrepare;
use crate::body::view_change::ViewChange;
use crate::kind::Kind;
use crate::lists::{MAX_SEQUENCE_NUMBERS, MAX_SIGNERS, put_list, read_ascending, read_list};
use crate::message_body::MessageBody;
use crate::sender::Sender;
use crate::sequence::Sequence;
use crate::signed::Signed;
use crate::try_clone::TryClone;
use crate::writing::put_u32;
use codec_fields::{ReadError, read_view};
use host_types::View;
use std::alloc::{AllocError, Global};

/// At most 10, ids strictly ascending.
pub type ViewChanges = Sequence<Signed<ViewChange>>;

/// At most 16.
pub type PrePrepares = Sequence<Signed<PrePrepare>>;

/// The primary of a view opens it, with the ViewChanges that ask for it and the proposals that follow
/// from them.
#[derive(Debug, Drop)]
pub struct NewView {
    pub view: View,
    pub changes: ViewChanges,
    pub pre_prepares: PrePrepares,
}

impl MessageBody for NewView {
    ghost use Rattle.pbft_codec.specs.declared.body.Body.TheVariants as bodies;
    ghost use Rattle.pbft_codec.specs.declared.kind.Kind.TheVariants as kinds;
    ghost use Rattle.pbft_codec.specs.declared.sender.Sender.TheVariants as senders;
    ghost use Rattle.pbft_codec.specs.Limits.{NewViewFieldsInRange};
    ghost use Rattle.pbft_codec.specs.Layouts.{new_view};
    ghost use Rattle.pbft_codec.specs.Reading.{new_view_at};

    ghost kind = { kinds.NewView };

    ghost fields_at = { new_view_at };

    ghost fields = { new_view };

    ghost fields_in_range = { NewViewFieldsInRange };

    ghost sender = { λ b. senders.Primary b.view };

    ghost as_body = { bodies.NewView };

    fn kind() -> Kind {
        Kind::NewView
    }

    fn sender(&self) -> Sender {
        Sender::Primary(self.view)
    }

    fn into_body(self) -> Body {
        Body::NewView(self)
    }

    #[tactic(auto, unfolding(crate::specs::Reading::new_view_at))]
    fn read_fields(alloc: Global, bytes: &[u8]) -> Result<(NewView, &[u8]), ReadError> {
        let (view, rest) = read_view(bytes)?;
        let (changes, rest) = read_ascending(alloc, MAX_SIGNERS, rest)?;
        let (pre_prepares, rest) = read_list(alloc, MAX_SEQUENCE_NUMBERS, rest)?;
        Ok((
            NewView {
                view,
                changes,
                pre_prepares,
            },
            rest,
        ))
    }

    #[tactic(auto, unfolding(crate::specs::Layouts::new_view))]
    fn put_fields(&self, alloc: Global, out: &mut Vec<u8>) -> Result<(), AllocError> {
        put_u32(out, self.view.0)?;
        put_list(alloc, out, self.changes.as_slice())?;
        put_list(alloc, out, self.pre_prepares.as_slice())
    }
}

impl TryClone for NewView {
    fn try_clone(&self, alloc: Global) -> Result<NewView, AllocError> {
        let changes = self.changes.try_clone(alloc)?;
        let pre_prepares = self.pre_prepares.try_clone(alloc)?;
        Ok(NewView {
            view: self.view,
            changes,
            pre_prepares,
        })
    }
}
