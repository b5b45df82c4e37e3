//! Copies of checked messages as messages of one kind, to be nested in a body.

ghost use Rattle.std.specs.Prelude.{◌≡◌, List, Some, IfOk, map};
ghost use Rattle.std.specs.Option.{option_copied};
ghost use Rattle.pbft_codec.specs.declared.signed.Signed.{Signed};
ghost use Rattle.seal.specs.Lists.{messages_of};
ghost use Rattle.seal.specs.Parts.{as_message};

use pbft_codec::{
    Body, Checkpoint, MessageBody, PrePrepare, Prepare, Sequence, Signed, TryClone, ViewChange,
};
use seal::Checked;
use std::alloc::{AllocError, Global};

/// A body of one kind that another body can hold.
pub trait Nested: MessageBody {
    /// The body, if it is of this kind.
    fn of_body(body: &Body) -> Option<&Self>
        ensures { (b : Self) → body.now ≡ Self.as_body b → option_copied result ≡ Some b };
}

impl Nested for Checkpoint {
    fn of_body(body: &Body) -> Option<&Checkpoint> {
        match body {
            Body::Checkpoint(said) => Some(said),
            _ => None,
        }
    }
}

impl Nested for PrePrepare {
    fn of_body(body: &Body) -> Option<&PrePrepare> {
        match body {
            Body::PrePrepare(said) => Some(said),
            _ => None,
        }
    }
}

impl Nested for Prepare {
    fn of_body(body: &Body) -> Option<&Prepare> {
        match body {
            Body::Prepare(said) => Some(said),
            _ => None,
        }
    }
}

impl Nested for ViewChange {
    fn of_body(body: &Body) -> Option<&ViewChange> {
        match body {
            Body::ViewChange(said) => Some(said),
            _ => None,
        }
    }
}

/// A copy of a message, if it is of this kind.
pub fn copy_of<B: Nested>(alloc: Global, message: &Signed) -> Result<Option<Signed<B>>, AllocError>
    ensures { (m : Signed B) → message.now ≡ as_message B.as_body m → IfOk result (λ copy. copy ≡ Some m) }
{
    let Some(body) = B::of_body(&message.body) else {
        return Ok(None);
    };
    let body = body.try_clone(alloc)?;
    let sig = message.sig.try_clone(alloc)?;
    Ok(Some(Signed {
        role: message.role,
        id: message.id,
        body,
        sig,
    }))
}

/// Copies of those messages that are of this kind, in order.
pub fn copies_of<B: Nested>(
    alloc: Global,
    messages: &[Checked],
) -> Result<Sequence<Signed<B>>, AllocError>
    ensures { (ms : List (Signed B)) → messages_of messages.now ≡ map (as_message B.as_body) ms → IfOk result (λ copies. copies ≡ ms) }
{
    let mut copies = Vec::new(alloc);
    for message in messages {
        if let Some(copy) = copy_of(alloc, message.message())? {
            copies.push(copy)?;
        }
    }
    Ok(Sequence::from_vec(copies))
}
