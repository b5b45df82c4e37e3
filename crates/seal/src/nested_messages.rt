//! Copies of the messages that are nested in a body.

ghost use Rattle.std.specs.Prelude.{◌≡◌, ◌++◌, ◌∷◌, [], List, map, OnOk, IfOk};
ghost use Rattle.std.specs.List.{flat_map};
ghost use Rattle.pbft_codec.specs.declared.body.Body.TheVariants as bodies;
ghost use Rattle.seal.specs.Parts.{as_message, checkpoints_of, children_of, in_certificate, in_view_change, nested_in, pre_prepares_of, with_nested};

use pbft_codec::{Body, Certificate, MessageBody, Signed, TryClone, ViewChange};
use std::alloc::{AllocError, Global};

fn clone_message<B: MessageBody>(alloc: Global, message: &Signed<B>) -> Result<Signed, AllocError>
    ensures { IfOk result (λ copy. copy ≡ as_message B.as_body message.now) }
{
    let Signed {
        role,
        id,
        body,
        sig,
    } = message.try_clone(alloc)?;
    Ok(Signed {
        role,
        id,
        body: body.into_body(),
        sig,
    })
}

fn push_message<B: MessageBody>(
    alloc: Global,
    out: &mut Vec<Signed>,
    message: &Signed<B>,
) -> Result<(), AllocError>
    ensures { OnOk result (out.new.items ≡ out.old.items ++ as_message B.as_body message.now ∷ []) }
{
    out.push(clone_message(alloc, message)?)?;
    Ok(())
}

fn push_messages<B: MessageBody>(
    alloc: Global,
    out: &mut Vec<Signed>,
    messages: &[Signed<B>],
) -> Result<(), AllocError>
    ensures { OnOk result (out.new.items ≡ out.old.items ++ map (as_message B.as_body) messages.now) }
{
    for message in messages {
        push_message(alloc, out, message)?;
    }
    Ok(())
}

fn push_certificate(
    alloc: Global,
    out: &mut Vec<Signed>,
    proof: &Certificate,
) -> Result<(), AllocError>
    ensures { OnOk result (out.new.items ≡ out.old.items ++ in_certificate proof.now) }
{
    push_message(alloc, out, &proof.pre_prepare)?;
    push_messages(alloc, out, proof.prepares.as_slice())
}

fn push_certificates(
    alloc: Global,
    out: &mut Vec<Signed>,
    proofs: &[Certificate],
) -> Result<(), AllocError>
    ensures { OnOk result (out.new.items ≡ out.old.items ++ flat_map in_certificate proofs.now) }
{
    for proof in proofs {
        push_certificate(alloc, out, proof)?;
    }
    Ok(())
}

fn push_view_change(
    alloc: Global,
    out: &mut Vec<Signed>,
    change: &ViewChange,
) -> Result<(), AllocError>
    ensures { OnOk result (out.new.items ≡ out.old.items ++ in_view_change change.now) }
{
    push_messages(alloc, out, change.checkpoints.as_slice())?;
    push_certificates(alloc, out, change.certificates.as_slice())
}

fn push_with_nested(
    alloc: Global,
    out: &mut Vec<Signed>,
    change: &Signed<ViewChange>,
) -> Result<(), AllocError>
    ensures { OnOk result (out.new.items ≡ out.old.items ++ with_nested change.now) }
{
    push_message(alloc, out, change)?;
    push_view_change(alloc, out, &change.body)
}

fn push_changes(
    alloc: Global,
    out: &mut Vec<Signed>,
    changes: &[Signed<ViewChange>],
) -> Result<(), AllocError>
    ensures { OnOk result (out.new.items ≡ out.old.items ++ flat_map with_nested changes.now) }
{
    for change in changes {
        push_with_nested(alloc, out, change)?;
    }
    Ok(())
}

/// The messages that a body holds itself, from left to right.
pub fn children(alloc: Global, body: &Body) -> Result<Vec<Signed>, AllocError>
    ensures { IfOk result (λ messages. messages.items ≡ children_of body.now) }
{
    let mut out = Vec::new(alloc);
    match body {
        Body::ViewChange(change) => push_view_change(alloc, &mut out, change)?,
        Body::NewView(entry) => {
            push_messages(alloc, &mut out, entry.changes.as_slice())?;
            push_messages(alloc, &mut out, entry.pre_prepares.as_slice())?;
        }
        _ => {}
    }
    Ok(out)
}

fn push_checkpoints(
    alloc: Global,
    out: &mut Vec<Signed>,
    changes: &[Signed<ViewChange>],
) -> Result<(), AllocError>
    ensures { OnOk result (out.new.items ≡ out.old.items ++ flat_map (λ m. map (as_message bodies.Checkpoint) m.body.checkpoints) changes.now) }
{
    for change in changes {
        push_messages(alloc, out, change.body.checkpoints.as_slice())?;
    }
    Ok(())
}

/// The Checkpoints that a ViewChange holds, or the ViewChanges of a NewView hold, in order.
pub fn checkpoints(alloc: Global, body: &Body) -> Result<Vec<Signed>, AllocError>
    ensures { IfOk result (λ messages. messages.items ≡ checkpoints_of body.now) }
{
    let mut out = Vec::new(alloc);
    match body {
        Body::ViewChange(change) => push_messages(alloc, &mut out, change.checkpoints.as_slice())?,
        Body::NewView(entry) => push_checkpoints(alloc, &mut out, entry.changes.as_slice())?,
        _ => {}
    }
    Ok(out)
}

/// The PrePrepares that a NewView holds itself, in order.
pub fn pre_prepares(alloc: Global, body: &Body) -> Result<Vec<Signed>, AllocError>
    ensures { IfOk result (λ messages. messages.items ≡ pre_prepares_of body.now) }
{
    let mut out = Vec::new(alloc);
    if let Body::NewView(entry) = body {
        push_messages(alloc, &mut out, entry.pre_prepares.as_slice())?;
    }
    Ok(out)
}

/// The messages nested in a body, each before those nested in it, from left to right.
pub fn descendants(alloc: Global, body: &Body) -> Result<Vec<Signed>, AllocError>
    ensures { IfOk result (λ messages. messages.items ≡ nested_in body.now) }
{
    let mut out = Vec::new(alloc);
    match body {
        Body::ViewChange(change) => push_view_change(alloc, &mut out, change)?,
        Body::NewView(entry) => {
            push_changes(alloc, &mut out, entry.changes.as_slice())?;
            push_messages(alloc, &mut out, entry.pre_prepares.as_slice())?;
        }
        _ => {}
    }
    Ok(out)
}
