//! Opening bytes, and what an opened message holds.

ghost use Rattle.std.specs.Prelude.{◌≡◌, ◌∷◌, ◌++◌, IfOk, IfErr, Ok, map};
ghost use Rattle.std.specs.List.{AllByRecursion, flat_map};
ghost use Rattle.pbft_codec.specs.declared.body.Body.{Body};
ghost use Rattle.pbft_codec.specs.declared.signed.Signed.{Signed};
ghost use Rattle.pbft_codec.specs.WellFormed.{Encodes};
ghost use Rattle.pbft_codec.specs.Encoding.{signed_text};
ghost use Rattle.pbft_codec.specs.Snapshots.{message_in};
ghost use Rattle.sha2.specs.Sha256.{sha256};
ghost use Rattle.seal.specs.Faults.{IsProper};
ghost use Rattle.seal.specs.Opening.{CanNest, IsUnlessMemory, opening};
ghost use Rattle.seal.specs.Parts.{messages_in, parts_of, part_of, checkpoints_of, children_of, pre_prepares_of};
ghost use Rattle.seal.specs.Signers.{IsAuthentic};

use crate::checked::Checked;
use crate::checked_list::CheckedList;
use crate::fault::SealFault;
use crate::nested_messages::{checkpoints, children, descendants, pre_prepares};
use crate::part::Part;
use crate::verify_parts::{copy_verified, verify_message};
use host_types::{Bytes, Config, Digest};
use pbft_codec::{Signed, SignedSnapshot, TryClone, decode, signed_parts, snapshot_in};
use sha2::{Digest as _, Sha256};
use std::alloc::{AllocError, Global};
use std::sync::Arc;

/// The message that the bytes encode, where each part of it has a signer that `config` lists, who may
/// say what it says and signed it. A refusal is the codec's, else that of the first part that has a
/// fault, of a message before those nested in it: `UnknownSigner`, `WrongRole`, `BadSignature`, in this
/// order. `Memory` comes where memory ran out, whatever the bytes.
pub fn open(alloc: Global, config: &Arc<Config>, bytes: &[u8]) -> Result<Checked, SealFault>
    // What is opened was encoded so, and is authentic.
    ensures found { IfOk result (λ c. Encodes bytes.now c.message × (c.config ≡ config.now.value)
        × AllByRecursion (IsAuthentic config.now.value) (messages_in c.message)) }

    // What is encoded so and authentic is opened.
    ensures only { (m : Signed Body) → Encodes bytes.now m → AllByRecursion (IsAuthentic config.now.value) (messages_in m) →
        IsUnlessMemory result (Ok (record { config = config.now.value; message = m })) }

    // Which fault it is; that of the codec is never its `Memory`.
    ensures exact { IsUnlessMemory result (opening config.now.value bytes.now) }
    ensures proper { IfErr result IsProper }
{
    opened(alloc, config, bytes)
}

fn opened(alloc: Global, config: &Arc<Config>, bytes: &[u8]) -> Result<Checked, SealFault>
    ensures found { IfOk result (λ c. Encodes bytes.now c.message × (c.config ≡ config.now.value)
        × AllByRecursion (IsAuthentic config.now.value) (messages_in c.message)) }
    ensures exact { IsUnlessMemory result (opening config.now.value bytes.now) }
    ensures proper { IfErr result IsProper }
{
    match snapshot_in(bytes) {
        Some(snapshot) => open_snapshot(alloc, config, &snapshot, bytes),
        None => open_message(alloc, config, bytes),
    }
}

/// Opens the bytes of a Snapshot. They are copied once, while they are verified: the `Checked` holds the copy,
/// and the state is a part of it.
fn open_snapshot(
    alloc: Global,
    config: &Arc<Config>,
    snapshot: &SignedSnapshot<'_>,
    bytes: &[u8],
) -> Result<Checked, SealFault>
    requires { Encodes bytes.now (message_in snapshot.now) }
    ensures found { IfOk result (λ c. Encodes bytes.now c.message × (c.config ≡ config.now.value)
        × AllByRecursion (IsAuthentic config.now.value) (messages_in c.message)) }
    ensures exact { IsUnlessMemory result (opening config.now.value bytes.now) }
    ensures proper { IfErr result IsProper }
{
    let copy = copy_verified(alloc, config, snapshot, bytes)?;
    let buffer = Arc::new(alloc, copy)?;
    let message = snapshot.message(alloc, &buffer)?;
    let whole = Bytes::part(&buffer, 0, bytes.len())?;
    Ok(Checked::new(alloc, config, message, whole)?)
}

/// Opens the bytes of any message. Those of what opens are copied for the `Checked`.
fn open_message(alloc: Global, config: &Arc<Config>, bytes: &[u8]) -> Result<Checked, SealFault>
    ensures found { IfOk result (λ c. Encodes bytes.now c.message × (c.config ≡ config.now.value)
        × AllByRecursion (IsAuthentic config.now.value) (messages_in c.message)) }
    ensures exact { IsUnlessMemory result (opening config.now.value bytes.now) }
    ensures proper { IfErr result IsProper }
{
    let message = decode(alloc, bytes)?;
    verify_message(alloc, config, &message, bytes)?;
    let copy = Vec::from_slice(alloc, bytes)?;
    Ok(Checked::new(alloc, config, message, Bytes::from_vec(copy))?)
}

/// The parts of a message: its own, then those of its nested messages from left to right. It is refused
/// only where memory ran out.
pub fn parts(alloc: Global, message: &Checked) -> Result<Vec<Part>, AllocError>
    ensures { IfOk result (λ parts. parts.items ≡ parts_of message.now.message) }
{
    let whole = message.message();
    let mut parts = Vec::new(alloc);
    parts.push(Part {
        role: whole.role,
        id: whole.id,
        body: whole.body.try_clone(alloc)?,
    })?;
    for inside in descendants(alloc, &whole.body)? {
        let Signed { role, id, body, .. } = inside;
        parts.push(Part { role, id, body })?;
    }
    Ok(parts)
}

/// The messages that a message holds itself, from left to right, under the same configuration. It is
/// refused only where memory ran out.
pub fn nested(alloc: Global, message: &Checked) -> Result<Vec<Checked>, AllocError>
    ensures messages { IfOk result (λ inside.
        inside.items ≡ map (λ m. record { config = message.now.config; message = m }) (children_of message.now.message.body)) }

    // The message's own part, and theirs, are all of its parts.
    ensures parts { IfOk result (λ inside.
        parts_of message.now.message ≡ part_of message.now.message ∷ flat_map (λ c. parts_of c.message) inside.items) }
{
    messages_within(alloc, message)
}

fn messages_within(alloc: Global, message: &Checked) -> Result<Vec<Checked>, AllocError>
    ensures { IfOk result (λ inside.
        inside.items ≡ map (λ m. record { config = message.now.config; message = m }) (children_of message.now.message.body)) }
{
    let mut nested = Vec::new(alloc);
    for inside in children(alloc, message.body())? {
        nested.push(Checked::encoded(alloc, message.config(), inside)?)?;
    }
    Ok(nested)
}

/// The Checkpoints that a message holds, in order: a ViewChange its own, a NewView those of its ViewChanges,
/// another none. They are under the same configuration. It is refused only where memory ran out.
pub fn nested_checkpoints(alloc: Global, message: &Checked) -> Result<CheckedList, AllocError>
    ensures { IfOk result (λ l. l ≡ record { config = message.now.config; messages = checkpoints_of message.now.message.body }) }
{
    let inside = checkpoints(alloc, message.body())?;
    list_under(alloc, message.config(), inside)
}

/// The PrePrepares that a NewView holds itself, in order; another message holds none. They are under the
/// same configuration. It is refused only where memory ran out.
pub fn nested_pre_prepares(alloc: Global, message: &Checked) -> Result<CheckedList, AllocError>
    ensures { IfOk result (λ l. l ≡ record { config = message.now.config; messages = pre_prepares_of message.now.message.body }) }
{
    let inside = pre_prepares(alloc, message.body())?;
    list_under(alloc, message.config(), inside)
}

// The messages as checked ones.
fn list_under(
    alloc: Global,
    config: &Arc<Config>,
    messages: Vec<Signed>,
) -> Result<CheckedList, AllocError>
    requires { AllByRecursion (CanNest config.now.value) messages.items }
    ensures { IfOk result (λ l. l ≡ record { config = config.now.value; messages = messages.items }) }
{
    let mut list = CheckedList::new(alloc, config)?;
    for message in messages {
        list.push(Checked::encoded(alloc, config, message)?)?;
    }
    Ok(list)
}

/// The SHA-256 digest (FIPS 180-4) of what is signed: role, id and body. It names a request. It takes
/// no memory.
pub fn request_digest(message: &Checked) -> Digest
    ensures { result.0 ≡ sha256 (signed_text message.now.message) }
{
    let (head, body) = signed_parts(message.message(), message.bytes());
    Digest(digest_of_both(head, body))
}

fn digest_of_both(front: &[u8], back: &[u8]) -> [u8; 32]
    ensures { result ≡ sha256 (front.now ++ back.now) }
{
    let mut hasher = Sha256::new();
    hasher.update(front);
    hasher.update(back);
    hasher.finalize()
}
