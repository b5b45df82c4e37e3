//! Snapshots as they stand in bytes, and as messages whose state is a part of a shared buffer.

ghost use Rattle.std.specs.Prelude.{◌≡◌, IfErr, IfSome, IsSome};
ghost use Rattle.pbft_codec.specs.declared.kind.Kind.TheVariants as kinds;
ghost use Rattle.codec_fields.specs.Fields.{Gives, IsFault};
ghost use Rattle.pbft_codec.specs.Reading.{whole, kind_at, signed_at, snapshot_at};
ghost use Rattle.pbft_codec.specs.Snapshots.{snapshot_of, signed_snapshot, message_of, message_in};
ghost use Rattle.pbft_codec.specs.declared.body.snapshot.Snapshot.{Snapshot};
ghost use Rattle.pbft_codec.specs.declared.signed.Signed.{Signed};
ghost use Rattle.pbft_codec.specs.WellFormed.{Encodes};

use crate::body::{Body, Snapshot};
use crate::kind::Kind;
use crate::message::{MAX_BYTES, parts_signed};
use crate::message_body::read_kind;
use crate::sender::Sender;
use crate::signed::{Role, Signed, read_role};
use codec_fields::{CodecFault, ReadError, read_id, read_length_prefixed, read_sequence_number};
use host_types::{Bytes, SeqNo};
use std::alloc::{AllocError, Global};
use std::sync::Arc;

/// Where the state begins in the bytes of a Snapshot: behind the role, the id, the length of the body, the
/// kind, the number and the length of the state.
const STATE_AT: usize = 22;

/// A signed Snapshot as it stands in bytes, none of which are copied.
#[derive(Clone, Copy, Debug)]
pub struct SignedSnapshot<'a> {
    pub role: Role,
    /// The signer: the index of a replica, or the id of a client.
    pub id: u32,
    pub number: SeqNo,
    pub state: &'a [u8],
    pub sig: &'a [u8],
}

impl<'a> SignedSnapshot<'a> {
    ghost use Rattle.std.specs.Prelude.{◌≡◌, ◌++◌, IfOk};
    ghost use Rattle.pbft_codec.specs.Bodies.{sender_of};
    ghost use Rattle.pbft_codec.specs.Encoding.{encoding, signed_text};
    ghost use Rattle.pbft_codec.specs.Snapshots.{message_in};

    /// Who may send it.
    pub fn sender(&self) -> Sender
        ensures { result ≡ sender_of (message_in self.now).body }
    {
        Sender::Replica
    }

    /// What its signature covers, cut out of its bytes: role and id, and the body.
    pub fn signed_parts<'b>(&self, bytes: &'b [u8]) -> (&'b [u8], &'b [u8])
        requires { bytes.now ≡ encoding (message_in self.now) }
        ensures { result.0.now ++ result.1.now ≡ signed_text (message_in self.now) }
    {
        parts_signed(bytes, self.sig.len())
    }

    /// The message, out of a buffer with its bytes. The state is not copied: it is a part of the buffer, all of
    /// which stays while the message does. It is refused where memory ran out or the count of the buffer's
    /// handles is full.
    pub fn message(&self, alloc: Global, buffer: &Arc<Vec<u8>>) -> Result<Signed, AllocError>
        requires { buffer.now.value.items ≡ encoding (message_in self.now) }
        ensures { IfOk result (λ m. m ≡ message_in self.now) }
    {
        let state = Bytes::part(buffer, STATE_AT, STATE_AT + self.state.len())?;
        let sig = Vec::from_slice(alloc, self.sig)?;
        Ok(Signed {
            role: self.role,
            id: self.id,
            body: Body::Snapshot(Snapshot {
                number: self.number,
                state,
            }),
            sig: Bytes::from_vec(sig),
        })
    }
}

/// The number and the state of the Snapshot that these bytes are, from the byte of its kind on.
#[tactic(auto, unfolding(crate::specs::Reading::snapshot_at))]
fn read_snapshot(bytes: &[u8]) -> Result<(SeqNo, &[u8]), ReadError>
    ensures read { Gives (λ x. snapshot_of x.0 x.1.now) result (whole (kind_at kinds.Snapshot snapshot_at) bytes.now) }
    ensures fault { IfErr result IsFault }
{
    let rest = read_kind(Kind::Snapshot, bytes)?;
    let (number, rest) = read_sequence_number(rest)?;
    let (state, rest) = read_length_prefixed(rest)?;
    if !rest.is_empty() {
        return Err(ReadError::Fault(CodecFault::Trailing));
    }
    Ok((number, state))
}

/// The signed Snapshot that these bytes are.
#[tactic(auto, unfolding(crate::specs::Reading::signed_at, crate::specs::Reading::framed))]
fn read_signed_snapshot(bytes: &[u8]) -> Result<SignedSnapshot<'_>, ReadError>
    ensures read { Gives signed_snapshot result
        (whole (signed_at (kind_at kinds.Snapshot snapshot_at) 0) bytes.now) }
    ensures fault { IfErr result IsFault }
{
    let (role, rest) = read_role(bytes)?;
    let (id, rest) = read_id(0, rest)?;
    let (inside, rest) = read_length_prefixed(rest)?;
    let (number, state) = read_snapshot(inside)?;
    let (sig, rest) = read_length_prefixed(rest)?;
    if !rest.is_empty() {
        return Err(ReadError::Fault(CodecFault::Trailing));
    }
    Ok(SignedSnapshot {
        role,
        id,
        number,
        state,
        sig,
    })
}

/// The Snapshot that all of the bytes encode as a message, or none: then the bytes may still be a message
/// of another kind. It takes no memory.
pub fn snapshot_in(bytes: &[u8]) -> Option<SignedSnapshot<'_>>
    ensures found { IfSome result (λ s. Encodes bytes.now (message_in s)) }

    // Each Snapshot is found.
    ensures each { (m : Signed Snapshot) → Encodes bytes.now (message_of m) → IsSome result }
{
    if bytes.len() > MAX_BYTES {
        return None;
    }
    match read_signed_snapshot(bytes) {
        Ok(snapshot) => Some(snapshot),
        Err(_) => None,
    }
}
