//! Messages signed by plain signers, so that any replica can say anything.

use host_types::{Bytes, Config};
use lms_tree::Signer;
use pbft_codec::{Body, CodecFault, MessageBody, Role, Sequence, Signed, signed_bytes};
use seal::{Checked, open};
use std::alloc::{AllocError, Global};
use std::sync::Arc;
use std::test::Fail;

// What is signed of a message.
fn text_of(alloc: Global, role: Role, id: u32, body: Body) -> Result<Vec<u8>, CodecFault> {
    let unsigned = Signed {
        role,
        id,
        body,
        sig: Bytes::from_vec(Vec::new(alloc)),
    };
    signed_bytes(alloc, &unsigned)
}

/// A body of one kind, signed as the replica's of this id.
pub fn signed<B: MessageBody>(
    alloc: Global,
    signers: &mut [Signer],
    id: u8,
    body: B,
) -> Result<Signed<B>, Fail> {
    let copy = body.try_clone(alloc)?;
    let Some(signer) = signers.get_mut(usize::from(id)) else {
        return Err(Fail::new("no such signer"));
    };
    let id = u32::from(id);
    let text = text_of(alloc, Role::Replica, id, copy.into_body())?;
    let signature = signer.sign(&text)?;
    Ok(Signed {
        role: Role::Replica,
        id,
        body,
        sig: Bytes::from_vec(signature),
    })
}

fn put_length_prefixed(out: &mut Vec<u8>, bytes: &[u8]) -> Result<(), AllocError> {
    out.extend_from_slice(&((bytes.len() % (1 << 32)) as u32).to_be_bytes())?;
    out.extend_from_slice(bytes)
}

// The bytes of the message of which this is signed, with this signature.
fn message_bytes(alloc: Global, text: &[u8], signature: &[u8]) -> Result<Vec<u8>, AllocError> {
    let (head, said) = text.split_at(text.len().min(5));
    let mut bytes = Vec::from_slice(alloc, head)?;
    put_length_prefixed(&mut bytes, said)?;
    put_length_prefixed(&mut bytes, signature)?;
    Ok(bytes)
}

/// The checked message of this body.
pub fn checked(
    alloc: Global,
    config: &Arc<Config>,
    signer: &mut Signer,
    role: Role,
    id: u32,
    body: Body,
) -> Result<Checked, Fail> {
    let text = text_of(alloc, role, id, body)?;
    let bytes = message_bytes(alloc, &text, &signer.sign(&text)?)?;
    Ok(open(alloc, config, &bytes)?)
}

/// A list of signed bodies, each by the replica beside it.
pub fn signed_list<B: MessageBody>(
    alloc: Global,
    signers: &mut [Signer],
    said: Vec<(u8, B)>,
) -> Result<Sequence<Signed<B>>, Fail> {
    let mut list = Vec::new(alloc);
    for (id, body) in said {
        list.push(signed(alloc, signers, id, body)?)?;
    }
    Ok(Sequence::from_vec(list))
}
