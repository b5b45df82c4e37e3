//! Signed messages of replicas, whatever they say.

ghost use Rattle.std.specs.Prelude.{◌≡◌, IfOk};

use host_types::{Bytes, Config};
use lms_tree::Signer;
use pbft_codec::{Body, MessageBody, Role, Signed, signed_bytes};
use seal::{Checked, open};
use std::alloc::{AllocError, Global};
use std::sync::Arc;
use std::test::Fail;

/// A replica's message without a signature.
fn unsigned(alloc: Global, id: u8, body: Body) -> Signed {
    Signed {
        role: Role::Replica,
        id: u32::from(id),
        body,
        sig: Bytes::from_vec(Vec::new(alloc)),
    }
}

/// What is signed of a replica's message, and its signature: none where there is no such signer.
fn sign_message(
    alloc: Global,
    signers: &mut [Signer],
    id: u8,
    message: &Signed,
) -> Result<(Vec<u8>, Vec<u8>), Fail> {
    let text = signed_bytes(alloc, message)?;
    let signature = match signers.get_mut(usize::from(id)) {
        Some(signer) => signer.sign(&text)?,
        None => Vec::new(alloc),
    };
    Ok((text, signature))
}

/// The same of a replica's body.
fn sign(
    alloc: Global,
    signers: &mut [Signer],
    id: u8,
    body: Body,
) -> Result<(Vec<u8>, Vec<u8>), Fail> {
    let message = unsigned(alloc, id, body);
    sign_message(alloc, signers, id, &message)
}

/// A body of one kind, signed.
pub fn signed<B: MessageBody>(
    alloc: Global,
    signers: &mut [Signer],
    id: u8,
    body: B,
) -> Result<Signed<B>, Fail> {
    let copy = body.try_clone(alloc)?;
    let (_, signature) = sign(alloc, signers, id, copy.into_body())?;
    Ok(Signed {
        role: Role::Replica,
        id: u32::from(id),
        body,
        sig: Bytes::from_vec(signature),
    })
}

fn put_length_prefixed(out: &mut Vec<u8>, bytes: &[u8]) -> Result<(), AllocError> {
    out.extend_from_slice(&((bytes.len() % (1 << 32)) as u32).to_be_bytes())?;
    out.extend_from_slice(bytes)
}

/// The bytes of a message: what is signed, with the lengths of the body and of the signature.
fn bytes_of(alloc: Global, text: &[u8], signature: &[u8]) -> Result<Vec<u8>, AllocError> {
    let (signer, said) = text.split_at(text.len().min(5));
    let mut bytes = Vec::from_slice(alloc, signer)?;
    put_length_prefixed(&mut bytes, said)?;
    put_length_prefixed(&mut bytes, signature)?;
    Ok(bytes)
}

/// The checked message of a replica's body.
pub fn checked(
    alloc: Global,
    config: &Arc<Config>,
    signers: &mut [Signer],
    id: u8,
    body: Body,
) -> Result<Checked, Fail>
    ensures { IfOk result (λ c. c.config ≡ config.now.value) }
{
    let (text, signature) = sign(alloc, signers, id, body)?;
    let bytes = bytes_of(alloc, &text, &signature)?;
    Ok(open(alloc, config, &bytes)?)
}
