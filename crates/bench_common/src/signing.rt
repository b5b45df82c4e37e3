//! Messages as their signers make them.

ghost use Rattle.std.specs.Prelude.{◌≡◌, IfOk};

use anyhow::Result;
use host_types::{Bytes, Config};
use lms_tree::Signer;
use pbft_codec::{Body, CodecFault, Role, Signed, signed_bytes};
use seal::{Checked, open};
use std::alloc::Global;
use std::sync::Arc;

/// The bytes of what is signed before the body: role and id.
const SENDER: usize = 5;

/// What is signed of a message with this body.
fn text_of(alloc: Global, role: Role, id: u32, body: Body) -> Result<Vec<u8>, CodecFault> {
    let unsigned = Signed {
        role,
        id,
        body,
        sig: Bytes::from_vec(Vec::new(alloc)),
    };
    signed_bytes(alloc, &unsigned)
}

/// The same, and the signature.
pub fn sign(
    alloc: Global,
    signer: &mut Signer,
    role: Role,
    id: u32,
    body: Body,
) -> Result<(Vec<u8>, Vec<u8>)> {
    let text = text_of(alloc, role, id, body)?;
    let sig = signer.sign(&text)?;
    Ok((text, sig))
}

/// Appends the length of some bytes and these.
pub fn put_length_prefixed(out: &mut Vec<u8>, bytes: &[u8]) -> Result<()> {
    let length = u32::try_from(bytes.len())?;
    out.extend_from_slice(&length.to_be_bytes())?;
    out.extend_from_slice(bytes)?;
    Ok(())
}

/// Appends the encoding of the message of which this is signed, with this signature.
pub fn put_message(out: &mut Vec<u8>, text: &[u8], sig: &[u8]) -> Result<()> {
    let (sender, body) = text.split_at(text.len().min(SENDER));
    out.extend_from_slice(sender)?;
    put_length_prefixed(out, body)?;
    put_length_prefixed(out, sig)
}

/// The bytes of a message.
pub fn message_bytes(
    alloc: Global,
    signer: &mut Signer,
    role: Role,
    id: u32,
    body: Body,
) -> Result<Vec<u8>> {
    let (text, sig) = sign(alloc, signer, role, id, body)?;
    let mut bytes = Vec::new(alloc);
    put_message(&mut bytes, &text, &sig)?;
    Ok(bytes)
}

/// A message, opened.
pub fn message(
    alloc: Global,
    config: &Arc<Config>,
    signer: &mut Signer,
    role: Role,
    id: u32,
    body: Body,
) -> Result<Checked>
    ensures { IfOk result (λ m. m.config ≡ config.now.value) }
{
    let bytes = message_bytes(alloc, signer, role, id, body)?;
    Ok(open(alloc, config, &bytes)?)
}
