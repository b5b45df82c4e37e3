//! Messages signed by plain signers, so that a faulty replica or client can say anything.

ghost use Rattle.std.specs.Prelude.{◌≡◌, IfOk};

use anyhow::Result;
use host_types::{Bytes, Config};
use lms_tree::Signer;
use pbft_codec::{Body, CodecFault, Role, Signed, signed_bytes};
use seal::{Checked, open};
use std::alloc::Global;
use std::sync::Arc;

/// The bytes of what is signed before the body: role and id.
const SENDER: usize = 5;

/// What is signed of a message with this body.
pub(crate) fn text_of(
    alloc: Global,
    role: Role,
    id: u32,
    body: Body,
) -> Result<Vec<u8>, CodecFault> {
    let unsigned = Signed {
        role,
        id,
        body,
        sig: Bytes::from_vec(Vec::new(alloc)),
    };
    signed_bytes(alloc, &unsigned)
}

/// The message of which this is signed, as its bytes.
pub(crate) fn sign_text(alloc: Global, signer: &mut Signer, text: &[u8]) -> Result<Vec<u8>> {
    let sig = signer.sign(text)?;
    let (sender, body) = text.split_at(text.len().min(SENDER));
    let mut bytes = sender.to_vec(alloc)?;
    put_length_prefixed(&mut bytes, body)?;
    put_length_prefixed(&mut bytes, &sig)?;
    Ok(bytes)
}

/// Appends the length of some bytes and these.
fn put_length_prefixed(out: &mut Vec<u8>, bytes: &[u8]) -> Result<()> {
    let length = u32::try_from(bytes.len())?;
    out.extend_from_slice(&length.to_be_bytes())?;
    out.extend_from_slice(bytes)?;
    Ok(())
}

/// The message with this body, opened.
pub(crate) fn message(
    alloc: Global,
    config: &Arc<Config>,
    signer: &mut Signer,
    role: Role,
    id: u32,
    body: Body,
) -> Result<Checked>
    ensures { IfOk result (λ m. m.config ≡ config.now.value) }
{
    let text = text_of(alloc, role, id, body)?;
    let bytes = sign_text(alloc, signer, &text)?;
    Ok(open(alloc, config, &bytes)?)
}
