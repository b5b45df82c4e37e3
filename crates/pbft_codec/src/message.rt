//! Whole messages: encoding, decoding and what is signed.

ghost use Rattle.std.specs.Prelude.{◌≡◌, ◌≤◌, ◌<◌, ◌+◌, ◌++◌, ◌⊎◌, List, ℕ, length, Ok, Err, OnOk, IfOk, IfErr, IsOkUnless};
ghost use Rattle.pbft_codec.specs.declared.body.Body.{Body};
ghost use Rattle.codec_fields.specs.declared.fault.CodecFault.TheVariants.{Truncated, Trailing, TooLong, Memory};
ghost use Rattle.pbft_codec.specs.declared.signed.Signed.{Signed};
ghost use Rattle.pbft_codec.specs.Kinds.{kind_byte};
ghost use Rattle.codec_fields.specs.Fields.{Gives};
ghost use Rattle.pbft_codec.specs.Reading.{IsUnlessMemory, fields_at, body_at, reading};
ghost use Rattle.pbft_codec.specs.Bodies.{BodyWellFormed, BodyFieldsInRange};
ghost use Rattle.pbft_codec.specs.WellFormed.{WellFormed, Encodes};
ghost use Rattle.pbft_codec.specs.Bodies.{kind_in};
ghost use Rattle.pbft_codec.specs.Encoding.{body, encoding, signed_text, max_bytes};

use crate::codec::Codec;
use crate::lists::{put_signed, read_signed, read_whole};
use crate::signed::Signed;
use crate::writing::{put_role, put_u32};
use codec_fields::{CodecFault, ReadError};
use std::alloc::{AllocError, Global};

/// The most bytes of a message.
pub const MAX_BYTES: usize = 8_388_608;

/// The message that all of the bytes encode.
#[tactic(auto, unfolding(crate::specs::Reading::reading))]
fn read_message(alloc: Global, bytes: &[u8]) -> Result<Signed, ReadError>
    ensures { Gives (λ m. m) result (reading bytes.now) }
{
    if bytes.len() > MAX_BYTES {
        return Err(ReadError::Fault(CodecFault::TooLong));
    }
    read_whole(alloc, bytes)
}

/// The bytes of a message. `TooLong` comes exactly where there are more than 8,388,608 of them,
/// `Memory` where memory ran out. The caller owes a well-formed body: sequence numbers below 2^48,
/// counts within their limits, ids that ascend strictly among Checkpoints, Prepares and ViewChanges.
pub fn encode(alloc: Global, message: &Signed) -> Result<Vec<u8>, CodecFault>
    requires { BodyWellFormed message.now.body }

    // The one encoding, which `decode` reads again.
    ensures encoded { IfOk result (λ bytes. Encodes bytes.items message.now) }
    ensures refused { IfErr result (λ fault.
        (fault ≡ Memory) ⊎ (fault ≡ TooLong) × (max_bytes < length (encoding message.now))) }
{
    let mut bytes = Vec::new(alloc);
    put_signed(alloc, &mut bytes, message)?;
    if bytes.len() <= MAX_BYTES {
        Ok(bytes)
    } else {
        Err(CodecFault::TooLong)
    }
}

/// The message that all of the bytes encode. A refusal is the first fault from the left,
/// `TooLong` before all others; `Memory` comes where memory ran out, whatever the bytes.
pub fn decode(alloc: Global, bytes: &[u8]) -> Result<Signed, CodecFault>
    // What is read is encoded so.
    ensures found { IfOk result (λ m. Encodes bytes.now m) }

    // What is encoded so is read.
    ensures only { (m : Signed Body) → Encodes bytes.now m → IsUnlessMemory result (Ok m) }

    // Which fault it is.
    ensures exact { IsUnlessMemory result (reading bytes.now) }

    // A message that continues behind the bytes.
    ensures cut { (m : Signed Body) (rest : List ℕ) → 0 < length rest →
        Encodes (bytes.now ++ rest) m → IsUnlessMemory result (Err Truncated) }

    // A message that ends before the bytes do.
    ensures behind { (m : Signed Body) (rest : List ℕ) → 0 < length rest → WellFormed m →
        bytes.now ≡ encoding m ++ rest → length bytes.now ≤ max_bytes →
        IsUnlessMemory result (Err Trailing) }
{
    read_exactly(alloc, bytes)
}

fn read_exactly(alloc: Global, bytes: &[u8]) -> Result<Signed, CodecFault>
    ensures { IsUnlessMemory result (reading bytes.now) }
{
    match read_message(alloc, bytes) {
        Ok(message) => Ok(message),
        Err(ReadError::Memory) => Err(CodecFault::Memory),
        Err(ReadError::Fault(fault)) => Err(fault),
    }
}

/// The bytes that are signed: role, id and body, without the lengths between. It answers `Memory`
/// alone.
pub fn signed_bytes(alloc: Global, message: &Signed) -> Result<Vec<u8>, CodecFault>
    ensures text { IfOk result (λ bytes. bytes.items ≡ signed_text message.now) }
    ensures refused { IsOkUnless result Memory }
{
    let mut bytes = Vec::new(alloc);
    put_role(&mut bytes, message.role)?;
    put_u32(&mut bytes, message.id)?;
    message.body.put(alloc, &mut bytes)?;
    Ok(bytes)
}

/// What the signature of a message covers, cut out of the message's bytes: role and id, and the body.
pub fn signed_parts<'a>(message: &Signed, bytes: &'a [u8]) -> (&'a [u8], &'a [u8])
    requires { bytes.now ≡ encoding message.now }
    ensures { result.0.now ++ result.1.now ≡ signed_text message.now }
{
    parts_signed(bytes, message.sig.as_slice().len())
}

/// The same by the length of the signature alone.
pub(crate) fn parts_signed(bytes: &[u8], sig_length: usize) -> (&[u8], &[u8])
    requires { 13 + sig_length ≤ length bytes.now }
    ensures { (m : Signed Body) → bytes.now ≡ encoding m → length m.sig ≡ sig_length → result.0.now ++ result.1.now ≡ signed_text m }
{
    let (signer, rest) = bytes.split_at(5);
    let (_, rest) = rest.split_at(4);
    let behind = 4 + sig_length;
    let (body, _) = rest.split_at(rest.len() - behind);
    (signer, body)
}
