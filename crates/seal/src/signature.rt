//! Verifies signatures of texts in two parts, which need not be copied together.

ghost use Rattle.std.specs.Prelude.{◌≡◌, ◌⊎◌, ◌++◌, ℕ, List, Some, None, IfOk, IfErr, OnOk, MatchResult};
ghost use Rattle.lms_tree.specs.Signature.{signature_fault};
ghost use Rattle.lms_tree.specs.Verifying.{IsFed};
ghost use Rattle.lms_tree.specs.declared.SigFault.{SigFault};
ghost use Rattle.seal.specs.declared.fault.SealFault.TheVariants.{BadSignature, Memory};

use crate::fault::SealFault;
use host_types::PublicKey;
use lms_tree::{SigFault, Verifier};
use std::alloc::{AllocError, Global};

/// How many bytes are hashed, and then as many copied: 16 blocks of SHA-256, a part of the processor's first
/// cache.
const PIECE: usize = 1024;

/// The bytes of a text that fill the first block of SHA-256: 54 come before the text, and the head has 5. So the
/// pieces behind them are whole blocks, none of which the hasher has to keep in parts.
const FRONT: usize = 5;

/// Whether a signature of a text is valid.
pub fn check_signature(
    key: &PublicKey,
    head: &[u8],
    tail: &[u8],
    sig: &[u8],
) -> Result<(), SigFault>
    ensures { MatchResult result (λ _. signature_fault key.now (head.now ++ tail.now) sig.now ≡ None)
        (λ fault. signature_fault key.now (head.now ++ tail.now) sig.now ≡ Some fault) }
{
    let mut verifier = Verifier::new(key, sig)?;
    verifier.update(head);
    verifier.update(tail);
    verifier.finish()
}

/// Checks a signature as `check_signature` does, and copies bytes meanwhile, which are those of the text but
/// for a few: a piece that was just hashed is at hand, so its copy costs next to nothing. The fault is
/// `BadSignature`, or `Memory`.
pub fn copy_checked(
    alloc: Global,
    key: &PublicKey,
    head: &[u8],
    tail: &[u8],
    sig: &[u8],
    bytes: &[u8],
) -> Result<Vec<u8>, SealFault>
    ensures copied { IfOk result (λ copy. copy.items ≡ bytes.now) }
    ensures valid { IfOk result (λ _. signature_fault key.now (head.now ++ tail.now) sig.now ≡ None) }
    ensures refused { IfErr result (λ fault. (fault ≡ Memory) ⊎ ((fault ≡ BadSignature)
        × (f : SigFault) × (signature_fault key.now (head.now ++ tail.now) sig.now ≡ Some f))) }
{
    let mut verifier = match Verifier::new(key, sig) {
        Ok(verifier) => verifier,
        Err(_) => return Err(SealFault::BadSignature),
    };
    let mut copy = Vec::with_capacity(alloc, bytes.len())?;
    let (front, rest) = tail.split_at(FRONT.min(tail.len()));
    verifier.update(head);
    verifier.update(front);
    update_and_copy(&mut verifier, rest, bytes, &mut copy)?;
    match verifier.finish() {
        Ok(()) => Ok(copy),
        Err(_) => Err(SealFault::BadSignature),
    }
}

/// Feeds a text to a verification, piece by piece, and appends bytes to a copy meanwhile.
fn update_and_copy(
    verifier: &mut Verifier<'_>,
    text: &[u8],
    bytes: &[u8],
    copy: &mut Vec<u8>,
) -> Result<(), AllocError>
    ensures same { OnOk result ((verifier.new.key.now ≡ verifier.old.key.now) × (verifier.new.sig.now ≡ verifier.old.sig.now)) }
    ensures fed { OnOk result ((body : List ℕ) → IsFed verifier.old body → IsFed verifier.new (body ++ text.now)) }
    ensures copied { OnOk result (copy.new.items ≡ copy.old.items ++ bytes.now) }
{
    let mut unhashed = text;
    let mut uncopied = bytes;
    while !unhashed.is_empty() {
        let (piece, later) = unhashed.split_at(PIECE.min(unhashed.len()));
        verifier.update(piece);
        unhashed = later;
        let (part, rest) = uncopied.split_at(PIECE.min(uncopied.len()));
        copy.extend_from_slice(part)?;
        uncopied = rest;
    }
    copy.extend_from_slice(uncopied)?;
    Ok(())
}
