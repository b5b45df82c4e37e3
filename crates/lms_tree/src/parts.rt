//! The parts of a key and of a signature of two levels (RFC 8554, section 6.3).

ghost use Rattle.std.specs.Prelude.{◌≡◌, ℕ, List, [], Some, MatchResult};
ghost use Rattle.lms_tree.specs.Signature.{hss_fault, signature_fault};
ghost use Rattle.lms_tree.specs.Parts.{AreCut, AreParts, IsFedTo, IsLast, IsLastOf};

use host_types::PublicKey;
use lms_level::{Height, SigFault, Verifier as LmsVerifier, key_height, word_at};

/// The levels of trees, which is L of RFC 8554, section 6.1.
const LEVELS: u32 = 2;

/// The number of keys that a signature carries, which is Nspk of RFC 8554, section 6.2.
const SIGNED_KEYS: u32 = 1;

/// The length of one tree's key.
const KEY_LEN: usize = 56;

/// The parts of a key and of a signature of two levels.
#[derive(Clone, Copy)]
struct Parts<'a> {
    /// The height of the top tree.
    top: Height,
    /// pub[0]
    top_key: &'a [u8; 56],
    /// sig[0]
    key_signature: &'a [u8],
    /// pub[1]
    signed_key: &'a [u8; 56],
    /// sig[1]
    last_signature: &'a [u8],
}

// The parts, if the key's levels and types are right, the signature reaches behind pub[1], and has one such key.
fn cut<'a>(key: &'a [u8; 60], sig: &'a [u8]) -> Result<Parts<'a>, SigFault>
    ensures { MatchResult result (λ p. AreCut p key.now sig.now)
        (λ fault. (body : List ℕ) → hss_fault key.now body sig.now ≡ Some fault) }
{
    if word_at(key, 0) != LEVELS {
        return Err(SigFault::WrongType);
    }
    let Some(top_key) = key[4..].as_array::<56>() else {
        return Err(SigFault::WrongType);
    };
    let Some(top) = key_height(top_key) else {
        return Err(SigFault::WrongType);
    };
    let end = 4 + top.signature_len();
    if sig.len() < end + KEY_LEN {
        return Err(SigFault::Length);
    }
    if word_at(sig, 0) != SIGNED_KEYS {
        return Err(SigFault::WrongType);
    }
    let Some(signed_key) = sig[end..end + KEY_LEN].as_array::<56>() else {
        return Err(SigFault::Length);
    };
    Ok(Parts {
        top,
        top_key,
        key_signature: &sig[4..end],
        signed_key,
        last_signature: &sig[end + KEY_LEN..],
    })
}

// The parts, if the bottom tree's types and the whole length are right too.
fn split<'a>(key: &'a [u8; 60], sig: &'a [u8]) -> Result<Parts<'a>, SigFault>
    ensures { MatchResult result (λ p. AreParts p key.now sig.now)
        (λ fault. (body : List ℕ) → hss_fault key.now body sig.now ≡ Some fault) }
{
    let parts = cut(key, sig)?;
    let (signed_key, last_signature) = (parts.signed_key, parts.last_signature);
    let Some(bottom) = key_height(signed_key) else {
        return Err(SigFault::WrongType);
    };
    if last_signature.len() != bottom.signature_len() {
        return Err(SigFault::Length);
    }
    Ok(parts)
}

// The verification of the last tree's signature, once that of its key is verified.
fn last_verifier<'a>(key: &'a [u8; 60], sig: &'a [u8]) -> Result<LmsVerifier<'a>, SigFault>
    ensures { MatchResult result (λ v. IsLastOf v key.now sig.now)
        (λ fault. (body : List ℕ) → hss_fault key.now body sig.now ≡ Some fault) }
{
    let Parts {
        top: _,
        top_key,
        key_signature,
        signed_key,
        last_signature,
    } = split(key, sig)?;
    match lms_level::verify(top_key, signed_key, key_signature) {
        Ok(()) => LmsVerifier::new(signed_key, last_signature),
        Err(fault) => Err(fault),
    }
}

// The verification of the tree whose leaf signed the body, under a key of either kind.
pub(crate) fn last_tree<'a>(key: &'a PublicKey, sig: &'a [u8]) -> Result<LmsVerifier<'a>, SigFault>
    ensures { MatchResult result (λ v. IsLast v key.now sig.now × IsFedTo v [])
        (λ fault. (body : List ℕ) → signature_fault key.now body sig.now ≡ Some fault) }
{
    match key {
        PublicKey::Lms(own) => LmsVerifier::new(own, sig),
        PublicKey::Hss(levels) => last_verifier(levels, sig),
    }
}
