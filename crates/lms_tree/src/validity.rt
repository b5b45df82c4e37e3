//! Validity of signatures under keys of either kind (RFC 8554, sections 5.4.2 and 6.3).

ghost use Rattle.std.specs.Prelude.{◌≡◌, Some, None, MatchResult};
ghost use Rattle.lms_tree.specs.Signature.{signature_fault};
ghost use Rattle.lms_tree.specs.Parts.{IsLast};

use crate::parts::last_tree;
use host_types::PublicKey;
use lms_level::{SigFault, Verifier as LmsVerifier};

/// The verification of a signature whose body is fed to it in pieces, as they come, so that they need not be
/// copied together: `Verifier::new(&key, &sig)?`, `update` with each piece, `finish`. It takes no memory.
#[derive(Drop)]
pub struct Verifier<'a> {
    key: &'a PublicKey,
    sig: &'a [u8],
    /// That of the tree whose leaf signed the body.
    last: LmsVerifier<'a>,
    ghost is_last: { IsLast last key.now sig.now },
}

impl<'a> Verifier<'a> {
    ghost use Rattle.std.specs.Prelude.{◌≡◌, ◌++◌, List, ℕ, [], None, Some, MatchResult};
    ghost use Rattle.lms_tree.specs.Signature.{signature_fault};
    ghost use Rattle.lms_tree.specs.Verifying.{IsFed};

    /// The verification of a signature under a public key, before the first byte of the body. Each fault but the
    /// last tree's `Mismatch` is found here, in the order that `verify` has, whatever the body: under a key of two
    /// levels the signature of the bottom tree's key is verified whole.
    pub fn new(key: &'a PublicKey, sig: &'a [u8]) -> Result<Verifier<'a>, SigFault>
        ensures { MatchResult result
            (λ v. (v.key.now ≡ key.now) × (v.sig.now ≡ sig.now) × IsFed v [])
            (λ fault. (body : List ℕ) → signature_fault key.now body sig.now ≡ Some fault) }
    {
        let last = last_tree(key, sig)?;
        Ok(Verifier { key, sig, last })
    }

    /// Takes the next bytes of the body.
    pub fn update(&mut self, piece: &[u8])
        ensures same { (self.new.key.now ≡ self.old.key.now) × (self.new.sig.now ≡ self.old.sig.now) }
        ensures fed { (body : List ℕ) → IsFed self.old body → IsFed self.new (body ++ piece.now) }
    {
        self.last.update(piece);
    }

    /// Whether the signature is valid, of the body that was fed: else the fault is `Mismatch`.
    pub fn finish(self) -> Result<(), SigFault>
        ensures { (body : List ℕ) → IsFed self.entry body →
            MatchResult result (λ _. signature_fault self.entry.key.now body self.entry.sig.now ≡ None)
            (λ fault. signature_fault self.entry.key.now body self.entry.sig.now ≡ Some fault) }
    {
        self.last.finish()
    }
}

/// Whether `sig` is a valid signature of `body` under the public key `key` (RFC 8554, sections 5.4.2 and 6.3). The
/// faults of a key of one tree come in the order of `lms_level::verify`. Those of a key of two levels come in this
/// order: `WrongType` for another number of levels or unknown types in the key, `Length` for a signature that ends
/// before its bottom tree's key does, `WrongType` for another number of keys than one and for unknown types in the
/// bottom tree's key, `Length` for another length than the two trees', and then the faults of the signature of the
/// bottom tree's key, and those of the body's, each by `WrongType`, `Leaf` and `Mismatch`. It takes no memory.
pub fn verify(key: &PublicKey, body: &[u8], sig: &[u8]) -> Result<(), SigFault>
    ensures { MatchResult result (λ _. signature_fault key.now body.now sig.now ≡ None)
        (λ fault. signature_fault key.now body.now sig.now ≡ Some fault) }
{
    let mut verifier = Verifier::new(key, sig)?;
    verifier.update(body);
    verifier.finish()
}
