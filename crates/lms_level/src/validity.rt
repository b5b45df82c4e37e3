//! Validity of signatures (RFC 8554, section 5.4.2).

ghost use Rattle.std.specs.Prelude.{◌≡◌, ℕ, ◌+◌, ◌*◌, ◌^◌, ◌<◌, ◌≤◌, List, length, take, drop, Some, None, MatchResult};
ghost use Rattle.std.specs.Str.{bytes_eq};
ghost use Rattle.lms_level.specs.Signature.{candidate_root, key_height, key_root, levels_of, ots_typecode, signature_fault, typecode_of, word_at};
ghost use Rattle.lms_level.specs.Verifying.{IsHashOf};

use crate::fault::SigFault;
use crate::height::Height;
use crate::nodes::{leaf_node, parent};
use lms_ots::{message_hasher, ots_candidate_of_hash};
use sha2::{Digest, Sha256};

/// The offset of the tree's typecode in a signature.
const TYPECODE_OFFSET: usize = 2184;

/// The offset of the path in a signature.
const PATH_OFFSET: usize = 2188;

/// The number in the 4 bytes from offset `at` on (RFC 8554, section 3.1.1).
#[tactic(auto, unfolding(crate::specs::Signature::word_at))]
pub fn word_at(bytes: &[u8], at: usize) -> u32
    requires { at + 4 ≤ length bytes.now }
    ensures { result ≡ word_at bytes.now at }
{
    u32::from_be_bytes([bytes[at], bytes[at + 1], bytes[at + 2], bytes[at + 3]])
}

// The `N` bytes from offset `at` on.
fn bytes_at<const N: usize>(bytes: &[u8], at: usize) -> [u8; N]
    requires { at + N ≤ length bytes.now }
    ensures { result ≡ take N (drop at bytes.now) }
{
    let mut part = [0u8; N];
    part.copy_from_slice(&bytes[at..at + N]);
    part
}

/// The height of a public key, if its two types are known.
pub fn key_height(key: &[u8; 56]) -> Option<Height>
    ensures { result ≡ key_height key.now }
{
    if word_at(key, 4) == lms_ots::TYPECODE {
        Height::from_typecode(word_at(key, 0))
    } else {
        None
    }
}

// The root that a signature leads to, of the message whose hash is `q`.
fn candidate_root(height: Height, id: &[u8; 16], q: &[u8; 32], sig: &[u8]) -> [u8; 32]
    requires long { length sig.now ≡ 2188 + 32 * levels_of height }
    requires leaf { word_at sig.now 0 < 2 ^ levels_of height }
    ensures { (message : List ℕ) → IsHashOf q.now id.now sig.now message →
        result ≡ candidate_root (levels_of height) id.now message sig.now }
{
    let leaf = word_at(sig, 0);
    let ots: [u8; 2180] = bytes_at(sig, 4);
    let first = height.leaf_count() + leaf;
    let mut value = leaf_node(id, first, &ots_candidate_of_hash(id, leaf, q, &ots));
    'path: for i in 0..height.levels() {
        let sibling_node: [u8; 32] = bytes_at(sig, PATH_OFFSET + 32 * i);
        value = parent(id, first >> i, &value, &sibling_node);
    }
    value
}

// Whether a public key's root is `root`.
fn is_root(key: &[u8; 56], root: &[u8; 32]) -> bool
    ensures { result ≡ bytes_eq root.now (key_root key.now) }
{
    let own: [u8; 32] = bytes_at(key, 24);
    root.as_slice() == own.as_slice()
}

/// The verification of a signature whose body is fed to it in pieces, as they come, so that they need not be
/// copied together: `Verifier::new(&key, &sig)?`, `update` with each piece, `finish`. It takes no memory.
#[derive(Drop)]
pub struct Verifier<'a> {
    key: &'a [u8; 56],
    sig: &'a [u8],
    height: Height,
    hasher: Sha256,
    ghost of_key: { key_height key.now ≡ Some height },
    ghost long: { length sig.now ≡ 2188 + 32 * levels_of height },
    ghost ots_type: { word_at sig.now 4 ≡ ots_typecode },
    ghost type_of_tree: { word_at sig.now 2184 ≡ typecode_of height },
    ghost leaf: { word_at sig.now 0 < 2 ^ levels_of height },
}

impl<'a> Verifier<'a> {
    ghost use Rattle.std.specs.Prelude.{◌≡◌, ◌++◌, List, ℕ, [], None, Some, MatchResult};
    ghost use Rattle.lms_level.specs.Signature.{signature_fault};
    ghost use Rattle.lms_level.specs.Verifying.{Holds};

    /// The verification of a signature under a public key, before the first byte of the body. Each fault but
    /// `Mismatch` is found here, in the order that `verify` has, whatever the body.
    pub fn new(key: &'a [u8; 56], sig: &'a [u8]) -> Result<Verifier<'a>, SigFault>
        ensures { MatchResult result
            (λ v. (v.key.now ≡ key.now) × (v.sig.now ≡ sig.now) × Holds v.hasher key.now sig.now [])
            (λ fault. (body : List ℕ) → signature_fault key.now body sig.now ≡ Some fault) }
    {
        let Some(height) = key_height(key) else {
            return Err(SigFault::WrongType);
        };
        if sig.len() != height.signature_len() {
            return Err(SigFault::Length);
        }
        if word_at(sig, 4) != lms_ots::TYPECODE
            || word_at(sig, TYPECODE_OFFSET) != height.typecode()
        {
            return Err(SigFault::WrongType);
        }
        let leaf = word_at(sig, 0);
        if leaf >= height.leaf_count() {
            return Err(SigFault::Leaf);
        }
        let hasher = message_hasher(&bytes_at(key, 8), leaf, &bytes_at(sig, 4));
        Ok(Verifier {
            key,
            sig,
            height,
            hasher,
        })
    }

    /// Takes the next bytes of the body.
    pub fn update(&mut self, piece: &[u8])
        ensures same { (self.new.key.now ≡ self.old.key.now) × (self.new.sig.now ≡ self.old.sig.now) }
        ensures taken { (key sig body : List ℕ) → Holds self.old.hasher key sig body →
            Holds self.new.hasher key sig (body ++ piece.now) }
    {
        self.hasher.update(piece);
    }

    /// Whether the signature is valid, of the body that was fed: else the fault is `Mismatch`.
    pub fn finish(self) -> Result<(), SigFault>
        ensures { (body : List ℕ) → Holds self.entry.hasher self.entry.key.now self.entry.sig.now body →
            MatchResult result (λ _. signature_fault self.entry.key.now body self.entry.sig.now ≡ None)
            (λ fault. signature_fault self.entry.key.now body self.entry.sig.now ≡ Some fault) }
    {
        let (key, sig) = (self.key, self.sig);
        let q = self.hasher.finalize();
        let root = candidate_root(self.height, &bytes_at(key, 8), &q, sig);
        if is_root(key, &root) {
            Ok(())
        } else {
            Err(SigFault::Mismatch)
        }
    }
}

/// Whether `sig` is a valid signature of `body` under the public key `key` (RFC 8554, section 5.4.2):
/// the typecode and the one-time typecode, the identifier and the root. The faults come in this
/// order: `WrongType` for a key of unknown types, `Length` for a signature that has not the length of
/// the key's height (2,348 bytes or 2,508), `WrongType` for types in the signature that are not the
/// key's, `Leaf` for a leaf that the tree does not have, and `Mismatch`. It takes no memory.
pub fn verify(key: &[u8; 56], body: &[u8], sig: &[u8]) -> Result<(), SigFault>
    ensures { MatchResult result (λ _. signature_fault key.now body.now sig.now ≡ None)
        (λ fault. signature_fault key.now body.now sig.now ≡ Some fault) }
{
    let mut verifier = Verifier::new(key, sig)?;
    verifier.update(body);
    verifier.finish()
}
