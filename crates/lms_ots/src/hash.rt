//! Hashes that begin with a tree's identifier, a number and a tag, as each hash of RFC 8554 does.

ghost use Rattle.std.specs.Prelude.{◌≡◌, ◌+◌, ◌≤◌, ◌∷◌, ◌++◌, length, take};
ghost use Rattle.lms_ots.specs.Ots.{tagged_hash, u16str, u32str};
ghost use Rattle.sha2.specs.Hashers.{Holds256};

use sha2::{Digest, Sha256};

/// Copies `bytes` into `buffer`, from offset `at` on.
#[inline(always)]
pub fn put(buffer: &mut [u8], at: usize, bytes: &[u8])
    requires { at + length bytes.now ≤ length buffer.old }
    ensures { take (at + length bytes.now) buffer.new ≡ take at buffer.old ++ bytes.now }
{
    buffer[at..at + bytes.len()].copy_from_slice(bytes);
}

/// The bytes of a number, high first (RFC 8554, section 3.1.1).
#[inline(always)]
#[tactic(auto, unfolding(crate::specs::Ots::u32str))]
pub fn u32str(number: u32) -> [u8; 4]
    ensures { result ≡ u32str number }
{
    number.to_be_bytes()
}

// The bytes of a number, high first (RFC 8554, section 3.1.1).
#[inline(always)]
#[tactic(auto, unfolding(crate::specs::Ots::u16str))]
pub(crate) fn u16str(number: u16) -> [u8; 2]
    ensures { result ≡ u16str number }
{
    number.to_be_bytes()
}

// The hash of the identifier, `number`, `tag`, the byte `step` and `value`: 55 bytes, which are one
// block of SHA-256.
#[inline]
pub(crate) fn block_hash(
    id: &[u8; 16],
    number: u32,
    tag: u16,
    step: u8,
    value: &[u8; 32],
) -> [u8; 32]
    ensures { result ≡ tagged_hash id.now number tag (step ∷ value.now) }
{
    let mut input = [0u8; 55];
    put(&mut input, 0, id);
    put(&mut input, 16, &u32str(number));
    put(&mut input, 20, &u16str(tag));
    put(&mut input, 22, &[step]);
    put(&mut input, 23, value);
    Sha256::digest(&input)
}

/// A hasher that holds the identifier, `number` and `tag`, with which each hash of RFC 8554 begins.
pub fn hasher(id: &[u8; 16], number: u32, tag: u16) -> Sha256
    ensures { Holds256 result (id.now ++ u32str number ++ u16str tag) }
{
    let mut hasher = Sha256::new();
    hasher.update(id);
    hasher.update(u32str(number));
    hasher.update(u16str(tag));
    hasher
}
