//! LM-OTS, the one-time signatures of RFC 8554, section 4, under LMOTS_SHA256_N32_W4: hashes of 32
//! bytes, digits of 4 bits, and 67 chains of 15 steps.
//!
//! A key pair is named by a tree's identifier `id`, a leaf's number and a secret seed. It must sign
//! one message only: two signatures of one leaf give a forger the means to sign others. Nothing here
//! takes memory.
//!
//!     let signature = ots_sign(&id, 0, &secret, b"once");
//!     let valid = ots_candidate(&id, 0, b"once", &signature) == ots_public(&id, 0, &secret);
#![tactic(auto)]

ghost use Rattle.std.specs.Prelude.{◌≡◌, ℕ, ◌+◌, ◌-◌, ◌/◌, ◌≤◌, ◌<◌, ◌++◌, List, [], drop, length, slice_index, slice_index_or, take};
ghost use Rattle.lms_ots.specs.Ots.{candidate_of, chain_start, checksum, coef, digits_of, hash_of_ends, message_hash, message_prefix, public_value, randomizer, randomizer_in, signature_of, value_in};
ghost use Rattle.lms_ots.specs.Words.{bytes_of};
ghost use Rattle.sha2.specs.Hashers.{Holds256};

pub use eight::ots_publics;
use hash::{block_hash, u16str};
pub use hash::{hasher, put, u32str};
use leaf::LeafChains;
use sha2::{Digest, Sha256};
use words::{bytes_of, words_of};

mod eight;
mod hash;
mod lanes;
mod leaf;
mod words;

/// The length of a hash in bytes, which is n of RFC 8554, section 4.1.
const HASH_LEN: usize = 32;

/// The number of chains, which is p of RFC 8554, section 4.1.
const CHAIN_COUNT: usize = 67;

/// The last step's number plus one: each chain takes 15 steps.
const CHAIN_END: u8 = 15;

/// The typecode LMOTS_SHA256_N32_W4 of RFC 8554, section 4.1.
pub const TYPECODE: u32 = 3;

/// D_PBLC of RFC 8554, section 4.3.
const PUBLIC_TAG: u16 = 0x8080;

/// D_MESG of RFC 8554, section 4.3.
const MESSAGE_TAG: u16 = 0x8181;

/// In place of a chain's number where a leaf's randomizer is drawn from its seed.
const RANDOMIZER_TAG: u16 = 0xfffd;

/// In place of a step's number where a value is drawn from a seed (RFC 8554, appendix A).
const SEED_STEP: u8 = 0xff;

// Digit `i` of a string of 4-bit digits (RFC 8554, section 3.1.3).
fn coefficient(bytes: &[u8], i: usize) -> u8
    requires { i / 2 < length bytes.now }
    ensures value { result ≡ coef bytes.now i }
    ensures digit { result ≤ 15 }
{
    let byte = bytes[i / 2];
    if i % 2 == 0 { byte / 16 } else { byte % 16 }
}

// What the digits of a hash lack to 15 each, shifted left by 4 (RFC 8554, section 4.4).
fn checksum(q: &[u8; 32]) -> u16
    ensures { result ≡ checksum q.now }
{
    let mut sum: u16 = 0;
    'summing: for i in 0..2 * HASH_LEN {
        sum += u16::from(CHAIN_END - coefficient(q, i));
    }
    sum * 16
}

/// The digits of the hash `q` and of its checksum, each from 0 to 15 (RFC 8554, section 4.4).
pub fn digits(q: &[u8; 32]) -> [u8; 67]
    ensures { result ≡ digits_of q.now }
{
    let tail = u16str(checksum(q));
    let mut digits = [0u8; CHAIN_COUNT];
    'of_hash: for i in 0..2 * HASH_LEN {
        digits[i] = coefficient(q, i);
    }
    'of_checksum: for i in 2 * HASH_LEN..CHAIN_COUNT {
        digits[i] = coefficient(&tail, i - 2 * HASH_LEN);
    }
    digits
}

// The words of each chain's start, from the seed (RFC 8554, appendix A): a start is what a step that no chain has leaves of the seed.
fn chain_starts(id: &[u8; 16], leaf: u32, secret: &[u8; 32]) -> [[u32; 8]; 67]
    ensures { (i : ℕ) → i < 67 → bytes_of (slice_index_or result i []) ≡ chain_start id.now leaf secret.now i }
{
    LeafChains {
        id,
        leaf,
        starts: &[words_of(secret); CHAIN_COUNT],
        froms: &[SEED_STEP; CHAIN_COUNT],
        counts: &[1; CHAIN_COUNT],
    }
    .ends()
}

// The randomizer of a leaf's signature, from the seed.
fn randomizer(id: &[u8; 16], leaf: u32, secret: &[u8; 32]) -> [u8; 32]
    ensures { result ≡ randomizer id.now leaf secret.now }
{
    block_hash(id, leaf, RANDOMIZER_TAG, SEED_STEP, secret)
}

// A hasher that holds what comes before the message in the hash whose digits are signed (RFC 8554, section 4.5).
fn hasher_with(id: &[u8; 16], leaf: u32, randomizer: &[u8; 32]) -> Sha256
    ensures { Holds256 result (message_prefix id.now leaf randomizer.now) }
{
    let mut hasher = hasher(id, leaf, MESSAGE_TAG);
    hasher.update(randomizer);
    hasher
}

// The hash whose digits are signed (RFC 8554, section 4.5).
fn message_hash(id: &[u8; 16], leaf: u32, randomizer: &[u8; 32], message: &[u8]) -> [u8; 32]
    ensures { result ≡ message_hash id.now leaf randomizer.now message.now }
{
    let mut hasher = hasher_with(id, leaf, randomizer);
    hasher.update(message);
    hasher.finalize()
}

// The hash over the ends of the chains (RFC 8554, section 4.3, step 5).
fn hash_of_ends(id: &[u8; 16], leaf: u32, ends: &[[u32; 8]; 67]) -> [u8; 32]
    ensures { (end : ℕ → List ℕ) → ((i : ℕ) → i < 67 → bytes_of (slice_index_or ends.now i []) ≡ end i) → result ≡ hash_of_ends id.now leaf end }
{
    let mut hasher = hasher(id, leaf, PUBLIC_TAG);
    'chains: for i in 0..CHAIN_COUNT {
        hasher.update(bytes_of(&ends[i]));
    }
    hasher.finalize()
}

/// The public value of a leaf's key pair (RFC 8554, section 4.3).
pub fn ots_public(id: &[u8; 16], leaf: u32, secret: &[u8; 32]) -> [u8; 32]
    ensures { result ≡ public_value id.now leaf secret.now }
{
    let ends = LeafChains {
        id,
        leaf,
        starts: &chain_starts(id, leaf, secret),
        froms: &[0; CHAIN_COUNT],
        counts: &[CHAIN_END; CHAIN_COUNT],
    }
    .ends();
    hash_of_ends(id, leaf, &ends)
}

/// The signature of `message` by a leaf's key pair (RFC 8554, section 4.5): the typecode, the
/// randomizer, and a value of each chain. A key pair is to sign one message only, which its holder
/// sees to.
pub fn ots_sign(id: &[u8; 16], leaf: u32, secret: &[u8; 32], message: &[u8]) -> [u8; 2180]
    ensures { result ≡ signature_of id.now leaf secret.now message.now }
{
    let randomizer = randomizer(id, leaf, secret);
    let digits = digits(&message_hash(id, leaf, &randomizer, message));
    let values = LeafChains {
        id,
        leaf,
        starts: &chain_starts(id, leaf, secret),
        froms: &[0; CHAIN_COUNT],
        counts: &digits,
    }
    .ends();
    let mut signature = [0u8; 2180];
    put(&mut signature, 0, &u32str(TYPECODE));
    put(&mut signature, 4, &randomizer);
    'chains: for i in 0..CHAIN_COUNT {
        put(&mut signature, 36 + 32 * i, &bytes_of(&values[i]));
    }
    signature
}

/// A hasher for the message of a signature: it holds what comes before the message, which is fed to it, in
/// pieces as they come. What it ends with is the message's hash for `ots_candidate_of_hash`.
pub fn message_hasher(id: &[u8; 16], leaf: u32, signature: &[u8; 2180]) -> Sha256
    ensures { Holds256 result (message_prefix id.now leaf (randomizer_in signature.now)) }
{
    hasher_with(id, leaf, &hash_at(signature, 4))
}

/// The public value that a signature of `message` leads to (RFC 8554, section 4.6): the signature is
/// valid where that is the leaf's. All 2,180 bytes are taken as they are, and the typecode in the
/// first four is the caller's to check.
pub fn ots_candidate(id: &[u8; 16], leaf: u32, message: &[u8], signature: &[u8; 2180]) -> [u8; 32]
    ensures { result ≡ candidate_of id.now leaf message.now signature.now }
{
    let mut hasher = message_hasher(id, leaf, signature);
    hasher.update(message);
    ots_candidate_of_hash(id, leaf, &hasher.finalize(), signature)
}

/// As `ots_candidate`, of the message whose hash is `q`.
pub fn ots_candidate_of_hash(
    id: &[u8; 16],
    leaf: u32,
    q: &[u8; 32],
    signature: &[u8; 2180],
) -> [u8; 32]
    ensures { (message : List ℕ) → q.now ≡ message_hash id.now leaf (randomizer_in signature.now) message →
        result ≡ candidate_of id.now leaf message signature.now }
{
    let digits = digits(q);
    let ends = LeafChains {
        id,
        leaf,
        starts: &values_in(signature),
        froms: &digits,
        counts: &steps_left(&digits),
    }
    .ends();
    hash_of_ends(id, leaf, &ends)
}

// How many steps each chain has from its digit on.
fn steps_left(digits: &[u8; 67]) -> [u8; 67]
    requires { (i : ℕ) → i < 67 → slice_index digits.now i ≤ 15 }
    ensures { (i : ℕ) → i < 67 → slice_index result i ≡ 15 - slice_index digits.now i }
{
    let mut counts = [0u8; CHAIN_COUNT];
    'chains: for i in 0..CHAIN_COUNT {
        counts[i] = CHAIN_END - digits[i];
    }
    counts
}

// The words of each chain's value in a signature.
fn values_in(signature: &[u8; 2180]) -> [[u32; 8]; 67]
    ensures { (i : ℕ) → i < 67 → bytes_of (slice_index_or result i []) ≡ value_in signature.now i }
{
    let mut values = [[0u32; 8]; CHAIN_COUNT];
    'chains: for i in 0..CHAIN_COUNT {
        values[i] = words_of(&hash_at(signature, 36 + 32 * i));
    }
    values
}

// The 32 bytes of a signature from byte `at` on.
fn hash_at(signature: &[u8; 2180], at: usize) -> [u8; 32]
    requires { at + 32 ≤ 2180 }
    ensures { result ≡ take 32 (drop at signature.now) }
{
    let mut hash = [0u8; 32];
    hash.copy_from_slice(&signature[at..at + 32]);
    hash
}

/// **A signature leads to its own leaf's public value**, whatever the identifier, leaf, seed and
/// message.
pub fn signatures_lead_to_the_public_value()
    ensures { (id secret message : List ℕ) (leaf : ℕ)
        → candidate_of id leaf message (signature_of id leaf secret message) ≡ public_value id leaf secret }
{}
