//! The public values of eight leaves side by side, a lane for each: their chains and the hashes over the chains' ends.

ghost use Rattle.std.specs.Prelude.{◌≡◌, ℕ, ◌+◌, ◌<◌, ◌≤◌, ◌^◌, ◌++◌, List, [], drop, length, slice_index, slice_index_or, take};
ghost use Rattle.sha2.specs.Sha256.{hash_after, initial_hash_256, padded_message, word_at};
ghost use Rattle.sha_lanes.specs.Lanes.{HoldsBlock, hash_in};
ghost use Rattle.lms_ots.specs.Ots.{chain, chain_start, concatenation, public_value, u16str, u32str};
ghost use Rattle.lms_ots.specs.Words.{bytes_of};

use crate::hash::{put, u16str, u32str};
use crate::lanes::{one_by_one, run_lanes, step_lanes};
use crate::words::{bytes_of, word_at, words_of};
use crate::{CHAIN_COUNT, CHAIN_END, PUBLIC_TAG, SEED_STEP};
use sha_lanes::{compress, initial_hash};
use std::simd::u32x8;

/// The length of what is hashed of a leaf's ends: an identifier, a leaf's number, a tag and 67 ends; and its padding.
const PADDED_LEN: usize = 2176;

/// The blocks of that.
const BLOCK_COUNT: usize = 34;

/// The padding (FIPS 180-4, section 5.1.1): a bit 1, zeros, and the length of 17,328 bits.
const PADDING: [u8; 10] = [0x80, 0, 0, 0, 0, 0, 0, 0, 0x43, 0xb0];

/// The public values of eight leaves' key pairs, of the one with number `first` and of those behind it (RFC 8554, section
/// 4.3): what eight calls of `ots_public` give, in less time.
pub fn ots_publics(id: &[u8; 16], first: u32, secret: &[u8; 32]) -> [[u8; 32]; 8]
    requires { first + 8 ≤ 2 ^ 32 }
    ensures { (l : ℕ) → l < 8 → slice_index_or result l [] ≡ public_value id.now (first + l) secret.now }
{
    let ends = all_ends(id, leaves_from(first), &words_of(secret));
    hash_eight(&[
        padded_ends(id, first, &ends, 0),
        padded_ends(id, first + 1, &ends, 1),
        padded_ends(id, first + 2, &ends, 2),
        padded_ends(id, first + 3, &ends, 3),
        padded_ends(id, first + 4, &ends, 4),
        padded_ends(id, first + 5, &ends, 5),
        padded_ends(id, first + 6, &ends, 6),
        padded_ends(id, first + 7, &ends, 7),
    ])
}

// A leaf's number in each lane.
fn leaves_from(first: u32) -> u32x8
    requires { first + 8 ≤ 2 ^ 32 }
    ensures { (l : ℕ) → l < 8 → slice_index result l ≡ first + l }
{
    u32x8::from_array([
        first,
        first + 1,
        first + 2,
        first + 3,
        first + 4,
        first + 5,
        first + 6,
        first + 7,
    ])
}

// The ends of chain `i` of eight leaves.
fn ends_of_chain(id: &[u8; 16], leaves: u32x8, i: u32, secret: &[u32; 8]) -> [[u32; 8]; 8]
    requires { i < 2 ^ 16 }
    ensures { (l : ℕ) → l < 8 → bytes_of (slice_index_or result l [])
        ≡ chain id.now (slice_index leaves l) i 0 15 (chain_start id.now (slice_index leaves l) (bytes_of secret.now) i) }
{
    let (chains, seed_step) = (u32x8::splat(i), u32x8::splat(SEED_STEP as u32));
    let mut values = step_lanes(id, leaves, chains, seed_step, &in_each(secret));
    run_lanes(
        id,
        leaves,
        chains,
        &[0; 8],
        &[CHAIN_END as u32; 8],
        &mut values,
    );
    one_by_one(&values)
}

// The same value in each lane.
fn in_each(words: &[u32; 8]) -> [u32x8; 8]
    ensures { (l : ℕ) → l < 8 → bytes_of (hash_in result l) ≡ bytes_of words.now }
{
    [
        u32x8::splat(words[0]),
        u32x8::splat(words[1]),
        u32x8::splat(words[2]),
        u32x8::splat(words[3]),
        u32x8::splat(words[4]),
        u32x8::splat(words[5]),
        u32x8::splat(words[6]),
        u32x8::splat(words[7]),
    ]
}

// The ends of each chain of eight leaves.
fn all_ends(id: &[u8; 16], leaves: u32x8, secret: &[u32; 8]) -> [[[u32; 8]; 8]; 67]
    ensures { (i l : ℕ) → i < 67 → l < 8 → bytes_of (slice_index_or (slice_index_or result i []) l [])
        ≡ chain id.now (slice_index leaves l) i 0 15 (chain_start id.now (slice_index leaves l) (bytes_of secret.now) i) }
{
    let mut ends = [[[0u32; 8]; 8]; CHAIN_COUNT];
    'chains: for i in 0..CHAIN_COUNT {
        ends[i] = ends_of_chain(id, leaves, i as u32, secret);
    }
    ends
}

// What is hashed of the ends of one of eight leaves, and its padding.
fn padded_ends(id: &[u8; 16], leaf: u32, ends: &[[[u32; 8]; 8]; 67], l: usize) -> [u8; 2176]
    requires { l < 8 }
    ensures { (end : ℕ → List ℕ) → ((i : ℕ) → i < 67 → bytes_of (slice_index_or (slice_index_or ends.now i []) l []) ≡ end i)
        → result ≡ padded_message (id.now ++ u32str leaf ++ u16str 0x8080 ++ concatenation end 67) }
{
    let mut buffer = [0u8; PADDED_LEN];
    put(&mut buffer, 0, id);
    put(&mut buffer, 16, &u32str(leaf));
    put(&mut buffer, 20, &u16str(PUBLIC_TAG));
    'chains: for i in 0..CHAIN_COUNT {
        put(&mut buffer, 22 + 32 * i, &bytes_of(&ends[i][l]));
    }
    put(&mut buffer, PADDED_LEN - PADDING.len(), &PADDING);
    buffer
}

// Word `at` of each of eight messages.
#[inline(always)]
fn words_at(messages: &[[u8; 2176]; 8], at: usize) -> u32x8
    requires { at + 4 ≤ 2176 }
    ensures { (l : ℕ) → l < 8 → slice_index result l ≡ word_at (slice_index_or messages.now l []) at }
{
    u32x8::from_array([
        word_at(&messages[0], at),
        word_at(&messages[1], at),
        word_at(&messages[2], at),
        word_at(&messages[3], at),
        word_at(&messages[4], at),
        word_at(&messages[5], at),
        word_at(&messages[6], at),
        word_at(&messages[7], at),
    ])
}

// The block at `at` of each of eight messages.
#[inline(always)]
fn block_at(messages: &[[u8; 2176]; 8], at: usize) -> [u32x8; 16]
    requires { at + 64 ≤ 2176 }
    ensures { (l : ℕ) → l < 8 → HoldsBlock result l (take 64 (drop at (slice_index_or messages.now l []))) }
{
    [
        words_at(messages, at),
        words_at(messages, at + 4),
        words_at(messages, at + 8),
        words_at(messages, at + 12),
        words_at(messages, at + 16),
        words_at(messages, at + 20),
        words_at(messages, at + 24),
        words_at(messages, at + 28),
        words_at(messages, at + 32),
        words_at(messages, at + 36),
        words_at(messages, at + 40),
        words_at(messages, at + 44),
        words_at(messages, at + 48),
        words_at(messages, at + 52),
        words_at(messages, at + 56),
        words_at(messages, at + 60),
    ]
}

// The hashes of eight messages that are padded already (FIPS 180-4, section 6.2.2).
fn hash_eight(messages: &[[u8; 2176]; 8]) -> [[u8; 32]; 8]
    ensures { (l : ℕ) → l < 8 → slice_index_or result l [] ≡ bytes_of (hash_after initial_hash_256 (slice_index_or messages.now l []) 34) }
{
    let mut hash = initial_hash();
    'hashing: for b in 0..BLOCK_COUNT {
        hash = compress(hash, block_at(messages, 64 * b));
    }
    let words = one_by_one(&hash);
    [
        bytes_of(&words[0]),
        bytes_of(&words[1]),
        bytes_of(&words[2]),
        bytes_of(&words[3]),
        bytes_of(&words[4]),
        bytes_of(&words[5]),
        bytes_of(&words[6]),
        bytes_of(&words[7]),
    ]
}
