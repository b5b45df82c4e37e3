//! Chains run side by side: a value is eight vectors, which have a word of it in each lane.

ghost use Rattle.std.specs.Prelude.{◌≡◌, ℕ, ◌+◌, ◌-◌, ◌*◌, ◌/◌, ◌%◌, ◌^◌, ◌<◌, ◌≤◌, [], ◌∷◌, ◌++◌, slice_index, slice_index_or};
ghost use Rattle.std.specs.Int.{to_be_bytes, w32};
ghost use Rattle.lms_ots.specs.Ots.{chain, tagged_hash, u16str};
ghost use Rattle.sha2.specs.Sha256.{word_at};
ghost use Rattle.lms_ots.specs.Words.{bytes_of, step_block};
ghost use Rattle.sha_lanes.specs.Lanes.{HoldsBlock, hash_in};

use crate::words::word_at;
use sha_lanes::hash_block;
use std::simd::u32x8;

/// The length in bits of what a step hashes: an identifier, a leaf's number, a chain's, a step's and a value.
const INPUT_BITS: u32 = 8 * (16 + 4 + 2 + 1 + 32);

// The three low bytes of a word, and the high one of the next word.
#[inline(always)]
fn straddling(word: u32x8, next: u32x8) -> u32x8
    ensures { (j : ℕ) → j < 8 → slice_index result j ≡ word_at (to_be_bytes w32 (slice_index word j) ++ to_be_bytes w32 (slice_index next j)) 1 }
{
    (word << u32x8::splat(8)) + (next >> u32x8::splat(24))
}

// A chain's number, a step's, and the high byte of a word.
#[inline(always)]
fn tag_word(chains: u32x8, steps: u32x8, first: u32x8) -> u32x8
    requires chains { (j : ℕ) → j < 8 → slice_index chains j < 2 ^ 16 }
    requires steps { (j : ℕ) → j < 8 → slice_index steps j < 2 ^ 8 }
    ensures { (j : ℕ) → j < 8 → slice_index result j ≡ word_at (u16str (slice_index chains j) ++ slice_index steps j ∷ to_be_bytes w32 (slice_index first j)) 0 }
{
    (chains << u32x8::splat(16)) + (steps << u32x8::splat(8)) + (first >> u32x8::splat(24))
}

// The block that a step hashes, in each lane (RFC 8554, section 4.3, step 4).
#[inline(always)]
fn block(
    id: &[u8; 16],
    leaves: u32x8,
    chains: u32x8,
    steps: u32x8,
    values: &[u32x8; 8],
) -> [u32x8; 16]
    requires chains { (j : ℕ) → j < 8 → slice_index chains j < 2 ^ 16 }
    requires steps { (j : ℕ) → j < 8 → slice_index steps j < 2 ^ 8 }
    ensures { (j : ℕ) → j < 8 → HoldsBlock result j (step_block id.now (slice_index leaves j) (slice_index chains j) (slice_index steps j) (hash_in values.now j)) }
{
    let [a, b, c, d, e, f, g, h] = *values;
    let ends = u32x8::splat(0x8000_0000);
    [
        u32x8::splat(word_at(id, 0)),
        u32x8::splat(word_at(id, 4)),
        u32x8::splat(word_at(id, 8)),
        u32x8::splat(word_at(id, 12)),
        leaves,
        tag_word(chains, steps, a),
        straddling(a, b),
        straddling(b, c),
        straddling(c, d),
        straddling(d, e),
        straddling(e, f),
        straddling(f, g),
        straddling(g, h),
        straddling(h, ends),
        u32x8::splat(0),
        u32x8::splat(INPUT_BITS),
    ]
}

/// One step of a chain in each lane: of which leaf, which chain and which step it is, each lane has its own.
#[inline]
pub(crate) fn step_lanes(
    id: &[u8; 16],
    leaves: u32x8,
    chains: u32x8,
    steps: u32x8,
    values: &[u32x8; 8],
) -> [u32x8; 8]
    requires chains { (j : ℕ) → j < 8 → slice_index chains j < 2 ^ 16 }
    requires steps { (j : ℕ) → j < 8 → slice_index steps j < 2 ^ 8 }
    ensures { (j : ℕ) → j < 8 → bytes_of (hash_in result j)
        ≡ tagged_hash id.now (slice_index leaves j) (slice_index chains j) (slice_index steps j ∷ bytes_of (hash_in values.now j)) }
{
    hash_block(block(id, leaves, chains, steps, values))
}

// `x` in the lanes where `a` is below `b`, and `y` in the others.
#[inline(always)]
fn where_below(a: u32x8, b: u32x8, x: u32x8, y: u32x8) -> u32x8
    ensures below { (j : ℕ) → j < 8 → slice_index a j < slice_index b j → slice_index result j ≡ slice_index x j }
    ensures others { (j : ℕ) → j < 8 → slice_index b j ≤ slice_index a j → slice_index result j ≡ slice_index y j }
{
    a.simd_lt(b).select(x, y)
}

// What one word less another leaves.
#[inline(always)]
fn less(a: u32x8, b: u32x8) -> u32x8
    ensures { (j : ℕ) → j < 8 → slice_index result j ≡ (slice_index a j + (2 ^ 32 - slice_index b j)) % 2 ^ 32 }
{
    a - b
}

// The words that a step left in the lanes whose chain has that step, and those before it in the others. A chain has
// `counts` steps from `froms` on.
#[inline(always)]
fn chosen(steps: u32x8, froms: u32x8, counts: u32x8, stepped: u32x8, word: u32x8) -> u32x8
    requires { (j : ℕ) → j < 8 → slice_index froms j + slice_index counts j ≤ 2 ^ 8 }
    ensures within { (j : ℕ) → j < 8 → slice_index froms j ≤ slice_index steps j → slice_index steps j < slice_index froms j + slice_index counts j
        → slice_index result j ≡ slice_index stepped j }
    ensures before { (j : ℕ) → j < 8 → slice_index steps j < slice_index froms j → slice_index result j ≡ slice_index word j }
    ensures behind { (j : ℕ) → j < 8 → slice_index froms j + slice_index counts j ≤ slice_index steps j → slice_index result j ≡ slice_index word j }
{
    where_below(less(steps, froms), counts, stepped, word)
}

// The same for each word.
#[inline(always)]
fn chosen_values(
    steps: u32x8,
    froms: u32x8,
    counts: u32x8,
    stepped: &[u32x8; 8],
    values: &[u32x8; 8],
) -> [u32x8; 8]
    requires { (j : ℕ) → j < 8 → slice_index froms j + slice_index counts j ≤ 2 ^ 8 }
    ensures within { (j : ℕ) → j < 8 → slice_index froms j ≤ slice_index steps j → slice_index steps j < slice_index froms j + slice_index counts j
        → hash_in result j ≡ hash_in stepped.now j }
    ensures before { (j : ℕ) → j < 8 → slice_index steps j < slice_index froms j → hash_in result j ≡ hash_in values.now j }
    ensures behind { (j : ℕ) → j < 8 → slice_index froms j + slice_index counts j ≤ slice_index steps j → hash_in result j ≡ hash_in values.now j }
{
    [
        chosen(steps, froms, counts, stepped[0], values[0]),
        chosen(steps, froms, counts, stepped[1], values[1]),
        chosen(steps, froms, counts, stepped[2], values[2]),
        chosen(steps, froms, counts, stepped[3], values[3]),
        chosen(steps, froms, counts, stepped[4], values[4]),
        chosen(steps, froms, counts, stepped[5], values[5]),
        chosen(steps, froms, counts, stepped[6], values[6]),
        chosen(steps, froms, counts, stepped[7], values[7]),
    ]
}

// The least of eight numbers, or less.
fn least(numbers: &[u32; 8]) -> u32
    ensures { (j : ℕ) → j < 8 → result ≤ slice_index numbers.now j }
{
    numbers.iter().copied().min().unwrap_or(0)
}

// A step behind the last one of each chain.
fn end_of_all(froms: &[u32; 8], counts: &[u32; 8]) -> u32
    requires { (j : ℕ) → j < 8 → slice_index froms.now j + slice_index counts.now j ≤ 2 ^ 8 }
    ensures behind { (j : ℕ) → j < 8 → slice_index froms.now j + slice_index counts.now j ≤ result }
    ensures most { result ≤ 2 ^ 8 }
{
    let mut end = 0;
    'lanes: for j in 0..8 {
        end = end.max(froms[j] + counts[j]);
    }
    end
}

/// Runs a chain in each lane: of the leaf and with the number that the lane has, from its step in `froms` on, and as many steps
/// as `counts` says (RFC 8554, section 4.3, step 4).
pub(crate) fn run_lanes(
    id: &[u8; 16],
    leaves: u32x8,
    chains: u32x8,
    froms: &[u32; 8],
    counts: &[u32; 8],
    values: &mut [u32x8; 8],
)
    requires chains { (j : ℕ) → j < 8 → slice_index chains j < 2 ^ 16 }
    requires steps { (j : ℕ) → j < 8 → slice_index froms.now j + slice_index counts.now j ≤ 2 ^ 8 }
    ensures { (j : ℕ) → j < 8 → bytes_of (hash_in values.new j)
        ≡ chain id.now (slice_index leaves j) (slice_index chains j) (slice_index froms.now j) (slice_index counts.now j) (bytes_of (hash_in values.old j)) }
{
    let (first, counted) = (u32x8::from_array(*froms), u32x8::from_array(*counts));
    'steps: for step in least(froms)..end_of_all(froms, counts) {
        let steps = u32x8::splat(step);
        let stepped = step_lanes(id, leaves, chains, steps, values);
        *values = chosen_values(steps, first, counted, &stepped, values);
    }
}

// Word `k` of each of eight values.
#[inline(always)]
fn column(values: &[[u32; 8]; 8], k: usize) -> u32x8
    requires { k < 8 }
    ensures { (l : ℕ) → l < 8 → slice_index result l ≡ slice_index (slice_index_or values.now l []) k }
{
    u32x8::from_array([
        values[0][k],
        values[1][k],
        values[2][k],
        values[3][k],
        values[4][k],
        values[5][k],
        values[6][k],
        values[7][k],
    ])
}

/// Eight values side by side.
pub(crate) fn side_by_side(values: &[[u32; 8]; 8]) -> [u32x8; 8]
    ensures { (l : ℕ) → l < 8 → bytes_of (hash_in result l) ≡ bytes_of (slice_index_or values.now l []) }
{
    [
        column(values, 0),
        column(values, 1),
        column(values, 2),
        column(values, 3),
        column(values, 4),
        column(values, 5),
        column(values, 6),
        column(values, 7),
    ]
}

// The words of the value in a lane.
#[inline(always)]
fn lane(rows: &[[u32; 8]; 8], l: usize) -> [u32; 8]
    requires { l < 8 }
    ensures { result ≡ hash_in rows.now l }
{
    [
        rows[0][l], rows[1][l], rows[2][l], rows[3][l], rows[4][l], rows[5][l], rows[6][l],
        rows[7][l],
    ]
}

/// The eight values that stand side by side.
pub(crate) fn one_by_one(values: &[u32x8; 8]) -> [[u32; 8]; 8]
    ensures { (l : ℕ) → l < 8 → slice_index_or result l [] ≡ hash_in values.now l }
{
    let rows = [
        values[0].to_array(),
        values[1].to_array(),
        values[2].to_array(),
        values[3].to_array(),
        values[4].to_array(),
        values[5].to_array(),
        values[6].to_array(),
        values[7].to_array(),
    ];
    [
        lane(&rows, 0),
        lane(&rows, 1),
        lane(&rows, 2),
        lane(&rows, 3),
        lane(&rows, 4),
        lane(&rows, 5),
        lane(&rows, 6),
        lane(&rows, 7),
    ]
}
