//! The 67 chains of a leaf, eight side by side.

ghost use Rattle.std.specs.Prelude.{◌≡◌, ℕ, ◌+◌, ◌<◌, ◌≤◌, ◌^◌, [], true, false, slice_index, slice_index_or};
ghost use Rattle.lms_ots.specs.Words.{HoldEnds, bytes_of, end_of};

use crate::CHAIN_COUNT;
use crate::lanes::{one_by_one, run_lanes, side_by_side};
use std::simd::u32x8;

/// What is to be run of a leaf's chains: of each chain the words that it begins with, its first step and how many steps.
#[derive(Clone, Copy)]
pub(crate) struct LeafChains<'a> {
    pub(crate) id: &'a [u8; 16],
    pub(crate) leaf: u32,
    pub(crate) starts: &'a [[u32; 8]; 67],
    pub(crate) froms: &'a [u8; 67],
    pub(crate) counts: &'a [u8; 67],
}

/// What is known of the chains that have ended: the words of their ends.
#[derive(Drop)]
pub(crate) struct Ends {
    words: [[u32; 8]; 67],
    has_ended: [bool; 67],
}

// A number of each of eight chains.
fn of_eight(numbers: &[u8; 67], eight: &[usize; 8]) -> [u32; 8]
    requires { (l : ℕ) → l < 8 → slice_index eight.now l < 67 }
    ensures { (l : ℕ) → l < 8 → slice_index result l ≡ slice_index numbers.now (slice_index eight.now l) }
{
    [
        u32::from(numbers[eight[0]]),
        u32::from(numbers[eight[1]]),
        u32::from(numbers[eight[2]]),
        u32::from(numbers[eight[3]]),
        u32::from(numbers[eight[4]]),
        u32::from(numbers[eight[5]]),
        u32::from(numbers[eight[6]]),
        u32::from(numbers[eight[7]]),
    ]
}

// The words of each of eight chains.
fn words_of_eight(words: &[[u32; 8]; 67], eight: &[usize; 8]) -> [[u32; 8]; 8]
    requires { (l : ℕ) → l < 8 → slice_index eight.now l < 67 }
    ensures { (l : ℕ) → l < 8 → slice_index_or result l [] ≡ slice_index_or words.now (slice_index eight.now l) [] }
{
    [
        words[eight[0]],
        words[eight[1]],
        words[eight[2]],
        words[eight[3]],
        words[eight[4]],
        words[eight[5]],
        words[eight[6]],
        words[eight[7]],
    ]
}

// Eight chains' numbers in the lanes.
fn chain_numbers(eight: &[usize; 8]) -> u32x8
    requires { (l : ℕ) → l < 8 → slice_index eight.now l < 67 }
    ensures { (l : ℕ) → l < 8 → slice_index result l ≡ slice_index eight.now l }
{
    u32x8::from_array([
        eight[0] as u32,
        eight[1] as u32,
        eight[2] as u32,
        eight[3] as u32,
        eight[4] as u32,
        eight[5] as u32,
        eight[6] as u32,
        eight[7] as u32,
    ])
}

impl LeafChains<'_> {
    // The ends of eight chains.
    fn eight_ends(&self, eight: &[usize; 8]) -> [[u32; 8]; 8]
        requires eight { (l : ℕ) → l < 8 → slice_index eight.now l < 67 }
        requires steps { (i : ℕ) → i < 67 → slice_index self.now.froms.now i + slice_index self.now.counts.now i ≤ 2 ^ 8 }
        ensures { (l : ℕ) → l < 8 → bytes_of (slice_index_or result l [])
            ≡ end_of self.now.id.now self.now.leaf self.now.froms.now self.now.counts.now self.now.starts.now (slice_index eight.now l) }
    {
        let starts = words_of_eight(self.starts, eight);
        let (froms, counts) = (of_eight(self.froms, eight), of_eight(self.counts, eight));
        let mut values = side_by_side(&starts);
        run_lanes(
            self.id,
            u32x8::splat(self.leaf),
            chain_numbers(eight),
            &froms,
            &counts,
            &mut values,
        );
        one_by_one(&values)
    }

    // Runs eight chains, and keeps their ends.
    fn run_eight(&self, eight: &[usize; 8], ends: &mut Ends)
        requires eight { (l : ℕ) → l < 8 → slice_index eight.now l < 67 }
        requires steps { (i : ℕ) → i < 67 → slice_index self.now.froms.now i + slice_index self.now.counts.now i ≤ 2 ^ 8 }
        requires ends { HoldEnds (end_of self.now.id.now self.now.leaf self.now.froms.now self.now.counts.now self.now.starts.now) ends.old.words ends.old.has_ended }
        ensures ends { HoldEnds (end_of self.now.id.now self.now.leaf self.now.froms.now self.now.counts.now self.now.starts.now) ends.new.words ends.new.has_ended }
        ensures kept { (i : ℕ) → slice_index_or ends.old.has_ended i false ≡ true → slice_index_or ends.new.has_ended i false ≡ true }
        ensures ended { (l : ℕ) → l < 8 → slice_index_or ends.new.has_ended (slice_index eight.now l) false ≡ true }
    {
        let values = self.eight_ends(eight);
        'lanes: for l in 0..8 {
            let i = eight[l];
            ends.words[i] = values[l];
            ends.has_ended[i] = true;
        }
    }

    // The chains by how many steps they have, most first: those that run side by side so end together, and the last group, of
    // three chains alone, is the shortest. It is advice: no contract rests on the order.
    fn by_steps(&self) -> [u8; 67] {
        let mut places = [0u8; 17];
        for count in self.counts {
            let next = 16 - usize::from((*count).min(15));
            places[next] = places[next].wrapping_add(1);
        }
        for lacking in 1..17 {
            places[lacking] = places[lacking].wrapping_add(places[lacking - 1]);
        }
        let mut order = [0u8; CHAIN_COUNT];
        for i in 0..CHAIN_COUNT {
            let lacking = 15 - usize::from(self.counts[i].min(15));
            let place = usize::from(places[lacking]);
            if place < CHAIN_COUNT {
                order[place] = i as u8;
            }
            places[lacking] = places[lacking].wrapping_add(1);
        }
        order
    }

    /// The words of each chain's end.
    pub(crate) fn ends(&self) -> [[u32; 8]; 67]
        requires { (i : ℕ) → i < 67 → slice_index self.now.froms.now i + slice_index self.now.counts.now i ≤ 2 ^ 8 }
        ensures { (i : ℕ) → i < 67 → bytes_of (slice_index_or result i [])
            ≡ end_of self.now.id.now self.now.leaf self.now.froms.now self.now.counts.now self.now.starts.now i }
    {
        let order = self.by_steps();
        let mut ends = Ends {
            words: [[0; 8]; CHAIN_COUNT],
            has_ended: [false; CHAIN_COUNT],
        };
        'groups: for group in 0..9 {
            self.run_eight(&eight_of(&order, 8 * group), &mut ends);
        }
        // None is left, where the order has each chain.
        'left: for i in 0..CHAIN_COUNT {
            if !ends.has_ended[i] {
                self.run_eight(&[i; 8], &mut ends);
            }
        }
        let Ends { words, .. } = ends;
        words
    }
}

// Eight chains of an order, from one on; the last one again, where there are fewer.
fn eight_of(order: &[u8; 67], first: usize) -> [usize; 8]
    requires { first ≤ 67 }
    ensures { (l : ℕ) → l < 8 → slice_index result l < 67 }
{
    [
        chain_at(order, first),
        chain_at(order, first + 1),
        chain_at(order, first + 2),
        chain_at(order, first + 3),
        chain_at(order, first + 4),
        chain_at(order, first + 5),
        chain_at(order, first + 6),
        chain_at(order, first + 7),
    ]
}

// The chain at a place of an order, or at the last one.
fn chain_at(order: &[u8; 67], place: usize) -> usize
    ensures { result < 67 }
{
    usize::from(order[place.min(CHAIN_COUNT - 1)]).min(CHAIN_COUNT - 1)
}
