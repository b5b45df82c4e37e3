//! A set of bytes of the stack.

ghost use Rattle.std.specs.Prelude.{◌≡◌, ℕ, ◌+◌, ◌*◌, ◌≤◌, ◌<◌, ◌&&◌, ◌==◌, nat_le, nat_lt};
ghost use Rattle.std.specs.Int.{bit_at};
ghost use Rattle.bpf_verifier.specs.FrameBytes.{AreZeroFrom};

use bpf_model::layout::{FRAME_SIZE, STACK_SIZE};

/// The bits of a word.
const BITS: usize = 64;

/// The words that the stack's bytes take, a bit each.
const WORDS: usize = STACK_SIZE / BITS;

/// The words that a frame's bytes take.
const FRAME_WORDS: usize = FRAME_SIZE / BITS;

/// Which bytes of the stack are initialized for certain. Words behind those in use hold none, so that a
/// join or a copy goes over the words in use alone.
#[derive(Clone, Copy)]
pub struct FrameBytes {
    pub words: [u64; WORDS],
    used: usize,
    ghost few: { used ≤ 64 },
    ghost rest: { AreZeroFrom used words },
}

impl FrameBytes {
    ghost use Rattle.std.specs.Prelude.{◌≡◌, ℕ, ◌+◌, ◌*◌, ◌/◌, ◌%◌, ◌≤◌, ◌<◌, ◌&&◌, ◌||◌, not, ◌==◌, nat_le, nat_lt, true, false};
    ghost use Rattle.std.specs.Int.{bit_at};
    ghost use Rattle.bpf_model.specs.Machine.{frame_start, is_in_frame};
    ghost use Rattle.bpf_verifier.specs.FrameBytes.{has_byte};

    /// No byte.
    pub fn none() -> FrameBytes
        ensures { (i : ℕ) → i < 4096 → has_byte result.words i ≡ false }
    {
        FrameBytes {
            words: [0; WORDS],
            used: 0,
        }
    }

    /// Whether a byte is in the set.
    pub fn contains(&self, index: usize) -> bool
        requires { index < 4096 }
        ensures { result ≡ has_byte self.now.words index }
    {
        self.words[index / BITS] >> (index % BITS) & 1 == 1
    }

    /// Whether the set holds all bytes from one on and before another.
    pub fn contains_all(&self, from: usize, to: usize) -> bool
        requires { to ≤ 4096 }
        ensures present { result ≡ true → (i : ℕ) → from ≤ i → i < to →
            has_byte self.now.words i ≡ true }
        ensures absent { result ≡ false → (i : ℕ) × (from ≤ i) × (i < to) ×
            (has_byte self.now.words i ≡ false) }
    {
        for word in from / BITS..to.div_ceil(BITS) {
            if !self.has_bits(word, mask(word, from, to)) {
                return false;
            }
        }
        true
    }

    /// Whether a word has all bits of a mask.
    fn has_bits(&self, word: usize, mask: u64) -> bool
        requires { word < 64 }
        ensures present { result ≡ true → (k : ℕ) → k < 64 → bit_at mask k ≡ 1 →
            has_byte self.now.words (64 * word + k) ≡ true }
        ensures absent { result ≡ false → (k : ℕ) × (k < 64) × (bit_at mask k ≡ 1) ×
            (has_byte self.now.words (64 * word + k) ≡ false) }
    {
        self.words[word] & mask == mask
    }

    /// Puts in all bytes from one on and before another.
    pub fn insert_all(&mut self, from: usize, to: usize)
        requires ordered { from ≤ to }
        requires inside { to ≤ 4096 }
        ensures { (i : ℕ) → has_byte self.new.words i ≡
            (nat_le from i && nat_lt i to || has_byte self.old.words i) }
    {
        for word in from / BITS..to.div_ceil(BITS) {
            self.insert_bits(word, mask(word, from, to));
        }
    }

    /// Puts in the bytes of a word whose bits a mask has.
    fn insert_bits(&mut self, word: usize, mask: u64)
        requires { word < 64 }
        ensures { (i : ℕ) → has_byte self.new.words i ≡
            ((i / 64 == word) && (bit_at mask (i % 64) == 1) || has_byte self.old.words i) }
    {
        self.words[word] |= mask;
        self.used = self.used.max(word + 1);
    }

    /// Keeps the bytes of both sets.
    pub fn intersect(&mut self, other: &FrameBytes)
        ensures { (i : ℕ) → i < 4096 → has_byte self.new.words i ≡
            (has_byte self.old.words i && has_byte other.now.words i) }
    {
        for word in 0..self.used {
            self.words[word] &= other.words[word];
        }
    }

    /// Becomes the other set.
    pub fn copy_from(&mut self, other: &FrameBytes)
        ensures { self.new.words ≡ other.now.words }
    {
        self.used = self.used.max(other.used);
        for word in 0..self.used {
            self.words[word] = other.words[word];
        }
        self.used = other.used;
    }

    /// Takes out the bytes of the frame of a depth.
    pub fn remove_frame(&mut self, depth: u32)
        requires { depth < 8 }
        ensures { (i : ℕ) → i < 4096 → has_byte self.new.words i ≡
            (has_byte self.old.words i && not (is_in_frame depth (frame_start 0 + i))) }
    {
        let first = depth as usize * FRAME_WORDS;
        for word in first..first + FRAME_WORDS {
            self.words[word] = 0;
        }
    }
}

/// The bits of a word for those of its bytes that lie from one byte on and before another.
fn mask(word: usize, from: usize, to: usize) -> u64
    requires few { word < 64 }
    requires behind { from < 64 * word + 64 }
    requires before { 64 * word < to }
    ensures { (k : ℕ) → k < 64 → (bit_at result k == 1) ≡
        (nat_le from (64 * word + k) && nat_lt (64 * word + k) to) }
{
    let start = word * BITS;
    let low = from.saturating_sub(start);
    let high = (to - start).min(BITS);
    (u64::MAX << low) & (u64::MAX >> (BITS - high))
}
