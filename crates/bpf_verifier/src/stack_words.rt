//! What is known of the words of the stack.

ghost use Rattle.std.specs.Prelude.{◌≡◌, ℕ, ◌<◌, ◌≤◌, nat_lt, IfSome};
ghost use Rattle.std.specs.Option.{option_map};
ghost use Rattle.reg_ranges.specs.RangeOf.{range_of};
ghost use Rattle.bpf_num.specs.declared.AluWidth.TheVariants.{W64};
ghost use Rattle.reg_ranges.specs.Ranges.{full};
ghost use Rattle.bpf_model.specs.Words.{Words, word_start, word_of, begins_at};
ghost use Rattle.bpf_verifier.specs.StackWords.{AreFullFrom, AreNumbers, is_word};

use bpf_model::layout::{FRAME_SIZE, FRAME_START, WORD_SIZE};
use reg_ranges::{Range, join};

/// The words of a frame.
const FRAME_WORDS: usize = FRAME_SIZE / WORD_SIZE;

/// The range of the number that each of the first words of the stack holds; the words that are followed, all 512 or
/// none. That of a word of which nothing is known is full. Words behind those in use are full, so that a join or a
/// copy goes over the words in use alone.
#[derive(Clone, Copy)]
pub struct StackWords<const WORDS: usize> {
    pub ranges: [Range; WORDS],
    used: usize,
    ghost few: { WORDS ≤ 512 },
    ghost inside: { used ≤ WORDS },
    ghost rest: { AreFullFrom used ranges },
    ghost fits: { AreNumbers ranges },
}

impl<const WORDS: usize> StackWords<WORDS> {
    ghost use Rattle.std.specs.Prelude.{◌≡◌, ℕ, ◌<◌, ◌≤◌, if◌then◌else◌};
    ghost use Rattle.std.specs.Option.{option_map};
    ghost use Rattle.bpf_num.specs.declared.AluWidth.TheVariants.{W64};
    ghost use Rattle.reg_ranges.specs.Ranges.{full, join_of};
    ghost use Rattle.reg_ranges.specs.RangeOf.{range_of};
    ghost use Rattle.bpf_model.specs.Machine.{is_in_frame};
    ghost use Rattle.bpf_model.specs.Words.{Words, word_start, may_write, words_after, word_at};
    ghost use Rattle.bpf_verifier.specs.StackWords.{word_range, AreWordsOf};

    /// Nothing is known of any word.
    pub fn none() -> StackWords<WORDS>
        requires { WORDS ≤ 512 }
        ensures { (w : ℕ) → word_range result.ranges w ≡ full W64 }
    {
        StackWords {
            ranges: [any_number(); WORDS],
            used: 0,
        }
    }

    /// The range of the number that a word holds.
    pub fn get(&self, word: usize) -> Range
        ensures { range_of result ≡ word_range self.now.ranges word }
    {
        if word < WORDS {
            self.ranges[word]
        } else {
            any_number()
        }
    }

    /// What a load of 8 bytes gives where it begins at a word for certain.
    pub fn at(&self, address: Option<Range>) -> Range
        ensures { (words : Words) → AreWordsOf WORDS self.now.ranges words →
            range_of result ≡ word_at words (option_map range_of address) }
    {
        match begun::<WORDS>(address) {
            Some(word) => self.ranges[word],
            None => any_number(),
        }
    }

    /// A store writes so many bytes, and its number in the word that it begins at for certain.
    pub fn store(&mut self, address: Option<Range>, size: u32, value: Range)
        ensures { (words : Words) → AreWordsOf WORDS self.old.ranges words → AreWordsOf WORDS self.new.ranges
            (words_after words (option_map range_of address) size (range_of value)) }
    {
        self.forget(address, size);
        if let Some(word) = begun::<WORDS>(address) {
            self.ranges[word] = value;
            self.used = self.used.max(word + 1);
        }
    }

    /// Nothing is known any more of the words that a write of so many bytes may touch.
    pub fn forget(&mut self, address: Option<Range>, size: u32)
        ensures { (w : ℕ) → w < WORDS → word_range self.new.ranges w ≡
            (if may_write (option_map range_of address) size w then full W64 else word_range self.old.ranges w) }
    {
        if WORDS == 0 {
            return;
        }
        let Some(address) = address else {
            return;
        };
        let first = word_of(address.lo);
        let behind = words_before(address.hi.saturating_add(u64::from(size)));
        for word in first..behind.min(self.used) {
            self.ranges[word] = any_number();
        }
    }

    /// Keeps what is known in both: each word holds a number that one of both has.
    pub fn join(&mut self, other: &StackWords<WORDS>)
        ensures { (w : ℕ) → w < WORDS → word_range self.new.ranges w ≡
            join_of (word_range self.old.ranges w) (word_range other.now.ranges w) }
    {
        for word in 0..self.used.min(WORDS) {
            self.ranges[word] = join(self.ranges[word], other.ranges[word]);
        }
    }

    /// Becomes the other words.
    pub fn copy_from(&mut self, other: &StackWords<WORDS>)
        ensures { (w : ℕ) → w < WORDS → word_range self.new.ranges w ≡ word_range other.now.ranges w }
    {
        self.used = self.used.max(other.used).min(WORDS);
        for word in 0..self.used {
            self.ranges[word] = other.ranges[word];
        }
        self.used = other.used;
    }

    /// Nothing is known any more of the words of the frame of a depth.
    pub fn remove_frame(&mut self, depth: u32)
        requires { depth < 8 }
        ensures { (w : ℕ) → w < WORDS → word_range self.new.ranges w ≡
            (if is_in_frame depth (word_start w) then full W64 else word_range self.old.ranges w) }
    {
        let first = depth as usize * FRAME_WORDS;
        for word in first..(first + FRAME_WORDS).min(self.used) {
            self.ranges[word] = any_number();
        }
    }
}

/// Of the first words of the stack the one that an access begins at for certain.
fn begun<const WORDS: usize>(address: Option<Range>) -> Option<usize>
    requires { WORDS ≤ 512 }
    ensures word { (words : Words) → words.followed ≡ WORDS → (w : ℕ) →
        begins_at words (option_map range_of address) w ≡ is_word result w }
    ensures inside { IfSome result (λ word. word < WORDS) }
{
    let address = address?;
    let word = word_of(address.lo);
    if address.is_single() && word < WORDS && address.lo == word_start(word) {
        Some(word)
    } else {
        None
    }
}

/// The word that holds the byte at an address of the stack.
fn word_of(address: u64) -> usize
    ensures { result ≡ word_of address }
{
    (address.saturating_sub(FRAME_START) / WORD_SIZE as u64) as usize
}

/// How many words begin before an address.
fn words_before(address: u64) -> usize
    ensures { (w : ℕ) → nat_lt w result ≡ nat_lt (word_start w) address }
{
    address
        .saturating_sub(FRAME_START)
        .div_ceil(WORD_SIZE as u64) as usize
}

/// The address of a word.
fn word_start(word: usize) -> u64
    requires { word < 512 }
    ensures { result ≡ word_start word }
{
    FRAME_START + WORD_SIZE as u64 * word as u64
}

/// Any number of 64 bits.
fn any_number() -> Range
    ensures { range_of result ≡ full W64 }
{
    Range::new(0, u64::MAX)
}
