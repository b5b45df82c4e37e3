//! The abstract state at a slot: the ranges of the registers, the initialized bytes of the stack and its words.

use crate::frame_bytes::FrameBytes;
use crate::registers::RegisterRanges;
use crate::stack_words::StackWords;
use bpf_decode::{Reg, Source};
use bpf_model::layout::{ARGUMENTS_START, FRAME_END, FRAME_START, STACK_END, frame_end};
use reg_ranges::Range;

/// The range of each register that holds a number for certain, which bytes of the stack are initialized for
/// certain, and what is known of the words of the stack that are followed, all 512 or none.
#[derive(Clone, Copy)]
pub struct AbstractState<const WORDS: usize> {
    pub ranges: RegisterRanges,
    pub initialized: FrameBytes,
    pub words: StackWords<WORDS>,
}

impl<const WORDS: usize> AbstractState<WORDS> {
    ghost use Rattle.std.specs.Prelude.{◌≡◌, ℕ, ◌<◌, ◌≤◌, ◌==◌, if◌then◌else◌, false, Some, Option};
    ghost use Rattle.std.specs.Option.{option_map, is_some};
    ghost use Rattle.std.specs.Int.{w64, cast_unsigned};
    ghost use Rattle.reg_ranges.specs.RangeOf.{range_of};
    ghost use Rattle.bpf_decode.specs.declared.insn.Source.{Source};
    ghost use Rattle.bpf_num.specs.declared.AluWidth.TheVariants.{W64};
    ghost use Rattle.reg_ranges.specs.Ranges.{full};
    ghost use Rattle.bpf_model.specs.declared.profile.Profile.{Profile};
    ghost use Rattle.bpf_model.specs.Profiles.{followed_words};
    ghost use Rattle.bpf_verifier.specs.StackWords.{word_range};
    ghost use Rattle.bpf_model.specs.Machine.{frame_start, frame_end};
    ghost use Rattle.bpf_model.specs.AbstractState.{AbstractState as ModelState, start_state, entry_state, after_call, has_all, source_operands};
    ghost use Rattle.bpf_verifier.specs.Represents.{Represents, RepresentsOption, ranges_of, join_with};

    /// As a call begins.
    pub(crate) fn at_start() -> AbstractState<WORDS>
        requires { WORDS ≤ 512 }
        ensures { (profile : Profile) → followed_words profile ≡ WORDS → Represents result (start_state profile) }
    {
        AbstractState {
            ranges: RegisterRanges::from_array([
                None,
                Some(Range::single(ARGUMENTS_START)),
                Some(Range::new(0, 256)),
                None,
                None,
                None,
                None,
                None,
                None,
                None,
                Some(Range::single(FRAME_END)),
            ]),
            initialized: FrameBytes::none(),
            words: StackWords::none(),
        }
    }

    /// The range of the numbers that a register may hold, where it holds one for certain. Registers above
    /// r10 hold none.
    pub fn range_of(&self, register: u8) -> Option<Range>
        ensures { option_map range_of result ≡ ranges_of self.now.ranges register }
    {
        self.ranges.get(Reg::new(register)?)
    }

    /// Whether the byte at an address is one of the stack that is initialized for certain.
    pub fn has_byte_at(&self, address: u64) -> bool
        ensures inside { (of : ModelState) → Represents self.now of → frame_start 0 ≤ address →
            address < frame_end 7 → result ≡ of.initialized address }
        ensures below { address < frame_start 0 → result ≡ false }
        ensures above { frame_end 7 ≤ address → result ≡ false }
    {
        address >= FRAME_START
            && address < STACK_END
            && self.initialized.contains((address - FRAME_START) as usize)
    }

    /// The range of the number that a word of the stack holds, from 0 on. That of a word of which nothing is known, or
    /// that is not followed, is full.
    pub fn word(&self, word: usize) -> Range
        ensures followed { (of : ModelState) → Represents self.now of → word < WORDS →
            range_of result ≡ of.words.ranges word }
        ensures other { WORDS ≤ word → range_of result ≡ full W64 }
    {
        self.words.get(word)
    }

    /// Whether a register holds a number for certain.
    pub(crate) fn has(&self, register: u8) -> bool
        ensures { result ≡ is_some (ranges_of self.now.ranges register) }
    {
        match Reg::new(register) {
            Some(register) => self.ranges.has(register),
            None => false,
        }
    }

    /// Whether all of these registers do.
    pub(crate) fn has_all(&self, registers: &[u8]) -> bool
        ensures { result ≡ has_all (ranges_of self.now.ranges) registers.now }
    {
        for register in registers {
            if !self.has(*register) {
                return false;
            }
        }
        true
    }

    /// Whether an operand holds a number for certain.
    pub(crate) fn has_source(&self, src: Source) -> bool
        ensures { result ≡ has_all (ranges_of self.now.ranges) (source_operands src) }
    {
        match src {
            Source::Imm(_) => true,
            Source::Reg(reg) => self.ranges.has(reg),
        }
    }

    /// Becomes the other state.
    pub(crate) fn copy_from(&mut self, other: &AbstractState<WORDS>)
        ensures ranges { self.new.ranges ≡ other.now.ranges }
        ensures initialized { self.new.initialized.words ≡ other.now.initialized.words }
        ensures words { (w : ℕ) → w < WORDS →
            word_range self.new.words.ranges w ≡ word_range other.now.words.ranges w }
    {
        self.ranges.copy_from(&other.ranges);
        self.initialized.copy_from(&other.initialized);
        self.words.copy_from(&other.words);
    }

    /// Gives a register a range, or none.
    pub(crate) fn set(&mut self, register: Reg, range: Option<Range>)
        ensures ranges { (r : ℕ) → ranges_of self.new.ranges r ≡
            (if r == register.number then option_map range_of range else ranges_of self.old.ranges r) }
        ensures initialized { self.new.initialized ≡ self.old.initialized }
        ensures words { self.new.words ≡ self.old.words }
    {
        self.ranges.set(register.number as usize, range);
    }

    /// Keeps what is certain in both states.
    #[inline(never)]
    pub(crate) fn join(&mut self, other: &AbstractState<WORDS>)
        ensures { (a b : ModelState) → Represents self.old a → Represents other.now b →
            Represents self.new (join_with (Some a) b) }
    {
        self.ranges.join(&other.ranges);
        self.initialized.intersect(&other.initialized);
        self.words.join(&other.words);
    }

    /// The state in which a function is entered at a depth, by a call in this state.
    pub(crate) fn entry_state(&self, depth: u32) -> AbstractState<WORDS>
        requires { depth < 8 }
        ensures { (of : ModelState) → Represents self.now of →
            Represents result (entry_state depth of) }
    {
        AbstractState {
            ranges: RegisterRanges::from_array([
                None,
                self.range_of(1),
                self.range_of(2),
                self.range_of(3),
                self.range_of(4),
                self.range_of(5),
                None,
                None,
                None,
                None,
                Some(Range::single(frame_end(depth))),
            ]),
            initialized: self.initialized,
            words: self.words,
        }
    }

    /// Goes over a call of a function at a depth, given the join over its exits.
    pub(crate) fn after_call(&mut self, depth: u32, returned: &AbstractState<WORDS>)
        requires { depth < 8 }
        ensures { (of exit : ModelState) → Represents self.old of → Represents returned.now exit →
            Represents self.new (after_call depth of exit) }
    {
        self.ranges = RegisterRanges::from_array([
            returned.range_of(0),
            None,
            None,
            None,
            None,
            None,
            self.range_of(6),
            self.range_of(7),
            self.range_of(8),
            self.range_of(9),
            self.range_of(10),
        ]);
        self.initialized = returned.initialized;
        self.initialized.remove_frame(depth);
        self.words = returned.words;
        self.words.remove_frame(depth);
    }
}
