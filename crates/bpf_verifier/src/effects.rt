//! What an instruction makes of an abstract state.

ghost use Rattle.std.specs.Prelude.{◌≡◌};
ghost use Rattle.reg_ranges.specs.RangeOf.{range_of};
ghost use Rattle.bpf_model.specs.AbstractState.{loaded_range, transfer};
ghost use Rattle.bpf_model.specs.Words.{stored_range};
ghost use Rattle.bpf_verifier.specs.StackWords.{is_word_load};

use crate::abstract_state::AbstractState;
use crate::checks::bytes_of;
use crate::registers::RegisterRanges;
use bpf_decode::{Insn, Reg, Size, Source};
use bpf_model::layout::{FRAME_START, STACK_END};
use bpf_num::{AluOp, AluWidth, Test};
use map_helpers::{Access, Helper};
use reg_ranges::{Range, refine_edges, swap_range, transfer32, transfer64};

impl<const WORDS: usize> AbstractState<WORDS> {
    ghost use Rattle.std.specs.Prelude.{◌≡◌, ℕ, ◌+◌, ◌<◌, ◌||◌, Bool, true, false};
    ghost use Rattle.std.specs.Option.{option_map};
    ghost use Rattle.reg_ranges.specs.RangeOf.{range_of, ranges_of as pair_of};
    ghost use Rattle.bpf_model.specs.Machine.{frame_start};
    ghost use Rattle.bpf_model.specs.Words.{stored_range};
    ghost use Rattle.bpf_model.specs.Access.{bytes_of};
    ghost use Rattle.bpf_model.specs.AbstractState.{after_insn, after_store, range_after_load, range_or_full, address_range, after_helper, after_test, with_ranges, alu_range, source_range, tested_range, is_written};
    ghost use Rattle.bpf_verifier.specs.FrameBytes.{has_byte};
    ghost use Rattle.bpf_verifier.specs.Represents.{Represents, Stack, IsStackOf, ranges_of, state_of};

    /// Goes over an instruction, by the edge to the slot behind it.
    #[inline(always)]
    pub(crate) fn after_insn(&mut self, insn: &Insn)
        ensures { (stack : Stack) → IsStackOf self.old.initialized.words WORDS self.old.words.ranges stack →
            Represents self.new (after_insn (state_of self.old.ranges stack) insn.now) }
    {
        match insn {
            Insn::Alu {
                width,
                op,
                dst,
                src,
            } => {
                let range = self.alu_range(*width, *op, *dst, *src);
                self.set(*dst, range);
            }
            Insn::Swap { kind, width, dst } => {
                let range = match self.ranges.get(*dst) {
                    Some(range) => Some(swap_range(*kind, *width, range)),
                    None => None,
                };
                self.set(*dst, range);
            }
            Insn::LoadImm { dst, value } => self.set(*dst, Some(Range::single(*value))),
            Insn::Load {
                size,
                signed,
                dst,
                base,
                offset,
            } => {
                let range = self.range_after_load(*size, *signed, *base, *offset);
                self.set(*dst, Some(range));
            }
            Insn::StoreImm {
                size,
                base,
                offset,
                imm,
            } => {
                let value = Range::single(i64::from(*imm).cast_unsigned());
                self.store(*size, *base, *offset, value);
            }
            Insn::Store {
                size,
                base,
                offset,
                src,
            } => {
                let value = self.number_of(*src);
                self.store(*size, *base, *offset, value);
            }
            Insn::CallHelper { helper } => match Helper::of(*helper) {
                Some(helper) => self.after_helper(helper.max_answer(), helper.writes()),
                None => self.after_helper(0, &[]),
            },
            Insn::Jump { .. }
            | Insn::JumpLong { .. }
            | Insn::Test { .. }
            | Insn::CallLocal { .. }
            | Insn::Exit => {}
        }
    }

    /// What an arithmetic instruction makes of its operands.
    #[inline(always)]
    fn alu_range(&self, width: AluWidth, op: AluOp, dst: Reg, src: Source) -> Option<Range>
        ensures { (stack : Stack) →
            option_map range_of result ≡
            alu_range (state_of self.now.ranges stack) width op dst.number src }
    {
        let b = self.source_range(src)?;
        let a = if op.reads_destination() {
            self.ranges.get(dst)?
        } else {
            Range::single(0)
        };
        Some(transfer(width, op, a, b))
    }

    #[inline(always)]
    fn source_range(&self, src: Source) -> Option<Range>
        ensures { (stack : Stack) →
            option_map range_of result ≡ source_range (state_of self.now.ranges stack) src }
    {
        match src {
            Source::Imm(value) => Some(Range::single(i64::from(value).cast_unsigned())),
            Source::Reg(reg) => self.ranges.get(reg),
        }
    }

    /// After a helper r0 has its answer, and r1 to r5 hold nothing. What it wrote is initialized
    /// where its address is a single number, and nothing is known of the words that it may have written.
    fn after_helper(&mut self, max_answer: u64, writes: &[Access])
        ensures { (stack : Stack) → IsStackOf self.old.initialized.words WORDS self.old.words.ranges stack →
            Represents self.new (after_helper (state_of self.old.ranges stack) max_answer writes.now) }
    {
        for access in writes {
            let range = self.range_of(access.register);
            self.initialize(range, access.size.fixed());
            self.words.forget(range, access.size.fixed());
        }
        self.ranges = RegisterRanges::from_array([
            Some(Range::new(0, max_answer)),
            None,
            None,
            None,
            None,
            None,
            self.range_of(6),
            self.range_of(7),
            self.range_of(8),
            self.range_of(9),
            self.range_of(10),
        ]);
    }

    /// What a load gives: of 8 bytes what is known of the word there.
    fn range_after_load(&self, size: Size, signed: bool, base: Reg, offset: i16) -> Range
        ensures { (stack : Stack) → IsStackOf self.now.initialized.words WORDS self.now.words.ranges stack →
            range_of result ≡ range_after_load (state_of self.now.ranges stack) size signed
            (address_range (state_of self.now.ranges stack) base.number offset) }
    {
        if WORDS == 0 {
            return loaded_range(size, signed);
        }
        if is_word(size, signed) {
            self.words.at(self.address_range(base, offset))
        } else {
            loaded_range(size, signed)
        }
    }

    /// What is known of the number that a register holds.
    fn number_of(&self, register: Reg) -> Range
        ensures { range_of result ≡ range_or_full (ranges_of self.now.ranges register.number) }
    {
        match self.ranges.get(register) {
            Some(range) => range,
            None => Range::new(0, u64::MAX),
        }
    }

    /// Initializes what a store writes, and notes the number that it stores.
    fn store(&mut self, size: Size, base: Reg, offset: i16, value: Range)
        ensures { (stack : Stack) → IsStackOf self.old.initialized.words WORDS self.old.words.ranges stack →
            Represents self.new (after_store (state_of self.old.ranges stack)
            (address_range (state_of self.old.ranges stack) base.number offset) (bytes_of size)
            (stored_range size (range_of value))) }
    {
        let range = self.address_range(base, offset);
        self.initialize(range, bytes_of(size));
        self.words
            .store(range, bytes_of(size), stored_range(size, value));
    }

    /// Initializes the bytes of the stack that a write writes, where its address is a single
    /// number.
    fn initialize(&mut self, range: Option<Range>, size: u32)
        ensures ranges { self.new.ranges ≡ self.old.ranges }
        ensures words { self.new.words ≡ self.old.words }
        ensures initialized { (i : ℕ) → i < 4096 → has_byte self.new.initialized.words i ≡
            (is_written (option_map range_of range) size (frame_start 0 + i)
            || has_byte self.old.initialized.words i) }
    {
        let Some(range) = range else {
            return;
        };
        if !range.is_single() || range.lo >= STACK_END {
            return;
        }
        let from = range.lo.max(FRAME_START);
        let to = (range.lo + u64::from(size)).clamp(FRAME_START, STACK_END);
        self.initialized
            .insert_all((from - FRAME_START) as usize, (to - FRAME_START) as usize);
    }

    /// The ranges of a test's operands on both edges, first the one that isn't taken; none on an edge that
    /// can't be.
    #[inline(always)]
    pub(crate) fn ranges_on_edges(
        &self,
        narrow: bool,
        test: Test,
        dst: Reg,
        src: Source,
    ) -> (Option<(Range, Range)>, Option<(Range, Range)>)
        ensures onward { (stack : Stack) →
            option_map (λ r. with_ranges (state_of self.now.ranges stack) dst.number src (pair_of r)) result.0 ≡
            after_test (state_of self.now.ranges stack) narrow test dst.number src false }
        ensures taken { (stack : Stack) →
            option_map (λ r. with_ranges (state_of self.now.ranges stack) dst.number src (pair_of r)) result.1 ≡
            after_test (state_of self.now.ranges stack) narrow test dst.number src true }
    {
        let (Some(a), Some(b)) = (self.ranges.get(dst), self.tested_range(narrow, src)) else {
            return (None, None);
        };
        refine_edges(test, narrow, a, b)
    }

    /// Gives the operands of a test these ranges. Where both are one register, it keeps its own.
    #[inline(always)]
    pub(crate) fn set_tested(&mut self, dst: Reg, src: Source, ranges: (Range, Range))
        ensures { (stack : Stack) → IsStackOf self.old.initialized.words WORDS self.old.words.ranges stack →
            Represents self.new
            (with_ranges (state_of self.old.ranges stack) dst.number src (pair_of ranges)) }
    {
        let (a, b) = ranges;
        match src {
            Source::Imm(_) => self.set(dst, Some(a)),
            Source::Reg(src) => {
                if dst.number != src.number {
                    self.set(dst, Some(a));
                    self.set(src, Some(b));
                }
            }
        }
    }

    /// What a test compares with.
    fn tested_range(&self, narrow: bool, src: Source) -> Option<Range>
        ensures { (stack : Stack) →
            option_map range_of result ≡ tested_range (state_of self.now.ranges stack) narrow src }
    {
        match src {
            Source::Imm(value) => Some(Range::single(if narrow {
                u64::from(value.cast_unsigned())
            } else {
                i64::from(value).cast_unsigned()
            })),
            Source::Reg(reg) => self.ranges.get(reg),
        }
    }
}

/// What an operation of a width makes of its operands' ranges.
fn transfer(width: AluWidth, op: AluOp, a: Range, b: Range) -> Range
    ensures { range_of result ≡ transfer width op (range_of a) (range_of b) }
{
    match width {
        AluWidth::W32 => transfer32(op, a, b),
        AluWidth::W64 => transfer64(op, a, b),
    }
}

/// Whether a load takes 8 bytes as they are.
fn is_word(size: Size, signed: bool) -> bool
    ensures { result ≡ is_word_load size signed }
{
    matches!(size, Size::Dw) && !signed
}

/// What is known of a number that a store writes: nothing, unless it writes all 8 bytes.
fn stored_range(size: Size, value: Range) -> Range
    ensures { range_of result ≡ stored_range size (range_of value) }
{
    match size {
        Size::Dw => value,
        _ => Range::new(0, u64::MAX),
    }
}

/// What can be loaded.
fn loaded_range(size: Size, signed: bool) -> Range
    ensures { range_of result ≡ loaded_range size signed }
{
    if signed {
        return Range::new(0, u64::MAX);
    }
    let greatest = match size {
        Size::B => 0xff,
        Size::H => 0xffff,
        Size::W => 0xffff_ffff,
        Size::Dw => u64::MAX,
    };
    Range::new(0, greatest)
}
