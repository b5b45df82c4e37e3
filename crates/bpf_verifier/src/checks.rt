//! What is wrong with an instruction that is reached, given the abstract state there.

ghost use Rattle.std.specs.Prelude.{◌≡◌, ◌≤◌, ◌<◌};
ghost use Rattle.std.specs.Option.{option_map};
ghost use Rattle.bpf_num.specs.declared.AluOp.TheVariants.{Add};
ghost use Rattle.reg_ranges.specs.Ranges.{single, transfer64_of};
ghost use Rattle.reg_ranges.specs.RangeOf.{range_of};
ghost use Rattle.bpf_model.specs.Access.{bytes_of};
ghost use Rattle.bpf_model.specs.AbstractState.{in_bounds};

use crate::abstract_state::AbstractState;
use bpf_decode::{Insn, Reg, Size};
use bpf_model::VerifyFault;
use bpf_model::layout::{ARGUMENTS_END, ARGUMENTS_START, FRAME_START, FRAMES, frame_end};
use bpf_num::AluOp;
use map_helpers::{Access, Extent, Helper};
use reg_ranges::{Range, transfer64};

/// The bytes of a load or a store.
pub fn bytes_of(size: Size) -> u32
    ensures value { result ≡ bytes_of size }
    ensures small { result ≤ 8 }
{
    match size {
        Size::B => 1,
        Size::H => 2,
        Size::W => 4,
        Size::Dw => 8,
    }
}

impl<const WORDS: usize> AbstractState<WORDS> {
    ghost use Rattle.std.specs.Prelude.{◌≡◌, ℕ, ◌≤◌, ◌<◌, Bool, true, None, Some, Option};
    ghost use Rattle.std.specs.Option.{option_map};
    ghost use Rattle.reg_ranges.specs.Ranges.{Range as ModelRange};
    ghost use Rattle.reg_ranges.specs.RangeOf.{range_of};
    ghost use Rattle.bpf_model.specs.Access.{bytes_of};
    ghost use Rattle.bpf_model.specs.AbstractState.{operands, has_all, has_operands, has_accesses, has_bytes, in_bounds, is_initialized, max_size, access_in_bounds, access_initialized, all_in_bounds, are_initialized, address_range};
    ghost use Rattle.bpf_model.specs.Verdict.{insn_dataflow_fault};
    ghost use Rattle.bpf_verifier.specs.Represents.{Stack, IsStackOf};
    ghost use Rattle.bpf_verifier.specs.Represents.{ranges_of, state_of};

    /// What is wrong with an instruction that is reached in the frame of a depth: an operand, then an
    /// access, then bytes that are read, then a local call for which no frame is left.
    #[inline(always)]
    pub(crate) fn insn_dataflow_fault(&self, depth: u32, insn: &Insn) -> Option<VerifyFault>
        requires { depth < 8 }
        ensures { (stack : Stack) → IsStackOf self.now.initialized.words WORDS self.now.words.ranges stack →
            result ≡ insn_dataflow_fault depth (state_of self.now.ranges stack) insn.now }
    {
        if !self.has_operands(insn) {
            return Some(VerifyFault::UninitRegister);
        }
        if !self.has_accesses(depth, insn) {
            return Some(VerifyFault::BadAccess);
        }
        if !self.has_bytes(insn) {
            return Some(VerifyFault::UninitBytes);
        }
        match insn {
            Insn::CallLocal { .. } if depth as usize + 1 >= FRAMES => Some(VerifyFault::CallDepth),
            _ => None,
        }
    }

    #[inline(always)]
    fn has_operands(&self, insn: &Insn) -> bool
        ensures { result ≡ has_all (ranges_of self.now.ranges) (operands insn.now) }
    {
        match insn {
            Insn::Alu { op, dst, src, .. } => {
                (!op.reads_destination() || self.ranges.has(*dst)) && self.has_source(*src)
            }
            Insn::Swap { dst, .. } => self.ranges.has(*dst),
            Insn::Load { base, .. } | Insn::StoreImm { base, .. } => self.ranges.has(*base),
            Insn::Store { base, src, .. } => self.ranges.has(*base) && self.ranges.has(*src),
            Insn::Test { dst, src, .. } => self.ranges.has(*dst) && self.has_source(*src),
            Insn::CallHelper { helper } => match Helper::of(*helper) {
                Some(helper) => self.has_all(helper.arguments()),
                None => true,
            },
            Insn::Exit => self.has(0),
            Insn::LoadImm { .. }
            | Insn::Jump { .. }
            | Insn::JumpLong { .. }
            | Insn::CallLocal { .. } => true,
        }
    }

    #[inline(always)]
    fn has_accesses(&self, depth: u32, insn: &Insn) -> bool
        requires { depth < 8 }
        ensures { (stack : Stack) → result ≡
            has_accesses depth (state_of self.now.ranges stack) insn.now }
    {
        match insn {
            Insn::Load {
                size,
                base,
                offset,
                ..
            } => self.has_access(depth, *size, *base, *offset),
            Insn::StoreImm {
                size,
                base,
                offset,
                ..
            } => self.has_access(depth, *size, *base, *offset),
            Insn::Store {
                size,
                base,
                offset,
                ..
            } => self.has_access(depth, *size, *base, *offset),
            Insn::CallHelper { helper } => match Helper::of(*helper) {
                Some(helper) => {
                    self.all_in_bounds(depth, helper.reads())
                        && self.all_in_bounds(depth, helper.writes())
                }
                None => true,
            },
            _ => true,
        }
    }

    #[inline(always)]
    fn has_bytes(&self, insn: &Insn) -> bool
        requires { (depth : ℕ) × (depth < 8) × ((stack : Stack) →
            has_accesses depth (state_of self.now.ranges stack) insn.now ≡ true) }
        ensures { (stack : Stack) → IsStackOf self.now.initialized.words WORDS self.now.words.ranges stack →
            result ≡ has_bytes (state_of self.now.ranges stack) insn.now }
    {
        match insn {
            Insn::Load {
                size,
                base,
                offset,
                ..
            } => self.has_bytes_at(*size, *base, *offset),
            Insn::CallHelper { helper } => match Helper::of(*helper) {
                Some(helper) => self.are_initialized(helper.reads()),
                None => true,
            },
            _ => true,
        }
    }

    /// Whether all bytes that a load or a store may touch are in bounds.
    fn has_access(&self, depth: u32, size: Size, base: Reg, offset: i16) -> bool
        requires { depth < 8 }
        ensures { (stack : Stack) → result ≡
            in_bounds depth (address_range (state_of self.now.ranges stack) base.number offset)
            (bytes_of size) }
    {
        is_in_bounds(
            depth,
            self.address_range(base, offset),
            u64::from(bytes_of(size)),
        )
    }

    /// Whether all bytes that a load may read are initialized.
    fn has_bytes_at(&self, size: Size, base: Reg, offset: i16) -> bool
        requires { (depth : ℕ) × (depth < 8) × ((stack : Stack) →
            in_bounds depth (address_range (state_of self.now.ranges stack) base.number offset)
            (bytes_of size) ≡ true) }
        ensures { (stack : Stack) → IsStackOf self.now.initialized.words WORDS self.now.words.ranges stack → result ≡
            is_initialized stack.initialized (address_range (state_of self.now.ranges stack) base.number offset)
            (bytes_of size) }
    {
        self.is_initialized(self.address_range(base, offset), u64::from(bytes_of(size)))
    }

    /// The range of the address that a load or a store accesses: what its base may hold and its offset;
    /// none where the base may hold nothing.
    pub fn address_range(&self, base: Reg, offset: i16) -> Option<Range>
        ensures { (stack : Stack) →
            option_map range_of result ≡
            address_range (state_of self.now.ranges stack) base.number offset }
    {
        let range = self.ranges.get(base)?;
        Some(offset_by(range, i64::from(offset).cast_unsigned()))
    }

    /// The greatest number of bytes that an access of a helper may have.
    fn max_size(&self, size: Extent) -> Option<u64>
        ensures { result ≡ max_size (ranges_of self.now.ranges) size }
    {
        match size {
            Extent::Fixed(size) => Some(u64::from(size)),
            Extent::Second => Some(self.range_of(2)?.hi),
        }
    }

    /// Whether all bytes that an access of a helper may touch are in bounds. One that has none is.
    fn access_in_bounds(&self, depth: u32, access: Access) -> bool
        requires { depth < 8 }
        ensures { result ≡ access_in_bounds depth (ranges_of self.now.ranges) access }
    {
        match self.max_size(access.size) {
            Some(size) => size == 0 || is_in_bounds(depth, self.range_of(access.register), size),
            None => false,
        }
    }

    /// Whether all bytes of the stack that an access of a helper may touch are initialized.
    fn access_initialized(&self, access: Access) -> bool
        requires { (depth : ℕ) × (depth < 8) ×
            (access_in_bounds depth (ranges_of self.now.ranges) access ≡ true) }
        ensures { (stack : Stack) → IsStackOf self.now.initialized.words WORDS self.now.words.ranges stack →
            result ≡ access_initialized stack.initialized (ranges_of self.now.ranges) access }
    {
        match self.max_size(access.size) {
            Some(size) => size == 0 || self.is_initialized(self.range_of(access.register), size),
            None => false,
        }
    }

    fn all_in_bounds(&self, depth: u32, accesses: &[Access]) -> bool
        requires { depth < 8 }
        ensures { result ≡ all_in_bounds depth (ranges_of self.now.ranges) accesses.now }
    {
        for access in accesses {
            if !self.access_in_bounds(depth, *access) {
                return false;
            }
        }
        true
    }

    fn are_initialized(&self, accesses: &[Access]) -> bool
        requires { (depth : ℕ) × (depth < 8) ×
            (all_in_bounds depth (ranges_of self.now.ranges) accesses.now ≡ true) }
        ensures { (stack : Stack) → IsStackOf self.now.initialized.words WORDS self.now.words.ranges stack →
            result ≡ are_initialized stack.initialized (ranges_of self.now.ranges) accesses.now }
    {
        for access in accesses {
            if !self.access_initialized(*access) {
                return false;
            }
        }
        true
    }

    /// Whether all bytes of the stack that an access may touch are initialized.
    fn is_initialized(&self, range: Option<Range>, size: u64) -> bool
        requires { (depth : ℕ) × (depth < 8) ×
            (in_bounds depth (option_map range_of range) size ≡ true) }
        ensures { (stack : Stack) → IsStackOf self.now.initialized.words WORDS self.now.words.ranges stack →
            result ≡ is_initialized stack.initialized (option_map range_of range) size }
    {
        let Some(range) = range else {
            return false;
        };
        if range.lo >= ARGUMENTS_START {
            return true;
        }
        let from = (range.lo - FRAME_START) as usize;
        let to = (range.hi + size - FRAME_START) as usize;
        self.initialized.contains_all(from, to)
    }
}

/// Whether all bytes that an access may touch lie in the frames in use, or all in the arguments.
fn is_in_bounds(depth: u32, range: Option<Range>, size: u64) -> bool
    requires { depth < 8 }
    ensures { result ≡ in_bounds depth (option_map range_of range) size }
{
    let Some(range) = range else {
        return false;
    };
    match range.hi.checked_add(size) {
        Some(end) => {
            range.lo >= FRAME_START && end <= frame_end(depth)
                || range.lo >= ARGUMENTS_START && end <= ARGUMENTS_END
        }
        None => false,
    }
}

/// The range of a sum with a number: what `transfer64` says, which most bases, of one number, need no call for.
#[inline(always)]
fn offset_by(range: Range, offset: u64) -> Range
    ensures { range_of result ≡ transfer64_of Add (range_of range) (single offset) }
{
    if range.is_single() {
        Range::single(range.lo.wrapping_add(offset))
    } else {
        transfer64(AluOp::Add, range, Range::single(offset))
    }
}
