//! What an arithmetic operation makes of its operands' ranges.

ghost use Rattle.std.specs.Prelude.{◌≡◌, ℕ, ◌<◌, ◌≤◌, ◌^◌};
ghost use Rattle.bpf_num.specs.declared.AluOp.TheVariants.{Movsx8, Movsx16, Movsx32};
ghost use Rattle.bpf_num.specs.Arithmetic.{modulus, result_of, alu64_of, alu32_of, bits_of};
ghost use Rattle.reg_ranges.specs.Ranges.{In, full, sum_range, difference_range, product_range, quotient_range, rest_range, all_bits, left_shift_range, right_shift_range, is_positive, extended_range, negation_range, wide_range, transfer_of, truncate, transfer64_of, transfer32_of};
ghost use Rattle.reg_ranges.specs.RangeOf.{range_of};

use crate::range::Range;
use bpf_num::{AluOp, AluWidth, alu32, alu64};

/// The greatest number of 32 bits.
pub(crate) const LOW_HALF: u64 = 0xffff_ffff;

/// The range after an instruction of class ALU64. Each result of numbers in the operands' ranges lies in it.
pub fn transfer64(op: AluOp, a: Range, b: Range) -> Range
    ensures exact { range_of result ≡ transfer64_of op (range_of a) (range_of b) }
    ensures sound { (x y : ℕ) → In x (range_of a) → In y (range_of b) → In (alu64_of op x y) (range_of result) }
{
    transfer(AluWidth::W64, op, a, b)
}

/// The range after an instruction of class ALU. Each result of numbers in the operands' ranges lies in it.
pub fn transfer32(op: AluOp, a: Range, b: Range) -> Range
    ensures exact { range_of result ≡ transfer32_of op (range_of a) (range_of b) }
    ensures sound { (x y : ℕ) → In x (range_of a) → In y (range_of b) → In (alu32_of op x y) (range_of result) }
{
    transfer(AluWidth::W32, op, truncate(a), truncate(b))
}

/// The range of the low half of a number.
fn truncate(range: Range) -> Range
    ensures value { range_of result ≡ truncate (range_of range) }
    ensures narrow { result.hi < 2 ^ 32 }
{
    if range.is_single() {
        Range::single(range.lo & LOW_HALF)
    } else if range.hi <= LOW_HALF {
        range
    } else {
        Range::new(0, LOW_HALF)
    }
}

fn transfer(width: AluWidth, op: AluOp, a: Range, b: Range) -> Range
    requires first { a.hi < modulus width }
    requires second { b.hi < modulus width }
    ensures { range_of result ≡ transfer_of width op (range_of a) (range_of b) }
{
    if a.is_single() && b.is_single() {
        return Range::single(value(width, op, a.lo, b.lo));
    }
    match op {
        AluOp::Add => sum(width, a, b),
        AluOp::Sub => difference(width, a, b),
        AluOp::Mul => product(width, a, b),
        AluOp::Div => quotient(a, b),
        AluOp::Sdiv => {
            if is_positive(width, a) && is_positive(width, b) {
                quotient(a, b)
            } else {
                full(width)
            }
        }
        AluOp::Or => Range::new(a.lo.max(b.lo), all_bits(a.hi, b.hi)),
        AluOp::And => Range::new(0, a.hi.min(b.hi)),
        AluOp::Lsh => left_shift(width, a, b),
        AluOp::Rsh => right_shift(width, a, b),
        AluOp::Neg => negation(width, a),
        AluOp::Mod => rest(a, b),
        AluOp::Smod => {
            if is_positive(width, a) && is_positive(width, b) {
                rest(a, b)
            } else {
                full(width)
            }
        }
        AluOp::Xor => Range::new(0, all_bits(a.hi, b.hi)),
        AluOp::Mov => b,
        AluOp::Movsx8 => extended(width, AluOp::Movsx8, 8, b),
        AluOp::Movsx16 => extended(width, AluOp::Movsx16, 16, b),
        AluOp::Movsx32 => extended(width, AluOp::Movsx32, 32, b),
        AluOp::Arsh => {
            if is_positive(width, a) {
                right_shift(width, a, b)
            } else {
                full(width)
            }
        }
    }
}

/// The result of an operation on numbers of a width.
fn value(width: AluWidth, op: AluOp, x: u64, y: u64) -> u64
    requires first { x < modulus width }
    requires second { y < modulus width }
    ensures { result ≡ result_of width op x y }
{
    match width {
        AluWidth::W32 => alu32(op, x, y),
        AluWidth::W64 => alu64(op, x, y),
    }
}

/// One more than the greatest number of a width.
fn modulus(width: AluWidth) -> u128
    ensures { result ≡ modulus width }
{
    match width {
        AluWidth::W32 => 1 << 32,
        AluWidth::W64 => 1 << 64,
    }
}

fn full(width: AluWidth) -> Range
    ensures { range_of result ≡ full width }
{
    match width {
        AluWidth::W32 => Range::new(0, LOW_HALF),
        AluWidth::W64 => Range::new(0, u64::MAX),
    }
}

fn is_positive(width: AluWidth, range: Range) -> bool
    ensures { result ≡ is_positive width (range_of range) }
{
    match width {
        AluWidth::W32 => range.hi < 0x8000_0000,
        AluWidth::W64 => range.hi < 0x8000_0000_0000_0000,
    }
}

fn bits(width: AluWidth) -> u64
    ensures { result ≡ bits_of width }
{
    match width {
        AluWidth::W32 => 32,
        AluWidth::W64 => 64,
    }
}

fn sum(width: AluWidth, a: Range, b: Range) -> Range
    requires first { a.hi < modulus width }
    requires second { b.hi < modulus width }
    ensures { range_of result ≡ sum_range width (range_of a) (range_of b) }
{
    let m = modulus(width);
    let lo = u128::from(a.lo) + u128::from(b.lo);
    let hi = u128::from(a.hi) + u128::from(b.hi);
    if (lo >= m) == (hi >= m) {
        Range::new((lo % m) as u64, (hi % m) as u64)
    } else {
        full(width)
    }
}

fn difference(width: AluWidth, a: Range, b: Range) -> Range
    requires first { a.hi < modulus width }
    requires second { b.hi < modulus width }
    ensures { range_of result ≡ difference_range width (range_of a) (range_of b) }
{
    let m = modulus(width);
    let lo = u128::from(a.lo) + (m - u128::from(b.hi));
    let hi = u128::from(a.hi) + (m - u128::from(b.lo));
    if (a.lo < b.hi) == (a.hi < b.lo) {
        Range::new((lo % m) as u64, (hi % m) as u64)
    } else {
        full(width)
    }
}

fn product(width: AluWidth, a: Range, b: Range) -> Range
    ensures { range_of result ≡ product_range width (range_of a) (range_of b) }
{
    let lo = u128::from(a.lo) * u128::from(b.lo);
    let hi = u128::from(a.hi) * u128::from(b.hi);
    if hi < modulus(width) {
        Range::new(lo as u64, hi as u64)
    } else {
        full(width)
    }
}

fn quotient(a: Range, b: Range) -> Range
    ensures { range_of result ≡ quotient_range (range_of a) (range_of b) }
{
    if b.lo > 0 {
        Range::new(a.lo / b.hi, a.hi / b.lo)
    } else {
        Range::new(0, a.hi)
    }
}

fn rest(a: Range, b: Range) -> Range
    ensures { range_of result ≡ rest_range (range_of a) (range_of b) }
{
    if b.lo == 0 {
        Range::new(0, a.hi)
    } else if a.hi < b.lo {
        a
    } else {
        Range::new(0, a.hi.min(b.hi - 1))
    }
}

/// The least 2^j - 1 that isn't below either number.
fn all_bits(x: u64, y: u64) -> u64
    ensures value { result ≡ all_bits x y }
    ensures first { x ≤ result }
    ensures second { y ≤ result }
{
    let length = 64 - x.max(y).leading_zeros();
    ((1u128 << length) - 1) as u64
}

fn left_shift(width: AluWidth, a: Range, b: Range) -> Range
    ensures { range_of result ≡ left_shift_range width (range_of a) (range_of b) }
{
    let count = b.lo % bits(width);
    let hi = u128::from(a.hi) << count;
    if b.is_single() && hi < modulus(width) {
        let lo = u128::from(a.lo) << count;
        Range::new(lo as u64, hi as u64)
    } else {
        full(width)
    }
}

fn right_shift(width: AluWidth, a: Range, b: Range) -> Range
    ensures { range_of result ≡ right_shift_range width (range_of a) (range_of b) }
{
    let count = b.lo % bits(width);
    if b.is_single() {
        Range::new(a.lo >> count, a.hi >> count)
    } else {
        Range::new(0, a.hi)
    }
}

fn extended(width: AluWidth, op: AluOp, bits: u64, b: Range) -> Range
    requires below { b.hi < modulus width }
    requires some { 0 < bits }
    requires few { bits < 64 }
    ensures { range_of result ≡ extended_range width op bits (range_of b) }
{
    if b.is_single() {
        Range::single(value(width, op, 0, b.lo))
    } else if b.hi < 1 << (bits - 1) {
        b
    } else {
        full(width)
    }
}

fn negation(width: AluWidth, a: Range) -> Range
    requires below { a.hi < modulus width }
    ensures { range_of result ≡ negation_range width (range_of a) }
{
    if a.is_single() {
        Range::single(value(width, AluOp::Neg, a.lo, 0))
    } else if a.lo > 0 {
        let m = modulus(width);
        let lo = m - u128::from(a.hi);
        let hi = m - u128::from(a.lo);
        Range::new(lo as u64, hi as u64)
    } else {
        full(width)
    }
}
