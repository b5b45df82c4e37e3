//! What a test that was taken, or wasn't, says of the ranges of its operands.

ghost use Rattle.std.specs.Prelude.{◌≡◌, ℕ, ◌<◌, ◌&&◌, ◌||◌, if◌then◌else◌, Some, None, true, false};
ghost use Rattle.std.specs.Option.{option_map};
ghost use Rattle.bpf_num.specs.declared.AluWidth.TheVariants.{W32, W64};
ghost use Rattle.bpf_num.specs.Jump.{jump_test_of};
ghost use Rattle.reg_ranges.specs.Ranges.{In, is_single, is_positive};
ghost use Rattle.reg_ranges.specs.Refine.{ranges, is_zero, refine_of, edge_of, wide_edge, narrow_edge, taken_edge, refuted_edge, equal_edge, unequal_edge, greater_edge, greater_or_equal_edge, without, exchanged, Keeps};
ghost use Rattle.reg_ranges.specs.RangeOf.{range_of, ranges_of};

use crate::range::Range;
use crate::transfer::LOW_HALF;
use bpf_num::{AluWidth, Test, jump_test};

/// The new ranges of the operands of a test that is taken, or isn't; none where the edge can't be taken.
/// The numbers at which the test has that outcome stay; so one of the two edges can always be taken.
#[inline(always)]
pub fn refine(test: Test, narrow: bool, a: Range, b: Range, taken: bool) -> Option<(Range, Range)>
    ensures exact { option_map ranges_of result ≡ refine_of test narrow (range_of a) (range_of b) taken }
    ensures sound { (x y : ℕ) → In x (range_of a) → In y (range_of b) → jump_test_of test narrow x y ≡ taken →
        Keeps (option_map ranges_of result) x y }
    ensures never_both { jump_test_of test narrow a.lo b.lo ≡ taken → Keeps (option_map ranges_of result) a.lo b.lo }
{
    refined(test, narrow, a, b, taken)
}

#[inline(always)]
fn refined(test: Test, narrow: bool, a: Range, b: Range, taken: bool) -> Option<(Range, Range)>
    ensures { option_map ranges_of result ≡ refine_of test narrow (range_of a) (range_of b) taken }
{
    let (on_refuted, on_taken) = refine_edges(test, narrow, a, b);
    if taken { on_taken } else { on_refuted }
}

/// The new ranges of the operands of a test on both edges, first the one that isn't taken: what `refine` gives
/// for each.
#[inline(always)]
pub fn refine_edges(
    test: Test,
    narrow: bool,
    a: Range,
    b: Range,
) -> (Option<(Range, Range)>, Option<(Range, Range)>)
    ensures refuted { option_map ranges_of result.0 ≡ refine_of test narrow (range_of a) (range_of b) false }
    ensures taken { option_map ranges_of result.1 ≡ refine_of test narrow (range_of a) (range_of b) true }
{
    if a.is_single() && b.is_single() {
        if jump_test(test, narrow, a.lo, b.lo) {
            (None, Some((a, b)))
        } else {
            (Some((a, b)), None)
        }
    } else if narrow && (a.hi > LOW_HALF || b.hi > LOW_HALF) {
        (Some((a, b)), Some((a, b)))
    } else {
        edges(width_of(narrow), test, a, b)
    }
}

#[inline(always)]
fn width_of(narrow: bool) -> AluWidth
    ensures { result ≡ (if narrow then W32 else W64) }
{
    if narrow { AluWidth::W32 } else { AluWidth::W64 }
}

/// The edges of a test on numbers of a width. A signed test is the unsigned one where no number has its sign
/// bit set, and says nothing elsewhere.
#[inline(always)]
fn edges(
    width: AluWidth,
    test: Test,
    a: Range,
    b: Range,
) -> (Option<(Range, Range)>, Option<(Range, Range)>)
    requires { is_single (range_of a) ≡ true → is_single (range_of b) ≡ false }
    ensures refuted { option_map ranges_of result.0 ≡ refuted_edge width test (range_of a) (range_of b) }
    ensures taken { option_map ranges_of result.1 ≡ taken_edge width test (range_of a) (range_of b) }
{
    match test {
        Test::Jeq => (unequal(a, b), equal(a, b)),
        Test::Jne => (equal(a, b), unequal(a, b)),
        Test::Jset => (Some((a, b)), with_common_bits(a, b)),
        Test::Jgt => (less_or_equal(a, b), greater(a, b)),
        Test::Jge => (less(a, b), greater_or_equal(a, b)),
        Test::Jlt => (greater_or_equal(a, b), less(a, b)),
        Test::Jle => (greater(a, b), less_or_equal(a, b)),
        Test::Jsgt if are_positive(width, a, b) => (less_or_equal(a, b), greater(a, b)),
        Test::Jsge if are_positive(width, a, b) => (less(a, b), greater_or_equal(a, b)),
        Test::Jslt if are_positive(width, a, b) => (greater_or_equal(a, b), less(a, b)),
        Test::Jsle if are_positive(width, a, b) => (greater(a, b), less_or_equal(a, b)),
        _ => (Some((a, b)), Some((a, b))),
    }
}

/// The taken edge of a test for common bits, of which 0 has none.
#[inline(always)]
fn with_common_bits(a: Range, b: Range) -> Option<(Range, Range)>
    ensures { option_map ranges_of result ≡ (if is_zero (range_of a) || is_zero (range_of b) then None else Some (ranges (range_of a) (range_of b))) }
{
    if a.hi == 0 || b.hi == 0 {
        None
    } else {
        Some((a, b))
    }
}

#[inline(always)]
fn are_positive(width: AluWidth, a: Range, b: Range) -> bool
    ensures { result ≡ (is_positive width (range_of a) && is_positive width (range_of b)) }
{
    let limit = match width {
        AluWidth::W32 => 0x8000_0000,
        AluWidth::W64 => 0x8000_0000_0000_0000,
    };
    a.hi < limit && b.hi < limit
}

#[inline(always)]
fn equal(a: Range, b: Range) -> Option<(Range, Range)>
    ensures { option_map ranges_of result ≡ equal_edge (range_of a) (range_of b) }
{
    let lo = a.lo.max(b.lo);
    let hi = a.hi.min(b.hi);
    if lo <= hi {
        let both = Range::new(lo, hi);
        Some((both, both))
    } else {
        None
    }
}

#[inline(always)]
fn unequal(a: Range, b: Range) -> Option<(Range, Range)>
    requires { is_single (range_of a) ≡ true → is_single (range_of b) ≡ false }
    ensures { option_map ranges_of result ≡ unequal_edge (range_of a) (range_of b) }
{
    let first = if b.is_single() { without(a, b.lo) } else { a };
    let second = if a.is_single() { without(b, a.lo) } else { b };
    Some((first, second))
}

/// The numbers of a range but this one, where it is an end.
#[inline(always)]
fn without(range: Range, value: u64) -> Range
    requires { range.lo < range.hi }
    ensures { range_of result ≡ without (range_of range) value }
{
    if range.lo == value {
        Range::new(range.lo + 1, range.hi)
    } else if range.hi == value {
        Range::new(range.lo, range.hi - 1)
    } else {
        range
    }
}

#[inline(always)]
fn greater(a: Range, b: Range) -> Option<(Range, Range)>
    ensures { option_map ranges_of result ≡ greater_edge (range_of a) (range_of b) }
{
    if a.hi <= b.lo {
        return None;
    }
    let first = Range::new(a.lo.max(b.lo + 1), a.hi);
    let second = Range::new(b.lo, b.hi.min(a.hi - 1));
    Some((first, second))
}

#[inline(always)]
fn greater_or_equal(a: Range, b: Range) -> Option<(Range, Range)>
    ensures { option_map ranges_of result ≡ greater_or_equal_edge (range_of a) (range_of b) }
{
    if a.hi < b.lo {
        return None;
    }
    let first = Range::new(a.lo.max(b.lo), a.hi);
    let second = Range::new(b.lo, b.hi.min(a.hi));
    Some((first, second))
}

#[inline(always)]
fn less(a: Range, b: Range) -> Option<(Range, Range)>
    ensures { option_map ranges_of result ≡ option_map exchanged (greater_edge (range_of b) (range_of a)) }
{
    match greater(b, a) {
        Some((second, first)) => Some((first, second)),
        None => None,
    }
}

#[inline(always)]
fn less_or_equal(a: Range, b: Range) -> Option<(Range, Range)>
    ensures { option_map ranges_of result ≡ option_map exchanged (greater_or_equal_edge (range_of b) (range_of a)) }
{
    match greater_or_equal(b, a) {
        Some((second, first)) => Some((first, second)),
        None => None,
    }
}
