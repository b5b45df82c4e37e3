//! The join of two ranges.

ghost use Rattle.std.specs.Prelude.{◌≡◌, ℕ};
ghost use Rattle.reg_ranges.specs.Ranges.{In, join_of};
ghost use Rattle.reg_ranges.specs.RangeOf.{range_of};

use crate::range::Range;

/// The join: the least range that holds both.
pub fn join(a: Range, b: Range) -> Range
    ensures exact { range_of result ≡ join_of (range_of a) (range_of b) }
    ensures first { (x : ℕ) → In x (range_of a) → In x (range_of result) }
    ensures second { (x : ℕ) → In x (range_of b) → In x (range_of result) }
{
    Range::new(a.lo.min(b.lo), a.hi.max(b.hi))
}
