//! A range of 64-bit numbers.

ghost use Rattle.std.specs.Prelude.{◌≤◌};

/// A range of 64-bit numbers; both ends belong to it.
#[derive(Clone, Copy, Debug, PartialEq, Eq)]
pub struct Range {
    pub lo: u64,
    pub hi: u64,
    ghost ordered: { lo ≤ hi },
}

impl Range {
    ghost use Rattle.std.specs.Prelude.{◌≡◌, ◌≤◌};
    ghost use Rattle.reg_ranges.specs.Ranges.{range, single, is_single};
    ghost use Rattle.reg_ranges.specs.RangeOf.{range_of};

    /// The numbers from the first to the second.
    pub fn new(lo: u64, hi: u64) -> Range
        requires { lo ≤ hi }
        ensures { range_of result ≡ range lo hi }
    {
        Range { lo, hi }
    }

    /// The range of one number alone.
    pub fn single(value: u64) -> Range
        ensures { range_of result ≡ single value }
    {
        Range::new(value, value)
    }

    /// Whether the range holds one number alone.
    pub fn is_single(self) -> bool
        ensures { result ≡ is_single (range_of self) }
    {
        self.lo == self.hi
    }
}
