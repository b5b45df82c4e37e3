//! What a byte swap makes of a range.

ghost use Rattle.std.specs.Prelude.{◌≡◌, ℕ};
ghost use Rattle.bpf_num.specs.ByteSwap.{byte_swap_of};
ghost use Rattle.reg_ranges.specs.Ranges.{In, swap_range_of};
ghost use Rattle.reg_ranges.specs.RangeOf.{range_of};

use crate::range::Range;
use bpf_num::{SwapKind, Width, byte_swap};

/// The range after a byte swap. Each swap of a number in the range lies in it.
pub fn swap_range(kind: SwapKind, width: Width, a: Range) -> Range
    ensures exact { range_of result ≡ swap_range_of kind width (range_of a) }
    ensures sound { (x : ℕ) → In x (range_of a) → In (byte_swap_of kind width x) (range_of result) }
{
    if a.is_single() {
        return Range::single(byte_swap(kind, width, a.lo));
    }
    let top = match width {
        Width::W16 => 0xffff,
        Width::W32 => 0xffff_ffff,
        Width::W64 => u64::MAX,
    };
    if kind == SwapKind::Le && a.hi <= top {
        a
    } else {
        Range::new(0, top)
    }
}
