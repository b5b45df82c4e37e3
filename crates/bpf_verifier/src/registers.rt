//! The ranges of the registers.

ghost use Rattle.bpf_verifier.specs.Registers.{AreOrdered};

use bpf_decode::Reg;
use bpf_model::layout::REGISTERS;
use reg_ranges::{Range, join};

/// The range of each register that holds a number for certain: its ends, and a bit that says that it holds
/// one. The ends of the others are in order too but mean nothing, so that a join has no branch.
#[derive(Clone, Copy)]
pub struct RegisterRanges {
    lo: [u64; REGISTERS],
    hi: [u64; REGISTERS],
    known: u64,
    ghost ordered: { AreOrdered lo hi },
}

impl RegisterRanges {
    ghost use Rattle.std.specs.Prelude.{◌≡◌, ℕ, ◌<◌, ◌==◌, if◌then◌else◌, slice_index_or};
    ghost use Rattle.std.specs.Option.{option_map, is_some};
    ghost use Rattle.reg_ranges.specs.RangeOf.{range_of};
    ghost use Rattle.bpf_model.specs.AbstractState.{join_option};
    ghost use Rattle.bpf_verifier.specs.Represents.{ranges_of};

    /// No register holds a number for certain.
    fn none() -> RegisterRanges
        ensures { (r : ℕ) → ranges_of result r ≡ None }
    {
        RegisterRanges {
            lo: [0; REGISTERS],
            hi: [0; REGISTERS],
            known: 0,
        }
    }

    /// The registers with these ranges, r0's first.
    pub fn from_array(ranges: [Option<Range>; REGISTERS]) -> RegisterRanges
        ensures { (r : ℕ) → ranges_of result r ≡ option_map range_of (slice_index_or ranges r None) }
    {
        let mut registers = RegisterRanges::none();
        for register in 0..REGISTERS {
            registers.set(register, ranges[register]);
        }
        registers
    }

    /// Whether a register holds a number for certain.
    #[inline(always)]
    pub fn has(&self, register: Reg) -> bool
        ensures { result ≡ is_some (ranges_of self.now register.number) }
    {
        self.known >> register.number & 1 == 1
    }

    /// The range of a register that holds a number for certain.
    #[inline(always)]
    pub fn get(&self, register: Reg) -> Option<Range>
        ensures { option_map range_of result ≡ ranges_of self.now register.number }
    {
        if self.has(register) {
            let register = register.number as usize;
            Some(Range::new(self.lo[register], self.hi[register]))
        } else {
            None
        }
    }

    /// Gives a register a range, or none.
    pub fn set(&mut self, register: usize, range: Option<Range>)
        requires { register < 11 }
        ensures { (r : ℕ) → ranges_of self.new r ≡
            (if r == register then option_map range_of range else ranges_of self.old r) }
    {
        match range {
            Some(range) => {
                self.lo[register] = range.lo;
                self.hi[register] = range.hi;
                self.known |= 1 << register;
            }
            None => self.known &= !(1 << register),
        }
    }

    /// Becomes the other ranges. Part by part, since a copy of the whole is a call.
    #[inline(always)]
    pub fn copy_from(&mut self, other: &RegisterRanges)
        ensures { self.new ≡ other.now }
    {
        self.lo = other.lo;
        self.hi = other.hi;
        self.known = other.known;
    }

    /// Keeps the registers that hold a number in both, each with the least range that holds both of its own.
    pub fn join(&mut self, other: &RegisterRanges)
        ensures { (r : ℕ) → ranges_of self.new r ≡
            join_option (ranges_of self.old r) (ranges_of other.now r) }
    {
        // Over copies: nothing is stored before all is read, so that registers are joined two at a time.
        let mut lo = self.lo;
        let mut hi = self.hi;
        for register in 0..REGISTERS {
            let joined = join(
                Range::new(lo[register], hi[register]),
                Range::new(other.lo[register], other.hi[register]),
            );
            lo[register] = joined.lo;
            hi[register] = joined.hi;
        }
        self.lo = lo;
        self.hi = hi;
        self.known &= other.known;
    }
}
