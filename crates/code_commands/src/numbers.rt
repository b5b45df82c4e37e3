//! Ranges of numbers as text: those that are addresses, as offsets.

use bpf_model::layout::{ARGUMENTS_START, FRAME_END, FRAME_SIZE, FRAME_START, FRAMES};
use reg_ranges::Range;
use std::fmt;

/// How far from the start of the stack or the arguments a number still is an address there.
const NEAR: u64 = 0x8000_0000;

/// How far below the stack a number that is accessed still is an address there.
const BELOW_STACK: u64 = 0x1_0000;

/// What an address is an offset from.
#[derive(Clone, Copy, Debug, PartialEq, Eq)]
pub(crate) enum Base {
    /// The frame pointer of the frame of a depth, from 0 on.
    Frame(u64),
    /// The start of the arguments.
    Arguments,
}

impl Base {
    /// What these numbers are offsets from, where they are addresses of the stack or the arguments, or
    /// behind them; before the arguments too.
    pub(crate) fn of(range: Range) -> Option<Base> {
        Base::from_start(range, FRAME_START)
    }

    /// The same of numbers that are accessed, so that those right below the stack are addresses too.
    pub(crate) fn of_address(range: Range) -> Option<Base> {
        Base::from_start(range, FRAME_START - BELOW_STACK)
    }

    fn from_start(range: Range, start: u64) -> Option<Base> {
        if range.lo >= start && range.hi < FRAME_START + NEAR {
            let behind = range.lo.saturating_sub(FRAME_START + 1);
            Some(Base::Frame((behind / FRAME_SIZE as u64).min(FRAMES as u64 - 1)))
        } else if range.lo >= ARGUMENTS_START - NEAR && range.hi < ARGUMENTS_START + 2 * NEAR {
            Some(Base::Arguments)
        } else {
            None
        }
    }

    /// Its address.
    pub(crate) fn address(self) -> u64 {
        match self {
            Base::Frame(depth) => FRAME_END.wrapping_add(depth.wrapping_mul(FRAME_SIZE as u64)),
            Base::Arguments => ARGUMENTS_START,
        }
    }

    /// How far behind it an address is, or, below zero, before it.
    pub(crate) fn offset_of(self, address: u64) -> i64 {
        address.wrapping_sub(self.address()).cast_signed()
    }
}

impl fmt::Display for Base {
    fn fmt<W: fmt::Write>(&self, f: &mut fmt::Formatter<W>) -> fmt::Result {
        match self {
            Base::Frame(depth) => write!(f, "frame {depth}"),
            Base::Arguments => write!(f, "arguments"),
        }
    }
}

/// A range of numbers, as offsets where they have a base: `7`, `[0, 256]`, `any`, `arguments + [0, 250]`,
/// `frame 0 - 16`.
#[derive(Clone, Copy, Debug)]
pub(crate) struct Numbers {
    range: Range,
    base: Option<Base>,
}

impl Numbers {
    /// The numbers that a register may hold.
    pub(crate) fn of(range: Range) -> Numbers {
        Numbers {
            range,
            base: Base::of(range),
        }
    }

    /// The addresses that may be accessed.
    pub(crate) fn of_address(range: Range) -> Numbers {
        Numbers {
            range,
            base: Base::of_address(range),
        }
    }
}

impl fmt::Display for Numbers {
    fn fmt<W: fmt::Write>(&self, f: &mut fmt::Formatter<W>) -> fmt::Result {
        let Range { lo, hi, .. } = self.range;
        let Some(base) = self.base else {
            return if lo == hi {
                write!(f, "{lo}")
            } else if lo == 0 && hi == u64::MAX {
                write!(f, "any")
            } else {
                write!(f, "[{lo}, {hi}]")
            };
        };
        let first = base.offset_of(lo);
        let last = base.offset_of(hi);
        if lo != hi {
            return write!(f, "{base} + [{first}, {last}]");
        }
        let distance = first.unsigned_abs();
        if first < 0 {
            write!(f, "{base} - {distance}")
        } else {
            write!(f, "{base} + {distance}")
        }
    }
}
