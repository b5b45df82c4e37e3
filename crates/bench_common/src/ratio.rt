//! A work's time against another time, and what it may be of it.

ghost use Rattle.std.specs.Prelude.{◌≡◌, ◌↔◌, true, IsOk};

use anyhow::{Result, anyhow};
use std::fmt;

/// The greatest ratio that is allowed.
#[derive(Clone, Copy)]
pub enum Limit {
    /// In thousandths; a ratio is printed with as many digits.
    Thousandths(u128),
    /// In millionths.
    Millionths(u128),
}

/// A time and another in the same unit, and the limit of their ratio.
#[derive(Clone, Copy)]
pub struct Ratio {
    taken: u128,
    floor: u128,
    limit: Limit,
}

impl Ratio {
    pub fn new(taken: u128, floor: u128, limit: Limit) -> Ratio {
        Ratio {
            taken,
            floor,
            limit,
        }
    }

    /// The ratio, in parts of which so many are one.
    fn parts(&self, one: u128) -> u128 {
        self.taken.saturating_mul(one) / self.floor.max(1)
    }

    pub fn is_within_limit(&self) -> bool {
        match self.limit {
            Limit::Thousandths(limit) => self.parts(1000) <= limit,
            Limit::Millionths(limit) => self.parts(1_000_000) <= limit,
        }
    }
}

impl fmt::Display for Ratio {
    fn fmt<W: fmt::Write>(&self, f: &mut fmt::Formatter<W>) -> fmt::Result {
        match self.limit {
            Limit::Thousandths(limit) => {
                let ratio = self.parts(1000);
                write!(f, "ratio {}.{:03}, ", ratio / 1000, ratio % 1000)?;
                write!(f, "limit {}.{:03}", limit / 1000, limit % 1000)
            }
            Limit::Millionths(limit) => {
                let ratio = self.parts(1_000_000);
                write!(f, "ratio {}.{:06}, ", ratio / 1_000_000, ratio % 1_000_000)?;
                write!(f, "limit {}.{:06}", limit / 1_000_000, limit % 1_000_000)
            }
        }
    }
}

/// A work and what it is held against, the time of each in nanoseconds, and the limit of their ratio.
#[derive(Clone, Copy)]
pub struct Comparison<'a> {
    /// What the work is called.
    pub work: &'a str,
    /// The time of the work.
    pub taken: u128,
    /// What it is held against.
    pub other: &'a str,
    /// The time of that.
    pub floor: u128,
    /// What the first time may be of the second.
    pub limit: Limit,
}

impl<'a> Comparison<'a> {
    /// Prints both times in nanoseconds and their ratio, and returns whether that is within its limit.
    pub fn print(&self, rt: &impl Print) -> Result<bool> {
        self.print_in(rt, 1, "ns")
    }

    /// The same of one of so many works.
    pub fn print_each(&self, rt: &impl Print, count: usize) -> Result<bool> {
        self.print_in(rt, count as u128, "ns")
    }

    /// The same in microseconds.
    pub fn print_microseconds(&self, rt: &impl Print) -> Result<bool> {
        self.print_in(rt, 1000, "us")
    }

    fn print_in(&self, rt: &impl Print, unit: u128, name: &str) -> Result<bool> {
        let ratio = Ratio::new(self.taken, self.floor, self.limit);
        let unit = unit.max(1);
        let (taken, floor) = (self.taken / unit, self.floor / unit);
        println!(rt;
            "{}: {taken} {name}, {} {floor} {name}, {ratio}",
            self.work, self.other
        )?;
        Ok(ratio.is_within_limit())
    }
}

/// An error where a limit is passed.
pub fn require_within_limits(are_within: bool) -> Result<()>
    ensures { IsOk result ↔ (are_within ≡ true) }
{
    if are_within {
        Ok(())
    } else {
        Err(anyhow!("a limit is passed"))
    }
}
