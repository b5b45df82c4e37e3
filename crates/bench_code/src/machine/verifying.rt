//! What the verifier takes.

use crate::machine::programs::{Kind, Program, straight, two_calls_each};
use crate::machine::runs::verified_under;
use anyhow::{Result, anyhow};
use bench_common::Measures;
use bench_common::ratio::{Limit, Ratio, require_within_limits};
use bpf_verifier::{Profile, VerifyFault, verify};
use std::fmt;
use std::time::Instant;

/// The rounds of which the least counts.
const ROUNDS: u32 = 20;

/// How often it is measured, each time for all kinds of code in turn: the speed of a machine may fall for
/// seconds.
const PASSES: u32 = 5;

/// What a slot of a program of 1,023 may take of one of 255.
const LINEAR: Limit = Limit::Thousandths(1300);

/// How many visits the verifier makes before it gives up.
const VISITS: u128 = 65_536;

/// What a visit of code with calls may take of a visit of straight code.
const VISIT: Limit = Limit::Thousandths(100_000);

/// A time that is printed in nanoseconds.
#[derive(Clone, Copy)]
struct Picoseconds(u128);

impl fmt::Display for Picoseconds {
    fn fmt<W: fmt::Write>(&self, f: &mut fmt::Formatter<W>) -> fmt::Result {
        write!(f, "{}.{:03} ns", self.0 / 1000, self.0 % 1000)
    }
}

/// The least time of verifying programs under a profile in turn, for each of their slots, in picoseconds.
fn picoseconds_of_slot(rt: &impl Measures, profile: Profile, programs: &[Program]) -> Result<u128> {
    let mut slots = 0u64;
    for program in programs {
        slots = slots.saturating_add(program.code.len() as u64 / 8);
    }
    let mut least = u128::MAX;
    for _ in 0..ROUNDS {
        let start = Instant::now(rt)?;
        for _ in 0..100 {
            for program in programs {
                let _procedure = verified_under(rt.alloc(), profile, program)?;
            }
        }
        least = least.min(start.elapsed(rt)?.as_nanos());
    }
    Ok(least.saturating_mul(10) / u128::from(slots.max(1)))
}

/// What the verifier takes for a slot of a kind of code, the least so far: of four programs, and of one that is
/// as long as all four, so that the processor's predictor of branches has as much to learn on both sides.
#[derive(Clone, Copy)]
struct SlotTimes {
    profile: Profile,
    kind: Kind,
    short: u128,
    long: u128,
}

impl SlotTimes {
    fn new(profile: Profile, kind: Kind) -> SlotTimes {
        SlotTimes {
            profile,
            kind,
            short: u128::MAX,
            long: u128::MAX,
        }
    }

    /// Measures both once more.
    fn measure(&mut self, rt: &impl Measures) -> Result<()> {
        let long = self.kind.programs(rt.alloc(), 3..4, 1_023)?;
        let short = self.kind.programs(rt.alloc(), 4..8, 255)?;
        self.short = self
            .short
            .min(picoseconds_of_slot(rt, self.profile, &short)?);
        self.long = self.long.min(picoseconds_of_slot(rt, self.profile, &long)?);
        Ok(())
    }

    /// Prints both. Whether they keep the limit.
    fn keeps_limit(self, rt: &impl Print) -> Result<bool> {
        let ratio = Ratio::new(self.long, self.short, LINEAR);
        println!(rt;
            "{}, {}: {} a slot of 1,023, {} a slot of four times 255, {ratio}",
            name_of(self.profile),
            self.kind.name(),
            Picoseconds(self.long),
            Picoseconds(self.short)
        )?;
        Ok(ratio.is_within_limit())
    }
}

/// What the verifier of a profile is called where it is printed.
fn name_of(profile: Profile) -> &'static str {
    match profile {
        Profile::One => "verify",
        Profile::Two => "verify2",
    }
}

/// The least time of refusing code after the last visit, for each visit, in picoseconds.
fn picoseconds_of_visit(rt: &impl Measures, program: &Program) -> Result<u128> {
    let mut least = u128::MAX;
    for _ in 0..ROUNDS {
        let start = Instant::now(rt)?;
        let verdict = verify(rt.alloc(), &program.code);
        least = least.min(start.elapsed(rt)?.as_nanos());
        match verdict {
            Err(refusal) if refusal.fault == VerifyFault::TooComplex => (),
            _ => return Err(anyhow!("the program is not refused as too complex")),
        }
    }
    Ok(least.saturating_mul(1000) / VISITS)
}

/// Prints what the verifier takes for a visit, of 65,536 in code with calls and of one a slot in straight
/// code. Whether the limit is kept.
fn keeps_visits(rt: &impl Measures) -> Result<bool> {
    let visit = picoseconds_of_visit(rt, &two_calls_each(rt.alloc(), 509)?)?;
    let slot = picoseconds_of_slot(rt, Profile::One, &[straight(rt.alloc(), 1024)?])?;
    let ratio = Ratio::new(visit, slot, VISIT);
    println!(rt;
        "verify, calls: {} a visit of 65,536, straight code {} a slot of 1,024, {ratio}",
        Picoseconds(visit),
        Picoseconds(slot)
    )?;
    Ok(ratio.is_within_limit())
}

/// Prints what the verifier takes under each profile for a slot of tests that it decides, of tests whose edges join,
/// and of loads and stores. Whether the limit is kept.
fn keeps_slots(rt: &impl Measures) -> Result<bool> {
    let mut times = [
        SlotTimes::new(Profile::One, Kind::DecidedTests),
        SlotTimes::new(Profile::One, Kind::JoiningTests),
        SlotTimes::new(Profile::One, Kind::Accesses),
        SlotTimes::new(Profile::Two, Kind::DecidedTests),
        SlotTimes::new(Profile::Two, Kind::JoiningTests),
        SlotTimes::new(Profile::Two, Kind::Accesses),
    ];
    for _ in 0..PASSES {
        for time in &mut times {
            time.measure(rt)?;
        }
    }
    let mut keeps = true;
    for time in times {
        keeps &= time.keeps_limit(rt)?;
    }
    Ok(keeps)
}

/// Prints what the verifier takes for a slot and for a visit; an error where it is too much.
pub(crate) fn print_times(rt: &impl Measures) -> Result<()> {
    let slots = keeps_slots(rt)?;
    let visits = keeps_visits(rt)?;
    require_within_limits(slots && visits)
}
