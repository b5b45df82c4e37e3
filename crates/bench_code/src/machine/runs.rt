//! Runs of the programs, and their times.

use crate::machine::programs::{Program, all};
use anyhow::{Result, anyhow};
use bench_common::Measures;
use bpf_machine::run;
use bpf_verifier::{Procedure, Profile, verify, verify2};
use host_types::ClientId;
use std::alloc::Global;
use std::time::Instant;
use tenant_maps::TenantMap;

/// The rounds of which the least counts.
const ROUNDS: u32 = 20;

/// The 48 argument bytes 0, 1, 2, ..
fn arguments() -> [u8; 48] {
    let mut bytes = [0; 48];
    let mut next = 0u8;
    for byte in &mut bytes {
        *byte = next;
        next = next.wrapping_add(1);
    }
    bytes
}

/// The procedure that a program is.
pub(crate) fn verified(alloc: Global, program: &Program) -> Result<Procedure> {
    verified_under(alloc, Profile::One, program)
}

/// The procedure that a program is under a profile.
pub(crate) fn verified_under(
    alloc: Global,
    profile: Profile,
    program: &Program,
) -> Result<Procedure> {
    let verdict = match profile {
        Profile::One => verify(alloc, &program.code),
        Profile::Two => verify2(alloc, &program.code),
    };
    match verdict {
        Ok(procedure) => Ok(procedure),
        Err(_) => Err(anyhow!("the program is not accepted")),
    }
}

/// What one run returns, and its steps; none where memory ran out. The output stays behind, so that it
/// isn't copied once more, and so does what an error would carry.
pub(crate) fn finished(
    procedure: &Procedure,
    args: &[u8; 48],
    map: &mut TenantMap,
) -> Option<(u64, u32)> {
    match run(procedure, args, ClientId(16), map) {
        Ok(end) => Some((end.result, end.steps)),
        Err(_) => None,
    }
}

/// The first run of a program, over an empty map.
fn first_run(alloc: Global, procedure: &Procedure) -> Result<(u64, u32)> {
    let mut map = TenantMap::new(alloc);
    match finished(procedure, &arguments(), &mut map) {
        Some(end) => Ok(end),
        None => Err(anyhow!("memory ran out")),
    }
}

/// What a program's first run returns, and its steps.
fn first_run_of(alloc: Global, program: &Program) -> Result<(u64, u32)> {
    first_run(alloc, &verified(alloc, program)?)
}

/// Prints the steps and the result of each program.
pub(crate) fn print_results(rt: &impl Measures) -> Result<()> {
    for program in &all(rt.alloc())? {
        let (result, steps) = first_run_of(rt.alloc(), program)?;
        println!(rt; "{}: {steps} steps, result {result}", program.name)?;
    }
    Ok(())
}

/// Prints a program's name, steps and code in hex.
fn print_program(rt: &impl Measures, program: &Program) -> Result<()> {
    let (_, steps) = first_run_of(rt.alloc(), program)?;
    println!(rt;
        "{} {steps} {}",
        program.name,
        hex::encode(rt.alloc(), &program.code)?
    )?;
    Ok(())
}

/// Prints each program's name, steps and code in hex, a line each.
pub(crate) fn print_programs(rt: &impl Measures) -> Result<()> {
    for program in &all(rt.alloc())? {
        print_program(rt, program)?;
    }
    Ok(())
}

/// The least time of a run of a program, which takes so many steps, in picoseconds, and the result of the
/// last run.
fn picoseconds_of_run(
    rt: &impl Measures,
    procedure: &Procedure,
    steps: u32,
) -> Result<(u128, u64)> {
    let runs = 1_000_000 / steps.saturating_add(20).max(1);
    let mut map = TenantMap::new(rt.alloc());
    let args = arguments();
    let mut last = 0;
    let mut least = u128::MAX;
    for _ in 0..ROUNDS {
        let start = Instant::now(rt)?;
        for _ in 0..runs {
            if let Some((result, _)) = finished(procedure, &args, &mut map) {
                last = result;
            }
        }
        least = least.min(start.elapsed(rt)?.as_nanos());
    }
    Ok((least.saturating_mul(1000) / u128::from(runs.max(1)), last))
}

/// Prints a program's name, the least time of a run in picoseconds, and the result.
fn print_time(rt: &impl Measures, program: &Program) -> Result<()> {
    let procedure = verified(rt.alloc(), program)?;
    let (_, steps) = first_run(rt.alloc(), &procedure)?;
    let (least, result) = picoseconds_of_run(rt, &procedure, steps)?;
    println!(rt; "{} {least} {result}", program.name)?;
    Ok(())
}

/// Prints each program's name, the least time of a run in picoseconds, and the result.
pub(crate) fn print_times(rt: &impl Measures) -> Result<()> {
    for program in &all(rt.alloc())? {
        print_time(rt, program)?;
    }
    Ok(())
}
