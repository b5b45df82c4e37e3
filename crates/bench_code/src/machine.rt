//! The interpreter and the verifier. The part runs each program of the measurement once, and prints how
//! many steps it took and what it returned. For `programs` it prints their code, for the interpreter to
//! measure against, for `time` the least time of a run of each in picoseconds, for `helpers` what a call
//! of a helper costs over the map's own operation, and for `verify` what the verifier takes for a slot and
//! for a visit.

use anyhow::{Result, anyhow};
use bench_common::Measures;

mod helpers;
mod programs;
mod runs;
mod verifying;

/// Runs each program once, or does what a word names.
pub fn run(rt: &impl Measures, work: Option<&str>) -> Result<()> {
    match work {
        None => runs::print_results(rt),
        Some("programs") => runs::print_programs(rt),
        Some("time") => runs::print_times(rt),
        Some("helpers") => helpers::print_costs(rt),
        Some("verify") => verifying::print_times(rt),
        Some(_) => Err(anyhow!(
            "the word behind machine is none of programs, time, helpers and verify"
        )),
    }
}
