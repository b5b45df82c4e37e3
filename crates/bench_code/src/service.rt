//! The service. The part takes the digest of a small state. For `time` it prints what the digest of a full
//! state costs against one hash of its bytes, and what a put to a full map costs against one to a map with
//! room.

use anyhow::{Result, anyhow};
use bench_common::Measures;

mod states;
mod times;

/// Takes the digest of a small state, or does what a word names.
pub fn run(rt: &impl Measures, work: Option<&str>) -> Result<()> {
    match work {
        None => print_small(rt),
        Some("time") => times::print_times(rt),
        Some(_) => Err(anyhow!("the word behind service is not time")),
    }
}

fn print_small(rt: &impl Measures) -> Result<()> {
    let state = states::with_entries(rt.alloc(), 3)?;
    let bytes = state.to_bytes()?;
    println!(rt;
        "a state of {} bytes, number {}",
        bytes.len(),
        state.number().0
    )?;
    Ok(())
}
