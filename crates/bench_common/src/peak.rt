//! The most memory that this process has had in use.

use anyhow::{Result, anyhow};
use std::fs::{self, Files};

/// It, in KiB, as Linux reports it.
pub fn peak(rt: &(impl Files + AllocGlobal)) -> Result<u64> {
    let text = fs::read_to_string(rt, "/proc/self/status")?;
    for line in text.lines() {
        if let Some(rest) = line.strip_prefix("VmHWM:") {
            let number = rest.trim().trim_end_matches(" kB");
            return Ok(number.parse::<u64>()?);
        }
    }
    Err(anyhow!("the system reports no peak"))
}

/// Prints a size, and says whether it is within its limit.
pub fn print_within(rt: &impl Print, work: &str, size: u64, unit: &str, limit: u64) -> Result<()> {
    println!(rt; "{work}: {size} {unit}, limit {limit} {unit}")?;
    if size <= limit {
        Ok(())
    } else {
        Err(anyhow!("the limit is passed"))
    }
}
