//! What a driver tells. None of it takes memory, since memory may have ended.

use anyhow::Result;
use host_types::Digest;

/// Says that the one call begins whose allocations may be refused.
pub(crate) fn begin(rt: &HostRuntime) -> Result<()> {
    println!(rt; "begin")?;
    Ok(())
}

/// Says that memory ran out.
pub(crate) fn memory(rt: &HostRuntime) -> Result<()> {
    println!(rt; "memory")?;
    Ok(())
}

/// Says whether something is as it was before the call.
pub(crate) fn is_kept(rt: &HostRuntime, what: &str, is_kept: bool) -> Result<()> {
    let word = if is_kept { "kept" } else { "lost" };
    println!(rt; "{what} {word}")?;
    Ok(())
}

/// The first eight bytes of a digest, as a number.
pub(crate) fn leading(digest: &Digest) -> u64 {
    let mut first = [0; 8];
    first.copy_from_slice(&digest.0[..8]);
    u64::from_be_bytes(first)
}
