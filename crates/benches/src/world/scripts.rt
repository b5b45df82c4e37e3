//! Scripts as texts, and what running them takes.

use anyhow::{Result, anyhow};
use bench_common::{Measures, ProcessorTime};
use std::alloc::{AllocError, Global};
use world_trace::{Played, run_script};

/// Four replicas, of which replica 3 is faulty, and a client. Each key has 32 leaves, and the secret is zeros.
const HEAD: &str = "\
f = 1
k = 8
secret = \"0000000000000000000000000000000000000000000000000000000000000000\"
faulty = [3]
client = [{ id = 100, tenant = 1 }]
";

/// As many, none of them faulty. Each key has 1,024 leaves.
const HIGH_HEAD: &str = "\
f = 1
k = 8
secret = \"0000000000000000000000000000000000000000000000000000000000000000\"
heights = [10, 10, 10, 10]
client_height = 10
client = [{ id = 100, tenant = 1 }]
";

/// The client installs a procedure that returns 7.
const INSTALLATION: &str = "
[[step]]
do = \"request\"
client = 100
install = \"b700000007000000 9500000000000000\"

[[step]]
do = \"deliver\"
";

/// It calls the procedure.
const CALL: &str = "
[[step]]
do = \"request\"
client = 100
call = 0

[[step]]
do = \"deliver\"
";

/// Delivers what is queued.
pub(crate) const DELIVERY: &str = "[[step]]\ndo = \"deliver\"\n";

/// Delivers what is queued for replica 2 alone, which is nothing.
pub(crate) const VAIN_DELIVERY: &str = "[[step]]\ndo = \"deliver\"\nto = [2]\n";

/// Queues everything once more.
const REPETITION: &str = "[[step]]\ndo = \"repeat\"\n";

/// A step that does nothing.
const NOTHING: &str = "[[step]]\ndo = \"drop\"\nto = []\n";

/// The calls behind an installation, of the script of eleven requests.
pub(crate) const CALLS: usize = 10;

/// What eleven requests and a checkpoint sign, in whatever order they are delivered. Of a request: itself, a PrePrepare,
/// three Prepares, four Commits and four Replies. Of a checkpoint: four messages.
pub(crate) const SIGNED: u32 = 11 * 13 + 4;

/// What they have opened. Of a request: itself four times, the PrePrepare three times, the Prepares nine,
/// the Commits twelve times, and four Replies. Of a checkpoint: each message three times.
pub(crate) const OPENED: usize = 11 * 32 + 12;

/// The client installs the procedure, and calls it so many times.
pub(crate) fn requests(alloc: Global, calls: usize) -> Result<String, AllocError> {
    let mut text = String::from_str(alloc, HIGH_HEAD)?;
    text.push_str(INSTALLATION)?;
    text.push_str(CALL.repeat(alloc, calls)?.as_str())?;
    Ok(text)
}

/// Queues bytes, as hex, so many times for a replica; and all that is then queued, so many times, once more.
pub(crate) fn queued(
    alloc: Global,
    to: u8,
    bytes: &str,
    count: usize,
    repetitions: usize,
) -> Result<String, AllocError> {
    let to = format!(in alloc; "{to},")?.repeat(alloc, count)?;
    let mut text = String::from_str(alloc, HEAD)?;
    text.push_str("[[step]]\ndo = \"raw\"\nbytes = \"")?;
    text.push_str(bytes)?;
    text.push_str("\"\nto = [")?;
    text.push_str(to.as_str())?;
    text.push_str("]\n")?;
    text.push_str(REPETITION.repeat(alloc, repetitions)?.as_str())?;
    Ok(text)
}

/// So many steps that do nothing.
pub(crate) fn steps(alloc: Global, count: usize) -> Result<String, AllocError> {
    let mut text = String::from_str(alloc, HEAD)?;
    text.push_str(NOTHING.repeat(alloc, count)?.as_str())?;
    Ok(text)
}

/// A script with more steps behind its own.
pub(crate) fn followed(alloc: Global, script: &str, steps: &str) -> Result<String, AllocError> {
    let mut text = String::from_str(alloc, script)?;
    text.push_str(steps)?;
    Ok(text)
}

/// What a script prints.
pub(crate) fn output_of(alloc: Global, script: &str) -> Result<Vec<u8>> {
    let mut output = Vec::new(alloc);
    let mut reader = script.as_bytes();
    match run_script(alloc, &mut reader, &mut output) {
        Ok(Played::Whole) => Ok(output),
        Ok(Played::Unexpected) => Err(anyhow!("other lines were expected")),
        Err(fault) => Err(anyhow!("{fault}")),
    }
}

/// The processor's time of one run of a script, in nanoseconds. It prints so many lines.
pub(crate) fn nanoseconds_of(rt: &impl Measures, script: &str, lines: usize) -> Result<u128> {
    let start = ProcessorTime::now(rt)?;
    let output = output_of(rt.alloc(), script)?;
    let taken = start.nanoseconds(rt)?;
    if output.iter().filter(|byte| **byte == b'\n').count() != lines {
        return Err(anyhow!("the script prints other lines"));
    }
    Ok(taken)
}
