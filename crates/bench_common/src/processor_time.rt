//! The processor's time of the thread that measures.

use std::io;
use std::time::{CpuClock, Duration};

/// How much of it was used up to a moment.
#[derive(Clone, Copy)]
pub struct ProcessorTime(Duration);

impl ProcessorTime {
    /// That of this moment.
    pub fn now(rt: &impl CpuClock) -> io::Result<ProcessorTime> {
        Ok(ProcessorTime(rt.thread_cpu_time()?))
    }

    /// The nanoseconds that were used since then.
    pub fn nanoseconds(self, rt: &impl CpuClock) -> io::Result<u128> {
        Ok(rt.thread_cpu_time()?.saturating_sub(self.0).as_nanos())
    }
}
