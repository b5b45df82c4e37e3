//! What measuring takes of the runtime.

use std::time::{Clock, CpuClock};

/// A handle that reads both clocks, prints and gives memory.
pub trait Measures: Clock + CpuClock + Print + AllocGlobal {}

impl<R: Clock + CpuClock + Print + AllocGlobal> Measures for R {}
