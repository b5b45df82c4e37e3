//! Gates that watch lanes, or hold one.

use host_types::Gate;
use std::sync::atomic::{AtomicU64, Ordering};
use std::thread;
use std::time::{Clock, Duration};

/// How often a gate looks before it gives up.
const TURNS: u64 = 10_000;

/// Counts the steps of each lane, and holds lane 0 until lane 1 has stepped, where it is to.
#[derive(Drop)]
pub(crate) struct Watch<R: Clock + Drop> {
    rt: R,
    steps: [AtomicU64; 8],
    holds: bool,
    gave_up: AtomicU64,
}

impl<R: Clock + Drop> Watch<R> {
    pub(crate) fn new(rt: R, holds: bool) -> Watch<R> {
        Watch {
            rt,
            steps: [
                AtomicU64::new(0),
                AtomicU64::new(0),
                AtomicU64::new(0),
                AtomicU64::new(0),
                AtomicU64::new(0),
                AtomicU64::new(0),
                AtomicU64::new(0),
                AtomicU64::new(0),
            ],
            holds,
            gave_up: AtomicU64::new(0),
        }
    }

    /// How often a lane was about to begin.
    pub(crate) fn steps(&self, lane: usize) -> u64 {
        match self.steps.get(lane) {
            Some(count) => count.load(Ordering::SeqCst),
            None => 0,
        }
    }

    /// Whether lane 0 was held too long.
    pub(crate) fn gave_up(&self) -> bool {
        self.gave_up.load(Ordering::SeqCst) > 0
    }

    fn hold(&self) {
        for _ in 0..TURNS {
            if self.steps(1) > 0 {
                return;
            }
            thread::sleep(&self.rt, Duration::from_millis(1));
        }
        self.gave_up.fetch_add(1, Ordering::SeqCst);
    }
}

impl<R: Clock + Drop> Gate for Watch<R> {
    fn step(&self, who: u32) {
        if let Some(count) = self.steps.get(who as usize) {
            count.fetch_add(1, Ordering::SeqCst);
        }
        if self.holds && who == 0 {
            self.hold();
        }
    }
}
