//! Gates that watch threads, or hold them.

use host_types::Gate;
use std::sync::atomic::{AtomicU64, Ordering};
use std::thread;
use std::time::{Clock, Duration};

/// How often a gate or a test looks before it gives up.
pub const TURNS: u64 = 10_000;

/// What a gate is called with as the first lane of replica 1 begins; the second's is one more.
pub const FIRST_LANE: u32 = 256 + 16;

/// Counts the steps of replicas 0 to 3, how often the two lanes of replica 1 began, and the openings of
/// replica 0. It holds the first step of replica 0, its first opening, or the first lane, as it is told to.
#[derive(Drop)]
pub struct Watch<R: Clock + Drop> {
    rt: R,
    steps: [AtomicU64; 4],
    lanes: [AtomicU64; 2],
    openings: AtomicU64,
    held: Held,
    gave_up: AtomicU64,
}

/// What the first step of replica 0 waits for, or its first opening, or the first lane of replica 1.
#[derive(Clone, Copy, Debug, PartialEq, Eq)]
pub enum Held {
    No,
    UntilOneSteps,
    UntilTwoAreOpened,
    OpenerUntilTheOther,
    LaneUntilTheOther,
}

impl<R: Clock + Drop> Watch<R> {
    pub fn new(rt: R, held: Held) -> Watch<R> {
        Watch {
            rt,
            steps: [
                AtomicU64::new(0),
                AtomicU64::new(0),
                AtomicU64::new(0),
                AtomicU64::new(0),
            ],
            lanes: [AtomicU64::new(0), AtomicU64::new(0)],
            openings: AtomicU64::new(0),
            held,
            gave_up: AtomicU64::new(0),
        }
    }

    fn count(&self, who: u32) -> Option<&AtomicU64> {
        match who.checked_sub(FIRST_LANE) {
            Some(lane) => self.lanes.get(lane as usize),
            None => self.steps.get(who as usize),
        }
    }

    /// How often a replica was about to step, or a lane to begin.
    pub fn steps(&self, who: u32) -> u64 {
        match self.count(who) {
            Some(count) => count.load(Ordering::SeqCst),
            None => 0,
        }
    }

    /// Whether a step was held too long.
    pub fn gave_up(&self) -> bool {
        self.gave_up.load(Ordering::SeqCst) > 0
    }

    fn may_go(&self) -> bool {
        match self.held {
            Held::No => true,
            Held::UntilOneSteps => self.steps(1) > 0,
            Held::UntilTwoAreOpened | Held::OpenerUntilTheOther => {
                self.openings.load(Ordering::SeqCst) > 1
            }
            Held::LaneUntilTheOther => self.steps(FIRST_LANE + 1) > 0,
        }
    }

    fn is_held(&self, who: u32) -> bool {
        match self.held {
            Held::LaneUntilTheOther => who == FIRST_LANE,
            Held::OpenerUntilTheOther => false,
            _ => who == 0,
        }
    }

    fn hold(&self) {
        for _ in 0..TURNS {
            if self.may_go() {
                return;
            }
            thread::sleep(&self.rt, Duration::from_millis(1));
        }
        self.gave_up.fetch_add(1, Ordering::SeqCst);
    }
}

impl<R: Clock + Drop> Gate for Watch<R> {
    fn step(&self, who: u32) {
        if let Some(count) = self.count(who) {
            let before = count.fetch_add(1, Ordering::SeqCst);
            if before == 0 && self.is_held(who) {
                self.hold();
            }
        }
    }

    fn opened(&self, who: u32) {
        if who == 0 {
            let before = self.openings.fetch_add(1, Ordering::SeqCst);
            if before == 0 && self.held == Held::OpenerUntilTheOther {
                self.hold();
            }
        }
    }
}

/// Waits until a replica was about to step so often; false where it gives up.
pub fn wait_for_steps<R: Clock + Drop, C: Clock>(
    rt: &C,
    gate: &Watch<R>,
    id: u32,
    many: u64,
) -> bool {
    for _ in 0..TURNS {
        if gate.steps(id) >= many {
            return true;
        }
        thread::sleep(rt, Duration::from_millis(1));
    }
    false
}
