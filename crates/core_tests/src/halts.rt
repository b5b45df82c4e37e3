//! Where a replica stops.

use crate::script::{Scenario, play_all};
use std::test::Fail;

// With two leaves: to join takes one, to open the view with one proposal two. Nothing of that call is
// given; where the replica stood before it is kept, with the halt.
const A_LEAF_TOO_FEW: Scenario = Scenario {
    replica: 1,
    leaves: 2,
    lines: "
        stands                => view 0 active low 0 executed 0 left 2 state s0
        2 view-change 1 low 0, 0/1 null by 2 3 => leaves 0
        3 view-change 1 low 0 => halts: Exhausted
        stands                => view 0 active low 0 executed 0 left 0 halted Exhausted no state
        0 view-change 1 low 0 => halts: AlreadyHalted
        timeout               => halts: AlreadyHalted
        stands                => view 0 active low 0 executed 0 left 0 halted Exhausted no state
    ",
};

// With three leaves it opens the view. What takes no leaf continues; what takes one stops it.
const THE_LAST_LEAF: Scenario = Scenario {
    replica: 1,
    leaves: 3,
    lines: "
        2 view-change 1 low 0, 0/1 null by 2 3 => leaves 0
        3 view-change 1 low 0 => view-change 1 low 0 to all; new-view 1 of 1 2 3, 1/1 null to all; leaves 3
        stands                => view 1 active low 0 executed 0 left 0 state s0
        2 prepare 1/1 null    => leaves 0
        request a             => halts: Exhausted
        stands                => view 1 active low 0 executed 0 left 0 halted Exhausted no state
        request a             => halts: AlreadyHalted
    ",
};

// With one leaf: a second timeout.
const A_TIMEOUT: Scenario = Scenario {
    replica: 2,
    leaves: 1,
    lines: "
        timeout => view-change 1 low 0 to all; leaves 1
        timeout => halts: Exhausted
        stands  => view 1 changing low 0 executed 0 left 0 halted Exhausted no state
    ",
};

// There is no view above the last.
const THE_LAST_VIEW: Scenario = Scenario {
    replica: 1,
    leaves: 32,
    lines: "
        2 view-change 4294967295 low 0 => leaves 0
        3 view-change 4294967295 low 0 => view-change 4294967295 low 0 to all; leaves 1
        timeout                        => halts: Worn
        stands                         => view 4294967295 changing low 0 executed 0 left 0 halted Worn no state
        timeout                        => halts: AlreadyHalted
    ",
};

// There is no number above the last. The state of the number before it is installed.
const THE_LAST_NUMBER: Scenario = Scenario {
    replica: 0,
    leaves: 32,
    lines: "
        1 checkpoint 281474976710654 late => leaves 0
        2 checkpoint 281474976710654 late => leaves 0
        3 checkpoint 281474976710654 late => fetch state 281474976710654 to all; leaves 1
        1 snapshot 281474976710654 late   => installed 281474976710654 late; leaves 0
        request a                         => pre-prepare 0/281474976710655 a to all; leaves 1
        request b                         => halts: Worn
        stands                            => view 0 active low 281474976710654 executed 281474976710654 left 0 halted Worn no state
    ",
};

// The state of the last number is installed.
const NO_NUMBER_LEFT: Scenario = Scenario {
    replica: 0,
    leaves: 32,
    lines: "
        1 checkpoint 281474976710655 last => leaves 0
        2 checkpoint 281474976710655 last => leaves 0
        3 checkpoint 281474976710655 last => fetch state 281474976710655 to all; leaves 1
        1 snapshot 281474976710655 last   => installed 281474976710655 last; leaves 0
        request a                         => halts: Worn
        stands                            => view 0 active low 281474976710655 executed 281474976710655 left 0 halted Worn no state
        request b                         => halts: AlreadyHalted
    ",
};

#[test]
fn a_replica_stops(rt: HostRuntime) -> Result<(), Fail> {
    play_all(
        rt.alloc(),
        &[
            A_LEAF_TOO_FEW,
            THE_LAST_LEAF,
            A_TIMEOUT,
            THE_LAST_VIEW,
            THE_LAST_NUMBER,
            NO_NUMBER_LEFT,
        ],
    )
}
