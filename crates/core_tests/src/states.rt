//! Fetching and installing a state that others have reached.

use crate::script::{Scenario, play_all};
use std::test::Fail;

// The third Checkpoint makes a number stable: its state is asked for, once.
const LAGGING: Scenario = Scenario {
    replica: 1,
    leaves: 32,
    lines: "
        0 checkpoint 2 s2 => leaves 0
        2 checkpoint 2 s2 => leaves 0
        3 checkpoint 2 s2 => fetch state 2 to all; leaves 1
        3 checkpoint 2 s2 => leaves 0
        # Another state under that number, or that state under another, is not installed.
        0 snapshot 2 s3   => leaves 0
        0 snapshot 3 s3   => leaves 0
        0 snapshot 4 s2   => leaves 0
        0 snapshot 2 s2   => installed 2 s2; leaves 0
        stands            => view 0 active low 2 executed 2 left 31 state s2
        # The same again is not above what was executed. The replica has the snapshot now.
        0 snapshot 2 s2   => leaves 0
        0 fetch state 2   => snapshot 2 s2 to replica 0; leaves 1
        timeout           => view-change 1 low 2 +2 by 0 +2 by 2 +2 by 3 to all; leaves 1
    ",
};

// Of two stable numbers above what was executed the greater is fetched, and the lesser not installed.
const GREATEST: Scenario = Scenario {
    replica: 1,
    leaves: 32,
    lines: "
        2 new-view 2 of 0 low 2 s2 by 0 2 3; 2 low 4 s4 by 0 2 3; 3 low 0 => fetch state 4 to all; leaves 1
        stands          => view 2 active low 0 executed 0 left 31 state s0
        3 snapshot 4 s4 => installed 4 s4; leaves 0
        3 snapshot 2 s2 => leaves 0
        stands          => view 2 active low 4 executed 4 left 31 state s4
    ",
};

// Of two stable numbers that were executed the low mark is the greater; a Snapshot of the lesser is not
// installed.
const EXECUTED: Scenario = Scenario {
    replica: 1,
    leaves: 32,
    lines: "
        2 prepare 0/1 null     => leaves 0
        2 prepare 0/2 null     => leaves 0
        2 prepare 0/3 null     => leaves 0
        2 prepare 0/4 null     => leaves 0
        2 commit 0/1 null      => leaves 0
        2 commit 0/2 null      => leaves 0
        2 commit 0/3 null      => leaves 0
        2 commit 0/4 null      => leaves 0
        3 commit 0/1 null      => leaves 0
        3 commit 0/2 null      => leaves 0
        3 commit 0/3 null      => leaves 0
        3 commit 0/4 null      => leaves 0
        0 pre-prepare 0/1 null => prepare 0/1 null to all; commit 0/1 null to all; executed 1 null []; leaves 2
        0 pre-prepare 0/2 null => prepare 0/2 null to all; commit 0/2 null to all; checkpoint 2 s2 to all; executed 2 null []; leaves 3
        0 pre-prepare 0/3 null => prepare 0/3 null to all; commit 0/3 null to all; executed 3 null []; leaves 2
        0 pre-prepare 0/4 null => prepare 0/4 null to all; commit 0/4 null to all; checkpoint 4 s4 to all; executed 4 null []; leaves 3
        stands                 => view 0 active low 0 executed 4 left 22 state s4
        0 snapshot 2 s2        => leaves 0
        2 new-view 2 of 0 low 2 s2 by 0 2 3; 2 low 4 s4 by 0 2 3; 3 low 0 => leaves 0
        stands                 => view 2 active low 4 executed 4 left 22 state s4
        3 fetch state 2        => leaves 0
        3 fetch state 4        => snapshot 4 s4 to replica 3; leaves 1
    ",
};

// As the mark rises to 2, Checkpoints above it stay, also those at the next number.
const ABOVE: Scenario = Scenario {
    replica: 1,
    leaves: 32,
    lines: "
        2 prepare 0/1 null     => leaves 0
        2 commit 0/1 null      => leaves 0
        3 commit 0/1 null      => leaves 0
        0 pre-prepare 0/1 null => prepare 0/1 null to all; commit 0/1 null to all; executed 1 null []; leaves 2
        2 prepare 0/2 null     => leaves 0
        2 commit 0/2 null      => leaves 0
        3 commit 0/2 null      => leaves 0
        0 pre-prepare 0/2 null => prepare 0/2 null to all; commit 0/2 null to all; checkpoint 2 s2 to all; executed 2 null []; leaves 3
        0 checkpoint 3 s3      => leaves 0
        2 checkpoint 3 s3      => leaves 0
        0 checkpoint 2 s2      => leaves 0
        2 checkpoint 2 s2      => leaves 0
        stands                 => view 0 active low 2 executed 2 left 27 state s2
        3 checkpoint 3 s3      => fetch state 3 to all; leaves 1
    ",
};

// A stable number that was executed is not fetched, also where the own state there is another: the mark stays.
const ANOTHER_STATE: Scenario = Scenario {
    replica: 1,
    leaves: 32,
    lines: "
        2 prepare 0/1 null     => leaves 0
        2 commit 0/1 null      => leaves 0
        3 commit 0/1 null      => leaves 0
        0 pre-prepare 0/1 null => prepare 0/1 null to all; commit 0/1 null to all; executed 1 null []; leaves 2
        2 prepare 0/2 null     => leaves 0
        2 commit 0/2 null      => leaves 0
        3 commit 0/2 null      => leaves 0
        0 pre-prepare 0/2 null => prepare 0/2 null to all; commit 0/2 null to all; checkpoint 2 s2 to all; executed 2 null []; leaves 3
        0 checkpoint 2 s3      => leaves 0
        2 checkpoint 2 s3      => leaves 0
        3 checkpoint 2 s3      => leaves 0
        stands                 => view 0 active low 0 executed 2 left 27 state s2
    ",
};

// The Checkpoints inside a valid ViewChange count, also where it isn't recorded: it is for an old view, or its signer's
// second for its view. So do those inside the NewView of an old view.
const INSIDE: Scenario = Scenario {
    replica: 3,
    leaves: 32,
    lines: "
        timeout                            => view-change 1 low 0 to all; leaves 1
        timeout                            => view-change 2 low 0 to all; leaves 1
        0 view-change 1 low 2 s2 by 0 1 2  => fetch state 2 to all; leaves 1
        0 view-change 3 low 0              => leaves 0
        0 view-change 3 low 3 s3 by 0 1 2  => fetch state 3 to all; leaves 1
        1 new-view 1 of 0 low 4 s4 by 0 1 2; 1 low 0; 2 low 0 => fetch state 4 to all; leaves 1
        stands                             => view 2 changing low 0 executed 0 left 27 state s0
    ",
};

// Bytes of version 1 are no state's canonical encoding: a Snapshot of them is not installed, though their digest is stable.
const FIRST_VERSION: Scenario = Scenario {
    replica: 1,
    leaves: 32,
    lines: "
        0 checkpoint 2 first-s2 => leaves 0
        2 checkpoint 2 first-s2 => leaves 0
        3 checkpoint 2 first-s2 => fetch state 2 to all; leaves 1
        0 snapshot 2 first-s2   => leaves 0
        0 snapshot 2 s2         => leaves 0
        stands                  => view 0 active low 0 executed 0 left 31 state s0
    ",
};

#[test]
fn states_of_others(rt: HostRuntime) -> Result<(), Fail> {
    play_all(rt.alloc(), &[LAGGING, GREATEST, EXECUTED])
}

#[test]
fn a_state_of_version_1(rt: HostRuntime) -> Result<(), Fail> {
    play_all(rt.alloc(), &[FIRST_VERSION])
}

#[test]
fn checkpoints_that_count(rt: HostRuntime) -> Result<(), Fail> {
    play_all(rt.alloc(), &[ABOVE, ANOTHER_STATE, INSIDE])
}
