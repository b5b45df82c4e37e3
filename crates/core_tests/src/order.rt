//! What comes first where much is due at once, and what a faulty primary can't bring about.

use crate::script::{Scenario, play_all};
use std::test::Fail;

// All that is due is done in one row.
const AT_ONCE: Scenario = Scenario {
    replica: 1,
    leaves: 32,
    lines: "
        request a           => leaves 0
        2 prepare 0/1 a     => leaves 0
        3 prepare 0/1 a     => leaves 0
        0 commit 0/1 a      => leaves 0
        2 commit 0/1 a      => leaves 0
        3 commit 0/1 a      => leaves 0
        0 pre-prepare 0/1 a => prepare 0/1 a to all; commit 0/1 a to all; reply view 0 time 1 number 1 [1] to client 16; executed 1 a [1]; leaves 3
        echo                => leaves 0
    ",
};

// The primary proposes one request at two numbers; at the first all but the request is there. The
// Prepares come before the Commit, also the one at the higher number.
const PREPARES_FIRST: Scenario = Scenario {
    replica: 1,
    leaves: 32,
    lines: "
        0 pre-prepare 0/1 a => fetch request a to all; leaves 1
        0 pre-prepare 0/2 a => leaves 0
        2 prepare 0/1 a     => leaves 0
        3 prepare 0/1 a     => leaves 0
        request a           => prepare 0/1 a to all; prepare 0/2 a to all; commit 0/1 a to all; leaves 3
    ",
};

// Number 2 is executed with number 1 and not before it.
const IN_ORDER: Scenario = Scenario {
    replica: 1,
    leaves: 32,
    lines: "
        2 prepare 0/2 null     => leaves 0
        2 prepare 0/1 null     => leaves 0
        2 commit 0/2 null      => leaves 0
        3 commit 0/2 null      => leaves 0
        2 commit 0/1 null      => leaves 0
        3 commit 0/1 null      => leaves 0
        0 pre-prepare 0/2 null => prepare 0/2 null to all; commit 0/2 null to all; leaves 2
        0 pre-prepare 0/1 null => prepare 0/1 null to all; commit 0/1 null to all; checkpoint 2 s2 to all; executed 1 null []; executed 2 null []; leaves 3
    ",
};

// Of two proposals for a number the first that comes counts, also while its request is not held.
const TWO_PROPOSALS: Scenario = Scenario {
    replica: 1,
    leaves: 32,
    lines: "
        request b           => leaves 0
        0 pre-prepare 0/1 a => fetch request a to all; leaves 1
        0 pre-prepare 0/1 b => leaves 0
        request a           => prepare 0/1 a to all; leaves 1
        0 pre-prepare 0/1 b => leaves 0
        # Votes for the other digest do not help, and a replica's first vote counts.
        2 prepare 0/1 b     => leaves 0
        2 prepare 0/1 a     => leaves 0
        3 prepare 0/1 b     => leaves 0
        0 commit 0/1 b      => leaves 0
        2 commit 0/1 b      => leaves 0
        3 commit 0/1 b      => leaves 0
        stands              => view 0 active low 0 executed 0 left 30 state s0
    ",
};

// The request makes both numbers prepared: the Commit of the lower one comes first.
const LOWER_COMMIT: Scenario = Scenario {
    replica: 1,
    leaves: 32,
    lines: "
        0 pre-prepare 0/1 a => fetch request a to all; leaves 1
        0 pre-prepare 0/2 a => leaves 0
        2 prepare 0/2 a     => leaves 0
        3 prepare 0/2 a     => leaves 0
        2 prepare 0/1 a     => leaves 0
        3 prepare 0/1 a     => leaves 0
        request a           => prepare 0/1 a to all; prepare 0/2 a to all; commit 0/1 a to all; commit 0/2 a to all; leaves 4
    ",
};

// Replica 3 lacks two requests: that of the lower number is asked for first.
const LOWER_REQUEST: Scenario = Scenario {
    replica: 3,
    leaves: 32,
    lines: "
        1 new-view 1 of 0 low 0, 0/1 b by 1 2; 1 low 0, 0/2 a by 1 2; 2 low 0 with 1/1 b, 1/2 a => fetch request b to all; fetch request a to all; leaves 2
    ",
};

// The second ViewChange of others proves 2: the primary of view 0 proposes what the new marks take before it joins.
const PROPOSED_FIRST: Scenario = Scenario {
    replica: 0,
    leaves: 32,
    lines: "
        request a             => pre-prepare 0/1 a to all; leaves 1
        request b             => pre-prepare 0/2 b to all; leaves 1
        request c             => pre-prepare 0/3 c to all; leaves 1
        request d             => pre-prepare 0/4 d to all; leaves 1
        request e             => leaves 0
        1 commit 0/1 a        => leaves 0
        2 commit 0/1 a        => leaves 0
        1 prepare 0/1 a       => leaves 0
        2 prepare 0/1 a       => commit 0/1 a to all; reply view 0 time 1 number 1 [1] to client 16; executed 1 a [1]; leaves 2
        1 commit 0/2 b        => leaves 0
        2 commit 0/2 b        => leaves 0
        1 prepare 0/2 b       => leaves 0
        2 prepare 0/2 b       => commit 0/2 b to all; reply view 0 time 2 number 2 [1] to client 16; checkpoint 2 after-ab to all; executed 2 b [1]; leaves 3
        3 view-change 1 low 0 => leaves 0
        2 view-change 1 low 2 after-ab by 1 2 3 => pre-prepare 0/5 e to all; view-change 1 low 2 +2 by 0 +2 by 1 +2 by 2 to all; leaves 2
        stands                => view 1 changing low 2 executed 2 left 21 state after-ab
    ",
};

// The primary of view 5 executed the null request at 1, where its NewView proposes c. The second ViewChange of others for
// view 6 proves 2: the proposal at 1 is discarded, so c is proposed again, at 3, where all votes are there. That is done
// and executed before the primary joins.
const JOINED_LAST: Scenario = Scenario {
    replica: 1,
    leaves: 32,
    lines: "
        request c              => leaves 0
        2 prepare 0/1 null     => leaves 0
        2 commit 0/1 null      => leaves 0
        3 commit 0/1 null      => leaves 0
        0 pre-prepare 0/1 null => prepare 0/1 null to all; commit 0/1 null to all; executed 1 null []; leaves 2
        2 prepare 0/2 null     => leaves 0
        2 commit 0/2 null      => leaves 0
        3 commit 0/2 null      => leaves 0
        0 pre-prepare 0/2 null => prepare 0/2 null to all; commit 0/2 null to all; checkpoint 2 s2 to all; executed 2 null []; leaves 3
        0 view-change 5 low 0  => leaves 0
        2 view-change 5 low 0, 2/1 c by 0 3 => view-change 5 low 0, 0/1 null by 1 2, 0/2 null by 1 2 to all; new-view 5 of 0 1 2, 5/1 c, 5/2 null to all; leaves 4
        0 prepare 5/3 c        => leaves 0
        2 prepare 5/3 c        => leaves 0
        0 commit 5/3 c         => leaves 0
        2 commit 5/3 c         => leaves 0
        3 view-change 6 low 0  => leaves 0
        0 view-change 6 low 2 s2 by 0 2 3 => pre-prepare 5/3 c to all; commit 5/3 c to all; reply view 5 time 3 number 3 [1] to client 16; view-change 6 low 2 +2 by 0 +2 by 1 +2 by 2, 5/3 c by 0 2 to all; executed 3 c [1]; leaves 4
    ",
};

// The second ViewChange of others proves 2, which the primary of view 1 has not: it joins and opens the view, and then
// asks for the state.
const FETCHED_LAST: Scenario = Scenario {
    replica: 1,
    leaves: 32,
    lines: "
        3 view-change 1 low 0 => leaves 0
        2 view-change 1 low 2 s2 by 0 2 3 => view-change 1 low 0 to all; new-view 1 of 1 2 3 to all; fetch state 2 to all; leaves 3
        stands                => view 1 active low 0 executed 0 left 29 state s0
    ",
};

#[test]
fn the_lower_number_and_the_last_duty(rt: HostRuntime) -> Result<(), Fail> {
    play_all(
        rt.alloc(),
        &[
            LOWER_COMMIT,
            LOWER_REQUEST,
            PROPOSED_FIRST,
            JOINED_LAST,
            FETCHED_LAST,
        ],
    )
}

#[test]
fn the_first_duty_comes_first(rt: HostRuntime) -> Result<(), Fail> {
    play_all(
        rt.alloc(),
        &[AT_ONCE, PREPARES_FIRST, IN_ORDER, TWO_PROPOSALS],
    )
}
