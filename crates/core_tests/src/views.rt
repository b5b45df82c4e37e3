//! Leaving a view, opening the next and entering it (Castro and Liskov 1999, section 4.4).

use crate::script::{Scenario, play_all};
use std::test::Fail;

// A backup, replica 1, reports what was prepared, with the Prepares; and again for the view after that.
const TIMEOUT: Scenario = Scenario {
    replica: 1,
    leaves: 32,
    lines: "
        request a           => leaves 0
        0 pre-prepare 0/1 a => prepare 0/1 a to all; leaves 1
        2 prepare 0/1 a     => commit 0/1 a to all; leaves 1
        0 pre-prepare 0/2 a => prepare 0/2 a to all; leaves 1
        timeout             => view-change 1 low 0, 0/1 a by 1 2 to all; leaves 1
        echo                => leaves 0
        stands              => view 1 changing low 0 executed 0 left 28 state s0
        timeout             => view-change 2 low 0, 0/1 a by 1 2 to all; leaves 1
        # While it changes it votes for nothing, and executes nothing.
        0 commit 0/1 a      => leaves 0
        3 commit 0/1 a      => leaves 0
        2 pre-prepare 2/1 a => leaves 0
        stands              => view 2 changing low 0 executed 0 left 27 state s0
    ",
};

// Replica 1: one other is not enough, however many views it asks for. With a second it joins the
// smallest of their views that is higher; from there once more, while two ask for higher ones.
const JOIN: Scenario = Scenario {
    replica: 1,
    leaves: 32,
    lines: "
        0 view-change 7 low 0 => leaves 0
        0 view-change 8 low 0 => leaves 0
        2 view-change 3 low 0 => view-change 3 low 0 to all; leaves 1
        stands                => view 3 changing low 0 executed 0 left 31 state s0
        2 view-change 9 low 0 => view-change 7 low 0 to all; view-change 8 low 0 to all; leaves 2
    ",
};

// The primary of view 1.
const OPEN: Scenario = Scenario {
    replica: 1,
    leaves: 32,
    lines: "
        timeout               => view-change 1 low 0 to all; leaves 1
        # One that is invalid does not count: its low mark has no proof.
        3 view-change 1 low 2 => leaves 0
        3 view-change 1 low 0 => leaves 0
        # With a quorum it opens the view: the certificate's digest, the null digest below it.
        2 view-change 1 low 0, 0/2 a by 2 3 => new-view 1 of 1 2 3, 1/1 null, 1/2 a to all; fetch request a to all; leaves 4
        echo                  => leaves 0
        stands                => view 1 active low 0 executed 0 left 27 state s0
        # The request is proposed already; a new one gets the next number.
        request a             => leaves 0
        request b             => pre-prepare 1/3 b to all; leaves 1
        0 view-change 1 low 0 => leaves 0
    ",
};

// The primary of view 1 joins, opens the view and proposes at once: its own ViewChange and those of two
// others.
const JOIN_AND_OPEN: Scenario = Scenario {
    replica: 1,
    leaves: 32,
    lines: "
        request a             => leaves 0
        3 view-change 1 low 0 => leaves 0
        0 view-change 1 low 0 => view-change 1 low 0 to all; new-view 1 of 0 1 3 to all; pre-prepare 1/1 a to all; leaves 3
        0 prepare 1/1 a       => leaves 0
        2 prepare 1/1 a       => commit 1/1 a to all; leaves 1
        2 commit 1/1 a        => leaves 0
        3 commit 1/1 a        => reply view 1 time 1 number 1 [1] to client 16; executed 1 a [1]; leaves 1
        # A reply that is given again has the present view.
        timeout               => view-change 2 low 0, 1/1 a by 0 2 to all; leaves 1
        request a             => reply view 2 time 1 number 1 [1] to client 16; leaves 1
    ",
};

// A backup, replica 3: a NewView that leaves the certificate out is not entered, nor is one entered
// twice.
const ENTER: Scenario = Scenario {
    replica: 3,
    leaves: 32,
    lines: "
        1 new-view 1 of 0 low 0; 1 low 0, 0/2 a by 1 2; 2 low 0 => leaves 0
        stands              => view 0 active low 0 executed 0 left 32 state s0
        1 new-view 1 of 0 low 0; 1 low 0, 0/2 a by 1 2; 2 low 0 with 1/1 null, 1/2 a => prepare 1/1 null to all; fetch request a to all; leaves 2
        stands              => view 1 active low 0 executed 0 left 30 state s0
        1 new-view 1 of 0 low 0; 1 low 0, 0/2 a by 1 2; 2 low 0 with 1/1 null, 1/2 a => leaves 0
        request a           => prepare 1/2 a to all; leaves 1
        1 pre-prepare 1/1 a => leaves 0
    ",
};

// A backup, replica 3: votes of a higher view above the top are kept for it.
const EARLY_VOTES: Scenario = Scenario {
    replica: 3,
    leaves: 32,
    lines: "
        1 pre-prepare 1/1 null => leaves 0
        0 prepare 1/1 null     => leaves 0
        0 commit 1/1 null      => leaves 0
        1 commit 1/1 null      => leaves 0
        1 new-view 1 of 0 low 0; 1 low 0; 2 low 0 => prepare 1/1 null to all; commit 1/1 null to all; executed 1 null []; leaves 2
    ",
};

// A backup, replica 3: the floor is 2, so votes of view 1 up to 2 are dropped, and not taken. The state
// is fetched before the request.
const FLOOR: Scenario = Scenario {
    replica: 3,
    leaves: 32,
    lines: "
        1 pre-prepare 1/1 null => leaves 0
        0 prepare 1/1 null     => leaves 0
        2 prepare 1/1 null     => leaves 0
        0 prepare 1/4 null     => leaves 0
        1 new-view 1 of 0 low 0; 1 low 2 s2 by 0 1 2, 0/3 a by 1 2; 2 low 0 with 1/3 a => fetch state 2 to all; fetch request a to all; leaves 2
        1 pre-prepare 1/1 null => leaves 0
        0 prepare 1/1 null     => leaves 0
        2 prepare 1/1 null     => leaves 0
        0 commit 1/1 null      => leaves 0
        1 commit 1/1 null      => leaves 0
        2 commit 1/1 null      => leaves 0
        1 pre-prepare 1/2 null => leaves 0
        stands                 => view 1 active low 0 executed 0 left 30 state s0
        1 pre-prepare 1/4 null => prepare 1/4 null to all; commit 1/4 null to all; leaves 2
    ",
};

// The primary of view 1 lags: its NewView goes up to 6, its high mark is 4, and it proposes nothing
// between. With the state of 4 the high mark is 8, and the next number 7. The request that its NewView
// names above the high mark isn't proposed again.
const LAGGING: Scenario = Scenario {
    replica: 1,
    leaves: 32,
    lines: "
        request a             => leaves 0
        request b             => leaves 0
        2 view-change 1 low 2 s2 by 0 2 3, 0/6 a by 2 3 => fetch state 2 to all; leaves 1
        3 view-change 1 low 0 => view-change 1 low 0 to all; new-view 1 of 1 2 3, 1/3 null, 1/4 null, 1/5 null, 1/6 a to all; leaves 6
        stands                => view 1 active low 0 executed 0 left 25 state s0
        0 checkpoint 4 s4     => leaves 0
        2 checkpoint 4 s4     => leaves 0
        3 checkpoint 4 s4     => fetch state 4 to all; leaves 1
        0 snapshot 4 s4       => pre-prepare 1/7 b to all; installed 4 s4; leaves 1
        stands                => view 1 active low 4 executed 4 left 23 state s4
    ",
};

// The primary of view 1: of two ViewChanges of one signer for a view the first counts.
const FIRST_CHANGE: Scenario = Scenario {
    replica: 1,
    leaves: 32,
    lines: "
        timeout               => view-change 1 low 0 to all; leaves 1
        2 view-change 1 low 0 => leaves 0
        2 view-change 1 low 0, 0/2 a by 2 3 => leaves 0
        3 view-change 1 low 0 => new-view 1 of 1 2 3 to all; leaves 1
        stands                => view 1 active low 0 executed 0 left 30 state s0
    ",
};

// Replica 3 leaves view 1 without having entered it: what is prepared in it is reported all the same.
const NEVER_ACTIVE: Scenario = Scenario {
    replica: 3,
    leaves: 32,
    lines: "
        timeout                => view-change 1 low 0 to all; leaves 1
        1 pre-prepare 1/1 null => leaves 0
        0 prepare 1/1 null     => leaves 0
        2 prepare 1/1 null     => leaves 0
        timeout                => view-change 2 low 0, 1/1 null by 0 2 to all; leaves 1
    ",
};

// Replica 1 has executed 2. A NewView proves 2 and goes up to 5: it is entered before the mark rises to 2, while the high
// mark is 4, so the proposal for 5 is lost.
const ENTERED_FIRST: Scenario = Scenario {
    replica: 1,
    leaves: 32,
    lines: "
        2 prepare 0/1 null     => leaves 0
        2 commit 0/1 null      => leaves 0
        3 commit 0/1 null      => leaves 0
        0 pre-prepare 0/1 null => prepare 0/1 null to all; commit 0/1 null to all; executed 1 null []; leaves 2
        2 prepare 0/2 null     => leaves 0
        2 commit 0/2 null      => leaves 0
        3 commit 0/2 null      => leaves 0
        0 pre-prepare 0/2 null => prepare 0/2 null to all; commit 0/2 null to all; checkpoint 2 s2 to all; executed 2 null []; leaves 3
        2 new-view 2 of 0 low 2 s2 by 0 2 3, 0/5 null by 2 3; 2 low 0; 3 low 0 with 2/3 null, 2/4 null, 2/5 null => prepare 2/3 null to all; prepare 2/4 null to all; leaves 2
        stands                 => view 2 active low 2 executed 2 left 25 state s2
    ",
};

// Replica 3 records votes of any later view, not of the next alone.
const LATER_VIEW: Scenario = Scenario {
    replica: 3,
    leaves: 32,
    lines: "
        0 pre-prepare 4/1 null => leaves 0
        0 new-view 4 of 0 low 0; 1 low 0; 2 low 0 => prepare 4/1 null to all; leaves 1
    ",
};

// Replica 3 asks for a request that it lacks once more in the next view.
const ASKED_AGAIN: Scenario = Scenario {
    replica: 3,
    leaves: 32,
    lines: "
        0 pre-prepare 0/1 a => fetch request a to all; leaves 1
        1 new-view 1 of 0 low 0, 0/1 a by 1 2; 1 low 0; 2 low 0 with 1/1 a => fetch request a to all; leaves 1
    ",
};

#[test]
fn what_a_view_leaves(rt: HostRuntime) -> Result<(), Fail> {
    play_all(
        rt.alloc(),
        &[
            FIRST_CHANGE,
            NEVER_ACTIVE,
            ENTERED_FIRST,
            LATER_VIEW,
            ASKED_AGAIN,
        ],
    )
}

#[test]
fn leaving_and_opening(rt: HostRuntime) -> Result<(), Fail> {
    play_all(rt.alloc(), &[TIMEOUT, JOIN, OPEN, JOIN_AND_OPEN])
}

#[test]
fn entering(rt: HostRuntime) -> Result<(), Fail> {
    play_all(rt.alloc(), &[ENTER, EARLY_VOTES, FLOOR, LAGGING])
}
