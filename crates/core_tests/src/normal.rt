//! Requests in one view, from the primary's proposal to the reply (Castro and Liskov 1999, section 4.2).

use crate::script::{Scenario, play_all};
use std::test::Fail;

// The primary, replica 0.
const PRIMARY: Scenario = Scenario {
    replica: 0,
    leaves: 32,
    lines: "
        # A request is proposed once.
        request b       => pre-prepare 0/1 b to all; leaves 1
        echo            => leaves 0
        request b       => leaves 0
        # The second Prepare makes it prepared, the third Commit committed; the primary sends no Prepare.
        1 prepare 0/1 b => leaves 0
        1 prepare 0/1 b => leaves 0
        3 prepare 0/1 b => commit 0/1 b to all; leaves 1
        echo            => leaves 0
        2 prepare 0/1 b => leaves 0
        1 commit 0/1 b  => leaves 0
        1 commit 0/1 b  => leaves 0
        2 commit 0/1 b  => reply view 0 time 2 number 1 [1] to client 16; executed 1 b [1]; leaves 1
        3 commit 0/1 b  => leaves 0
        # The last request again: its reply again. One of an earlier time: nothing.
        request b       => reply view 0 time 2 number 1 [1] to client 16; leaves 1
        request a       => leaves 0
        request c       => pre-prepare 0/2 c to all; leaves 1
        stands          => view 0 active low 0 executed 1 left 27 state after-b
    ",
};

// A backup, replica 1.
const BACKUP: Scenario = Scenario {
    replica: 1,
    leaves: 32,
    lines: "
        # A PrePrepare names a request that is not held: it is asked for once, and agreed with once held.
        0 pre-prepare 0/1 a => fetch request a to all; leaves 1
        0 pre-prepare 0/1 a => leaves 0
        request a           => prepare 0/1 a to all; leaves 1
        echo                => leaves 0
        request a           => leaves 0
        # Its own Prepare is the first of two, its own Commit the first of three.
        2 prepare 0/1 a     => commit 0/1 a to all; leaves 1
        echo                => leaves 0
        0 commit 0/1 a      => leaves 0
        3 commit 0/1 a      => reply view 0 time 1 number 1 [1] to client 16; executed 1 a [1]; leaves 1
        echo                => leaves 0
        # It passes on a request that it holds, and answers again from the last reply.
        3 fetch request a   => relay request a to replica 3; leaves 0
        3 fetch request b   => leaves 0
        request a           => reply view 0 time 1 number 1 [1] to client 16; leaves 1
        stands              => view 0 active low 0 executed 1 left 27 state after-a
    ",
};

// A backup, replica 1, with null requests, which need no holding and have no reply.
const CHECKPOINT: Scenario = Scenario {
    replica: 1,
    leaves: 32,
    lines: "
        0 pre-prepare 0/1 null => prepare 0/1 null to all; leaves 1
        2 prepare 0/1 null     => commit 0/1 null to all; leaves 1
        2 commit 0/1 null      => leaves 0
        3 commit 0/1 null      => executed 1 null []; leaves 0
        0 pre-prepare 0/2 null => prepare 0/2 null to all; leaves 1
        2 prepare 0/2 null     => commit 0/2 null to all; leaves 1
        2 commit 0/2 null      => leaves 0
        3 commit 0/2 null      => checkpoint 2 s2 to all; executed 2 null []; leaves 1
        echo                   => leaves 0
        stands                 => view 0 active low 0 executed 2 left 27 state s2
        # The snapshot is supplied, also before it is stable.
        3 fetch state 2        => snapshot 2 s2 to replica 3; leaves 1
        3 fetch state 1        => leaves 0
        # Three Checkpoints with one digest make it stable; a replica's first one counts.
        0 checkpoint 2 s2      => leaves 0
        2 checkpoint 2 s3      => leaves 0
        2 checkpoint 2 s2      => leaves 0
        stands                 => view 0 active low 0 executed 2 left 26 state s2
        3 checkpoint 2 s2      => leaves 0
        stands                 => view 0 active low 2 executed 2 left 26 state s2
        # Votes are taken between the new marks.
        0 pre-prepare 0/2 null => leaves 0
        0 pre-prepare 0/7 null => leaves 0
        0 pre-prepare 0/6 null => prepare 0/6 null to all; leaves 1
        timeout                => view-change 1 low 2 +2 by 0 +2 by 1 +2 by 3 to all; leaves 1
    ",
};

// The primary, replica 0: four numbers lie between the marks.
const MARKS: Scenario = Scenario {
    replica: 0,
    leaves: 32,
    lines: "
        request a               => pre-prepare 0/1 a to all; leaves 1
        request b               => pre-prepare 0/2 b to all; leaves 1
        request c               => pre-prepare 0/3 c to all; leaves 1
        request d               => pre-prepare 0/4 d to all; leaves 1
        request e               => leaves 0
        request f               => leaves 0
        request g               => leaves 0
        1 commit 0/1 a          => leaves 0
        2 commit 0/1 a          => leaves 0
        1 prepare 0/1 a         => leaves 0
        2 prepare 0/1 a         => commit 0/1 a to all; reply view 0 time 1 number 1 [1] to client 16; executed 1 a [1]; leaves 2
        1 commit 0/2 b          => leaves 0
        2 commit 0/2 b          => leaves 0
        1 prepare 0/2 b         => leaves 0
        2 prepare 0/2 b         => commit 0/2 b to all; reply view 0 time 2 number 2 [1] to client 16; checkpoint 2 after-ab to all; executed 2 b [1]; leaves 3
        # Once 2 is stable the next two are proposed, in the order of receipt.
        1 checkpoint 2 after-ab => leaves 0
        2 checkpoint 2 after-ab => pre-prepare 0/5 e to all; pre-prepare 0/6 f to all; leaves 2
        stands                  => view 0 active low 2 executed 2 left 21 state after-ab
    ",
};

// A backup, replica 1: as the mark rises to 2, a request that was executed is forgotten, unless a proposal above 2 names
// it.
const FORGOTTEN: Scenario = Scenario {
    replica: 1,
    leaves: 32,
    lines: "
        request a               => leaves 0
        request b               => leaves 0
        0 pre-prepare 0/1 a     => prepare 0/1 a to all; leaves 1
        2 prepare 0/1 a         => commit 0/1 a to all; leaves 1
        2 commit 0/1 a          => leaves 0
        3 commit 0/1 a          => reply view 0 time 1 number 1 [1] to client 16; executed 1 a [1]; leaves 1
        0 pre-prepare 0/2 b     => prepare 0/2 b to all; leaves 1
        2 prepare 0/2 b         => commit 0/2 b to all; leaves 1
        2 commit 0/2 b          => leaves 0
        3 commit 0/2 b          => reply view 0 time 2 number 2 [1] to client 16; checkpoint 2 after-ab to all; executed 2 b [1]; leaves 2
        0 pre-prepare 0/3 b     => prepare 0/3 b to all; leaves 1
        0 checkpoint 2 after-ab => leaves 0
        3 fetch request a       => relay request a to replica 3; leaves 0
        2 checkpoint 2 after-ab => leaves 0
        3 fetch request a       => leaves 0
        3 fetch request b       => relay request b to replica 3; leaves 0
        stands                  => view 0 active low 2 executed 2 left 24 state after-ab
    ",
};

// Of two signatures of one request the first that comes is kept: `other-a` says what `a` says.
const SIGNED_TWICE: Scenario = Scenario {
    replica: 1,
    leaves: 32,
    lines: "
        request a         => leaves 0
        request other-a   => leaves 0
        3 fetch request a => relay request a to replica 3; leaves 0
    ",
};

const SIGNED_TWICE_BEFORE: Scenario = Scenario {
    replica: 1,
    leaves: 32,
    lines: "
        request other-a   => leaves 0
        request a         => leaves 0
        3 fetch request a => relay request other-a to replica 3; leaves 0
    ",
};

#[test]
fn a_request_in_one_view(rt: HostRuntime) -> Result<(), Fail> {
    play_all(rt.alloc(), &[PRIMARY, BACKUP, CHECKPOINT, MARKS])
}

#[test]
fn requests_that_are_held(rt: HostRuntime) -> Result<(), Fail> {
    play_all(rt.alloc(), &[FORGOTTEN, SIGNED_TWICE, SIGNED_TWICE_BEFORE])
}
