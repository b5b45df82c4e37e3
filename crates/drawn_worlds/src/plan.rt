//! What a seed plans for its world.

ghost use Rattle.std.specs.Prelude.{◌<◌, ◌≤◌};

use crate::draws::Draws;
use host_types::ReplicaId;

/// The most replicas of a world.
pub(crate) const MOST: usize = 7;

/// What a replica does.
#[derive(Clone, Copy, PartialEq, Eq)]
pub(crate) enum Conduct {
    Correct,
    /// It says nothing.
    Silent,
    /// To some it says what a correct one would, to some another thing, to some nothing.
    Lying,
}

/// Which messages may be lost for good.
#[derive(Clone, Copy)]
pub(crate) enum Loss {
    None,
    /// Those of clients and of faulty replicas, and those to them.
    OfOthers,
    /// Those between correct replicas, too.
    OfAll,
}

/// Who takes part in a world, and what happens to messages there.
#[derive(Clone, Copy)]
pub(crate) struct Plan {
    /// How many replicas may be faulty.
    pub f: u8,
    /// The numbers from a checkpoint to the next.
    pub k: u8,
    /// What each replica does; at most f are not correct.
    pub conducts: [Conduct; MOST],
    pub clients: u8,
    /// How many requests each client makes.
    pub requests: u8,
    /// Clients make each request once the one before is answered, and not all at once.
    pub waits: bool,
    /// A delivery takes one of so many of the oldest messages.
    pub reach: usize,
    /// How many timers expire.
    pub timeouts: u8,
    /// How many messages of a hundred come after all others.
    pub late: u8,
    /// How many of a hundred come once more.
    pub repeated: u8,
    pub loss: Loss,
    /// How many of a hundred of those that may be lost are.
    pub lost: u8,
}

impl Plan {
    /// That of a seed: two of seven replicas may be faulty in a sixteenth of the worlds, one of four in the others.
    pub(crate) fn of(seed: u64, draws: &mut Draws) -> Plan {
        let f = if seed % 16 == 0 { 2 } else { 1 };
        let clients = [1, 2, 3][draws.below(3)];
        let most: usize = if f == 2 { 3 } else { 6 };
        let most = (most / usize::from(clients.max(1))).max(1);
        Plan {
            f,
            k: [1, 1, 2, 4][draws.below(4)],
            conducts: conducts(f, draws),
            clients,
            requests: 1 + draws.below(most.min(4)) as u8,
            waits: draws.percent(75),
            reach: [1, 3, 8, 1_000][draws.below(4)],
            timeouts: [0, 0, 4, 8][draws.below(4)],
            late: [0, 0, 10, 40][draws.below(4)],
            repeated: [0, 0, 10][draws.below(3)],
            loss: [Loss::None, Loss::None, Loss::OfOthers, Loss::OfAll][draws.below(4)],
            lost: [5, 30][draws.below(2)],
        }
    }
}

impl Plan {
    /// What a replica does. There are no others.
    pub(crate) fn conduct(&self, id: ReplicaId) -> Conduct {
        match self.conducts.get(usize::from(id.0)) {
            Some(conduct) => *conduct,
            None => Conduct::Silent,
        }
    }

    /// How many numbers lie between the water marks.
    pub(crate) fn span(&self) -> u64 {
        2 * u64::from(self.k)
    }
}

/// How many replicas there are, where one or two may be faulty.
pub(crate) fn replicas_for(f: u8) -> usize
    ensures positive { 0 < result }
    ensures most { result ≤ 7 }
{
    if f == 2 { 7 } else { 4 }
}

/// In a quarter of the worlds nobody is faulty, in the others f draws each make a replica faulty.
fn conducts(f: u8, draws: &mut Draws) -> [Conduct; MOST] {
    let mut conducts = [Conduct::Correct; MOST];
    if draws.percent(25) {
        return conducts;
    }
    for _ in 0..f {
        conducts[draws.below(replicas_for(f))] = if draws.percent(40) {
            Conduct::Silent
        } else {
            Conduct::Lying
        };
    }
    conducts
}
