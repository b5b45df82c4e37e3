//! What happens in a world.

use crate::saying::Saying;
use conflicts::Blame;
use host_types::{ClientId, ReplicaId, SeqNo, View};
use replica_core::Halt;
use script_text::{Kind, Node};
use seal::SealFault;

/// Why a step queues nothing.
#[derive(Clone, Copy, Debug, PartialEq, Eq)]
pub enum Cause {
    /// The signer has no leaf left.
    Exhausted(Node),
    /// The request that a vote is to name was never made.
    NeverMade { client: ClientId, time: u64 },
    /// The name has no message.
    NoMessage,
}

/// One thing that happens in a world.
#[derive(Clone, Copy, Debug, PartialEq, Eq)]
pub enum Happening {
    /// A step of the script begins: its number, the line of the text on which it stands where that is known, and its name.
    Began {
        step: u32,
        line: Option<usize>,
        name: &'static str,
    },
    /// A message is handed to its addressee. Raw bytes have no sender.
    Handed {
        from: Option<Node>,
        to: Node,
        saying: Saying,
    },
    /// A message is taken from the queue and lost.
    Lost {
        from: Option<Node>,
        to: Node,
        saying: Saying,
    },
    /// A replica refuses bytes. The part that has the fault is counted from 1, a message before those nested in it; there is
    /// none where the bytes are no message.
    Refused {
        at: ReplicaId,
        from: Option<Node>,
        kind: Option<Kind>,
        fault: SealFault,
        part: Option<usize>,
    },
    /// A step queues nothing.
    Unqueued(Cause),
    /// A replica's timer expires.
    TimedOut {
        at: ReplicaId,
    },
    /// A replica executes a request.
    Executed {
        at: ReplicaId,
        number: SeqNo,
    },
    /// A replica installs the state after a number.
    Installed {
        at: ReplicaId,
        number: SeqNo,
    },
    /// A replica stops voting in its view and asks for another.
    Left {
        at: ReplicaId,
        view: View,
    },
    /// A replica is active in a view from now on.
    Entered {
        at: ReplicaId,
        view: View,
    },
    /// A replica raises its low water mark.
    Raised {
        at: ReplicaId,
        low: SeqNo,
    },
    /// A replica stops for good.
    Halted {
        at: ReplicaId,
        halt: Halt,
    },
    /// A client accepts the reply to its last request.
    Accepted {
        client: ClientId,
    },
    /// Signatures blame a replica or a client.
    Blamed(Blame),
}
