//! What a script says.

use crate::head::Head;
use host_types::{Bytes, ClientId, Digest, ReplicaId, View};
use pbft_codec::Sequence;
use script_values::{Kind, MessageName, Node, Number, Operation, ScriptBytes};
use seal::VoteKind;

/// A script that was read: its head, and its steps in order.
#[derive(Drop)]
pub struct Script {
    pub head: Head,
    pub steps: Sequence<NamedStep>,
}

impl Script {
    ghost use Rattle.std.specs.Prelude.{◌≡◌};
    ghost use Rattle.script_text.specs.Orders.{ordered};

    /// The script under a seed, which draws the order of each of its `deliver` steps, whatever its own was; chances stay.
    pub fn ordered(self, seed: u64) -> Script
        ensures { result ≡ ordered seed self }
    {
        let Script { head, steps } = self;
        let mut steps = steps.into_vec();
        for named in steps.iter_mut() {
            named.step.order_by(seed);
        }
        Script {
            head,
            steps: Sequence::from_vec(steps),
        }
    }
}

/// Which messages of the queue are meant. A list that is left out matches every message.
#[derive(Drop)]
pub struct Filter {
    pub from: Option<Sequence<Node>>,
    pub to: Option<Sequence<Node>>,
    pub kinds: Option<Sequence<Kind>>,
}

/// Which of the messages that a `deliver` means is delivered each time.
#[derive(Drop)]
pub enum DeliveryOrder {
    /// The oldest.
    Oldest,
    /// The one that this seed draws.
    Drawn(u64),
    /// The one of the number that stands here for this delivery, the oldest being 0, modulo how many there are; the oldest behind the
    /// last of these numbers.
    Chosen(Sequence<u64>),
    /// The one that this seed draws, unless it is lost or queued again, or a replica times out in its place: that is drawn first, with
    /// these chances.
    Unreliable { seed: u64, chances: Chances },
}

impl DeliveryOrder {
    ghost use Rattle.std.specs.Prelude.{◌≡◌};
    ghost use Rattle.script_text.specs.Orders.{order_under};

    /// The order that a seed draws in place of this one, whose chances stay.
    pub fn under(&self, seed: u64) -> DeliveryOrder
        ensures { result ≡ order_under seed self.now }
    {
        match self {
            DeliveryOrder::Unreliable { chances, .. } => DeliveryOrder::Unreliable {
                seed,
                chances: *chances,
            },
            DeliveryOrder::Oldest | DeliveryOrder::Drawn(_) | DeliveryOrder::Chosen(_) => {
                DeliveryOrder::Drawn(seed)
            }
        }
    }
}

/// How many of 1,000 deliveries go wrong on average: at most 1,000 together.
#[derive(Clone, Copy, Debug, PartialEq, Eq)]
pub struct Chances {
    /// In so many the message is lost.
    pub lose: u64,
    /// In so many it is queued again, and a copy of it is handed over.
    pub again: u64,
    /// In so many a replica times out, and the message stays where it is.
    pub late: u64,
}

/// A message that a faulty replica signs, and for whom it is queued.
#[derive(Drop)]
pub struct Forgery {
    pub from: ReplicaId,
    pub to: Sequence<Node>,
    pub message: ForgedMessage,
}

/// What a forged message says.
#[derive(Drop)]
pub enum ForgedMessage {
    /// A vote for a request.
    Vote(ForgedVote),
    /// A Checkpoint of a number and a digest.
    Checkpoint { number: Number, digest: Digest },
    /// A ViewChange for a view from number 0, with no Checkpoint and no certificate.
    ViewChange(View),
}

/// A forged PrePrepare, Prepare or Commit.
#[derive(Drop)]
pub struct ForgedVote {
    pub kind: VoteKind,
    pub view: View,
    pub number: Number,
    /// The client and the time of the request that is named; none for the null request.
    pub request: Option<(ClientId, u64)>,
}

/// How the copy of a message is changed. A message that is too short for it stays as it is.
#[derive(Clone, Copy, Debug, PartialEq, Eq)]
pub enum Damage {
    /// So many of the last bytes are cut off.
    Cut(u64),
    /// The lowest bit of the byte so many places before the last one is flipped.
    Flip(u64),
}

/// What raw bytes are.
#[derive(Drop)]
pub enum Payload {
    /// These bytes.
    Bytes(ScriptBytes),
    /// Those of the message that has a name, or how they are changed.
    Message {
        name: MessageName,
        change: Option<Damage>,
    },
}

/// A client's request.
#[derive(Drop)]
pub struct Order {
    pub client: ClientId,
    pub op: Operation,
    /// Whom it is queued for; all replicas where it is left out.
    pub to: Option<Sequence<Node>>,
}

/// A step of a script, and the name that it gives to a message: the first that it queues, or the first that a
/// `queue` lists.
#[derive(Drop)]
pub struct NamedStep {
    pub step: Step,
    pub name: Option<MessageName>,
}

/// A step of a script.
#[derive(Drop)]
pub enum Step {
    /// Queues a signed request.
    Request(Order),
    /// Delivers each message that is meant, and what comes of it where that is meant too.
    Deliver {
        filter: Filter,
        order: DeliveryOrder,
    },
    /// Timeouts at these replicas, in this order.
    Timeout(Sequence<ReplicaId>),
    /// Queues a message that a faulty replica signs.
    Forge(Forgery),
    /// Changes the queue, and nothing else.
    Edit(QueueEdit),
    /// Prints, and changes nothing.
    Print(Printout),
    /// Goes on if this is what has been printed since the last `expect`. Each of its lines has an end.
    Expect(Bytes),
}

impl Step {
    ghost use Rattle.std.specs.Prelude.{◌≡◌};
    ghost use Rattle.script_text.specs.Orders.{ordered_step};
    ghost use Rattle.script_text.specs.Steps.{step_name};

    /// Gives a `deliver` the order that a seed draws, whatever its own was; its chances stay. Any other step stays as it is.
    pub fn order_by(&mut self, seed: u64)
        ensures { self.new ≡ ordered_step seed self.old }
    {
        if let Step::Deliver { order, .. } = self {
            *order = order.under(seed);
        }
    }

    /// The step's name, which its `do` has.
    pub fn name(&self) -> &'static str
        ensures { result.now ≡ step_name self.now }
    {
        match self {
            Step::Request(_) => "request",
            Step::Deliver { .. } => "deliver",
            Step::Timeout(_) => "timeout",
            Step::Forge(_) => "forge",
            Step::Edit(edit) => edit.name(),
            Step::Print(printout) => printout.name(),
            Step::Expect(_) => "expect",
        }
    }
}

/// What a step does that changes the queue alone.
#[derive(Drop)]
pub enum QueueEdit {
    /// Removes each message that is meant.
    Drop(Filter),
    /// Queues each message that is meant once more.
    Repeat(Filter),
    /// Queues a changed copy of each message that is meant.
    Mangle {
        filter: Filter,
        damage: Damage,
    },
    /// Queues bytes, which have no sender or kind.
    Raw {
        to: Sequence<Node>,
        payload: Payload,
    },
}

impl QueueEdit {
    ghost use Rattle.std.specs.Prelude.{◌≡◌};
    ghost use Rattle.script_text.specs.Steps.{edit_name};

    /// The name of a step that does so.
    fn name(&self) -> &'static str
        ensures { result.now ≡ edit_name self.now }
    {
        match self {
            QueueEdit::Drop(_) => "drop",
            QueueEdit::Repeat(_) => "repeat",
            QueueEdit::Mangle { .. } => "mangle",
            QueueEdit::Raw { .. } => "raw",
        }
    }
}

/// What a step prints that changes nothing.
#[derive(Drop)]
pub enum Printout {
    /// Each message that is meant, the oldest first.
    Queue(Filter),
    /// Where each correct replica stands.
    Show,
    /// The digest of each correct replica's state.
    Digest,
    /// The bytes of a replica's state.
    State(ReplicaId),
    /// The canonical encoding of the state that these bytes encode.
    Upgrade(ScriptBytes),
    /// Whether the rows of the correct replicas agree so far.
    Audit,
    /// Whether each message has come that a correct replica gave for another one.
    Drained,
}

impl Printout {
    ghost use Rattle.std.specs.Prelude.{◌≡◌};
    ghost use Rattle.script_text.specs.Steps.{printout_name};

    /// The name of a step that prints so.
    fn name(&self) -> &'static str
        ensures { result.now ≡ printout_name self.now }
    {
        match self {
            Printout::Queue(_) => "queue",
            Printout::Show => "show",
            Printout::Digest => "digest",
            Printout::State(_) => "state",
            Printout::Upgrade(_) => "upgrade",
            Printout::Audit => "audit",
            Printout::Drained => "drained",
        }
    }
}
