//! What a message says that its signer may not contradict.

ghost use Rattle.std.specs.Prelude.{◌≡◌, ◌↔◌, IsTrue};
ghost use Rattle.conflicts.specs.Claims.{Contradict, claim_in, claim_of};

use host_types::{Digest, SeqNo, View};
use pbft_codec::Body;
use seal::{Checked, VoteKind};

/// What a claim is about.
#[derive(Clone, Copy, Debug, PartialEq, Eq)]
pub enum Topic {
    /// The proposal at a number of a view.
    Vote {
        kind: VoteKind,
        view: View,
        number: SeqNo,
    },
    /// The state after a number.
    Checkpoint {
        number: SeqNo,
    },
    /// The `ViewChange` for a view.
    ViewChange {
        view: View,
    },
    /// The `NewView` of a view.
    NewView {
        view: View,
    },
    /// What a leaf of the signer's key signs, by its number.
    Leaf {
        leaf: u64,
    },
}

/// What a message says once of a digest: a vote or a Checkpoint of the one that it names, a ViewChange, a NewView and whatever
/// a leaf signs of its own.
#[derive(Clone, Copy, Debug, PartialEq, Eq)]
pub struct Claim {
    /// The replica's index; of a leaf also a client's id.
    pub signer: u32,
    pub topic: Topic,
    pub digest: Digest,
}

impl Claim {
    /// Whether one signer says two things of one topic.
    pub fn contradicts(&self, other: &Claim) -> bool
        ensures { IsTrue result ↔ Contradict self.now other.now }
    {
        self.signer == other.signer && self.topic == other.topic && self.digest != other.digest
    }
}

/// What a message claims; none where it is no vote and no Checkpoint. It takes no memory.
pub fn claim_of(message: &Checked) -> Option<Claim>
    ensures { result ≡ claim_of message.now.message }
{
    claim_in(message.signer().1, message.body())
}

/// What a body claims of this signer.
fn claim_in(signer: u32, body: &Body) -> Option<Claim>
    ensures { result ≡ claim_in signer body.now }
{
    let (topic, digest) = match body {
        Body::PrePrepare(said) => (
            vote(VoteKind::PrePrepare, said.view, said.number),
            said.digest,
        ),
        Body::Prepare(said) => (vote(VoteKind::Prepare, said.view, said.number), said.digest),
        Body::Commit(said) => (vote(VoteKind::Commit, said.view, said.number), said.digest),
        Body::Checkpoint(said) => (
            Topic::Checkpoint {
                number: said.number,
            },
            said.digest,
        ),
        _ => return None,
    };
    Some(Claim {
        signer,
        topic,
        digest,
    })
}

fn vote(kind: VoteKind, view: View, number: SeqNo) -> Topic
    ensures { result ≡ Topic.Vote kind view number }
{
    Topic::Vote { kind, view, number }
}
