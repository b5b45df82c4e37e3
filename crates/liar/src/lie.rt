//! What a liar says: each message another one.

use crate::members::{CLIENT, INTERVAL};
use host_types::{Bytes, Digest, SeqNo, View};
use pbft_codec::{
    Body, Certificates, Checkpoint, CheckpointList, Commit, Fetch, NewView, PrePrepare,
    PrePrepares, Prepare, ReplyBody, RequestBody, Signed, Snapshot, ViewChange, ViewChanges,
};
use script_values::Kind;
use std::alloc::{AllocError, Global};

/// The messages that are signed for each place, which is a view and a number, or a time.
pub(crate) const TURNS: u64 = 3;

/// How many numbers lie between the marks.
const NUMBERS: u64 = 2 * INTERVAL as u64;

/// The last number.
const LAST: u64 = (1 << 48) - 1;

/// Which message of a place it is.
#[derive(Clone, Copy, PartialEq, Eq)]
enum Turn {
    First,
    /// The same with another digest.
    OtherDigest,
    /// One with a number that is far above the marks.
    FarNumber,
}

impl Turn {
    fn of(index: u64) -> Turn {
        match index % TURNS {
            0 => Turn::First,
            1 => Turn::OtherDigest,
            _ => Turn::FarNumber,
        }
    }
}

/// What one message says.
#[derive(Clone, Copy)]
pub(crate) struct Lie {
    kind: Kind,
    turn: Turn,
    place: u64,
}

impl Lie {
    /// The message of a kind with this index.
    pub(crate) fn new(kind: Kind, index: u64) -> Lie {
        Lie {
            kind,
            turn: Turn::of(index),
            place: index / TURNS,
        }
    }

    /// Its kind.
    pub(crate) fn kind(&self) -> Kind {
        self.kind
    }

    /// Its view: replica 3 is the primary of that of a PrePrepare or a NewView, and a backup in that of a Prepare.
    fn view(&self) -> View {
        let below = match self.kind {
            Kind::PrePrepare | Kind::Prepare | Kind::Commit => self.place / NUMBERS,
            _ => self.place,
        };
        let below = u32::try_from(below).unwrap_or(u32::MAX).saturating_mul(4);
        let own = u32::MAX.saturating_sub(below);
        match self.kind {
            Kind::Prepare => View(own.saturating_sub(1)),
            _ => View(own),
        }
    }

    /// The number between the marks, or else one far above them, another for each place.
    fn number(&self) -> SeqNo {
        match self.turn {
            Turn::FarNumber => self.far_number(),
            _ => SeqNo(1 + self.place % NUMBERS),
        }
    }

    fn far_number(&self) -> SeqNo {
        SeqNo(LAST.saturating_sub(self.place))
    }

    /// A ViewChange proves nothing, so that only one from number 0 is valid.
    fn low(&self) -> SeqNo {
        match self.turn {
            Turn::First => SeqNo(0),
            _ => self.number(),
        }
    }

    fn digest(&self) -> Digest {
        let mut digest = [self.turn as u8; 32];
        digest[..8].copy_from_slice(&self.place.to_be_bytes());
        Digest(digest)
    }

    fn time(&self) -> u64 {
        self.place.saturating_add(1)
    }

    /// The bytes of its digest, as a result, a state or an operation.
    fn text(&self, alloc: Global) -> Result<Bytes, AllocError> {
        Ok(Bytes::from_vec(self.digest().0.to_vec(alloc)?))
    }

    /// The body of its message, of a NewView one that rests on no ViewChange.
    pub(crate) fn body(&self, alloc: Global) -> Result<Body, AllocError> {
        Ok(match self.kind {
            Kind::PrePrepare | Kind::Prepare | Kind::Commit => self.vote(),
            Kind::Checkpoint => Body::Checkpoint(self.checkpoint()),
            Kind::Fetch => Body::Fetch(self.fetch()),
            Kind::ViewChange => Body::ViewChange(self.change(alloc)),
            Kind::NewView => Body::NewView(self.new_view(alloc, Vec::new(alloc))),
            Kind::Request => Body::Request(self.request(alloc)?),
            Kind::Reply => Body::Reply(self.reply(alloc)?),
            Kind::Snapshot => Body::Snapshot(self.snapshot(alloc)?),
        })
    }

    fn vote(&self) -> Body {
        let (view, number, digest) = (self.view(), self.number(), self.digest());
        match self.kind {
            Kind::PrePrepare => Body::PrePrepare(PrePrepare {
                view,
                number,
                digest,
            }),
            Kind::Prepare => Body::Prepare(Prepare {
                view,
                number,
                digest,
            }),
            _ => Body::Commit(Commit {
                view,
                number,
                digest,
            }),
        }
    }

    /// A request of an operation that no replica can read.
    fn request(&self, alloc: Global) -> Result<RequestBody, AllocError> {
        Ok(RequestBody {
            time: self.time(),
            op: self.text(alloc)?,
        })
    }

    fn reply(&self, alloc: Global) -> Result<ReplyBody, AllocError> {
        Ok(ReplyBody {
            view: self.view(),
            client: CLIENT,
            time: self.time(),
            number: self.far_number(),
            result: self.text(alloc)?,
        })
    }

    fn snapshot(&self, alloc: Global) -> Result<Snapshot, AllocError> {
        Ok(Snapshot {
            number: self.far_number(),
            state: self.text(alloc)?,
        })
    }

    /// A NewView that rests on these ViewChanges.
    pub(crate) fn new_view(&self, alloc: Global, changes: Vec<Signed<ViewChange>>) -> NewView {
        NewView {
            view: self.view(),
            changes: ViewChanges::from_vec(changes),
            pre_prepares: PrePrepares::from_vec(Vec::new(alloc)),
        }
    }

    fn checkpoint(&self) -> Checkpoint {
        Checkpoint {
            number: self.far_number(),
            digest: self.digest(),
        }
    }

    fn fetch(&self) -> Fetch {
        match self.turn {
            Turn::FarNumber => Fetch::State(self.far_number()),
            _ => Fetch::Request(self.digest()),
        }
    }

    /// A ViewChange that proves nothing.
    pub(crate) fn change(&self, alloc: Global) -> ViewChange {
        ViewChange {
            view: self.view(),
            low: self.low(),
            checkpoints: CheckpointList::from_vec(Vec::new(alloc)),
            certificates: Certificates::from_vec(Vec::new(alloc)),
        }
    }
}
