//! What a message says, without its signatures and what is nested in it.

use host_types::{Digest, SeqNo, View};
use script_text::Kind;
use seal::VoteKind;

/// What a message says, without its signatures and what is nested in it.
#[derive(Clone, Copy, Debug, PartialEq, Eq)]
pub enum Saying {
    /// A request, by its time and the digest that votes name it by.
    Request {
        time: u64,
        digest: Digest,
    },
    /// A PrePrepare, a Prepare or a Commit.
    Vote {
        kind: VoteKind,
        view: View,
        number: SeqNo,
        digest: Digest,
    },
    /// A reply to the request of this time, which was executed at this number.
    Reply {
        time: u64,
        number: SeqNo,
    },
    Checkpoint {
        number: SeqNo,
        digest: Digest,
    },
    ViewChange {
        view: View,
        low: SeqNo,
    },
    NewView {
        view: View,
    },
    /// The request of this digest is asked for.
    FetchRequest {
        digest: Digest,
    },
    /// The state after this number is asked for.
    FetchState {
        number: SeqNo,
    },
    Snapshot {
        number: SeqNo,
    },
    /// Bytes that are no message, with the kind that the script gave them, if it gave one.
    Unreadable {
        kind: Option<Kind>,
    },
}
