//! The votes of replicas on a proposal.

use host_types::{Digest, ReplicaId, SeqNo, View};

/// What a vote says of a proposal (Castro and Liskov 1999, section 4.2).
#[derive(Clone, Copy, Debug, PartialEq, Eq)]
pub enum VoteKind {
    /// The view's primary proposes it.
    PrePrepare,
    /// A backup agrees with it.
    Prepare,
    /// A replica has seen that enough replicas agree with it.
    Commit,
}

/// A `PrePrepare`, a `Prepare` or a `Commit` as a vote: that of `signer` for the request with this
/// digest, at this number of this view.
#[derive(Clone, Copy, Debug, PartialEq, Eq)]
pub struct Vote {
    pub kind: VoteKind,
    pub view: View,
    pub number: SeqNo,
    pub digest: Digest,
    pub signer: ReplicaId,
}
