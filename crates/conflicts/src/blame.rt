//! Why a signer is blamed.

ghost use Rattle.std.specs.Prelude.{◌≡◌};

use crate::claim::Claim;
use host_types::{Digest, SeqNo, View};

/// What signatures prove of a replica, or of a client.
#[derive(Clone, Copy, Debug, PartialEq, Eq)]
pub enum Blame {
    /// It says two things of one topic.
    Twice {
        one: Claim,
        other: Claim,
    },
    /// It signed a ViewChange, which claims this, that hides a Commit of its own.
    Hidden {
        change: Claim,
        view: View,
        number: SeqNo,
        digest: Digest,
    },
    /// It signed a ViewChange or a NewView, which claims this, that isn't valid.
    Invalid(Claim),
}

impl Blame {
    ghost use Rattle.conflicts.specs.Blames.{signer_of};

    /// Who is blamed: the index of a replica, or the id of a client.
    pub fn signer(&self) -> u32
        ensures { result ≡ signer_of self.now }
    {
        match self {
            Blame::Twice { one, .. } => one.signer,
            Blame::Hidden { change, .. } => change.signer,
            Blame::Invalid(claim) => claim.signer,
        }
    }
}
