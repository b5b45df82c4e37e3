//! A snapshot: the bytes of a state, with their digest.

ghost use Rattle.std.specs.Prelude.{◌≡◌};
ghost use Rattle.sha2.specs.Sha256.{sha256};

use host_types::{Bytes, Digest};
use sha2::Sha256;
use std::marker::Model;

/// The bytes of a state, with their SHA-256 digest: they are hashed once. Contracts see it as the bytes.
#[derive(Drop)]
pub(crate) struct Snapshot {
    bytes: Bytes,
    digest: Digest,
}

impl Model for Snapshot {
    ghost use Rattle.std.specs.Prelude.{◌≡◌, List, ℕ};
    ghost use Rattle.sha2.specs.Sha256.{sha256};

    ghost Value = { List ℕ };

    ghost view = { λ s. s.bytes };

    ghost invariant = { λ s. s.digest.0 ≡ sha256 s.bytes };
}

impl Snapshot {
    /// The snapshot of these bytes. It hashes them.
    pub(crate) fn new(bytes: Bytes) -> Snapshot
        ensures { result ≡ bytes }
    {
        let digest = Digest(<Sha256 as sha2::Digest>::digest(bytes.as_slice()));
        Snapshot { bytes, digest }
    }

    /// The bytes.
    pub(crate) fn bytes(&self) -> &[u8]
        ensures { result.now ≡ self.now }
    {
        self.bytes.as_slice()
    }

    /// Their digest. It hashes nothing.
    pub(crate) fn digest(&self) -> Digest
        ensures { result.0 ≡ sha256 self.now }
    {
        self.digest
    }
}
