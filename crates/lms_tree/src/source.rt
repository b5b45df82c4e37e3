//! Keys that are made once, for signers that begin anew.

ghost use Rattle.std.specs.Prelude.{◌≡◌, IfOk};

use crate::signer::Signer;
use lms_level::Height;
use std::alloc::{AllocError, Global};
use std::marker::Model;

/// A key as it is before its first signature: its seed, and the nodes of its trees. Each signer that it gives begins
/// at the key's first leaf, and costs a copy of the nodes, where `Signer::from_seed` hashes each of them.
///
/// Two signers of one source sign with the same leaves, as two of one seed do, and two messages that one leaf signed
/// give the key away. So a source is for runs that begin anew, as a script's or a test's. A running replica has none.
#[derive(Drop)]
pub struct KeySource {
    signer: Signer,
}

impl Model for KeySource {
    ghost use Rattle.std.specs.Prelude.{◌≡◌};
    ghost use Rattle.lms_tree.specs.SigningState.{SigningState};

    ghost Value = { SigningState };

    ghost view = { λ s. s.signer };

    ghost invariant = { λ s. s.signer.next_leaf ≡ 0 };
}

impl KeySource {
    /// The source of the key that has the identifier `id` and the seed `secret`, with one tree, or with bottom trees
    /// of the height `bottom` below the top tree. It makes the one tree, or the top tree and the first bottom tree.
    /// An error comes where memory runs out alone.
    pub fn from_seed(
        alloc: Global,
        height: Height,
        bottom: Option<Height>,
        id: [u8; 16],
        secret: [u8; 32],
    ) -> Result<KeySource, AllocError>
        ensures { IfOk result (λ source.
            source ≡ record { height = height; bottom = bottom; id = id; secret = secret; next_leaf = 0 }) }
    {
        let signer = match bottom {
            None => Signer::from_seed(alloc, height, id, secret)?,
            Some(bottom) => Signer::from_seed2(alloc, height, bottom, id, secret)?,
        };
        Ok(KeySource { signer })
    }

    /// A signer of this key, none of whose leaves was used. It copies the nodes, makes none of them, and keeps them
    /// and its signatures in memory from `alloc`. An error comes where memory runs out alone.
    pub fn signer(&self, alloc: Global) -> Result<Signer, AllocError>
        ensures { IfOk result (λ signer. signer ≡ self.now) }
    {
        self.signer.copy_unused(alloc)
    }
}
