//! Where bytes go, one piece after another: a vector, or a hash.

ghost use Rattle.std.specs.Prelude.{◌≡◌, ℕ, List, OnOk};
ghost use Rattle.sha2.specs.Hashers.{Holds256};
ghost use Rattle.service_core.specs.Sinks.{Feeds};

use sha2::{Digest, Sha256};
use std::alloc::AllocError;
use std::convert::Infallible;

/// Where bytes go, one piece after another.
pub(crate) trait Sink {
    type Fault: Drop;

    ghost holds: { Self → List ℕ → Type 0 };

    fn emit(&mut self, bytes: &[u8]) -> Result<(), Self::Fault>
        ensures { OnOk result (Feeds holds self.old self.new bytes.now) };
}

impl Sink for Vec<u8> {
    type Fault = AllocError;

    ghost holds = { λ vector before. vector.items ≡ before };

    fn emit(&mut self, bytes: &[u8]) -> Result<(), AllocError> {
        self.extend_from_slice(bytes)
    }
}

impl Sink for Sha256 {
    type Fault = Infallible;

    ghost holds = { Holds256 };

    fn emit(&mut self, bytes: &[u8]) -> Result<(), Infallible> {
        self.update(bytes);
        Ok(())
    }
}
