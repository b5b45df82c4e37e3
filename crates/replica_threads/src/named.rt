//! What a station is named by.

ghost use Rattle.std.specs.Prelude.{ℕ, []};
ghost use Rattle.host_types.specs.Configuration.{Configuration};
ghost use Rattle.lms_tree.specs.SigningState.{SigningState};
ghost use Rattle.replica_threads.specs.Stations.{no_signer};

use std::marker::Brand;
use std::sync::ledger::Ledger;

/// The name of a station: a type that stands for one ledger, one configuration, one replica with the signer that it
/// was given, and how many rows its journal has room for. Another station's seat is of another type.
pub trait Named: Ledger {
    ghost config: { Configuration };

    ghost id: { ℕ };

    ghost signer: { SigningState };

    ghost limit: { ℕ };
}

impl Named for Brand {
    ghost config = { record { f = 0; k = 0; keys = []; clients = [] } };

    ghost id = { 0 };

    ghost signer = { no_signer };

    ghost limit = { 0 };
}
