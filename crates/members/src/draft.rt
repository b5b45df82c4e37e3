//! A configuration that is written down entry by entry.

ghost use Rattle.std.specs.Prelude.{◌≡◌, ◌++◌, ◌∷◌, [], None, Some, OnOk, OnErr, MatchResult};
ghost use Rattle.host_types.specs.Configuration.{Configuration, fault_of};

use host_types::{ClientEntry, Config, ConfigFault, PublicKey};
use std::alloc::{AllocError, Global};
use std::marker::Model;

/// What a configuration is to say: limits, the replicas' keys in their order, and the clients. Nothing is looked at before
/// it is finished.
#[derive(Debug, Drop)]
pub struct Draft {
    f: u8,
    k: u8,
    keys: Vec<PublicKey>,
    clients: Vec<ClientEntry>,
}

impl Model for Draft {
    ghost use Rattle.host_types.specs.Configuration.{Configuration};

    ghost Value = { Configuration };

    ghost view = { λ d. record { f = d.f; k = d.k; keys = d.keys.items; clients = d.clients.items } };
}

impl Draft {
    /// A configuration of nobody, with these limits.
    pub fn new(alloc: Global, f: u8, k: u8) -> Draft
        ensures { result ≡ record { f = f; k = k; keys = []; clients = [] } }
    {
        Draft {
            f,
            k,
            keys: Vec::new(alloc),
            clients: Vec::new(alloc),
        }
    }

    /// Lists one more replica. The error is that memory ran out; nothing is listed then.
    pub fn add_replica(&mut self, key: PublicKey) -> Result<(), AllocError>
        ensures listed { OnOk result (self.new ≡ record self.old { keys = self.old.keys ++ key ∷ [] }) }
        ensures unchanged { OnErr result (self.new ≡ self.old) }
    {
        Ok(self.keys.push(key)?)
    }

    /// Lists one more client. The error is that memory ran out; nothing is listed then.
    pub fn add_client(&mut self, client: ClientEntry) -> Result<(), AllocError>
        ensures listed { OnOk result (self.new ≡ record self.old { clients = self.old.clients ++ client ∷ [] }) }
        ensures unchanged { OnErr result (self.new ≡ self.old) }
    {
        Ok(self.clients.push(client)?)
    }

    /// The configuration. It is refused exactly where it has a fault, and is dropped then.
    pub fn finish(self) -> Result<Config, ConfigFault>
        ensures { MatchResult result (λ config. (fault_of self ≡ None) × (config ≡ self)) (λ fault. fault_of self ≡ Some fault) }
    {
        Config::new(self.f, self.k, self.keys, self.clients)
    }
}
