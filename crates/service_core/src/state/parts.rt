//! A state taken apart into its tenants' parts, which may then go to different threads, and put together again.

ghost use Rattle.std.specs.Prelude.{◌≡◌, map};
ghost use Rattle.std.specs.Arc.{arc_value};
ghost use Rattle.host_types.specs.Configuration.{tenants_of};

use crate::state::State;
use host_types::{Config, SeqNo};
use std::sync::Arc;
use tenant_parts::TenantPart;

impl State {
    /// The state's configuration, its number, and its tenants' parts: one for each tenant of the configuration, by
    /// id ascending. It takes no memory.
    pub fn split(self) -> (Arc<Config>, SeqNo, Vec<TenantPart>)
        ensures config { arc_value result.0 ≡ self.config }
        ensures number { result.1.0 ≡ self.number }
        ensures parts { result.2.items ≡ self.tenants }
        ensures ids { map (λ part. part.tenant) result.2.items ≡ map (λ tenant. tenant.0) (tenants_of self.config.clients) }
    {
        (self.config, SeqNo(self.number), self.tenants)
    }

    /// The state of this number with these parts. The parts have to be one for each tenant of the configuration, by
    /// id ascending, as `split` gives them. It takes no memory; the state takes its memory from the allocator of the
    /// list of parts.
    pub fn join(config: Arc<Config>, number: SeqNo, parts: Vec<TenantPart>) -> State
        requires { map (λ part. part.tenant) parts.items ≡ map (λ tenant. tenant.0) (tenants_of (arc_value config).clients) }
        ensures { result ≡ record { config = arc_value config; number = number.0; tenants = parts.items } }
    {
        State {
            alloc: *parts.allocator(),
            config,
            number: number.0,
            tenants: parts,
        }
    }
}
