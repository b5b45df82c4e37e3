//! What a handle can hold.

use bpf_verifier::Procedure;
use tenant_maps::TenantMap;

/// A procedure that was accepted, or a map.
#[derive(Drop)]
pub enum Held {
    Procedure(Procedure),
    Map(TenantMap),
}
