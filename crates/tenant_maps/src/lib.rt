//! A tenant's map: at most 4,096 entries, from keys of 16 bytes to values of 32, in the order of the
//! keys' bytes. `MapPort` is what a procedure that runs may ask of such a map; `TenantMap` is one.
#![tactic(auto)]

mod port;
mod tenant_map;

pub use port::{MapPort, Put};
pub use tenant_map::{MAX_ENTRIES, TenantMap};
