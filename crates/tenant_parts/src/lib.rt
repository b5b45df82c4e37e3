//! A tenant's part of the service's state: its procedures, its map and the last replies to its clients; and what a request
//! does to it.
//!
//! What a state's `apply` does to the part of the client's tenant, `apply_at` does to the part alone:
//!
//!     let mut part = TenantPart::new(alloc, tenant);
//!     let outcome = part.apply_at(SeqNo(1), &request)?;
//!     part.last_reply(request.client)
#![tactic(auto)]

mod operation;
mod tenant_part;

pub use bpf_machine::{Procedure, VerifyFault};
pub use operation::{MAX_PROCEDURES, verify_under};
pub use tenant_part::{TenantPart, copy_of};
