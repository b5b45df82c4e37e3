//! The service that every replica runs: tenants install procedures and call them, each on a map of
//! its own, and the last reply to each client is kept. It takes one request after another; what it
//! then is, and what it answers, follow from the requests alone.
#![tactic(auto)]

mod encoding;
mod reader;
mod sink;
mod state;
mod state_fault;
mod tenant_reader;

pub use service_model::{
    Outcome, a_request_is_its_tenants, a_step_exists, a_step_has_one_outcome,
    equal_bytes_are_equal_states, installed_procedures_cannot_go_wrong, maps_stay_maps,
    requests_have_one_outcome, states_are_bounded, states_are_sound,
};
pub use state::State;
pub use state_fault::StateFault;
pub use tenant_parts::TenantPart;
