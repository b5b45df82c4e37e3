//! The service that every replica runs, as definitions (`specs/`) and their laws, each the contract of a function
//! with an empty body: what a state is, what a request makes of it and answers, and a state's bytes.
#![tactic(auto)]

mod law;
mod outcome;
mod version;

pub use bpf_model::Profile;
pub use law::{
    a_request_is_its_tenants, a_step_exists, a_step_has_one_outcome, an_encoding_is_decided,
    equal_bytes_are_equal_states, installed_procedures_cannot_go_wrong, maps_stay_maps,
    requests_have_one_outcome, states_are_bounded, states_are_sound,
};
pub use outcome::Outcome;
pub use version::Version;
