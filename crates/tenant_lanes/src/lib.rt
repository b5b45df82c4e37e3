//! A list of requests applied to a state by lanes that run at the same time. Each tenant's requests go to one lane,
//! and what comes of them is what one after another would have made of the state.
//!
//!     let (state, outcomes) = apply_all(&rt, alloc, state, &requests, 4, &gate)?;
#![tactic(auto)]

mod apply;
mod dealing;
mod lane;
mod slots;

pub use apply::apply_all;
pub use service_core::{Outcome, State, StateFault};
