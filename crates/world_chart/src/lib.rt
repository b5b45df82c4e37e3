//! What happened in a world as a chart of messages: a lane for each client and replica, a row for each message and for
//! each thing that a replica did.
//!
//!     let chart = Chart::new(alloc, lanes, &happened)?;
//!     print(&chart.mermaid(alloc)?)?;
#![tactic(auto)]

mod chart;
mod lanes;
mod mermaid;
mod picture;
mod rows;

pub use chart::Chart;
pub use lanes::Lanes;
pub use world_lines::{
    Blame, Cause, Claim, Happening, Leaving, Saying, Standing, Topic, changes, claim_of,
    leaf_claim_of, line_of, saying_in, view_claim_of, words_of,
};
