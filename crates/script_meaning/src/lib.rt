//! What the lines that a script prints mean: a client's result in words, a state as its tenants with their procedures and
//! entries. Each line of a meaning is indented.
//!
//!     let meaning = meaning_of(alloc, &script, "client 100 time 1 number 1 result 0000000000")?;
#![tactic(auto)]

mod cursor;
mod lines;
mod outcome;
mod results;
mod states;
mod unclear;

pub use lines::meaning_of;
pub use outcome::{Outcome, Refused};
pub use results::outcome_words;
pub use script_text::Script;
