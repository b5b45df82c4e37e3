//! What happens in a world, a line for each thing: a message is handed over or lost, a replica refuses bytes, executes,
//! changes its view, raises its low mark, halts. A line is a function of what happened (`specs/Lines.antt`).
//!
//!     let saying = saying_in(alloc, Some(Kind::Prepare), &bytes)?;
//!     let line = line_of(alloc, &Happening::Handed { from, to, saying })?;
#![tactic(auto)]

mod happening;
mod lines;
mod said;
mod saying;
mod standing;
mod words;

pub use conflicts::{Blame, Claim, Leaving, Topic, claim_of, leaf_claim_of, view_claim_of};
pub use happening::{Cause, Happening};
pub use lines::line_of;
pub use said::{saying_in, saying_of};
pub use saying::Saying;
pub use script_text::Node;
pub use standing::{Standing, changes};
pub use words::words_of;
