//! Scripts of a world, watched: with a line for each thing that happens (`trace_script`), as a chart of messages
//! (`chart_script`), and under many orders of their deliveries (`explore_seed`). The steps are those of `world_script`,
//! and what they print is the same.
//!
//!     let placed = PlacedScript::new(alloc, read_script(alloc, text)?, text)?;
//!     let played = trace_script(alloc, &placed, &mut writer, &mut Unwatched)?;
#![tactic(auto)]

mod cause;
mod charted;
mod evidence;
mod explore;
mod findings;
mod in_memory;
mod leavings;
mod placed;
mod queued;
mod refusal;
mod shrink;
mod trace;
mod tracer;
mod validity;

pub use charted::{ChartForm, chart_script};
pub use explore::{Explored, Outcome, Seeds, Wanted, explore_seed};
pub use findings::{Search, Searched, explore_script, explore_side_by_side};
pub use placed::PlacedScript;
pub use queued::words_of_queued;
pub use trace::trace_script;
pub use world_script::{Played, ScriptFault, ScriptKind, Unwatched, read_script, run_script};
