//! Scripts: a group of replicas, its clients and a queue of messages between them, moved by the steps of
//! a TOML document.
//!
//!     let status = match run_script(alloc, &mut reader, &mut writer) {
//!         Ok(Played::Whole) => 0,
//!         Ok(Played::Unexpected) => 1,
//!         Err(fault) => fault.kind.number(),
//!     };
#![tactic(auto)]

mod auditing;
mod draining;
mod expecting;
mod fault;
mod input;
mod keys;
mod laws;
mod made;
mod play;
mod played;
mod progress;
mod signers;
mod stage;
mod watcher;
mod writing;

pub use auditing::line_of_audit;
pub use drained_records::{
    AuditFault, Dest, Done, Event, Halt, History, Input, Outcome, Output, Replica, Report, Row,
    State, Status, World, WorldFault, audit, run_world,
};
pub use expecting::{differing_line, line_of_unexpected};
pub use fault::RunFault;
pub use input::read_input;
pub use keys::{KeySources, Keys, make_keys};
pub use laws::{honest_scripts_agree, scripts_run_sound_worlds, spent_leaves_sign_no_message};
pub use play::{report, run_read, run_script, run_script_watched, run_step};
pub use played::Played;
pub use progress::{Progress, Unwatched};
pub use script_text::{
    Dialect, FileName, FileUse, Head, MAX_FILE, NamedFile, Order, Script, ScriptFault, ScriptKind,
    Step, files_named_in, read_script, read_script_with, read_thread_script,
};
pub use signers::are_listed;
pub use stage::Stage;
pub use watcher::{Delivery, Expiry, Untold, Watcher};
pub use world_queue::{Letter, line_of_reply, open_sessions};
pub use writing::{write_bytes, write_text};
