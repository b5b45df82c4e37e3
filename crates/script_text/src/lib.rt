//! The text of a script: a TOML document of a group of replicas, its clients, and steps. Every step is
//! checked before the first one runs.
//!
//!     let script = read_script(alloc, &bytes)?;
//!     for named in script.steps.as_slice() {
//!         run(&named.step)?;
//!     }
#![tactic(auto)]

mod dialect;
mod document;
mod file_uses;
mod files;
mod forgery_keys;
mod head;
mod naming;
mod order_keys;
mod place;
mod raw_keys;
mod script;
mod step_keys;

pub use dialect::Dialect;
pub use document::{MAX_SCRIPT, read_script, read_script_with, read_thread_script};
pub use file_uses::{FileUse, files_named_in};
pub use files::{FileName, MAX_FILE, NamedFile, is_code_name};
pub use head::{CLIENT_HINTS, HEAD_HINTS, Head};
pub use place::lines_of_steps;
pub use script::{
    Chances, Damage, DeliveryOrder, Filter, ForgedMessage, ForgedVote, Forgery, NamedStep, Order,
    Payload, Printout, QueueEdit, Script, Step,
};
pub use script_values::{
    Client, KEY_LIST_HINTS, KeyShape, Kind, MessageName, Node, Number, Operation, ScriptBytes,
    ScriptFault, ScriptKind, Secret, node_text,
};
pub use step_keys::{STEP_FORMS, STEP_HINTS};
