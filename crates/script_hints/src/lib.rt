//! What is wrong with a script that was refused, in a sentence: which key, what it takes, and where the step begins.
//! The reader of scripts is asked: a key is the one that is meant where the fault is gone once the key is left out, is
//! added, or has a value that it takes. So no sentence names a key that is right. What each key takes, in words, stands
//! where the key is read.
//!
//!     let sentence = sentence_for(alloc, Dialect::World, &files, &bytes, fault)?;
#![tactic(auto)]

mod code;
mod configured;
mod detail;
mod files;
mod help;
mod keys;
mod line;
mod meant;
mod near;
mod probe;
mod search;
mod sentence;

pub use help::keys_help;
pub use line::line_for;
pub use script_text::{Dialect, ScriptFault};
pub use sentence::{sentence_for, step_words};
