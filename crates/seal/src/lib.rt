//! Messages whose signatures were verified, as values: a `Checked` is a message of the grammar whose
//! parts all have a listed signer, who may say what it says and signed it (Castro and Liskov 1999,
//! section 4, with signatures in place of authenticators). `open` makes one of bytes, `seal` of a body
//! and a signer.
//!
//!     let request = open(alloc, &config, &bytes)?;
//!     let digest = request_digest(&request);
#![tactic(auto)]

mod checked;
mod checked_list;
mod fault;
mod nested_messages;
mod opening;
mod part;
mod sealing;
mod signature;
mod verify_parts;
mod vote;

pub use checked::Checked;
pub use checked_list::CheckedList;
pub use fault::SealFault;
pub use opening::{nested, nested_checkpoints, nested_pre_prepares, open, parts, request_digest};
pub use part::Part;
pub use sealing::seal;
pub use vote::{Vote, VoteKind};
