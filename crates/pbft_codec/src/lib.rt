//! Messages of clients and replicas (Castro and Liskov 1999, sections 4.1 to 4.4, with signatures)
//! and their one encoding in bytes.
//!
//! A message is a `Signed`: who signs, a body of one of ten kinds, a signature. Bodies nest three
//! levels deep: a `NewView` holds signed `ViewChange`s, and these hold signed `Checkpoint`s and
//! certificates. Contracts see each of these types as plain data: bytes and sequences as lists.
//!
//!     let message = decode(alloc, &bytes)?;
//!     if let Body::Request(request) = &message.body {
//!         println!(rt; "client {} asks at time {}", message.id, request.time)?;
//!     }
#![tactic(auto)]

mod body;
mod codec;
mod kind;
mod laws;
mod lists;
mod message;
mod message_body;
mod sender;
mod sequence;
mod shared;
mod signed;
mod try_clone;
mod writing;

pub use body::{
    Body, Certificate, Certificates, Checkpoint, CheckpointList, Commit, Fetch, NewView,
    PrePrepare, PrePrepares, Prepare, Prepares, ReplyBody, RequestBody, Snapshot, ViewChange,
    ViewChanges,
};
pub use codec_fields::CodecFault;
pub use laws::{
    bytes_encode_one_message, encodings_have_these_lengths, signed_bytes_determine_signer_and_body,
};
pub use message::{decode, encode, signed_bytes, signed_parts};
pub use message_body::MessageBody;
pub use sender::Sender;
pub use sequence::Sequence;
pub use shared::{SignedSnapshot, snapshot_in};
pub use signed::{Role, Signed};
pub use try_clone::TryClone;
