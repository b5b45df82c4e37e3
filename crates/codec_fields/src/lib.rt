//! The fields of which messages are made, as they are read: numbers, ids, digests and bytes behind a length. Each is read
//! from the front of bytes, and what is read first is checked first, so that the first fault from the left is reported.
//!
//!     let (view, rest) = read_view(bytes)?;
//!     let (number, rest) = read_sequence_number(rest)?;
#![tactic(auto)]

mod fault;
mod fields;

pub use fault::{CodecFault, ReadError};
pub use fields::{
    read_bytes, read_client, read_count, read_digest, read_id, read_length_prefixed,
    read_sequence_number, read_u32, read_u64, read_view,
};
