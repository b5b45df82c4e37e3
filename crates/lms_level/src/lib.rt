//! One level of trees: LMS, the hash-based signatures of RFC 8554, section 5, with trees of height 5 and 10 over the
//! one-time signatures of `lms_ots`: LMS_SHA256_M32_H5 and LMS_SHA256_M32_H10.
//!
//! It has what a tree's height determines, the nodes over leaves and over nodes, and `verify`, which takes no memory.
//! What signs with a tree is `lms_tree`'s.
//!
//!     verify(&key, b"a message", &signature)?;
#![tactic(auto)]

pub use fault::SigFault;
pub use height::Height;
pub use lms_ots::{TYPECODE, hasher, ots_public, ots_publics, ots_sign, put, u32str};
pub use nodes::{inner_node, leaf_node};
pub use validity::{Verifier, key_height, verify, word_at};

mod fault;
mod height;
mod nodes;
mod validity;
