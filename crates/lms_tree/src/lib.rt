//! Signers with keys of one tree or of two levels of trees, and the verifier of both: LMS and HSS with L = 2 of
//! RFC 8554, sections 5 and 6, with trees of height 5 and 10.
//!
//! A key of two levels has a top tree, which signs the keys of bottom trees, whose leaves sign messages. A signer
//! keeps the top tree, the bottom tree that signs, and the next one, of which it makes a node with each signature, so
//! that none waits for a whole tree. Its leaves sign from 0 upward, each once. `verify` takes no memory.
//!
//!     let mut signer = Signer::from_seed2(alloc, Height::H5, Height::H10, id, secret)?;
//!     let signature = signer.sign(b"a message")?;
//!     verify(&signer.public_key(), b"a message", &signature)?;
#![tactic(auto)]

pub use fault::SignFault;
pub use laws::{
    a_top_leaf_signs_one_key, leaves_are_few, next_leaf_is_within, no_leaf_signs_twice,
    signatures_are_short, signers_go_on,
};
pub use lms_level::{Height, SigFault};
pub use signer::Signer;
pub use source::KeySource;
pub use validity::{Verifier, verify};

mod bottom;
mod fault;
mod laws;
mod nodes;
mod parts;
mod signer;
mod source;
mod tree;
mod validity;
