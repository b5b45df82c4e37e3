//! Parts of messages.

use pbft_codec::{Body, Role};

/// A part of a message: what one signer in it says, without that signature.
#[derive(Debug, Drop)]
pub struct Part {
    pub role: Role,
    /// The signer: the index of a replica, or the id of a client.
    pub id: u32,
    pub body: Body,
}
