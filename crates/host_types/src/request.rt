//! Requests of clients and their replies.

use crate::{Bytes, ClientId, SeqNo};

/// What a client asks for: an operation, at a time of its own that rises from request to request.
#[derive(Debug, Drop)]
pub struct Request {
    pub client: ClientId,
    pub time: u64,
    pub op: Bytes,
}

/// The answer to a client's request of that time, which was executed as the request of that number.
#[derive(Debug, Drop)]
pub struct Reply {
    pub client: ClientId,
    pub time: u64,
    pub number: SeqNo,
    pub result: Bytes,
}
