//! The requests that were made.

use host_types::{ClientId, Digest};

/// A request that was made.
#[derive(Clone, Copy)]
pub(crate) struct Made {
    pub client: ClientId,
    pub time: u64,
    pub digest: Digest,
}
