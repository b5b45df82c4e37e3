//! Limits that several parts of the host share.

/// The most replicas that may be faulty.
pub const MAX_FAULTY: u8 = 3;

/// The most replicas that there can be: 3f + 1 of them, with f at most 3.
pub const MAX_REPLICAS: usize = 10;

/// The most clients of a configuration.
pub const MAX_CLIENTS: usize = 64;

/// Sequence numbers are below this.
pub const SEQUENCE_NUMBER_LIMIT: u64 = 1 << 48;
