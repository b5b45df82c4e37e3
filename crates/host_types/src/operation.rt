//! The first byte of what a client asks for.

/// An operation that installs the code behind this byte under the verifier's first profile.
pub const INSTALL: u8 = 1;

/// An operation that installs the code behind this byte under the verifier's second profile.
pub const INSTALL2: u8 = 4;

/// An operation that calls a procedure: its id in 4 bytes, most significant first, and the arguments follow.
pub const CALL: u8 = 2;
