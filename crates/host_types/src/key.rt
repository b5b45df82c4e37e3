//! Public keys of either kind.

/// A public key.
#[derive(Clone, Copy, Debug, PartialEq, Eq)]
pub enum PublicKey {
    /// The key of one tree: two typecodes, the identifier and the root (RFC 8554, section 5.3).
    Lms([u8; 56]),
    /// A key of two levels: the number 2, and the key of the top tree (RFC 8554, section 6.1).
    Hss([u8; 60]),
}
