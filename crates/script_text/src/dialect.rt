//! What a script is for.

/// What a script is for.
#[derive(Clone, Copy, Debug, PartialEq, Eq)]
pub enum Dialect {
    /// A world, whose events the script says.
    World,
    /// A world whose deliveries are in the order of a seed that is given beside the script: a `deliver` has chances without `order`, too.
    Seeded,
    /// Running threads: requests for all replicas and timeouts alone; no replica is faulty, and no leaf is used.
    Threads,
}
