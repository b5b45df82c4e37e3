//! What is called as threads step, so that tests and programs can watch them or hold them.

/// Sees the steps of running threads. A gate that waits holds only the thread that calls it.
pub trait Gate {
    /// Called before each step: of a replica, by its number, with its own lock held and no other; of
    /// a lane, by the lane's number, before its first request.
    fn step(&self, who: u32);

    /// Called after bytes that were posted to a replica, `who`, were opened, also where they were
    /// refused, with no lock held. It does nothing unless it is written.
    fn opened(&self, who: u32) {
        let _ = who;
    }
}
