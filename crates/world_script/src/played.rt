//! How a script ends that has no fault.

/// How a script ended that has no fault.
#[must_use]
#[derive(Clone, Copy, Debug, PartialEq, Eq)]
pub enum Played {
    /// All its steps ran.
    Whole,
    /// An `expect` found other lines than its own; the line that says so is written.
    Unexpected,
}
