//! How far a script is.

/// Is told how far a script is, and what an `expect` finds. It has no part in what the script does.
pub trait Progress {
    /// So many of all its keys are made.
    fn keys(&mut self, made: usize, all: usize);

    /// The step of this number begins, of so many.
    fn step(&mut self, number: u32, all: usize);

    /// The `expect` of this step wants other lines than were printed since the last one.
    fn unexpected(&mut self, step: u32, wanted: &[u8], printed: &[u8]);

    /// So many of all requests to running replicas are answered.
    fn requests(&mut self, answered: u64, all: u64);

    /// The script was run under so many of all its seeds.
    fn seeds(&mut self, done: u64, all: u64);
}

/// Nobody is told.
#[derive(Clone, Copy, Debug)]
pub struct Unwatched;

impl Progress for Unwatched {
    fn keys(&mut self, _made: usize, _all: usize) {}

    fn step(&mut self, _number: u32, _all: usize) {}

    fn unexpected(&mut self, _step: u32, _wanted: &[u8], _printed: &[u8]) {}

    fn requests(&mut self, _answered: u64, _all: u64) {}

    fn seeds(&mut self, _done: u64, _all: u64) {}
}
