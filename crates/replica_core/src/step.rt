//! What passes with one message or one timeout.

ghost use Rattle.std.specs.Prelude.{◌≡◌, [], false, None};

use crate::row::{Dest, Done, Output};
use replica_stores::Owed;
use seal::Checked;
use std::alloc::{AllocError, Global};
use tenant_lanes::State;

/// What a replica keeps only while it does what one message or one timeout asks for.
#[derive(Drop)]
pub(crate) struct Step {
    /// The message just taken.
    pub taken: Option<Checked>,
    /// Its reading as a state.
    pub reading: Option<State>,
    /// Nothing was done since it was taken.
    pub is_fresh: bool,
    /// A timeout has come, and nothing was done since.
    pub timed_out: bool,
    /// What the last execution still has to send.
    pub owed: Owed,
    /// What was done so far.
    pub outputs: Vec<Output>,
    pub done: Vec<Done>,
    pub leaves: u32,
}

impl Step {
    /// Nothing was taken, and nothing was done. It takes no memory.
    pub(crate) fn none(alloc: Global) -> Step
        ensures taken { result.taken ≡ None }
        ensures reading { result.reading ≡ None }
        ensures fresh { result.is_fresh ≡ false }
        ensures timed { result.timed_out ≡ false }
        ensures reply { result.owed.reply ≡ None }
        ensures checkpoint { result.owed.checkpoint ≡ false }
        ensures outputs { result.outputs.items ≡ [] }
        ensures done { result.done.items ≡ [] }
        ensures leaves { result.leaves ≡ 0 }
    {
        Step {
            taken: None,
            reading: None,
            is_fresh: false,
            timed_out: false,
            owed: Owed::nothing(),
            outputs: Vec::new(alloc),
            done: Vec::new(alloc),
            leaves: 0,
        }
    }
}
