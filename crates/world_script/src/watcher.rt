//! Who is told what happens while a script runs.

use crate::stage::Stage;
use drained_records::{Row, Status};
use host_types::ReplicaId;
use script_text::Step;
use std::alloc::AllocError;
use world_queue::Letter;

/// A letter that was handed over, and what came of it.
#[derive(Drop)]
pub struct Delivery {
    /// The letter, with its addressee.
    pub letter: Letter,
    /// How many letters that were meant it passed over.
    pub passed: usize,
    /// Where its addressee stood before, if that is a correct replica.
    pub before: Option<Status>,
    /// The row that it gave, if it is a replica and gave one.
    pub row: Option<Row>,
    /// What was printed.
    pub text: String,
}

/// A timer that expired, and what came of it.
#[derive(Drop)]
pub struct Expiry {
    /// Where the replica stood before, if it is a correct one.
    pub before: Option<Status>,
    /// Whose timer it was.
    pub at: ReplicaId,
    /// The row that it gave, if it gave one.
    pub row: Option<Row>,
}

/// Is told of each event of a script, behind it. It has no part in what the script does, but that one which runs out of memory
/// ends it.
pub trait Watcher {
    ghost use Rattle.std.specs.Prelude.{List, [], ◌∷◌, OnOk, string_bytes};
    ghost use Rattle.world_script.specs.Seen as seen;
    ghost use Rattle.world_script.specs.Seen.{Seen, Tells};

    /// What it was told so far.
    ghost told: { Self → List Seen → Type 0 };

    /// A letter was handed to its addressee.
    fn handed(&mut self, stage: &Stage, delivery: &Delivery) -> Result<(), AllocError>
        ensures { OnOk result (Tells (told self.old) (seen.Handed delivery.now.before delivery.now.letter delivery.now.passed delivery.now.row (string_bytes delivery.now.text) stage.now.world ∷ []) (told self.new)) };

    /// A letter was lost.
    fn lost(&mut self, letter: &Letter) -> Result<(), AllocError>
        ensures { OnOk result (Tells (told self.old) (seen.Lost letter.now ∷ []) (told self.new)) };

    /// A replica's timer expired.
    fn timed_out(&mut self, stage: &Stage, expiry: &Expiry) -> Result<(), AllocError>
        ensures { OnOk result (Tells (told self.old) (seen.TimedOut expiry.now.before expiry.now.at expiry.now.row stage.now.world ∷ []) (told self.new)) };

    /// A step that hands nothing over printed this, which is not empty.
    fn printed(&mut self, stage: &Stage, step: &Step, text: &str) -> Result<(), AllocError>
        ensures { OnOk result (Tells (told self.old) (seen.Printed stage.now step.now text.now ∷ []) (told self.new)) };
}

/// Nobody is told what happens.
#[derive(Clone, Copy, Debug)]
pub struct Untold;

impl Watcher for Untold {
    ghost told = { λ _ _. Unit {0} };

    fn handed(&mut self, _stage: &Stage, _delivery: &Delivery) -> Result<(), AllocError> {
        Ok(())
    }

    fn lost(&mut self, _letter: &Letter) -> Result<(), AllocError> {
        Ok(())
    }

    fn timed_out(&mut self, _stage: &Stage, _expiry: &Expiry) -> Result<(), AllocError> {
        Ok(())
    }

    fn printed(&mut self, _stage: &Stage, _step: &Step, _text: &str) -> Result<(), AllocError> {
        Ok(())
    }
}
