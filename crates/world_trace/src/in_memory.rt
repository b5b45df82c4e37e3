//! Steps that print into memory.

ghost use Rattle.std.specs.Prelude.{string_bytes};
ghost use Rattle.world_trace.specs.Telling.{RunsInMemory};

use script_text::NamedStep;
use world_script::{Played, Progress, RunFault, Stage, Watcher, run_step};

/// Runs the step of this number, as `run_step` does, which tells the watcher. What it prints is added to the bytes: that fails for
/// lack of memory alone, and then they are none.
pub(crate) fn run_in_memory<P: Progress>(
    stage: &mut Stage,
    unread: &mut String,
    number: u32,
    step: &NamedStep,
    printed: &mut Vec<u8>,
    progress: &mut P,
    watcher: &mut dyn Watcher,
) -> Result<Played, RunFault>
    ensures { RunsInMemory number (record { stage = stage.old; unread = string_bytes unread.old }) step.now printed.old.items printed.new.items result (record { stage = stage.new; unread = string_bytes unread.new }) (told watcher.old) (told watcher.new) }
{
    match run_step(stage, unread, number, step, printed, progress, watcher) {
        Err(RunFault::Write) => {
            printed.clear();
            Err(RunFault::Memory)
        }
        ended => ended,
    }
}
