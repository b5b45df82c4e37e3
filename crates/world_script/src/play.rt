//! A script from a reader to a writer.

ghost use Rattle.std.specs.Prelude.{◌≡◌, ◌≢◌, ◌⊎◌, ◌++◌, OnOk, IfErr, IsOk, string_bytes};
ghost use Rattle.std.specs.Io.KnownBytes.{Appends};
ghost use Rattle.script_text.specs.ScriptKind.TheVariants as kinds;
ghost use Rattle.world_script.specs.Running.{Compares, PlaysWhatIsRead, Reports, RunsRead, RunsSteps};
ghost use Rattle.world_script.specs.Scripts.{WritesWhatIsRead};
ghost use Rattle.world_script.specs.Seen.{StepTells};
ghost use Rattle.world_script.specs.Stages.{after_naming};
ghost use Rattle.world_script.specs.Starts.{start_of};

use crate::expecting::{differing_line, line_of_unexpected};
use crate::fault::RunFault;
use crate::input::read_input;
use crate::played::Played;
use crate::progress::{Progress, Unwatched};
use crate::stage::Stage;
use crate::watcher::{Untold, Watcher};
use crate::writing::{write_fault, write_text};
use script_text::{NamedStep, Script, ScriptFault, ScriptKind, Step, read_script};
use std::alloc::{AllocError, Global};
use std::io::{Read, Write};

/// Reads a script to the end of the reader, runs its steps, and writes what they print. The line of a
/// fault is written too, but for that of a failed write: `script fault 2 MissingKey step 3`. After a
/// failed write the writer has the first bytes of what was to be written. An `expect` that finds other lines ends
/// the run; its line is written. A script that names a file is a `WrongValue`, since nothing but the reader is read.
pub fn run_script<I: Read, O: Write>(
    alloc: Global,
    reader: &mut I,
    writer: &mut O,
) -> Result<Played, ScriptFault>
    ensures { WritesWhatIsRead (I.remaining reader.old) (O.contents writer.old) (O.contents writer.new) result }
{
    run_script_watched(alloc, reader, writer, &mut Unwatched)
}

/// Does the same, and tells how far the script is, and what an `expect` finds.
pub fn run_script_watched<I: Read, O: Write, P: Progress>(
    alloc: Global,
    reader: &mut I,
    writer: &mut O,
    progress: &mut P,
) -> Result<Played, ScriptFault>
    ensures { WritesWhatIsRead (I.remaining reader.old) (O.contents writer.old) (O.contents writer.new) result }
{
    match play(alloc, reader, writer, progress) {
        Ok(played) => Ok(played),
        Err(fault) => Err(report(fault, writer)),
    }
}

/// Runs the steps of a script that was read, with the files that it names, and writes what they print, as `run_script` does of
/// a text. It tells how far the script is, and what an `expect` finds.
pub fn run_read<O: Write, P: Progress>(
    alloc: Global,
    script: &Script,
    writer: &mut O,
    progress: &mut P,
) -> Result<Played, ScriptFault>
    ensures { RunsRead script.now (O.contents writer.old) (O.contents writer.new) result }
{
    match run_steps(alloc, script, writer, progress) {
        Ok(played) => Ok(played),
        Err(fault) => {
            let reported = report(fault, writer);
            Err(reported)
        }
    }
}

/// Reads a script and runs its steps.
fn play<I: Read, O: Write, P: Progress>(
    alloc: Global,
    reader: &mut I,
    writer: &mut O,
    progress: &mut P,
) -> Result<Played, ScriptFault>
    ensures { PlaysWhatIsRead (I.remaining reader.old) (O.contents writer.old) (O.contents writer.new) result }
{
    let bytes = match read_input(alloc, reader) {
        Ok(bytes) => bytes,
        Err(kind) => return Err(ScriptFault::at_head(kind)),
    };
    match read_script(alloc, &bytes) {
        Ok(script) => run_steps(alloc, &script, writer, progress),
        Err(fault) => Err(fault),
    }
}

/// Runs the steps of a script, one after another.
fn run_steps<O: Write, P: Progress>(
    alloc: Global,
    script: &Script,
    writer: &mut O,
    progress: &mut P,
) -> Result<Played, ScriptFault>
    ensures { RunsSteps script.now (O.contents writer.old) (O.contents writer.new) result }
{
    match Stage::watched(alloc, &script.head, progress) {
        Ok(mut stage) => run_steps_at(alloc, script, &mut stage, writer, progress),
        Err(_) => Err(ScriptFault::at_head(ScriptKind::Memory)),
    }
}

/// Runs them from the stage of its head on.
fn run_steps_at<O: Write, P: Progress>(
    alloc: Global,
    script: &Script,
    stage: &mut Stage,
    writer: &mut O,
    progress: &mut P,
) -> Result<Played, ScriptFault>
    requires { stage.old ≡ start_of script.now.head }
    ensures { RunsSteps script.now (O.contents writer.old) (O.contents writer.new) result }
{
    let mut unread = String::new(alloc);
    let mut number: u32 = 0;
    for step in script.steps.as_slice() {
        number = number.saturating_add(1);
        progress.step(number, script.steps.as_slice().len());
        let telling = &mut Untold;
        match run_step(stage, &mut unread, number, step, writer, progress, telling) {
            Ok(Played::Whole) => {}
            Ok(Played::Unexpected) => return Ok(Played::Unexpected),
            Err(fault) => {
                let kind = fault.into();
                return Err(ScriptFault { kind, step: number });
            }
        }
    }
    Ok(Played::Whole)
}

/// Runs the step of this number, and writes what it prints. `unread` is what was printed since the last `expect`. Progress is told
/// what an `expect` finds, and the watcher of what happens, of each thing once and in order.
pub fn run_step<O: Write, P: Progress>(
    stage: &mut Stage,
    unread: &mut String,
    number: u32,
    step: &NamedStep,
    writer: &mut O,
    progress: &mut P,
    watcher: &mut dyn Watcher,
) -> Result<Played, RunFault>
    ensures { StepTells number (record { stage = stage.old; unread = string_bytes unread.old }) step.now (O.contents writer.old) (O.contents writer.new) result (record { stage = stage.new; unread = string_bytes unread.new }) (told watcher.old) (told watcher.new) }
{
    if let Step::Expect(expected) = &step.step {
        return compare(
            stage.alloc(),
            unread,
            number,
            expected.as_slice(),
            writer,
            progress,
        );
    }
    let before = stage.queue_length();
    let text = match stage.run(&step.step, writer, watcher) {
        Ok(text) => text,
        Err(fault) => return Err(fault),
    };
    match note(stage, unread, step, before, &text) {
        Ok(()) => Ok(Played::Whole),
        Err(_) => Err(RunFault::Memory),
    }
}

/// Notes what a step printed, and the message that it names, before which so many were queued.
fn note(
    stage: &mut Stage,
    unread: &mut String,
    step: &NamedStep,
    before: usize,
    text: &str,
) -> Result<(), AllocError>
    ensures named { OnOk result (stage.new ≡ after_naming before step.now stage.old) }
    ensures text { OnOk result (string_bytes unread.new ≡ string_bytes unread.old ++ text.now) }
{
    unread.push_str(text)?;
    stage.name(step, before)
}

/// Compares what was printed since the last `expect` with the lines of this one.
fn compare<O: Write, P: Progress>(
    alloc: Global,
    unread: &mut String,
    number: u32,
    expected: &[u8],
    writer: &mut O,
    progress: &mut P,
) -> Result<Played, RunFault>
    ensures { Compares number expected.now (string_bytes unread.old) (O.contents writer.old) (O.contents writer.new) result (string_bytes unread.new) }
{
    let Some(line) = differing_line(expected, unread.as_bytes()) else {
        unread.clear();
        return Ok(Played::Whole);
    };
    let text = line_of_unexpected(alloc, number, line)?;
    write_text(writer, &text)?;
    progress.unexpected(number, expected, unread.as_bytes());
    Ok(Played::Unexpected)
}

/// Writes the line of a fault, without memory. Where that write fails, this is the fault.
pub fn report<O: Write>(fault: ScriptFault, writer: &mut O) -> ScriptFault
    ensures { Reports fault (O.contents writer.old) (O.contents writer.new) result }
{
    if fault.kind == ScriptKind::Write {
        return fault;
    }
    match write_fault(writer, fault) {
        Ok(()) => fault,
        Err(_) => ScriptFault {
            kind: ScriptKind::Write,
            step: fault.step,
        },
    }
}
