//! A script with a line for each thing that happens.

ghost use Rattle.std.specs.Prelude.{◌≡◌, ◌++◌, [], IfErr, IfOk, OnOk, string_bytes};
ghost use Rattle.std.specs.List.{flat_map};
ghost use Rattle.std.specs.Io.KnownBytes.{Appends};
ghost use Rattle.script_text.specs.Steps.{step_name};
ghost use Rattle.world_chart.specs.Lines.{began_line, happening_line};
ghost use Rattle.world_script.specs.Starts.{start_of};
ghost use Rattle.world_trace.specs.Telling.{AreNoted, PassesOn, RunsInMemory, TellsSome};
ghost use Rattle.world_trace.specs.Traces.{StepTraced, TracesScript, TracesSteps};

use crate::in_memory::run_in_memory;
use crate::placed::PlacedScript;
use crate::tracer::Tracer;
use script_text::{NamedStep, ScriptFault, ScriptKind, Step};
use std::alloc::{AllocError, Global};
use std::io::Write;
use world_chart::{Happening, line_of};
use world_script::{Played, Progress, RunFault, Stage, report, write_bytes, write_text};

/// Runs the steps of a script. Of each step it writes a line with its number, its place in the text and its name, one for each
/// thing that happened, and then what `run_script` writes; faults as `run_script` does. It tells how far the script is, and
/// what an `expect` finds.
pub fn trace_script<O: Write, P: Progress>(
    alloc: Global,
    placed: &PlacedScript,
    writer: &mut O,
    progress: &mut P,
) -> Result<Played, ScriptFault>
    ensures { TracesScript placed.now.lines.items placed.now.script (O.contents writer.old) (O.contents writer.new) result }
{
    match trace_steps(alloc, placed, writer, progress) {
        Ok(played) => Ok(played),
        Err(fault) => {
            let reported = report(fault, writer);
            Err(reported)
        }
    }
}

/// Runs the steps before the line of a fault is written.
fn trace_steps<O: Write, P: Progress>(
    alloc: Global,
    placed: &PlacedScript,
    writer: &mut O,
    progress: &mut P,
) -> Result<Played, ScriptFault>
    ensures { TracesSteps placed.now.lines.items placed.now.script (O.contents writer.old) (O.contents writer.new) result }
{
    match Stage::watched(alloc, &placed.script.head, progress) {
        Ok(stage) => {
            let mut traced = Traced::new(alloc, stage);
            trace_steps_at(placed, &mut traced, writer, progress)
        }
        Err(_) => Err(ScriptFault::at_head(ScriptKind::Memory)),
    }
}

/// Runs them from the stage of its head on.
fn trace_steps_at<O: Write, P: Progress>(
    placed: &PlacedScript,
    traced: &mut Traced,
    writer: &mut O,
    progress: &mut P,
) -> Result<Played, ScriptFault>
    requires stage { traced.old.stage ≡ start_of placed.now.script.head }
    requires unread { string_bytes traced.old.unread ≡ [] }
    ensures { TracesSteps placed.now.lines.items placed.now.script (O.contents writer.old) (O.contents writer.new) result }
{
    let steps = placed.script.steps.as_slice();
    let mut number: u32 = 0;
    for step in steps {
        number = number.saturating_add(1);
        progress.step(number, steps.len());
        match traced.step(number, placed.line_of(number), step, writer, progress) {
            Ok(Played::Whole) => {}
            Ok(Played::Unexpected) => return Ok(Played::Unexpected),
            Err(fault) => {
                let kind = fault.into();
                return Err(ScriptFault { kind, step: number });
            }
        }
    }
    Ok(Played::Whole)
}

/// A script that is traced.
#[derive(Drop)]
struct Traced {
    alloc: Global,
    stage: Stage,
    /// What was printed since the last `expect`.
    unread: String,
    tracer: Tracer,
}

impl Traced {
    fn new(alloc: Global, stage: Stage) -> Traced
        ensures stage { result.stage ≡ stage }
        ensures unread { string_bytes result.unread ≡ [] }
    {
        Traced {
            alloc,
            stage,
            unread: String::new(alloc),
            tracer: Tracer::new(alloc),
        }
    }

    /// Runs a step, and writes what happened and then what it prints. Where the step ends early, both are written as
    /// far as they came.
    fn step<O: Write, P: Progress>(
        &mut self,
        number: u32,
        place: Option<usize>,
        step: &NamedStep,
        writer: &mut O,
        progress: &mut P,
    ) -> Result<Played, RunFault>
        ensures { StepTraced number place (record { stage = self.old.stage; unread = string_bytes self.old.unread }) step.now (O.contents writer.old) (O.contents writer.new) result (record { stage = self.new.stage; unread = string_bytes self.new.unread }) }
    {
        let mut printed: Vec<u8> = Vec::new(self.alloc);
        self.tracer.clear();
        let mark = mark_of(self.alloc, number, place, &step.step)?;
        let ended = self.run(number, step, &mut printed, progress);
        if let Err(fault) = write_told(self.alloc, &mark, self.tracer.happened(), writer) {
            return Err(fault);
        }
        pass_on(ended, &printed, writer)
    }

    /// Runs a step, which prints into memory, and notes what happens.
    fn run<P: Progress>(
        &mut self,
        number: u32,
        step: &NamedStep,
        printed: &mut Vec<u8>,
        progress: &mut P,
    ) -> Result<Played, RunFault>
        ensures { RunsInMemory number (record { stage = self.old.stage; unread = string_bytes self.old.unread }) step.now printed.old.items printed.new.items result (record { stage = self.new.stage; unread = string_bytes self.new.unread }) (AreNoted self.old.tracer.happened.items) (AreNoted self.new.tracer.happened.items) }
    {
        run_in_memory(
            &mut self.stage,
            &mut self.unread,
            number,
            step,
            printed,
            progress,
            &mut self.tracer,
        )
    }
}

/// The mark of a step.
fn mark_of(
    alloc: Global,
    number: u32,
    place: Option<usize>,
    step: &Step,
) -> Result<String, AllocError>
    ensures { IfOk result (λ mark. string_bytes mark ≡ began_line number place (step_name step.now)) }
{
    let began = Happening::Began {
        step: number,
        line: place,
        name: step.name(),
    };
    line_of(alloc, &began)
}

/// Writes a step's mark, and a line for each thing that happened.
fn write_told<O: Write>(
    alloc: Global,
    mark: &str,
    happened: &[Happening],
    writer: &mut O,
) -> Result<(), RunFault>
    ensures whole { OnOk result (Appends (O.contents writer.old) (O.contents writer.new) (mark.now ++ flat_map happening_line happened.now)) }
    ensures early { IfErr result (TellsSome mark.now happened.now (O.contents writer.old) (O.contents writer.new)) }
{
    if let Err(fault) = write_text(writer, mark) {
        return Err(fault);
    }
    for happening in happened {
        let line = line_of(alloc, happening)?;
        if let Err(fault) = write_text(writer, &line) {
            return Err(fault);
        }
    }
    Ok(())
}

/// Writes what a step printed into memory. How it ended.
fn pass_on<O: Write>(
    ended: Result<Played, RunFault>,
    printed: &[u8],
    writer: &mut O,
) -> Result<Played, RunFault>
    ensures { PassesOn ended printed.now (O.contents writer.old) (O.contents writer.new) result }
{
    match write_bytes(writer, printed) {
        Ok(()) => ended,
        Err(fault) => Err(fault),
    }
}
