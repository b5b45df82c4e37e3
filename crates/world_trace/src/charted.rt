//! A script as a chart.

use crate::in_memory::run_in_memory;
use crate::placed::PlacedScript;
use crate::tracer::Tracer;
use script_text::{Script, ScriptFault, ScriptKind};
use std::alloc::{AllocError, Global};
use std::io::Write;
use world_chart::{Chart, Lanes};
use world_script::{Played, Progress, RunFault, Stage, report, write_bytes, write_text};

/// How a chart is written.
#[derive(Clone, Copy, Debug, PartialEq, Eq)]
pub enum ChartForm {
    /// A sequence diagram of Mermaid.
    Mermaid,
    /// An SVG that stands on its own.
    Svg,
}

/// Runs the steps of a script, and writes what happened as a chart, and none of the lines that the steps print. A script that
/// ends early has a chart of what happened until then, and, as in `run_script`, the line of its fault or of its `expect` behind it.
/// It tells how far the script is.
pub fn chart_script<O: Write, P: Progress>(
    alloc: Global,
    form: ChartForm,
    placed: &PlacedScript,
    writer: &mut O,
    progress: &mut P,
) -> Result<Played, ScriptFault> {
    match chart_steps(alloc, form, placed, writer, progress) {
        Ok(played) => Ok(played),
        Err(fault) => Err(report(fault, writer)),
    }
}

fn chart_steps<O: Write, P: Progress>(
    alloc: Global,
    form: ChartForm,
    placed: &PlacedScript,
    writer: &mut O,
    progress: &mut P,
) -> Result<Played, ScriptFault> {
    let script = &placed.script;
    let Ok(mut stage) = Stage::watched(alloc, &script.head, progress) else {
        return Err(ScriptFault::at_head(ScriptKind::Memory));
    };
    let mut tracer = Tracer::new(alloc);
    let mut line: Vec<u8> = Vec::new(alloc);
    let (number, ended) = run_all(alloc, placed, &mut stage, &mut tracer, &mut line, progress);
    match write_chart(alloc, form, script, &stage, &tracer, writer) {
        Ok(()) => {}
        Err(fault) => {
            let kind = fault.into();
            return Err(ScriptFault { kind, step: number });
        }
    }
    end(number, ended, &line, writer)
}

/// Runs the steps. The number of the last one that ran, and how it ended; `printed` is what it printed.
fn run_all<P: Progress>(
    alloc: Global,
    placed: &PlacedScript,
    stage: &mut Stage,
    tracer: &mut Tracer,
    printed: &mut Vec<u8>,
    progress: &mut P,
) -> (u32, Result<Played, RunFault>) {
    let mut unread = String::new(alloc);
    let mut number: u32 = 0;
    let steps = placed.script.steps.as_slice();
    for step in steps {
        number = number.saturating_add(1);
        progress.step(number, steps.len());
        printed.clear();
        let place = placed.line_of(number);
        if tracer.begin(number, place, step.step.name()).is_err() {
            return (number, Err(RunFault::Memory));
        }
        match run_in_memory(stage, &mut unread, number, step, printed, progress, tracer) {
            Ok(Played::Whole) => {}
            ended => return (number, ended),
        }
    }
    (number, Ok(Played::Whole))
}

/// How the script ends behind its chart.
fn end<O: Write>(
    step: u32,
    ended: Result<Played, RunFault>,
    printed: &[u8],
    writer: &mut O,
) -> Result<Played, ScriptFault> {
    match ended {
        Ok(Played::Whole) => Ok(Played::Whole),
        Ok(Played::Unexpected) => match write_bytes(writer, printed) {
            Ok(()) => Ok(Played::Unexpected),
            Err(fault) => {
                let kind = fault.into();
                Err(ScriptFault { kind, step })
            }
        },
        Err(fault) => {
            let kind = fault.into();
            Err(ScriptFault { kind, step })
        }
    }
}

fn write_chart<O: Write>(
    alloc: Global,
    form: ChartForm,
    script: &Script,
    stage: &Stage,
    tracer: &Tracer,
    writer: &mut O,
) -> Result<(), RunFault> {
    let text = chart_text(alloc, form, script, stage, tracer)?;
    write_text(writer, &text)
}

fn chart_text(
    alloc: Global,
    form: ChartForm,
    script: &Script,
    stage: &Stage,
    tracer: &Tracer,
) -> Result<String, AllocError> {
    let lanes = Lanes::new(alloc, stage.config(), script.head.faulty())?;
    let chart = Chart::new(alloc, lanes, tracer.happened(), tracer.accepted())?;
    match form {
        ChartForm::Mermaid => chart.mermaid(alloc),
        ChartForm::Svg => chart.svg(alloc),
    }
}
