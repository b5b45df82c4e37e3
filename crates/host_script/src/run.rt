//! A script for running threads, from a reader to a writer.

use crate::group::{Audited, Group, StepFault};
use crate::told::{InWords, Telling};
use host_client::CallFault;
use std::alloc::Global;
use std::io::{Read, Write};
use std::sync::Wait;
use std::thread::Threads;
use std::time::Clock;
use world_script::{
    Progress, Script, ScriptFault, ScriptKind, Step, Unwatched, read_input, read_thread_script,
    report, write_text,
};

/// Reads a script to the end of the reader, runs its replicas in threads of their own, and writes the line
/// of each reply that a client accepts; at the end the line of an audit of the replicas' journals. Each
/// request waits until its reply is accepted. Where none can come any more, since more than f replicas have
/// halted or nothing is under way, the script ends there, with the audit of what ran. A fault's line is
/// written too, but for that of a failed write.
pub fn run_threads<R: Threads + Wait + Clock + Copy + Send + Sync + 'static, I: Read, O: Write>(
    rt: &R,
    alloc: Global,
    reader: &mut I,
    writer: &mut O,
) -> Result<Audited, ScriptFault> {
    run_threads_watched(rt, alloc, reader, writer, &mut Unwatched)
}

/// Does the same, and tells how many requests are answered of all.
pub fn run_threads_watched<
    R: Threads + Wait + Clock + Copy + Send + Sync + 'static,
    I: Read,
    O: Write,
    P: Progress,
>(
    rt: &R,
    alloc: Global,
    reader: &mut I,
    writer: &mut O,
    progress: &mut P,
) -> Result<Audited, ScriptFault> {
    match read_whole(alloc, reader) {
        Ok(script) => run_threads_read(rt, alloc, &script, writer, progress),
        Err(fault) => Err(report(fault, writer)),
    }
}

/// Reads a script to the end of the reader.
fn read_whole<I: Read>(alloc: Global, reader: &mut I) -> Result<Script, ScriptFault> {
    match read_input(alloc, reader) {
        Ok(bytes) => read_thread_script(alloc, &bytes),
        Err(kind) => Err(ScriptFault::at_head(kind)),
    }
}

/// Does the same with a script that was read, with the files that it names.
pub fn run_threads_read<
    R: Threads + Wait + Clock + Copy + Send + Sync + 'static,
    O: Write,
    P: Progress,
>(
    rt: &R,
    alloc: Global,
    script: &Script,
    writer: &mut O,
    progress: &mut P,
) -> Result<Audited, ScriptFault> {
    match run_threads_told(rt, alloc, &InWords, script, writer, progress) {
        Ok(audited) => Ok(audited),
        Err(fault) => Err(report(fault, writer)),
    }
}

/// Does the same with the lines that are made of what it tells, and writes no line of a fault.
pub fn run_threads_told<
    R: Threads + Wait + Clock + Copy + Send + Sync + 'static,
    T: Telling,
    O: Write,
    P: Progress,
>(
    rt: &R,
    alloc: Global,
    telling: &T,
    script: &Script,
    writer: &mut O,
    progress: &mut P,
) -> Result<Audited, ScriptFault> {
    match Group::start(rt, alloc, &script.head) {
        Ok(group) => run_steps(rt, group, script, telling, writer, progress),
        Err(_) => Err(ScriptFault::at_head(ScriptKind::Memory)),
    }
}

// Runs the steps, and audits. Where a step has a fault, the replicas are stopped all the same.
fn run_steps<R: Wait + Clock, T: Telling, O: Write, P: Progress>(
    rt: &R,
    mut group: Group,
    script: &Script,
    telling: &T,
    writer: &mut O,
    progress: &mut P,
) -> Result<Audited, ScriptFault> {
    let mut number: u32 = 0;
    let all = count_requests(script);
    let mut answered: u64 = 0;
    for step in script.steps.as_slice() {
        number = number.saturating_add(1);
        let kind = match group.run(rt, &step.step, telling) {
            Ok(line) => write_line(writer, &line),
            Err(StepFault::Unanswered(fault)) => {
                return end_unanswered(rt, &group, fault, number, telling, writer);
            }
            Err(StepFault::Memory) => Err(ScriptKind::Memory),
        };
        if let Err(kind) = kind {
            let _ = group.close(rt, telling);
            return Err(ScriptFault { kind, step: number });
        }
        if is_request(&step.step) {
            answered = answered.saturating_add(1);
            progress.requests(answered, all);
        }
    }
    end(rt, &group, number, telling, writer)
}

fn count_requests(script: &Script) -> u64 {
    let mut count: u64 = 0;
    for step in script.steps.as_slice() {
        if is_request(&step.step) {
            count = count.saturating_add(1);
        }
    }
    count
}

fn is_request(step: &Step) -> bool {
    matches!(step, Step::Request(_))
}

// Stops the replicas behind a request that can't be answered, and writes the line of the audit.
fn end_unanswered<R: Wait, T: Telling, O: Write>(
    rt: &R,
    group: &Group,
    fault: CallFault,
    step: u32,
    telling: &T,
    writer: &mut O,
) -> Result<Audited, ScriptFault> {
    let why = group.standings(rt, fault);
    match (end(rt, group, step, telling, writer)?, why) {
        (Audited::Agreed, Ok(why)) => Ok(Audited::Unanswered(why)),
        (Audited::Agreed, Err(_)) => Err(ScriptFault {
            kind: ScriptKind::Memory,
            step,
        }),
        (audited, _) => Ok(audited),
    }
}

// Stops the replicas behind the last step, and writes the line of the audit.
fn end<R: Wait, T: Telling, O: Write>(
    rt: &R,
    group: &Group,
    step: u32,
    telling: &T,
    writer: &mut O,
) -> Result<Audited, ScriptFault> {
    let Ok((audited, line)) = group.close(rt, telling) else {
        return Err(ScriptFault {
            kind: ScriptKind::Memory,
            step,
        });
    };
    match write_line(writer, &line) {
        Ok(()) => Ok(audited),
        Err(kind) => Err(ScriptFault { kind, step }),
    }
}

fn write_line<O: Write>(writer: &mut O, line: &str) -> Result<(), ScriptKind> {
    match write_text(writer, line) {
        Ok(()) => Ok(()),
        Err(_) => Err(ScriptKind::Write),
    }
}
