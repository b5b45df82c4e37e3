//! The program: assembles BPF code, verifies it and runs it, alone and on replicas.
//!
//! ```sh
//! echo 'b700000007000000 9500000000000000' | bpf_host exec
//! ```
#![tactic(auto)]

mod check;
mod command;
mod counter;
mod explainer;
mod failure;
mod files;
mod line_objects;
mod objects;
mod outlet;
mod recorder;
mod row;
mod said;
mod scripts;
mod words;
mod worlds;

use command::{Console, run_explained};
use failure::Failure;
use said::report;
use std::io::{IsTerminal, Write};
use std::process::ExitCode;
use std::rt::{Env, Files};
use std::sync::Wait;
use std::thread::Threads;
use std::time::Clock;
use std::{env, io};

fn main(rt: HostRuntime) -> ExitCode {
    let stderr = rt.stderr();
    let console = Console {
        is_watched: stderr.is_terminal() && !rt.stdout().is_terminal(),
        is_typed: rt.stdin().is_terminal(),
    };
    let status = match run(&rt, &mut io::writer(&stderr), console) {
        Ok(status) => status,
        Err(error) => report(&Failure::from_words(&error), &mut io::writer(&rt)),
    };
    ExitCode::from(status)
}

/// Hands the words of the command line and the standard streams to the command. Words that can't be
/// read are an error.
fn run<R, E: Write>(rt: &R, errors: &mut E, console: Console) -> io::Result<u8>
where
    R: Files
        + Env
        + Input
        + Print
        + AllocGlobal
        + Threads
        + Wait
        + Clock
        + Copy
        + Send
        + Sync
        + Drop
        + 'static,
{
    let alloc = rt.alloc();
    let arguments: Vec<String> = env::args(rt)?.collect(alloc)?;
    let words: Vec<&str> = arguments.iter().map(|word| word.as_str()).collect(alloc)?;
    Ok(run_explained(
        rt,
        &words,
        &mut rt.reader(),
        &mut io::writer(rt),
        errors,
        console,
    ))
}
