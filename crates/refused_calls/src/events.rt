//! A driver of worlds: the events of a script, as they happen when it is played, happen to a world once more.

mod played;

use crate::common::rows::leading_of;
use crate::common::told::{begin, memory};
use crate::events::played::{Cast, events_of};
use anyhow::{Result, anyhow};
use host_types::{Config, ReplicaSet};
use lms_tree::Signer;
use script_text::Script;
use std::io::Read;
use std::sync::Arc;
use world_script::{
    Event, KeySources, Outcome, Report, WorldFault, are_listed, read_input, read_script, run_world,
};

/// Where no script is given: two requests of a client, and a timeout.
const SMALL: &str = "\
f = 1
k = 2
secret = \"0000000000000000000000000000000000000000000000000000000000000000\"
client = [{ id = 100, tenant = 1 }]
step = [
    { do = \"request\", client = 100, call = 0 },
    { do = \"deliver\" },
    { do = \"request\", client = 100, call = 1 },
    { do = \"deliver\" },
    { do = \"timeout\", at = [2] },
    { do = \"deliver\" },
]
";

/// The events of the script on standard input.
pub(crate) fn print_read(rt: &HostRuntime) -> Result<()> {
    let bytes = read_input(rt.alloc(), &mut rt.reader());
    match bytes {
        Ok(bytes) => print_events(rt, &bytes),
        Err(kind) => Err(anyhow!("{kind}")),
    }
}

/// The events of a small script.
pub(crate) fn print_small(rt: &HostRuntime) -> Result<()> {
    print_events(rt, SMALL.as_bytes())
}

/// Prints what the replicas of a script do under its events.
fn print_events(rt: &HostRuntime, bytes: &[u8]) -> Result<()> {
    match read_script(rt.alloc(), bytes) {
        Ok(script) => print_script(rt, &script),
        Err(fault) => Err(anyhow!("{fault}")),
    }
}

fn print_script(rt: &HostRuntime, script: &Script) -> Result<()> {
    let sources = KeySources::new(rt.alloc(), &script.head)?;
    let events = events_of(rt.alloc(), script, &sources)?;
    let Cast {
        config,
        faulty,
        signers,
    } = Cast::new(rt.alloc(), &script.head, &sources)?;
    print_world(rt, &config, &faulty, signers, &events)
}

/// The signers are those of the correct replicas.
fn print_world(
    rt: &HostRuntime,
    config: &Arc<Config>,
    faulty: &ReplicaSet,
    signers: Vec<Signer>,
    events: &[Event],
) -> Result<()> {
    if !are_listed(config, faulty, &signers) {
        return Err(anyhow!("a signer's key is not listed"));
    }
    begin(rt)?;
    print_run(rt, run_world(rt.alloc(), config, faulty, signers, events))
}

/// Prints what came of a run.
fn print_run(rt: &HostRuntime, run: Result<Report, WorldFault>) -> Result<()> {
    match run {
        Ok(report) => print_report(rt, &report),
        Err(WorldFault::Memory) => memory(rt),
        Err(fault) => Err(fault.into()),
    }
}

/// Prints of each correct replica its halt, if it has one, and then its rows.
fn print_report(rt: &HostRuntime, report: &Report) -> Result<()> {
    for outcome in report.outcomes() {
        print_outcome(rt, outcome)?;
    }
    Ok(())
}

fn print_outcome(rt: &HostRuntime, outcome: &Outcome) -> Result<()> {
    let id = outcome.id.0;
    if let Some(halt) = outcome.halted {
        println!(rt; "replica {id} halts {halt}")?;
    }
    for row in &outcome.rows {
        println!(rt; "replica {id} row {:016x}", leading_of(row))?;
    }
    Ok(())
}
