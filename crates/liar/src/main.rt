//! A faulty replica and a faulty client that sign well whatever they like, for a correct replica that takes all
//! of it: far views and numbers, several digests for each, kind by kind. What the correct replica keeps of that
//! shows as memory.
//!
//!     liar 1000000
//!
//! The word is how many messages are sent. With no word a few of each kind are, by keys that are soon made.
#![tactic(auto)]

use crate::lie::TURNS;
use crate::members::Keys;
use crate::pair::Pair;
use anyhow::Result;
use bench_common::peak::peak;
use script_values::Kind;
use std::env;

mod lie;
mod members;
mod node;
mod pair;

/// How many kinds there are.
const COUNT: usize = 10;

/// The kinds in the order in which they are sent. Replicas sign all but requests.
const KINDS: [Kind; COUNT] = [
    Kind::PrePrepare,
    Kind::Prepare,
    Kind::Commit,
    Kind::Checkpoint,
    Kind::Fetch,
    Kind::Reply,
    Kind::Snapshot,
    Kind::NewView,
    Kind::Request,
    Kind::ViewChange,
];

/// After so many messages a line is printed.
const LINE: u64 = 10_000;

fn main(rt: HostRuntime) -> Result<()> {
    match env::args(&rt)?.nth(1) {
        Some(count) => print_soak(&rt, count.parse::<u64>()?),
        None => print_small(&rt),
    }
}

/// What has been sent, what came of it, and the memory that was in use before, in KiB.
#[derive(Clone, Copy)]
struct Tally {
    sent: u64,
    outputs: u64,
    before: u64,
}

impl Tally {
    fn new(before: u64) -> Tally {
        Tally {
            sent: 0,
            outputs: 0,
            before,
        }
    }

    /// Counts a message for which so many were given.
    fn count(&mut self, outputs: u64) {
        self.sent = self.sent.saturating_add(1);
        self.outputs = self.outputs.saturating_add(outputs);
    }

    /// Prints what is counted, once in so many messages.
    fn print_line(&self, rt: &HostRuntime) -> Result<()> {
        if self.sent % LINE == 0 {
            self.print(rt, "so far")?;
        }
        Ok(())
    }

    /// Prints what is counted, and the memory that each message takes on average, and each place.
    fn print(&self, rt: &HostRuntime, name: &str) -> Result<()> {
        let peak = peak(rt)?;
        let bytes = peak.saturating_sub(self.before).saturating_mul(1024);
        let each = bytes / self.sent.max(1);
        let place = bytes.saturating_mul(TURNS) / self.sent.max(1);
        println!(rt;
            "{name}: {} sent, {} outputs, peak {peak} KiB, {each} bytes a message, {place} a place",
            self.sent, self.outputs
        )?;
        Ok(())
    }
}

/// How many of all messages are of the kind with this index.
fn share(count: u64, index: usize) -> u64 {
    let kinds = COUNT as u64;
    count / kinds + u64::from((index as u64) < count % kinds)
}

/// Sends so many messages, and prints every 10,000 what came of them all, and behind each kind what came of its own.
fn print_soak(rt: &HostRuntime, count: u64) -> Result<()> {
    let mut pair = Pair::new(rt.alloc(), Keys::Many)?;
    send_kinds(rt, &mut pair, count)
}

/// Sends so many messages, their kinds in turn.
fn send_kinds(rt: &HostRuntime, pair: &mut Pair, count: u64) -> Result<()> {
    let mut all = Tally::new(peak(rt)?);
    for (index, kind) in KINDS.iter().enumerate() {
        send_kind(rt, pair, *kind, share(count, index), &mut all)?;
    }
    all.print(rt, "all")
}

/// Sends so many messages of a kind.
fn send_kind(
    rt: &HostRuntime,
    pair: &mut Pair,
    kind: Kind,
    count: u64,
    all: &mut Tally,
) -> Result<()> {
    let mut own = Tally::new(peak(rt)?);
    for index in 0..count {
        let outputs = pair.lie(kind, index)?;
        own.count(outputs);
        all.count(outputs);
        all.print_line(rt)?;
    }
    own.print(rt, kind.name())
}

/// Sends a few messages of each kind, and prints how many the correct replica gave for them.
fn print_small(rt: &HostRuntime) -> Result<()> {
    let mut pair = Pair::new(rt.alloc(), Keys::Few)?;
    send_few(rt, &mut pair)
}

fn send_few(rt: &HostRuntime, pair: &mut Pair) -> Result<()> {
    for kind in &KINDS {
        let outputs = outputs_for_few(pair, *kind)?;
        println!(rt; "{}: {TURNS} sent, {outputs} outputs", kind.name())?;
    }
    Ok(())
}

/// How many messages the correct replica gives for a few of this kind.
fn outputs_for_few(pair: &mut Pair, kind: Kind) -> Result<u64> {
    let mut outputs: u64 = 0;
    for index in 0..TURNS {
        outputs = outputs.saturating_add(pair.lie(kind, index)?);
    }
    Ok(outputs)
}
