//! Requests that a group executes, and what they cost.

use crate::replica::floor::{Floor, nanoseconds_of_hashes};
use crate::replica::group::{Group, REPLICAS, Setup};
use crate::replica::node::Node;
use crate::replica::traffic::Traffic;
use anyhow::{Result, anyhow};
use bench_common::operations::{PUT, installation, long_installation, put};
use bench_common::{Measures, ProcessorTime};
use pbft_codec::Body;
use seal::Checked;
use std::time::CpuClock;

/// The slots of a procedure that is never called.
pub(crate) const SLOTS: usize = 1000;

/// What requests cost: processor time in nanoseconds, and messages and leaves.
#[derive(Clone, Copy, Default)]
pub(crate) struct Cost {
    pub(crate) requests: u32,
    pub(crate) all: u128,
    pub(crate) signatures: u128,
    /// What it takes to hash the state once at each checkpoint of each replica.
    pub(crate) hashes: u128,
    pub(crate) opened: u64,
    pub(crate) signed: u64,
    /// The leaves that the primary took.
    pub(crate) primary: u32,
    /// The most leaves that a backup took.
    pub(crate) backup: u32,
}

/// Whether a reply says that a procedure was installed, with whatever number.
fn says_installed(message: &Checked) -> bool {
    match message.body() {
        Body::Reply(reply) => reply.result.as_slice().first() == Some(&0),
        _ => false,
    }
}

/// Whether it is a reply that the operation was done.
fn says_done(message: &Checked) -> bool {
    match message.body() {
        Body::Reply(reply) => {
            let result = reply.result.as_slice();
            !result.is_empty() && result.iter().all(|byte| *byte == 0)
        }
        _ => false,
    }
}

/// The leaves that the primary has left, and the fewest that a backup has.
fn leaves_left(group: &Group) -> (u32, u32) {
    let nodes = group.nodes();
    let primary = nodes.first().map_or(0, Node::leaves_left);
    let mut backup = u32::MAX;
    for node in nodes.iter().skip(1) {
        backup = backup.min(node.leaves_left());
    }
    (primary, backup)
}

/// A group that is being measured.
#[derive(Drop)]
struct Bench {
    group: Group,
    floor: Floor,
    /// How many procedures it has installed, each for a request that isn't measured.
    installed: u64,
    cost: Cost,
}

impl Bench {
    /// A group with its procedures, of which number 0 puts.
    fn new(rt: &impl Measures, setup: Setup) -> Result<Bench> {
        let alloc = rt.alloc();
        let mut bench = Bench {
            group: Group::new(alloc, setup)?,
            floor: Floor::new(alloc, setup.height)?,
            installed: 0,
            cost: Cost::default(),
        };
        bench.install_all(rt, setup.procedures)?;
        Ok(bench)
    }

    /// Installs the procedure that puts, and so many others.
    fn install_all(&mut self, rt: &impl Measures, procedures: u8) -> Result<()> {
        self.install(rt, installation(rt.alloc(), &PUT)?)?;
        for _ in 0..procedures {
            self.install(rt, long_installation(rt.alloc(), &PUT, SLOTS)?)?;
        }
        Ok(())
    }

    /// Executes an installation of the first client, which isn't measured.
    fn install(&mut self, rt: &impl CpuClock, op: Vec<u8>) -> Result<()> {
        self.installed = self.installed.saturating_add(1);
        self.group.ask(0, self.installed, op)?;
        let traffic = self.group.run()?;
        self.floor.nanoseconds(rt, self.group.config(), &traffic)?;
        require_installed(&traffic)
    }

    /// Executes the requests that are on their way, and adds what they cost.
    fn run(&mut self, rt: &impl CpuClock, requests: u32) -> Result<()> {
        let start = ProcessorTime::now(rt)?;
        let traffic = self.group.run()?;
        let taken = start.nanoseconds(rt)?;
        self.add(rt, requests, taken, &traffic)
    }

    /// Adds what so many requests took, and what this traffic takes alone.
    fn add(
        &mut self,
        rt: &impl CpuClock,
        requests: u32,
        taken: u128,
        traffic: &Traffic,
    ) -> Result<()> {
        let alone = self.floor.nanoseconds(rt, self.group.config(), traffic)?;
        require_done(traffic, requests)?;
        let cost = &mut self.cost;
        cost.requests = cost.requests.saturating_add(requests);
        cost.all = cost.all.saturating_add(taken);
        cost.signatures = cost.signatures.saturating_add(alone);
        cost.opened = cost.opened.saturating_add(traffic.delivered.len() as u64);
        cost.signed = cost.signed.saturating_add(traffic.signed.len() as u64);
        Ok(())
    }

    /// Executes so many requests that put. Each of so many clients sends one, and the next when that is
    /// done.
    fn run_all(&mut self, rt: &impl Measures, clients: u8, requests: u32) -> Result<()> {
        let mut sent = 0u8;
        for number in 0..requests {
            let time = self
                .installed
                .saturating_add(u64::from(number))
                .saturating_add(1);
            self.group.ask(sent, time, put(rt.alloc(), number)?)?;
            sent = sent.saturating_add(1);
            if sent >= clients || number.saturating_add(1) == requests {
                self.run(rt, u32::from(sent))?;
                sent = 0;
            }
        }
        Ok(())
    }
}

/// Whether each replica replied that it installed.
fn require_installed(traffic: &Traffic) -> Result<()> {
    if traffic.replies.len() as u64 == u64::from(REPLICAS)
        && traffic.replies.iter().all(says_installed)
    {
        Ok(())
    } else {
        Err(anyhow!("a procedure is not installed"))
    }
}

/// Whether each replica replied to so many requests that they are done.
fn require_done(traffic: &Traffic, requests: u32) -> Result<()> {
    let wanted = u64::from(requests).saturating_mul(u64::from(REPLICAS));
    if traffic.replies.len() as u64 == wanted && traffic.replies.iter().all(says_done) {
        Ok(())
    } else {
        Err(anyhow!("a request is not done"))
    }
}

/// Whether each replica executed so many requests.
fn require_executed(group: &Group, wanted: u64) -> Result<()> {
    if group.nodes().iter().all(|node| node.executed() == wanted) {
        Ok(())
    } else {
        Err(anyhow!("a replica has not executed all requests"))
    }
}

/// What it takes to hash the state once at each checkpoint of each replica.
fn nanoseconds_of_checkpoints(
    rt: &impl CpuClock,
    group: &Group,
    interval: u8,
    requests: u32,
) -> Result<u128> {
    let Some(node) = group.nodes().first() else {
        return Err(anyhow!("there is no replica"));
    };
    let checkpoints = requests / u32::from(interval).max(1);
    nanoseconds_of_hashes(
        rt,
        node.state()?,
        checkpoints.saturating_mul(u32::from(REPLICAS)),
    )
}

/// What so many requests cost that a group of this kind executes after its installations.
fn measured(rt: &impl Measures, bench: &mut Bench, setup: Setup, requests: u32) -> Result<Cost> {
    let before = leaves_left(&bench.group);
    bench.run_all(rt, setup.clients, requests)?;
    let wanted = bench.installed.saturating_add(u64::from(requests));
    require_executed(&bench.group, wanted)?;
    let after = leaves_left(&bench.group);
    Ok(Cost {
        primary: before.0.saturating_sub(after.0),
        backup: before.1.saturating_sub(after.1),
        hashes: nanoseconds_of_checkpoints(rt, &bench.group, setup.interval, requests)?,
        ..bench.cost
    })
}

/// What so many requests cost after the installations.
pub(crate) fn measure(rt: &impl Measures, setup: Setup, requests: u32) -> Result<Cost> {
    let mut bench = Bench::new(rt, setup)?;
    measured(rt, &mut bench, setup, requests)
}
