//! Hosts that eight clients call at the same time: whether each goes on until all calls are answered. Their keys are made once.

use crate::calls::{REPLICAS, Setup, Work, goes_on};
use anyhow::{Result, anyhow};
use bench_common::Measures;
use bench_common::members::{FIRST_CLIENT, signers_from, sources};
use lms_tree::{Height, KeySource};
use std::sync::Wait;
use std::thread::Threads;

/// The intervals between checkpoints, and the openers of each replica.
const KINDS: [(u8, u8); 6] = [(1, 1), (1, 4), (2, 1), (2, 4), (8, 1), (8, 4)];

/// How many hosts of each kind run where no number is given.
pub(crate) const HOSTS: u32 = 10;

/// The clients of a host.
const CLIENTS: u8 = 8;

/// The keys of all hosts: those of the replicas are of two levels.
#[derive(Drop)]
struct Keys {
    replicas: Vec<KeySource>,
    clients: Vec<KeySource>,
}

/// A host of eight clients, of which each calls twenty times.
fn host_of(interval: u8, openers: u8) -> Setup {
    Setup {
        height: Height::H5,
        interval,
        clients: CLIENTS,
        tenants: 1,
        calls: 20,
        work: Work::Put,
        openers,
    }
}

/// Runs so many hosts of each kind, and prints how many of them went on and have journals that agree. Another one is an error.
pub(crate) fn print_going<R: Measures + Threads + Wait + Copy + Send + Sync + Drop + 'static>(
    rt: &R,
    hosts: u32,
) -> Result<()> {
    let keys = Keys {
        replicas: sources(rt.alloc(), Some(Height::H5), 0, REPLICAS)?,
        clients: sources(rt.alloc(), None, FIRST_CLIENT, CLIENTS)?,
    };
    let mut stopped: u32 = 0;
    for (interval, openers) in KINDS {
        let went = many_going(rt, &keys, host_of(interval, openers), hosts)?;
        println!(rt;
            "hosts of eight clients, interval: {interval}, openers: {openers}: {went} of {hosts} went on"
        )?;
        stopped = stopped.saturating_add(hosts.saturating_sub(went));
    }
    if stopped == 0 {
        Ok(())
    } else {
        Err(anyhow!("a host stopped"))
    }
}

/// How many of so many hosts went on.
fn many_going<R: Measures + Threads + Wait + Copy + Send + Sync + Drop + 'static>(
    rt: &R,
    keys: &Keys,
    setup: Setup,
    hosts: u32,
) -> Result<u32> {
    let alloc = rt.alloc();
    let mut went: u32 = 0;
    for _ in 0..hosts {
        let replicas = signers_from(alloc, &keys.replicas)?;
        let clients = signers_from(alloc, &keys.clients)?;
        if goes_on(rt, setup, replicas, clients)? {
            went = went.saturating_add(1);
        }
    }
    Ok(went)
}
