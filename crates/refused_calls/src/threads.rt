//! Drivers of what runs in threads: a station's step, and the start of a host. Its calls of a host and of a station repeat their
//! contracts, which no other proof uses: a clause that says less fails here.

ghost use Rattle.std.specs.Prelude.{◌≡◌, ◌⊎◌, ◌↔◌, length, map, IfErr, IfOk, IsErrOf};
ghost use Rattle.host_types.specs.Configuration.{replicas_for};
ghost use Rattle.host_client.specs.Hosts.{AgreeAtClose, AreIdsFrom, HaveKeys};
ghost use Rattle.host_client.specs.HostFault.TheVariants as faults;

mod said;
mod station;

use crate::common::gate::NoGate;
use crate::common::members::{Group, taken};
use crate::common::told::begin;
use crate::threads::said::messages;
use crate::threads::station::take_all;
use anyhow::Result;
use host_client::{Host, HostFault};
use host_types::{Config, ReplicaId};
use lms_tree::Signer;
use std::alloc::Global;
use std::sync::{Arc, Wait};
use std::thread::Threads;
use world_script::Row;

/// The rows that a journal has room for.
const LIMIT: u32 = 1_000;

/// The openers of each replica.
const OPENERS: u8 = 1;

/// A replica at a station takes the message at which it executes two requests of different tenants, replies
/// to both and gives a Checkpoint.
pub(crate) fn print_take<R: Threads + Wait + Sync>(rt: &HostRuntime, threads: &R) -> Result<()> {
    let mut group = Group::new(rt.alloc())?;
    let messages = messages(rt.alloc(), &mut group)?;
    let signer = taken(&mut group.replicas, 1)?;
    take_all(rt, threads, &group.config, signer, &messages)
}

/// Starts a host, and closes it again. Where the start is refused, its threads have ended.
pub(crate) fn print_start<R: Threads + Wait + Copy + Send + Sync + Drop + 'static>(
    rt: &HostRuntime,
    threads: &R,
) -> Result<()> {
    let Group {
        config,
        replicas,
        clients: _,
    } = Group::new(rt.alloc())?;
    let gate = Arc::new(rt.alloc(), NoGate)?;
    begin(rt)?;
    match start(threads, rt.alloc(), &config, replicas, gate) {
        Ok(host) => print_close(rt, threads, &host),
        Err(fault) => {
            println!(rt; "refused {fault}")?;
            Ok(())
        }
    }
}

/// Closes a host. A refusal has closed nothing, and the call is made again.
fn print_close<R: Wait>(rt: &HostRuntime, threads: &R, host: &Host) -> Result<()> {
    println!(rt; "started")?;
    let journals = match close(threads, host) {
        Err(HostFault::Memory) => close(threads, host)?,
        closed => closed?,
    };
    println!(rt; "{} journals", journals.len())?;
    Ok(())
}

/// Starts a host with these signers.
fn start<R: Threads + Wait + Copy + Send + Sync + Drop + 'static>(
    threads: &R,
    alloc: Global,
    config: &Arc<Config>,
    signers: Vec<Signer>,
    gate: Arc<NoGate>,
) -> Result<Host, HostFault>
    ensures host { IfOk result (λ host. host ≡ record { config = config.now.value; leaves = map (λ s. s.next_leaf) signers.items }) }
    ensures fault { IfErr result (λ fault. (fault ≡ faults.WrongSigners) ⊎ (fault ≡ faults.Memory)) }
    ensures signers { IsErrOf result faults.WrongSigners ↔ (HaveKeys config.now.value.keys signers.items → ⊥) }
{
    Host::start(threads, alloc, config, signers, LIMIT, OPENERS, gate)
}

/// Closes a host, for the journals of its replicas.
fn close<R: Wait>(threads: &R, host: &Host) -> Result<Vec<(ReplicaId, Vec<Row>)>, HostFault>
    ensures agree { IfOk result (λ journals. AgreeAtClose host.now (map (λ p. p.1.items) journals.items)) }
    ensures ids { IfOk result (λ journals. AreIdsFrom 0 (map (λ p. p.0) journals.items)) }
    ensures many { IfOk result (λ journals. length journals.items ≡ replicas_for host.now.config.f) }
    ensures fault { IfErr result (λ fault. (fault ≡ faults.Closed) ⊎ (fault ≡ faults.Memory)) }
{
    host.close(threads)
}
