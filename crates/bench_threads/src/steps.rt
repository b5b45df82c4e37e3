//! Steps of a replica, alone and under the lock of a station.

ghost use Rattle.std.specs.Prelude.{◌≡◌, ◌<◌, IfOk, IsSomeAnd};
ghost use Rattle.host_types.specs.Configuration.{replicas_for};
ghost use Rattle.lms_tree.specs.Keys.{IsKeyOf};
ghost use Rattle.pbft_codec.specs.declared.signed.Role.TheVariants as roles;
ghost use Rattle.seal.specs.Signers.{key_of};

use crate::calls::{Run, Setup};
use anyhow::{Result, anyhow};
use bench_common::members::signers;
use bench_common::{Measures, NoGate, ProcessorTime};
use host_client::{Input, Named, Replica, Station};
use host_types::{Config, ReplicaId};
use lms_tree::Signer;
use seal::Checked;
use std::alloc::Global;
use std::marker::Brand;
use std::sync::ledger::Blank;
use std::sync::{Arc, Wait};
use std::thread::Threads;
use std::time::CpuClock;

/// The backup whose steps are made again.
const BACKUP: ReplicaId = ReplicaId(1);

/// The messages that the backup took in a run.
pub(crate) fn messages_of(alloc: Global, run: &Run) -> Result<Vec<Checked>> {
    let mut messages = Vec::new(alloc);
    for (id, rows) in &run.journals {
        if *id == BACKUP {
            for row in rows {
                if let Input::Message(message) = row.input() {
                    messages.push(message.copy()?)?;
                }
            }
        }
    }
    Ok(messages)
}

/// The backup's signer, whose key is listed.
fn backup(alloc: Global, setup: Setup, config: &Arc<Config>) -> Result<Signer>
    ensures { IfOk result (λ signer. IsSomeAnd (key_of config.now.value roles.Replica 1) (λ key. IsKeyOf key signer)) }
{
    let Some(signer) = signers(alloc, setup.height, BACKUP.0, 1)?.pop() else {
        return Err(anyhow!("there is no such replica"));
    };
    match config.replica_key(BACKUP) {
        Some(key) if *key == signer.public_key() => Ok(signer),
        _ => Err(anyhow!("the signer's key is not listed")),
    }
}

/// The processor's time in which a replica takes messages, in nanoseconds.
pub(crate) fn nanoseconds_alone(
    rt: &impl Measures,
    setup: Setup,
    config: &Arc<Config>,
    messages: &[Checked],
) -> Result<u128> {
    let alloc = rt.alloc();
    let signer = backup(alloc, setup, config)?;
    if BACKUP.0 >= config.replica_count() {
        return Err(anyhow!("there is no such replica"));
    }
    let mut replica = Replica::new(alloc, config, BACKUP, signer)?;
    nanoseconds_of_all(rt, &mut replica, config, messages)
}

fn nanoseconds_of_all(
    rt: &impl CpuClock,
    replica: &mut Replica,
    config: &Arc<Config>,
    messages: &[Checked],
) -> Result<u128>
    requires { replica.old.config ≡ config.now.value }
{
    let start = ProcessorTime::now(rt)?;
    for message in messages {
        take(replica, config, message)?;
    }
    Ok(start.nanoseconds(rt)?)
}

/// Has a replica take a message that is under its configuration.
fn take(replica: &mut Replica, config: &Arc<Config>, message: &Checked) -> Result<()>
    requires { replica.old.config ≡ config.now.value }
    ensures { replica.new.config ≡ config.now.value }
{
    if !message.under(config) {
        return Err(anyhow!("another configuration"));
    }
    replica.take(message)?;
    Ok(())
}

/// The same at a station.
pub(crate) fn nanoseconds_at_station<R: Measures + Wait + Threads + Sync>(
    rt: &R,
    setup: Setup,
    config: &Arc<Config>,
    messages: &[Checked],
) -> Result<u128> {
    let signer = backup(rt.alloc(), setup, config)?;
    if BACKUP.0 >= config.replica_count() {
        return Err(anyhow!("there is no such replica"));
    }
    let blank = Blank::new(65_536);
    nanoseconds_at::<Brand, R>(rt, blank, config, signer, messages)
}

fn nanoseconds_at<K: Named, R: Measures + Wait + Threads + Sync>(
    rt: &R,
    blank: Blank,
    config: &Arc<Config>,
    signer: Signer,
    messages: &[Checked],
) -> Result<u128>
    requires name { blank.name ≡ K.name }
    requires parts { (blank.parts ≡ K.parts) × (blank.parts ≡ 65536) }
    requires config { config.now.value ≡ K.config }
    requires id { 1 ≡ K.id }
    requires replica { 1 < replicas_for config.now.value.f }
    requires key { IsSomeAnd (key_of config.now.value roles.Replica 1) (λ key. IsKeyOf key signer) }
    requires signer { signer ≡ K.signer }
    requires limit { 65536 ≡ K.limit }
{
    let (station, seat) = Station::<K>::new(rt.alloc(), blank, config, BACKUP, signer, 65_536)?;
    let mut seat = seat;
    let start = ProcessorTime::now(rt)?;
    for message in messages {
        if !message.under(config) {
            return Err(anyhow!("another configuration"));
        }
        station.take(rt, &mut seat, message, &NoGate)?;
    }
    Ok(start.nanoseconds(rt)?)
}
