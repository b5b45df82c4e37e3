//! Replica 1 at a station.

ghost use Rattle.std.specs.Prelude.{◌≡◌, ◌<◌, true, IsSomeAnd};
ghost use Rattle.host_types.specs.Configuration.{replicas_for};
ghost use Rattle.lms_tree.specs.Keys.{IsKeyOf};
ghost use Rattle.pbft_codec.specs.declared.signed.Role.TheVariants as roles;
ghost use Rattle.seal.specs.Signers.{key_of};
ghost use Rattle.host_client.specs.Stations.{IsReported, counted_by};

use crate::common::gate::NoGate;
use crate::common::rows::leading_of;
use crate::common::told::{begin, is_kept, memory};
use anyhow::{Result, anyhow};
use host_client::{Named, Seat, Station};
use host_types::{Config, ReplicaId};
use lms_tree::Signer;
use seal::{Checked, open};
use std::marker::Brand;
use std::sync::ledger::Blank;
use std::sync::{Arc, Wait};
use std::thread::Threads;
use world_script::{Halt, Row, Status};

/// The replica at the station.
const REPLICA: ReplicaId = ReplicaId(1);

/// The rows and the parts of a station.
const PARTS: u32 = 65_536;

/// Whether the signer has the key that is listed for the replica.
fn is_listed(config: &Arc<Config>, signer: &Signer) -> bool
    ensures { result ≡ true → IsSomeAnd (key_of config.now.value roles.Replica 1) (λ key. IsKeyOf key signer.now) }
{
    match config.replica_key(REPLICA) {
        Some(key) => *key == signer.public_key(),
        None => false,
    }
}

/// The replica takes messages, the last of them where allocations may be refused.
pub(crate) fn take_all<R: Threads + Wait + Sync>(
    rt: &HostRuntime,
    threads: &R,
    config: &Arc<Config>,
    signer: Signer,
    messages: &[Vec<u8>],
) -> Result<()> {
    if REPLICA.0 >= config.replica_count() || !is_listed(config, &signer) {
        return Err(anyhow!("the replica is not listed"));
    }
    let blank = Blank::new(65_536);
    take_at::<Brand, R>(rt, threads, blank, config, signer, messages)
}

fn take_at<K: Named, R: Threads + Wait + Sync>(
    rt: &HostRuntime,
    threads: &R,
    blank: Blank,
    config: &Arc<Config>,
    signer: Signer,
    messages: &[Vec<u8>],
) -> Result<()>
    requires name { blank.name ≡ K.name }
    requires parts { (blank.parts ≡ K.parts) × (blank.parts ≡ 65536) }
    requires config { config.now.value ≡ K.config }
    requires id { 1 ≡ K.id }
    requires replica { 1 < replicas_for config.now.value.f }
    requires key { IsSomeAnd (key_of config.now.value roles.Replica 1) (λ key. IsKeyOf key signer) }
    requires signer { signer ≡ K.signer }
    requires limit { 65536 ≡ K.limit }
{
    let (station, seat) = Station::<K>::new(rt.alloc(), blank, config, REPLICA, signer, PARTS)?;
    let mut seat = seat;
    take_messages(rt, threads, config, &station, &mut seat, messages)
}

fn take_messages<K: Named, R: Threads + Wait + Sync>(
    rt: &HostRuntime,
    threads: &R,
    config: &Arc<Config>,
    station: &Station<K>,
    seat: &mut Seat<K>,
    messages: &[Vec<u8>],
) -> Result<()>
    requires { config.now.value ≡ K.config }
{
    let Some((last, first)) = messages.split_last() else {
        return Err(anyhow!("there is no message"));
    };
    for bytes in first {
        let message = open(rt.alloc(), config, bytes)?;
        take(threads, station, seat, &message)?;
    }
    let message = open(rt.alloc(), config, last)?;
    take_last(rt, threads, station, seat, &message)
}

/// Takes a message that was opened under the station's configuration.
fn take<K: Named, R: Threads + Wait + Sync>(
    threads: &R,
    station: &Station<K>,
    seat: &mut Seat<K>,
    message: &Checked,
) -> Result<Row, Halt>
    requires { message.now.config ≡ K.config }
    ensures counted { seat.new ≡ counted_by seat.old result }
{
    station.take(threads, seat, message, &NoGate)
}

/// Where the replica stands.
fn standing<K: Named, R: Wait>(threads: &R, station: &Station<K>, seat: &mut Seat<K>) -> Status
    ensures reported { IsReported K.config K.id K.signer K.limit seat.old.rows result }
    ensures seat { seat.new ≡ seat.old }
{
    station.report(threads, seat)
}

/// Takes the last message, and prints what comes of it. Where it is refused, the replica has stopped, and the
/// journal has no row more.
fn take_last<K: Named, R: Threads + Wait + Sync>(
    rt: &HostRuntime,
    threads: &R,
    station: &Station<K>,
    seat: &mut Seat<K>,
    message: &Checked,
) -> Result<()>
    requires { message.now.config ≡ K.config }
{
    let rows = seat.rows();
    begin(rt)?;
    match take(threads, station, seat, message) {
        Ok(row) => print_row(rt, &row),
        Err(Halt::Memory) => {
            memory(rt)?;
            let halted = standing(threads, station, seat).halted;
            is_kept(rt, "halt", halted == Some(Halt::Memory))?;
            is_kept(rt, "journal", seat.rows() == rows)
        }
        Err(halt) => Err(halt.into()),
    }
}

/// Prints what the replica did.
fn print_row(rt: &HostRuntime, row: &Row) -> Result<()> {
    let (outputs, done) = (row.outputs().len(), row.done().len());
    println!(rt;
        "row {:016x}: {outputs} messages, {done} executed",
        leading_of(row)
    )?;
    Ok(())
}
