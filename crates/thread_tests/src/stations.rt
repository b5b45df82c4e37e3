//! Stations by their seats.

ghost use Rattle.std.specs.Prelude.{◌≡◌, IfOk, IsSomeAnd, ◌<◌};
ghost use Rattle.lms_tree.specs.Keys.{IsKeyOf};
ghost use Rattle.pbft_codec.specs.declared.signed.Role.TheVariants as roles;
ghost use Rattle.seal.specs.Signers.{key_of};
ghost use Rattle.host_types.specs.Configuration.{replicas_for};

use crate::place::{Place, first_replica, four_replicas, install, is_listed, session};
use host_script::{Halt, Named, Seat, Station, Status};
use host_types::{Config, Gate, ReplicaId};
use lms_tree::Signer;
use seal::Checked;
use std::alloc::Global;
use std::marker::Brand;
use std::sync::atomic::{AtomicU64, Ordering};
use std::sync::ledger::Blank;
use std::sync::{Arc, Wait};
use std::test::Fail;
use std::thread;
use std::thread::Threads;

/// Nobody watches.
#[derive(Drop)]
struct NoGate;

impl Gate for NoGate {
    fn step(&self, who: u32) {
        let _ = who;
    }
}

/// Counts those who step at a station while another one does.
#[derive(Drop)]
struct Alone {
    inside: AtomicU64,
    beside: AtomicU64,
}

impl Gate for Alone {
    fn step(&self, who: u32) {
        let _ = who;
        if self.inside.fetch_add(1, Ordering::SeqCst) > 0 {
            self.beside.fetch_add(1, Ordering::SeqCst);
        }
        for _ in 0..100 {
            thread::yield_now();
        }
        self.inside.fetch_sub(1, Ordering::SeqCst);
    }
}

// Ten timeouts, and a message ten times.
fn twenty_steps<K: Named, R: Threads + Wait + Sync>(
    rt: &R,
    station: &Station<K>,
    seat: Seat<K>,
    message: &Checked,
    gate: &Alone,
) -> Seat<K>
    requires config { message.now.config ≡ K.config }
{
    let mut seat = seat;
    for _ in 0..10 {
        let _ = station.timeout(rt, &mut seat, gate);
        let _ = station.take(rt, &mut seat, message, gate);
    }
    seat
}

fn two_at_one_station<K: Named + Send + Sync, R: Threads + Wait + Sync>(
    rt: &R,
    alloc: Global,
    blank: Blank,
    config: &Arc<Config>,
    signer: Signer,
    message: &Checked,
    gate: &Alone,
) -> Result<(), Fail>
    requires name { blank.name ≡ K.name }
    requires parts { (blank.parts ≡ K.parts) × (blank.parts ≡ 65536) }
    requires config { config.now.value ≡ K.config }
    requires id { 0 ≡ K.id }
    requires replica { 0 < replicas_for config.now.value.f }
    requires key { IsSomeAnd (key_of config.now.value roles.Replica 0) (λ key. IsKeyOf key signer) }
    requires signer { signer ≡ K.signer }
    requires limit { 65536 ≡ K.limit }
    requires message { message.now.config ≡ K.config }
{
    let (station, seat) = Station::<K>::new(alloc, blank, config, ReplicaId(0), signer, 65_536)?;
    let mut seat = seat;
    let Some(other) = seat.another() else {
        return Err(Fail::new("no second seat"));
    };
    let shared = &station;
    let (seat, other) = thread::join(
        rt,
        move ||
            requires { message.now.config ≡ K.config }
        { twenty_steps(rt, shared, seat, message, gate) },
        move ||
            requires { message.now.config ≡ K.config }
        { twenty_steps(rt, shared, other, message, gate) },
    );
    let (mut seat, mut other) = (seat, other);
    let stand = stands_at_20(station.report(rt, &mut seat))
        && stands_at_20(station.report(rt, &mut other));
    let rows = seat.rows().saturating_add(other.rows());
    let kept = station.close(seat).len();
    if stand && rows == 40 && kept == 40 {
        Ok(())
    } else {
        Err(Fail::new("not twenty timeouts, and as many messages"))
    }
}

// Whether a replica waits for a NewView of view 20.
fn stands_at_20(status: Status) -> bool {
    status.view.0 == 20 && !status.active && status.halted.is_none()
}

// A request of the client, opened.
fn request(alloc: Global, config: &Arc<Config>, client: Box<Signer>) -> Result<Checked, Fail>
    ensures { IfOk result (λ c. c.config ≡ config.now.value) }
{
    let mut session = session(alloc, config, Box::into_inner(client))?;
    Ok(session.request(install(alloc)?)?)
}

// Steps of two threads at one station, none of which began while another was going on: the gate is called under the lock.
#[test]
fn two_threads_step_one_station(rt: HostRuntime) -> Result<(), Fail> {
    let alloc = rt.alloc();
    let Place {
        config,
        mut signers,
        client,
    } = four_replicas(alloc)?;
    signers.truncate(1);
    let Some(signer) = signers.pop() else {
        return Err(Fail::new("no signer"));
    };
    if !is_listed(&config, ReplicaId(0), &signer) || config.replica_count() == 0 {
        return Err(Fail::new("another key is listed"));
    }
    let message = request(alloc, &config, client)?;
    let gate = Alone {
        inside: AtomicU64::new(0),
        beside: AtomicU64::new(0),
    };
    two_at_one_station::<Brand, HostRuntime>(
        &rt,
        alloc,
        Blank::new(65_536),
        &config,
        signer,
        &message,
        &gate,
    )?;
    if gate.beside.load(Ordering::SeqCst) == 0 {
        Ok(())
    } else {
        Err(Fail::new("two threads step at the same time"))
    }
}

fn limited<K: Named, R: Wait>(
    rt: &R,
    alloc: Global,
    blank: Blank,
    config: &Arc<Config>,
    signer: Signer,
) -> Result<(), Fail>
    requires name { blank.name ≡ K.name }
    requires parts { (blank.parts ≡ K.parts) × (blank.parts ≡ 65536) }
    requires config { config.now.value ≡ K.config }
    requires id { 0 ≡ K.id }
    requires replica { 0 < replicas_for config.now.value.f }
    requires key { IsSomeAnd (key_of config.now.value roles.Replica 0) (λ key. IsKeyOf key signer) }
    requires signer { signer ≡ K.signer }
    requires limit { 1 ≡ K.limit }
{
    let (station, seat) = Station::<K>::new(alloc, blank, config, ReplicaId(0), signer, 1)?;
    let mut seat = seat;
    let first = station.timeout(rt, &mut seat, &NoGate);
    let second = station.timeout(rt, &mut seat, &NoGate);
    let third = station.timeout(rt, &mut seat, &NoGate);
    let is_full = first.is_ok()
        && halts_by(&second, Halt::JournalFull)
        && halts_by(&third, Halt::AlreadyHalted);
    let halted = station.report(rt, &mut seat).halted;
    if is_full && halted == Some(Halt::JournalFull) && seat.rows() == 1 {
        Ok(())
    } else {
        Err(Fail::new("not a row, JournalFull, which is reported, and AlreadyHalted"))
    }
}

fn halts_by<T>(answer: &Result<T, Halt>, halt: Halt) -> bool {
    match answer {
        Ok(_) => false,
        Err(other) => *other == halt,
    }
}

#[test]
fn a_journal_of_one_row_is_full(rt: HostRuntime) -> Result<(), Fail> {
    let alloc = rt.alloc();
    let (config, signer) = first_replica(alloc)?;
    if !is_listed(&config, ReplicaId(0), &signer) || config.replica_count() == 0 {
        return Err(Fail::new("another key is listed"));
    }
    limited::<Brand, HostRuntime>(&rt, alloc, Blank::new(65_536), &config, signer)
}
