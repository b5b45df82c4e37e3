//! Hosts that go on, and what they tell where they don't.

ghost use Rattle.std.specs.Prelude.{◌≡◌, ◌≤◌};

use crate::gates::TURNS;
use crate::place::{
    CLIENT, Group, Place, call_it, four_replicas, group_of, install, session_of, spend,
};
use host_script::{CallFault, Halt, Host, Session, Ticker, call_or_idle, call_or_stuck};
use host_types::{Bytes, ClientId, Config, Gate, ReplicaId};
use lms_tree::Signer;
use std::alloc::{AllocError, Global};
use std::sync::{Arc, Wait};
use std::test::Fail;
use std::thread;
use std::thread::Threads;
use std::time::{Clock, Duration};

/// Nobody watches.
#[derive(Drop)]
struct NoGate;

impl Gate for NoGate {
    fn step(&self, who: u32) {
        let _ = who;
    }
}

// A host whose journals have room for so many rows, with so many openers for each replica.
fn begin<R: Threads + Wait + Copy + Send + Sync + 'static>(
    rt: &R,
    alloc: Global,
    config: &Arc<Config>,
    signers: Vec<Signer>,
    limit: u32,
    openers: u8,
) -> Result<Arc<Host>, Fail>
    requires limit { (1 ≤ limit) × (limit ≤ 65536) }
    requires openers { (1 ≤ openers) × (openers ≤ 4) }
{
    let gate = Arc::new(alloc, NoGate)?;
    let host = Host::start(rt, alloc, config, signers, limit, openers, gate)?;
    Ok(Arc::new(alloc, host)?)
}

fn tick_at<R: Wait>(rt: &R, host: &Host, id: u8) -> Result<(), Fail> {
    if id >= host.config().replica_count() {
        return Err(Fail::new("no such replica"));
    }
    host.tick(rt, ReplicaId(id))?;
    Ok(())
}

// A session of a host's client.
#[derive(Drop)]
struct Caller {
    host: Arc<Host>,
    session: Session,
    ghost same: { session.config ≡ host.value.config },
}

impl Caller {
    fn new(
        alloc: Global,
        host: &Arc<Host>,
        client: ClientId,
        signer: Signer,
    ) -> Result<Caller, Fail> {
        let session = session_of(alloc, host.config(), client, signer)?;
        let host = Arc::try_clone(host)?;
        Ok(Caller { host, session })
    }

    // The first byte of the result of a call, or none where no reply can come.
    fn call<R: Wait + Clock>(&mut self, rt: &R, alloc: Global, op: Bytes) -> Option<u8> {
        if op.as_slice().len() > 1_000 {
            return None;
        }
        match call_or_idle(rt, alloc, &self.host, &mut self.session, op) {
            Ok(reply) => reply.result.as_slice().last().copied(),
            Err(_) => None,
        }
    }

    // Whether an installation and so many calls are answered with what was called.
    fn call_all<R: Wait + Clock>(
        &mut self,
        rt: &R,
        alloc: Global,
        calls: u8,
    ) -> Result<bool, AllocError> {
        let mut all = self.call(rt, alloc, install(alloc)?) == Some(0);
        for _ in 0..calls {
            all = self.call(rt, alloc, call_it(alloc)?) == Some(7) && all;
        }
        Ok(all)
    }

    // The fault of the first of so many calls that ends without a reply.
    fn first_fault<R: Wait + Clock>(
        &mut self,
        rt: &R,
        alloc: Global,
        calls: u8,
    ) -> Result<Option<CallFault>, Fail> {
        for _ in 0..calls {
            if let Err(fault) = call_or_stuck(
                rt,
                alloc,
                &self.host,
                &mut self.session,
                install(alloc)?,
            ) {
                return Ok(Some(fault));
            }
        }
        Ok(None)
    }
}

// Whether clients that call from threads of their own, so often each, are all answered.
fn all_answered<R: Threads + Wait + Clock + Copy + Send + Sync + 'static>(
    rt: &R,
    alloc: Global,
    host: &Arc<Host>,
    clients: Vec<Signer>,
    calls: u8,
) -> Result<bool, Fail> {
    let mut crew = Vec::new(alloc);
    let mut id = CLIENT.0;
    for signer in clients {
        let caller = Caller::new(alloc, host, ClientId(id), signer)?;
        let rt = *rt;
        let job = move || {
            let mut caller = caller;
            matches!(caller.call_all(&rt, alloc, calls), Ok(true))
        };
        crew.push(thread::spawn(&rt, job)?)?;
        id = id.saturating_add(1);
    }
    let mut all = true;
    while let Some(thread) = crew.pop() {
        all = thread.join(rt) && all;
    }
    Ok(all)
}

// Waits until each replica has executed so many requests; false where it gives up.
fn have_executed<R: Wait + Clock>(rt: &R, host: &Host, many: u64) -> bool {
    for _ in 0..TURNS {
        let all = (0..host.config().replica_count()).all(|id| executed(rt, host, id) >= many);
        if all {
            return true;
        }
        thread::sleep(rt, Duration::from_millis(1));
    }
    false
}

fn executed<R: Wait>(rt: &R, host: &Host, id: u8) -> u64 {
    match host.status(rt, ReplicaId(id)) {
        Some(status) => status.executed.0,
        None => 0,
    }
}

fn halt_of<R: Wait>(rt: &R, host: &Host, id: u8) -> Option<Halt> {
    host.status(rt, ReplicaId(id))?.halted
}

// Waits until a replica has halted; none where it gives up.
fn wait_for_halt<R: Wait + Clock>(rt: &R, host: &Host, id: u8) -> Option<Halt> {
    for _ in 0..TURNS {
        if let Some(halt) = halt_of(rt, host, id) {
            return Some(halt);
        }
        thread::sleep(rt, Duration::from_millis(1));
    }
    None
}

fn wanted(holds: bool, why: &'static str) -> Result<(), Fail> {
    if holds { Ok(()) } else { Err(Fail::new(why)) }
}

#[test]
fn two_clients_of_two_tenants_are_answered(rt: HostRuntime) -> Result<(), Fail> {
    let alloc = rt.alloc();
    let Group {
        config,
        signers,
        clients,
    } = group_of(alloc, 8, 2)?;
    let host = begin(&rt, alloc, &config, signers, 65_536, 1)?;
    let answered = all_answered(&rt, alloc, &host, clients, 1)?;
    let executed = have_executed(&rt, &host, 4);
    let journals = host.close(&rt)?.len();
    wanted(
        answered && executed && journals == 4,
        "a call without its reply, or a replica that lags",
    )
}

// With a Checkpoint at each number and several openers, votes overtake the Checkpoints by which their number comes between a
// replica's marks.
#[test]
fn a_host_whose_votes_come_early_goes_on(rt: HostRuntime) -> Result<(), Fail> {
    let alloc = rt.alloc();
    let Group {
        config,
        signers,
        clients,
    } = group_of(alloc, 1, 4)?;
    let host = begin(&rt, alloc, &config, signers, 65_536, 4)?;
    let answered = all_answered(&rt, alloc, &host, clients, 10)?;
    let agreed = host.close(&rt).is_ok();
    wanted(answered && agreed, "the host stops")
}

#[test]
fn a_full_journal_halts_its_replica(rt: HostRuntime) -> Result<(), Fail> {
    let alloc = rt.alloc();
    let Place {
        config,
        signers,
        ..
    } = four_replicas(alloc)?;
    let host = begin(&rt, alloc, &config, signers, 1, 1)?;
    tick_at(&rt, &host, 3)?;
    tick_at(&rt, &host, 3)?;
    let halt = wait_for_halt(&rt, &host, 3);
    let halts = host.close_with_halts(&rt)?.halts;
    let full = Some(Halt::JournalFull);
    wanted(
        halt == full && halts.len() == 4 && halts[3] == full && halts[0].is_none(),
        "not JournalFull at replica 3 alone",
    )
}

#[test]
fn calls_of_a_host_that_fills_end(rt: HostRuntime) -> Result<(), Fail> {
    let alloc = rt.alloc();
    let Place {
        config,
        signers,
        client,
    } = four_replicas(alloc)?;
    let host = begin(&rt, alloc, &config, signers, 40, 1)?;
    let mut caller = Caller::new(alloc, &host, CLIENT, Box::into_inner(client))?;
    let fault = caller.first_fault(&rt, alloc, 30)?;
    let executed = executed(&rt, &host, 0);
    let stuck = host.is_stuck();
    host.close(&rt)?;
    wanted(
        fault == Some(CallFault::Stuck) && stuck && executed > 2,
        "not Stuck behind some replies",
    )
}

#[test]
fn spent_replicas_are_told(rt: HostRuntime) -> Result<(), Fail> {
    let alloc = rt.alloc();
    let mut place = four_replicas(alloc)?;
    for signer in place.signers.iter_mut() {
        spend(signer, 32)?;
    }
    let Place {
        config,
        signers,
        client,
    } = place;
    let host = begin(&rt, alloc, &config, signers, 65_536, 1)?;
    for id in 0..4u8 {
        tick_at(&rt, &host, id)?;
    }
    let mut caller = Caller::new(alloc, &host, CLIENT, Box::into_inner(client))?;
    let fault = caller.first_fault(&rt, alloc, 1)?;
    let halt = halt_of(&rt, &host, 2);
    host.close(&rt)?;
    wanted(
        fault == Some(CallFault::Stuck) && halt == Some(Halt::Exhausted),
        "not Stuck, or another halt than Exhausted",
    )
}

#[test]
fn a_ticker_brings_the_next_view(rt: HostRuntime) -> Result<(), Fail> {
    let alloc = rt.alloc();
    let mut place = four_replicas(alloc)?;
    if let Some(primary) = place.signers.first_mut() {
        spend(primary, 32)?;
    }
    let Place {
        config,
        signers,
        client,
    } = place;
    let host = begin(&rt, alloc, &config, signers, 65_536, 1)?;
    let ticker = Ticker::start(&rt, alloc, &host, Duration::from_millis(1000))?;
    let mut caller = Caller::new(alloc, &host, CLIENT, Box::into_inner(client))?;
    let fault = caller.first_fault(&rt, alloc, 2)?;
    ticker.stop(&rt);
    let halt = halt_of(&rt, &host, 0);
    host.close(&rt)?;
    wanted(
        fault.is_none() && halt == Some(Halt::Exhausted),
        "a call without a reply",
    )
}
