//! Calls through a host.

ghost use Rattle.std.specs.Prelude.{◌≡◌};

use crate::gates::{Held, TURNS, Watch};
use crate::place::{Place, call_it, four_replicas, install, session, spend};
use host_script::{Host, HostFault, Row, Session, SessionFault, call};
use host_types::{Bytes, Config, ReplicaId, Reply};
use lms_tree::Signer;
use std::alloc::Global;
use std::sync::atomic::{AtomicBool, Ordering};
use std::sync::{Arc, Wait};
use std::test::Fail;
use std::thread;
use std::thread::Threads;
use std::time::{Clock, Duration};

const LIMIT: u32 = 65_536;

// Calls with each operation, in a session of its own.
fn calls<R: Wait>(
    rt: &R,
    alloc: Global,
    host: &Host,
    client: Box<Signer>,
    ops: Vec<Bytes>,
) -> Result<Vec<Result<Reply, SessionFault>>, Fail> {
    let mut session = session(alloc, host.config(), Box::into_inner(client))?;
    calls_in(rt, alloc, host, &mut session, ops)
}

fn calls_in<R: Wait>(
    rt: &R,
    alloc: Global,
    host: &Host,
    session: &mut Session,
    ops: Vec<Bytes>,
) -> Result<Vec<Result<Reply, SessionFault>>, Fail>
    requires { session.old.config ≡ host.now.config }
{
    let mut replies = Vec::new(alloc);
    for op in ops {
        if op.as_slice().len() > 1_000 {
            return Err(Fail::new("a long operation"));
        }
        replies.push(call(rt, alloc, host, session, op))?;
    }
    Ok(replies)
}

// Closes a host once the calls are done, or so many turns are over.
fn watch<R: Wait + Clock>(
    rt: &R,
    host: &Host,
    done: &AtomicBool,
    turns: u64,
) -> Result<Vec<(ReplicaId, Vec<Row>)>, HostFault> {
    for _ in 0..turns {
        if done.load(Ordering::SeqCst) {
            break;
        }
        thread::sleep(rt, Duration::from_millis(1));
    }
    host.close(rt)
}

/// What calls answer beside a watcher, and the journals.
pub fn called<R: Threads + Wait + Clock + Copy + Send + Sync + Drop + 'static>(
    rt: &R,
    alloc: Global,
    signers: Vec<Signer>,
    place: (Arc<Config>, Box<Signer>),
    ops: Vec<Bytes>,
    turns: u64,
) -> Result<(Vec<Result<Reply, SessionFault>>, Vec<(ReplicaId, Vec<Row>)>), Fail> {
    let (config, client) = place;
    let gate = Arc::new(alloc, Watch::new(*rt, Held::No))?;
    let host = Host::start(rt, alloc, &config, signers, LIMIT, 2, gate)?;
    called_at(rt, alloc, &host, client, ops, turns)
}

// What calls of a host answer beside a watcher, and the journals.
fn called_at<R: Threads + Wait + Clock + Copy + Send + Sync + Drop + 'static>(
    rt: &R,
    alloc: Global,
    host: &Host,
    client: Box<Signer>,
    ops: Vec<Bytes>,
    turns: u64,
) -> Result<(Vec<Result<Reply, SessionFault>>, Vec<(ReplicaId, Vec<Row>)>), Fail> {
    let done = AtomicBool::new(false);
    let done = &done;
    let caller = move || {
        let replies = calls(rt, alloc, host, client, ops);
        done.store(true, Ordering::SeqCst);
        replies
    };
    let (replies, journals) = thread::join(rt, caller, move || watch(rt, host, done, turns));
    Ok((replies?, journals?))
}

// What calls answer beside a watcher.
fn answers<R: Threads + Wait + Clock + Copy + Send + Sync + Drop + 'static>(
    rt: &R,
    alloc: Global,
    signers: Vec<Signer>,
    place: (Arc<Config>, Box<Signer>),
    ops: Vec<Bytes>,
    turns: u64,
) -> Result<Vec<Result<Reply, SessionFault>>, Fail> {
    Ok(called(rt, alloc, signers, place, ops, turns)?.0)
}

// An installation, and a call of what it installs.
fn install_and_call(alloc: Global) -> Result<Vec<Bytes>, Fail> {
    let mut ops = Vec::new(alloc);
    ops.push(install(alloc)?)?;
    ops.push(call_it(alloc)?)?;
    Ok(ops)
}

// Whether these are the results of an installation and of a call that gives 7.
fn are_installed_and_7(replies: &[Result<Reply, SessionFault>]) -> bool {
    let [Ok(installed), Ok(called)] = replies else {
        return false;
    };
    let procedure: &[u8] = &[0, 0, 0, 0, 0];
    let seven: &[u8] = &[0, 0, 0, 0, 0, 0, 0, 0, 7];
    installed.result.as_slice() == procedure && called.result.as_slice() == seven
}

#[test]
fn calls_are_answered(rt: HostRuntime) -> Result<(), Fail> {
    let Place {
        config,
        signers,
        client,
    } = four_replicas(rt.alloc())?;
    let ops = install_and_call(rt.alloc())?;
    let replies = answers(&rt, rt.alloc(), signers, (config, client), ops, TURNS)?;
    if are_installed_and_7(&replies) {
        Ok(())
    } else {
        Err(Fail::new("another result"))
    }
}

// Four replicas whose keys have no leaf left, and a client.
fn four_spent(alloc: Global) -> Result<Place, Fail> {
    let mut place = four_replicas(alloc)?;
    for signer in place.signers.iter_mut() {
        spend(signer, 32)?;
    }
    Ok(place)
}

fn two_installations(alloc: Global) -> Result<Vec<Bytes>, Fail> {
    let mut ops = Vec::new(alloc);
    for _ in 0..2 {
        ops.push(install(alloc)?)?;
    }
    Ok(ops)
}

#[test]
fn a_call_that_waits_at_close_has_no_quorum(rt: HostRuntime) -> Result<(), Fail> {
    let Place {
        config,
        signers,
        client,
    } = four_spent(rt.alloc())?;
    let ops = two_installations(rt.alloc())?;
    let replies = answers(&rt, rt.alloc(), signers, (config, client), ops, 500)?;
    match replies.as_slice() {
        [Err(SessionFault::NoQuorum), Err(SessionFault::Closed)] => Ok(()),
        _ => Err(Fail::new("not NoQuorum and then Closed")),
    }
}
