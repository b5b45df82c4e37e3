//! Hosts: what is posted reaches the journals, and threads run beside one another.

ghost use Rattle.std.specs.Prelude.{◌≡◌, ◌≤◌};

use crate::gates::{Held, TURNS, Watch, wait_for_steps};
use crate::place::{CLIENT, Place, four_replicas, install, session};
use host_script::{Done, Host, HostFault, Input, Row, Session};
use host_types::{Bytes, ClientId, Config, ReplicaId};
use lms_tree::Signer;
use std::alloc::Global;
use std::sync::{Arc, Wait};
use std::test::Fail;
use std::thread;
use std::thread::Threads;
use std::time::{Clock, Duration};

/// The rows of a journal.
const LIMIT: u32 = 65_536;

fn fail(text: &'static str) -> Result<(), Fail> {
    Err(Fail::new(text))
}

// Whether a journal has a timeout.
fn has_timeout(rows: &[Row]) -> bool {
    rows.iter().any(|row| matches!(row.input(), Input::Timeout))
}

// A host of these replicas, which a proof drops in one step since it is boxed, and its gate.
fn begin<R: Threads + Wait + Clock + Copy + Send + Sync + Drop + 'static>(
    rt: &R,
    alloc: Global,
    config: &Arc<Config>,
    signers: Vec<Signer>,
    held: Held,
) -> Result<(Box<Host>, Arc<Watch<R>>), Fail> {
    begin_with(rt, alloc, config, signers, held, 1)
}

// Such a host with so many openers for each replica.
fn begin_with<R: Threads + Wait + Clock + Copy + Send + Sync + Drop + 'static>(
    rt: &R,
    alloc: Global,
    config: &Arc<Config>,
    signers: Vec<Signer>,
    held: Held,
    openers: u8,
) -> Result<(Box<Host>, Arc<Watch<R>>), Fail>
    requires openers { (1 ≤ openers) × (openers ≤ 4) }
{
    let gate = Arc::new(alloc, Watch::new(*rt, held))?;
    let shared = Arc::try_clone(&gate)?;
    let host = Host::start(rt, alloc, config, signers, LIMIT, openers, shared)?;
    Ok((Box::new(alloc, host)?, gate))
}

// Gives replica 3 a timeout, and closes the host. Whether that replica's journal has it, and no other's.
fn ticks<R: Clock + Drop, C: Clock + Wait>(
    rt: &C,
    host: &Host,
    gate: &Watch<R>,
) -> Result<bool, Fail> {
    tick_at(rt, host, 3)?;
    let seen = wait_for_steps(rt, gate, 3, 1);
    let journals = host.close(rt)?;
    let others = journals
        .iter()
        .take(3)
        .any(|journal| has_timeout(&journal.1));
    Ok(seen && journals.len() == 4 && has_timeout(&journals[3].1) && !others)
}

// Whether a closed host takes nothing more, and is not closed again.
fn takes_nothing<R: Wait>(rt: &R, alloc: Global, host: &Host) -> Result<bool, Fail> {
    let bytes = Bytes::from_vec(Vec::from_slice(alloc, b"late")?);
    if host.config().replica_count() != 4 {
        return Ok(false);
    }
    let posted = host.post(rt, ReplicaId(0), bytes);
    let ticked = host.tick(rt, ReplicaId(3));
    let closed = Err(HostFault::Closed);
    Ok(posted == closed && ticked == closed && host.close(rt).is_err())
}

#[test]
fn a_tick_is_in_the_journal(rt: HostRuntime) -> Result<(), Fail> {
    let Place {
        config,
        signers,
        ..
    } = four_replicas(rt.alloc())?;
    let (host, gate) = begin(&rt, rt.alloc(), &config, signers, Held::No)?;
    if !ticks(&rt, &host, &*gate)? {
        return fail("no timeout in replica 3's journal");
    }
    if !takes_nothing(&rt, rt.alloc(), &host)? {
        return fail("a closed host goes on");
    }
    Ok(())
}

// How often a message of these bytes is among the inputs of a journal.
fn times(rows: &[Row], bytes: &[u8]) -> usize {
    let mut count: usize = 0;
    for row in rows {
        if let Input::Message(message) = row.input() {
            if message.bytes() == bytes {
                count = count.saturating_add(1);
            }
        }
    }
    count
}

// The signed requests of so many installations.
fn requests(
    alloc: Global,
    client: Box<Signer>,
    config: &Arc<Config>,
    many: u8,
) -> Result<Vec<Vec<u8>>, Fail> {
    let mut session = session(alloc, config, Box::into_inner(client))?;
    requests_in(alloc, &mut session, many)
}

fn requests_in(alloc: Global, session: &mut Session, many: u8) -> Result<Vec<Vec<u8>>, Fail> {
    let mut requests = Vec::new(alloc);
    for _ in 0..many {
        let request = session.request(install(alloc)?)?;
        requests.push(Vec::from_slice(alloc, request.bytes())?)?;
    }
    Ok(requests)
}

fn post_to<R: Wait>(rt: &R, alloc: Global, host: &Host, to: u8, bytes: &[u8]) -> Result<(), Fail> {
    let bytes = Bytes::from_vec(Vec::from_slice(alloc, bytes)?);
    if to >= host.config().replica_count() {
        return Err(Fail::new("no such replica"));
    }
    host.post(rt, ReplicaId(to), bytes)?;
    Ok(())
}

fn tick_at<R: Wait>(rt: &R, host: &Host, id: u8) -> Result<(), Fail> {
    if id >= host.config().replica_count() {
        return Err(Fail::new("no such replica"));
    }
    host.tick(rt, ReplicaId(id))?;
    Ok(())
}

// Whether these rows are of these requests, each of them once.
fn has_each_once(rows: &[Row], requests: &[Vec<u8>]) -> bool {
    rows.len() == requests.len() && requests.iter().all(|request| times(rows, request) == 1)
}

// Posts twenty requests to replica 3, and closes the host. Whether that replica's journal has each once.
fn keeps_each_once<R: Clock + Drop, C: Clock + Wait>(
    rt: &C,
    alloc: Global,
    host: &Host,
    gate: &Watch<R>,
    requests: &[Vec<u8>],
) -> Result<bool, Fail> {
    for request in requests {
        post_to(rt, alloc, host, 3, request)?;
    }
    let seen = wait_for_steps(rt, gate, 3, 20);
    let journals = host.close(rt)?;
    Ok(seen && journals.len() == 4 && has_each_once(&journals[3].1, requests))
}

#[test]
fn twenty_posts_are_in_the_journal_each_once(rt: HostRuntime) -> Result<(), Fail> {
    let Place {
        config,
        signers,
        client,
    } = four_replicas(rt.alloc())?;
    let requests = requests(rt.alloc(), client, &config, 20)?;
    let (host, gate) = begin(&rt, rt.alloc(), &config, signers, Held::No)?;
    if !keeps_each_once(&rt, rt.alloc(), &host, &*gate, &requests)? || requests.len() != 20 {
        return fail("not twenty rows, of each request once");
    }
    Ok(())
}

// Posts the first request to replica 0, which the gate then holds, and now that request to the others and the second
// to replica 0. Whether replica 0 was about to step for both.
fn post_while_held<R: Clock + Drop, C: Clock + Wait>(
    rt: &C,
    alloc: Global,
    host: &Host,
    gate: &Watch<R>,
    requests: &[Vec<u8>],
) -> Result<bool, Fail> {
    let [first, second] = requests else {
        return Ok(false);
    };
    post_to(rt, alloc, host, 0, first)?;
    let begun = wait_for_steps(rt, gate, 0, 1);
    for id in 1..4u8 {
        post_to(rt, alloc, host, id, first)?;
    }
    post_to(rt, alloc, host, 0, second)?;
    Ok(begun && wait_for_steps(rt, gate, 0, 2))
}

// What the others and the openers do while the gate holds replica 0.
fn held<R: Threads + Wait + Clock + Copy + Send + Sync + Drop + 'static>(
    rt: &R,
    alloc: Global,
    held: Held,
) -> Result<(), Fail> {
    let Place {
        config,
        signers,
        client,
    } = four_replicas(alloc)?;
    let requests = requests(alloc, client, &config, 2)?;
    let (host, gate) = begin(rt, alloc, &config, signers, held)?;
    let seen = post_while_held(rt, alloc, &host, &*gate, &requests)?;
    let closed = host.close(rt).is_ok();
    if seen && closed && !gate.gave_up() {
        Ok(())
    } else {
        fail("replica 0 was held too long")
    }
}

#[test]
fn a_replica_steps_while_another_is_held(rt: HostRuntime) -> Result<(), Fail> {
    held(&rt, rt.alloc(), Held::UntilOneSteps)
}

#[test]
fn posts_are_opened_while_the_replica_is_held(rt: HostRuntime) -> Result<(), Fail> {
    held(&rt, rt.alloc(), Held::UntilTwoAreOpened)
}

// The first opening waits for the second, which takes another opener of the replica.
#[test]
fn two_openers_open_at_the_same_time(rt: HostRuntime) -> Result<(), Fail> {
    let Place {
        config,
        signers,
        client,
    } = four_replicas(rt.alloc())?;
    let requests = requests(rt.alloc(), client, &config, 2)?;
    let held = Held::OpenerUntilTheOther;
    let (host, gate) = begin_with(&rt, rt.alloc(), &config, signers, held, 2)?;
    for request in &requests {
        post_to(&rt, rt.alloc(), &host, 0, request)?;
    }
    let seen = wait_for_steps(&rt, &*gate, 0, 2);
    let closed = host.close(&rt).is_ok();
    if seen && closed && !gate.gave_up() {
        Ok(())
    } else {
        fail("one opener waits for the other")
    }
}

// Waits until a replica has executed a request; false where it gives up.
fn executes<R: Wait + Clock>(rt: &R, host: &Host, id: ReplicaId) -> bool {
    for _ in 0..TURNS {
        match host.status(rt, id) {
            Some(status) if status.executed.0 > 0 => return true,
            _ => thread::sleep(rt, Duration::from_millis(1)),
        }
    }
    false
}

// A replica asks the others for a request that it has a PrePrepare of, and is given it by them alone.
#[test]
fn a_replica_is_given_the_request_that_it_lacks(rt: HostRuntime) -> Result<(), Fail> {
    let Place {
        config,
        signers,
        client,
    } = four_replicas(rt.alloc())?;
    let requests = requests(rt.alloc(), client, &config, 1)?;
    let (host, _gate) = begin(&rt, rt.alloc(), &config, signers, Held::No)?;
    for request in &requests {
        for id in [0u8, 2, 3] {
            post_to(&rt, rt.alloc(), &host, id, request)?;
        }
    }
    let seen = executes(&rt, &host, ReplicaId(1));
    if seen && host.close(&rt).is_ok() {
        Ok(())
    } else {
        fail("replica 1 doesn't execute the request that it lacks")
    }
}

// How many requests the replicas executed.
fn executions(journals: &[(ReplicaId, Vec<Row>)]) -> usize {
    let mut count: usize = 0;
    for (_, rows) in journals {
        for row in rows {
            for done in row.done() {
                if let Done::Executed { .. } = done {
                    count = count.saturating_add(1);
                }
            }
        }
    }
    count
}

// How many messages a closed host has left for the client: at most so many, and then `Closed`.
fn replies_left<R: Wait>(rt: &R, host: &Host, most: usize) -> Result<usize, Fail> {
    for count in 0..=most {
        match host.receive(rt, CLIENT) {
            Ok(_) => {}
            Err(HostFault::Closed) => return Ok(count),
            Err(_) => return Err(Fail::new("another fault than Closed")),
        }
    }
    Err(Fail::new("more replies than executions"))
}

// Posts a request to all, and closes the host. Whether as many replies are left as there were executions.
fn leaves_the_replies<R: Clock + Drop, C: Clock + Wait>(
    rt: &C,
    alloc: Global,
    host: &Host,
    gate: &Watch<R>,
    requests: &[Vec<u8>],
) -> Result<bool, Fail> {
    let [request] = requests else {
        return Ok(false);
    };
    for id in 0..4u8 {
        post_to(rt, alloc, host, id, request)?;
    }
    let _ = wait_for_steps(rt, gate, 0, 7);
    let executions = executions(&host.close(rt)?);
    Ok(replies_left(rt, host, executions)? == executions)
}

// Whether a closed host has nothing for a client that isn't listed, and is not closed again.
fn is_over<R: Wait>(rt: &R, host: &Host) -> bool {
    matches!(host.receive(rt, ClientId(17)), Err(HostFault::Closed))
        && matches!(host.close(rt), Err(HostFault::Closed))
}

#[test]
fn a_closed_host_gives_the_replies_that_are_left(rt: HostRuntime) -> Result<(), Fail> {
    let Place {
        config,
        signers,
        client,
    } = four_replicas(rt.alloc())?;
    let requests = requests(rt.alloc(), client, &config, 1)?;
    let (host, gate) = begin(&rt, rt.alloc(), &config, signers, Held::No)?;
    if !leaves_the_replies(&rt, rt.alloc(), &host, &*gate, &requests)? {
        return fail("not a reply for each execution");
    }
    if !is_over(&rt, &host) {
        return fail("a closed host gives more, or is closed again");
    }
    Ok(())
}

#[test]
fn other_signers_are_wrong(rt: HostRuntime) -> Result<(), Fail> {
    let Place {
        config,
        mut signers,
        ..
    } = four_replicas(rt.alloc())?;
    signers.reverse();
    let gate = Arc::new(rt.alloc(), Watch::new(rt, Held::No))?;
    match Host::start(&rt, rt.alloc(), &config, signers, LIMIT, 1, gate) {
        Err(HostFault::WrongSigners) => Ok(()),
        _ => fail("signers in another order are taken"),
    }
}
