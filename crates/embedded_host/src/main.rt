//! A program with four replicas in threads, a ticker, and a client that installs a procedure and calls it.
#![tactic(auto)]

ghost use Rattle.std.specs.Prelude.{◌≡◌, ◌≤◌, IfOk, Ok, length};

use anyhow::{Result, anyhow};
use host_client::{Host, Session, Ticker, call_or_stuck};
use host_types::{Bytes, ClientEntry, ClientId, Config, Gate, ReplicaId, TenantId};
use lms_tree::{Height, Signer};
use std::alloc::{AllocError, Global};
use std::sync::{Arc, Wait};
use std::thread::Threads;
use std::time::{Clock, Duration};

const CLIENT: ClientId = ClientId(100);
/// Installs code that returns 7: `mov64 r0, 7` and `exit`.
const INSTALL: [u8; 17] = [1, 0xb7, 0, 0, 0, 7, 0, 0, 0, 0x95, 0, 0, 0, 0, 0, 0, 0];
/// Calls procedure 0 without arguments.
const CALL: [u8; 5] = [2, 0, 0, 0, 0];

/// Nobody watches the replicas' steps.
#[derive(Drop)]
struct NoGate;

impl Gate for NoGate {
    fn step(&self, _who: u32) {}
}

/// A signer of one tree of 32 leaves. A real seed is random and secret, and is for one signer and one run.
fn signer(alloc: Global, number: u8) -> Result<Signer, AllocError> {
    Signer::from_seed(alloc, Height::H5, [number; 16], [number; 32])
}

/// The signers of four replicas.
fn replica_signers(alloc: Global) -> Result<Vec<Signer>, AllocError> {
    let mut signers = Vec::new(alloc);
    for number in 0..4u8 {
        signers.push(signer(alloc, number)?)?;
    }
    Ok(signers)
}

/// What was made, in a box: a function that owns a box with several ways out is proved sooner than one that owns what is in it.
fn boxed<T: Drop>(alloc: Global, made: Result<T, AllocError>) -> Result<Box<T>, AllocError>
    ensures { IfOk result (λ boxed. made ≡ Ok boxed.value) }
{
    Ok(Box::new(alloc, made?)?)
}

/// One of these replicas may be faulty; a checkpoint at each eighth number; one client, of tenant 1.
fn config_of(alloc: Global, replicas: &[Signer], client: &Signer) -> Result<Arc<Config>> {
    let keys = replicas.iter().map(|it| it.public_key());
    let keys = keys.collect(alloc)?;
    let entry = ClientEntry {
        id: CLIENT,
        tenant: TenantId(1),
        key: client.public_key(),
    };
    Ok(Arc::new(alloc, Config::new(1, 8, keys, vec![in alloc; entry]?)?)?)
}

/// The client's session, in a box. Its signer must have the key that the configuration lists.
fn session_of(alloc: Global, config: &Arc<Config>, signer: Box<Signer>) -> Result<Box<Session>>
    ensures { IfOk result (λ s. s.value.config ≡ config.now.value) }
{
    match config.client(CLIENT) {
        Some(entry) if entry.key == signer.public_key() => {
            let session = Session::new(alloc, config, CLIENT, Box::into_inner(signer));
            Ok(boxed(alloc, session)?)
        }
        _ => Err(anyhow!("another key is listed")),
    }
}

/// Starts the replicas.
fn start<R: Threads + Wait + Copy + Send + Sync + Drop + 'static>(
    rt: &R,
    alloc: Global,
    config: &Arc<Config>,
    replicas: Vec<Signer>,
) -> Result<Arc<Host>>
    ensures { IfOk result (λ host. host.value.config ≡ config.now.value) }
{
    let gate = Arc::new(alloc, NoGate)?;
    // Journals of 65,536 rows; one thread for each replica opens what comes.
    let host = Host::start(rt, alloc, config, replicas, 65_536, 1, gate)?;
    Ok(Arc::new(alloc, host)?)
}

/// Calls, and prints the reply.
fn ask<R: AllocGlobal + Print + Wait + Clock>(
    rt: &R,
    host: &Host,
    session: &mut Session,
    op: &[u8],
) -> Result<()>
    requires config { session.old.config ≡ host.now.config }
    requires op { length op.now ≤ 1048576 }
    ensures { session.new.config ≡ session.old.config }
{
    let op = Bytes::from_vec(Vec::from_slice(rt.alloc(), op)?);
    let reply = call_or_stuck(rt, rt.alloc(), host, session, op)?;
    let (number, result) = (reply.number.0, reply.result.as_slice());
    println!(rt; "number {number} result {result:?}")?;
    Ok(())
}

/// Installs the procedure, calls it twice, and tells whether a replica has halted.
fn run<R: AllocGlobal + Print + Wait + Clock>(
    rt: &R,
    host: &Host,
    session: &mut Session,
) -> Result<()>
    requires { session.old.config ≡ host.now.config }
{
    ask(rt, host, session, &INSTALL)?;
    ask(rt, host, session, &CALL)?;
    ask(rt, host, session, &CALL)?;
    let status = host.status(rt, ReplicaId(0));
    let halted = status.and_then(|status| status.halted);
    println!(rt; "replica 0 halted: {halted:?}")?;
    Ok(())
}

fn main(rt: HostRuntime) -> Result<()> {
    let alloc = rt.alloc();
    let replicas = replica_signers(alloc)?;
    let client = boxed(alloc, signer(alloc, 100))?;
    let config = config_of(alloc, &replicas, &client)?;
    let mut session = session_of(alloc, &config, client)?;
    let host = start(&rt, alloc, &config, replicas)?;
    let ticker = Ticker::start(&rt, alloc, &host, Duration::from_secs(60))?;
    run(&rt, &host, &mut session)?;
    ticker.stop(&rt);
    println!(rt; "{} journals, which agree", host.close(&rt)?.len())?;
    Ok(())
}
