//! Calls of a host, by clients at the same time.

ghost use Rattle.std.specs.Prelude.{◌≡◌, IfOk};
ghost use Rattle.std.specs.List.{All};

use anyhow::{Result, anyhow};
use bench_common::members::{FIRST_CLIENT, config, signers};
use bench_common::operations::{PUT, call as call_of, installation, large_code, put};
use bench_common::{Measures, NoGate};
use host_client::{Host, Row, Session, audit, call, call_or_idle};
use host_types::{Bytes, ClientId, Config, ReplicaId};
use lms_tree::{Height, Signer};
use std::alloc::Global;
use std::sync::{Arc, Wait};
use std::thread;
use std::thread::Threads;
use std::time::{Clock, Instant};

/// The replicas where one may be faulty.
pub(crate) const REPLICAS: u8 = 4;

/// The rows that a journal has room for.
const MAX_ROWS: u32 = 65_536;

/// What the procedure that clients call does.
#[derive(Clone, Copy)]
pub(crate) enum Work {
    /// It puts an entry.
    Put,
    /// It goes through 60,121 steps.
    Steps,
}

impl Work {
    /// The operation that installs the procedure.
    fn installation(self, alloc: Global) -> Result<Vec<u8>> {
        match self {
            Work::Put => Ok(installation(alloc, &PUT)?),
            Work::Steps => Ok(installation(alloc, &large_code(alloc)?)?),
        }
    }

    /// A client's call with this number.
    fn call(self, alloc: Global, number: u32) -> Result<Vec<u8>> {
        match self {
            Work::Put => Ok(put(alloc, number)?),
            Work::Steps => Ok(call_of(alloc, 0)?),
        }
    }
}

/// Clients that call at the same time, the tenants that they are of in turn, how often each calls and for
/// what, the openers of each replica, and the interval between checkpoints.
#[derive(Clone, Copy)]
pub(crate) struct Setup {
    /// Of the keys of one tree, the clients'; and the replicas', unless these are of two levels.
    pub(crate) height: Height,
    pub(crate) interval: u8,
    pub(crate) clients: u8,
    pub(crate) tenants: u8,
    pub(crate) calls: u32,
    pub(crate) work: Work,
    pub(crate) openers: u8,
}

/// What a host did.
#[derive(Drop)]
pub(crate) struct Run {
    pub(crate) config: Arc<Config>,
    /// The time in which all calls were answered.
    pub(crate) nanoseconds: u128,
    pub(crate) journals: Vec<(ReplicaId, Vec<Row>)>,
}

/// A client of a host.
#[derive(Drop)]
struct Caller {
    host: Arc<Host>,
    session: Session,
    ghost same: { session.config ≡ host.value.config },
}

impl Caller {
    /// A client before its first request.
    fn new(alloc: Global, host: &Arc<Host>, client: ClientId, signer: Signer) -> Result<Caller> {
        let Some(entry) = host.config().client(client) else {
            return Err(anyhow!("the client is not listed"));
        };
        if entry.key != signer.public_key() {
            return Err(anyhow!("the signer's key is not listed"));
        }
        let session = Session::new(alloc, host.config(), client, signer)?;
        let host = Arc::try_clone(host)?;
        Ok(Caller { host, session })
    }

    /// Calls, and wants a result that says that the operation was done.
    fn call<R: Wait>(&mut self, rt: &R, alloc: Global, op: Vec<u8>) -> Result<()> {
        let op = Bytes::from_vec(op);
        if op.as_slice().len() > 1_048_576 {
            return Err(anyhow!("the operation is too long"));
        }
        let reply = call(rt, alloc, &self.host, &mut self.session, op)?;
        match reply.result.as_slice().first() {
            Some(0) => Ok(()),
            _ => Err(anyhow!("a request is not done")),
        }
    }

    /// Calls as often as is set, while a reply may come. Whether each call was answered.
    fn call_while_it_goes<R: Wait + Clock>(
        &mut self,
        rt: &R,
        alloc: Global,
        setup: Setup,
    ) -> Result<bool> {
        for number in 0..setup.calls {
            let op = Bytes::from_vec(setup.work.call(alloc, number)?);
            if op.as_slice().len() > 1_048_576 {
                return Err(anyhow!("the operation is too long"));
            }
            if call_or_idle(rt, alloc, &self.host, &mut self.session, op).is_err() {
                return Ok(false);
            }
        }
        Ok(true)
    }

    /// Calls as often as is set.
    fn call_all<R: Wait>(&mut self, rt: &R, alloc: Global, setup: Setup) -> Result<()> {
        for number in 0..setup.calls {
            self.call(rt, alloc, setup.work.call(alloc, number)?)?;
        }
        Ok(())
    }
}

/// Starts a host of replicas with these signers.
fn start_host<R: Threads + Wait + Copy + Send + Sync + Drop + 'static>(
    rt: &R,
    alloc: Global,
    config: &Arc<Config>,
    replicas: Vec<Signer>,
    openers: u8,
) -> Result<Arc<Host>> {
    if openers == 0 || openers > 4 {
        return Err(anyhow!("a replica has 1 to 4 openers"));
    }
    let gate = Arc::new(alloc, NoGate)?;
    let host = Host::start(rt, alloc, config, replicas, MAX_ROWS, openers, gate)?;
    Ok(Arc::new(alloc, host)?)
}

/// A host's clients with these signers.
fn callers_of(alloc: Global, host: &Arc<Host>, signers: Vec<Signer>) -> Result<Vec<Caller>> {
    let mut callers = Vec::new(alloc);
    let mut id = u32::from(FIRST_CLIENT);
    for signer in signers {
        callers.push(Caller::new(alloc, host, ClientId(id), signer)?)?;
        id = id.saturating_add(1);
    }
    Ok(callers)
}

/// Lets the first client of each tenant install the procedure.
fn install<R: Wait>(rt: &R, alloc: Global, setup: Setup, callers: &mut [Caller]) -> Result<()> {
    for caller in callers.iter_mut().take(usize::from(setup.tenants)) {
        caller.call(rt, alloc, setup.work.installation(alloc)?)?;
    }
    Ok(())
}

/// Starts a host and its clients, of which the first of each tenant has installed the procedure.
fn start<R: Threads + Wait + Copy + Send + Sync + Drop + 'static>(
    rt: &R,
    alloc: Global,
    setup: Setup,
) -> Result<(Arc<Host>, Vec<Caller>)> {
    let replicas = signers(alloc, setup.height, 0, REPLICAS)?;
    let clients = signers(alloc, setup.height, FIRST_CLIENT, setup.clients)?;
    start_with(rt, alloc, setup, replicas, clients)
}

/// Starts a host of replicas with these signers and its clients, likewise.
fn start_with<R: Threads + Wait + Copy + Send + Sync + Drop + 'static>(
    rt: &R,
    alloc: Global,
    setup: Setup,
    replicas: Vec<Signer>,
    clients: Vec<Signer>,
) -> Result<(Arc<Host>, Vec<Caller>)> {
    let tenants = u32::from(setup.tenants);
    let config = config(alloc, 1, setup.interval, &replicas, &clients, tenants)?;
    let host = start_host(rt, alloc, &config, replicas, setup.openers)?;
    let mut callers = callers_of(alloc, &host, clients)?;
    install(rt, alloc, setup, &mut callers)?;
    Ok((host, callers))
}

/// Lets all clients call at the same time, each in a thread of its own.
fn call_at_once<R: Threads + Wait + Copy + Send + Sync + Drop + 'static>(
    rt: &R,
    alloc: Global,
    callers: Vec<Caller>,
    setup: Setup,
) -> Result<()> {
    let mut crew = Vec::new(alloc);
    for caller in callers {
        let rt = *rt;
        let job = move || {
            let mut caller = caller;
            caller.call_all(&rt, alloc, setup).is_ok()
        };
        crew.push(thread::spawn(&rt, job)?)?;
    }
    let mut are_done = true;
    while let Some(thread) = crew.pop() {
        are_done = thread.join(rt) && are_done;
    }
    if are_done {
        Ok(())
    } else {
        Err(anyhow!("a call is not answered"))
    }
}

/// Runs a host until its clients' calls are answered.
pub(crate) fn measure<R: Measures + Threads + Wait + Copy + Send + Sync + Drop + 'static>(
    rt: &R,
    setup: Setup,
) -> Result<Run> {
    let (host, callers) = start(rt, rt.alloc(), setup)?;
    let start = Instant::now(rt)?;
    call_at_once(rt, rt.alloc(), callers, setup)?;
    let nanoseconds = start.elapsed(rt)?.as_nanos();
    let journals = host.close(rt)?;
    let config = Arc::try_clone(host.config())?;
    Ok(Run {
        config,
        nanoseconds,
        journals,
    })
}

/// Whether all calls of a host with these signers are answered, whose clients call at the same time, and its journals agree.
pub(crate) fn goes_on<
    R: Clock + AllocGlobal + Threads + Wait + Copy + Send + Sync + Drop + 'static,
>(rt: &R, setup: Setup, replicas: Vec<Signer>, clients: Vec<Signer>) -> Result<bool> {
    let alloc = rt.alloc();
    let (host, callers) = start_with(rt, alloc, setup, replicas, clients)?;
    let mut crew = Vec::new(alloc);
    for caller in callers {
        let rt = *rt;
        let job = move || {
            let mut caller = caller;
            matches!(caller.call_while_it_goes(&rt, alloc, setup), Ok(true))
        };
        crew.push(thread::spawn(&rt, job)?)?;
    }
    let mut all = true;
    while let Some(thread) = crew.pop() {
        all = thread.join(rt) && all;
    }
    Ok(audit(alloc, &host.close(rt)?).is_ok() && all)
}
