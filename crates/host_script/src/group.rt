//! The running replicas of a script, and its clients.

ghost use Rattle.std.specs.Prelude.{◌≡◌};

use crate::callers::Callers;
use crate::told::{Telling, Told};
use host_client::{CallFault, Host, Status};
use host_types::{Bytes, Gate, ReplicaId};
use std::alloc::{AllocError, Global};
use std::sync::{Arc, Wait};
use std::thread::Threads;
use std::time::Clock;
use world_script::{Head, Keys, Order, Step, audit, make_keys};

/// The rows that the journal of a replica has room for.
const MAX_ROWS: u32 = 65_536;

/// The threads that open what is posted to a replica.
const OPENERS: u8 = 1;

/// Nobody watches the threads of a script.
#[derive(Drop)]
struct NoGate;

impl Gate for NoGate {
    fn step(&self, who: u32) {
        let _ = who;
    }
}

/// Whether an audit found that the replicas' journals agree, and all requests were answered.
#[derive(Debug, Drop)]
pub enum Audited {
    Agreed,
    Refused,
    /// They agree, but a request can't be answered any more: why, and where each replica stands.
    Unanswered(String),
}

/// Why a step prints nothing.
#[derive(Clone, Copy, Debug, PartialEq, Eq)]
pub(crate) enum StepFault {
    Memory,
    /// The request can't be answered any more.
    Unanswered(CallFault),
}

impl From<AllocError> for StepFault {
    fn from(_: AllocError) -> StepFault {
        StepFault::Memory
    }
}

/// Running replicas, and their clients.
#[derive(Drop)]
pub(crate) struct Group {
    alloc: Global,
    host: Host,
    callers: Callers,
    ghost same: { callers.config.value ≡ host.config },
}

impl Group {
    /// The replicas and clients of a head. It is refused where memory ran out or a thread could not be made.
    pub(crate) fn start<R: Threads + Wait + Copy + Send + Sync + 'static>(
        rt: &R,
        alloc: Global,
        head: &Head,
    ) -> Result<Group, AllocError> {
        let Keys {
            config,
            replicas,
            clients,
        } = make_keys(alloc, head)?;
        let config = Arc::new(alloc, config)?;
        let callers = Callers::new(alloc, &config, clients)?;
        let gate = Arc::new(alloc, NoGate)?;
        match Host::start(rt, alloc, &config, replicas, MAX_ROWS, OPENERS, gate) {
            Ok(host) => Ok(Group {
                alloc,
                host,
                callers,
            }),
            Err(_) => Err(AllocError),
        }
    }

    /// Runs a step, and returns what it prints: a request waits until its reply is accepted, or none can come any more.
    pub(crate) fn run<R: Wait + Clock, T: Telling>(
        &mut self,
        rt: &R,
        step: &Step,
        telling: &T,
    ) -> Result<String, StepFault> {
        match step {
            Step::Request(order) => self.call(rt, order, telling),
            Step::Timeout(at) => Ok(self.time_out(rt, at.as_slice())?),
            // The script has no other steps.
            _ => Ok(String::new(self.alloc)),
        }
    }

    fn call<R: Wait + Clock, T: Telling>(
        &mut self,
        rt: &R,
        order: &Order,
        telling: &T,
    ) -> Result<String, StepFault> {
        let op = Vec::from_slice(self.alloc, order.op.as_slice())?;
        let Group {
            alloc,
            host,
            callers,
        } = self;
        match callers.call(rt, *alloc, host, order.client, Bytes::from_vec(op)) {
            Ok(Some(reply)) => {
                let accepted = Told::Accepted {
                    op: order.op.as_slice(),
                    reply: &reply,
                };
                Ok(telling.line_of(*alloc, accepted)?)
            }
            Ok(None) => Ok(telling.line_of(*alloc, Told::NothingQueued(order.client))?),
            Err(CallFault::Session(_)) => Err(StepFault::Memory),
            Err(fault) => Err(StepFault::Unanswered(fault)),
        }
    }

    fn time_out<R: Wait>(&self, rt: &R, at: &[ReplicaId]) -> Result<String, AllocError> {
        for id in at {
            if id.0 < self.host.config().replica_count() && self.host.tick(rt, *id).is_err() {
                return Err(AllocError);
            }
        }
        Ok(String::new(self.alloc))
    }

    /// Why no reply can come, and where each replica stands, in a sentence.
    pub(crate) fn standings<R: Wait>(
        &self,
        rt: &R,
        fault: CallFault,
    ) -> Result<String, AllocError> {
        let mut text = String::from_str(self.alloc, reason(fault))?;
        for id in 0..self.host.config().replica_count() {
            let stands = standing_text(self.alloc, self.host.status(rt, ReplicaId(id)))?;
            let part = format!(in self.alloc; "; replica {id} {stands}")?;
            text.push_str(&part)?;
        }
        Ok(text)
    }

    /// Stops the replicas, and returns what an audit of their journals prints.
    pub(crate) fn close<R: Wait, T: Telling>(
        &self,
        rt: &R,
        telling: &T,
    ) -> Result<(Audited, String), AllocError> {
        let Ok(journals) = self.host.close(rt) else {
            return Err(AllocError);
        };
        let answer = audit(self.alloc, &journals);
        let line = telling.line_of(self.alloc, Told::Audited(&answer))?;
        match answer {
            Ok(_) => Ok((Audited::Agreed, line)),
            Err(_) => Ok((Audited::Refused, line)),
        }
    }
}

// Why no reply can come.
fn reason(fault: CallFault) -> &'static str {
    match fault {
        CallFault::Stuck => "more replicas have halted than may be faulty",
        _ => "nothing is under way, and the replicas of a script time out where it says so alone",
    }
}

// Where a replica stands.
fn standing_text(alloc: Global, status: Option<Status>) -> Result<String, AllocError> {
    let Some(status) = status else {
        return String::from_str(alloc, "has told nothing");
    };
    let view = status.view.0;
    let executed = status.executed.0;
    if let Some(halt) = status.halted {
        return format!(in alloc; "halted ({halt}) in view {view} with {executed} executed");
    }
    let way = if status.active { "is in" } else { "changes to" };
    format!(in alloc; "{way} view {view} with {executed} executed")
}
