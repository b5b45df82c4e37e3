//! A call: one request, until its reply is accepted.

ghost use Rattle.std.specs.Prelude.{◌≡◌, ◌≤◌, ◌+◌, ◌↔◌, ◌⊎◌, Some, length, IfErr, IfOk, IfSome, IsErrOf, OnOk};
ghost use Rattle.lms_tree.specs.Keys.{after_signing, leaf_count};
ghost use Rattle.client_session.specs.Accepted.{HasHeard};
ghost use Rattle.client_session.specs.Sessions.{accepted_by, asked};
ghost use Rattle.host_client.specs.Calls.{HasCalled, Hears};
ghost use Rattle.host_client.specs.declared.fault.CallFault.TheVariants as ends;
ghost use Rattle.client_session.specs.declared.fault.SessionFault.TheVariants as faults;

use crate::fault::CallFault;
use client_session::{Session, SessionFault};
use host_types::{Bytes, Config, ReplicaId, Reply};
use pbft_codec::TryClone;
use replica_threads::{Host, HostFault};
use seal::{Checked, SealFault, open};
use std::alloc::{AllocError, Global};
use std::sync::{Arc, Wait};
use std::time::{Clock, Duration};

/// For how many milliseconds a call that may give up waits for a message before it looks at the host.
const LOOK: u64 = 100;

/// Asks the replicas of a host for an operation, of at most 1,048,576 bytes, and waits until the session
/// accepts a reply: for ever, where the replicas can't execute it. The session is of the host's configuration. `Exhausted` comes where the session's
/// signer has no leaf left, and changes nothing; `Closed` where the host was closed before the request was
/// posted, `NoQuorum` where it was closed before enough replicas had replied. `Memory` may leave the
/// request open: a later call gives it up.
pub fn call<R: Wait>(
    rt: &R,
    alloc: Global,
    host: &Host,
    session: &mut Session,
    op: Bytes,
) -> Result<Reply, SessionFault>
    requires config { session.old.config ≡ host.now.config }
    requires op { length op ≤ 1048576 }
    ensures called { IfOk result (λ reply. HasCalled session.old op session.new) }
    ensures accepted { IfOk result (λ reply. accepted_by session.new ≡ Some reply) }
    ensures config { session.new.config ≡ session.old.config }
    ensures time { IfOk result (λ reply. reply.time ≡ session.old.time + 1) }
    ensures exhausted { IsErrOf result faults.Exhausted ↔ (session.old.signer.next_leaf ≡ leaf_count session.old.signer) }
    ensures unchanged { IsErrOf result faults.Exhausted → session.new ≡ session.old }
{
    ask(rt, alloc, host, session, op)?;
    wait_for_reply(rt, alloc, host, session)
}

/// Asks as `call` does, and doesn't wait for ever where the replicas have halted. `Stuck` comes where more than
/// f of them have, nothing is under way, and no message came for the client since. The session is then as behind
/// a request that was given up: a later call gives it up for good. `Session` holds the faults of `call`. Where no
/// more than f have halted and nobody ticks, it may wait for ever.
pub fn call_or_stuck<R: Wait + Clock>(
    rt: &R,
    alloc: Global,
    host: &Host,
    session: &mut Session,
    op: Bytes,
) -> Result<Reply, CallFault>
    requires config { session.old.config ≡ host.now.config }
    requires op { length op ≤ 1048576 }
    ensures called { IfOk result (λ reply. HasCalled session.old op session.new) }
    ensures accepted { IfOk result (λ reply. accepted_by session.new ≡ Some reply) }
    ensures config { session.new.config ≡ session.old.config }
    ensures time { IfOk result (λ reply. reply.time ≡ session.old.time + 1) }
    ensures exhausted { IsErrOf result (ends.Session faults.Exhausted) ↔ (session.old.signer.next_leaf ≡ leaf_count session.old.signer) }
    ensures unchanged { IsErrOf result (ends.Session faults.Exhausted) → session.new ≡ session.old }
{
    ask(rt, alloc, host, session, op)?;
    wait_while(rt, alloc, host, session, Patience::WhileEnoughRun)
}

/// Asks as `call_or_stuck` does, and never waits for ever: `Idle` comes where nothing is under way, no message came
/// for the client since, and no more than f replicas have halted. Of a host that others call or tick, something may
/// come behind that.
pub fn call_or_idle<R: Wait + Clock>(
    rt: &R,
    alloc: Global,
    host: &Host,
    session: &mut Session,
    op: Bytes,
) -> Result<Reply, CallFault>
    requires config { session.old.config ≡ host.now.config }
    requires op { length op ≤ 1048576 }
    ensures called { IfOk result (λ reply. HasCalled session.old op session.new) }
    ensures accepted { IfOk result (λ reply. accepted_by session.new ≡ Some reply) }
    ensures config { session.new.config ≡ session.old.config }
    ensures time { IfOk result (λ reply. reply.time ≡ session.old.time + 1) }
    ensures exhausted { IsErrOf result (ends.Session faults.Exhausted) ↔ (session.old.signer.next_leaf ≡ leaf_count session.old.signer) }
    ensures unchanged { IsErrOf result (ends.Session faults.Exhausted) → session.new ≡ session.old }
{
    ask(rt, alloc, host, session, op)?;
    wait_while(rt, alloc, host, session, Patience::WhileUnderWay)
}

/// While what a call waits.
#[derive(Clone, Copy, Debug, PartialEq, Eq)]
enum Patience {
    /// At most f replicas have halted.
    WhileEnoughRun,
    /// That, and something is under way.
    WhileUnderWay,
}

impl Patience {
    // Why a call is over that waits with this patience, if it is: never while something is under way.
    fn end(self, host: &Host) -> Option<CallFault>
        ensures { IfSome result (λ fault. (fault ≡ ends.Stuck) ⊎ (fault ≡ ends.Idle)) }
    {
        if !host.is_idle() {
            return None;
        }
        if host.is_stuck() {
            return Some(CallFault::Stuck);
        }
        match self {
            Patience::WhileUnderWay => Some(CallFault::Idle),
            Patience::WhileEnoughRun => None,
        }
    }
}

// Offers the session what comes for its client, until it accepts a reply, or patience has ended and nothing came in the
// time of one look.
fn wait_while<R: Wait + Clock>(
    rt: &R,
    alloc: Global,
    host: &Host,
    session: &mut Session,
    patience: Patience,
) -> Result<Reply, CallFault>
    requires config { session.old.config ≡ host.now.config }
    ensures accepted { IfOk result (λ reply. accepted_by session.new ≡ Some reply) }
    ensures heard { HasHeard session.old session.new }
    ensures fault { IsErrOf result (ends.Session faults.Exhausted) → ⊥ }
{
    let mut has_ended = false;
    for _ in rt.forever() {
        let end = patience.end(host);
        match receive_within(rt, host, session)? {
            Some(bytes) => {
                has_ended = false;
                if let Some(reply) = offer_for_reply(
                    alloc,
                    host.config(),
                    session,
                    bytes.as_slice(),
                )? {
                    return Ok(reply);
                }
            }
            None => match end {
                Some(fault) if has_ended => return Err(fault),
                _ => has_ended = end.is_some(),
            },
        }
    }
    unreachable!()
}

// The next message for the session's client, if one comes in the time of a look.
fn receive_within<R: Wait + Clock>(
    rt: &R,
    host: &Host,
    session: &Session,
) -> Result<Option<Bytes>, SessionFault>
    ensures { IfErr result (λ fault. (fault ≡ faults.NoQuorum) ⊎ (fault ≡ faults.Memory)) }
{
    match host.receive_within(rt, session.client(), Duration::from_millis(LOOK)) {
        Ok(bytes) => Ok(bytes),
        Err(HostFault::Memory) => Err(SessionFault::Memory),
        Err(_) => Err(SessionFault::NoQuorum),
    }
}

// Makes the request of an operation, and posts it to every replica.
fn ask<R: Wait>(
    rt: &R,
    alloc: Global,
    host: &Host,
    session: &mut Session,
    op: Bytes,
) -> Result<(), SessionFault>
    requires config { session.old.config ≡ host.now.config }
    requires op { length op ≤ 1048576 }
    ensures config { session.new.config ≡ session.old.config }
    ensures asked { OnOk result (session.new ≡ asked session.old op (after_signing session.old.signer)) }
    ensures exhausted { IsErrOf result faults.Exhausted ↔ (session.old.signer.next_leaf ≡ leaf_count session.old.signer) }
    ensures unchanged { IsErrOf result faults.Exhausted → session.new ≡ session.old }
{
    let request = session.request(op)?;
    post_to_all(rt, alloc, host, &request)
}

// Posts a request to every replica.
fn post_to_all<R: Wait>(
    rt: &R,
    alloc: Global,
    host: &Host,
    request: &Checked,
) -> Result<(), SessionFault>
    ensures { IfErr result (λ fault. (fault ≡ faults.Closed) ⊎ (fault ≡ faults.Memory)) }
{
    for id in 0..host.config().replica_count() {
        let bytes = Vec::from_slice(alloc, request.bytes())?;
        match host.post(rt, ReplicaId(id), Bytes::from_vec(bytes)) {
            Ok(()) => {}
            Err(HostFault::Memory) => return Err(SessionFault::Memory),
            Err(_) => return Err(SessionFault::Closed),
        }
    }
    Ok(())
}

// Offers the session what comes for its client, until it accepts a reply.
fn wait_for_reply<R: Wait>(
    rt: &R,
    alloc: Global,
    host: &Host,
    session: &mut Session,
) -> Result<Reply, SessionFault>
    requires config { session.old.config ≡ host.now.config }
    ensures accepted { IfOk result (λ reply. accepted_by session.new ≡ Some reply) }
    ensures heard { HasHeard session.old session.new }
    ensures fault { IfErr result (λ fault. (fault ≡ faults.NoQuorum) ⊎ (fault ≡ faults.Memory)) }
{
    for _ in rt.forever() {
        let bytes = match host.receive(rt, session.client()) {
            Ok(bytes) => bytes,
            Err(HostFault::Memory) => return Err(SessionFault::Memory),
            Err(_) => return Err(SessionFault::NoQuorum),
        };
        if let Some(reply) = offer_for_reply(alloc, host.config(), session, bytes.as_slice())? {
            return Ok(reply);
        }
    }
    unreachable!()
}

// Offers a session bytes that came for it, and returns the reply that it accepts then, if it does.
fn offer_for_reply(
    alloc: Global,
    config: &Arc<Config>,
    session: &mut Session,
    bytes: &[u8],
) -> Result<Option<Reply>, SessionFault>
    requires config { session.old.config ≡ config.now.value }
    ensures accepted { IfOk result (λ reply. reply ≡ accepted_by session.new) }
    ensures hears { Hears session.old session.new }
    ensures fault { IfErr result (λ fault. fault ≡ faults.Memory) }
{
    offer(alloc, config, session, bytes)?;
    match session.accepted() {
        Some(reply) => Ok(Some(copy_of_reply(alloc, reply)?)),
        None => Ok(None),
    }
}

// Offers a session bytes that came for it. Bytes that are no message are passed over.
fn offer(
    alloc: Global,
    config: &Arc<Config>,
    session: &mut Session,
    bytes: &[u8],
) -> Result<(), SessionFault>
    requires config { session.old.config ≡ config.now.value }
    ensures hears { Hears session.old session.new }
    ensures fault { IfErr result (λ fault. fault ≡ faults.Memory) }
{
    match open(alloc, config, bytes) {
        Ok(message) => {
            let _config = message.config();
            session.offer(&message)
        }
        Err(SealFault::Memory) => Err(SessionFault::Memory),
        Err(_) => Ok(()),
    }
}

fn copy_of_reply(alloc: Global, reply: &Reply) -> Result<Reply, AllocError>
    ensures { IfOk result (λ copy. copy ≡ reply.now) }
{
    Ok(Reply {
        client: reply.client,
        time: reply.time,
        number: reply.number,
        result: reply.result.try_clone(alloc)?,
    })
}
