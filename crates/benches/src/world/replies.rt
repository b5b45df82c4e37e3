//! A reply that one replica sends a client again and again.

ghost use Rattle.std.specs.Prelude.{◌≡◌, IfOk};

use crate::world::floor::replica_signer;
use anyhow::{Result, anyhow};
use bench_common::{Measures, ProcessorTime, signing};
use client_session::Session;
use host_types::{Bytes, ClientEntry, ClientId, Config, SeqNo, TenantId, View};
use lms_tree::Signer;
use pbft_codec::{Body, ReplyBody, Role};
use seal::Checked;
use std::alloc::Global;
use std::sync::Arc;
use std::time::CpuClock;

/// The client.
const CLIENT: u8 = 16;

/// The processor's time in which a client is offered a replica's reply to its request so many times, in
/// nanoseconds.
pub(crate) fn nanoseconds_of_offers(rt: &impl Measures, count: u32) -> Result<u128> {
    let alloc = rt.alloc();
    let mut replica = replica_signer(alloc, 0)?;
    let config = config(alloc, &replica)?;
    let reply = reply(alloc, &config, &mut replica)?;
    let mut session = asking_session(alloc, &config)?;
    timed_offers(rt, &mut session, &reply, count)
}

fn timed_offers(
    rt: &impl CpuClock,
    session: &mut Session,
    reply: &Checked,
    count: u32,
) -> Result<u128>
    requires { session.old.config ≡ reply.now.config }
{
    let start = ProcessorTime::now(rt)?;
    offer_again(session, reply, count)?;
    let taken = start.nanoseconds(rt)?;
    if session.accepted().is_some() {
        return Err(anyhow!("one replica's reply is accepted"));
    }
    Ok(taken)
}

/// The client's session with its request.
fn asking_session(alloc: Global, config: &Arc<Config>) -> Result<Session>
    ensures { IfOk result (λ s. s.config ≡ config.now.value) }
{
    let mut session = session(alloc, config)?;
    ask(alloc, &mut session)?;
    Ok(session)
}

/// A client, and four replicas that have the key of this one.
fn config(alloc: Global, replica: &Signer) -> Result<Arc<Config>> {
    let keys = Vec::from_elem(alloc, replica.public_key(), 4)?;
    let mut clients = Vec::new(alloc);
    clients.push(ClientEntry {
        id: ClientId(u32::from(CLIENT)),
        tenant: TenantId(1),
        key: replica_signer(alloc, CLIENT)?.public_key(),
    })?;
    Ok(Arc::new(alloc, Config::new(1, 8, keys, clients)?)?)
}

/// The client's session before its first request.
fn session(alloc: Global, config: &Arc<Config>) -> Result<Session>
    ensures { IfOk result (λ s. s.config ≡ config.now.value) }
{
    let signer = replica_signer(alloc, CLIENT)?;
    let client = ClientId(u32::from(CLIENT));
    let Some(entry) = config.client(client) else {
        return Err(anyhow!("the client is not listed"));
    };
    if entry.key != signer.public_key() {
        return Err(anyhow!("the signer's key is not listed"));
    }
    Ok(Session::new(alloc, config, client, signer)?)
}

/// The client makes a request.
fn ask(alloc: Global, session: &mut Session) -> Result<()>
    ensures { session.new.config ≡ session.old.config }
{
    let op = Bytes::from_vec(Vec::from_slice(alloc, &[9])?);
    session.request(op)?;
    Ok(())
}

/// A replica's reply to it.
fn reply(alloc: Global, config: &Arc<Config>, replica: &mut Signer) -> Result<Checked>
    ensures { IfOk result (λ c. c.config ≡ config.now.value) }
{
    let body = Body::Reply(ReplyBody {
        view: View(0),
        client: ClientId(u32::from(CLIENT)),
        time: 1,
        number: SeqNo(1),
        result: Bytes::from_vec(Vec::from_slice(alloc, &[0])?),
    });
    signing::message(alloc, config, replica, Role::Replica, 0, body)
}

/// The client is offered a reply so many times.
fn offer_again(session: &mut Session, reply: &Checked, count: u32) -> Result<()>
    requires { session.old.config ≡ reply.now.config }
    ensures { session.new.config ≡ reply.now.config }
{
    for _ in 0..count {
        offer(session, reply)?;
    }
    Ok(())
}

fn offer(session: &mut Session, reply: &Checked) -> Result<()>
    requires { session.old.config ≡ reply.now.config }
    ensures { session.new.config ≡ reply.now.config }
{
    session.offer(reply)?;
    Ok(())
}
