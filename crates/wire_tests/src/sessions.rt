//! A session of client 16: its requests, and the replies that it accepts.

ghost use Rattle.std.specs.Prelude.{◌≡◌, ◌^◌, ◌<◌, ◌≤◌, IfOk};
ghost use Rattle.std.specs.Option.{ForSome};

use crate::replies::{Fields, config, fields_of, reply, signer, signers};
use client_session::{Session, SessionFault};
use host_types::{Bytes, ClientId, Config};
use lms_tree::Signer;
use pbft_codec::{Body, Role};
use seal::Checked;
use std::alloc::Global;
use std::sync::Arc;
use std::test::Fail;

/// The session of client 16 before its first request, where the signer has the key that is listed for it:
/// a new one, or one that goes on behind a time.
fn session(
    alloc: Global,
    config: &Arc<Config>,
    signer: Signer,
    behind: Option<u64>,
) -> Result<Box<Session>, Fail>
    requires { ForSome behind (λ time. time ≤ 2 ^ 63) }
    ensures { IfOk result (λ s. s.value.config ≡ config.now.value) }
{
    let client = ClientId(16);
    match config.client(client) {
        Some(entry) if entry.key == signer.public_key() => {
            let session = match behind {
                None => Session::new(alloc, config, client, signer)?,
                Some(time) => Session::resume(alloc, config, client, signer, time)?,
            };
            Ok(Box::new(alloc, session)?)
        }
        _ => Err(Fail::new("not the client's key")),
    }
}

/// The request of the operation 9.
fn ask(alloc: Global, session: &mut Session) -> Result<Result<Checked, SessionFault>, Fail>
    ensures { session.new.config ≡ session.old.config }
{
    let op = Bytes::from_vec(Vec::from_slice(alloc, &[9])?);
    Ok(session.request(op))
}

/// Whether it is client 16's request of the operation 9 at this time.
fn is_request(message: &Checked, time: u64) -> bool {
    let is_body = match message.body() {
        Body::Request(body) => body.time == time && body.op.as_slice() == [9].as_slice(),
        _ => false,
    };
    is_body && message.signer() == (Role::Client, 16)
}

/// Makes requests up to the one of this time, and returns whether they are of the times from 1 on.
fn ask_up_to(alloc: Global, session: &mut Session, last: u64) -> Result<bool, Fail>
    requires { last < 100 }
    ensures { session.new.config ≡ session.old.config }
{
    let mut right = true;
    for time in 1..last + 1 {
        let request = ask(alloc, session)??;
        right = right && is_request(&request, time);
    }
    Ok(right)
}

/// None where no reply is accepted; else whether it is the one of this time, with number 5 and result 7.
fn accepts(session: &Session, time: u64) -> Option<bool> {
    session.accepted().map(|reply| {
        reply.client == ClientId(16)
            && reply.time == time
            && reply.number.0 == 5
            && reply.result.as_slice() == [7].as_slice()
    })
}

/// Offers the reply of these fields.
fn offer(
    alloc: Global,
    config: &Arc<Config>,
    replicas: &mut [Signer],
    session: &mut Session,
    fields: &Fields,
) -> Result<(), Fail>
    requires { session.old.config ≡ config.now.value }
    ensures { session.new.config ≡ config.now.value }
{
    let message = reply(alloc, config, replicas, fields)?;
    Ok(session.offer(&message)?)
}

/// Offers the replies one after another, and returns whether what is accepted after each is what its line
/// says.
fn answers(
    alloc: Global,
    config: &Arc<Config>,
    replicas: &mut [Signer],
    session: &mut Session,
    table: &str,
) -> Result<bool, Fail>
    requires { session.old.config ≡ config.now.value }
    ensures { session.new.config ≡ config.now.value }
{
    let mut right = true;
    for line in table.lines() {
        let (text, wanted) = line.split_once(" => ").ok_or("no answer")?;
        let fields = fields_of(text)?;
        offer(alloc, config, replicas, session, &fields)?;
        let accepted = accepts(session, fields.time);
        right = right && accepted == (wanted == "accepted").then_some(true);
    }
    Ok(right)
}

/// Replies at time 0, which no request has.
const EARLY: &str = "\
0 0 16 0 5 7 => -\n\
1 0 16 0 5 7 => -\n\
";

/// Replica, view, client, time, number and result of a Reply; what is accepted then.
const LATER: &str = "\
0 0 17 2 5 7 => -\n\
3 0 16 1 5 7 => -\n\
1 0 16 2 5 7 => -\n\
1 3 16 2 5 7 => -\n\
2 0 16 2 6 7 => -\n\
3 0 16 2 5 8 => -\n\
0 4 16 2 5 7 => accepted\n\
3 0 16 2 6 7 => accepted\n\
2 0 16 2 5 8 => accepted\n\
";

/// The replicas' signers, the configuration and the session, a new one or one that goes on behind a time.
fn parties(
    alloc: Global,
    behind: Option<u64>,
) -> Result<(Vec<Signer>, Arc<Config>, Box<Session>), Fail>
    requires { ForSome behind (λ time. time ≤ 2 ^ 63) }
    ensures { IfOk result (λ r. r.2.value.config ≡ r.1.value) }
{
    let replicas = signers(alloc)?;
    let signer = signer(alloc, 16)?;
    let config = config(alloc, &replicas, signer.public_key())?;
    let session = session(alloc, &config, signer, behind)?;
    Ok((replicas, config, session))
}

/// Whether the third request is made, and nothing is accepted for it yet.
fn goes_on(alloc: Global, session: &mut Session) -> Result<bool, Fail> {
    let request = ask(alloc, session)??;
    Ok(is_request(&request, 3) && session.accepted().is_none())
}

/// Whether what the replicas reply is accepted as it should be, and the session goes on then.
fn accepts_two_of_four(
    alloc: Global,
    config: &Arc<Config>,
    replicas: &mut [Signer],
    session: &mut Session,
) -> Result<bool, Fail>
    requires { session.old.config ≡ config.now.value }
{
    let is_client = session.client() == ClientId(16);
    let is_early = answers(alloc, config, replicas, session, &EARLY)?;
    let asked = ask_up_to(alloc, session, 2)?;
    let is_later = answers(alloc, config, replicas, session, &LATER)?;
    Ok(is_client && is_early && asked && is_later && goes_on(alloc, session)?)
}

#[test]
fn what_2_replicas_reply_is_accepted(rt: HostRuntime) -> Result<(), Fail> {
    let (mut replicas, config, mut session) = parties(rt.alloc(), None)?;
    assert!(rt; accepts_two_of_four(rt.alloc(), &config, &mut replicas, &mut session)?);
    Ok(())
}

const FIRST: &str = "\
2 0 16 32 5 7 => -\n\
";

const SECOND: &str = "\
3 0 16 32 5 7 => accepted\n\
";

/// Whether a request is refused since the signer is exhausted.
fn is_exhausted(alloc: Global, session: &mut Session) -> Result<bool, Fail>
    ensures { session.new.config ≡ session.old.config }
{
    Ok(ask(alloc, session)?.err() == Some(SessionFault::Exhausted))
}

/// Whether the last request of the signer stays open where a further one is refused.
fn stays_open(
    alloc: Global,
    config: &Arc<Config>,
    replicas: &mut [Signer],
    session: &mut Session,
) -> Result<bool, Fail>
    requires { session.old.config ≡ config.now.value }
{
    let asked = ask_up_to(alloc, session, 32)?;
    let is_first = answers(alloc, config, replicas, session, &FIRST)?;
    let is_refused = is_exhausted(alloc, session)?;
    let is_second = answers(alloc, config, replicas, session, &SECOND)?;
    Ok(asked && is_first && is_refused && is_second)
}

#[test]
fn a_refused_request_leaves_the_open_one(rt: HostRuntime) -> Result<(), Fail> {
    let (mut replicas, config, mut session) = parties(rt.alloc(), None)?;
    assert!(rt; stays_open(rt.alloc(), &config, &mut replicas, &mut session)?);
    Ok(())
}

/// Replies to the request of time 7, which another session of the client made.
const EARLIER: &str = "\
0 0 16 7 5 7 => -\n\
1 0 16 7 5 7 => -\n\
";

/// Such replies that still come behind the request of time 8, and replies to this one.
const RESUMED: &str = "\
2 0 16 7 5 7 => -\n\
3 0 16 7 5 7 => -\n\
2 0 16 8 5 7 => -\n\
3 0 16 8 5 7 => accepted\n\
";

/// Whether the session's last request is this one.
fn is_last(session: &Session, request: &Checked) -> bool {
    match session.last_request() {
        Some(last) => last.bytes() == request.bytes(),
        None => false,
    }
}

/// Whether a session that goes on behind time 7 makes the request of time 8 and keeps it, and accepts what
/// is replied to it alone.
fn goes_on_behind_7(
    alloc: Global,
    config: &Arc<Config>,
    replicas: &mut [Signer],
    session: &mut Session,
) -> Result<bool, Fail>
    requires { session.old.config ≡ config.now.value }
{
    let is_first = session.last_request().is_none();
    let is_earlier = answers(alloc, config, replicas, session, &EARLIER)?;
    let request = ask(alloc, session)??;
    let is_next = is_request(&request, 8) && is_last(session, &request);
    let is_resumed = answers(alloc, config, replicas, session, &RESUMED)?;
    Ok(is_first && is_earlier && is_next && is_resumed && is_last(session, &request))
}

#[test]
fn a_session_goes_on_behind_a_time(rt: HostRuntime) -> Result<(), Fail> {
    let (mut replicas, config, mut session) = parties(rt.alloc(), Some(7))?;
    assert!(rt; goes_on_behind_7(rt.alloc(), &config, &mut replicas, &mut session)?);
    Ok(())
}
