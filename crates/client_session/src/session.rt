//! A client's session.

ghost use Rattle.std.specs.Prelude.{◌≡◌, ◌≤◌, ◌++◌, ◌∷◌, ◌↔◌, ◌⊎◌, ◌^◌, None, length, [], IfOk, IfErr, IfSome, OnOk, OnErr, IsErrOf};
ghost use Rattle.std.specs.Option.{option_copied, option_map};
ghost use Rattle.lms_tree.specs.Keys.{after_signing, leaf_count};
ghost use Rattle.seal.specs.Opening.{CheckedMessage};
ghost use Rattle.client_session.specs.declared.fault.SessionFault.TheVariants.{Exhausted, Memory};
ghost use Rattle.client_session.specs.Sessions.{MaySign, accepted_by, answer_in, asked, awaits, next_request, offered, session_behind};

use crate::answer::{Answer, has_said, is_vouched};
use crate::fault::SessionFault;
use host_types::{Bytes, ClientId, Config, Reply};
use lms_tree::Signer;
use pbft_codec::{Body, ReplyBody, RequestBody, Role, TryClone};
use seal::{Checked, seal};
use std::alloc::{AllocError, Global};
use std::marker::Model;
use std::sync::Arc;

/// A client's session: at most one request is open, and each has the time behind the one before.
#[derive(Drop)]
pub struct Session {
    alloc: Global,
    config: Arc<Config>,
    client: ClientId,
    signer: Signer,
    // The time of the last request, or the one that the first goes behind.
    time: u64,
    // The last request, which is open until a reply was accepted.
    request: Option<Checked>,
    // What was replied to the open request, until a reply was accepted.
    answers: Vec<Answer>,
    accepted: Option<Reply>,
}

impl Model for Session {
    ghost use Rattle.std.specs.Prelude.{◌≡◌, ◌+◌, ◌^◌, ◌≤◌, IfSome};
    ghost use Rattle.std.specs.Option.{option_map};
    ghost use Rattle.seal.specs.Opening.{CheckedMessage};
    ghost use Rattle.client_session.specs.Sessions.{MaySign, SessionState, accepted_by};

    ghost Value = { SessionState };

    ghost view = { λ s. record {
      config = s.config.value;
      client = s.client;
      signer = s.signer;
      time = s.time;
      answers = s.answers.items;
      request = option_map (λ (m : CheckedMessage). m.message) s.request;
    } };

    ghost invariant = { λ s.
        let state : SessionState = record {
          config = s.config.value;
          client = s.client;
          signer = s.signer;
          time = s.time;
          answers = s.answers.items;
          request = option_map (λ (m : CheckedMessage). m.message) s.request;
        } in
        MaySign state × (s.time ≤ 2 ^ 63 + s.signer.next_leaf) × (s.accepted ≡ accepted_by state)
        × IfSome s.request (λ m. m.config ≡ s.config.value) };
}

impl Session {
    /// A session of a client that hasn't asked yet: its first request has time 1. The caller owes a signer
    /// whose key is the one that is listed for the client. The error is that memory ran out; the signer is
    /// then gone.
    pub fn new(
        alloc: Global,
        config: &Arc<Config>,
        client: ClientId,
        signer: Signer,
    ) -> Result<Session, AllocError>
        requires { MaySign (session_behind config.now.value client signer 0) }
        ensures { IfOk result (λ s. s ≡ session_behind config.now.value client signer 0) }
    {
        Session::resume(alloc, config, client, signer, 0)
    }

    /// A session of a client that has asked before: its first request has the time behind this one. The
    /// caller owes what it owes `new`, and besides:
    ///
    /// - a time at least as great as the greatest that the client has asked with, since the service doesn't
    ///   execute a request of an earlier or equal time again: at an equal time it answers with the reply
    ///   to the old operation that it keeps, and at an earlier one not at all;
    /// - a signer that goes on behind the leaves that it has used;
    /// - that one session at a time reads the client's replies.
    ///
    /// Replies to earlier requests that still come are passed over, since their time is another. The error
    /// is that memory ran out; the signer is then gone.
    pub fn resume(
        alloc: Global,
        config: &Arc<Config>,
        client: ClientId,
        signer: Signer,
        time: u64,
    ) -> Result<Session, AllocError>
        requires signer { MaySign (session_behind config.now.value client signer time) }
        requires time { time ≤ 2 ^ 63 }
        ensures { IfOk result (λ s. s ≡ session_behind config.now.value client signer time) }
    {
        Ok(Session {
            alloc,
            config: Arc::try_clone(config)?,
            client,
            signer,
            time,
            request: None,
            answers: Vec::new(alloc),
            accepted: None,
        })
    }

    /// The client. It takes no memory.
    pub fn client(&self) -> ClientId
        ensures { result ≡ self.now.client }
    {
        self.client
    }

    /// The last request, which is open until a reply is accepted; none before the first. It takes no
    /// memory.
    pub fn last_request(&self) -> Option<&Checked>
        ensures request { option_map (λ (m : CheckedMessage). m.message) (option_copied result) ≡ self.now.request }
        ensures config { IfSome result (λ m. m.now.config ≡ self.now.config) }
    {
        self.request.as_ref()
    }

    /// The signed request of this operation, which is then the open one; what was open is given up. The
    /// operation has at most 1,048,576 bytes. `Exhausted` comes exactly where the signer has no leaf left,
    /// and changes nothing. `Memory` may have used a leaf; the open request, its replies and the next time
    /// stay as they were.
    pub fn request(&mut self, op: Bytes) -> Result<Checked, SessionFault>
        requires { length op ≤ 1048576 }
        ensures request { IfOk result (λ m. m ≡ record { config = self.old.config; message = next_request self.old op }) }
        ensures asked { OnOk result (self.new ≡ asked self.old op (after_signing self.old.signer)) }
        ensures exhausted { IsErrOf result Exhausted ↔ (self.old.signer.next_leaf ≡ leaf_count self.old.signer) }
        ensures unchanged { IsErrOf result Exhausted → self.new ≡ self.old }
        ensures open { OnErr result (self.new ≡ record self.old { signer = self.new.signer }) }
        ensures leaf { IsErrOf result Memory →
            (self.new.signer ≡ self.old.signer) ⊎ (self.new.signer ≡ after_signing self.old.signer) }
        ensures fault { IfErr result (λ fault. (fault ≡ Exhausted) ⊎ (fault ≡ Memory)) }
    {
        if self.signer.leaves_left() == 0 {
            return Err(SessionFault::Exhausted);
        }
        let time = self.time + 1;
        let id = self.client.0;
        let request = seal(
            self.alloc,
            &self.config,
            &mut self.signer,
            Role::Client,
            id,
            Body::Request(RequestBody { time, op }),
        )?;
        let open_request = request.copy()?;
        self.time = time;
        self.request = Some(open_request);
        self.answers.clear();
        self.accepted = None;
        Ok(request)
    }

    /// Takes a message that was checked under the session's configuration, which the caller owes. A Reply
    /// to the open request, of whatever view, counts until f + 1 different replicas have replied with one
    /// number and result, which is then accepted (Castro and Liskov 1999, section 4.1). All else is passed
    /// over. The only refusal is `Memory`, which changes nothing.
    pub fn offer(&mut self, message: &Checked) -> Result<(), SessionFault>
        requires { message.now.config ≡ self.old.config }
        ensures offered { OnOk result (self.new ≡ offered self.old message.now.message) }
        ensures memory { IfErr result (λ fault. fault ≡ Memory) }
        ensures unchanged { OnErr result (self.new ≡ self.old) }
    {
        match message.body() {
            Body::Reply(reply) if self.awaits(reply) => {
                self.count(message.signer().1, reply)?;
                Ok(())
            }
            _ => Ok(()),
        }
    }

    /// The reply to the open request that was accepted, if one was. It takes no memory.
    pub fn accepted(&self) -> Option<&Reply>
        ensures { option_copied result ≡ accepted_by self.now }
    {
        self.accepted.as_ref()
    }

    /// Whether this is a reply to the open request, and none is accepted yet.
    fn awaits(&self, reply: &ReplyBody) -> bool
        ensures { result ≡ awaits self.now reply.now }
    {
        self.request.is_some()
            && self.accepted.is_none()
            && reply.client == self.client
            && reply.time == self.time
    }

    /// Counts a reply to the open request.
    fn count(&mut self, replica: u32, reply: &ReplyBody) -> Result<(), AllocError>
        requires { accepted_by self.old ≡ None }
        ensures counted { OnOk result (self.new ≡ record self.old { answers = self.old.answers ++ answer_in replica reply.now ∷ [] }) }
        ensures unchanged { OnErr result (self.new ≡ self.old) }
    {
        let result = reply.result.try_clone(self.alloc)?;
        let accepted = reply.result.try_clone(self.alloc)?;
        let answer = Answer {
            replica,
            number: reply.number,
            result,
        };
        // What a replica says again backs nothing new.
        let is_repeated = has_said(&self.answers, reply, replica);
        self.answers.push(answer)?;
        if is_repeated {
            return Ok(());
        }
        if is_vouched(self.config.f(), &self.answers, reply) {
            self.accepted = Some(Reply {
                client: self.client,
                time: self.time,
                number: reply.number,
                result: accepted,
            });
        }
        Ok(())
    }
}
