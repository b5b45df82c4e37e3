//! A running script: the replicas, the clients, and the messages between them.

mod edits;
mod fates;
mod printing;

ghost use Rattle.std.specs.Prelude.{◌≡◌, ◌<◌, ◌++◌, None, Some, IfOk, IfSome, OnOk, is_some, find, flat_map, length, map, option_copied, option_map, string_bytes};
ghost use Rattle.std.specs.FinSet as set;
ghost use Rattle.drained_records.specs.Worlds.{first_world, member_of};
ghost use Rattle.world_script.specs.Starts.{forgers_from, numbers_of, start_of};
ghost use Rattle.script_text.specs.declared.script.DeliveryOrder.TheVariants as orders;
ghost use Rattle.script_text.specs.declared.script.Step.TheVariants as steps;
ghost use Rattle.script_text.specs.Node.TheVariants as nodes;
ghost use Rattle.world_script.specs.Keys.{correct_from, keys_of};
ghost use Rattle.world_queue.specs.Parties.{key_of};
ghost use Rattle.world_queue.specs.Letters.{copies, first_meant, meant_count};
ghost use Rattle.world_queue.specs.Waiting.{first_open};
ghost use Rattle.drained_records.specs.Event.TheVariants as events;
ghost use Rattle.world_script.specs.Parts.{DeliversNext, Expires, Happened, HasMore, Takes, TellsActs, TellsHanding, TellsStep, TellsTimeout, TellsTimeouts, ahead, with_message};
ghost use Rattle.world_script.specs.Seen.{RunTells, Tells, losses_seen, standing};
ghost use Rattle.pbft_codec.specs.declared.body.Body.TheVariants as bodies;
ghost use Rattle.pbft_codec.specs.declared.body.request.RequestBody.{RequestBody};
ghost use Rattle.pbft_codec.specs.WellFormed.{BodyWellFormed};
ghost use Rattle.world_script.specs.Stages.{digest_named, forged_body, forges, is_request, is_running, letters_in, letters_of, lacked_memory, halt_in, refusal_of, all_replicas, after_naming, message_of, queued, requested};
ghost use Rattle.seal.specs.Opening.{opening};

use crate::fault::RunFault;
use crate::keys::KeySources;
use crate::made::Made;
use crate::progress::{Progress, Unwatched};
use crate::watcher::{Delivery, Expiry, Watcher};
use crate::writing::write_text;
use drained_records::{Dest, Event, Halt, Output, Row, Status, World};
use host_types::{Bytes, ClientId, Config, Digest, ReplicaId, ReplicaSet};
use lms_tree::Signer;
use pbft_codec::Body;
use script_text::{
    DeliveryOrder, Filter, ForgedMessage, Forgery, Head, Kind, NamedStep, Node, Order, Printout,
    QueueEdit, Step,
};
use seal::{Checked, SealFault, open, request_digest};
use sha2::{Digest as _, Sha256};
use std::alloc::{AllocError, Global};
use std::io::Write;
use std::marker::Model;
use std::mem::swap;
use std::sync::Arc;
use world_queue::{
    Forger, Letter, Named, Queue, Sessions, checkpoint_body, draw, forge, letter_of,
    line_of_nothing_queued, line_of_refusal, seed_of, view_change_body, vote_body,
};

/// The most deliveries of one step.
const MAX_DELIVERIES: u32 = 1_000_000;

/// A running script: the replicas, the clients, and what is on its way between them. Contracts see what the
/// definitions call a stage.
#[derive(Drop)]
pub struct Stage {
    alloc: Global,
    config: Arc<Config>,
    // All replicas, ids ascending.
    everyone: Vec<Node>,
    world: World,
    forgers: Vec<Forger>,
    sessions: Sessions,
    made: Vec<Made>,
    named: Vec<Named>,
    queue: Queue,
}

impl Model for Stage {
    ghost use Rattle.std.specs.Prelude.{◌≡◌};
    ghost use Rattle.std.specs.Coded.{codes};
    ghost use Rattle.service_model.specs.Equality.{service_code};
    ghost use Rattle.world_script.specs.Facts.{StageFacts};
    ghost use Rattle.world_script.specs.Stages.{all_replicas};

    ghost Value = { StageFacts };

    ghost coded = { Prim.hlevel (codes, service_code) };

    ghost view = { λ s. record { world = s.world; forgers = s.forgers.items; sessions = s.sessions.sessions.items; made = s.made.items; named = s.named.items; queue = s.queue } };

    ghost invariant = { λ s. (s.world.config ≡ s.config.value) × (s.sessions.config.value ≡ s.config.value) × (s.everyone.items ≡ all_replicas s.config.value) };
}

impl Stage {
    /// The stage of a head, with an empty queue. It makes the head's keys. The error is that memory ran out.
    pub fn new(alloc: Global, head: &Head) -> Result<Stage, AllocError>
        ensures { IfOk result (λ s. s ≡ start_of head.now) }
    {
        Stage::watched(alloc, head, &mut Unwatched)
    }

    /// The same, and tells how many keys are made.
    pub fn watched<P: Progress>(
        alloc: Global,
        head: &Head,
        progress: &mut P,
    ) -> Result<Stage, AllocError>
        ensures { IfOk result (λ s. s ≡ start_of head.now) }
    {
        let sources = KeySources::watched(alloc, head, progress)?;
        Stage::with_keys(alloc, head, &sources)
    }

    /// The same with the head's keys as they were made before, for a script that runs many times.
    pub fn with_keys(alloc: Global, head: &Head, sources: &KeySources) -> Result<Stage, AllocError>
        requires { sources.now ≡ keys_of head.now }
        ensures { IfOk result (λ s. s ≡ start_of head.now) }
    {
        let keys = sources.keys(alloc, head)?;
        let config = Arc::new(alloc, keys.config)?;
        let faulty = faulty_set(head.faulty());
        let (world, forgers) = new_world(alloc, &config, &faulty, keys.replicas)?;
        let everyone = everyone(alloc, &config)?;
        Ok(Stage {
            alloc,
            world,
            everyone,
            forgers,
            sessions: Sessions::new(alloc, &config, keys.clients)?,
            config,
            made: Vec::new(alloc),
            named: Vec::new(alloc),
            queue: Queue::new(alloc),
        })
    }

    // ---- what a watcher asks

    /// The replicas' world.
    pub fn world(&self) -> &World
        ensures { result.now ≡ self.now.world }
    {
        &self.world
    }

    /// Who takes part.
    pub fn config(&self) -> &Arc<Config>
        ensures { result.now.value ≡ self.now.world.config }
    {
        &self.config
    }

    /// What it allocates by.
    pub(crate) fn alloc(&self) -> Global {
        self.alloc
    }

    // ---- steps

    /// Runs a step, writes what it prints, and returns that. An `expect` is not looked at. The watcher is told of what happens, of
    /// each thing once and in order.
    pub fn run<O: Write>(
        &mut self,
        step: &Step,
        writer: &mut O,
        watcher: &mut dyn Watcher,
    ) -> Result<String, RunFault>
        ensures { RunTells self.old step.now (O.contents writer.old) (O.contents writer.new) result self.new (told watcher.old) (told watcher.new) }
    {
        if let Step::Deliver { filter, order } = step {
            return match order {
                DeliveryOrder::Oldest => self.deliver(filter, writer, watcher),
                DeliveryOrder::Drawn(_)
                | DeliveryOrder::Chosen(_)
                | DeliveryOrder::Unreliable { .. } => {
                    self.deliver_in(filter, order, writer, watcher)
                }
            };
        }
        let Ok(text) = self.perform(step, watcher) else {
            return Err(RunFault::Memory);
        };
        match write_text(writer, &text) {
            Ok(()) => Ok(text),
            Err(fault) => Err(fault),
        }
    }

    /// Runs a step that delivers nothing, and tells of what it prints. What is printed.
    fn perform(&mut self, step: &Step, watcher: &mut dyn Watcher) -> Result<String, AllocError>
        ensures { IfOk result (λ text. TellsStep self.old step.now (string_bytes text) self.new (told watcher.old) (told watcher.new)) }
    {
        let text = self.act(step, watcher)?;
        if text.as_bytes().is_empty() {
            return Ok(text);
        }
        watcher.printed(self, step, &text)?;
        Ok(text)
    }

    /// Does what a step says that delivers nothing, and tells of it. What is printed.
    fn act(&mut self, step: &Step, watcher: &mut dyn Watcher) -> Result<String, AllocError>
        ensures { IfOk result (λ text. TellsActs self.old step.now (string_bytes text) self.new (told watcher.old) (told watcher.new)) }
    {
        let nothing = String::new(self.alloc);
        match step {
            Step::Request(order) => self.request(order),
            Step::Forge(forgery) => self.forge(forgery),
            Step::Timeout(at) => {
                self.time_out(at.as_slice(), watcher)?;
                Ok(nothing)
            }
            Step::Edit(edit) => {
                self.tell_lost(edit, watcher)?;
                self.edit(edit)
            }
            Step::Print(printout) => self.printout_text(printout),
            Step::Deliver { .. } | Step::Expect(_) => Ok(nothing),
        }
    }

    /// Tells of the letters that a change of the queue loses.
    fn tell_lost(&self, edit: &QueueEdit, watcher: &mut dyn Watcher) -> Result<(), AllocError>
        ensures { OnOk result (Tells (told watcher.old) (losses_seen self.now edit.now) (told watcher.new)) }
    {
        let QueueEdit::Drop(filter) = edit else {
            return Ok(());
        };
        for index in 0..self.queue.len() {
            if let Some(letter) = self.queue.meant_at(filter, index) {
                watcher.lost(letter)?;
            }
        }
        Ok(())
    }

    // ---- what is queued

    /// Makes a client's request and queues it. What is printed.
    fn request(&mut self, order: &Order) -> Result<String, AllocError>
        ensures { IfOk result (λ text. (string_bytes text, self.new) ≡ requested self.old order.now) }
    {
        let op = Bytes::from_vec(Vec::from_slice(self.alloc, order.op.as_slice())?);
        let Some(request) = self.sessions.request(order.client, op)? else {
            return line_of_nothing_queued(self.alloc);
        };
        self.queue_request(order, &request)?;
        Ok(String::new(self.alloc))
    }

    fn queue_request(&mut self, order: &Order, request: &Checked) -> Result<(), AllocError>
        ensures { (b : RequestBody) → request.now.message.body ≡ bodies.Request b → OnOk result (self.new ≡ with_message self.old order.now request.now.message b) }
    {
        let Body::Request(body) = request.body() else {
            return Ok(());
        };
        self.made.push(Made {
            client: order.client,
            time: body.time,
            digest: request_digest(request),
        })?;
        let letter = letter_of(self.alloc, Node::Client(order.client), request)?;
        match &order.to {
            Some(to) => self.queue.send(&letter, to.as_slice()),
            None => self.queue.send(&letter, &self.everyone),
        }
    }

    /// Signs a message of a faulty replica and queues it. What is printed.
    fn forge(&mut self, forgery: &Forgery) -> Result<String, AllocError>
        ensures { IfOk result (λ text. (string_bytes text, self.new) ≡ forges self.old forgery.now) }
    {
        let Some(body) = self.forged_body(&forgery.message) else {
            return line_of_nothing_queued(self.alloc);
        };
        let kind = Kind::of(&body);
        let Some(bytes) = forge(self.alloc, &mut self.forgers, forgery, body)? else {
            return line_of_nothing_queued(self.alloc);
        };
        let from = Node::Replica(forgery.from);
        let letter = Letter::new(self.alloc, from, Some(from), Some(kind), &bytes)?;
        self.queue.send(&letter, forgery.to.as_slice())?;
        Ok(String::new(self.alloc))
    }

    /// What a forged message says; none where it is a vote for a request that was never made.
    fn forged_body(&self, message: &ForgedMessage) -> Option<Body>
        ensures formed { IfSome result BodyWellFormed }
        ensures value { result ≡ forged_body self.now message.now }
    {
        match message {
            ForgedMessage::Vote(vote) => {
                let digest = self.digest_named(&vote.request)?;
                Some(vote_body(vote, digest))
            }
            ForgedMessage::Checkpoint { number, digest } => Some(checkpoint_body(number, *digest)),
            ForgedMessage::ViewChange(view) => Some(view_change_body(self.alloc, *view)),
        }
    }

    /// The digest of a request that was made, or of the null request.
    fn digest_named(&self, request: &Option<(ClientId, u64)>) -> Option<Digest>
        ensures { option_map (λ d. d.0) result ≡ digest_named self.now request.now }
    {
        let Some((client, time)) = request else {
            let nothing: &[u8] = &[];
            return Some(Digest(Sha256::digest(nothing)));
        };
        match find_made(&self.made, *client, *time) {
            Some(made) => Some(made.digest),
            None => None,
        }
    }

    /// Whether the client made a request of this time.
    pub fn has_made(&self, client: ClientId, time: u64) -> bool
        ensures { result ≡ is_some (find (is_request (client, time)) self.now.made) }
    {
        find_made(&self.made, client, time).is_some()
    }

    /// The first client, as the script lists them, whose request is open, and that request's time: its last one, as long as no
    /// reply to it is accepted.
    pub fn first_open(&self) -> Option<(ClientId, u64)>
        ensures { result ≡ first_open self.now.sessions }
    {
        self.sessions.first_open()
    }

    // ---- names

    /// How many letters are on their way.
    pub fn queue_length(&self) -> usize
        ensures { result ≡ length self.now.queue }
    {
        self.queue.len()
    }

    /// Gives the name of a step to its message, if it has one: the first that a `queue` lists, else the first behind so many.
    pub fn name(&mut self, step: &NamedStep, before: usize) -> Result<(), AllocError>
        ensures { OnOk result (self.new ≡ after_naming before step.now self.old) }
    {
        let Some(name) = &step.name else {
            return Ok(());
        };
        if let Some(letter) = self.message_of(&step.step, before)? {
            let name = name.try_clone(self.alloc)?;
            self.named.push(Named { name, letter })?;
        }
        Ok(())
    }

    /// The message that a step names, before which so many were queued.
    fn message_of(&self, step: &Step, before: usize) -> Result<Option<Letter>, AllocError>
        ensures { IfOk result (λ letter. letter ≡ message_of before step.now self.now) }
    {
        match step {
            Step::Print(Printout::Queue(filter)) => self.queue.first_meant(filter),
            _ => self.queue.copy_of(before),
        }
    }

    // ---- deliveries

    /// Delivers the first letter that is meant, until none is. What comes of it is queued last.
    fn deliver<O: Write>(
        &mut self,
        filter: &Filter,
        writer: &mut O,
        watcher: &mut dyn Watcher,
    ) -> Result<String, RunFault>
        ensures { RunTells self.old (steps.Deliver filter.now orders.Oldest) (O.contents writer.old) (O.contents writer.new) result self.new (told watcher.old) (told watcher.new) }
    {
        let mut lines = String::new(self.alloc);
        let mut others = Queue::new(self.alloc);
        for _ in 0..MAX_DELIVERIES {
            let Some(text) = self.deliver_next(filter, &mut others, watcher)? else {
                return Ok(lines);
            };
            let line = text.as_str();
            lines.push_str(line)?;
            if let Err(_) = write_text(writer, line) {
                return Err(RunFault::Write);
            }
        }
        if self.has_more(filter, others)? {
            return Err(RunFault::TooManyDeliveries);
        }
        Ok(lines)
    }

    /// Delivers the first letter that is meant; those before it go to `others`. What is printed. Where none
    /// is meant, all are queued as they were.
    fn deliver_next(
        &mut self,
        filter: &Filter,
        others: &mut Queue,
        watcher: &mut dyn Watcher,
    ) -> Result<Option<String>, AllocError>
        requires { first_meant filter.now others.old ≡ None }
        ensures { IfOk result (λ text. DeliversNext filter.now (ahead others.old self.old) (option_map string_bytes text) others.new self.new (told watcher.old) (told watcher.new)) }
    {
        let Some(letter) = self.queue.next_meant(filter, others)? else {
            swap(&mut self.queue, others);
            return Ok(None);
        };
        let text = self.hand_over(letter, 0, watcher)?;
        Ok(Some(text))
    }

    /// Whether one more letter is meant. Where none is, all are queued as they were.
    fn has_more(&mut self, filter: &Filter, others: Queue) -> Result<bool, AllocError>
        requires { first_meant filter.now others ≡ None }
        ensures { IfOk result (HasMore filter.now (ahead others self.old) self.new) }
    {
        let mut others = others;
        if self.queue.next_meant(filter, &mut others)?.is_some() {
            return Ok(true);
        }
        swap(&mut self.queue, &mut others);
        Ok(false)
    }

    /// Delivers letters that are meant in an order, until none is; some may be lost or come again, or replicas time out. What comes of it is
    /// queued last.
    fn deliver_in<O: Write>(
        &mut self,
        filter: &Filter,
        order: &DeliveryOrder,
        writer: &mut O,
        watcher: &mut dyn Watcher,
    ) -> Result<String, RunFault>
        ensures { RunTells self.old (steps.Deliver filter.now order.now) (O.contents writer.old) (O.contents writer.new) result self.new (told watcher.old) (told watcher.new) }
    {
        let mut lines = String::new(self.alloc);
        let mut state = seed_of(order);
        for done in 0..MAX_DELIVERIES {
            let count = self.count_meant(filter);
            if count == 0 {
                return Ok(lines);
            }
            let (fate, next) = draw(order, done, state, count, self.replica_count());
            state = next;
            let text = self.befall(filter, fate, watcher)?;
            let line = text.as_str();
            lines.push_str(line)?;
            if let Err(_) = write_text(writer, line) {
                return Err(RunFault::Write);
            }
        }
        if self.count_meant(filter) > 0 {
            return Err(RunFault::TooManyDeliveries);
        }
        Ok(lines)
    }

    /// How many letters are meant.
    fn count_meant(&self, filter: &Filter) -> usize
        ensures { result ≡ meant_count filter.now self.now.queue }
    {
        self.queue.count_meant(filter)
    }

    /// Hands a letter to its addressee that passed over so many, and tells of it. What is printed.
    fn hand_over(
        &mut self,
        letter: Letter,
        passed: usize,
        watcher: &mut dyn Watcher,
    ) -> Result<String, AllocError>
        ensures { IfOk result (λ text. TellsHanding letter passed self.old (string_bytes text) self.new (told watcher.old) (told watcher.new)) }
    {
        let before = self.standing(letter.to());
        let (text, row) = self.take(letter.to(), letter.bytes())?;
        let delivery = Delivery {
            letter,
            passed,
            before,
            row,
            text,
        };
        watcher.handed(self, &delivery)?;
        Ok(delivery.text)
    }

    /// Where a correct replica stands.
    fn standing(&self, node: Node) -> Option<Status>
        ensures { result ≡ standing self.now.world node }
    {
        match node {
            Node::Replica(id) => self.world.status(id),
            Node::Client(_) => None,
        }
    }

    /// Lets bytes come to a node. What is printed, and the row that it gave.
    fn take(&mut self, to: Node, bytes: &[u8]) -> Result<(String, Option<Row>), AllocError>
        ensures { IfOk result (λ r. Takes to self.old bytes.now (string_bytes r.0) r.1 self.new) }
    {
        match to {
            Node::Replica(id) => self.take_in(id, bytes),
            Node::Client(client) => Ok((self.sessions.deliver(client, bytes)?, None)),
        }
    }

    /// Lets bytes come to a replica. One that is faulty or has stopped does nothing. What is printed, and the row that it gave.
    fn take_in(&mut self, id: ReplicaId, bytes: &[u8]) -> Result<(String, Option<Row>), AllocError>
        ensures { IfOk result (λ r. Takes (nodes.Replica id) self.old bytes.now (string_bytes r.0) r.1 self.new) }
    {
        let nothing = String::new(self.alloc);
        if !self.is_running(id) {
            return Ok((nothing, None));
        }
        let row = self.receive(id, bytes)?;
        if row.is_some() || !self.is_running(id) {
            return Ok((nothing, row));
        }
        let text = self.refusal_text(id, bytes)?;
        Ok((text, None))
    }

    /// Lets bytes come to a replica, and queues what it gives. The row, if it gave one.
    fn receive(&mut self, id: ReplicaId, bytes: &[u8]) -> Result<Option<Row>, AllocError>
        ensures { IfOk result (λ row. Happened self.old id (events.Deliver id bytes.now) row self.new) }
    {
        let event = Event::Deliver {
            to: id,
            bytes: Bytes::from_vec(Vec::from_slice(self.alloc, bytes)?),
        };
        self.happen(id, &event)
    }

    /// Timeouts at replicas, one after another.
    fn time_out(&mut self, at: &[ReplicaId], watcher: &mut dyn Watcher) -> Result<(), AllocError>
        ensures { OnOk result (TellsTimeouts self.old at.now self.new (told watcher.old) (told watcher.new)) }
    {
        for id in at {
            self.time_out_at(*id, watcher)?;
        }
        Ok(())
    }

    /// A timeout at a replica, of which it tells. One that is faulty or has stopped does nothing.
    fn time_out_at(&mut self, id: ReplicaId, watcher: &mut dyn Watcher) -> Result<(), AllocError>
        ensures { OnOk result (TellsTimeout self.old id self.new (told watcher.old) (told watcher.new)) }
    {
        let before = self.standing(Node::Replica(id));
        let row = self.expire(id)?;
        let expiry = Expiry {
            before,
            at: id,
            row,
        };
        watcher.timed_out(self, &expiry)
    }

    /// Lets a replica's timer expire. The row, if it gave one.
    fn expire(&mut self, id: ReplicaId) -> Result<Option<Row>, AllocError>
        ensures { IfOk result (λ row. Expires self.old id row self.new) }
    {
        if !self.is_running(id) {
            return Ok(None);
        }
        self.happen(id, &Event::Timeout { at: id })
    }

    /// Lets an event happen at a replica, and queues what it gives. The row, if it gave one.
    fn happen(&mut self, id: ReplicaId, event: &Event) -> Result<Option<Row>, AllocError>
        ensures { IfOk result (λ row. Happened self.old id event.now row self.new) }
    {
        let Ok(row) = self.world.event(event) else {
            return Err(AllocError);
        };
        if self.is_out_of_memory(id) {
            return Err(AllocError);
        }
        if let Some(row) = &row {
            self.queue_outputs(id, row.outputs())?;
        }
        Ok(row)
    }

    /// Whether a replica is correct and has not stopped.
    fn is_running(&self, id: ReplicaId) -> bool
        ensures { result ≡ is_running self.now.world id }
    {
        self.world.state(id).is_some()
    }

    /// Whether a replica has stopped for lack of memory.
    fn is_out_of_memory(&self, id: ReplicaId) -> bool
        ensures { result ≡ lacked_memory (halt_in (member_of self.now.world id.0)) }
    {
        match self.world.status(id) {
            Some(status) => matches!(status.halted, Some(Halt::Memory)),
            None => false,
        }
    }

    /// What is printed of bytes that a replica refuses.
    fn refusal_text(&self, id: ReplicaId, bytes: &[u8]) -> Result<String, AllocError>
        ensures { IfOk result (λ text. string_bytes text ≡ refusal_of id (opening self.now.world.config bytes.now)) }
    {
        match open(self.alloc, &self.config, bytes) {
            Ok(_) => Ok(String::new(self.alloc)),
            Err(SealFault::Memory) => Err(AllocError),
            Err(fault) => line_of_refusal(self.alloc, id, fault),
        }
    }

    /// Queues the outputs of a replica.
    fn queue_outputs(&mut self, from: ReplicaId, outputs: &[Output]) -> Result<(), AllocError>
        ensures { OnOk result (self.new ≡ queued self.old (flat_map (letters_of self.old.world.config from) outputs.now)) }
    {
        for output in outputs {
            self.queue_output(from, output)?;
        }
        Ok(())
    }

    fn queue_output(&mut self, from: ReplicaId, output: &Output) -> Result<(), AllocError>
        ensures { OnOk result (self.new ≡ queued self.old (letters_of self.old.world.config from output.now)) }
    {
        let node = Node::Replica(from);
        let letter = letter_of(self.alloc, node, &output.message)?;
        match output.to {
            Dest::All => self.queue.send_but(&letter, &self.everyone, node),
            Dest::Replica(to) => self.queue.send(&letter, &[Node::Replica(to)]),
            Dest::Client(to) => self.queue.send(&letter, &[Node::Client(to)]),
        }
    }
}

/// The request of this client and time.
fn find_made(made: &[Made], client: ClientId, time: u64) -> Option<&Made>
    ensures { option_copied result ≡ find (is_request (client, time)) made.now }
{
    made.iter()
        .find(|made| made.client.0 == client.0 && made.time == time)
}

/// All replicas, ids ascending.
fn everyone(alloc: Global, config: &Config) -> Result<Vec<Node>, AllocError>
    ensures { IfOk result (λ nodes. nodes.items ≡ all_replicas config.now) }
{
    let mut nodes = Vec::new(alloc);
    for id in 0..config.replica_count() {
        nodes.push(Node::Replica(ReplicaId(id)))?;
    }
    Ok(nodes)
}

/// The faulty replicas as a set.
fn faulty_set(faulty: &[ReplicaId]) -> ReplicaSet
    ensures { result ≡ numbers_of faulty.now }
{
    let mut set = ReplicaSet::new();
    for id in faulty {
        set.insert(*id);
    }
    set
}

/// A world before its first event, and the signers of its faulty replicas, given one for each replica,
/// ids ascending, with the key that is listed for it.
fn new_world(
    alloc: Global,
    config: &Arc<Config>,
    faulty: &ReplicaSet,
    signers: Vec<Signer>,
) -> Result<(World, Vec<Forger>), AllocError>
    requires { config.now.value.keys ≡ map key_of signers.items }
    ensures world { IfOk result (λ r. r.0 ≡ first_world config.now.value (λ i. set.contains faulty.now i) (correct_from (λ i. set.contains faulty.now i) 0 signers.items)) }
    ensures forgers { IfOk result (λ r. r.1.items ≡ forgers_from (λ i. set.contains faulty.now i) 0 signers.items) }
{
    let (correct, forgers) = parted(alloc, config.replica_count(), signers, faulty)?;
    match World::new(alloc, config, faulty, correct) {
        Ok(world) => Ok((world, forgers)),
        Err(_) => Err(AllocError),
    }
}

/// The signers of correct replicas, ids ascending, and the faulty ones', given one for each replica.
fn parted(
    alloc: Global,
    count: u8,
    signers: Vec<Signer>,
    faulty: &ReplicaSet,
) -> Result<(Vec<Signer>, Vec<Forger>), AllocError>
    requires { length signers.items ≡ count }
    ensures correct { IfOk result (λ parts. parts.0.items ≡ correct_from (λ i. set.contains faulty.now i) 0 signers.items) }
    ensures faulty { IfOk result (λ parts. parts.1.items ≡ forgers_from (λ i. set.contains faulty.now i) 0 signers.items) }
{
    let mut correct = Vec::new(alloc);
    let mut forgers = Vec::new(alloc);
    let mut signers = signers.into_iter();
    for id in 0..count {
        let id = ReplicaId(id);
        let Some(signer) = signers.next() else {
            unreachable!()
        };
        if faulty.contains(id) {
            forgers.push(Forger { id, signer })?;
        } else {
            correct.push(signer)?;
        }
    }
    Ok((correct, forgers))
}
