//! A world that a seed draws: replicas, clients, and messages on their way.

use crate::customer::Customer;
use crate::draws::Draws;
use crate::keys::{Keys, client_id, client_index};
use crate::letter::{Letter, Place};
use crate::liar::{Liar, Twist};
use crate::node::Node;
use crate::notes::Notes;
use crate::plan::{Conduct, Loss, Plan};
use anyhow::{Result, anyhow};
use drained_records::{Dest, Output, Row, Status};
use host_types::{Config, Digest, ReplicaId};
use seal::{Checked, request_digest};
use std::alloc::{AllocError, Global};
use std::mem;
use std::sync::Arc;

/// The steps in which timers expire and messages are lost, come late or twice.
const UNRULY: u32 = 120;

/// The most deliveries behind those.
const MOST: u32 = 100_000;

/// The digest of nothing that anybody asked for or executed.
const NOTHING: Digest = Digest([0x5a; 32]);

/// Replicas, clients, and messages on their way.
#[derive(Drop)]
pub(crate) struct World {
    alloc: Global,
    draws: Draws,
    plan: Plan,
    config: Arc<Config>,
    /// Those that are not correct, too.
    nodes: Vec<Node>,
    liars: Vec<Liar>,
    customers: Vec<Customer>,
    letters: Vec<Letter>,
    /// Those that come after all others.
    late: Vec<Letter>,
    notes: Notes,
}

fn nodes_of(alloc: Global, config: &Arc<Config>, keys: &Keys) -> Result<Vec<Node>> {
    let mut nodes = Vec::new(alloc);
    for id in 0..config.replica_count() {
        let signer = keys.replica(usize::from(id))?;
        nodes.push(Node::new(alloc, config, ReplicaId(id), signer)?)?;
    }
    Ok(nodes)
}

fn liars_of(alloc: Global, config: &Arc<Config>, keys: &Keys, plan: &Plan) -> Result<Vec<Liar>> {
    let mut liars = Vec::new(alloc);
    for id in 0..config.replica_count() {
        let id = ReplicaId(id);
        if plan.conduct(id) == Conduct::Lying {
            let signer = keys.replica(usize::from(id.0))?;
            liars.push(Liar::new(alloc, config, id, signer)?)?;
        }
    }
    Ok(liars)
}

fn customers_of(
    alloc: Global,
    config: &Arc<Config>,
    keys: &Keys,
    plan: &Plan,
) -> Result<Vec<Customer>> {
    let mut customers = Vec::new(alloc);
    for index in 0..usize::from(plan.clients) {
        let signer = keys.client(index)?;
        let id = client_id(index);
        customers.push(Customer::new(alloc, config, id, signer, plan.requests)?)?;
    }
    Ok(customers)
}

impl World {
    /// The world of a seed, before its first message.
    pub(crate) fn new(alloc: Global, keys: &Keys, seed: u64) -> Result<World> {
        let mut draws = Draws::new(seed);
        let plan = Plan::of(seed, &mut draws);
        let config = keys.config(&plan)?;
        Ok(World {
            alloc,
            draws,
            plan,
            nodes: nodes_of(alloc, &config, keys)?,
            liars: liars_of(alloc, &config, keys, &plan)?,
            customers: customers_of(alloc, &config, keys, &plan)?,
            letters: Vec::new(alloc),
            late: Vec::new(alloc),
            notes: Notes::new(alloc),
            config,
        })
    }

    /// All that happens in it, until no message is on its way.
    pub(crate) fn play(&mut self) -> Result<()> {
        self.begin()?;
        self.stir()?;
        self.settle()
    }

    /// What its seed planned, with the timeouts that are left.
    pub(crate) fn plan(&self) -> &Plan {
        &self.plan
    }

    /// Who takes part.
    pub(crate) fn config(&self) -> &Arc<Config> {
        &self.config
    }

    /// The clients, in the order of their indices.
    pub(crate) fn customers(&self) -> &[Customer] {
        &self.customers
    }

    /// What was noted while it was played.
    pub(crate) fn notes(&self) -> &Notes {
        &self.notes
    }

    /// The rows of each correct replica.
    pub(crate) fn records(&self) -> Result<Vec<(ReplicaId, Vec<Row>)>, AllocError> {
        let mut records = Vec::new(self.alloc);
        for (node, id) in self.nodes.iter().zip(0u8..) {
            if self.is_correct(ReplicaId(id)) {
                records.push((ReplicaId(id), node.rows()?))?;
            }
        }
        Ok(records)
    }

    /// Where each correct replica stands.
    pub(crate) fn statuses(&self) -> Result<Vec<Status>, AllocError> {
        let mut statuses = Vec::new(self.alloc);
        for (node, id) in self.nodes.iter().zip(0u8..) {
            if self.is_correct(ReplicaId(id)) {
                statuses.push(node.status())?;
            }
        }
        Ok(statuses)
    }

    fn is_correct(&self, id: ReplicaId) -> bool {
        self.plan.conduct(id) == Conduct::Correct
    }

    // ---- what happens

    /// Clients ask for the first time, those that don't wait for all that they want.
    fn begin(&mut self) -> Result<()> {
        let rounds = if self.plan.waits {
            1
        } else {
            self.plan.requests
        };
        for _ in 0..rounds {
            for index in 0..self.customers.len() {
                self.ask(index)?;
            }
        }
        Ok(())
    }

    /// A client makes its next request, if it makes another.
    fn ask(&mut self, index: usize) -> Result<()> {
        let Some(customer) = self.customers.get_mut(index) else {
            return Ok(());
        };
        let Some(request) = customer.request()? else {
            return Ok(());
        };
        for id in 0..self.config.replica_count() {
            self.send(None, Place::Replica(ReplicaId(id)), &request)?;
        }
        self.notes.requests.push(request)?;
        Ok(())
    }

    /// Timers expire, and messages come, are lost, come late or twice.
    fn stir(&mut self) -> Result<()> {
        for _ in 0..UNRULY {
            if self.plan.timeouts > 0 && self.draws.percent(10) {
                self.plan.timeouts -= 1;
                self.time_out()?;
            } else if let Some(letter) = self.next_letter() {
                self.pass(letter)?;
            }
        }
        Ok(())
    }

    /// What is on its way comes, and then what comes late.
    fn settle(&mut self) -> Result<()> {
        for _ in 0..MOST {
            if let Some(letter) = self.next_letter() {
                self.deliver(letter)?;
            } else if self.late.is_empty() {
                return Ok(());
            } else {
                mem::swap(&mut self.letters, &mut self.late);
            }
        }
        Err(anyhow!("a world does not come to rest"))
    }

    /// One of the oldest letters.
    fn next_letter(&mut self) -> Option<Letter> {
        let reach = self.plan.reach.min(self.letters.len());
        if reach == 0 {
            return None;
        }
        let index = self.draws.below(reach);
        Some(self.letters.remove(index))
    }

    /// The network does with a letter what it likes.
    fn pass(&mut self, letter: Letter) -> Result<()> {
        if self.draws.percent(self.plan.late) {
            self.late.push(letter)?;
            return Ok(());
        }
        if self.may_lose(&letter) && self.draws.percent(self.plan.lost) {
            return self.lose(letter);
        }
        if self.draws.percent(self.plan.repeated) {
            self.letters.push(letter.copy()?)?;
        }
        self.deliver(letter)
    }

    fn may_lose(&self, letter: &Letter) -> bool {
        match self.plan.loss {
            Loss::None => false,
            Loss::OfOthers => !self.is_between_correct(letter),
            Loss::OfAll => true,
        }
    }

    fn lose(&mut self, letter: Letter) -> Result<()> {
        if self.is_from_correct(&letter) && self.is_to_correct(&letter) {
            self.notes.lose(letter.to, letter.message)?;
        }
        Ok(())
    }

    fn is_from_correct(&self, letter: &Letter) -> bool {
        match letter.from {
            Some(from) => self.is_correct(from),
            None => false,
        }
    }

    /// Clients are correct.
    fn is_to_correct(&self, letter: &Letter) -> bool {
        match letter.to {
            Place::Replica(to) => self.is_correct(to),
            Place::Client(_) => true,
        }
    }

    fn is_between_correct(&self, letter: &Letter) -> bool {
        match letter.to {
            Place::Replica(to) => self.is_correct(to) && self.is_from_correct(letter),
            Place::Client(_) => false,
        }
    }

    fn deliver(&mut self, letter: Letter) -> Result<()> {
        match letter.to {
            Place::Replica(to) => self.hand(to, letter),
            Place::Client(index) => self.tell(index, &letter.message),
        }
    }

    /// A client hears a message.
    fn tell(&mut self, index: usize, message: &Checked) -> Result<()> {
        let Some(customer) = self.customers.get_mut(index) else {
            return Ok(());
        };
        if customer.hear(message)? {
            self.ask(index)?;
        }
        Ok(())
    }

    /// A replica takes a message.
    fn hand(&mut self, to: ReplicaId, letter: Letter) -> Result<()> {
        if self.plan.conduct(to) == Conduct::Silent {
            return Ok(());
        }
        let is_early = self.is_early(to, &letter.message);
        let Some(node) = self.nodes.get_mut(usize::from(to.0)) else {
            return Ok(());
        };
        match node.take(&letter.message)? {
            Some(row) => {
                self.notes.is_early = self.notes.is_early || is_early;
                self.post_all(to, &row)
            }
            None => self.lose(letter),
        }
    }

    /// Whether a message is a correct replica's vote above the high water mark of a correct one.
    fn is_early(&self, to: ReplicaId, message: &Checked) -> bool {
        match (message.vote(), self.nodes.get(usize::from(to.0))) {
            (Some(vote), Some(node)) => {
                let high = node.status().low.0.saturating_add(self.plan.span());
                self.is_correct(to) && self.is_correct(vote.signer) && vote.number.0 > high
            }
            _ => false,
        }
    }

    /// The timer of some replica expires.
    fn time_out(&mut self) -> Result<()> {
        let count = usize::from(self.config.replica_count());
        let at = ReplicaId(self.draws.below(count.max(1)) as u8 % 16);
        if self.plan.conduct(at) == Conduct::Silent {
            return Ok(());
        }
        let Some(node) = self.nodes.get_mut(usize::from(at.0)) else {
            return Ok(());
        };
        match node.timeout()? {
            Some(row) => self.post_all(at, &row),
            None => Ok(()),
        }
    }

    // ---- what replicas say

    /// Sends what a row gives.
    fn post_all(&mut self, from: ReplicaId, row: &Row) -> Result<()> {
        for output in row.outputs() {
            self.post(from, output)?;
        }
        Ok(())
    }

    fn post(&mut self, from: ReplicaId, output: &Output) -> Result<()> {
        let lie = self.lie_of(from, &output.message)?;
        match output.to {
            Dest::All => self.say_to_all(from, &output.message, &lie),
            Dest::Replica(to) => self.say(from, Place::Replica(to), &output.message, &lie),
            Dest::Client(to) => {
                let to = Place::Client(client_index(to));
                self.say(from, to, &output.message, &lie)
            }
        }
    }

    fn say_to_all(
        &mut self,
        from: ReplicaId,
        message: &Checked,
        lie: &Option<Checked>,
    ) -> Result<()> {
        for id in 0..self.config.replica_count() {
            if id != from.0 {
                self.say(from, Place::Replica(ReplicaId(id)), message, lie)?;
            }
        }
        Ok(())
    }

    /// A correct replica sends the message, another one that, its lie or nothing.
    fn say(
        &mut self,
        from: ReplicaId,
        to: Place,
        message: &Checked,
        lie: &Option<Checked>,
    ) -> Result<()> {
        if self.is_correct(from) {
            return self.send(Some(from), to, message);
        }
        match (self.draws.below(5), lie) {
            (0, _) | (1, None) => Ok(()),
            (1 | 2, Some(lie)) => self.send(Some(from), to, lie),
            _ => self.send(Some(from), to, message),
        }
    }

    fn send(&mut self, from: Option<ReplicaId>, to: Place, message: &Checked) -> Result<()> {
        let message = message.copy()?;
        self.letters.push(Letter { from, to, message })?;
        Ok(())
    }

    /// What a liar says in place of a message to some, if it lies.
    fn lie_of(&mut self, from: ReplicaId, message: &Checked) -> Result<Option<Checked>> {
        if self.plan.conduct(from) != Conduct::Lying || self.draws.percent(40) {
            return Ok(None);
        }
        let twist = self.twist();
        match self.liars.iter_mut().find(|liar| liar.id() == from) {
            Some(liar) => liar.lie(message, twist),
            None => Ok(None),
        }
    }

    fn twist(&mut self) -> Twist {
        if self.draws.percent(30) {
            return Twist::Number;
        }
        let place = self.draws.below(self.notes.requests.len() + 1);
        match self.notes.requests.get(place) {
            Some(request) => Twist::Digest(request_digest(request)),
            None => Twist::Digest(NOTHING),
        }
    }
}
