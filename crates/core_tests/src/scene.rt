//! One replica, and those around it, who say whatever a test has them say.

ghost use Rattle.std.specs.Prelude.{◌≡◌, ◌+◌, IfSome};

use crate::node::Node;
use crate::signing::checked;
use crate::words::Words;
use host_types::{Bytes, ClientEntry, ClientId, Config, Digest, ReplicaId, Request, TenantId};
use lms_tree::{Height, Signer};
use pbft_codec::{Body, RequestBody, Role};
use replica_core::{Halt, Input, Output, Replica, Row};
use seal::{Checked, open, request_digest};
use service_core::State;
use sha2::Sha256;
use std::alloc::{AllocError, Global};
use std::sync::Arc;
use std::test::Fail;
use view_change::null_digest;

/// The one client.
pub const CLIENT: u32 = 16;

/// The client's requests: name and time. The operation is none that the service knows, so that the
/// result is the one byte 1. `other-a` is `a`, signed once more: its digest is called `a`.
static REQUESTS: [(&str, u64); 8] = [
    ("a", 1),
    ("b", 2),
    ("c", 3),
    ("d", 4),
    ("e", 5),
    ("f", 6),
    ("g", 7),
    ("other-a", 1),
];

/// States by the times of the requests that were executed before them, 0 for a null request.
static SERVED: [(&str, &[u64]); 7] = [
    ("s0", &[]),
    ("s2", &[0, 0]),
    ("s3", &[0, 0, 0]),
    ("s4", &[0, 0, 0, 0]),
    ("after-a", &[1]),
    ("after-b", &[2]),
    ("after-ab", &[1, 2]),
];

/// The replica under test, the signers of all replicas, the client's requests, and the names of
/// digests. The fault bound is 1, and a checkpoint is at each second number.
#[derive(Drop)]
pub struct Scene {
    pub alloc: Global,
    config: Arc<Config>,
    id: u8,
    /// The replica, once it has begun. A list is dropped in one step of a proof.
    node: Vec<Node>,
    pub signers: Vec<Signer>,
    requests: Vec<(&'static str, Checked)>,
    pub words: Words,
    left: u32,
    last: Option<Row>,
}

/// The signer of this id; ids 0 to 3 are replicas.
pub fn key(alloc: Global, secret: u8, id: u8) -> Result<Signer, Fail> {
    Ok(Signer::from_seed(alloc, Height::H5, [id; 16], [secret; 32])?)
}

// How many leaves were left before a row behind which so many are left.
fn leaves_before(row: &Row, left: u32) -> Option<u32>
    ensures { IfSome result (λ before. before ≡ left + row.now.leaves) }
{
    left.checked_add(row.leaves())
}

/// The replicas' signers.
fn replica_keys(alloc: Global) -> Result<Vec<Signer>, Fail> {
    let mut signers = Vec::new(alloc);
    for id in 0..4u8 {
        signers.push(key(alloc, 7, id)?)?;
    }
    Ok(signers)
}

/// A replica's signer with so many leaves left.
fn key_with(alloc: Global, id: u8, left: u32) -> Result<Signer, Fail> {
    let mut own = key(alloc, 7, id)?;
    for _ in left..own.leaves_left() {
        own.sign(&[])?;
    }
    Ok(own)
}

/// The configuration of these replicas and this client.
pub fn config_of(alloc: Global, signers: &[Signer], client: &Signer) -> Result<Arc<Config>, Fail> {
    let mut keys = Vec::new(alloc);
    for signer in signers {
        keys.push(signer.public_key())?;
    }
    let mut clients = Vec::new(alloc);
    clients.push(ClientEntry {
        id: ClientId(CLIENT),
        tenant: TenantId(1),
        key: client.public_key(),
    })?;
    Ok(Arc::new(alloc, Config::new(1, 2, keys, clients)?)?)
}

// Takes one more request.
fn apply(state: &mut State, request: Option<&Request>) -> Result<(), Fail> {
    if state.number().0 > 1000 {
        return Err(Fail::new("too many requests"));
    }
    let Some(taken) = request else {
        state.apply(None)?;
        return Ok(());
    };
    if !state.is_listed(taken.client) {
        return Err(Fail::new("no such client"));
    }
    state.apply(Some(taken))?;
    Ok(())
}

// The bytes of a state with another number, which stands behind the version.
fn numbered(alloc: Global, state: &[u8], number: u64) -> Result<Vec<u8>, AllocError> {
    let (_, rest) = state.split_at(state.len().min(9));
    let mut bytes = Vec::from_slice(alloc, &[2])?;
    bytes.extend_from_slice(&number.to_be_bytes())?;
    bytes.extend_from_slice(rest)?;
    Ok(bytes)
}

// The bytes of a state with version 1 in front.
fn of_first_version(alloc: Global, state: &[u8]) -> Result<Vec<u8>, AllocError> {
    let (_, rest) = state.split_at(state.len().min(1));
    let mut bytes = Vec::from_slice(alloc, &[1])?;
    bytes.extend_from_slice(rest)?;
    Ok(bytes)
}

impl Scene {
    /// Those around a replica, which `begin` gives.
    pub fn new(alloc: Global) -> Result<Scene, Fail> {
        let mut client = Box::new(alloc, key(alloc, 7, 9)?)?;
        let mut scene = Scene::empty(alloc, &client)?;
        scene.fill(&mut client)?;
        Ok(scene)
    }

    // One before there are requests and states.
    fn empty(alloc: Global, client: &Signer) -> Result<Scene, Fail> {
        let signers = replica_keys(alloc)?;
        Ok(Scene {
            alloc,
            config: config_of(alloc, &signers, client)?,
            id: 0,
            node: Vec::new(alloc),
            signers,
            requests: Vec::new(alloc),
            words: Words::new(alloc),
            left: 0,
            last: None,
        })
    }

    fn fill(&mut self, client: &mut Signer) -> Result<(), Fail> {
        self.add_requests(client)?;
        self.add_states()
    }

    /// Replica `id` before its first message, whose signer has so many leaves left.
    pub fn begin(&mut self, id: u8, left: u32) -> Result<(), Fail> {
        let own = key_with(self.alloc, id, left)?;
        self.left = own.leaves_left();
        self.id = id;
        self.last = None;
        self.node.clear();
        self.node
            .push(Node::new(self.alloc, &self.config, ReplicaId(id), own)?)?;
        Ok(())
    }

    fn node(&mut self) -> Result<&mut Node, Fail> {
        match self.node.first_mut() {
            Some(node) => Ok(node),
            None => Err(Fail::new("no replica")),
        }
    }

    // The null request, and the client's requests.
    fn add_requests(&mut self, client: &mut Signer) -> Result<(), Fail> {
        self.words.add("null", null_digest(), &[])?;
        for (name, time) in &REQUESTS {
            self.add_request(name, *time, client)?;
        }
        Ok(())
    }

    fn add_states(&mut self) -> Result<(), Fail> {
        for (name, times) in &SERVED {
            self.add_served(name, times)?;
        }
        self.add_late_state("late", (1 << 48) - 2)?;
        self.add_late_state("last", (1 << 48) - 1)?;
        self.add_first_version()
    }

    fn add_served(&mut self, name: &'static str, times: &[u64]) -> Result<(), Fail> {
        let state = self.state_after(times)?;
        let bytes = state.to_bytes()?;
        self.words.add(name, state.digest(), &bytes)?;
        Ok(())
    }

    // The first state's bytes, with another number in place of 0: behind the version.
    fn add_late_state(&mut self, name: &'static str, number: u64) -> Result<(), Fail> {
        let first = self.words.state("s0")?;
        let bytes = numbered(self.alloc, first.as_slice(), number)?;
        let digest = self.digest_of(&bytes)?;
        self.words.add(name, digest, &bytes)?;
        Ok(())
    }

    // The digest of the state that has these bytes.
    fn digest_of(&self, bytes: &[u8]) -> Result<Digest, Fail> {
        let config = Arc::try_clone(&self.config)?;
        Ok(State::from_canonical(self.alloc, config, bytes)?.digest())
    }

    // The bytes, of version 2, of the state that has these bytes, of either version.
    fn written_again(&self, bytes: &[u8]) -> Result<Vec<u8>, Fail> {
        let config = Arc::try_clone(&self.config)?;
        Ok(State::from_bytes(self.alloc, config, bytes)?.to_bytes()?)
    }

    // The state `s2` in bytes of version 1, which has no procedures: behind the version they are those of version 2.
    fn add_first_version(&mut self) -> Result<(), Fail> {
        let second = self.words.state("s2")?;
        let first = of_first_version(self.alloc, second.as_slice())?;
        if self.written_again(&first)?.as_slice() != second.as_slice() {
            return Err(Fail::new("another state is read"));
        }
        let digest = Digest(<Sha256 as sha2::Digest>::digest(first.as_slice()));
        self.words.add("first-s2", digest, &first)?;
        Ok(())
    }

    // The state after requests at these times, 0 for a null request.
    fn state_after(&self, times: &[u64]) -> Result<State, Fail> {
        let mut state = State::genesis(self.alloc, Arc::try_clone(&self.config)?)?;
        for time in times {
            let request = Request {
                client: ClientId(CLIENT),
                time: *time,
                op: Bytes::from_vec(Vec::new(self.alloc)),
            };
            let is_null = *time == 0;
            apply(&mut state, if is_null { None } else { Some(&request) })?;
        }
        Ok(state)
    }

    fn add_request(
        &mut self,
        name: &'static str,
        time: u64,
        client: &mut Signer,
    ) -> Result<(), Fail> {
        let body = Body::Request(RequestBody {
            time,
            op: Bytes::from_vec(Vec::new(self.alloc)),
        });
        let message = checked(self.alloc, &self.config, client, Role::Client, CLIENT, body)?;
        self.words
            .add(name, request_digest(&message), message.bytes())?;
        self.requests.push((name, message))?;
        Ok(())
    }

    // ---- what others say

    /// The client's request of this name.
    pub fn request(&self, name: &str) -> Result<Checked, Fail> {
        match self.requests.iter().find(|request| request.0 == name) {
            Some(request) => Ok(request.1.copy()?),
            None => Err(Fail::new("no such request")),
        }
    }

    /// A replica's message.
    pub fn say(&mut self, id: u8, body: Body) -> Result<Checked, Fail> {
        let Some(signer) = self.signers.get_mut(usize::from(id)) else {
            return Err(Fail::new("no such signer"));
        };
        let id = u32::from(id);
        checked(self.alloc, &self.config, signer, Role::Replica, id, body)
    }

    // ---- what the replica does

    /// What it does for a message, in words; or why it stops.
    pub fn take(&mut self, message: &Checked) -> Result<String, Fail> {
        let answer = self.node()?.take(message.bytes())?;
        if let Ok(row) = &answer {
            if !matches!(row.input(), Input::Message(taken) if taken.bytes() == message.bytes()) {
                return Err(Fail::new("another input"));
            }
        }
        self.in_words(answer)
    }

    /// What it does for a timeout.
    pub fn timeout(&mut self) -> Result<String, Fail> {
        let answer = self.node()?.timeout();
        if let Ok(row) = &answer {
            if !matches!(row.input(), Input::Timeout) {
                return Err(Fail::new("another input"));
            }
        }
        self.in_words(answer)
    }

    fn in_words(&mut self, answer: Result<Row, Halt>) -> Result<String, Fail> {
        match answer {
            Ok(row) => {
                self.check_row(&row)?;
                let text = self.words.row(&row)?;
                self.last = Some(row);
                Ok(text)
            }
            Err(halt) => Ok(format!(in self.alloc; "halts: {halt}")?),
        }
    }

    // Each output is signed, and the signer has as many leaves less as the row says.
    fn check_row(&mut self, row: &Row) -> Result<(), Fail> {
        for output in row.outputs() {
            self.check_output(output)?;
        }
        let left = self.node()?.replica().leaves_left();
        if leaves_before(row, left) != Some(self.left) {
            return Err(Fail::new("other leaves were taken"));
        }
        self.left = left;
        Ok(())
    }

    // An output is signed, and by the replica itself if it is its own.
    fn check_output(&self, output: &Output) -> Result<(), Fail> {
        let opened = open(self.alloc, &self.config, output.message.bytes())?;
        let is_own = opened.signer() == (Role::Replica, u32::from(self.id));
        if is_own == output.own {
            Ok(())
        } else {
            Err(Fail::new("another has signed"))
        }
    }

    /// What it does for the messages of its last row, which come back to it: the last of these rows that
    /// is not empty.
    pub fn echo(&mut self) -> Result<String, Fail> {
        let row = match &self.last {
            Some(row) => row.copy()?,
            None => return Err(Fail::new("no row")),
        };
        let mut text = format!(in self.alloc; "leaves 0")?;
        for output in row.outputs() {
            let said = self.take(&output.message)?;
            if said.as_str() != "leaves 0" {
                text = said;
            }
        }
        Ok(text)
    }

    /// Where it stands, how many leaves it has left, and its state.
    pub fn stands(&self) -> Result<String, Fail> {
        let Some(node) = self.node.first() else {
            return Err(Fail::new("no replica"));
        };
        let mut text = String::new(self.alloc);
        self.push_status(&mut text, node.replica())?;
        self.push_state(&mut text, node.replica())?;
        Ok(text)
    }

    fn push_status(&self, text: &mut String, replica: &Replica) -> Result<(), Fail> {
        let status = replica.status();
        let (view, low, executed) = (status.view.0, status.low.0, status.executed.0);
        let active = if status.active { "active" } else { "changing" };
        let left = replica.leaves_left();
        text.push_str(&format!(in self.alloc;
            "view {view} {active} low {low} executed {executed} left {left}"
        )?)?;
        if let Some(halt) = status.halted {
            text.push_str(&format!(in self.alloc; " halted {halt}")?)?;
        }
        Ok(())
    }

    fn push_state(&self, text: &mut String, replica: &Replica) -> Result<(), Fail> {
        match replica.state() {
            Some(state) => {
                let name = self.words.of(&state.digest());
                text.push_str(&format!(in self.alloc; " state {name}")?)?;
            }
            None => text.push_str(" no state")?,
        }
        Ok(())
    }
}
