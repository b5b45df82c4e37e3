//! What a message or a timeout makes a replica do.

ghost use Rattle.std.specs.Prelude.{◌≡◌, IfOk};

use host_types::{Bytes, ClientId, Digest, ReplicaId, SeqNo};
use seal::Checked;
use std::alloc::{AllocError, Global};
use std::marker::Model;
use std::sync::Arc;

/// What a replica is given.
#[derive(Drop)]
pub enum Input {
    Message(Checked),
    Timeout,
}

/// Whom a message is for.
#[derive(Clone, Copy, Debug, PartialEq, Eq)]
pub enum Dest {
    /// All other replicas.
    All,
    Replica(ReplicaId),
    Client(ClientId),
}

/// A message that a replica gives: an own one, or another's that it passes on.
#[derive(Drop)]
pub struct Output {
    pub to: Dest,
    pub message: Checked,
    pub own: bool,
}

/// What a replica did to its state.
#[derive(Debug, Drop)]
pub enum Done {
    /// The request of this digest was executed at this number; the result is empty where there is no
    /// reply.
    Executed {
        number: SeqNo,
        digest: Digest,
        result: Bytes,
    },
    /// The state after this number, whose bytes have this digest, was installed.
    Installed {
        number: SeqNo,
        digest: Digest,
    },
}

/// What a `Row` is a handle of.
#[derive(Drop)]
struct Content {
    input: Input,
    outputs: Vec<Output>,
    done: Vec<Done>,
    leaves: u32,
}

/// What a replica was given, and all that it did for it: the messages in the order in which they were
/// made, what was executed or installed, and how many leaves were taken. It is a handle: a copy of it
/// copies nothing of that.
#[derive(Drop)]
pub struct Row {
    content: Arc<Content>,
}

impl Model for Row {
    ghost use Rattle.replica_core.specs.Facts.{RowFacts};

    ghost Value = { RowFacts };

    ghost view = { λ r. record { input = r.content.value.input; outputs = r.content.value.outputs.items; done = r.content.value.done.items; leaves = r.content.value.leaves } };
}

impl Row {
    pub(crate) fn new(
        alloc: Global,
        input: Input,
        outputs: Vec<Output>,
        done: Vec<Done>,
        leaves: u32,
    ) -> Result<Row, AllocError>
        ensures { IfOk result (λ r. r ≡ record { input = input; outputs = outputs.items; done = done.items; leaves = leaves }) }
    {
        let content = Content {
            input,
            outputs,
            done,
            leaves,
        };
        match Arc::new(alloc, content) {
            Ok(content) => Ok(Row { content }),
            Err(_) => Err(AllocError),
        }
    }

    /// What the replica was given.
    pub fn input(&self) -> &Input
        ensures { result.now ≡ self.now.input }
    {
        let content: &Content = &self.content;
        &content.input
    }

    /// The messages that it gave, in order.
    pub fn outputs(&self) -> &[Output]
        ensures { result.now ≡ self.now.outputs }
    {
        let content: &Content = &self.content;
        &content.outputs
    }

    /// What it executed or installed, in order.
    pub fn done(&self) -> &[Done]
        ensures { result.now ≡ self.now.done }
    {
        let content: &Content = &self.content;
        &content.done
    }

    /// How many leaves it took: one for each own message, and one more for each `PrePrepare` inside an
    /// own `NewView`.
    pub fn leaves(&self) -> u32
        ensures { result ≡ self.now.leaves }
    {
        let content: &Content = &self.content;
        content.leaves
    }

    /// One more handle of the same row. It is refused only where the count of handles is full.
    pub fn copy(&self) -> Result<Row, AllocError>
        ensures { IfOk result (λ r. r ≡ self.now) }
    {
        let content = Arc::try_clone(&self.content)?;
        Ok(Row { content })
    }
}
