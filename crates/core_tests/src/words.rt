//! Rows in words, so that a test expects one line.

use host_types::{Bytes, ClientId, Digest, ReplicaId};
use pbft_codec::{Body, Certificate, Fetch, NewView, PrePrepare, Signed, ViewChange};
use replica_core::{Dest, Done, Output, Row};
use seal::Checked;
use std::alloc::{AllocError, Global};
use std::test::Fail;

/// A digest under a name, with the bytes of the state whose digest it is, or of the request's message, or none.
#[derive(Drop)]
pub struct Name {
    name: &'static str,
    pub digest: Digest,
    bytes: Vec<u8>,
}

/// The names that a test gives to digests and states.
#[derive(Drop)]
pub struct Words {
    alloc: Global,
    names: Vec<Name>,
}

impl Words {
    pub fn new(alloc: Global) -> Words {
        Words {
            alloc,
            names: Vec::new(alloc),
        }
    }

    /// Names a digest, and the state or the request's message whose bytes these are.
    pub fn add(
        &mut self,
        name: &'static str,
        digest: Digest,
        bytes: &[u8],
    ) -> Result<(), AllocError> {
        let bytes = Vec::from_slice(self.alloc, bytes)?;
        self.names.push(Name {
            name,
            digest,
            bytes,
        })?;
        Ok(())
    }

    /// What has this name.
    pub fn named(&self, name: &str) -> Result<&Name, Fail> {
        match self.names.iter().find(|named| named.name == name) {
            Some(named) => Ok(named),
            None => Err(Fail::new("no such name")),
        }
    }

    /// The bytes of the state of this name.
    pub fn state(&self, name: &str) -> Result<Bytes, Fail> {
        let bytes = &self.named(name)?.bytes;
        Ok(Bytes::from_vec(Vec::from_slice(self.alloc, bytes)?))
    }

    /// The name of a digest.
    pub fn of(&self, digest: &Digest) -> &'static str {
        match self.names.iter().find(|named| named.digest == *digest) {
            Some(named) => named.name,
            None => "?",
        }
    }

    // The name of a state or of a request.
    fn of_bytes(&self, bytes: &[u8]) -> &'static str {
        match self
            .names
            .iter()
            .find(|named| named.bytes.as_slice() == bytes)
        {
            Some(named) => named.name,
            None => "?",
        }
    }

    /// A row: each message with whom it is for, what was done, and the leaves that were taken.
    pub fn row(&self, row: &Row) -> Result<String, AllocError> {
        let mut text = String::new(self.alloc);
        for output in row.outputs() {
            self.push_output(&mut text, output)?;
        }
        for done in row.done() {
            text.push_str(&self.done(done)?)?;
            text.push_str("; ")?;
        }
        let leaves = row.leaves();
        text.push_str(&format!(in self.alloc; "leaves {leaves}")?)?;
        Ok(text)
    }

    fn push_output(&self, text: &mut String, output: &Output) -> Result<(), AllocError> {
        if !output.own {
            text.push_str("relay ")?;
        }
        text.push_str(&self.message(&output.message)?)?;
        match output.to {
            Dest::All => text.push_str(" to all; "),
            Dest::Replica(ReplicaId(id)) => {
                text.push_str(&format!(in self.alloc; " to replica {id}; ")?)
            }
            Dest::Client(ClientId(id)) => {
                text.push_str(&format!(in self.alloc; " to client {id}; ")?)
            }
        }
    }

    fn done(&self, done: &Done) -> Result<String, AllocError> {
        match done {
            Done::Executed {
                number,
                digest,
                result,
            } => {
                let (number, digest) = (number.0, self.of(digest));
                let result = result.as_slice();
                format!(in self.alloc; "executed {number} {digest} {result:?}")
            }
            Done::Installed { number, digest } => {
                let (number, digest) = (number.0, self.of(digest));
                format!(in self.alloc; "installed {number} {digest}")
            }
        }
    }

    fn message(&self, message: &Checked) -> Result<String, AllocError> {
        match message.body() {
            Body::Request(_) => {
                let name = self.of_bytes(message.bytes());
                format!(in self.alloc; "request {name}")
            }
            Body::PrePrepare(said) => self.vote(
                "pre-prepare",
                said.view.0,
                said.number.0,
                &said.digest,
            ),
            Body::Prepare(said) => self.vote("prepare", said.view.0, said.number.0, &said.digest),
            Body::Commit(said) => self.vote("commit", said.view.0, said.number.0, &said.digest),
            Body::Reply(said) => {
                let (view, time, number) = (said.view.0, said.time, said.number.0);
                let result = said.result.as_slice();
                format!(in self.alloc; "reply view {view} time {time} number {number} {result:?}")
            }
            Body::Checkpoint(said) => {
                let (number, name) = (said.number.0, self.of(&said.digest));
                format!(in self.alloc; "checkpoint {number} {name}")
            }
            Body::Snapshot(said) => {
                let (number, name) = (said.number.0, self.of_bytes(said.state.as_slice()));
                format!(in self.alloc; "snapshot {number} {name}")
            }
            Body::Fetch(said) => self.fetch(said),
            Body::ViewChange(said) => self.view_change(said),
            Body::NewView(said) => self.new_view(said),
        }
    }

    fn vote(
        &self,
        kind: &str,
        view: u32,
        number: u64,
        digest: &Digest,
    ) -> Result<String, AllocError> {
        let name = self.of(digest);
        format!(in self.alloc; "{kind} {view}/{number} {name}")
    }

    fn fetch(&self, said: &Fetch) -> Result<String, AllocError> {
        match said {
            Fetch::Request(digest) => {
                let name = self.of(digest);
                format!(in self.alloc; "fetch request {name}")
            }
            Fetch::State(number) => {
                let number = number.0;
                format!(in self.alloc; "fetch state {number}")
            }
        }
    }

    // View, low mark, the signers of its proof, and each certificate.
    fn view_change(&self, said: &ViewChange) -> Result<String, AllocError> {
        let (view, low) = (said.view.0, said.low.0);
        let mut text = format!(in self.alloc; "view-change {view} low {low}")?;
        for one in said.checkpoints.as_slice() {
            let (id, number) = (one.id, one.body.number.0);
            text.push_str(&format!(in self.alloc; " +{number} by {id}")?)?;
        }
        for one in said.certificates.as_slice() {
            text.push_str(&self.certificate(one)?)?;
        }
        Ok(text)
    }

    fn certificate(&self, one: &Certificate) -> Result<String, AllocError> {
        let said = self.proposal(&one.pre_prepare)?;
        let mut text = format!(in self.alloc; "{said} by")?;
        for prepare in one.prepares.as_slice() {
            let id = prepare.id;
            text.push_str(&format!(in self.alloc; " {id}")?)?;
        }
        Ok(text)
    }

    fn proposal(&self, one: &Signed<PrePrepare>) -> Result<String, AllocError> {
        let (view, number, name) = (
            one.body.view.0,
            one.body.number.0,
            self.of(&one.body.digest),
        );
        format!(in self.alloc; ", {view}/{number} {name}")
    }

    // View, the signers of its ViewChanges, and each proposal.
    fn new_view(&self, said: &NewView) -> Result<String, AllocError> {
        let view = said.view.0;
        let mut text = format!(in self.alloc; "new-view {view} of")?;
        for change in said.changes.as_slice() {
            let id = change.id;
            text.push_str(&format!(in self.alloc; " {id}")?)?;
        }
        for one in said.pre_prepares.as_slice() {
            text.push_str(&self.proposal(one)?)?;
        }
        Ok(text)
    }
}
