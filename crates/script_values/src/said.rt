//! What a script's values say.

ghost use Rattle.std.specs.Prelude.{◌≡◌, ◌≤◌, ◌<◌, ◌^◌, IfOk, length, string_bytes};
ghost use Rattle.script_values.specs.Nodes.{node_text};

use host_types::{Bytes, ClientId, ReplicaId, SeqNo, TenantId};
use std::alloc::{AllocError, Global};
use std::marker::Model;

/// What all keys of a script are made of.
#[derive(Clone, Copy)]
pub struct Secret(pub [u8; 32]);

/// A client of a script.
#[derive(Clone, Copy, Debug, PartialEq, Eq)]
pub struct Client {
    pub id: ClientId,
    pub tenant: TenantId,
}

/// A replica or a client.
#[derive(Clone, Copy, Debug, PartialEq, Eq)]
pub enum Node {
    Replica(ReplicaId),
    Client(ClientId),
}

/// How a node is named in a line: by its id, or by a dash where there is none. The error is that memory ran out.
pub fn node_text(alloc: Global, node: Option<Node>) -> Result<String, AllocError>
    ensures { IfOk result (λ text. string_bytes text ≡ node_text node) }
{
    match node {
        Some(Node::Replica(id)) => {
            let id = id.0;
            format!(in alloc; "{id}")
        }
        Some(Node::Client(id)) => {
            let id = id.0;
            format!(in alloc; "{id}")
        }
        None => String::from_str(alloc, "-"),
    }
}

/// Under which profile of the verifier code is installed.
#[derive(Clone, Copy, Debug, PartialEq, Eq)]
pub enum InstallProfile {
    One,
    Two,
}

/// Bytes that a script gives: at most 524,288, since a script has no more than twice as many digits.
#[derive(Drop)]
pub struct ScriptBytes {
    bytes: Bytes,
}

impl Model for ScriptBytes {
    ghost use Rattle.std.specs.Prelude.{ℕ, ◌≤◌, List, length};

    ghost Value = { List ℕ };

    ghost view = { λ b. b.bytes };

    ghost invariant = { λ b. length b.bytes ≤ 524288 };
}

impl ScriptBytes {
    pub(crate) fn new(bytes: Bytes) -> ScriptBytes
        requires { length bytes ≤ 524288 }
        ensures { result ≡ bytes }
    {
        ScriptBytes { bytes }
    }

    /// The bytes as a slice.
    pub fn as_slice(&self) -> &[u8]
        ensures value { result.now ≡ self.now }
        ensures short { length result.now ≤ 524288 }
    {
        self.bytes.as_slice()
    }
}

/// A sequence number: below 2^48.
#[derive(Drop)]
pub struct Number {
    number: SeqNo,
}

impl Model for Number {
    ghost use Rattle.std.specs.Prelude.{◌<◌, ◌^◌};
    ghost use Rattle.host_types.specs.declared.SeqNo.{SeqNo};

    ghost Value = { SeqNo };

    ghost view = { λ n. n.number };

    ghost invariant = { λ n. n.number.0 < 2 ^ 48 };
}

impl Number {
    pub(crate) fn new(number: SeqNo) -> Number
        requires { number.0 < 2 ^ 48 }
        ensures { result ≡ number }
    {
        Number { number }
    }

    /// The sequence number.
    pub fn get(&self) -> SeqNo
        ensures value { result ≡ self.now }
        ensures small { result.0 < 2 ^ 48 }
    {
        self.number
    }
}

/// What a client asks for: at most 1,048,576 bytes.
#[derive(Drop)]
pub struct Operation {
    bytes: Bytes,
}

impl Model for Operation {
    ghost use Rattle.std.specs.Prelude.{ℕ, ◌≤◌, List, length};

    ghost Value = { List ℕ };

    ghost view = { λ op. op.bytes };

    ghost invariant = { λ op. length op.bytes ≤ 1048576 };
}

impl Operation {
    /// What these bytes ask for.
    pub fn new(bytes: Bytes) -> Operation
        requires { length bytes ≤ 1048576 }
        ensures { result ≡ bytes }
    {
        Operation { bytes }
    }

    /// The bytes as a slice.
    pub fn as_slice(&self) -> &[u8]
        ensures value { result.now ≡ self.now }
        ensures short { length result.now ≤ 1048576 }
    {
        self.bytes.as_slice()
    }
}

/// What a script calls a message: any text.
#[derive(Drop)]
pub struct MessageName {
    bytes: Bytes,
}

impl Model for MessageName {
    ghost use Rattle.std.specs.Prelude.{ℕ, List};

    ghost Value = { List ℕ };

    ghost view = { λ n. n.bytes };
}

impl MessageName {
    /// What this text calls a message. The error is that memory ran out.
    pub fn new(alloc: Global, text: &str) -> Result<MessageName, AllocError>
        ensures { IfOk result (λ n. n ≡ text.now) }
    {
        Ok(MessageName {
            bytes: Bytes::from_vec(Vec::from_slice(alloc, text.as_bytes())?),
        })
    }

    /// Another one that is the same.
    pub fn try_clone(&self, alloc: Global) -> Result<MessageName, AllocError>
        ensures { IfOk result (λ n. n ≡ self.now) }
    {
        Ok(MessageName {
            bytes: Bytes::from_vec(Vec::from_slice(alloc, self.bytes.as_slice())?),
        })
    }

    /// The text as bytes.
    pub fn as_slice(&self) -> &[u8]
        ensures { result.now ≡ self.now }
    {
        self.bytes.as_slice()
    }
}
