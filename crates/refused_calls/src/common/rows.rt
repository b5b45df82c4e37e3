//! What a replica did, as a number that another deed would hardly have.

use crate::common::told::leading;
use host_types::Digest;
use sha2::{Digest as _, Sha256};
use world_script::{Dest, Done, Input, Output, Row};

/// The first bytes of a hash of all that a row says.
pub(crate) fn leading_of(row: &Row) -> u64 {
    let mut hasher = Sha256::new();
    add_input(&mut hasher, row.input());
    for output in row.outputs() {
        add_output(&mut hasher, output);
    }
    for done in row.done() {
        add_done(&mut hasher, done);
    }
    hasher.update(row.leaves().to_be_bytes());
    leading(&Digest(hasher.finalize()))
}

fn add_input(hasher: &mut Sha256, input: &Input) {
    match input {
        Input::Message(message) => hasher.update(message.bytes()),
        Input::Timeout => hasher.update(b"timeout"),
    }
}

fn add_output(hasher: &mut Sha256, output: &Output) {
    match output.to {
        Dest::All => hasher.update(b"all"),
        Dest::Replica(id) => hasher.update([id.0]),
        Dest::Client(id) => hasher.update(id.0.to_be_bytes()),
    }
    hasher.update([u8::from(output.own)]);
    hasher.update(output.message.bytes());
}

fn add_done(hasher: &mut Sha256, done: &Done) {
    match done {
        Done::Executed {
            number,
            digest,
            result: answer,
        } => {
            hasher.update(b"executed");
            hasher.update(number.0.to_be_bytes());
            hasher.update(digest.0);
            hasher.update(answer.as_slice());
        }
        Done::Installed { number, digest } => {
            hasher.update(b"installed");
            hasher.update(number.0.to_be_bytes());
            hasher.update(digest.0);
        }
    }
}
