//! What a handle can hold.

use driver_notes::{Audit, Ledger, Repeats};
use host_types::Config;
use members::{Client, Draft, Member, Votes};
use std::sync::Arc;

/// A configuration and what is to be one, a replica, a client's session, votes that came early, what a replica sends again, what
/// an audit has heard, or what replicas say that they did.
#[derive(Drop)]
pub enum Held {
    Draft(Draft),
    Config(Arc<Config>),
    Member(Member),
    Client(Client),
    Votes(Votes),
    Repeats(Repeats),
    Audit(Audit),
    Ledger(Ledger),
}
