//! What a library for C does with what its handles hold: a group's members take bytes and give bytes. Each call answers a
//! [`Status`], and says in its contract what it left. Nothing here signs bytes that are given.
#![tactic(auto)]

mod accounting;
mod auditing;
mod calling;
mod doing;
mod drafting;
mod joining;
mod keys;
mod opening;
mod repeating;
mod standing;
mod status;
mod stepping;
mod voting;

pub use accounting::{Compared, begin_ledger, compare, new_ledger};
pub use auditing::{Heard, audit, new_audit, no_audit};
pub use calling::{Accepted, ask, hear, last_message, reply};
pub use doing::{DoneItem, done};
pub use drafting::{finished, list_client, list_replica, new_draft};
pub use handles::{Handle, Held};
pub use host_types::{ClientId, ReplicaId, SeqNo, View};
pub use joining::{boxed_client, boxed_member};
pub use keys::write_key_of;
pub use opening::{SignedBy, open_under};
pub use repeating::{follow, new_repeats, no_replica, note, repeat};
pub use standing::{Standing, stand, tell_state};
pub use status::Status;
pub use stepping::{Sent, output, take, time_out, waits_for};
pub use voting::{hold, move_votes, new_votes, next_vote};
