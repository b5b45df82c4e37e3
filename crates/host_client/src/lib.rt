//! Clients of running replicas: a session's request is posted to a host, and its reply waited for.
//!
//!     let reply = call(&rt, alloc, &host, &mut session, op)?;
#![tactic(auto)]

mod calling;
mod fault;
mod law;

pub use calling::{call, call_or_idle, call_or_stuck};
pub use client_session::{Session, SessionFault};
pub use fault::CallFault;
pub use law::calls_are_answered;
pub use replica_threads::{
    Closed, Dest, Halt, Host, HostFault, Input, Named, Replica, Row, Seat, Station, Status, Ticker,
    audit,
};
