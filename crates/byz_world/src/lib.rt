//! A group of replicas of which some are faulty, under a list of events. Each correct replica is run;
//! what faulty replicas and the network do is what the events say: any bytes, in any order. An audit of
//! what replicas did says whether they agree.
//!
//!     let mut world = World::new(alloc, &config, &faulty, signers)?;
//!     let row = world.event(&Event::Deliver { to: ReplicaId(0), bytes })?;
#![tactic(auto)]

mod audit_fault;
mod event;
mod fault;
mod history;
mod laws;
mod member;
mod noted;
mod records;
mod report;
mod world;

pub use audit_fault::AuditFault;
pub use event::Event;
pub use fault::WorldFault;
pub use history::History;
pub use laws::{
    an_honest_family_reports, events_lead_on, honest_records_pass, journals_of_all_replicas_agree,
    told_states_agree, worlds_are_sound,
};
pub use records::audit;
pub use replica_journal::{
    Dest, Done, Halt, Input, Journal, Output, Replica, Row, State, StateFault, Status,
};
pub use report::{Outcome, Report};
pub use seal::Checked;
pub use world::{World, run_world};
