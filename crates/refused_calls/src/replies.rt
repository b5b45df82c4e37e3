//! Drivers of a client's session: a request, and a Reply that is offered.

mod client;

use crate::common::members::{Group, taken};
use crate::common::told::{begin, is_kept, memory};
use crate::replies::client::{Client, reply};
use anyhow::Result;
use host_client::SessionFault;
use host_types::Bytes;
use seal::Checked;
use std::alloc::Global;

/// A client whose first request is open, and the Replies of two replicas to it.
fn open_request(alloc: Global) -> Result<(Client, Checked, Checked)> {
    let mut group = Group::new(alloc)?;
    let signer = taken(&mut group.clients, 0)?;
    let mut client = Client::new(alloc, &group.config, signer)?;
    client.request(operation(alloc)?)??;
    let one = reply(alloc, &group.config, &mut group.replicas, 0)?;
    let other = reply(alloc, &group.config, &mut group.replicas, 1)?;
    Ok((client, one, other))
}

/// An operation of one byte.
fn operation(alloc: Global) -> Result<Bytes> {
    Ok(Bytes::from_vec([1].to_vec(alloc)?))
}

/// Makes the next request. Where it is refused, the reply that was accepted to the one before is kept.
pub(crate) fn print_request(rt: &HostRuntime) -> Result<()> {
    let (mut client, one, other) = open_request(rt.alloc())?;
    client.offer(&one)??;
    client.offer(&other)??;
    let operation = operation(rt.alloc())?;
    begin(rt)?;
    match client.request(operation)? {
        Ok(request) => println!(rt; "a request of {} bytes", request.bytes().len())?,
        Err(fault) => {
            print_fault(rt, fault)?;
            is_kept(rt, "reply", client.has_accepted())?;
        }
    }
    Ok(())
}

/// Offers the Reply by which a result is accepted. Where it is refused, none is.
pub(crate) fn print_offer(rt: &HostRuntime) -> Result<()> {
    let (mut client, one, other) = open_request(rt.alloc())?;
    client.offer(&one)??;
    begin(rt)?;
    match client.offer(&other)? {
        Ok(()) => println!(rt; "accepted {}", client.has_accepted())?,
        Err(fault) => {
            print_fault(rt, fault)?;
            is_kept(rt, "request", !client.has_accepted())?;
        }
    }
    Ok(())
}

fn print_fault(rt: &HostRuntime, fault: SessionFault) -> Result<()> {
    match fault {
        SessionFault::Memory => memory(rt),
        fault => {
            println!(rt; "{fault}")?;
            Ok(())
        }
    }
}
