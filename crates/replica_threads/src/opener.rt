//! The threads that open what is posted to a replica.

use crate::links::{Links, Parcel};
use crossbeam_channel::Receiver;
use host_types::{Gate, ReplicaId};
use std::alloc::Global;
use std::sync::Wait;

/// Opens parcels for a replica, until one says stop. Once the host is closed or the replica has halted, they are dropped
/// unopened.
pub(crate) fn open_parcels<R: Wait, G: Gate + Drop>(
    rt: &R,
    alloc: Global,
    links: &Links<G>,
    to: ReplicaId,
    parcels: Receiver<Parcel>,
) {
    for _ in rt.forever() {
        match parcels.recv(rt) {
            Ok(Parcel::Posted(bytes)) => links.open_for(rt, alloc, to, bytes.as_slice()),
            Ok(Parcel::Given(message)) => links.open_for(rt, alloc, to, message.bytes()),
            Ok(Parcel::Stop) | Err(_) => break,
        }
    }
}
