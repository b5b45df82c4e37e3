//! The thread that makes the threads of a host and joins them.

use crate::desk::Desk;
use crate::links::{Links, Parcel};
use crate::opener::open_parcels;
use crate::serving::serve_at;
use crossbeam_channel::{Receiver, Sender};
use host_types::{Gate, ReplicaId};
use std::alloc::{AllocError, Global};
use std::sync::{Arc, Wait};
use std::thread;
use std::thread::{JoinHandle, Threads};

/// Makes a thread at each desk and so many openers for each, says whether all could be made, and waits
/// until they have ended. Where one can't be made, those that run are stopped. The queues to clients go
/// before it reports its end by dropping `started`.
pub(crate) fn oversee<
    R: Threads + Wait + Copy + Send + Sync + 'static,
    G: Gate + Send + Sync + Drop + 'static,
>(
    rt: R,
    alloc: Global,
    links: Arc<Links<G>>,
    desks: Vec<Desk>,
    openers: u8,
    started: Sender<bool>,
) {
    let mut crew = Vec::new(alloc);
    let all = hire_all(rt, alloc, &links, desks, openers, &mut crew).is_ok();
    if !all {
        links.posts.stop(&rt, openers);
    }
    let _ = started.send(&rt, all);
    while let Some(thread) = crew.pop() {
        thread.join(&rt);
    }
    drop(links);
    drop(started);
}

fn hire_all<
    R: Threads + Wait + Copy + Send + Sync + 'static,
    G: Gate + Send + Sync + Drop + 'static,
>(
    rt: R,
    alloc: Global,
    links: &Arc<Links<G>>,
    desks: Vec<Desk>,
    openers: u8,
    crew: &mut Vec<JoinHandle<()>>,
) -> Result<(), AllocError> {
    // A thread is made only where its handle can be kept.
    let threads = desks.len().saturating_mul(usize::from(openers) + 1);
    crew.reserve(threads)?;
    for desk in desks {
        hire_openers(rt, alloc, links, &desk, openers, crew)?;
        crew.push(hire_replica(rt, alloc, links, desk)?)?;
    }
    Ok(())
}

fn hire_openers<
    R: Threads + Wait + Copy + Send + Sync + 'static,
    G: Gate + Send + Sync + Drop + 'static,
>(
    rt: R,
    alloc: Global,
    links: &Arc<Links<G>>,
    desk: &Desk,
    openers: u8,
    crew: &mut Vec<JoinHandle<()>>,
) -> Result<(), AllocError> {
    for _ in 0..openers {
        let parcels = desk.parcels.clone()?;
        crew.push(hire_opener(rt, alloc, links, desk.id, parcels)?)?;
    }
    Ok(())
}

fn hire_opener<
    R: Threads + Wait + Copy + Send + Sync + 'static,
    G: Gate + Send + Sync + Drop + 'static,
>(
    rt: R,
    alloc: Global,
    links: &Arc<Links<G>>,
    id: ReplicaId,
    parcels: Receiver<Parcel>,
) -> Result<JoinHandle<()>, AllocError> {
    let links = Arc::try_clone(links)?;
    let job = move || open_parcels(&rt, alloc, &links, id, parcels);
    Ok(thread::spawn(&rt, job)?)
}

fn hire_replica<
    R: Threads + Wait + Copy + Send + Sync + 'static,
    G: Gate + Send + Sync + Drop + 'static,
>(rt: R, alloc: Global, links: &Arc<Links<G>>, desk: Desk) -> Result<JoinHandle<()>, AllocError> {
    let links = Arc::try_clone(links)?;
    let job = move || {
        let id = desk.id;
        let record = serve_at(&rt, alloc, &links, desk);
        links.file(&rt, id, record);
    };
    Ok(thread::spawn(&rt, job)?)
}
