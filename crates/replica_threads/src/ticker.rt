//! Who gives a host's replicas timeouts.

use crate::board::Progress;
use crate::fault::HostFault;
use crate::host::Host;
use host_types::ReplicaId;
use std::alloc::{AllocError, Global};
use std::sync::atomic::{AtomicBool, Ordering};
use std::sync::{Arc, Wait};
use std::thread;
use std::thread::{JoinHandle, Threads};
use std::time::{Clock, Duration};

/// How many milliseconds a ticker sleeps at most before it looks whether it was stopped.
const NAP: u64 = 20;

/// How many intervals there are at most between ticks.
const MOST_INTERVALS: u32 = 1_024;

/// A thread that gives timeouts to a host's replicas: at each interval to those that wait for a request and have executed
/// nothing since the last one. The interval doubles until something is executed. So a request that waits while others are
/// executed gets no timeout of its own, as it would by the protocol's timer (Castro and Liskov 1999, section 4.4).
#[derive(Drop)]
pub struct Ticker {
    stopped: Arc<AtomicBool>,
    thread: JoinHandle<()>,
}

impl Ticker {
    /// Starts the thread. It ends once the ticker is stopped, or the host is closed. The error is that memory ran out, or
    /// a thread could not be made.
    pub fn start<R: Threads + Wait + Clock + Copy + Send + Sync + 'static>(
        rt: &R,
        alloc: Global,
        host: &Arc<Host>,
        interval: Duration,
    ) -> Result<Ticker, AllocError> {
        let rt = *rt;
        let host = Arc::try_clone(host)?;
        let stopped = Arc::new(alloc, AtomicBool::new(false))?;
        let flag = Arc::try_clone(&stopped)?;
        let mut seen = Vec::new(alloc);
        for id in 0..host.config().replica_count() {
            seen.push(host.progress(ReplicaId(id)))?;
        }
        let job = move || tick_until(&rt, &host, &flag, interval, seen);
        let thread = thread::spawn(&rt, job)?;
        Ok(Ticker { stopped, thread })
    }

    /// Stops the thread, and waits until it has ended.
    pub fn stop<R: Threads + Wait>(self, rt: &R) {
        self.stopped.store(true, Ordering::SeqCst);
        self.thread.join(rt);
    }
}

// Ticks at each interval until the flag is set or the host is closed.
fn tick_until<R: Wait + Clock>(
    rt: &R,
    host: &Host,
    flag: &AtomicBool,
    interval: Duration,
    mut seen: Vec<Progress>,
) {
    let mut intervals: u32 = 1;
    for _ in rt.forever() {
        for _ in 0..intervals {
            if sleep_until(rt, flag, interval) {
                return;
            }
        }
        match tick_all(rt, host, &mut seen) {
            Ok(true) => intervals = 1,
            Ok(false) => intervals = intervals.saturating_mul(2).min(MOST_INTERVALS),
            Err(_) => return,
        }
    }
}

// Sleeps for so long, or until the flag is set. Whether it was.
fn sleep_until<R: Clock>(rt: &R, flag: &AtomicBool, time: Duration) -> bool {
    let mut left = time;
    let nap = Duration::from_millis(NAP);
    for _ in 0..u64::MAX {
        if flag.load(Ordering::SeqCst) {
            return true;
        }
        if left <= nap {
            break;
        }
        thread::sleep(rt, nap);
        left = left.saturating_sub(nap);
    }
    thread::sleep(rt, left);
    flag.load(Ordering::SeqCst)
}

// Ticks the replicas that wait and have executed nothing since they were seen. Whether any has executed something.
fn tick_all<R: Wait>(rt: &R, host: &Host, seen: &mut [Progress]) -> Result<bool, HostFault> {
    let mut goes_on = false;
    for id in 0..host.config().replica_count() {
        let now = host.progress(ReplicaId(id));
        let Some(before) = seen.get_mut(usize::from(id)) else {
            continue;
        };
        if now.executed != before.executed {
            goes_on = true;
        } else if now.waiting && before.waiting {
            host.tick(rt, ReplicaId(id))?;
        }
        *before = now;
    }
    Ok(goes_on)
}
