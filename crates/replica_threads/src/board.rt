//! What a host's threads tell of themselves, and what it asks of them.

ghost use Rattle.std.specs.Prelude.{◌≡◌, IfSome};
ghost use Rattle.replica_threads.specs.Hosts.{Stands};

use crate::standing::Standing;
use byz_world::Status;
use host_types::{Config, ReplicaId};
use std::alloc::{AllocError, Global};
use std::sync::atomic::{AtomicBool, AtomicU64, Ordering};
use std::sync::{Mutex, Wait};

/// A place for each replica where its thread tells how it stands.
#[derive(Drop)]
pub(crate) struct Board {
    places: Vec<Place>,
    /// How many parcels and letters are under way: posted, and not yet passed over or done with.
    under_way: AtomicU64,
    closed: AtomicBool,
}

/// Where one replica's thread tells how it stands.
#[derive(Drop)]
struct Place {
    standing: Mutex<Option<Standing>>,
    halted: AtomicBool,
    /// Whether a client's request has come that it has not answered.
    waiting: AtomicBool,
    /// The last number that it has executed or installed.
    executed: AtomicU64,
}

/// What a ticker looks at.
#[derive(Clone, Copy, Debug, PartialEq, Eq)]
pub(crate) struct Progress {
    pub(crate) waiting: bool,
    pub(crate) executed: u64,
}

impl Board {
    /// A place for each of so many replicas, where nothing is told yet.
    pub(crate) fn new(alloc: Global, replicas: u8) -> Result<Board, AllocError> {
        let mut places = Vec::new(alloc);
        for _ in 0..replicas {
            places.push(Place {
                standing: Mutex::new(None),
                halted: AtomicBool::new(false),
                waiting: AtomicBool::new(false),
                executed: AtomicU64::new(0),
            })?;
        }
        Ok(Board {
            places,
            under_way: AtomicU64::new(0),
            closed: AtomicBool::new(false),
        })
    }

    fn place(&self, id: ReplicaId) -> Option<&Place> {
        self.places.get(usize::from(id.0))
    }

    /// A replica stands so, and waits for a request or not.
    pub(crate) fn tell<R: Wait>(&self, rt: &R, id: ReplicaId, standing: Standing, waiting: bool) {
        let Some(place) = self.place(id) else {
            return;
        };
        let status = standing.status();
        place.executed.store(status.executed.0, Ordering::SeqCst);
        place.waiting.store(waiting, Ordering::SeqCst);
        if status.halted.is_some() {
            place.halted.store(true, Ordering::SeqCst);
        }
        *place.standing.lock(rt) = Some(standing);
    }

    /// Where the replica stands, if that was told of this replica under this configuration, with this first leaf.
    pub(crate) fn status<R: Wait>(
        &self,
        rt: &R,
        config: &Config,
        id: ReplicaId,
        first_leaf: u32,
    ) -> Option<Status>
        ensures { IfSome result (λ status. Stands config.now id.0 first_leaf status) }
    {
        let standing = self.place(id)?.standing.lock(rt);
        match &*standing {
            Some(told) if told.is_of(config, id.0, first_leaf) => Some(told.status()),
            _ => None,
        }
    }

    pub(crate) fn has_halted(&self, id: ReplicaId) -> bool {
        match self.place(id) {
            Some(place) => place.halted.load(Ordering::SeqCst),
            None => false,
        }
    }

    /// How many replicas have halted.
    pub(crate) fn halts(&self) -> usize {
        let mut halts: usize = 0;
        for place in &self.places {
            if place.halted.load(Ordering::SeqCst) {
                halts = halts.saturating_add(1);
            }
        }
        halts
    }

    pub(crate) fn progress(&self, id: ReplicaId) -> Progress {
        match self.place(id) {
            Some(place) => Progress {
                waiting: place.waiting.load(Ordering::SeqCst),
                executed: place.executed.load(Ordering::SeqCst),
            },
            None => Progress {
                waiting: false,
                executed: 0,
            },
        }
    }

    /// One more parcel or letter is under way.
    pub(crate) fn begin(&self) {
        self.under_way.fetch_add(1, Ordering::SeqCst);
    }

    /// One is done with, behind all that came of it.
    pub(crate) fn end(&self) {
        self.under_way.fetch_sub(1, Ordering::SeqCst);
    }

    /// Whether nothing is under way: nothing more comes by itself.
    pub(crate) fn is_idle(&self) -> bool {
        self.under_way.load(Ordering::SeqCst) == 0
    }

    /// The host closes. Whether it had been closed before.
    pub(crate) fn close(&self) -> bool {
        self.closed.swap(true, Ordering::SeqCst)
    }

    pub(crate) fn is_closed(&self) -> bool {
        self.closed.load(Ordering::SeqCst)
    }
}
