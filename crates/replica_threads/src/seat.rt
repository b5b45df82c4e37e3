//! Seats: who counts what was answered.

ghost use Rattle.std.specs.Prelude.{◌≡◌, ◌+◌, ◌-◌, ◌^◌, ◌<◌, ◌≤◌, None, Some, IfSome, MatchOption};
ghost use Rattle.replica_threads.specs.Stations.{SeatFacts};

use crate::named::Named;
use std::marker::Model;
use std::sync::ledger::{Book, Share};

/// The right to call one station, which counts the rows that were answered through it. It takes part in a
/// ledger with the station's other seats, so that the journal has at least as many rows as each counts.
#[derive(Drop)]
pub struct Seat<K: Named> {
    rows: u64,
    parts: u64,
    share: Share<K>,
}

impl<K: Named> Model for Seat<K> {
    ghost use Rattle.std.specs.Prelude.{◌≡◌, ◌<◌};
    ghost use Rattle.replica_threads.specs.Stations.{SeatFacts};

    ghost Value = { SeatFacts };

    ghost view = { λ s. record { rows = s.rows; parts = s.parts } };

    ghost invariant = { λ s. (s.share.amount ≡ s.rows) × (s.share.parts ≡ s.parts) × (0 < s.parts) };
}

impl<K: Named> Seat<K> {
    /// A seat with these parts of its ledger, before its first row.
    pub(crate) fn first(share: Share<K>, parts: u64) -> Seat<K>
        requires amount { share.amount ≡ 0 }
        requires parts { share.parts ≡ parts }
        requires some { 0 < parts }
        ensures { result ≡ record { rows = 0; parts = parts } }
    {
        Seat {
            rows: 0,
            parts,
            share,
        }
    }

    /// How many rows were answered through this seat. It takes no memory.
    pub fn rows(&self) -> u64
        ensures { result ≡ self.now.rows }
    {
        self.rows
    }

    /// One more seat of the same station, through which no row was answered yet. None where this seat has
    /// one part left. It takes no memory.
    pub fn another(&mut self) -> Option<Seat<K>>
        ensures cut { MatchOption result ((self.old.parts ≡ 1) × (self.new ≡ self.old))
            (λ seat. (seat ≡ record { rows = 0; parts = 1 }) × (self.new ≡ record { rows = self.old.rows; parts = self.old.parts - 1 })) }
        ensures more { IfSome result (λ seat. 1 < self.old.parts) }
    {
        if self.parts == 1 {
            return None;
        }
        self.parts -= 1;
        let share = self.share.split_off(1, 0);
        Some(Seat::first(share, 1))
    }

    /// Counts a row more, in the seat and in the book of all seats: the book counts at least as many.
    pub(crate) fn count(&mut self, book: &mut Book<K>)
        requires { book.old.total < 2 ^ 32 }
        ensures rows { self.new ≡ record { rows = self.old.rows + 1; parts = self.old.parts } }
        ensures total { book.new.total ≡ book.old.total + 1 }
        ensures within { self.old.rows ≤ book.old.total }
    {
        let Seat {
            rows,
            parts: _,
            share,
        } = self;
        book.audit(share);
        book.add(share, 1);
        *rows += 1;
    }

    /// The book counts at least as many rows as the seat.
    pub(crate) fn audit(&mut self, book: &mut Book<K>)
        ensures same { self.new ≡ self.old }
        ensures total { book.new.total ≡ book.old.total }
        ensures within { self.old.rows ≤ book.old.total }
    {
        book.audit(&mut self.share);
    }
}
