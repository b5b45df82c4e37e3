//! Sets of replicas.

ghost use Rattle.std.specs.Prelude.{◌≡◌, not};
ghost use Rattle.std.specs.Ordering.{nat_cmp};
ghost use Rattle.std.specs.FinSet as set;
ghost use Rattle.host_types.specs.Bits.{has_bit};

use crate::ReplicaId;
use std::marker::Model;

/// A set of replicas, whatever their numbers. It takes no memory. Contracts see it as the finite set
/// of the numbers.
#[derive(Debug, Drop)]
pub struct ReplicaSet {
    // Bit `id % 64` of word `id / 64` is set for replica `id`.
    words: [u64; 4],
}

impl Model for ReplicaSet {
    ghost use Rattle.std.specs.Ordering.{nat_cmp};
    ghost use Rattle.std.specs.FinSet as set;
    ghost use Rattle.std.specs.Coded.{coded_ℕ};
    ghost use Rattle.host_types.specs.Bits.{bits_below};

    ghost Value = { set.FinSet nat_cmp };

    ghost coded = { set.code coded_ℕ };

    ghost view = { λ s. bits_below s.words 256 };
}

impl ReplicaSet {
    /// The set of no replica.
    pub fn new() -> ReplicaSet
        ensures { result ≡ set.empty }
    {
        ReplicaSet { words: [0; 4] }
    }

    /// Puts the replica into the set, and returns whether it is new there.
    pub fn insert(&mut self, id: ReplicaId) -> bool
        ensures inserted { self.new ≡ set.insert self.old id.0 }
        ensures is_new { result ≡ not (set.contains self.old id.0) }
    {
        let word = usize::from(id.0 / 64);
        let bit = u32::from(id.0 % 64);
        let is_new = !has_bit(&self.words, id.0);
        self.words[word] |= 1 << bit;
        is_new
    }

    /// Whether the replica is in the set.
    pub fn contains(&self, id: ReplicaId) -> bool
        ensures { result ≡ set.contains self.now id.0 }
    {
        has_bit(&self.words, id.0)
    }

    /// How many replicas are in the set.
    pub fn len(&self) -> usize
        ensures { result ≡ set.len self.now }
    {
        let mut count = 0;
        for id in 0..256u16 {
            if has_bit(&self.words, id as u8) {
                count += 1;
            }
        }
        count
    }
}

/// Whether this number's bit is set.
fn has_bit(words: &[u64; 4], id: u8) -> bool
    ensures { result ≡ has_bit words.now id }
{
    words[usize::from(id / 64)] >> u32::from(id % 64) & 1 == 1
}
