#![tactic(auto, using(crate::proofs::MeaningLemmas::meanings))]

ghost use Rattle.std.specs.Prelude.{◌≡◌, ℕ, List};
ghost use Rattle.std.specs.FinMap as map;
ghost use Rattle.std.specs.Map.Iter.{ShowsInOrder, deref_pair};
ghost use Rattle.tenant_maps.specs.Entries.{IsTenantMap, IsValue};
ghost use Rattle.tenant_maps.specs.TenantEntries.{meaning, IsTenantMap-prop};

use crate::port::{MapPort, Put};
use std::alloc::{AllocError, Global};
use std::collections::BTreeMap;
use std::collections::btree_map::Iter;
use std::marker::Model;
use std::ops::Bound;

/// The most entries of a tenant's map.
pub const MAX_ENTRIES: usize = 4096;

/// One tenant's map. Contracts see it as its entries, which are always a tenant's map.
#[derive(Drop)]
pub struct TenantMap {
    map: BTreeMap<[u8; 16], [u8; 32]>,
    ghost bounded: { IsTenantMap (meaning map) } by { IsTenantMap-prop (meaning map) },
}

impl Model for TenantMap {
    ghost use Rattle.std.specs.Ordering.{nat_cmp};
    ghost use Rattle.std.specs.Cmp.Lexicographic.{slice_cmp};
    ghost use Rattle.std.specs.BTreeMap.{IsOrdered};
    ghost use Rattle.tenant_maps.specs.TenantEntries.{TenantEntries, tenant_entries_code, meaning};

    ghost Value = { TenantEntries };

    ghost coded = { tenant_entries_code };

    ghost view = { λ a. record { entries = meaning a.map; bounded = a.bounded } };

    ghost invariant = { λ a. IsOrdered (slice_cmp nat_cmp) a.map };
}

impl TenantMap {
    /// The map with no entries. Takes no memory.
    pub fn new(alloc: Global) -> TenantMap
        ensures { result.entries ≡ map.empty }
    {
        TenantMap {
            map: BTreeMap::new(alloc),
        }
    }

    /// All entries, by key ascending in the order of the bytes. Takes no memory.
    pub fn entries(&self) -> Iter<'_, [u8; 16], [u8; 32]>
        ensures in_order { result ≡ map.entries self.now.entries }
        ensures runs { ShowsInOrder (deref_pair {K = List ℕ} {X = List ℕ}) }
    {
        self.map.iter()
    }
}

impl MapPort for TenantMap {
    ghost entries = { λ m. m.entries };

    ghost is_tenant_map = { λ m. m.bounded };

    fn get(&self, key: &[u8; 16]) -> Option<[u8; 32]> {
        self.map.get(key).copied()
    }

    fn put(&mut self, key: [u8; 16], value: [u8; 32]) -> Result<Put, AllocError> {
        if self.len() < MAX_ENTRIES {
            self.map.insert(key, value)?;
            return Ok(Put::Stored);
        }
        let Some(stored) = self.map.get_mut(&key) else {
            return Ok(Put::Full);
        };
        overwrite(stored, &value);
        Ok(Put::Stored)
    }

    fn del(&mut self, key: &[u8; 16]) -> bool {
        self.map.remove(key).is_some()
    }

    fn next(&self, key: &[u8; 16]) -> Option<[u8; 16]> {
        let mut above = self.map.range((Bound::Excluded(*key), Bound::Unbounded));
        match above.next() {
            Some((next, _)) => Some(*next),
            None => None,
        }
    }

    fn len(&self) -> usize {
        self.map.len()
    }
}

// Writes the value over the one that is stored.
fn overwrite(stored: &mut [u8; 32], value: &[u8; 32])
    ensures value { stored.new ≡ value.now }
    ensures bytes { IsValue stored.new }
{
    stored.copy_from_slice(value);
}
