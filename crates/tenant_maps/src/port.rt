ghost use Rattle.std.specs.Prelude.{◌≡◌, ◌<◌, IfOk, OnOk, OnErr, None};
ghost use Rattle.std.specs.FinMap as map;
ghost use Rattle.tenant_maps.specs.Entries.{Entries, IsTenantMap, put, next_key};
ghost use Rattle.tenant_maps.specs.PutAnswer.{put_answer};

use std::alloc::AllocError;

/// What a `put` answers.
#[derive(Clone, Copy, Debug, PartialEq, Eq)]
pub enum Put {
    /// The entry stands in the map.
    Stored,
    /// The key is new and the map has 4,096 entries; the map is as it was.
    Full,
}

/// A map of at most 4,096 entries, from keys of 16 bytes to values of 32. Only `put` takes memory.
pub trait MapPort {
    ghost entries: { Self → Entries };

    /// The value at the key, if there is one.
    fn get(&self, key: &[u8; 16]) -> Option<[u8; 32]>
        ensures { result ≡ map.get (entries self.now) key.now };

    /// Writes the entry. `Full` comes exactly for a new key where there are 4,096 entries, and leaves the
    /// map as it was; so an entry that is there can always be written anew. `AllocError` comes where
    /// memory ran out, for a new key alone, and leaves the map as it was.
    fn put(&mut self, key: [u8; 16], value: [u8; 32]) -> Result<Put, AllocError>
        ensures answer { IfOk result (λ answer. answer ≡ put_answer (entries self.old) key) }
        ensures after { OnOk result (entries self.new ≡ put (entries self.old) key value) }
        ensures refused { OnErr result (entries self.new ≡ entries self.old) }
        ensures refused_key { OnErr result (map.get (entries self.old) key ≡ None) }
        ensures refused_count { OnErr result (map.len (entries self.old) < 4096) };

    /// Takes out the entry of the key, and returns whether there was one.
    fn del(&mut self, key: &[u8; 16]) -> bool
        ensures found { result ≡ map.contains_key (entries self.old) key.now }
        ensures after { entries self.new ≡ map.remove (entries self.old) key.now };

    /// The least key greater than this one, in the order of the bytes, if there is one.
    fn next(&self, key: &[u8; 16]) -> Option<[u8; 16]>
        ensures { result ≡ next_key (entries self.now) key.now };

    /// The number of entries, 0 to 4,096.
    fn len(&self) -> usize
        ensures { result ≡ map.len (entries self.now) };

    ghost is_tenant_map: { (port : Self) → IsTenantMap (entries port) };
}
