//! The exports over maps, and what each does to what a handle holds.

ghost use Rattle.std.specs.Prelude.{◌≡◌, ◌≢◌, ◌<◌, ◌⊎◌, ℕ, length, Option, Some, None, option_map, option_and_then};
ghost use Rattle.std.specs.FinMap as fin;
ghost use Rattle.tenant_maps.specs.Entries.{put, next_key};
ghost use Rattle.bpf_model.specs.declared.fault.VerifyFault.TheVariants.{Memory};
ghost use Rattle.sandbox_c.specs.Inside.{entries_of, map_in};
ghost use Rattle.sandbox_c.specs.MapAnswers.{get_status, put_status, del_status, next_status, len_status};
ghost use Rattle.sandbox_c.specs.Statuses.{number_of};
ghost use Rattle.sandbox_c.specs.declared.status.Status.TheVariants.{Done, Fault, NoMap};

use crate::handle::Handle;
use crate::held::Held;
use crate::status::Status;
use bpf_verifier::VerifyFault;
use std::alloc::Global;
use tenant_maps::{MapPort, Put, TenantMap};

/// Makes a map with no entries. The handle's former content is freed.
#[unsafe(no_mangle)]
pub extern "C" fn bpfh_map_new(alloc: Global, map: &mut Handle) -> u32
    ensures { ((result ≡ 0) × (map_in map.new.slot.inside ≡ Some fin.empty))
        ⊎ ((result ≡ 21) × (map.new.slot.inside ≡ None)) }
{
    map.clear(alloc);
    match Box::new(alloc, Held::Map(TenantMap::new(alloc))) {
        Ok(boxed) => {
            map.put(boxed);
            Status::Done.number()
        }
        Err(_) => Status::Fault(VerifyFault::Memory).number(),
    }
}

/// Reads the value at a key. The value is written where the status is 0 alone.
#[unsafe(no_mangle)]
pub extern "C" fn bpfh_map_get(alloc: Global, map: &mut Handle, key: &[u8], value: &mut [u8]) -> u32
    ensures status { result ≡ number_of (get_status (map_in map.old.slot.inside) key.now (length value.old)) }
    ensures value { result ≡ 0 →
        option_and_then (λ entries. fin.get entries key.now) (map_in map.old.slot.inside) ≡ Some value.new }
    ensures untouched { 0 < result → value.new ≡ value.old }
    ensures kept { map.new.slot.inside ≡ map.old.slot.inside }
{
    let Some(held) = map.take(alloc) else {
        return Status::NoMap.number();
    };
    let status = get(&held, key, value);
    map.put(held);
    status.number()
}

/// Writes the value at a key. The map stays as it was where the status is another than 0.
#[unsafe(no_mangle)]
pub extern "C" fn bpfh_map_put(alloc: Global, map: &mut Handle, key: &[u8], value: &[u8]) -> u32
    ensures status { (result ≡ 21)
        ⊎ (result ≡ number_of (put_status (map_in map.old.slot.inside) key.now value.now)) }
    ensures after { result ≡ 0 → map_in map.new.slot.inside ≡
        option_map (λ entries. put entries key.now value.now) (map_in map.old.slot.inside) }
    ensures kept { 0 < result → map.new.slot.inside ≡ map.old.slot.inside }
{
    let Some(mut held) = map.take(alloc) else {
        return Status::NoMap.number();
    };
    let status = put(&mut held, key, value);
    map.put(held);
    status.number()
}

/// Takes out the entry of a key. The map stays as it was where the status is another than 0.
#[unsafe(no_mangle)]
pub extern "C" fn bpfh_map_del(alloc: Global, map: &mut Handle, key: &[u8]) -> u32
    ensures status { result ≡ number_of (del_status (map_in map.old.slot.inside) key.now) }
    ensures after { result ≡ 0 → map_in map.new.slot.inside ≡
        option_map (λ entries. fin.remove entries key.now) (map_in map.old.slot.inside) }
    ensures kept { 0 < result → map.new.slot.inside ≡ map.old.slot.inside }
{
    let Some(mut held) = map.take(alloc) else {
        return Status::NoMap.number();
    };
    let status = del(&mut held, key);
    map.put(held);
    status.number()
}

/// Reads the least key above another one, in the order of the bytes. It is written where the status is 0 alone.
#[unsafe(no_mangle)]
pub extern "C" fn bpfh_map_next(alloc: Global, map: &mut Handle, key: &[u8], next: &mut [u8]) -> u32
    ensures status { result ≡ number_of (next_status (map_in map.old.slot.inside) key.now (length next.old)) }
    ensures next { result ≡ 0 →
        option_and_then (λ entries. next_key entries key.now) (map_in map.old.slot.inside) ≡ Some next.new }
    ensures untouched { 0 < result → next.new ≡ next.old }
    ensures kept { map.new.slot.inside ≡ map.old.slot.inside }
{
    let Some(held) = map.take(alloc) else {
        return Status::NoMap.number();
    };
    let status = next_of(&held, key, next);
    map.put(held);
    status.number()
}

/// Counts the entries. The count is written where the status is 0 alone.
#[unsafe(no_mangle)]
pub extern "C" fn bpfh_map_len(alloc: Global, map: &mut Handle, count: &mut u64) -> u32
    ensures status { result ≡ number_of (len_status (map_in map.old.slot.inside)) }
    ensures count { result ≡ 0 → option_map fin.len (map_in map.old.slot.inside) ≡ Some count.new }
    ensures untouched { 0 < result → count.new ≡ count.old }
    ensures kept { map.new.slot.inside ≡ map.old.slot.inside }
{
    let Some(held) = map.take(alloc) else {
        return Status::NoMap.number();
    };
    let status = count_in(&held, count);
    map.put(held);
    status.number()
}

fn get(held: &Held, key: &[u8], value: &mut [u8]) -> Status
    ensures status { result ≡ get_status (entries_of held.now) key.now (length value.old) }
    ensures value { result ≡ Done →
        option_and_then (λ entries. fin.get entries key.now) (entries_of held.now) ≡ Some value.new }
    ensures untouched { result ≢ Done → value.new ≡ value.old }
{
    let Held::Map(map) = held else {
        return Status::NoMap;
    };
    let Ok(key) = <&[u8; 16]>::try_from(key) else {
        return Status::NoKey;
    };
    if value.len() != 32 {
        return Status::NoValue;
    }
    let Some(found) = map.get(key) else {
        return Status::NoEntry;
    };
    value.copy_from_slice(&found);
    Status::Done
}

fn put(held: &mut Held, key: &[u8], value: &[u8]) -> Status
    ensures status { (result ≡ Fault Memory)
        ⊎ (result ≡ put_status (entries_of held.old) key.now value.now) }
    ensures after { result ≡ Done → entries_of held.new ≡
        option_map (λ entries. put entries key.now value.now) (entries_of held.old) }
    ensures kept { result ≢ Done → held.new ≡ held.old }
{
    let Held::Map(map) = held else {
        return Status::NoMap;
    };
    let Ok(key) = <[u8; 16]>::try_from(key) else {
        return Status::NoKey;
    };
    let Ok(value) = <[u8; 32]>::try_from(value) else {
        return Status::NoValue;
    };
    match map.put(key, value) {
        Ok(Put::Stored) => Status::Done,
        Ok(Put::Full) => Status::MapFull,
        Err(_) => Status::Fault(VerifyFault::Memory),
    }
}

fn del(held: &mut Held, key: &[u8]) -> Status
    ensures status { result ≡ del_status (entries_of held.old) key.now }
    ensures after { result ≡ Done → entries_of held.new ≡
        option_map (λ entries. fin.remove entries key.now) (entries_of held.old) }
    ensures kept { result ≢ Done → held.new ≡ held.old }
{
    let Held::Map(map) = held else {
        return Status::NoMap;
    };
    let Ok(key) = <&[u8; 16]>::try_from(key) else {
        return Status::NoKey;
    };
    if map.get(key).is_none() {
        return Status::NoEntry;
    }
    map.del(key);
    Status::Done
}

fn next_of(held: &Held, key: &[u8], next: &mut [u8]) -> Status
    ensures status { result ≡ next_status (entries_of held.now) key.now (length next.old) }
    ensures next { result ≡ Done →
        option_and_then (λ entries. next_key entries key.now) (entries_of held.now) ≡ Some next.new }
    ensures untouched { result ≢ Done → next.new ≡ next.old }
{
    let Held::Map(map) = held else {
        return Status::NoMap;
    };
    let Ok(key) = <&[u8; 16]>::try_from(key) else {
        return Status::NoKey;
    };
    if next.len() != 16 {
        return Status::NoKey;
    }
    let Some(found) = map.next(key) else {
        return Status::NoEntry;
    };
    next.copy_from_slice(&found);
    Status::Done
}

fn count_in(held: &Held, count: &mut u64) -> Status
    ensures status { result ≡ len_status (entries_of held.now) }
    ensures count { result ≡ Done → option_map fin.len (entries_of held.now) ≡ Some count.new }
    ensures untouched { result ≢ Done → count.new ≡ count.old }
{
    let Held::Map(map) = held else {
        return Status::NoMap;
    };
    *count = map.len() as u64;
    Status::Done
}
