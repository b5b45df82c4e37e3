//! What each helper does to a tenant's map and to the output.

ghost use Rattle.std.specs.Prelude.{◌≡◌, ◌<◌, ℕ, List, [], ◌++◌, length, None, IfOk, OnErr};
ghost use Rattle.std.specs.FinMap as map;
ghost use Rattle.map_helpers.specs.declared.helper.Helper.TheVariants as helpers;
ghost use Rattle.map_helpers.specs.Helpers.{reads};
ghost use Rattle.tenant_maps.specs.Entries.{Entries};
ghost use Rattle.map_helpers.specs.Effects.{context_of, effect as made, effect_of, put_effect, AreRead, written_bytes};

use crate::helper::Helper;
use arrayvec::ArrayVec;
use host_types::ClientId;
use std::alloc::AllocError;
use tenant_maps::{MapPort, Put};

/// The most bytes of a procedure's output (a limit of this host).
pub const MAX_OUTPUT: usize = 256;

/// What a helper writes, at the one access of `Helper::writes`.
#[derive(Clone, Copy, Debug, PartialEq, Eq)]
pub enum Written {
    /// No bytes.
    Nothing,
    /// A key.
    Key([u8; 16]),
    /// A value.
    Value([u8; 32]),
}

impl Written {
    ghost use Rattle.std.specs.Prelude.{◌≡◌};
    ghost use Rattle.map_helpers.specs.Effects.{written_bytes};

    /// Its bytes.
    pub fn bytes(&self) -> &[u8]
        ensures { result.now ≡ written_bytes self.now }
    {
        match self {
            Written::Nothing => &[],
            Written::Key(key) => key,
            Written::Value(value) => value,
        }
    }
}

/// What a helper answers.
#[derive(Clone, Copy, Debug, PartialEq, Eq)]
pub struct Answer {
    /// The number that r0 gets.
    pub value: u64,
    /// What is written to memory.
    pub written: Written,
}

/// What a helper does, given the bytes that the first and the second access of its `reads` have, the
/// client that calls, the tenant's map and the output so far. What it changes of map and output is
/// changed; what it writes to memory is in the answer. An error comes from a put of a new key alone, where
/// the map has room for it and its memory ran out; map and output are then as they were.
pub fn effect<P: MapPort>(
    helper: Helper,
    first: &[u8],
    second: &[u8],
    client: ClientId,
    port: &mut P,
    output: &mut ArrayVec<u8, MAX_OUTPUT>,
) -> Result<Answer, AllocError>
    requires { AreRead (reads helper) first.now second.now }
    ensures effect { IfOk result (λ answer.
        effect_of helper (context_of (P.entries port.old) output.old.items client.0) (first.now ++ second.now)
        ≡ made answer.value (written_bytes answer.written) (P.entries port.new) output.new.items) }
    ensures refused { OnErr result (P.entries port.new ≡ P.entries port.old) }
    ensures refused_output { OnErr result (output.new.items ≡ output.old.items) }
    ensures put { OnErr result (helper ≡ helpers.Put) }
    ensures new_key { OnErr result (map.get (P.entries port.old) first.now ≡ None) }
    ensures room { OnErr result (map.len (P.entries port.old) < 4096) }
{
    match helper {
        Helper::Get => Ok(get(port, first)),
        Helper::Put => put(port, first, second),
        Helper::Del => Ok(del(port, first)),
        Helper::Len => Ok(number(port.len() as u64)),
        Helper::Next => Ok(next(port, first)),
        Helper::Emit => Ok(emit(output, first)),
        Helper::Caller => Ok(number(u64::from(client.0))),
    }
}

/// An answer that writes nothing.
fn number(value: u64) -> Answer
    ensures value { result.value ≡ value }
    ensures written { written_bytes result.written ≡ [] }
{
    Answer {
        value,
        written: Written::Nothing,
    }
}

fn get<P: MapPort>(port: &P, key: &[u8]) -> Answer
    requires { length key.now ≡ 16 }
    ensures { (output : List ℕ) (client : ℕ) →
        effect_of helpers.Get (context_of (P.entries port.now) output client) key.now
        ≡ made result.value (written_bytes result.written) (P.entries port.now) output }
{
    match port.get(&key_of(key)) {
        Some(value) => Answer {
            value: 0,
            written: Written::Value(value),
        },
        None => Answer {
            value: 1,
            written: Written::Value([0; 32]),
        },
    }
}

fn put<P: MapPort>(port: &mut P, key: &[u8], value: &[u8]) -> Result<Answer, AllocError>
    requires key { length key.now ≡ 16 }
    requires value { length value.now ≡ 32 }
    ensures effect { IfOk result (λ answer. (output : List ℕ) (client : ℕ) →
        put_effect (context_of (P.entries port.old) output client) key.now value.now
        ≡ made answer.value (written_bytes answer.written) (P.entries port.new) output) }
    ensures refused { OnErr result (P.entries port.new ≡ P.entries port.old) }
    ensures new_key { OnErr result (map.get (P.entries port.old) key.now ≡ None) }
    ensures room { OnErr result (map.len (P.entries port.old) < 4096) }
{
    match port.put(key_of(key), value_of(value))? {
        Put::Stored => Ok(number(0)),
        Put::Full => Ok(number(1)),
    }
}

fn del<P: MapPort>(port: &mut P, key: &[u8]) -> Answer
    requires { length key.now ≡ 16 }
    ensures { (output : List ℕ) (client : ℕ) →
        effect_of helpers.Del (context_of (P.entries port.old) output client) key.now
        ≡ made result.value (written_bytes result.written) (P.entries port.new) output }
{
    if port.del(&key_of(key)) {
        number(0)
    } else {
        number(1)
    }
}

fn next<P: MapPort>(port: &P, key: &[u8]) -> Answer
    requires { length key.now ≡ 16 }
    ensures { (output : List ℕ) (client : ℕ) →
        effect_of helpers.Next (context_of (P.entries port.now) output client) key.now
        ≡ made result.value (written_bytes result.written) (P.entries port.now) output }
{
    match port.next(&key_of(key)) {
        Some(next) => Answer {
            value: 0,
            written: Written::Key(next),
        },
        None => Answer {
            value: 1,
            written: Written::Key([0; 16]),
        },
    }
}

fn emit(output: &mut ArrayVec<u8, MAX_OUTPUT>, bytes: &[u8]) -> Answer
    ensures { (entries : Entries) (client : ℕ) →
        effect_of helpers.Emit (context_of entries output.old.items client) bytes.now
        ≡ made result.value (written_bytes result.written) entries output.new.items }
{
    match output.try_extend_from_slice(bytes) {
        Ok(()) => number(0),
        Err(_) => number(1),
    }
}

fn key_of(bytes: &[u8]) -> [u8; 16]
    requires { length bytes.now ≡ 16 }
    ensures { result ≡ bytes.now }
{
    let mut key = [0; 16];
    key.copy_from_slice(bytes);
    key
}

fn value_of(bytes: &[u8]) -> [u8; 32]
    requires { length bytes.now ≡ 32 }
    ensures { result ≡ bytes.now }
{
    let mut value = [0; 32];
    value.copy_from_slice(bytes);
    value
}
