//! A tenant's map: what it answers, also when it is full, alone and to procedures.

ghost use Rattle.std.specs.Prelude.{◌≡◌, ◌++◌, IfOk, flat_map};
ghost use Rattle.std.specs.FinMap as map;

use bpf_machine::run;
use bpf_verifier::{Procedure, verify};
use hex::decode;
use host_types::ClientId;
use std::alloc::{AllocError, Global};
use std::test::Fail;
use tenant_maps::{MapPort, Put, TenantMap};

/// Through the bound: puts a value at a key.
fn put<P: MapPort>(port: &mut P, key: [u8; 16], value: [u8; 32]) -> Result<Put, AllocError> {
    port.put(key, value)
}

/// Through the bound, by its law: the number of entries fits two bytes.
fn count<P: MapPort>(port: &P) -> u16
    ensures { result ≡ map.len (P.entries port.now) }
{
    port.len() as u16
}

/// All entries in order: keys and values, one after another.
fn encode(alloc: Global, tenant_map: &TenantMap) -> Result<Vec<u8>, AllocError>
    ensures { IfOk result (λ bytes. bytes.items ≡ flat_map (λ e. e.0 ++ e.1) (map.entries tenant_map.now.entries)) }
{
    let mut bytes = Vec::new(alloc);
    for (key, value) in tenant_map.entries() {
        bytes.extend_from_slice(key)?;
        bytes.extend_from_slice(value)?;
    }
    Ok(bytes)
}

/// The key of a number: its bytes, the greatest first, and zeros.
fn key_of(number: u32) -> [u8; 16] {
    let [a, b, c, d] = number.to_be_bytes();
    [a, b, c, d, 0, 0, 0, 0, 0, 0, 0, 0, 0, 0, 0, 0]
}

/// The value of a number: its bytes, the greatest first, and zeros.
fn value_of(number: u32) -> [u8; 32] {
    let mut value = [0; 32];
    let [a, b, c, d] = number.to_be_bytes();
    value[0] = a;
    value[1] = b;
    value[2] = c;
    value[3] = d;
    value
}

/// The number that a key or a value begins with, or -1 for none.
fn number_of(bytes: Option<&[u8]>) -> i64 {
    match bytes {
        Some([a, b, c, d, ..]) => i64::from(u32::from_be_bytes([*a, *b, *c, *d])),
        _ => -1,
    }
}

/// What is asked of a map with a number, and what it answers: 1 for yes, -1 for none; put puts the value of
/// the same number, and put1 that of the next one.
const ASKED: &str = "\
len 0 0\nget 5 -1\nnext 0 -1\n\
put 5 1\nput 3 1\nput1 5 1\nlen 0 2\n\
get 0 -1\nget 3 3\nget 4 -1\nget 5 6\n\
next 0 3\nnext 3 5\nnext 4 5\nnext 5 -1\n\
del 3 1\ndel 3 0\nlen 0 1\nget 3 -1\nget 5 6\n\
";

/// The answer to what is asked of a map.
fn answer(tenant_map: &mut TenantMap, verb: &str, number: u32) -> Result<i64, Fail> {
    let key = key_of(number);
    match verb.as_bytes() {
        b"put" => Ok(i64::from(put(tenant_map, key, value_of(number))? == Put::Stored)),
        b"put1" => {
            let value = value_of(number.wrapping_add(1));
            Ok(i64::from(put(tenant_map, key, value)? == Put::Stored))
        }
        b"get" => Ok(number_of(tenant_map.get(&key).as_ref().map(|value| value.as_slice()))),
        b"next" => Ok(number_of(tenant_map.next(&key).as_ref().map(|key| key.as_slice()))),
        b"del" => Ok(i64::from(tenant_map.del(&key))),
        b"len" => Ok(i64::from(count(tenant_map))),
        _ => Err(Fail::new("no such verb")),
    }
}

/// Wants the answers of a table from a map.
fn wants(tenant_map: &mut TenantMap, table: &str) -> Result<(), Fail> {
    for line in table.lines() {
        let (verb, rest) = line.split_once(" ").ok_or("no number")?;
        let (number, wanted) = rest.split_once(" ").ok_or("no answer")?;
        if answer(tenant_map, verb, number.parse::<u32>()?)? != wanted.parse::<i64>()? {
            return Err(Fail::new("another answer"));
        }
    }
    Ok(())
}

#[test]
fn answers_of_a_map(rt: HostRuntime) -> Result<(), Fail> {
    let mut tenant_map = TenantMap::new(rt.alloc());
    wants(&mut tenant_map, ASKED)
}

/// What is asked of a map of the keys 0 to 4,095.
const ASKED_OF_A_FULL_MAP: &str = "\
len 0 4096\nput 4096 0\nput1 0 1\nput 5000 0\nget 4096 -1\nget 0 1\nlen 0 4096\ndel 9 1\nput 4096 1\nget 4096 4096\n\
";

#[test]
fn full_at_4096_entries(rt: HostRuntime) -> Result<(), Fail> {
    let mut tenant_map = TenantMap::new(rt.alloc());
    for number in 0..4096u32 {
        put(&mut tenant_map, key_of(number), value_of(number))?;
    }
    wants(&mut tenant_map, ASKED_OF_A_FULL_MAP)
}

#[test]
fn keys_come_before_values(rt: HostRuntime) -> Result<(), Fail> {
    let mut tenant_map = TenantMap::new(rt.alloc());
    for (key, value) in [(5, 50), (3, 30)] {
        put(&mut tenant_map, key_of(key), value_of(value))?;
    }
    let bytes = encode(rt.alloc(), &tenant_map)?;
    assert!(rt; bytes.len() == 96);
    assert!(rt; &bytes[..16] == key_of(3).as_slice() && &bytes[64..] == value_of(50).as_slice());
    Ok(())
}

/// Writes the value in bytes 16 to 47 of the arguments for the key in bytes 0 to 15.
const PUT: &str = "bf12000000000000070200001000000085000000020000009500000000000000";

/// Reads the value of that key over the arguments' bytes from 16 on.
const GET: &str = "bf12000000000000070200001000000085000000010000009500000000000000";

/// The procedure of some code.
fn procedure(alloc: Global, code: &str) -> Result<Procedure, Fail> {
    Ok(verify(alloc, &decode(alloc, code)?)?)
}

/// A key and a value, both with this number in their first four bytes.
fn arguments(number: u32) -> [u8; 48] {
    let number = number.to_be_bytes();
    let mut bytes = [0; 48];
    for index in 0..4 {
        bytes[index] = number[index];
        bytes[16 + index] = number[index];
    }
    bytes
}

/// What a call of client 16 returns, on a key and a value that begin with this number.
fn result_on(procedure: &Procedure, number: u32, tenant_map: &mut TenantMap) -> Result<u64, Fail> {
    let arguments = arguments(number);
    Ok(run(procedure, &arguments, ClientId(16), tenant_map)?.result)
}

#[test]
fn a_map_fills_up(rt: HostRuntime) -> Result<(), Fail> {
    let put = procedure(rt.alloc(), PUT)?;
    let mut tenant_map = TenantMap::new(rt.alloc());
    // the last one is a new key too many
    for number in 0..4097u32 {
        let result = result_on(&put, number, &mut tenant_map)?;
        assert!(rt; (result == 0) == (number < 4096), "at {number}");
    }
    let again = result_on(&put, 0, &mut tenant_map)?;
    assert!(rt; again == 0 && tenant_map.len() == 4096);
    let get = procedure(rt.alloc(), GET)?;
    for (number, wanted) in [(4095, 0), (4096, 1)] {
        let result = result_on(&get, number, &mut tenant_map)?;
        assert!(rt; result == wanted, "{number}");
    }
    Ok(())
}
