//! A largest state, written out by its layout, and bytes near it that encode none.

use crate::asked::config;
use crate::changes::wants;
use std::alloc::{AllocError, Global};
use std::test::Fail;

fn put_number(bytes: &mut Vec<u8>, number: u32) -> Result<(), AllocError> {
    bytes.extend_from_slice(&number.to_be_bytes())
}

/// A tenant with 64 procedures of 1,024 slots, of profile 1 and 2 in turn, which put 7 into r0 and exit, and
/// 4,096 entries, whose keys have their number in the first four bytes: 721,228 bytes.
fn put_tenant(bytes: &mut Vec<u8>, tenant: u32) -> Result<(), AllocError> {
    put_number(bytes, tenant)?;
    put_number(bytes, 64)?;
    for index in 0..64u8 {
        bytes.push(1 + index % 2)?;
        put_number(bytes, 8192)?;
        for _ in 0..1023 {
            bytes.extend_from_slice(&[0xb7, 0, 0, 0, 7, 0, 0, 0])?;
        }
        bytes.extend_from_slice(&[0x95, 0, 0, 0, 0, 0, 0, 0])?;
    }
    put_number(bytes, 4096)?;
    for number in 0..4096 {
        put_number(bytes, number)?;
        bytes.extend_from_slice(&[0x5a; 44])?;
    }
    Ok(())
}

/// The last replies to the clients 100 to 163, each of 265 bytes: 18,496 bytes.
fn put_replies(bytes: &mut Vec<u8>) -> Result<(), AllocError> {
    for client in 100..164 {
        put_number(bytes, client)?;
        bytes.extend_from_slice(&[0, 0, 0, 0, 0, 0, 0, 5, 0, 0, 0, 0, 0, 0, 0, 6])?;
        put_number(bytes, 265)?;
        bytes.extend_from_slice(&[3; 265])?;
    }
    Ok(())
}

/// A state of 64 clients and 8 tenants, the number 1,000.
fn largest(alloc: Global) -> Result<Vec<u8>, AllocError> {
    let mut bytes = [2, 0, 0, 0, 0, 0, 0, 3, 0xe8, 0, 0, 0, 64].to_vec(alloc)?;
    put_replies(&mut bytes)?;
    put_number(&mut bytes, 8)?;
    for tenant in 1..9 {
        put_tenant(&mut bytes, tenant)?;
    }
    Ok(bytes)
}

/// The last tenant stands from byte 5,067,109 on: its procedures from 5,067,117 on, the last slot of them at
/// 5,591,717, and its entries from 5,591,729 on.
const NEAR: &str = "\
yes | 0 1 02 | nothing\n\
no | 5788336 5788337 - | the last byte cut off\n\
no | 2894168 5788337 - | half of it cut off\n\
no | 5788337 5788337 00 | a byte more\n\
no | 5591729 5591730 01 | a key out of order\n\
no | 5591717 5591718 b7 | a procedure that falls off its end\n\
no | 5067117 5067117 0100000010b7000000070000009500000000000000, 5067116 5067117 41 | 65 procedures\n\
";

/// Clients 100 to 163, of the tenants 1 to 8.
fn pairs(alloc: Global) -> Result<String, AllocError> {
    let mut pairs = String::from_str(alloc, "100:1")?;
    for index in 1..64u32 {
        let (client, tenant) = (100 + index, index % 8 + 1);
        pairs.push_str(&format!(in alloc; " {client}:{tenant}")?)?;
    }
    Ok(pairs)
}

#[test]
fn a_largest_state_is_read(rt: HostRuntime) -> Result<(), Fail> {
    let clients = config(rt.alloc(), &pairs(rt.alloc())?)?;
    let bytes = largest(rt.alloc())?;
    assert!(rt; bytes.len() == 5_788_337);
    wants(rt.alloc(), &clients, &bytes, NEAR)
}
