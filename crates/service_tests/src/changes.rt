//! Bytes that encode a state under a configuration, and bytes near them that encode none.

use crate::answers::{FIRST_FULL_STATE, FULL_STATE};
use crate::asked::{bytes_of, config, halves};
use host_types::Config;
use service_core::{State, StateFault};
use std::alloc::{AllocError, Global};
use std::sync::Arc;
use std::test::Fail;

/// The clients of `FULL_STATE`.
const CLIENTS: &str = "300:2 100:1 200:1 150:2";

/// Whether bytes are read as a state, which then has these bytes, unless they are of version 1.
pub(crate) fn is_state(alloc: Global, config: &Arc<Config>, bytes: &[u8]) -> Result<bool, Fail> {
    match State::from_bytes(alloc, config.clone()?, bytes) {
        Ok(state) => {
            if bytes.first() != Some(&1) && state.to_bytes()?.as_slice() != bytes {
                return Err(Fail::new("other bytes"));
            }
            Ok(true)
        }
        Err(StateFault::BadState) => Ok(false),
        Err(StateFault::Memory) => Err(Fail::new("memory ran out")),
    }
}

/// The bytes with others, in hex, instead of a range: `FROM UP_TO HEX`.
fn replaced(alloc: Global, bytes: &[u8], cut: &str) -> Result<Vec<u8>, Fail> {
    let (from, rest) = halves(cut);
    let (up_to, piece) = halves(rest);
    let front = bytes.get(..from.parse::<usize>()?).ok_or("no such byte")?;
    let back = bytes.get(up_to.parse::<usize>()?..).ok_or("no such byte")?;
    let mut changed = front.to_vec(alloc)?;
    changed.extend_from_slice(&bytes_of(alloc, piece)?)?;
    changed.extend_from_slice(back)?;
    Ok(changed)
}

/// Wants what a table says of bytes and their changes: whether they encode a state; the ranges that are
/// replaced, the last one first; and what that is called.
pub(crate) fn wants(
    alloc: Global,
    config: &Arc<Config>,
    bytes: &[u8],
    table: &str,
) -> Result<(), Fail> {
    for line in table.lines() {
        let (wanted, rest) = line.split_once(" | ").ok_or("no changes")?;
        let (cuts, _) = rest.split_once(" | ").ok_or("no name")?;
        let mut changed = bytes.to_vec(alloc)?;
        for cut in cuts.split(',') {
            changed = replaced(alloc, &changed, cut.trim())?;
        }
        if is_state(alloc, config, &changed)? != (wanted == "yes") {
            return Err(Fail::new("another answer"));
        }
    }
    Ok(())
}

/// Changes of `FULL_STATE`, which has the number in bytes 1 to 8; the replies to 100, 200 and 300 from 13, 46 and
/// 79; their tenants 1 and 2 from 112 and 390, of 2 procedures and 3 keys and of 1 procedure and none. The last
/// procedure has its profile in byte 398, its length behind it, and its code from 403 on.
const CHANGES: &str = "\
yes | 0 1 02 | nothing\n\
no | 423 423 00 | a byte more\n\
no | 0 1 00 | version 0\n\
no | 0 1 01 | version 1, in which no profile stands\n\
no | 0 1 03 | version 3\n\
no | 2 3 01 | the number 2^48 + 6\n\
no | 1 9 0001000000000000 | the number 2^48\n\
yes | 3 9 ff*6 | the number 2^48 - 1\n\
no | 8 9 05 | a kept number above the state's\n\
no | 98 99 00 | a kept number of 0\n\
yes | 17 25 8000000000000000 | a time of 2^63\n\
no | 82 83 2d | a client that is not listed\n\
no | 81 83 0096 | clients out of order\n\
no | 81 83 00c8 | a client twice\n\
yes | 101 103 0109*131 | a result of 265 bytes\n\
no | 101 104 010a*132 | a result of 266 bytes\n\
yes | 33 46 00000000 | a result of no bytes\n\
no | 390 423 -, 111 112 01 | a tenant missing\n\
no | 393 394 01 | a tenant twice\n\
no | 393 394 01, 115 116 02 | tenants out of order\n\
yes | 398 398 0100000010b7000000070000009500000000000000*63, 397 398 40 | 64 procedures\n\
no | 398 398 0100000010b7000000070000009500000000000000*64, 397 398 41 | 65 procedures\n\
no | 411 412 b7 | a procedure that falls off its end\n\
yes | 398 399 02 | profile 2\n\
no | 398 399 00 | profile 0\n\
no | 398 399 03 | profile 3\n\
no | 398 403 0000001001 | a profile behind the length\n\
no | 398 399 - | no profile\n\
yes | 398 419 020000003071120000000000007b2af8ff0000000079a3f8ff000000000f3100000000000071100000000000009500000000000000 | code that profile 2 accepts\n\
no | 398 419 010000003071120000000000007b2af8ff0000000079a3f8ff000000000f3100000000000071100000000000009500000000000000 | code that profile 1 refuses\n\
no | 294 297 00*3 | a key twice\n\
no | 294 295 03 | a key out of order\n\
";

#[test]
fn a_changed_encoding_is_of_no_state(rt: HostRuntime) -> Result<(), Fail> {
    let clients = config(rt.alloc(), CLIENTS)?;
    let bytes = bytes_of(rt.alloc(), FULL_STATE)?;
    wants(rt.alloc(), &clients, &bytes, CHANGES)
}

/// Changes of `FIRST_FULL_STATE`: the last procedure has its length from byte 396 on, and its code from 400 on.
const FIRST_CHANGES: &str = "\
yes | 0 1 01 | nothing\n\
no | 420 420 00 | a byte more\n\
no | 0 1 02 | version 2, in which profiles stand\n\
no | 396 396 01 | a profile told\n\
yes | 400 408 b700000008000000 | other code\n\
no | 396 416 0000003071120000000000007b2af8ff0000000079a3f8ff000000000f3100000000000071100000000000009500000000000000 | code that profile 1 refuses\n\
no | 396 416 020000003071120000000000007b2af8ff0000000079a3f8ff000000000f3100000000000071100000000000009500000000000000 | a procedure of profile 2\n\
";

#[test]
fn bytes_of_version_1_are_of_procedures_of_profile_1(rt: HostRuntime) -> Result<(), Fail> {
    let clients = config(rt.alloc(), CLIENTS)?;
    let bytes = bytes_of(rt.alloc(), FIRST_FULL_STATE)?;
    wants(rt.alloc(), &clients, &bytes, FIRST_CHANGES)
}

#[test]
fn the_canonical_encoding_is_of_version_2(rt: HostRuntime) -> Result<(), Fail> {
    let clients = config(rt.alloc(), CLIENTS)?;
    let first = bytes_of(rt.alloc(), FIRST_FULL_STATE)?;
    let second = bytes_of(rt.alloc(), FULL_STATE)?;
    let canonical = State::from_canonical(rt.alloc(), clients.clone()?, &second)?;
    assert!(rt; canonical.to_bytes()?.as_slice() == second.as_slice());
    let fault = State::from_canonical(rt.alloc(), clients.clone()?, &first).err();
    assert!(rt; fault == Some(StateFault::BadState));
    Ok(())
}

/// Whether `FULL_STATE` encodes a state under other clients: none without a reply, one that is not listed, a
/// tenant too many, a tenant missing, another tenant.
const CONFIGURATIONS: &str = "\
yes 300:2 100:1 200:1\n\
no 300:2 100:1 150:2\n\
no 300:1 100:1 200:1\n\
no 300:2 100:1 200:1 400:3\n\
no 300:3 100:1 200:1\n\
";

#[test]
fn another_configuration_has_other_states(rt: HostRuntime) -> Result<(), Fail> {
    let bytes = bytes_of(rt.alloc(), FULL_STATE)?;
    for line in CONFIGURATIONS.lines() {
        let (wanted, pairs) = halves(line);
        let found = is_state(rt.alloc(), &config(rt.alloc(), pairs)?, &bytes)?;
        assert!(rt; found == (wanted == "yes"), "{line}");
    }
    Ok(())
}

#[test]
fn a_state_that_is_cut_is_none(rt: HostRuntime) -> Result<(), Fail> {
    let clients = config(rt.alloc(), CLIENTS)?;
    let bytes = bytes_of(rt.alloc(), FULL_STATE)?;
    for length in 0..bytes.len() {
        assert!(rt; !is_state(rt.alloc(), &clients, &bytes[..length])?);
    }
    Ok(())
}

/// The fault that reading bytes ends with, if any.
fn fault(
    alloc: Global,
    config: &Arc<Config>,
    bytes: &[u8],
) -> Result<Option<StateFault>, AllocError> {
    Ok(State::from_bytes(alloc, config.clone()?, bytes).err())
}

/// Whether one answer ran out of memory or both are the same.
fn agree(first: Option<StateFault>, second: Option<StateFault>) -> bool {
    first == second || first == Some(StateFault::Memory) || second == Some(StateFault::Memory)
}

/// Where an allocation fails in one of two readings, the other has ample memory.
#[test]
fn want_of_memory_is_no_other_answer(rt: HostRuntime) -> Result<(), Fail> {
    let clients = config(rt.alloc(), CLIENTS)?;
    let bytes = bytes_of(rt.alloc(), FULL_STATE)?;
    for length in [422, 423] {
        let part = bytes.get(..length).ok_or("too short")?;
        let first = fault(rt.alloc(), &clients, part)?;
        let second = fault(rt.alloc(), &clients, part)?;
        assert!(rt; agree(first, second));
    }
    assert!(rt; StateFault::BadState.number() == 1 && StateFault::Memory.number() == 2);
    Ok(())
}
