//! States that the requests of a generator made: each is read from its bytes, and its bytes with one of them
//! changed are those of another state or of none.

use crate::answers::FULL_STATE;
use crate::asked::{bytes_of, config};
use crate::changes::is_state;
use crate::numbers::Numbers;
use crate::service::Service;
use std::alloc::{AllocError, Global};
use std::test::Fail;

/// Clients, and each with its tenant.
const CLIENTS: [u32; 6] = [300, 100, 200, 150, 400, 16];

const PAIRS: &str = "300:2 100:1 200:1 150:2 400:7 16:3";

/// The bytes with another one at an offset.
fn with_byte(alloc: Global, bytes: &[u8], offset: usize, byte: u8) -> Result<Vec<u8>, AllocError> {
    let mut changed = bytes.to_vec(alloc)?;
    if let Some(old) = changed.get_mut(offset) {
        *old = byte;
    }
    Ok(changed)
}

/// Whether the service's bytes with one of them changed, which a generator chooses, are those of a state.
fn is_state_near(service: &Service, numbers: &mut Numbers) -> Result<bool, Fail> {
    let bytes = service.state.to_bytes()?;
    let offset = numbers.below(1 << 24) as usize % bytes.len().max(1);
    let old = bytes.get(offset).copied().unwrap_or(0);
    let byte = old.wrapping_add(1 + numbers.below(255) as u8);
    let changed = with_byte(service.alloc, &bytes, offset, byte)?;
    is_state(service.alloc, &service.config, &changed)
}

/// How many of a hundred states, by requests of a generator, have a state beside them.
fn states_near(alloc: Global, numbers: &mut Numbers) -> Result<u32, Fail> {
    let mut service = Service::new(alloc, PAIRS)?;
    let mut states = 0u32;
    for _ in 0..100 {
        let line = numbers.line(alloc, &CLIENTS, service.state.number().0)?;
        service.take(&line)?;
        service.read_again()?;
        states = states.saturating_add(u32::from(is_state_near(&service, numbers)?));
    }
    Ok(states)
}

/// 1,000 states: ten times a hundred requests from the first state on.
#[test]
fn states_of_many_requests_are_read(rt: HostRuntime) -> Result<(), Fail> {
    let mut numbers = Numbers { last: 20_261_124 };
    let mut states = 0u32;
    for _ in 0..10 {
        states = states.saturating_add(states_near(rt.alloc(), &mut numbers)?);
    }
    assert!(rt; states > 200 && states < 800, "{states}");
    Ok(())
}

/// Every byte of a state changed to a few others, and the bytes each time those of a state or of none.
#[test]
fn a_state_with_a_byte_changed_is_read_exactly(rt: HostRuntime) -> Result<(), Fail> {
    let clients = config(rt.alloc(), "300:2 100:1 200:1 150:2")?;
    let bytes = bytes_of(rt.alloc(), FULL_STATE)?;
    let mut numbers = Numbers { last: 20_270_101 };
    let mut states = 0u32;
    for step in 0..3384 {
        let byte = (numbers.next() >> 24) as u8;
        let changed = with_byte(rt.alloc(), &bytes, step / 8, byte)?;
        states = states.saturating_add(u32::from(is_state(rt.alloc(), &clients, &changed)?));
    }
    assert!(rt; states > 500 && states < 2860);
    Ok(())
}
