//! Configurations and requests, as lines say them.

use crate::answers::{FIRST_FULL_STATE, FULL_STATE};
use hex::decode;
use host_types::{Bytes, ClientEntry, ClientId, Config, PublicKey, Request, TenantId};
use std::alloc::Global;
use std::sync::Arc;
use std::test::Fail;

/// The part of a line that stands before a blank, and what stands behind it.
pub(crate) fn halves(line: &str) -> (&str, &str) {
    line.split_once(" ").unwrap_or((line, ""))
}

/// What a word stands for: `-` for no digits, `full` for those of `FULL_STATE`, and `first` for those of it in
/// version 1.
fn digits_of(text: &str) -> &str {
    if text == "full" {
        FULL_STATE
    } else if text == "first" {
        FIRST_FULL_STATE
    } else if text == "-" {
        ""
    } else {
        text
    }
}

/// Bytes in hex; `HEX*N` has them N times, `-` stands for none, and `full` and `first` for those of `FULL_STATE`.
pub(crate) fn bytes_of(alloc: Global, text: &str) -> Result<Vec<u8>, Fail> {
    let text = digits_of(text);
    match text.split_once("*") {
        Some((piece, times)) => {
            let piece = piece.repeat(alloc, times.parse::<usize>()?)?;
            Ok(decode(alloc, piece.as_str())?)
        }
        None => Ok(decode(alloc, text)?),
    }
}

/// A configuration of four replicas, with a client for each `ID:TENANT`.
pub(crate) fn config(alloc: Global, pairs: &str) -> Result<Arc<Config>, Fail> {
    let mut keys = Vec::new(alloc);
    for index in 0..4u8 {
        keys.push(PublicKey::Lms([index; 56]))?;
    }
    let clients = clients(alloc, pairs)?;
    Ok(Arc::new(alloc, Config::new(1, 8, keys, clients)?)?)
}

/// A client for each `ID:TENANT`.
fn clients(alloc: Global, pairs: &str) -> Result<Vec<ClientEntry>, Fail> {
    let mut clients = Vec::new(alloc);
    for pair in pairs.split(' ') {
        let (id, tenant) = pair.split_once(":").ok_or("no tenant")?;
        clients.push(ClientEntry {
            id: ClientId(id.parse()?),
            tenant: TenantId(tenant.parse()?),
            key: PublicKey::Lms([7; 56]),
        })?;
    }
    Ok(clients)
}

/// The operation of `install CODE`, `install2 CODE`, `call PROCEDURE ARGUMENTS` or `raw BYTES`.
fn operation(alloc: Global, text: &str) -> Result<Bytes, Fail> {
    let (verb, rest) = halves(text);
    if verb == "install" {
        joined(alloc, &[1], rest)
    } else if verb == "install2" {
        joined(alloc, &[4], rest)
    } else if verb == "call" {
        let (procedure, arguments) = halves(rest);
        let [a, b, c, d] = procedure.parse::<u32>()?.to_be_bytes();
        joined(alloc, &[2, a, b, c, d], arguments)
    } else if verb == "raw" {
        joined(alloc, &[], rest)
    } else {
        Err(Fail::new("no such operation"))
    }
}

/// These bytes, and those of a text behind them.
fn joined(alloc: Global, front: &[u8], text: &str) -> Result<Bytes, Fail> {
    let mut bytes = front.to_vec(alloc)?;
    bytes.extend_from_slice(&bytes_of(alloc, text)?)?;
    Ok(Bytes::from_vec(bytes))
}

/// The request of a client by `TIME OPERATION`.
pub(crate) fn request_of(alloc: Global, client: &str, rest: &str) -> Result<Request, Fail> {
    let (time, op) = halves(rest);
    Ok(Request {
        client: ClientId(client.parse()?),
        time: time.parse()?,
        op: operation(alloc, op)?,
    })
}

/// The request of `CLIENT TIME OPERATION`, or of `null`.
fn request(alloc: Global, line: &str) -> Result<Option<Request>, Fail> {
    if line == "null" {
        return Ok(None);
    }
    let (client, rest) = halves(line);
    Ok(Some(request_of(alloc, client, rest)?))
}

/// The requests of a text, one a line.
pub(crate) fn requests(alloc: Global, text: &str) -> Result<Vec<Option<Request>>, Fail> {
    let mut requests = Vec::new(alloc);
    for line in text.lines() {
        requests.push(request(alloc, line)?)?;
    }
    Ok(requests)
}
