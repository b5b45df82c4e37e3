//! Reading what a state's bytes are made of: each gives its value and the bytes behind it.

ghost use Rattle.std.specs.Prelude.{◌≡◌, ◌<◌, ◌≤◌, ◌^◌, ◌++◌, ◌∷◌, [], length, flat_map, All, IfOk};
ghost use Rattle.host_types.specs.Configuration.{IsConfiguration};
ghost use Rattle.service_model.specs.Words.{u32_bytes, u64_bytes};
ghost use Rattle.service_model.specs.Encoding.{length_prefixed, encoded_reply, encoded_replies};
ghost use Rattle.service_model.specs.Bounded.{IsBoundedReply};
ghost use Rattle.service_core.specs.Readings.{Reads, encoded_head, in_turn, AreBoundedReplies, AreLastReplies};

use crate::state_fault::StateFault;
use host_types::limits::{MAX_CLIENTS, SEQUENCE_NUMBER_LIMIT};
use host_types::{Bytes, ClientId, Config, Reply, SeqNo};
use service_model::Version;
use std::alloc::Global;

/// The most last replies: one for each client.
const MAX_REPLIES: u32 = MAX_CLIENTS as u32;

/// The most bytes of a result.
const MAX_RESULT: u32 = 265;

/// A number in four bytes.
pub(crate) fn read_u32(bytes: &[u8]) -> Result<(u32, &[u8]), StateFault>
    ensures { Reads (λ x. (x.0, x.1.now)) u32_bytes (λ n. n < 2 ^ 32) bytes.now result }
{
    if bytes.len() < 4 {
        return Err(StateFault::BadState);
    }
    let (front, rest) = bytes.split_at(4);
    let number = u32::from_be_bytes([front[0], front[1], front[2], front[3]]);
    Ok((number, rest))
}

/// A number in eight bytes.
fn read_u64(bytes: &[u8]) -> Result<(u64, &[u8]), StateFault>
    ensures { Reads (λ x. (x.0, x.1.now)) u64_bytes (λ n. n < 2 ^ 64) bytes.now result }
{
    if bytes.len() < 8 {
        return Err(StateFault::BadState);
    }
    let (front, rest) = bytes.split_at(8);
    let number = u64::from_be_bytes([
        front[0], front[1], front[2], front[3], front[4], front[5], front[6], front[7],
    ]);
    Ok((number, rest))
}

/// A count in four bytes, at most this one.
pub(crate) fn read_count(limit: u32, bytes: &[u8]) -> Result<(u32, &[u8]), StateFault>
    ensures { Reads (λ x. (x.0, x.1.now)) u32_bytes (λ n. n ≤ limit) bytes.now result }
{
    let (count, rest) = read_u32(bytes)?;
    if count > limit {
        return Err(StateFault::BadState);
    }
    Ok((count, rest))
}

/// Bytes behind their length, at most so many. They are not copied.
pub(crate) fn read_length_prefixed(limit: u32, bytes: &[u8]) -> Result<(&[u8], &[u8]), StateFault>
    ensures { Reads (λ x. (x.0.now, x.1.now)) length_prefixed (λ inside. length inside ≤ limit) bytes.now result }
{
    let (length, rest) = read_count(limit, bytes)?;
    let length = length as usize;
    if rest.len() < length {
        return Err(StateFault::BadState);
    }
    let (inside, rest) = rest.split_at(length);
    Ok((inside, rest))
}

/// The version and the state's number.
pub(crate) fn read_head(bytes: &[u8]) -> Result<(Version, u64, &[u8]), StateFault>
    ensures { Reads (λ x. ((x.0, x.1), x.2.now)) encoded_head (λ head. head.1 < 2 ^ 48) bytes.now result }
{
    let Some((first, rest)) = bytes.split_first() else {
        return Err(StateFault::BadState);
    };
    let Some(version) = Version::of(*first) else {
        return Err(StateFault::BadState);
    };
    let (number, rest) = read_u64(rest)?;
    if number >= SEQUENCE_NUMBER_LIMIT {
        return Err(StateFault::BadState);
    }
    Ok((version, number, rest))
}

/// A client's last reply, in a state that has taken so many requests.
fn read_reply(alloc: Global, taken: u64, bytes: &[u8]) -> Result<(Reply, &[u8]), StateFault>
    ensures { Reads (λ x. (x.0, x.1.now)) encoded_reply (λ reply. IsBoundedReply taken reply.client.0 reply) bytes.now result }
{
    let (client, rest) = read_u32(bytes)?;
    let (time, rest) = read_u64(rest)?;
    let (number, rest) = read_u64(rest)?;
    if number == 0 || number > taken {
        return Err(StateFault::BadState);
    }
    let (inside, rest) = read_length_prefixed(MAX_RESULT, rest)?;
    let result = inside.to_vec(alloc)?;
    let reply = Reply {
        client: ClientId(client),
        time,
        number: SeqNo(number),
        result: Bytes::from_vec(result),
    };
    Ok((reply, rest))
}

/// So many replies.
fn read_replies_of(
    alloc: Global,
    taken: u64,
    count: u32,
    bytes: &[u8],
) -> Result<(Vec<Reply>, &[u8]), StateFault>
    ensures { Reads (λ x. (x.0.items, x.1.now)) (flat_map encoded_reply)
        (λ replies. (length replies ≡ count) × All (λ reply. IsBoundedReply taken reply.client.0 reply) replies) bytes.now result }
{
    let mut replies = Vec::new(alloc);
    let mut rest = bytes;
    for _ in 0..count {
        let (reply, after) = read_reply(alloc, taken, rest)?;
        replies.push(reply)?;
        rest = after;
    }
    Ok((replies, rest))
}

/// A count and so many replies.
fn read_reply_list(
    alloc: Global,
    taken: u64,
    bytes: &[u8],
) -> Result<(Vec<Reply>, &[u8]), StateFault>
    ensures { Reads (λ x. (x.0.items, x.1.now)) encoded_replies (AreBoundedReplies taken) bytes.now result }
{
    let (count, rest) = read_count(MAX_REPLIES, bytes)?;
    read_replies_of(alloc, taken, count, rest)
}

/// The clients' last replies, in a state that has taken so many requests.
pub(crate) fn read_replies<'a>(
    alloc: Global,
    config: &Config,
    taken: u64,
    bytes: &'a [u8],
) -> Result<(Vec<Reply>, &'a [u8]), StateFault>
    ensures read { Reads (λ x. (x.0.items, x.1.now)) encoded_replies (AreLastReplies config.now.clients taken) bytes.now result }
    ensures legal { IfOk result (λ x. IsConfiguration config.now) }
{
    let (replies, rest) = read_reply_list(alloc, taken, bytes)?;
    let ids = config.client_ids();
    if !are_in_turn(ids.as_slice(), &replies) {
        return Err(StateFault::BadState);
    }
    Ok((replies, rest))
}

/// Whether the replies are to some of the clients, in their order, one each at most.
#[tactic(auto, using(crate::proofs::Turns::turn_taken, crate::proofs::Turns::turn_passed, crate::proofs::Turns::turn_over))]
fn are_in_turn(ids: &[ClientId], replies: &[Reply]) -> bool
    ensures { result ≡ in_turn ids.now replies.now }
{
    let mut next = 0;
    for id in ids {
        if next < replies.len() && replies[next].client.0 == id.0 {
            next += 1;
        }
    }
    next == replies.len()
}
