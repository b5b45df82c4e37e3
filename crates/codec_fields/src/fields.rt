//! Reading fields: each gives its value and the bytes behind it, or the first fault.

ghost use Rattle.std.specs.Prelude.{List, length, IfErr};
ghost use Rattle.std.specs.Int.{w32, w64};
ghost use Rattle.codec_fields.specs.Fields.{Gives, IsFault, number_at, view_at, client_at, sequence_number_at, digest_at, length_prefixed_at, count_at, id_at};

use crate::fault::{CodecFault, ReadError};
use host_types::limits::SEQUENCE_NUMBER_LIMIT;
use host_types::{Bytes, ClientId, Digest, SeqNo, View};
use std::alloc::Global;

/// A number of four bytes, the highest first. It is refused as `Truncated` where fewer are left.
pub fn read_u32(bytes: &[u8]) -> Result<(u32, &[u8]), ReadError>
    ensures read { Gives (λ x. (x.0, x.1.now)) result (number_at w32 bytes.now) }
    ensures fault { IfErr result IsFault }
{
    if bytes.len() < 4 {
        return Err(ReadError::Fault(CodecFault::Truncated));
    }
    let (front, rest) = bytes.split_at(4);
    let number = u32::from_be_bytes([front[0], front[1], front[2], front[3]]);
    Ok((number, rest))
}

/// A number of eight bytes, the highest first. It is refused as `Truncated` where fewer are left.
pub fn read_u64(bytes: &[u8]) -> Result<(u64, &[u8]), ReadError>
    ensures read { Gives (λ x. (x.0, x.1.now)) result (number_at w64 bytes.now) }
    ensures fault { IfErr result IsFault }
{
    if bytes.len() < 8 {
        return Err(ReadError::Fault(CodecFault::Truncated));
    }
    let (front, rest) = bytes.split_at(8);
    let number = u64::from_be_bytes([
        front[0], front[1], front[2], front[3], front[4], front[5], front[6], front[7],
    ]);
    Ok((number, rest))
}

/// A view, of four bytes. It is refused as `Truncated` where fewer are left.
#[tactic(auto, unfolding(crate::specs::Fields::view_at))]
pub fn read_view(bytes: &[u8]) -> Result<(View, &[u8]), ReadError>
    ensures read { Gives (λ x. (x.0, x.1.now)) result (view_at bytes.now) }
    ensures fault { IfErr result IsFault }
{
    let (view, rest) = read_u32(bytes)?;
    Ok((View(view), rest))
}

/// A client, whose id has four bytes. It is refused as `Truncated` where fewer are left.
#[tactic(auto, unfolding(crate::specs::Fields::client_at))]
pub fn read_client(bytes: &[u8]) -> Result<(ClientId, &[u8]), ReadError>
    ensures read { Gives (λ x. (x.0, x.1.now)) result (client_at bytes.now) }
    ensures fault { IfErr result IsFault }
{
    let (client, rest) = read_u32(bytes)?;
    Ok((ClientId(client), rest))
}

/// A sequence number, of eight bytes: `Truncated` where fewer are left, `BadField` from 2^48 on.
#[tactic(auto, unfolding(crate::specs::Fields::sequence_number_at))]
pub fn read_sequence_number(bytes: &[u8]) -> Result<(SeqNo, &[u8]), ReadError>
    ensures read { Gives (λ x. (x.0, x.1.now)) result (sequence_number_at bytes.now) }
    ensures fault { IfErr result IsFault }
{
    let (number, rest) = read_u64(bytes)?;
    if number >= SEQUENCE_NUMBER_LIMIT {
        return Err(ReadError::Fault(CodecFault::BadField));
    }
    Ok((SeqNo(number), rest))
}

/// A digest, of 32 bytes. It is refused as `Truncated` where fewer are left.
#[tactic(auto, unfolding(crate::specs::Fields::digest_at))]
pub fn read_digest(bytes: &[u8]) -> Result<(Digest, &[u8]), ReadError>
    ensures read { Gives (λ x. (x.0, x.1.now)) result (digest_at bytes.now) }
    ensures fault { IfErr result IsFault }
{
    if bytes.len() < 32 {
        return Err(ReadError::Fault(CodecFault::Truncated));
    }
    let (front, rest) = bytes.split_at(32);
    let mut digest = [0; 32];
    digest.copy_from_slice(front);
    Ok((Digest(digest), rest))
}

/// A length and so many bytes, which are not copied: `Truncated` where fewer are left.
#[tactic(auto, unfolding(crate::specs::Fields::length_prefixed_at))]
pub fn read_length_prefixed(bytes: &[u8]) -> Result<(&[u8], &[u8]), ReadError>
    ensures read { Gives (λ x. (x.0.now, x.1.now)) result (length_prefixed_at bytes.now) }
    ensures fault { IfErr result IsFault }
{
    let (length, rest) = read_u32(bytes)?;
    let length = length as usize;
    if rest.len() < length {
        return Err(ReadError::Fault(CodecFault::Truncated));
    }
    let (inside, rest) = rest.split_at(length);
    Ok((inside, rest))
}

/// A length and so many bytes, which are copied in one go: `Truncated` where fewer are left, and `Memory` where it ran out.
pub fn read_bytes(alloc: Global, bytes: &[u8]) -> Result<(Bytes, &[u8]), ReadError>
    ensures { Gives (λ x. (x.0, x.1.now)) result (length_prefixed_at bytes.now) }
{
    let (inside, rest) = read_length_prefixed(bytes)?;
    let copy = Vec::from_slice(alloc, inside)?;
    Ok((Bytes::from_vec(copy), rest))
}

/// A count of four bytes: `Truncated` where fewer are left, `BadField` where it is greater than this one.
#[tactic(auto, unfolding(crate::specs::Fields::count_at))]
pub fn read_count(max: u32, bytes: &[u8]) -> Result<(u32, &[u8]), ReadError>
    ensures read { Gives (λ x. (x.0, x.1.now)) result (count_at max bytes.now) }
    ensures fault { IfErr result IsFault }
{
    let (count, rest) = read_u32(bytes)?;
    if count > max {
        return Err(ReadError::Fault(CodecFault::BadField));
    }
    Ok((count, rest))
}

/// An id of four bytes: `Truncated` where fewer are left, `NotAscending` where it is less than this one.
#[tactic(auto, unfolding(crate::specs::Fields::id_at))]
pub fn read_id(low: u64, bytes: &[u8]) -> Result<(u32, &[u8]), ReadError>
    ensures read { Gives (λ x. (x.0, x.1.now)) result (id_at low bytes.now) }
    ensures fault { IfErr result IsFault }
{
    let (id, rest) = read_u32(bytes)?;
    if (id as u64) < low {
        return Err(ReadError::Fault(CodecFault::NotAscending));
    }
    Ok((id, rest))
}
