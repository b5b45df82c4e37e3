//! Signed bodies and lists.

ghost use Rattle.std.specs.Prelude.{◌≡◌, List, ℕ, ◌+◌, ◌++◌, Result, OnOk};
ghost use Rattle.codec_fields.specs.Fields.{Gives};
ghost use Rattle.pbft_codec.specs.Reading.{whole, framed, signed_at, many_at, ascending_at, list_at};
ghost use Rattle.std.specs.List.{AllByRecursion};
ghost use Rattle.pbft_codec.specs.Limits.{SignedFieldsInRange};
ghost use Rattle.pbft_codec.specs.Layouts.{signed, encoded_list};

use crate::codec::Codec;
use crate::sequence::Sequence;
use crate::signed::{Signed, read_role};
use crate::writing::{put_length, put_length_prefixed, put_role, put_u32};
use codec_fields::{CodecFault, ReadError, read_bytes, read_count, read_id, read_length_prefixed};
use host_types::limits::MAX_REPLICAS;
use std::alloc::{AllocError, Global};

/// The most messages of one kind in a list of signers: one of each replica.
pub const MAX_SIGNERS: u32 = MAX_REPLICAS as u32;

/// The most sequence numbers in a list: those between the water marks, two checkpoint intervals of at
/// most 8.
pub const MAX_SEQUENCE_NUMBERS: u32 = 16;

/// A value that fills the bytes.
pub fn read_whole<T: Codec>(alloc: Global, bytes: &[u8]) -> Result<T, ReadError>
    ensures { Gives (λ x. x) result (whole T.reading bytes.now) }
{
    let (value, rest) = T::read(alloc, bytes)?;
    if !rest.is_empty() {
        return Err(ReadError::Fault(CodecFault::Trailing));
    }
    Ok(value)
}

/// A length, and so many bytes, which a value fills.
#[tactic(auto, unfolding(crate::specs::Reading::framed))]
fn read_framed<T: Codec>(alloc: Global, bytes: &[u8]) -> Result<(T, &[u8]), ReadError>
    ensures { Gives (λ x. (x.0, x.1.now)) result (framed T.reading bytes.now) }
{
    let (inside, rest) = read_length_prefixed(bytes)?;
    let value = read_whole(alloc, inside)?;
    Ok((value, rest))
}

/// A signed body whose signer's id is at least this one.
#[tactic(auto, unfolding(crate::specs::Reading::signed_at))]
pub fn read_signed<B: Codec>(
    alloc: Global,
    low: u64,
    bytes: &[u8],
) -> Result<(Signed<B>, &[u8]), ReadError>
    ensures { Gives (λ x. (x.0, x.1.now)) result (signed_at B.reading low bytes.now) }
{
    let (role, rest) = read_role(bytes)?;
    let (id, rest) = read_id(low, rest)?;
    let (body, rest) = read_framed(alloc, rest)?;
    let (sig, rest) = read_bytes(alloc, rest)?;
    Ok((
        Signed {
            role,
            id,
            body,
            sig,
        },
        rest,
    ))
}

fn read_ascending_of<B: Codec>(
    alloc: Global,
    count: u32,
    bytes: &[u8],
) -> Result<(Vec<Signed<B>>, &[u8]), ReadError>
    ensures { Gives (λ x. (x.0.items, x.1.now)) result (many_at (signed_at B.reading) (λ m. m.id + 1) count 0 bytes.now) }
{
    let mut values = Vec::with_capacity(alloc, count as usize)?;
    let mut rest = bytes;
    let mut low = 0;
    for _ in 0..count {
        let (value, after) = read_signed(alloc, low, rest)?;
        low = value.id as u64 + 1;
        values.push(value)?;
        rest = after;
    }
    Ok((values, rest))
}

/// A count, at most this one, and signed bodies with ids that ascend strictly.
#[tactic(auto, unfolding(crate::specs::Reading::ascending_at))]
pub fn read_ascending<B: Codec>(
    alloc: Global,
    max: u32,
    bytes: &[u8],
) -> Result<(Sequence<Signed<B>>, &[u8]), ReadError>
    ensures { Gives (λ x. (x.0, x.1.now)) result (ascending_at max B.reading bytes.now) }
{
    let (count, rest) = read_count(max, bytes)?;
    let (values, rest) = read_ascending_of(alloc, count, rest)?;
    Ok((Sequence::from_vec(values), rest))
}

fn read_list_of<T: Codec>(
    alloc: Global,
    count: u32,
    bytes: &[u8],
) -> Result<(Vec<T>, &[u8]), ReadError>
    ensures { Gives (λ x. (x.0.items, x.1.now)) result (many_at (λ _. T.reading) (λ _. 0) count 0 bytes.now) }
{
    let mut values = Vec::with_capacity(alloc, count as usize)?;
    let mut rest = bytes;
    for _ in 0..count {
        let (value, after) = T::read(alloc, rest)?;
        values.push(value)?;
        rest = after;
    }
    Ok((values, rest))
}

/// A count, at most this one, and so many values.
#[tactic(auto, unfolding(crate::specs::Reading::list_at))]
pub fn read_list<T: Codec>(
    alloc: Global,
    max: u32,
    bytes: &[u8],
) -> Result<(Sequence<T>, &[u8]), ReadError>
    ensures { Gives (λ x. (x.0, x.1.now)) result (list_at max T.reading bytes.now) }
{
    let (count, rest) = read_count(max, bytes)?;
    let (values, rest) = read_list_of(alloc, count, rest)?;
    Ok((Sequence::from_vec(values), rest))
}

/// Writes a signed body.
#[tactic(auto, unfolding(crate::specs::Layouts::signed))]
pub fn put_signed<B: Codec>(
    alloc: Global,
    out: &mut Vec<u8>,
    message: &Signed<B>,
) -> Result<(), AllocError>
    ensures text { OnOk result (out.new.items ≡ out.old.items ++ signed B.encoded message.now) }
    ensures fits { OnOk result (SignedFieldsInRange B.fields_in_range message.now) }
{
    let mut inside = Vec::new(alloc);
    message.body.put(alloc, &mut inside)?;
    put_role(out, message.role)?;
    put_u32(out, message.id)?;
    put_length_prefixed(out, &inside)?;
    put_length_prefixed(out, message.sig.as_slice())
}

/// Writes a count and the values.
#[tactic(auto, unfolding(crate::specs::Layouts::encoded_list))]
pub fn put_list<T: Codec>(alloc: Global, out: &mut Vec<u8>, values: &[T]) -> Result<(), AllocError>
    ensures text { OnOk result (out.new.items ≡ out.old.items ++ encoded_list T.encoded values.now) }
    ensures fits { OnOk result (AllByRecursion T.fields_in_range values.now) }
{
    put_length(out, values.len())?;
    for value in values {
        value.put(alloc, out)?;
    }
    Ok(())
}

impl<B: Codec> Codec for Signed<B> {
    ghost reading = { signed_at B.reading 0 };

    ghost encoded = { signed B.encoded };

    ghost fields_in_range = { SignedFieldsInRange B.fields_in_range };

    fn read(alloc: Global, bytes: &[u8]) -> Result<(Signed<B>, &[u8]), ReadError> {
        read_signed(alloc, 0, bytes)
    }

    fn put(&self, alloc: Global, out: &mut Vec<u8>) -> Result<(), AllocError> {
        put_signed(alloc, out, self)
    }
}
